// A table's bytes from its values: the refusals 2 to 14 and 22 that the reader gives, then 23, or the table in a lent buffer.
// described: a table given as plain numbers, as hosts written in C do.

#![tactic(auto)]

ghost use Rattle.std.specs.Prelude.{◌≡◌, ℕ, ◌+◌, ◌≤◌, length};
ghost use Rattle.numbers.specs.Numbers.{places, entry_places, header_length, record_length};
ghost use Rattle.lent.specs.Bytes.{field_bytes};
ghost use Rattle.lent.specs.Over.{over};
ghost use Rattle.reader.specs.Format.{header_fields, record_start};
ghost use Rattle.reader.specs.Written.{header_numbers, record_bytes, written};
ghost use Rattle.writer.specs.Writer.{refused_writing, write_of, buffer_after};
ghost use Rattle.writer.specs.Parts.{record_front};

use numbers::{HEADER_LENGTH, RECORD_LENGTH};
use table::{Callback, Refusal, Row, Table};

pub mod described;

// What writing gives: the length of the table in bytes, or 0 and the refusal. No Result, since C gets it as it is, and the theorem reads-back and
// others speak of its length (`write_of`).
#[repr(C)]
#[derive(Clone, Copy)]
pub struct Written {
    pub length: u32,
    pub number: u8,
    pub index: u8,
}

// Writes a header.
fn put_header(b: &mut [u8], t: Table)
    requires { header_length ≤ length b.old }
    ensures { b.new ≡ over b.old 0 (field_bytes header_fields (header_numbers t)) }
{
    lent::put(b, 0, t.edition);
    lent::put(b, 1, t.count);
    lent::put(b, 2, t.budget);
    lent::put(b, 4, t.period);
    lent::put(b, 6, t.horizon);
    lent::put(b, 8, t.delay);
    lent::zero(b, 10, 6);
}

// Writes what stands in a record before its cost entries, from byte `at` on.
fn put_front(b: &mut [u8], at: usize, c: Callback)
    requires { at + record_length ≤ length b.old }
    ensures { b.new ≡ over b.old at (record_front c) }
{
    lent::put(b, at, c.kind);
    lent::put(b, at + 1, c.next);
    lent::put(b, at + 2, c.used);
    lent::put(b, at + 3, 0u8);
    lent::put(b, at + 4, c.period);
    lent::put(b, at + 6, c.jitter);
    lent::put(b, at + 8, c.distance);
    lent::put(b, at + 10, 0u16);
}

// Writes a record from byte `at` on.
fn put_record(b: &mut [u8], at: usize, c: Callback)
    requires { at + record_length ≤ length b.old }
    ensures { (b.new ≡ over b.old at (record_bytes c)) × (length c.entries ≡ entry_places) }
{
    put_front(b, at, c);
    lent::put_all(b, at + 12, &c.entries);
    lent::zero(b, at + 28, 4);
}

// Writes a table into a buffer that has room for it.
fn put_table(b: &mut [u8], t: Table)
    requires { (t.count ≤ places) × (record_start t.count ≤ length b.old) }
    ensures { b.new ≡ over b.old 0 (written t) }
{
    put_header(b, t);
    for i in 0..t.count {
        put_record(
            b,
            HEADER_LENGTH + RECORD_LENGTH * (i as usize),
            t.callbacks[i as usize],
        );
    }
}

// A refusal: its number and index, and no length.
impl From<Refusal> for Written {
    ghost from_gives = { λ r w. w ≡ refused_writing r };

    fn from(r: Refusal) -> Self {
        Written {
            length: 0,
            number: r.number,
            index: r.index,
        }
    }
}

// Writes a table given as values into the lent buffer, and says its length. A refusal leaves the buffer as it was; what stands past the
// table is kept.
pub fn write(t: Table, buffer: &mut [u8]) -> Written
    ensures { (result ≡ write_of t (length buffer.old)) × (buffer.new ≡ buffer_after t buffer.old) }
{
    if let Err(r) = rules::check(t) {
        return r.into();
    }
    let end = HEADER_LENGTH + RECORD_LENGTH * (t.count as usize);
    if buffer.len() < end {
        return Row::ShortBuffer.at(0).into();
    }
    put_table(buffer, t);
    Written {
        length: end as u32,
        number: 0,
        index: 0,
    }
}
