// A table described by plain numbers of sixteen bits: six for the header, fourteen for each record. A number that is not there reads as 0.
// Numbers too wide for the byte that a table has for them are judged as they are, and never cut to their low byte.

ghost use Rattle.std.specs.Prelude.{◌≡◌, [], ◌∷◌, ℕ, ◌*◌, ◌≤◌, length, get_or};
ghost use Rattle.numbers.specs.Numbers.{places};
ghost use Rattle.lent.specs.Bytes.{numbers as numbers_at};
ghost use Rattle.writer.specs.Writer.{write_of, buffer_after};
ghost use Rattle.writer.specs.Described.{record_size, described_record, described};
ghost use Rattle.writer.specs.Parts.{narrow as narrow_of, narrow_record, narrow_table};

use crate::Written;
use numbers::PLACES;
use table::{Callback, Table};

// The numbers of a record.
const RECORD_SIZE: usize = 14;

// The number at a place, 0 where there is none.
fn number_at(numbers: &[u16], at: usize) -> u16
    ensures { result ≡ get_or numbers.now at 0 }
{
    numbers.get(at).copied().unwrap_or(0)
}

// A number for a byte: where it is too wide the largest byte stands for it, which every rule refuses in the same way.
fn narrow(x: u16) -> u8
    ensures { result ≡ narrow_of x }
{
    x.min(255) as u8
}

// The cost entries of the record whose numbers begin at a place.
fn entries_of(numbers: &[u16], at: usize) -> [u16; 8]
    requires { at ≤ record_size * places }
    ensures { result ≡ numbers_at 1 numbers.now at 6 8 }
{
    let mut entries: [u16; 8] = [0; 8];
    for i in 0..8 {
        entries[i] = number_at(numbers, at + (6 + i));
    }
    entries
}

// The record whose numbers begin at a place.
fn record_of(numbers: &[u16], at: usize) -> Callback
    requires { at ≤ record_size * places }
    ensures { result ≡ narrow_record (described_record numbers.now at) }
{
    Callback {
        kind: narrow(number_at(numbers, at)),
        next: narrow(number_at(numbers, at + 1)),
        used: narrow(number_at(numbers, at + 2)),
        period: number_at(numbers, at + 3),
        jitter: number_at(numbers, at + 4),
        distance: number_at(numbers, at + 5),
        entries: entries_of(numbers, at),
    }
}

// The described table, with what is too wide for its byte made narrow.
fn table_of(
    edition: u16,
    count: u16,
    budget: u16,
    period: u16,
    horizon: u16,
    delay: u16,
    records: &[u16],
) -> Table
    ensures { result ≡ narrow_table (edition ∷ count ∷ []) (budget ∷ period ∷ horizon ∷ delay ∷ []) records.now }
{
    let mut t = table::blank();
    for i in 0..PLACES {
        t.callbacks[i as usize] = record_of(records, RECORD_SIZE * (i as usize));
    }
    t.edition = narrow(edition);
    t.count = narrow(count);
    t.budget = budget;
    t.period = period;
    t.horizon = horizon;
    t.delay = delay;
    t
}

// Writes the described table into the lent buffer, as `write` does. Its numbers come one by one, as C gives them (`cuorfelt_write`).
pub fn write(
    edition: u16,
    count: u16,
    budget: u16,
    period: u16,
    horizon: u16,
    delay: u16,
    records: &[u16],
    buffer: &mut [u8],
) -> Written
    ensures { (result ≡ write_of (described (edition ∷ count ∷ []) (budget ∷ period ∷ horizon ∷ delay ∷ []) records.now) (length buffer.old)) × (buffer.new ≡ buffer_after (described (edition ∷ count ∷ []) (budget ∷ period ∷ horizon ∷ delay ∷ []) records.now) buffer.old) }
{
    let t = table_of(edition, count, budget, period, horizon, delay, records);
    crate::write(t, buffer)
}
