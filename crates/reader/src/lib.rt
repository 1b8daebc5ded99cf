// A table from its bytes, little-endian: refusals 1 to 14, 22 and 24, or the table.

#![tactic(auto)]

ghost use Rattle.std.specs.Prelude.{◌≡◌, ℕ, ◌+◌, ◌≤◌, length, get_or};
ghost use Rattle.numbers.specs.Numbers.{places};
ghost use Rattle.table.specs.Values.{unless};
ghost use Rattle.reader.specs.Format.{record_at, spare_at, record_start, spares_at, table_at, read_fault, read_fault_by, read_of, read_by};

use numbers::{HEADER_LENGTH, RECORD_LENGTH};
use table::{Callback, Refusal, Row, Table};

// The record from byte `at` on.
fn record_at(b: &[u8], at: usize) -> Callback
    requires { at + 32 ≤ length b.now }
    ensures { result ≡ record_at b.now at }
{
    Callback {
        kind: b[at],
        next: b[at + 1],
        used: b[at + 2],
        period: lent::get(b, at + 4),
        jitter: lent::get(b, at + 6),
        distance: lent::get(b, at + 8),
        entries: lent::get_all(b, at + 12),
    }
}

// Whether a spare byte of the record from byte `at` on is not zero.
fn spare_at(b: &[u8], at: usize) -> bool
    requires { at + 32 ≤ length b.now }
    ensures { result ≡ spare_at b.now at }
{
    !lent::all_zero(b, at + 3, at + 4)
        || !lent::all_zero(b, at + 10, at + 12)
        || !lent::all_zero(b, at + 28, at + 32)
}

// The records with a spare byte not zero.
fn spares_at(b: &[u8]) -> u16
    requires { (2 ≤ length b.now) × (get_or b.now 1 0 ≤ places) × (length b.now ≡ record_start (get_or b.now 1 0)) }
    ensures { result ≡ spares_at b.now }
{
    let n = b[1];
    let mut spares: u16 = 0;
    for i in 0..n {
        if spare_at(b, HEADER_LENGTH + RECORD_LENGTH * (i as usize)) {
            spares = masks::set_slot(spares, i as u16);
        }
    }
    spares
}

// The values that the bytes hold.
fn table_at(b: &[u8]) -> Table
    requires { (16 ≤ length b.now) × (get_or b.now 1 0 ≤ places) × (length b.now ≡ record_start (get_or b.now 1 0)) }
    ensures { result ≡ table_at b.now }
{
    let n = b[1];
    let mut t = table::blank();
    for i in 0..n {
        t.callbacks[i as usize] = record_at(b, HEADER_LENGTH + RECORD_LENGTH * (i as usize));
    }
    t.edition = b[0];
    t.count = n;
    t.budget = lent::get(b, 2);
    t.period = lent::get(b, 4);
    t.horizon = lent::get(b, 6);
    t.delay = lent::get(b, 8);
    t
}

// Reads a table, of any length: the table, or the refusal. `sums` says that 24 is tested.
pub fn read_by(bytes: &[u8], sums: bool) -> Result<Table, Refusal>
    ensures { (result ≡ unless (read_fault_by sums bytes.now) (table_at bytes.now)) × (result ≡ unless (read_by sums bytes.now).refusal (read_by sums bytes.now).table) }
{
    if bytes.len() < HEADER_LENGTH {
        return Err(Row::ShortHeader.at(0));
    }
    let n = bytes[1];
    rules::check_head(bytes[0], n)?;
    if bytes.len() != HEADER_LENGTH + RECORD_LENGTH * (n as usize) {
        return Err(Row::WrongLength.at(0));
    }
    let t = table_at(bytes);
    let spare = !lent::all_zero(bytes, 10, 16);
    rules::check_body(t, spare, spares_at(bytes), sums)?;
    Ok(t)
}

// Reads a table by all rules.
pub fn read(bytes: &[u8]) -> Result<Table, Refusal>
    ensures { (result ≡ unless (read_fault bytes.now) (table_at bytes.now)) × (result ≡ unless (read_of bytes.now).refusal (read_of bytes.now).table) }
{
    read_by(bytes, true)
}
