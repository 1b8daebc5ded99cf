// What is wrong with a table's values: refusals 2 to 14, 22 and 24, first match.
// What only bytes can show is tested by the reader (4) or comes in beside the table (5).

#![tactic(auto)]

ghost use Rattle.std.specs.Prelude.{◌≡◌, not, ◌&&◌, ℕ, ◌≤◌, ◌<◌};
ghost use Rattle.ranges.specs.Every.{every};
ghost use Rattle.numbers.specs.Numbers.{places};
ghost use Rattle.table.specs.Values.{unless};
ghost use Rattle.rules.specs.Parts.{row_number};
ghost use Rattle.rules.specs.Rules.{head_fault, supply_fault, entries_fault, joins, sums_fault, unused_fault, record_fault_by, records_by, body_by, fault_of};

use link_rules::check_links;
use numbers::{ENTRY_PLACES, LONGEST, PLACES};
use table::{Callback, Edition, Kind, Refusal, Row, Table};

// Refuses a wrong edition, then a wrong count.
pub fn check_head(edition: u8, count: u8) -> Result<(), Refusal>
    ensures { result ≡ unless (head_fault edition count) tt }
{
    if Edition::try_from(edition).is_err() {
        return Err(Row::UnknownEdition.at(0));
    }
    if !(1..=PLACES).contains(&count) {
        return Err(Row::WrongCount.at(0));
    }
    Ok(())
}

// Whether budget and period are against the rules.
fn supply_fault(budget: u16, period: u16) -> bool
    ensures { result ≡ supply_fault budget period }
{
    budget == 0 || budget > period || period > LONGEST
}

// Whether m or one of the entries E(1) to E(m) is against the rules.
fn entries_fault(c: Callback) -> bool
    ensures { result ≡ entries_fault c }
{
    let m = c.used;
    if m == 0 || m > ENTRY_PLACES {
        return true;
    }
    let mut last: u16 = 0;
    for &entry in &c.entries[..m as usize] {
        if entry <= last || entry > LONGEST {
            return true;
        }
        last = entry;
    }
    false
}

// Whether E(k + 1) is above the sum of two entries whose positions add up to k + 1. The order of the two is all one, so that the first is taken no
// further than the second.
fn above_sum(c: Callback, k: u8) -> bool
    requires { k < 8 }
    ensures { result ≡ not (every k (joins c.entries k)) }
{
    let whole = c.entries[k as usize] as u32;
    for j in 0..(k + 1) / 2 {
        let rest = k - j - 1;
        let sum = c.entries[j as usize] as u32 + c.entries[rest as usize] as u32;
        if whole > sum {
            return true;
        }
    }
    false
}

// Whether an entry is above the sum of two, where `sums` says that it matters.
fn sums_fault(c: Callback, sums: bool) -> bool
    requires { c.used ≤ 8 }
    ensures { result ≡ (sums && sums_fault c) }
{
    sums && (0..c.used).any(|k| above_sum(c, k))
}

// Whether an entry beyond E(m) is not zero.
fn unused_fault(c: Callback) -> bool
    ensures { result ≡ unused_fault c }
{
    c.entries
        .iter()
        .skip(c.used as usize)
        .any(|&entry| entry != 0)
}

// Refuses a record of n: the row, 8, 9, 10, 24 or 5.
fn check_record(n: u8, c: Callback, spare: bool, sums: bool) -> Result<(), Row>
    ensures { row_number result ≡ record_fault_by sums n c spare }
{
    if Kind::try_from(c.kind).is_err() {
        return Err(Row::WrongKind);
    }
    if c.next > n {
        return Err(Row::WrongNext);
    }
    if entries_fault(c) {
        return Err(Row::WrongEntries);
    }
    if sums_fault(c, sums) {
        return Err(Row::AboveSum);
    }
    if unused_fault(c) || spare {
        return Err(Row::SpareNotZero);
    }
    Ok(())
}

// Refuses the first record that is wrong; the mask has the records with a spare byte not zero.
fn check_records(t: Table, spares: u16, sums: bool) -> Result<(), Refusal>
    requires { t.count ≤ places }
    ensures { result ≡ unless (records_by sums spares t t.count 0) tt }
{
    for i in 0..t.count {
        let spare = masks::test_slot(spares, i as u16);
        if let Err(row) = check_record(t.count, t.callbacks[i as usize], spare, sums) {
            return Err(row.at(i + 1));
        }
    }
    Ok(())
}

// Refuses a table for what is wrong besides its edition and count; `spare` says that a spare byte of the header is not zero, `sums` that 24 is tested. Here and
// above they come one by one, as `body_by`, `records_by` and `record_fault_by` have them.
pub fn check_body(t: Table, spare: bool, spares: u16, sums: bool) -> Result<(), Refusal>
    requires { t.count ≤ places }
    ensures { result ≡ unless (body_by sums spare spares t) tt }
{
    if spare {
        return Err(Row::SpareNotZero.at(0));
    }
    if supply_fault(t.budget, t.period) {
        return Err(Row::WrongSupply.at(0));
    }
    if t.delay > LONGEST {
        return Err(Row::WrongDelay.at(0));
    }
    if t.horizon > LONGEST {
        return Err(Row::WrongHorizon.at(0));
    }
    check_records(t, spares, sums)?;
    check_links(t)
}

// Refuses a table given as values.
pub fn check(t: Table) -> Result<(), Refusal>
    ensures { result ≡ unless (fault_of t) tt }
{
    check_head(t.edition, t.count)?;
    check_body(t, false, 0, true)
}
