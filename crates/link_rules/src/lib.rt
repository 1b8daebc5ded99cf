// What is wrong with the links of a table and with its arrivals: refusals 11 to 14.

#![tactic(auto)]

ghost use Rattle.std.specs.Prelude.{◌≡◌, true, ℕ, ◌≤◌, ◌<◌};
ghost use Rattle.masks.specs.Mask.{has};
ghost use Rattle.masks.specs.Parts.{some_index};
ghost use Rattle.ranges.specs.Least.{lowest};
ghost use Rattle.numbers.specs.Numbers.{places};
ghost use Rattle.table.specs.Values.{unless, callback_at, next_of};
ghost use Rattle.link_rules.specs.Parts.{names_known, marks, reached_to};
ghost use Rattle.link_rules.specs.LinkRules.{arrivals_fault, links_fault};

use masks::{lowest_index, others};
use numbers::LONGEST;
use priority::by_kind;
use table::links::named;
use table::{Callback, Refusal, Row, Table};

// The mask with the slots that the walk along next from index x meets, in count steps at most. An index of 0 ends the walk, as in the records and in `marks`.
fn marked(t: Table, x: u8, mask: u16) -> u16
    requires { (t.count ≤ places) × (x ≤ t.count) × (names_known t ≡ true) }
    ensures { result ≡ marks (next_of t) t.count x mask }
{
    let mut at = x;
    let mut met = mask;
    for _ in 0..t.count {
        if at == 0 {
            return met;
        }
        let slot = at - 1;
        met = masks::set_slot(met, slot as u16);
        at = t.callbacks[slot as usize].next;
    }
    met
}

// The slots that next leads to from the heads, the heads among them: each record is met once, where none is named twice.
fn reached(t: Table, heads: u16) -> u16
    requires { (t.count ≤ places) × (names_known t ≡ true) }
    ensures { result ≡ reached_to t heads t.count }
{
    let mut met: u16 = 0;
    for i in 0..t.count {
        if masks::test_slot(heads, i as u16) {
            met = marked(t, i + 1, met);
        }
    }
    met
}

// Whether the arrivals of a head, or of a follower, are against the rules.
fn arrivals_fault(head: bool, c: Callback) -> bool
    ensures { result ≡ arrivals_fault head c }
{
    if head {
        !(1..=LONGEST).contains(&c.period)
            || c.jitter > LONGEST
            || !(1..=c.period).contains(&c.distance)
    } else {
        c.period != 0 || c.jitter != 0 || c.distance != 0
    }
}

// The lowest callback whose arrivals are against the rules, as an index.
fn first_wrong(t: Table, heads: u16) -> Option<u8>
    requires { t.count ≤ places }
    ensures { result ≡ some_index (lowest (λ i. arrivals_fault (has heads i) (callback_at t i)) t.count) }
{
    for i in 0..t.count {
        let head = masks::test_slot(heads, i as u16);
        if arrivals_fault(head, t.callbacks[i as usize]) {
            return Some(i + 1);
        }
    }
    None
}

// Refuses what is wrong with the links, then with the arrivals. That the names are known stays a clause: `check_body` has just tested it, and a type would
// be made for this one call.
pub fn check_links(t: Table) -> Result<(), Refusal>
    requires { (t.count ≤ places) × (names_known t ≡ true) }
    ensures { result ≡ unless (links_fault t) tt }
{
    let names = named(t);
    if let Some(twice) = lowest_index(names.twice) {
        return Err(Row::NamedTwice.at(twice));
    }
    if let Some(timer) = lowest_index(names.once & by_kind(t).timers) {
        return Err(Row::TimerNamed.at(timer));
    }
    let heads = others(t.count, names.once);
    if let Some(looped) = lowest_index(others(t.count, reached(t, heads))) {
        return Err(Row::Loop.at(looped));
    }
    if let Some(wrong) = first_wrong(t, heads) {
        return Err(Row::WrongArrivals.at(wrong));
    }
    Ok(())
}
