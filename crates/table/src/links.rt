// What the links of a table mean: who is named, which callbacks are heads, and whom a completion activates.

ghost use Rattle.std.specs.Prelude.{◌≡◌, ℕ, ◌≤◌, ◌<◌};
ghost use Rattle.masks.specs.Mask.{gather};
ghost use Rattle.masks.specs.Parts.{some_index};
ghost use Rattle.numbers.specs.Numbers.{places};
ghost use Rattle.table.specs.Links.{is_head, next_after, foreign};
ghost use Rattle.table.specs.Parts.{names_of, name_one};

use super::{Names, Table};

// The names with one more record counted, whose next is given; next counts where it is 1 to n.
fn name_one(names: Names, n: u8, next: u8) -> Names
    requires { n ≤ places }
    ensures { result ≡ name_one n names next }
{
    if next == 0 || next > n {
        return names;
    }
    let slot = (next - 1) as u16;
    let once = masks::set_slot(names.once, slot);
    if masks::test_slot(names.once, slot) {
        let twice = masks::set_slot(names.twice, slot);
        return Names { once, twice };
    }
    Names { once, ..names }
}

// The slots below count that records name, in one pass over the records.
pub fn named(t: Table) -> Names
    requires { t.count ≤ places }
    ensures { result ≡ names_of t }
{
    let mut names = Names { once: 0, twice: 0 };
    for c in &t.callbacks[..t.count as usize] {
        names = name_one(names, t.count, c.next);
    }
    names
}

// The heads: the slots below count that no record names.
pub fn heads(t: Table) -> u16
    requires { t.count ≤ places }
    ensures { result ≡ gather (is_head t) t.count }
{
    masks::others(t.count, named(t).once)
}

// The callback that the completion of an index activates; 0 where the index is, and where its chain ends.
// Both are indices as a record has its next, with 0 for nobody, and no Options: the definitions `finished_of`, `left` and `instance_at` hand them on so,
// and an Option would be made and taken apart at each.
pub fn next_after(t: Table, index: u8) -> u8
    requires { index ≤ places }
    ensures { result ≡ next_after t index }
{
    if index == 0 {
        return 0;
    }
    t.callbacks[(index - 1) as usize].next
}

// The lowest bit of the mask that belongs to no head, as an index.
pub fn lowest_foreign(t: Table, mask: u16) -> Option<u8>
    requires { t.count ≤ places }
    ensures { result ≡ some_index (foreign t mask) }
{
    masks::lowest_index(masks::outside(mask, heads(t)))
}
