// The head of a callback's chain, found back along the names.

#![tactic(auto)]

ghost use Rattle.std.specs.Prelude.{◌≡◌, ℕ, ◌≤◌, ◌<◌, get_or, None};
ghost use Rattle.masks.specs.Parts.{some_index};
ghost use Rattle.numbers.specs.Numbers.{places};
ghost use Rattle.chains.specs.Chains.{feeder, head_of};

use numbers::PLACES;
use table::Table;

// For each slot the lowest callback that names it, as an index. From the last record to the first, so that the lowest stays.
fn feeders(t: Table) -> [Option<u8>; 16]
    requires { t.count ≤ places }
    ensures { (i : ℕ) → i < places → get_or result i None ≡ some_index (feeder t i) }
{
    let mut by = [None; 16];
    for i in (0..t.count).rev() {
        let next = t.callbacks[i as usize].next;
        if next != 0 && next <= PLACES {
            by[(next - 1) as usize] = Some(i + 1);
        }
    }
    by
}

// The slot of the head from which next leads to this slot, count steps back at most; a head's is itself.
pub fn head(t: Table, slot: u8) -> u8
    requires { (t.count ≤ places) × (slot < places) }
    ensures { result ≡ head_of t slot }
{
    let by = feeders(t);
    let mut x = slot;
    for _step in 0..t.count {
        let Some(p) = by[x as usize] else {
            return x;
        };
        x = p - 1;
    }
    x
}
