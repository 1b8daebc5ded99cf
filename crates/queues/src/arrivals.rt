// Instances that come to wait, and that leave: step 1 of a tick, and a completion.

ghost use Rattle.std.specs.Prelude.{◌≡◌, ℕ, ◌+◌, ◌≤◌, ◌<◌, get_or};
ghost use Rattle.numbers.specs.Numbers.{places, most_waiting};
ghost use Rattle.queues.specs.Queues.{arrived, completed};

use masks::slots_of;

// Step 1: one more for each slot of the mask.
pub fn arrive(waiting: [u16; 16], mask: u16) -> [u16; 16]
    requires { (i : ℕ) → i < places → get_or waiting i 0 ≤ most_waiting }
    ensures { result ≡ arrived mask waiting }
{
    let mut counts = waiting;
    for slot in slots_of(mask) {
        counts[slot as usize] += 1;
    }
    counts
}

// The waiting counts after a completion: one fewer for the slot, one more for the callback of the index; index 0 ends the chain,
// as a record's next does.
pub fn complete(waiting: [u16; 16], slot: u8, next: u8) -> [u16; 16]
    requires { (slot < places) × (next ≤ places) × (0 < get_or waiting slot 0) × ((i : ℕ) → i < places → get_or waiting i 0 ≤ most_waiting + 1) }
    ensures { result ≡ completed slot next waiting }
{
    let mut counts = waiting;
    counts[slot as usize] -= 1;
    if next != 0 {
        counts[(next - 1) as usize] += 1;
    }
    counts
}
