// Queues that are full: 255 instances wait.

ghost use Rattle.std.specs.Prelude.{◌≡◌, ℕ};
ghost use Rattle.masks.specs.Parts.{some_index};
ghost use Rattle.queues.specs.Queues.{full_with};
ghost use Rattle.queues.specs.Parts.{full_in};

use masks::slots_of;
use numbers::{MOST_WAITING, PLACES};

// The lowest callback of the mask that has 255 waiting.
fn first_full(waiting: [u16; 16], mask: u16) -> Option<u8>
    ensures { result ≡ some_index (full_in waiting mask) }
{
    for slot in slots_of(mask) {
        if waiting[slot as usize] >= MOST_WAITING {
            return Some(slot as u8 + 1);
        }
    }
    None
}

// The lowest callback with 255 waiting, of the mask and of the one that is activated. No callback is activated where next is 0, or the
// index of no place: any number, as a record may have it and `full_with` takes it.
pub fn lowest_full(waiting: [u16; 16], mask: u16, next: u8) -> Option<u8>
    ensures { result ≡ some_index (full_with waiting mask next) }
{
    if next == 0 || next > PLACES {
        return first_full(waiting, mask);
    }
    first_full(waiting, masks::set_slot(mask, (next - 1) as u16))
}
