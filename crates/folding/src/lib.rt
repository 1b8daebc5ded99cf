// The timer beats of a tick that are folded (document 02, U6).

#![tactic(auto)]

ghost use Rattle.std.specs.Prelude.{◌≡◌, ◌&&◌, ℕ, ◌<◌, eqb};
ghost use Rattle.numbers.specs.Numbers.{places, timer};
ghost use Rattle.folding.specs.Folding.{unstarted, folded_of};

use masks::slots_of;
use table::{Kind, Table};

// Whether a beat of the slot is folded, by its kind, its waiting count and the callback that runs.
fn folds(kind: u8, waiting: u16, running: u8, slot: u16) -> bool
    requires { slot < places }
    ensures { result ≡ (eqb kind timer && unstarted waiting running slot) }
{
    if kind != Kind::Timer as u8 {
        return false;
    }
    if running as u16 == slot + 1 {
        return waiting > 1;
    }
    waiting > 0
}

// The timers of the mask of which an instance waits that has not started. The parts of the state come one by one, as `folded_of` has them: a struct of them
// would be made of a `Machine` for the one call in `executor`.
pub fn folded(t: Table, waiting: [u16; 16], running: u8, mask: u16) -> u16
    ensures { result ≡ folded_of t waiting running mask }
{
    let mut beats = 0;
    for slot in slots_of(mask) {
        let i = slot as usize;
        if folds(t.callbacks[i].kind, waiting[i], running, slot) {
            beats = masks::set_slot(beats, slot);
        }
    }
    beats
}
