// Step 3 of a tick: whom it chooses where nothing runs.

ghost use Rattle.std.specs.Prelude.{◌≡◌, Bool, ℕ, ◌≤◌};
ghost use Rattle.numbers.specs.Numbers.{places};
ghost use Rattle.turns.specs.Choosing.{polled};
ghost use Rattle.turns.specs.Parts.{waits_of, choose_in};

use super::{Choice, Waits};
use priority::{Kinds, foremost};
use table::{Edition, Kind, Table};

// Whether an edition gathers callbacks of a kind at polling points.
pub fn polled(edition: u8, kind: u8) -> bool
    ensures { result ≡ polled edition kind }
{
    edition == Edition::Two as u8 || kind != Kind::Timer as u8
}

// The slots of the table that wait.
pub fn waiting_slots(t: Table, waiting: [u16; 16]) -> Waits
    requires { t.count ≤ places }
    ensures { result ≡ waits_of t waiting t.count }
{
    let mut gathered = 0;
    let mut others = 0;
    for (i, c) in t.callbacks[..t.count as usize].iter().enumerate() {
        if waiting[i] > 0 {
            if polled(t.edition, c.kind) {
                gathered = masks::set_slot(gathered, i as u16);
            } else {
                others = masks::set_slot(others, i as u16);
            }
        }
    }
    Waits {
        polled: gathered,
        unpolled: others,
    }
}

// The first that waits of those that no poll gathers; else the first in the cache; else the first of those that a poll gathers.
pub fn choose(kinds: Kinds, cache: u16, waits: Waits) -> Choice
    ensures { result ≡ choose_in kinds cache waits }
{
    let first = foremost(kinds, waits.unpolled);
    if let Some(chosen) = first.or(foremost(kinds, cache)) {
        return Choice {
            chosen,
            cache,
            polled: false,
            gathered: 0,
        };
    }
    Choice {
        chosen: foremost(kinds, waits.polled).unwrap_or(0),
        cache: waits.polled,
        polled: true,
        gathered: masks::count(waits.polled) as u8,
    }
}
