// Step 3 with what runs, and step 4, the counts aside.

ghost use Rattle.std.specs.Prelude.{◌≡◌, ℕ, ◌≤◌, ◌<◌};
ghost use Rattle.numbers.specs.Numbers.{places};
ghost use Rattle.turns.specs.Turns.{turn_of, step_of};

use super::choosing::{choose, waiting_slots};
use super::{Step, Turn};
use answers::Answer;
use priority::by_kind;
use table::Table;

// Step 3: the turn of the callback that runs, or of the one chosen. The parts of the state come one by one, as `turn_of` has them: a struct of them would be
// made of a `Machine` for the one call in `executor`, and taken apart here.
pub fn turn(t: Table, waiting: [u16; 16], cache: u16, running: u8, units: u16, cost: u16) -> Turn
    requires { t.count ≤ places }
    ensures { result ≡ turn_of t waiting cache running units cost }
{
    if running != 0 {
        return Turn {
            chosen: running,
            cache,
            polled: false,
            gathered: 0,
            units,
            started: false,
        };
    }
    let x = choose(by_kind(t), cache, waiting_slots(t, waiting));
    Turn {
        chosen: x.chosen,
        cache: x.cache,
        polled: x.polled,
        gathered: x.gathered,
        units: cost,
        started: x.chosen != 0,
    }
}

// Step 4 for whose turn it is, of the instance named: idle, the last unit, or another one.
pub fn step(turn: Turn, instance: u32) -> Step
    requires { (turn.chosen ≤ places) × (0 < turn.units) }
    ensures { result ≡ step_of turn instance }
{
    if turn.chosen == 0 {
        return Step {
            cache: turn.cache,
            running: 0,
            units: 0,
            answer: Answer::Idle,
        };
    }
    if turn.units == 1 {
        return Step {
            cache: masks::clear_slot(turn.cache, (turn.chosen - 1) as u16),
            running: 0,
            units: 0,
            answer: Answer::Finished(turn.chosen, instance),
        };
    }
    Step {
        cache: turn.cache,
        running: turn.chosen,
        units: turn.units - 1,
        answer: Answer::Ran(turn.chosen, instance),
    }
}
