// The effect of a tick that nothing refuses: steps 1 to 4 in turn. An index of 0 is nobody's, as in the bytes of a state and in the
// definitions that row 29 and the steps go by (`instance_at`, `completed_by`, `finished_of`), so that it stays a number.

ghost use Rattle.std.specs.Prelude.{◌≡◌, ℕ, suc, ◌+◌, ◌≤◌, ◌<◌, Ok};
ghost use Rattle.numbers.specs.Numbers.{places, most_ticks, most_waiting};
ghost use Rattle.answers.specs.Outcome.{finished_of};
ghost use Rattle.table.specs.Links.{foreign};
ghost use Rattle.executor.specs.State.{finished_at};
ghost use Rattle.executor.specs.Effect.{folded_in, arrive, unsupplied, instance_at, ticked, served, effect};
ghost use Rattle.executor.specs.Parts.{Room, Admissible, Completes, completed_by};

use super::{Machine, Ticked};
use answers::{Answer, finished};
use queues::arrivals::complete;
use table::links::next_after;
use turns::steps::{step, turn};
use turns::{Step, Turn};

impl Machine {
    // The timers of the mask whose beat is folded. Most ticks bring nothing, and need no copy of table and counts.
    fn folded(self, mask: u16) -> u16
        ensures { result ≡ folded_in self mask }
    {
        if mask == 0 {
            return 0;
        }
        folding::folded(self.table, self.waiting, self.running, mask)
    }

    // Step 1: the state with the arrivals that are kept of the mask, those folded being known. The state is copied whole and then changed, here and
    // below: built by `..self` it is copied field by field, and a tick takes 3 to 10 in a hundred longer (docs/DESIGN-PASS.md, 'Speed').
    fn arrive(self, mask: u16, folded: u16) -> Machine
        requires { (Room most_waiting self) × (folded ≡ folded_in self mask) }
        ensures { result ≡ arrive self mask }
    {
        let mut m = self;
        m.waiting = queues::arrivals::arrive(self.waiting, masks::outside(mask, folded));
        m
    }

    // Step 2: a tick without supply ends with the arrivals.
    #[tactic(auto, unfolding(crate::specs::Effect::unsupplied))]
    fn unsupplied(self, folded: u16) -> Ticked
        requires { self.clock < most_ticks }
        ensures { result ≡ unsupplied self folded }
    {
        let mut machine = self;
        machine.clock += 1;
        Ticked {
            machine,
            outcome: Ok(Answer::NoSupply),
            started: false,
            polled: false,
            gathered: 0,
            folded,
        }
    }

    // The instance of the callback of an index that is to run, from 1; 0 where the index is.
    fn instance(self, index: u8) -> u32
        requires { (i : ℕ) → index ≡ suc i → (i < places) × (finished_at self i < most_ticks) }
        ensures { result ≡ instance_at self index }
    {
        if index == 0 {
            return 0;
        }
        self.finished[(index - 1) as usize] + 1
    }

    // The counts of a completion of the callback of an index; 0 is nobody's.
    fn completed(self, index: u8) -> Machine
        requires { (i : ℕ) → index ≡ suc i → Completes self i }
        ensures { result ≡ completed_by self index }
    {
        if index == 0 {
            return self;
        }
        let slot = index - 1;
        let next = next_after(self.table, index);
        let mut m = self;
        m.finished[slot as usize] = self.instance(index);
        m.waiting = complete(self.waiting, slot, next);
        m
    }

    // What the tick gives after step 4.
    fn after(self, folded: u16, x: Turn, s: Step) -> Ticked
        requires { (self.clock < most_ticks) × ((i : ℕ) → finished_of (Ok s.answer) ≡ suc i → Completes self i) }
        ensures { result ≡ ticked self folded x s }
    {
        let outcome = Ok(s.answer);
        let mut machine = self.completed(finished(outcome));
        machine.cache = s.cache;
        machine.running = s.running;
        machine.units = s.units;
        machine.clock = self.clock + 1;
        Ticked {
            machine,
            outcome,
            started: x.started,
            polled: x.polled,
            gathered: x.gathered,
            folded,
        }
    }

    // Steps 3 and 4. What is asked stays a clause here and twice more: a type with an invariant would have to be built before the
    // arrivals and again after them, where one more may wait.
    fn serve(self, folded: u16, cost: u16) -> Ticked
        requires { Admissible (most_waiting + 1) self cost }
        ensures { result ≡ served self folded cost }
    {
        let x = turn(
            self.table,
            self.waiting,
            self.cache,
            self.running,
            self.units,
            cost,
        );
        let s = step(x, self.instance(x.chosen));
        self.after(folded, x, s)
    }

    // The whole tick.
    pub(crate) fn effect(self, mask: u16, supplied: bool, cost: u16) -> Ticked
        requires { (Admissible most_waiting self cost) × (foreign self.table mask ≡ 0) }
        ensures { result ≡ effect self mask supplied cost }
    {
        let folded = self.folded(mask);
        let m = self.arrive(mask, folded);
        if supplied {
            return m.serve(folded, cost);
        }
        m.unsupplied(folded)
    }
}
