// One tick: the first refusal that applies, 29, 18, 19, 20, 21, or the effect.

ghost use Rattle.std.specs.Prelude.{◌≡◌, false};
ghost use Rattle.numbers.specs.Numbers.{most_waiting};
ghost use Rattle.table.specs.Links.{foreign};
ghost use Rattle.faults.specs.Faults.{table_fault};
ghost use Rattle.executor.specs.Tick.{refused, tick_of};
ghost use Rattle.executor.specs.Parts.{Admissible, admitted};

use super::{Machine, Ticked};
use answers::finished;
use faults::table_fault;
use numbers::{LONGEST, MOST_TICKS};
use queues::full::lowest_full;
use table::links::{lowest_foreign, next_after};
use table::{Refusal, Row};

impl Machine {
    // A refused tick: the state stays.
    #[tactic(auto, unfolding(crate::specs::Tick::refused))]
    fn refuse(self, why: Refusal) -> Ticked
        ensures { result ≡ refused self why }
    {
        Ticked {
            machine: self,
            outcome: Err(why),
            started: false,
            polled: false,
            gathered: 0,
            folded: 0,
        }
    }

    // The effect, unless a queue that it fills is full.
    fn advance(self, mask: u16, supplied: bool, cost: u16) -> Ticked
        requires { (Admissible most_waiting self cost) × (foreign self.table mask ≡ 0) }
        ensures { result ≡ admitted self mask supplied cost }
    {
        let ticked = self.effect(mask, supplied, cost);
        let next = next_after(self.table, finished(ticked.outcome));
        match lowest_full(self.waiting, masks::outside(mask, ticked.folded), next) {
            Some(full) => self.refuse(Row::QueueFull.at(full)),
            None => ticked,
        }
    }

    // A tick of a state whose table has no faults.
    pub fn tick_checked(self, mask: u16, supplied: bool, cost: u32) -> Ticked
        requires { table_fault self.table ≡ false }
        ensures { result ≡ tick_of self mask supplied cost }
    {
        if self.state_fault() {
            return self.refuse(Row::FaultyState.at(0));
        }
        if self.clock >= MOST_TICKS {
            return self.refuse(Row::TicksSpent.at(0));
        }
        if cost == 0 || cost > LONGEST as u32 {
            return self.refuse(Row::WrongCost.at(0));
        }
        if let Some(index) = lowest_foreign(self.table, mask) {
            return self.refuse(Row::NotAHead.at(index));
        }
        self.advance(mask, supplied, cost as u16)
    }

    // One tick of any state.
    pub fn tick(self, mask: u16, supplied: bool, cost: u32) -> Ticked
        ensures { result ≡ tick_of self mask supplied cost }
    {
        if table_fault(self.table) {
            return self.refuse(Row::FaultyState.at(0));
        }
        self.tick_checked(mask, supplied, cost)
    }
}
