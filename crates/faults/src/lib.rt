// The faults of row 29 of the refusals, over the values of a state: one slot and all of them, what runs, the table.

#![tactic(auto)]

ghost use Rattle.std.specs.Prelude.{◌≡◌, Bool, ℕ};
ghost use Rattle.faults.specs.Faults.{table_fault, beyond_wrong, count_wrong, cache_wrong, slot_wrong, slots_fault, run_wrong};

use numbers::{LONGEST, MOST_WAITING, PLACES};
use table::Table;
use turns::choosing::polled;

// A slot of a state: whether it lies beyond n, is cached, runs and is polled, how many instances wait, and how many have finished.
#[derive(Clone, Copy)]
struct Slot {
    beyond: bool,
    cached: bool,
    runs: bool,
    polled: bool,
    waiting: u16,
    finished: u32,
}

impl Slot {
    // Whether it lies beyond n and is cached, waits or has finished.
    fn beyond_fault(self) -> bool
        ensures { result ≡ beyond_wrong self.beyond self.cached self.waiting self.finished }
    {
        self.beyond && (self.cached || self.waiting > 0 || self.finished > 0)
    }

    // Whether too many wait, or more have finished than ticks were taken.
    fn count_fault(self, clock: u32) -> bool
        ensures { result ≡ count_wrong self.waiting self.finished clock }
    {
        self.waiting > MOST_WAITING || self.finished > clock
    }

    // Whether it is cached or runs and nothing waits, is cached and not polled, or runs, is polled and is not cached.
    fn cache_fault(self) -> bool
        ensures { result ≡ cache_wrong self.cached self.runs self.polled self.waiting }
    {
        if self.cached {
            self.waiting == 0 || !self.polled
        } else {
            self.runs && (self.waiting == 0 || self.polled)
        }
    }

    // Whether anything is wrong in it, after so many ticks.
    fn fault(self, clock: u32) -> bool
        ensures { result ≡ slot_wrong self.beyond self.cached self.runs self.polled self.waiting self.finished clock }
    {
        self.beyond_fault() || self.count_fault(clock) || self.cache_fault()
    }
}

// Whether any slot is at fault. The parts of the state come one by one, as the definition has them: a struct of them would be made of a `Machine` for the
// one call in `executor`.
pub fn slots_fault(
    t: Table,
    cache: u16,
    running: u8,
    waiting: [u16; 16],
    finished: [u32; 16],
    clock: u32,
) -> bool
    ensures { result ≡ slots_fault t cache running waiting finished clock }
{
    for i in 0..PLACES {
        let place = i as usize;
        let slot = Slot {
            beyond: i >= t.count,
            cached: masks::test_slot(cache, i as u16),
            runs: running == i + 1,
            polled: polled(t.edition, t.callbacks[place].kind),
            waiting: waiting[place],
            finished: finished[place],
        };
        if slot.fault(clock) {
            return true;
        }
    }
    false
}

// Whether a callback beyond n runs, or the units left do not fit what runs.
pub fn run_fault(n: u8, running: u8, units: u16) -> bool
    ensures { result ≡ run_wrong n running units }
{
    if running == 0 {
        units != 0
    } else {
        running > n || !(1..=LONGEST).contains(&units)
    }
}

// Whether the reader refuses such a table.
pub fn table_fault(t: Table) -> bool
    ensures { result ≡ table_fault t }
{
    rules::check(t).is_err()
}
