// The busy window of a level of a table, and the bound of a callback in it: of all callbacks (document 01, 'The sheet'), or of a timer and
// those above it (document 02, U5).

#![tactic(auto)]

ghost use Rattle.std.specs.Prelude.{◌≡◌, ℕ, ◌<◌, ◌≤◌, false};
ghost use Rattle.masks.specs.Mask.{has};
ghost use Rattle.numbers.specs.Numbers.{places, longest};
ghost use Rattle.rules.specs.Parts.{Sound};
ghost use Rattle.windows.specs.Bounds.{window_in, bound_in};
ghost use Rattle.windows.specs.Parts.{most_work, most_demand, head_arrivals, work_of, demand_in, but, reach_of, found, Spaced, Costed, Headed};

use table::{Callback, Table};

// Some callbacks of a table: all but those in `below`. These may take `blocking` units from the others; lengths are searched up to `horizon`.
#[derive(Clone, Copy)]
pub struct Level {
    pub below: u16,
    pub blocking: u16,
    pub horizon: u32,
}

impl Level {
    // The level without slot x, which is charged apart.
    fn without(self, x: usize) -> Level
        requires { x < places }
        ensures { result ≡ but self x }
    {
        Level {
            below: masks::set_slot(self.below, x as u16),
            ..self
        }
    }
}

// a of a head in a window of `length` ticks. The bounds of a length and of a record are clauses, here and below: a type for either would be made at each
// step of the search.
pub fn arrivals(head: Callback, length: u32) -> u32
    requires { Spaced head × (length ≤ longest) }
    ensures { (result ≡ head_arrivals head length) × (result ≤ length) }
{
    curves::arrivals(
        head.period as u32,
        head.jitter as u32,
        head.distance as u32,
        length,
    )
}

// E of a callback at the arrivals of its head in a window of `length` ticks.
#[tactic(auto, unfolding(crate::specs::Parts::work_of))]
fn work(c: Callback, head: Callback, length: u32) -> u64
    requires { Costed c × Spaced head × (length ≤ longest) }
    ensures { (result ≡ work_of c head length) × (result ≤ most_work) }
{
    let count = arrivals(head, length);
    curves::cost(&c.entries[..c.used as usize], count)
}

// A table without faults, with the head of each slot's chain, for the slots below count. The heads stand beside the table and not in its records: a record
// is what the bytes hold.
#[derive(Clone, Copy)]
pub struct Chained {
    pub table: Table,
    pub heads: [u8; 16],
    pub ghost headed: { Headed table heads },
}

impl Chained {
    // The table with its heads.
    pub fn of(t: Table) -> Chained
        requires { Sound t }
        ensures { result.table ≡ t }
    {
        let mut heads = [0u8; 16];
        for i in 0..t.count {
            heads[i as usize] = chains::head(t, i);
        }
        Chained { table: t, heads }
    }

    // The demand of a level in a window of `length` ticks, on top of what is taken from it.
    fn demand(&self, level: Level, length: u32) -> u64
        requires { length ≤ longest }
        ensures { (result ≡ demand_in self.now.table level length) × (result ≤ most_demand) }
    {
        let mut sum = level.blocking as u64;
        for i in 0..self.table.count as usize {
            if !masks::test_slot(level.below, i as u16) {
                let head = self.heads[i] as usize;
                let c = self.table.callbacks[i];
                let g = self.table.callbacks[head];
                sum += work(c, g, length);
            }
        }
        sum
    }

    // The least length whose supply is at least a demand; for a demand above `most` the length past `most`, and no Option: the search compares it, and ends
    // there.
    #[tactic(auto, unfolding(crate::specs::Parts::reach_of))]
    fn reach(&self, most: u32, demand: u64) -> u32
        requires { most ≤ longest }
        ensures { result ≡ reach_of self.now.table most demand }
    {
        curves::reach(
            self.table.budget as u32,
            self.table.period as u32,
            self.table.delay as u32,
            most,
            demand,
        )
    }

    // The least length in 1 to the horizon whose supply covers the demand of a level.
    // Demand does not fall as the length grows: where one is not covered, none is before that which supplies its demand, and there the search goes on.
    pub fn window(&self, level: Level) -> Option<u32>
        requires { level.horizon ≤ longest }
        ensures { (result ≡ found (window_in self.now.table level)) × (window_in self.now.table level ≤ longest) }
    {
        let horizon = level.horizon;
        let mut length: u32 = 1;
        // A search by jumps: no index is counted.
        while length <= horizon {
            let needed = self.demand(level, length);
            let next = self.reach(horizon, needed);
            if next <= length {
                return Some(length);
            }
            length = next;
        }
        None
    }

    // The bound of slot x in a level: the largest F(A) - A over the offsets A below its window. F does not fall, so that each search goes on
    // from the length that the offset before found. Where no instance of x is added, F is that of the offset before, and nothing is searched.
    pub fn bound(&self, level: Level, x: usize, window: u32) -> u32
        requires { (x < self.now.table.count) × (has level.below x ≡ false) × (window ≡ window_in self.now.table level) × (window ≤ longest) }
        ensures { (result ≡ bound_in self.now.table level x) × (result ≤ longest) }
    {
        let head = self.heads[x] as usize;
        let c = self.table.callbacks[x];
        let g = self.table.callbacks[head];
        let rest = level.without(x);
        let mut worst: u32 = 0;
        let mut length: u32 = 1;
        let mut others = self.demand(rest, length);
        let mut count: u32 = 0;
        for offset in 0..window {
            let charged = arrivals(g, offset + 1);
            if charged != count {
                count = charged;
                let own = work(c, g, offset + 1);
                // A search by jumps: no index is counted.
                let finish = loop {
                    let next = self.reach(window, own + others);
                    if next <= length {
                        break length;
                    }
                    length = next;
                    others = self.demand(rest, length);
                };
                worst = worst.max(finish.saturating_sub(offset));
            }
        }
        worst
    }
}
