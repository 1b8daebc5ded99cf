// The curves of document 01 as functions on numbers: arrivals, cost, and the inverse of the supply.
// They assume what the reader has tested of a table, and lengths up to twice the longest horizon.

#![tactic(auto)]

ghost use Rattle.std.specs.Prelude.{◌≡◌, ℕ, ◌<◌, ◌≤◌, ◌*◌, length};
ghost use Rattle.numbers.specs.Numbers.{longest};
ghost use Rattle.curves.specs.Parts.{max_length, reach as reach_of, reach_up_to};
ghost use Rattle.curves.specs.Arrivals.{arrivals as arrivals_of};
ghost use Rattle.curves.specs.Cost.{cost as cost_of};

// a(length): the activations of a head in any window of that many ticks, at most; 0 for no ticks, whatever the jitter.
pub fn arrivals(period: u32, jitter: u32, distance: u32, length: u32) -> u32
    requires { (0 < period) × (period ≤ longest) × (jitter ≤ longest) × (0 < distance) × (distance ≤ longest) × (length ≤ max_length) }
    ensures { (result ≡ arrivals_of period jitter distance length) × (result ≤ length) }
{
    if length == 0 {
        return 0;
    }
    let periodic = (length + jitter).div_ceil(period);
    let spaced = length.div_ceil(distance);
    periodic.min(spaced)
}

// E(count): the cost of that many consecutive instances, at most, by the entries of a callback.
pub fn cost(entries: &[u16], count: u32) -> u64
    requires { (1 ≤ length entries.now) × (length entries.now ≤ 8) }
    ensures { (result ≡ cost_of entries.now count) × (result ≤ 65535 * count) }
{
    let m = entries.len() as u32;
    let rounds = (count / m) as u64;
    let whole = rounds * entries[entries.len() - 1] as u64;
    let left = (count % m) as usize;
    if left == 0 {
        return whole;
    }
    whole + entries[left - 1] as u64
}

// The least length whose supply is at least `demand`; for a demand above `most` the length past `most`, since no length supplies more ticks than it has.
// No Option: the search compares the length, and ends past `most`.
// With that test first, 32 bits hold all that follows: at most 59,999 periods of 60,000 ticks, and beside them the delay, two gaps and a budget.
pub fn reach(budget: u32, period: u32, delay: u32, most: u32, demand: u64) -> u32
    requires { (0 < budget) × (budget ≤ period) × (period ≤ longest) × (delay ≤ longest) × (most ≤ longest) }
    ensures { result ≡ reach_up_to most (reach_of budget period delay) demand }
{
    if demand > most as u64 {
        return most + 1;
    }
    if demand == 0 {
        return 0;
    }
    let x = demand as u32;
    let gap = period - budget;
    let k = (x - 1) / budget;
    let rest = x - k * budget;
    delay + k * period + 2 * gap + rest
}
