// The window of all callbacks, and the bound of each (document 01, 'The sheet'): for timers of edition 1 the smaller of two, the other being
// that of their level (document 02, U5).

#![tactic(auto)]

ghost use Rattle.std.specs.Prelude.{◌≡◌, ℕ, ◌<◌, ◌≤◌};
ghost use Rattle.numbers.specs.Numbers.{places, longest};
ghost use Rattle.priority.specs.Priority.{precedes};
ghost use Rattle.windows.specs.Bounds.{window_of, bound_of_all, everyone as everyone_of};
ghost use Rattle.windows.specs.Parts.{found, Costed};
ghost use Rattle.levels.specs.Levels.{overtakes as overtakes_of, lower_than, blocking_by, bound_of_level, bound_of};
ghost use Rattle.levels.specs.Parts.{single_of};

use table::{Callback, Edition, Kind};
use windows::{Chained, Level};

// All callbacks.
fn everyone(t: &Chained) -> Level
    ensures { result ≡ everyone_of t.now.table }
{
    Level {
        below: 0,
        blocking: 0,
        horizon: table::horizon(t.table) as u32,
    }
}

// W: the least length in 1 to the horizon whose supply covers the demand of all callbacks.
pub fn window(t: &Chained) -> Option<u32>
    ensures { (result ≡ found (window_of t.now.table)) × (window_of t.now.table ≤ longest) }
{
    t.window(everyone(t))
}

// The bound of slot x over all callbacks.
fn bound_of_all(t: &Chained, x: usize, window: u32) -> u32
    requires { (x < t.now.table.count) × (window ≡ window_of t.now.table) × (window ≤ longest) }
    ensures { (result ≡ bound_of_all t.now.table x) × (result ≤ longest) }
{
    t.bound(everyone(t), x, window)
}

// Whether slot x has a higher priority than slot i: the kinds decide, and among equal kinds the slots.
#[tactic(auto, unfolding(priority::specs::Priority::precedes))]
fn goes_before(t: &Chained, x: usize, i: usize) -> bool
    requires { (x < places) × (i < places) }
    ensures { result ≡ precedes t.now.table x i }
{
    let kind = t.table.callbacks[x].kind;
    let other = t.table.callbacks[i].kind;
    (kind, x) < (other, i)
}

// The slots of lower priority than slot x.
fn lower(t: &Chained, x: usize) -> u16
    requires { x < t.now.table.count }
    ensures { result ≡ lower_than t.now.table x }
{
    let mut below = 0;
    for i in 0..t.table.count as usize {
        if goes_before(t, x, i) {
            below = masks::set_slot(below, i as u16);
        }
    }
    below
}

// E(1) of a callback.
#[tactic(auto, unfolding(crate::specs::Parts::single_of))]
fn single(c: Callback) -> u32
    requires { Costed c }
    ensures { (result ≡ single_of c) × (result ≤ 65535) }
{
    curves::cost(&c.entries[..c.used as usize], 1) as u32
}

// What an instance of a mask's slots may take from a level that comes when it has just started: the largest E(1), less the unit that it had.
fn blocking(t: &Chained, below: u16) -> u16
    ensures { result ≡ blocking_by t.now.table below }
{
    let mut most: u32 = 0;
    for i in 0..t.table.count as usize {
        if masks::test_slot(below, i as u16) {
            most = most.max(single(t.table.callbacks[i]));
        }
    }
    most.saturating_sub(1) as u16
}

// The bound of slot x over its level: itself and those of higher priority. Where the level has no window its length is 0, as `bound_of_level` has it.
fn bound_of_level(t: &Chained, x: usize, window: u32) -> u32
    requires { (x < t.now.table.count) × (window ≡ window_of t.now.table) × (window ≤ longest) }
    ensures { (result ≡ bound_of_level t.now.table x) × (result ≤ longest) }
{
    let below = lower(t, x);
    let level = Level {
        below,
        blocking: blocking(t, below),
        horizon: window,
    };
    let own = t.window(level).unwrap_or(0);
    t.bound(level, x, own)
}

// Whether slot x is a timer of edition 1, which goes before all that is polled.
#[tactic(auto, unfolding(crate::specs::Levels::overtakes))]
fn overtakes(t: &Chained, x: usize) -> bool
    requires { x < t.now.table.count }
    ensures { result ≡ overtakes_of t.now.table x }
{
    t.table.edition == Edition::One as u8 && t.table.callbacks[x].kind == Kind::Timer as u8
}

// The number of slot x in the row. That x is a slot of the table and `window` the table's are clauses and no type's: they are facts of two values, and
// `Chained::bound` takes a slot and the window of any level in the same way.
pub fn bound(t: &Chained, x: usize, window: u32) -> u32
    requires { (x < t.now.table.count) × (window ≡ window_of t.now.table) × (window ≤ longest) }
    ensures { (result ≡ bound_of t.now.table x) × (result ≤ longest) }
{
    let all = bound_of_all(t, x, window);
    if overtakes(t, x) {
        return all.min(bound_of_level(t, x, window));
    }
    all
}
