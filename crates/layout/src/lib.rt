// The machine's state packed in lent bytes and unpacked, as docs/STATE.md lays it out. offsets: its length, and where each part begins.

#![tactic(auto)]

ghost use Rattle.std.specs.Prelude.{◌≡◌, length};
ghost use Rattle.numbers.specs.Numbers.{places};
ghost use Rattle.lent.specs.Over.{over};
ghost use Rattle.layout.specs.Layout.{state_length, tail_start, tail_at, machine_of, packed_tail};
ghost use Rattle.layout.specs.Parts.{machine_in};

use executor::Machine;
use numbers::{HEADER_LENGTH, PLACES, RECORD_LENGTH};
use offsets::{
    CACHE_START, CLOCK_START, FINISHED_START, RUNNING_START, SPARE_START, STATE_LENGTH,
    UNITS_START, WAITING_START,
};
use table::Table;

pub mod offsets;

// The state around a table that was read already.
fn unpack_with(state: &[u8], table: Table) -> Machine
    requires { length state.now ≡ state_length }
    ensures { result ≡ machine_of table (tail_at state.now) }
{
    Machine {
        table,
        waiting: lent::get_all(state, WAITING_START),
        finished: lent::get_all(state, FINISHED_START),
        cache: lent::get(state, CACHE_START),
        running: lent::get(state, RUNNING_START),
        units: lent::get(state, UNITS_START),
        clock: lent::get(state, CLOCK_START),
    }
}

// Writes the fields of a state over bytes that hold its table already.
pub fn pack_tail(state: &mut [u8], m: Machine)
    requires { length state.old ≡ state_length }
    ensures { (state.new ≡ over state.old tail_start (packed_tail m)) × (length m.waiting ≡ places) × (length m.finished ≡ places) }
{
    lent::put_all(state, WAITING_START, &m.waiting);
    lent::put_all(state, FINISHED_START, &m.finished);
    lent::put(state, CLOCK_START, m.clock);
    lent::put(state, CACHE_START, m.cache);
    lent::put(state, UNITS_START, m.units);
    lent::put(state, RUNNING_START, m.running);
    lent::zero(state, SPARE_START, STATE_LENGTH - SPARE_START);
}

// The state that the bytes hold, if they are laid out as one.
pub fn unpack(state: &[u8]) -> Option<Machine>
    ensures { result ≡ machine_in state.now }
{
    if state.len() != STATE_LENGTH || state[1] > PLACES {
        return None;
    }
    let end = HEADER_LENGTH + RECORD_LENGTH * state[1] as usize;
    if !lent::all_zero(state, end, WAITING_START)
        || !lent::all_zero(state, SPARE_START, STATE_LENGTH)
    {
        return None;
    }
    let Ok(t) = reader::read_by(&state[..end], true) else {
        return None;
    };
    Some(unpack_with(state, t))
}
