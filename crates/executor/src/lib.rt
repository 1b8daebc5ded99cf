// The executor as a machine that moves tick by tick (document 01, 'One tick of the machine').
// starting: a machine from a table's bytes. ticks: one tick, its refusals in their order. state: the faults of a state around its table.
// effect: steps 1 to 4 put together.

#![tactic(auto)]

mod effect;
pub mod starting;
mod state;
mod ticks;

// The state: the table, and with it the edition; instances waiting and finished of each callback, the cache, the running callback's index
// (0 where nothing runs), its units left, and the ticks taken. The arrays, and the index and the units side by side, are what the lent bytes hold: row 29
// refuses values of them that do not go together, so that no Option and no invariant can stand for it.
#[derive(Clone, Copy)]
pub struct Machine {
    pub table: table::Table,
    pub waiting: [u16; 16],
    pub finished: [u32; 16],
    pub cache: u16,
    pub running: u8,
    pub units: u16,
    pub clock: u32,
}

// What a tick gives: the next state, the outcome, and beside it flags for a start and for a polling point, with the number
// of callbacks that it put in the cache, and the mask of the timers whose beat was folded. `polled` and `gathered` are two fields, since a reply has both.
#[derive(Clone, Copy)]
pub struct Ticked {
    pub machine: Machine,
    pub outcome: answers::Outcome,
    pub started: bool,
    pub polled: bool,
    pub gathered: u8,
    pub folded: u16,
}
