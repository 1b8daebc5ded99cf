// The numbers of document 01, each under one name: limits and lengths. Editions, kinds and refusals are the enums of `table`.
// specs/Numbers.antt has all of them for the definitions.

#![tactic(auto)]

// Callbacks of a table, and places of a lent row, at most; cost entries of a callback, at most.
pub const PLACES: u8 = 16;

pub const ENTRY_PLACES: u8 = 8;

// Bytes of a header, and of a record.
pub const HEADER_LENGTH: usize = 16;

pub const RECORD_LENGTH: usize = 32;

// The largest period, delay, jitter, horizon, cost entry and cost, in ticks; and the horizon of a table that leaves H at 0.
pub const LONGEST: u16 = 60000;

pub const DEFAULT_HORIZON: u16 = 60000;

// Instances of a callback that wait, and ticks that a machine takes, at most.
pub const MOST_WAITING: u16 = 255;

pub const MOST_TICKS: u32 = 1000000000;
