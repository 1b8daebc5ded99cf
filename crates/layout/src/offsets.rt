// The numbers of docs/STATE.md, as specs/Layout.antt has them.

// A state's length in bytes.
pub const STATE_LENGTH: usize = 640;

// Where each part begins; the table begins at byte 0.
pub const WAITING_START: usize = 528;

pub const FINISHED_START: usize = 560;

pub const CLOCK_START: usize = 624;

pub const CACHE_START: usize = 628;

pub const UNITS_START: usize = 630;

pub const RUNNING_START: usize = 632;

pub const SPARE_START: usize = 633;
