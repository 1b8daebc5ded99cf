// Waiting counts of sixteen callbacks, as the steps of a tick take them (document 01, 'One tick of the machine').
// arrivals: instances that come to wait and that leave. full: row 21 of the refusals.

#![tactic(auto)]

pub mod arrivals;
pub mod full;
