// Whose turn a supplied tick is, and what it leaves of it (document 01, 'One tick of the machine').
// choosing: step 3, whom it chooses where nothing runs. steps: step 3 with what runs, and step 4, the counts aside.

#![tactic(auto)]

pub mod choosing;
pub mod steps;

// An index is 0 for nobody here, and no Option, as in the state that it is taken from and goes into, which row 29 judges, and in `choose_in`, `turn_of` and
// `step_of`; `polled` and `gathered` are two fields, since a reply has both. A turn has the four fields of a choice again, and no choice: where
// something runs there was none, and each use would take it apart.

// Whom step 3 chooses (0: nobody), the cache then, whether it polled, and how many the poll took.
#[derive(Clone, Copy)]
pub struct Choice {
    pub chosen: u8,
    pub cache: u16,
    pub polled: bool,
    pub gathered: u8,
}

// The slots that wait: those gathered at polling points, and the others.
#[derive(Clone, Copy)]
pub struct Waits {
    pub polled: u16,
    pub unpolled: u16,
}

// Whose turn a supplied tick is (0: nobody's), what the choice gave beside it, the units left before the tick, and whether an instance starts.
#[derive(Clone, Copy)]
pub struct Turn {
    pub chosen: u8,
    pub cache: u16,
    pub polled: bool,
    pub gathered: u8,
    pub units: u16,
    pub started: bool,
}

// What step 4 leaves: the cache, the callback that runs then (0: none), its units left, and the answer.
#[derive(Clone, Copy)]
pub struct Step {
    pub cache: u16,
    pub running: u8,
    pub units: u16,
    pub answer: answers::Answer,
}
