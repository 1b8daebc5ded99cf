// The callback table of document 01: its values, and what its links and kinds mean.
// kinds: the kinds of callbacks. editions: the editions. links: who is named, heads. rows: the rows of the table of refusals.

#![tactic(auto)]

ghost use Rattle.std.specs.Prelude.{◌≡◌, ℕ};
ghost use Rattle.table.specs.Said.{refusal_in};
ghost use Rattle.table.specs.Values.{refuse, blank_table, horizon_of};

pub mod editions;
pub mod kinds;
pub mod links;
pub mod rows;

pub use editions::{Edition, UnknownEdition};
pub use kinds::{Kind, UnknownKind};
pub use rows::Row;

// The number and the callback index that document 01's table of refusals gives; number 0 where nothing is refused. Two numbers and no enum, since C gets
// them as they are.
#[repr(C)]
#[derive(Clone, Copy)]
pub struct Refusal {
    pub number: u8,
    pub index: u8,
}

// A refusal with its number and callback index.
pub fn refused(number: u8, index: u8) -> Refusal
    ensures { result ≡ refuse number index }
{
    Refusal { number, index }
}

// The refusal in a result, as C has it: number 0 where there is none.
pub fn refusal_of<T: Copy>(said: Result<T, Refusal>) -> Refusal
    ensures { result ≡ refusal_in said }
{
    match said {
        Ok(_) => refused(0, 0),
        Err(why) => why,
    }
}

// One record: kind, next, m (how many of the cost entries are used), T, J, d, and the entries E(1) to E(8). A count beside an array, since memory is fixed,
// and since 5 refuses a record for what stands beyond m.
#[derive(Clone, Copy)]
pub struct Callback {
    pub kind: u8,
    pub next: u8,
    pub used: u8,
    pub period: u16,
    pub jitter: u16,
    pub distance: u16,
    pub entries: [u16; 8],
}

// The header's numbers, H as given, and sixteen places. Nobody looks at those beyond count; a reading leaves them blank.
// A count beside an array, since memory is fixed; and count, kind and the others are any numbers, since the rules and `writer::write` are given any and
// refuse them.
#[derive(Clone, Copy)]
pub struct Table {
    pub edition: u8,
    pub count: u8,
    pub budget: u16,
    pub period: u16,
    pub horizon: u16,
    pub delay: u16,
    pub callbacks: [Callback; 16],
}

// Slots that records name as next: at least once, and at least twice.
#[derive(Clone, Copy)]
pub struct Names {
    pub once: u16,
    pub twice: u16,
}

// A table of blank places with nothing in its header, as it stands beside a refusal.
pub fn blank() -> Table
    ensures { result ≡ blank_table }
{
    let place = Callback {
        kind: 0,
        next: 0,
        used: 0,
        period: 0,
        jitter: 0,
        distance: 0,
        entries: [0; 8],
    };
    Table {
        edition: 0,
        count: 0,
        budget: 0,
        period: 0,
        horizon: 0,
        delay: 0,
        callbacks: [place; 16],
    }
}

// The horizon in ticks: H, or 60,000 where H is 0.
pub fn horizon(t: Table) -> u16
    ensures { result ≡ horizon_of t }
{
    if t.horizon == 0 {
        return numbers::DEFAULT_HORIZON;
    }
    t.horizon
}
