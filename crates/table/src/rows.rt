// The rows of document 01's table of refusals, each with its number: what a refusal says.

ghost use Rattle.std.specs.Prelude.{◌≡◌};
ghost use Rattle.table.specs.Rows.{number_of};
ghost use Rattle.table.specs.Values.{refuse};

use super::Refusal;

#[derive(Clone, Copy, Debug, PartialEq, Eq)]
pub enum Row {
    // The header.
    ShortHeader = 1,
    UnknownEdition = 2,
    WrongCount = 3,
    WrongLength = 4,
    SpareNotZero = 5,
    WrongSupply = 6,
    WrongDelay = 22,
    WrongHorizon = 7,

    // A record.
    WrongKind = 8,
    WrongNext = 9,
    WrongEntries = 10,
    AboveSum = 24,

    // The links and the arrivals.
    NamedTwice = 11,
    TimerNamed = 12,
    Loop = 13,
    WrongArrivals = 14,

    // The analyser and its row.
    NoWindow = 15,
    TooMany = 16,
    ShortRow = 17,

    // The writer.
    ShortBuffer = 23,

    // The tick.
    TicksSpent = 18,
    WrongCost = 19,
    NotAHead = 20,
    QueueFull = 21,
    FaultyState = 29,
}

impl Row {
    // The refusal of this row that names a callback by its index; 0 where the row names none.
    pub fn at(self, index: u8) -> Refusal
        ensures { result ≡ refuse (number_of self) index }
    {
        Refusal {
            number: self as u8,
            index,
        }
    }
}
