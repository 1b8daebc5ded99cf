// The kinds of callbacks, each with its number in a record. A record keeps the number that its byte gives, which may be no kind's.

ghost use Rattle.std.specs.Prelude.{◌≡◌};
ghost use Rattle.table.specs.Kinds.{kind_numbered};

#[derive(Clone, Copy, Debug, PartialEq, Eq)]
pub enum Kind {
    Timer = 1,
    Subscription = 2,
    Service = 3,
    Client = 4,
}

// A number that no kind has.
#[derive(Clone, Copy, Debug, PartialEq, Eq)]
pub struct UnknownKind(pub u8);

impl TryFrom<u8> for Kind {
    type Error = UnknownKind;

    ghost try_from_gives = { λ n r. r ≡ kind_numbered n };

    fn try_from(number: u8) -> Result<Self, UnknownKind> {
        match number {
            1 => Ok(Kind::Timer),
            2 => Ok(Kind::Subscription),
            3 => Ok(Kind::Service),
            4 => Ok(Kind::Client),
            _ => Err(UnknownKind(number)),
        }
    }
}
