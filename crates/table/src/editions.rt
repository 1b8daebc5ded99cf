// The editions, each with its number in a header. A table keeps the number that its byte gives, which may be no edition's.

ghost use Rattle.std.specs.Prelude.{◌≡◌};
ghost use Rattle.table.specs.Editions.{edition_numbered};

// Timers overtake the cache, or wait for a polling point as the rest do.
#[derive(Clone, Copy, Debug, PartialEq, Eq)]
pub enum Edition {
    One = 1,
    Two = 2,
}

// A number that no edition has.
#[derive(Clone, Copy, Debug, PartialEq, Eq)]
pub struct UnknownEdition(pub u8);

impl TryFrom<u8> for Edition {
    type Error = UnknownEdition;

    ghost try_from_gives = { λ n r. r ≡ edition_numbered n };

    fn try_from(number: u8) -> Result<Self, UnknownEdition> {
        match number {
            1 => Ok(Edition::One),
            2 => Ok(Edition::Two),
            _ => Err(UnknownEdition(number)),
        }
    }
}
