ghost use Rattle.std.specs.Prelude.{◌≡◌};
ghost use Rattle.layout.specs.Records.{parts};
ghost use Rattle.reading.specs.Kinds.{WithParts, kind as kind_as};

use tables::refusal::Refusal;

// The kinds of worth that records have, each with the number of its parts.
#[derive(Clone, Copy, Debug, PartialEq, Eq)]
pub enum Kind {
    Money = 1,
    MoneyThenWeeks = 2,
}

impl Kind {
    // How many parts the kind has.
    pub fn parts(self) -> usize
        ensures { result ≡ parts (kind_as self) }
    {
        self as usize
    }
}

// The kind with so many parts.
impl TryFrom<u64> for Kind {
    type Error = Refusal;

    ghost try_from_gives = { WithParts };

    fn try_from(parts: u64) -> Result<Self, Refusal> {
        match parts {
            1 => Ok(Kind::Money),
            2 => Ok(Kind::MoneyThenWeeks),
            _ => Err(Refusal::Layout),
        }
    }
}
