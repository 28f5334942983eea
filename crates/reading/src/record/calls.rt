ghost use Rattle.std.specs.Prelude.{◌≡◌, map};
ghost use Rattle.std.specs.List.{AllByRecursion};
ghost use Rattle.layout.specs.Records.{book_of};
ghost use Rattle.round.specs.Rounds.{book};
ghost use Rattle.round.specs.Uses.{Built};
ghost use Rattle.reading.specs.Contents.{contents};
ghost use Rattle.reading.specs.Held.{units_in};
ghost use Rattle.reading.specs.Kinds.{kind as kind_as};
ghost use Rattle.reading.specs.Levels.{numbers, Flat};

use super::super::kind::Kind;
use super::super::level::Level;
use super::Record;
use round::open_round::OpenRound;

impl Record {
    // The kind of worth under K.
    pub fn kind(&self) -> Kind
        ensures { kind_as result ≡ (contents self.now).kind }
    {
        self.kind
    }

    // The round's items, members, holdings and offers.
    pub fn terms(&self) -> &OpenRound
        ensures { book result.now ≡ book_of (contents self.now) }
    {
        &self.round
    }

    // The units on the lines, one after the other.
    pub fn units(&self) -> &[u32]
        ensures { result.now ≡ units_in (contents self.now).offers }
    {
        self.units.as_slice()
    }

    // The levels of the nodes, or none.
    pub fn levels(&self) -> &[Level]
        ensures written { map (numbers (contents self.now).kind) result.now ≡ (contents self.now).levels }
        ensures flat { AllByRecursion (Flat (contents self.now).kind) result.now }
    {
        self.levels.as_slice()
    }

    // The round alone. It is one that some calls from open on leave, so the law over whole uses of a round holds of what comes after.
    pub fn into_round(self) -> OpenRound
        ensures outcome { book result ≡ book_of (contents self) }
        ensures built { Built (book result) }
    {
        let Record { round, .. } = self;
        round
    }
}
