ghost use Rattle.std.specs.Prelude.{◌≡◌};
ghost use Rattle.round.specs.Rounds.{book, fresh};
ghost use Rattle.round.specs.Uses.{RoundLaw};

use super::OpenRound;
use tables::table::Table;
use terms::name::Name;

impl OpenRound {
    // A round with the item cash.
    pub fn open() -> OpenRound
        ensures outcome { book result ≡ fresh }
        ensures law { RoundLaw }
    {
        // a name has no default, so cash lies in the unused cells
        let cash = Name::cash();
        let mut items = Table::new(cash);
        items.push(cash).unwrap();
        OpenRound {
            items,
            members: Table::new(cash),
            holdings: Table::default(),
            offers: Table::default(),
            lines: Table::default(),
        }
    }
}
