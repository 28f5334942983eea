ghost use Rattle.std.specs.Prelude.{◌≡◌};
ghost use Rattle.round.specs.Closed.{closed_book};
ghost use Rattle.round.specs.Rounds.{book};

use super::super::open_round::OpenRound;
use super::ClosedRound;

impl<W> ClosedRound<W> {
    // What it was closed with, to be read.
    pub fn terms(&self) -> &OpenRound
        ensures { book result.now ≡ closed_book self.now }
    {
        &self.round
    }
}
