ghost use Rattle.round.specs.Closed.{closed_book, closed_net, Closes};
ghost use Rattle.round.specs.Rounds.{book};
ghost use Rattle.round.specs.Uses.{Law};

use super::super::open_round::OpenRound;
use super::ClosedRound;
use std::marker::PhantomData;
use worth::kind::Worth;

impl OpenRound {
    // Ends the taking of offers and fixes the kind of worth.
    pub fn close<W: Worth>(self) -> ClosedRound<W>
        ensures outcome { Closes (book self) (closed_book result) (closed_net result) }
        ensures law { Law W.Worth.ops }
    {
        let arcs = self.arcs();
        ClosedRound {
            round: self,
            arcs,
            kind: PhantomData,
        }
    }
}
