ghost use Rattle.std.specs.Prelude.{◌≡◌};
ghost use Rattle.search.specs.Outcomes.{Improving, Clearing};
ghost use Rattle.round.specs.Closed.{closed_book, closed_net};
ghost use Rattle.round.specs.Uses.{Law};

use super::ClosedRound;
use search::clear::clear;
use search::improve::improve;
use tables::refusal::Refusal;
use worth::kind::Worth;

// Both calls go to the generic functions, as those of a haul table do: these are what the two types share. Each call says the law
// over uses of its own type, and what its own type keeps.
impl<W: Worth> ClosedRound<W> {
    // Shifts along one cycle worth more than none, or says that the allotment is best.
    pub fn improve(&mut self, work: &mut [W]) -> Result<Option<W>, Refusal>
        ensures outcome { Improving W.Worth.ops (closed_net self.old) (closed_net self.new) work.old work.new result }
        ensures kept { closed_book self.new ≡ closed_book self.old }
        ensures law { Law W.Worth.ops }
    {
        improve(self, work)
    }

    // Improves until best, and answers the sum of the rises.
    pub fn clear(&mut self, work: &mut [W]) -> Result<W, Refusal>
        ensures outcome { Clearing W.Worth.ops (closed_net self.old) (closed_net self.new) work.old work.new result }
        ensures kept { closed_book self.new ≡ closed_book self.old }
        ensures law { Law W.Worth.ops }
    {
        clear(self, work)
    }
}
