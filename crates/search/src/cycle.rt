// A cycle that a search has found, and what it allows and gains.
ghost use Rattle.std.specs.Prelude.{◌≡◌, ◌≤◌, length, take};

use super::links::{Ascent, Links};
use flow::step::Step;
use network::bounds::MOST_NODES;
use worth::kind::Worth;

// The step that closes it, and the links, by which the way leads on from that step's tail up to its head.
#[derive(Clone, Copy)]
pub(crate) struct Cycle<'a> {
    pub(crate) links: Links<'a>,
    pub(crate) closing: Step,
}

// How many steps a cycle has, how much all of them can take, and what one unit along it gains.
#[derive(Clone, Copy)]
pub(crate) struct Measure<W> {
    pub(crate) count: usize,
    pub(crate) amount: u32,
    pub(crate) gain: W,
}

// A row for the steps of a cycle, at the full size of a search.
pub(crate) fn no_steps() -> [Step; MOST_NODES]
    ensures { length result ≡ 272 }
{
    [Step::Forward(0); MOST_NODES]
}

impl<'a> Cycle<'a> {
    ghost use Rattle.search.specs.Ascents.{steps_left};
    ghost use Rattle.search.specs.Searches.{net_of, steps_of, Closes, Measures};

    // The steps, against their direction: the closing one first.
    fn steps(self) -> Ascent<'a>
        ensures { steps_left result ≡ steps_of self.entry }
    {
        let goal = self.links.net.head(self.closing);
        self.links.ascent(Some(self.closing), goal)
    }

    // What it allows and gains. Its steps are put into a row, since they are found by the arcs, which a shift writes.
    pub(crate) fn measure<W: Worth>(self, steps: &mut [Step]) -> Measure<W>
        requires closes { Closes W.ops self }
        requires long { self.links.net.nodes ≤ length steps.old }
        ensures few { result.count ≤ length steps.new }
        ensures steps { take result.count steps.new ≡ steps_of self.entry }
        ensures measured { Measures W.ops (net_of self.entry.links.net) (take result.count steps.new) result }
    {
        let net = self.links.net;
        let mut count = 0;
        let mut amount = u32::MAX;
        let mut gain = W::none();
        // A `fold` is no plainer: `plus` has a bound, so its closure would need a clause that bounds the gain so far.
        for step in self.steps() {
            steps[count] = step;
            count += 1;
            amount = amount.min(net.room(step));
            gain = net.gain::<W>(step).plus(gain);
        }
        Measure {
            count,
            amount,
            gain,
        }
    }
}
