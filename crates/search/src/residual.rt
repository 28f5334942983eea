// The residual network over a table of arcs: where a step leads, how much it can take, and what it is worth.
ghost use Rattle.std.specs.Prelude.{◌≡◌};
ghost use Rattle.flow.specs.Arcs.{arc_at, net};
ghost use Rattle.flow.specs.Steps.{step_worth};
ghost use Rattle.network.specs.Networks.{Sound};
ghost use Rattle.search.specs.Links.{tail_of, head_of, residual_of};

use flow::arc::Arc;
use flow::step::Step;
use worth::kind::Worth;

// A network's arcs, read into a table.
#[derive(Clone, Copy)]
pub(crate) struct Residual<'a> {
    pub(crate) nodes: usize,
    pub(crate) arcs: &'a [Arc],
    ghost sound: { Sound (record { nodes = nodes; arcs = arcs.now }) },
}

impl<'a> Residual<'a> {
    // Arc i, or an idle one where there is none, so that each question below has an answer for every step.
    pub(crate) fn arc(self, i: usize) -> Arc
        ensures { result ≡ arc_at self.entry.arcs.now i }
    {
        self.arcs.get(i).copied().unwrap_or_default()
    }

    // The node that a step starts from.
    pub(crate) fn tail(self, step: Step) -> usize
        ensures { result ≡ tail_of self.entry.arcs.now step }
    {
        match step {
            Step::Forward(i) => self.arc(i).from as usize,
            Step::Backward(i) => self.arc(i).to as usize,
        }
    }

    // The node that a step leads to. Through `tail` it would need a function that turns a step round, for this one place.
    pub(crate) fn head(self, step: Step) -> usize
        ensures { result ≡ head_of self.entry.arcs.now step }
    {
        match step {
            Step::Forward(i) => self.arc(i).to as usize,
            Step::Backward(i) => self.arc(i).from as usize,
        }
    }

    // How much a step can take.
    pub(crate) fn room(self, step: Step) -> u32
        ensures { result ≡ residual_of self.entry.arcs.now step }
    {
        match step {
            Step::Forward(i) => self.arc(i).capacity - self.arc(i).flow,
            Step::Backward(i) => self.arc(i).flow,
        }
    }

    // What one unit along a step is worth.
    pub(crate) fn gain<W: Worth>(self, step: Step) -> W
        ensures { result ≡ step_worth W.ops (net W.ops self.entry.nodes self.entry.arcs.now) step }
    {
        match step {
            Step::Forward(i) => W::unit(self.arc(i).price, self.arc(i).weeks),
            Step::Backward(i) => W::unit(self.arc(i).price, self.arc(i).weeks).negated(),
        }
    }
}
