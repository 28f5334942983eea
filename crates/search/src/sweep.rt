// The search for a cycle worth more than none: potentials are raised in place, step by step, until a step
// closes a cycle or a pass over all arcs raises nothing; then the potentials fit.
ghost use Rattle.std.specs.Prelude.{◌≡◌, ◌<◌, ◌≤◌, ℕ, [], ◌∷◌, length, Some, slice_index_or, slice_set};
ghost use Rattle.search.specs.Links.{Unlinked, Paired, Rooted, Told};

use super::cycle::Cycle;
use super::links::Links;
use super::residual::Residual;
use flow::step::Step;
use network::bounds::MOST_NODES;
use std::ops::ControlFlow;
use worth::kind::Worth;

// For each node of a network a potential, a link, and the node that the link starts from. The potentials have a row of their own, since they lie in
// the work table that the caller lends, and the nodes one, since the ways up are gone so often that a smaller row pays. All are lent, so that a search can
// go on where another ended.
// `Same` is what each method that writes keeps; `Growing` is no invariant, since its bound differs from call to call.
#[derive(Drop)]
pub(crate) struct Search<'a, W> {
    net: Residual<'a>,
    potentials: &'a mut [W],
    links: &'a mut [Option<Step>],
    ups: &'a mut [usize],
    ghost long: { net.nodes ≤ length links.now },
    ghost paired: { Paired net.arcs.now links.now ups.now },
}

impl<'a, W: Worth> Search<'a, W> {
    ghost use Rattle.search.specs.Searches.{Same, Begun, Growing, Offers, RisesAlong, Raises, PassesTo, Finds, ClosedBy, Closes};

    // Nothing is raised yet.
    pub(crate) fn new(
        net: Residual<'a>,
        potentials: &'a mut [W],
        links: &'a mut [Option<Step>],
        ups: &'a mut [usize],
    ) -> Search<'a, W>
        requires long { length potentials.old ≡ net.nodes }
        requires links_long { net.nodes ≤ length links.old }
        requires unlinked { Unlinked links.old }
        requires paired { Paired net.arcs.now links.old ups.old }
        ensures net { result.net ≡ net.entry }
        ensures held { result.potentials.ghost_name ≡ potentials.entry.ghost_name }
        ensures linked { result.links.ghost_name ≡ links.entry.ghost_name }
        ensures row { result.ups.ghost_name ≡ ups.entry.ghost_name }
        ensures begun { Begun W.ops result }
    {
        blank(potentials);
        Search {
            net,
            potentials,
            links,
            ups,
        }
    }

    // A search that goes on from potentials and links that are there already.
    pub(crate) fn resume(
        net: Residual<'a>,
        potentials: &'a mut [W],
        links: &'a mut [Option<Step>],
        ups: &'a mut [usize],
    ) -> Search<'a, W>
        requires long { net.nodes ≤ length links.old }
        requires paired { Paired net.arcs.now links.old ups.old }
        ensures net { result.net ≡ net.entry }
        ensures held { result.potentials.ghost_name ≡ potentials.entry.ghost_name }
        ensures linked { result.links.ghost_name ≡ links.entry.ghost_name }
        ensures row { result.ups.ghost_name ≡ ups.entry.ghost_name }
        ensures potentials { result.potentials.now ≡ potentials.old }
        ensures links { result.links.now ≡ links.old }
    {
        Search {
            net,
            potentials,
            links,
            ups,
        }
    }

    // The links as they stand.
    fn links(&self) -> Links<'_>
        ensures net { result.net ≡ self.now.net }
        ensures last { result.last.now ≡ self.now.links.now }
    {
        Links {
            net: self.net,
            last: self.links,
        }
    }

    // The cycle that a step closes.
    pub(crate) fn cycle(&self, closing: Step) -> Cycle<'_>
        requires { ClosedBy W.ops self.now closing }
        ensures net { result.links.net ≡ self.now.net }
        ensures closes { Closes W.ops result }
    {
        Cycle {
            links: self.links(),
            closing,
        }
    }

    // Whether the way from a node up along the links passes `goal`. Where the link of `goal` starts from that node, it does not, since no way up comes
    // round. So it is at most raises, and the way need not be gone.
    fn passes(&self, from: usize, goal: usize) -> bool
        requires rooted { Rooted self.now.net.arcs.now self.now.links.now from }
        requires inside { goal < length self.now.links.now }
        ensures { Told self.now.net.arcs.now self.now.links.now from goal result }
    {
        if self.ups[goal] == from {
            return false;
        }
        let mut node = from;
        while node != goal {
            let Some(&up) = self.ups.get(node) else {
                return false;
            };
            node = up;
        }
        true
    }

    // A step along arc i that can be taken and offers more to its head than there is, and what it offers; or none, and then
    // neither does. One sum tells of both.
    fn rising(&self, i: usize) -> Option<(Step, W)>
        requires known { i < length self.now.net.arcs.now }
        requires growing { Growing W.ops 1000000 self.now }
        ensures { RisesAlong W.ops self.now i result }
    {
        let arc = self.net.arc(i);
        let here = self.potentials[arc.from as usize];
        let there = self.potentials[arc.to as usize];
        let unit = self.net.gain::<W>(Step::Forward(i));
        let up = here.plus(unit);
        if arc.flow < arc.capacity && there.is_less(up) {
            return Some((Step::Forward(i), up));
        }
        if 0 < arc.flow && up.is_less(there) {
            return Some((Step::Backward(i), there.minus(unit)));
        }
        None
    }

    // Raises the potential at a step's head to what the step offers, or else the step closes a cycle worth more than none.
    fn raise(&mut self, step: Step, offered: W) -> ControlFlow<Step>
        requires growing { Growing W.ops 1000000 self.old }
        requires offers { Offers W.ops self.old step (Some offered) }
        ensures same { Same self.old self.new }
        ensures raised { Raises W.ops self.old self.new step result }
    {
        let from = self.net.tail(step);
        let to = self.net.head(step);
        if self.passes(from, to) {
            return ControlFlow::Break(step);
        }
        self.potentials[to] = offered;
        set_link(self.links, self.ups, to, step, from);
        ControlFlow::Continue(())
    }

    // Goes over the arcs from number `first` on, and raises where a step offers more: whether some potential rose, or else
    // a step that closes a cycle worth more than none. Along one arc one raise is enough: the other step then offers no more.
    pub(crate) fn pass(&mut self, first: usize) -> ControlFlow<Step, bool>
        requires start { first ≤ length self.old.net.arcs.now }
        requires growing { Growing W.ops 999000 self.old }
        ensures same { Same self.old self.new }
        ensures passed { PassesTo W.ops first self.old self.new result }
    {
        let mut moved = false;
        // a step names its arc by number
        for i in first..self.net.arcs.len() {
            if let Some((step, offered)) = self.rising(i) {
                self.raise(step, offered)?;
                moved = true;
            }
        }
        ControlFlow::Continue(moved)
    }

    // The step that closes a cycle worth more than none, or none: then the potentials fit.
    // As many passes over all arcs as there are nodes suffice, since a way up the links visits no node twice.
    pub(crate) fn find_cycle(&mut self) -> Option<Step>
        requires { Begun W.ops self.old }
        ensures same { Same self.old self.new }
        ensures found { Finds W.ops self.new result }
    {
        for _ in 0..self.net.nodes {
            match self.pass(0) {
                ControlFlow::Continue(false) => return None,
                ControlFlow::Continue(true) => {}
                ControlFlow::Break(step) => return Some(step),
            }
        }
        None
    }
}

// Sets the link of a node and the node that it starts from. Both are set in one call, since each search has them agree.
fn set_link(links: &mut [Option<Step>], ups: &mut [usize], node: usize, step: Step, from: usize)
    requires link { node < length links.old }
    requires up { node < length ups.old }
    ensures links { links.new ≡ slice_set links.old node (Some step) }
    ensures ups { ups.new ≡ slice_set ups.old node from }
{
    links[node] = Some(step);
    ups[node] = from;
}

// All entries none.
pub(crate) fn blank<W: Worth>(work: &mut [W])
    ensures { (v : ℕ) → slice_index_or work.new v W.ops.none ≡ W.ops.none }
{
    work.fill_with(|| W::none());
}

// No links, at the full size of a search. They are made apart, so that what is proved of a search does not list its entries.
pub(crate) fn no_links() -> [Option<Step>; MOST_NODES]
    ensures long { length result ≡ 272 }
    ensures unlinked { Unlinked result }
{
    [None; MOST_NODES]
}

// For each node that its link starts from none: a number that no node has.
pub(crate) fn no_ups() -> [usize; MOST_NODES]
    ensures long { length result ≡ 272 }
    ensures none { (v : ℕ) → v < 272 → slice_index_or result v 0 ≡ 272 }
{
    [MOST_NODES; MOST_NODES]
}
