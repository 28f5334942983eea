// Cycle after cycle, with the potentials and the links kept from each to the next, since one shift leaves most of them as they were.
// A pass over all arcs that raises nothing shows that no cycle is left. What is kept does not always pay: a high potential that a shift leaves behind
// can wander on along arcs of loss, one arc a pass. So once a cycle is closed, passes that close none are counted, and where they are as many as the cycles
// the search begins again from none.
ghost use Rattle.std.specs.Prelude.{◌≡◌, ◌<◌, ◌≤◌, ℕ, length, take, All};
ghost use Rattle.search.specs.Outcomes.{Improves};
ghost use Rattle.search.specs.Sweeps.{Small, Forest, Closing};
ghost use Rattle.search.specs.Links.{head_of, Paired, OpenLinks, OpenBut};
ghost use Rattle.search.specs.Passes.{Cut, Passed, Climbs};
ghost use Rattle.search.specs.Searches.{net_of, Measures};

use super::cycle::{Cycle, Measure, no_steps};
use super::improve::read_arcs;
use super::links::Links;
use super::residual::Residual;
use super::shift::{arc_of, shift};
use super::sweep::{Search, blank, no_links, no_ups};
use flow::arc::Arc;
use flow::step::Step;
use network::bounds::MOST_ARCS;
use network::improvable::Improvable;
use network::readable::Network;
use std::ops::ControlFlow;
use tables::table::Table;
use worth::kind::Worth;

// At most so many, so that the sizes of potentials stay within their bound: a pass adds at most 448 to them.
const PASSES: usize = 1_000;

// How quick cycles end, with the sum of their rises.
pub(crate) enum Climbed<W> {
    // A pass over all arcs raised nothing: the potentials fit.
    Best(W),
    // The passes are spent.
    Left(W),
}

// Takes away the links that can take nothing any more. They are steps of the cycle that was shifted along.
fn cut(net: Residual, steps: &[Step], links: &mut [Option<Step>], ups: &mut [usize])
    requires paired { Paired net.arcs.now links.old ups.old }
    requires within { All (λ s. head_of net.arcs.now s < length links.old) steps.now }
    requires links { OpenBut net.arcs.now steps.now links.old }
    ensures cut { Cut net.entry.arcs.now links.old links.new }
    ensures paired { Paired net.entry.arcs.now links.new ups.new }
{
    for step in steps {
        let node = net.head(*step);
        if let Some(link) = links[node] {
            if net.room(link) == 0 {
                links[node] = None;
                ups[node] = ups.len();
            }
        }
    }
}

// Goes over the arcs from number `first` on, and raises where a step offers more: whether some potential rose, or else a step
// that closes a cycle worth more than none.
fn pass<W: Worth>(
    net: Residual,
    potentials: &mut [W],
    links: &mut [Option<Step>],
    ups: &mut [usize],
    first: usize,
) -> ControlFlow<Step, bool>
    requires start { first ≤ length net.arcs.now }
    requires paired { Paired net.arcs.now links.old ups.old }
    requires forest { Forest W.ops net.nodes net.arcs.now potentials.old links.old }
    requires small { Small W.ops 999000 potentials.old }
    ensures passed { Passed W.ops net.entry.nodes net.entry.arcs.now first potentials.old links.old potentials.new links.new result }
    ensures paired { Paired net.entry.arcs.now links.new ups.new }
{
    Search::resume(net, potentials, links, ups).pass(first)
}

// Begins again from no potentials and no links, where the pass that closed no cycle was the last that the cycles allow.
fn renew<W: Worth>(
    net: Residual,
    left: usize,
    potentials: &mut [W],
    links: &mut [Option<Step>],
    ups: &mut [usize],
)
    requires paired { Paired net.arcs.now links.old ups.old }
    requires forest { Forest W.ops net.nodes net.arcs.now potentials.old links.old }
    ensures paired { Paired net.entry.arcs.now links.new ups.new }
    ensures forest { Forest W.ops net.entry.nodes net.entry.arcs.now potentials.new links.new }
    ensures small { (b : ℕ) → Small W.ops b potentials.old → Small W.ops b potentials.new }
{
    if left == 1 {
        blank(potentials);
        links.fill(None);
        let none = ups.len();
        ups.fill(none);
    }
}

// Measures the cycle that a step closes, and puts its steps into a row.
fn measure_closed<'a, W: Worth>(
    net: Residual<'a>,
    last: &'a [Option<Step>],
    closing: Step,
    steps: &mut [Step],
) -> Measure<W>
    requires long { net.nodes ≤ length last.now }
    requires closes { Closing W.ops net.nodes net.arcs.now last.now closing }
    requires room { net.nodes ≤ length steps.old }
    ensures few { result.count ≤ length steps.new }
    ensures measured { Measures W.ops (net_of net.entry) (take result.count steps.new) result }
{
    let links = Links { net, last };
    Cycle { links, closing }.measure(steps)
}

// Shifts along the cycle that a step closes, and cuts the links. A row for its steps is lent.
fn take<N: Improvable>(
    net: &mut N,
    table: &mut Table<Arc, MOST_ARCS>,
    links: &mut [Option<Step>],
    ups: &mut [usize],
    steps: &mut [Step],
    closing: Step,
) -> N::W
    requires paired { Paired table.old links.old ups.old }
    requires read { table.old ≡ (N.Network.net net.old).arcs }
    requires long { (N.Network.net net.old).nodes ≤ length links.old }
    requires closes { Closing N.W.Worth.ops (N.Network.net net.old).nodes table.old links.old closing }
    requires links { OpenLinks table.old links.old }
    requires room { (N.Network.net net.old).nodes ≤ length steps.old }
    ensures rises { Improves N.W.Worth.ops (N.Network.net net.old) (N.Network.net net.new) result }
    ensures kept { N.Improvable.alike net.old net.new }
    ensures read { table.new ≡ (N.Network.net net.new).arcs }
    ensures cut { Cut table.new links.old links.new }
    ensures paired { Paired table.new links.new ups.new }
{
    let (nodes, _) = net.counts();
    let before = Residual {
        nodes: nodes as usize,
        arcs: table.as_slice(),
    };
    let measure = measure_closed(before, links, closing, steps);
    let cycle = &steps[..measure.count];
    let rise = shift(net, table, cycle, measure);
    let after = Residual {
        nodes: nodes as usize,
        arcs: table.as_slice(),
    };
    cut(after, cycle, links, ups);
    rise
}

// Improves by quick cycles. The potentials are written into a row that is lent.
pub(crate) fn climb_quickly<N: Improvable>(net: &mut N, potentials: &mut [N::W]) -> Climbed<N::W>
    requires { length potentials.old ≡ (N.Network.net net.old).nodes }
    ensures outcome { Climbs N.W.Worth.ops (N.Network.net net.old) (N.Network.net net.new) potentials.new result }
    ensures kept { N.Improvable.alike net.old net.new }
{
    let mut table = Table::default();
    read_arcs(net, &mut table);
    let mut links = no_links();
    let mut ups = no_ups();
    let mut steps = no_steps();
    blank(potentials);
    let mut sum = N::W::none();
    let mut first = 0;
    // how many more passes may close no cycle before the search begins again; 0 where it has closed none since it began, and then any may
    let mut left: usize = 0;
    for _ in 0..PASSES {
        let residual = Residual {
            nodes: potentials.len(),
            arcs: table.as_slice(),
        };
        match pass(residual, potentials, &mut links, &mut ups, first) {
            ControlFlow::Break(closing) => {
                let rise = take(net, &mut table, &mut links, &mut ups, &mut steps, closing);
                sum = sum.plus(rise);
                first = arc_of(closing);
                left = left.saturating_add(1);
            }
            ControlFlow::Continue(moved) => {
                if !moved && first == 0 {
                    return Climbed::Best(sum);
                }
                first = 0;
                renew(residual, left, potentials, &mut links, &mut ups);
                left = left.saturating_sub(1);
            }
        }
    }
    Climbed::Left(sum)
}
