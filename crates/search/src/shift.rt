ghost use Rattle.std.specs.Prelude.{◌≡◌, ◌<◌, length, slice_set};
ghost use Rattle.flow.specs.Arcs.{arc_at};
ghost use Rattle.flow.specs.Steps.{arc};
ghost use Rattle.search.specs.Cycles.{taken, Takes, FullAlong};
ghost use Rattle.search.specs.Outcomes.{Improves};
ghost use Rattle.search.specs.Searches.{Measures};

use super::cycle::Measure;
use flow::arc::Arc;
use flow::step::Step;
use network::bounds::MOST_ARCS;
use network::improvable::Improvable;
use network::readable::Network;
use tables::table::Table;
use worth::kind::Worth;

// The arc of a step.
pub(crate) fn arc_of(step: Step) -> usize
    ensures { result ≡ arc step }
{
    match step {
        Step::Forward(i) | Step::Backward(i) => i,
    }
}

// Moves an amount along one step, which can take it. The two cases differ in a sign, and one push after
// a `match` for the sign would be no shorter.
fn push_step<N: Improvable>(net: &mut N, step: Step, amount: u32)
    requires { Takes (N.Network.net net.old) amount step }
    ensures pushed { N.Network.net net.new ≡ taken (N.Network.net net.old) amount step }
    ensures kept { N.Improvable.alike net.old net.new }
{
    match step {
        Step::Forward(i) => {
            net.push(i as u32, i64::from(amount)).unwrap();
        }
        Step::Backward(i) => {
            net.push(i as u32, -i64::from(amount)).unwrap();
        }
    }
}

// Reads one arc again into a table that has as many places as there are arcs.
fn read_arc<N: Network>(net: &N, table: &mut Table<Arc, MOST_ARCS>, i: usize)
    requires long { length table.old ≡ length (N.Network.net net.now).arcs }
    requires known { i < length table.old }
    ensures { table.new ≡ slice_set table.old i (arc_at (N.Network.net net.now).arcs i) }
{
    let arc = net.arc(i as u32).unwrap();
    table.set(i, arc).unwrap();
}

// Moves as much along a cycle as it allows, and answers what the worth rises by. Of the arcs, which were read into a table,
// those of the cycle are read again.
pub(crate) fn shift<N: Improvable>(
    net: &mut N,
    table: &mut Table<Arc, MOST_ARCS>,
    steps: &[Step],
    measure: Measure<N::W>,
) -> N::W
    requires read { table.old ≡ (N.Network.net net.old).arcs }
    requires measured { Measures N.W.Worth.ops (N.Network.net net.old) steps.now measure }
    ensures rises { Improves N.W.Worth.ops (N.Network.net net.old) (N.Network.net net.new) result }
    ensures kept { N.Improvable.alike net.old net.new }
    ensures read { table.new ≡ (N.Network.net net.new).arcs }
    ensures full { FullAlong (N.Network.net net.old).arcs (N.Network.net net.new).arcs steps.now }
{
    for step in steps {
        push_step(net, *step, measure.amount);
        read_arc(net, table, arc_of(*step));
    }
    measure.gain.times(measure.amount)
}
