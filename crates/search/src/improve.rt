ghost use Rattle.std.specs.Prelude.{◌≡◌, [], length, Ok};
ghost use Rattle.search.specs.Outcomes.{Improving};
ghost use Rattle.search.specs.Uses.{Law};

use super::cycle::no_steps;
use super::residual::Residual;
use super::shift::shift;
use super::sweep::{Search, blank, no_links, no_ups};
use flow::arc::Arc;
use network::bounds::MOST_ARCS;
use network::improvable::Improvable;
use network::readable::Network;
use tables::refusal::Refusal;
use tables::table::Table;
use worth::kind::Worth;

// Reads the arcs of a network into a table, since the search reads each of them many times. The table is lent: where it is
// answered it is copied once more, and small networks take nearly twice as long to clear.
pub(crate) fn read_arcs<N: Network>(net: &N, table: &mut Table<Arc, MOST_ARCS>)
    requires { table.old ≡ [] }
    ensures { table.new ≡ (N.Network.net net.now).arcs }
{
    for arc in net.arcs() {
        table.push(arc).unwrap();
    }
}

// Improves by one cycle, where the work table has just one entry for each node.
fn improve_within<N: Improvable>(net: &mut N, work: &mut [N::W]) -> Option<N::W>
    requires { length work.old ≡ (N.Network.net net.old).nodes }
    ensures outcome { Improving N.W.Worth.ops (N.Network.net net.old) (N.Network.net net.new) work.old work.new (Ok result) }
    ensures kept { N.Improvable.alike net.old net.new }
{
    let mut table = Table::default();
    read_arcs(net, &mut table);
    let residual = Residual {
        nodes: work.len(),
        arcs: table.as_slice(),
    };
    let mut links = no_links();
    let mut ups = no_ups();
    let mut search = Search::new(residual, work, &mut links, &mut ups);
    let closing = search.find_cycle()?;
    let mut steps = no_steps();
    let measure = search.cycle(closing).measure(&mut steps);
    let rise = shift(net, &mut table, &steps[..measure.count], measure);
    blank(work);
    Some(rise)
}

// Shifts along one cycle worth more than none as much as all its steps allow, if there is such a cycle; then the work
// table's entries for the nodes become none. Else the network is best, and they become potentials that fit.
// A work table shorter than the nodes is refused.
pub fn improve<N: Improvable>(net: &mut N, work: &mut [N::W]) -> Result<Option<N::W>, Refusal>
    ensures outcome { Improving N.W.Worth.ops (N.Network.net net.old) (N.Network.net net.new) work.old work.new result }
    ensures kept { N.Improvable.alike net.old net.new }
    ensures law { Law N.W.Worth.ops }
{
    let (nodes, _) = net.counts();
    let n = nodes as usize;
    if work.len() < n {
        return Err(Refusal::Short);
    }
    Ok(improve_within(net, &mut work[..n]))
}
