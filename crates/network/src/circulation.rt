ghost use Rattle.std.specs.Prelude.{◌≡◌, ℕ, ◌<◌, Decides, slice_index_or};
ghost use Rattle.network.specs.Circulations.{Circulates, idle, through};

use super::bounds::MOST_NODES;
use super::readable::Network;

// What flows into a node, and what flows out of it.
#[derive(Clone, Copy, Default)]
struct Throughput {
    inflow: u32,
    outflow: u32,
}

// What flows through each node that a network can have.
fn throughputs<N: Network>(net: &N) -> [Throughput; MOST_NODES]
    ensures { (v : ℕ) → v < 272 → slice_index_or result v idle ≡ through (N.Network.net net.now) v }
{
    let mut rows = [Throughput::default(); MOST_NODES];
    for arc in net.arcs() {
        rows[arc.to as usize].inflow += arc.flow;
        rows[arc.from as usize].outflow += arc.flow;
    }
    rows
}

// Whether at each node as much comes in as goes out.
pub fn is_circulation<N: Network>(net: &N) -> bool
    ensures { Decides result (Circulates (N.Network.net net.now)) }
{
    let (nodes, _) = net.counts();
    let rows = throughputs(net);
    rows[..nodes as usize].iter().all(|t| t.inflow == t.outflow)
}
