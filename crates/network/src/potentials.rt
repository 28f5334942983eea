ghost use Rattle.std.specs.Prelude.{ℕ, ◌<◌, ◌≤◌, length, Decides};
ghost use Rattle.network.specs.Networks.{SoundArc};
ghost use Rattle.network.specs.Potentials.{potential, FitsOn, Fitted};

use super::bounds::LARGEST_SIZE;
use super::readable::Network;
use flow::arc::Arc;
use worth::kind::Worth;

// Whether each potential has a size of at most 1,000,000. `file` of `record` asks whether some level is larger: one chain too, whose
// contract says that there is one, as its refusal does. By way of this one it would want a lemma more.
fn are_small<W: Worth>(potentials: &[W]) -> bool
    ensures { Decides result ((v : ℕ) → v < length potentials.now → W.ops.size (potential W.ops potentials.now v) ≤ 1000000) }
{
    potentials.iter().all(|p| p.is_within(LARGEST_SIZE))
}

// Whether the potentials at an arc's ends fit it.
fn fit_arc<W: Worth>(arc: Arc, potentials: &[W]) -> bool
    requires sound { SoundArc (length potentials.now) arc }
    requires small { W.ops.size (potential W.ops potentials.now arc.from) ≤ 1000000 }
    ensures { Decides result (FitsOn W.ops potentials.now arc) }
{
    let from = potentials[arc.from as usize];
    let to = potentials[arc.to as usize];
    let reached = from.plus(W::unit(arc.price, arc.weeks));
    let low = arc.flow < arc.capacity && to.is_less(reached);
    let high = 0 < arc.flow && reached.is_less(to);
    !(low || high)
}

// Whether there is a potential for each node, each of size at most 1,000,000, and they fit on each arc.
pub fn fits<N: Network, W: Worth>(net: &N, potentials: &[W]) -> bool
    ensures { Decides result (Fitted W.Worth.ops (N.Network.net net.now) potentials.now) }
{
    let (nodes, _) = net.counts();
    let n = nodes as usize;
    if potentials.len() < n {
        return false;
    }
    are_small(&potentials[..n]) && net.arcs().all(|arc| fit_arc(arc, potentials))
}
