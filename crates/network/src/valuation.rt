ghost use Rattle.std.specs.Prelude.{◌≡◌, ℕ};
ghost use Rattle.network.specs.Networks.{SoundArc, value};

use super::readable::Network;
use flow::arc::Arc;
use worth::kind::Worth;

// The unit worth of an arc, taken flow times.
fn arc_worth<W: Worth>(arc: Arc) -> W
    requires { (n : ℕ) × SoundArc n arc }
    ensures { result ≡ W.ops.times arc.flow (W.ops.unit arc.price arc.weeks) }
{
    W::unit(arc.price, arc.weeks).times(arc.flow)
}

// The worth of the flows.
pub fn worth<N: Network, W: Worth>(net: &N) -> W
    ensures { result ≡ value W.Worth.ops (N.Network.net net.now) }
{
    let mut sum = W::none();
    // A `fold` is no plainer: `plus` has a bound, so its closure would need a clause that bounds the sum so far.
    for arc in net.arcs() {
        sum = sum.plus(arc_worth(arc));
    }
    sum
}
