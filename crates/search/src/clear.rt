ghost use Rattle.search.specs.Outcomes.{Clearing};
ghost use Rattle.search.specs.Uses.{Law};

use super::improve::improve;
use super::quick::{Climbed, climb_quickly};
use network::improvable::Improvable;
use network::readable::Network;
use tables::refusal::Refusal;
use worth::kind::Worth;

// Improves until the network is best, by quick cycles first, and answers the sum of the rises; the work table then has potentials that fit.
// Improve itself is called only where the passes of the quick cycles are spent before that.
// It ends, since each rise leaves fewer rows of flows within the capacities that are worth more.
// A work table shorter than the nodes is refused; it is tested first, so that no improve is refused after a rise.
pub fn clear<N: Improvable>(net: &mut N, work: &mut [N::W]) -> Result<N::W, Refusal>
    ensures outcome { Clearing N.W.Worth.ops (N.Network.net net.old) (N.Network.net net.new) work.old work.new result }
    ensures kept { N.Improvable.alike net.old net.new }
    ensures law { Law N.W.Worth.ops }
{
    let (nodes, _) = net.counts();
    let n = nodes as usize;
    if work.len() < n {
        return Err(Refusal::Short);
    }
    let mut sum = match climb_quickly(net, &mut work[..n]) {
        Climbed::Best(sum) => return Ok(sum),
        Climbed::Left(sum) => sum,
    };
    while let Some(rise) = improve(net, work)? {
        sum = sum.plus(rise);
    }
    Ok(sum)
}
