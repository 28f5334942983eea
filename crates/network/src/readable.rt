ghost use Rattle.std.specs.Prelude.{◌≡◌, ◌<◌, ◌≤◌, length, MatchResult};
ghost use Rattle.flow.specs.Arcs.{arc_at};
ghost use Rattle.network.specs.Networks.{Net, Sound};

use super::walk::Arcs;
use flow::arc::Arc;
use tables::refusal::Refusal;

// A network that can be read. Asking alters nothing.
pub trait Network {
    // The network that a value stands for.
    ghost net: { Self → Net };

    // How many nodes and how many arcs there are: a pair, since the exchange's question for the counts answers both.
    fn counts(&self) -> (u32, u32)
        ensures { (result.0 ≡ (net self.now).nodes) × (result.1 ≡ length (net self.now).arcs) };

    // Arc `i`, or refusal 1 where there is none. The exchange answers a question for a leg that is not there with that
    // refusal, and an `Option` would lose the promise.
    fn arc(&self, i: u32) -> Result<Arc, Refusal>
        ensures { MatchResult result
            (λ x. (i < length (net self.now).arcs) × (x ≡ arc_at (net self.now).arcs i))
            (λ e. (length (net self.now).arcs ≤ i) × (e ≡ Refusal.Unknown)) };

    // The arcs one by one, all of them still to come.
    final fn arcs(&self) -> Arcs<'_, Self>
    where
        Self: Sized,
        ensures { result ≡ (net self.now).arcs }
    {
        Arcs { net: self, next: 0 }
    }

    // Every value keeps the bounds, so that no reader has to test them.
    ghost sound: { (x : Self) → Sound (net x) };
}
