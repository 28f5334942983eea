ghost use Rattle.std.specs.Prelude.{◌≡◌};
ghost use Rattle.network.specs.Pushes.{Pushed};

use super::readable::Network;
use tables::refusal::Refusal;
use worth::kind::Worth;

// A network that can be improved: it also takes more or less flow on one arc.
pub trait Improvable: Network {
    // The kind of worth that it is improved by.
    type W: Worth;

    // Two values that are the same but for flows. What else a value holds, as names or offers, is not part of its
    // network: code that knows no more than this trait promises by `alike` to keep it, so that its callers know it kept.
    ghost alike: { Self → Self → Type 0 };

    // Adds `by` to the flow of one arc, or refuses and changes nothing.
    fn push(&mut self, arc: u32, by: i64) -> Result<(), Refusal>
        ensures outcome { Pushed (Self.Network.net self.old) (Self.Network.net self.new) arc by result }
        ensures kept { alike self.old self.new };

    ghost itself: { (x : Self) → alike x x };

    ghost onward: { (x y z : Self) → alike x y → alike y z → alike x z };

    // Alike values with equal networks are equal: `alike` has to fix all that the network leaves open. A relation that
    // holds of any two values would promise nothing, and this law rules it out unless the network is all there is.
    ghost settled: { (x y : Self) → alike x y → Self.Network.net x ≡ Self.Network.net y → x ≡ y };
}
