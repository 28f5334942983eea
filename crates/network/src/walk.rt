ghost use Rattle.std.specs.Iterator.{YieldsFirst, item_count};

use super::readable::Network;
use flow::arc::Arc;
use std::marker::Model;

// A walk over the arcs of a network, in the order of their numbers.
#[derive(Drop)]
pub struct Arcs<'a, N: Network> {
    pub(crate) net: &'a N,
    pub(crate) next: u32,
}

// Contracts see the list of the arcs that are still to come.
impl<'a, N: Network> Model for Arcs<'a, N> {
    ghost use Rattle.std.specs.Prelude.{List, drop};
    ghost use Rattle.flow.specs.declared.arc.Arc.{Arc};

    ghost Value = { List Arc };

    ghost view = { λ a. drop a.next (N.Network.net a.net.now).arcs };
}

impl<'a, N: Network> Iterator for Arcs<'a, N> {
    type Item = Arc;

    ghost next_gives = { YieldsFirst (λ rest. rest) };

    ghost remaining = { item_count (λ rest. rest) };

    // A network is asked for its arcs by number; this count is what makes an iterator of that.
    fn next(&mut self) -> Option<Arc> {
        let arc = self.net.arc(self.next).ok()?;
        self.next += 1;
        Some(arc)
    }
}
