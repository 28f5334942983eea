ghost use Rattle.flow.proofs.Rows.{same_refl, same_trans};
ghost use Rattle.haul_table.specs.Roads.{hauled, Alike};
ghost use Rattle.haul_table.specs.Settled.{alike_settled};

use super::{HaulTable, NODES};
use flow::arc::Arc;
use network::arcs::push;
use network::improvable::Improvable;
use network::readable::Network;
use tables::refusal::Refusal;
use worth::kind::Worth;

// A closed round has blocks like these two: what the two types share is the trait, and a body is a call or two of what a type holds.
impl<W: Worth> Network for HaulTable<W> {
    ghost net = { λ x. hauled x };

    ghost sound = { λ x. x.sound };

    fn counts(&self) -> (u32, u32) {
        (NODES, self.arcs.len() as u32)
    }

    fn arc(&self, i: u32) -> Result<Arc, Refusal> {
        self.arcs.get(i as usize).ok_or(Refusal::Unknown)
    }
}

impl<W: Worth> Improvable for HaulTable<W> {
    type W = W;

    ghost alike = { λ x y. Alike x y };

    ghost itself = { λ x. record { arcs = same_refl x.arcs } };

    ghost onward = { λ x y z p q. record { arcs = same_trans x.arcs y.arcs z.arcs p.arcs q.arcs } };

    ghost settled = { λ x y a e. alike_settled x y a e };

    fn push(&mut self, arc: u32, by: i64) -> Result<(), Refusal> {
        push(&mut self.arcs, arc, by)
    }
}
