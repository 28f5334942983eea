ghost use Rattle.round.specs.Carried.{Carries};
ghost use Rattle.round.specs.Rounds.{book};

use super::open_round::OpenRound;
use flow::arc::Arc;
use network::bounds::MOST_ARCS;
use std::marker::PhantomData;
use tables::table::Table;

mod as_network;
mod clearing;
mod closing;
mod questions;
mod views;

// A round that takes no more offers, to be cleared by one kind of worth. It keeps the flow of each arc of its network.
#[derive(Drop)]
pub struct ClosedRound<W> {
    round: OpenRound,
    arcs: Table<Arc, MOST_ARCS>,
    kind: PhantomData<W>,
    ghost drawn: { ∥ Carries (book round) arcs ∥₁ },
}
