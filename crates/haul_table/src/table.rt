ghost use Rattle.std.specs.Prelude.{◌≤◌, length};
ghost use Rattle.network.specs.Networks.{Sound};

use flow::arc::Arc;
use std::marker::PhantomData;
use tables::table::Table;

mod as_network;
mod calls;

// How many nodes a haul table has, and below it how many arcs at most.
pub(crate) const NODES: u32 = 64;

pub(crate) const MOST_ROADS: usize = 256;

// A network of 64 nodes and at most 256 arcs, made for one kind of worth.
// It has no model: the laws of a network speak of every value of its type, so its bounds stand in the value itself. `few` is what the
// table of arcs keeps, which from outside it only a call would show.
#[derive(Drop)]
pub struct HaulTable<W> {
    arcs: Table<Arc, MOST_ROADS>,
    kind: PhantomData<W>,
    ghost few: { length arcs ≤ 256 },
    ghost sound: { Sound (record { nodes = 64; arcs = arcs }) },
}
