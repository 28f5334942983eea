ghost use Rattle.std.specs.Prelude.{◌≡◌};
ghost use Rattle.tables.specs.Refusals.{First, refusal};
ghost use Rattle.network.specs.Networks.{value};
ghost use Rattle.search.specs.Outcomes.{Improving, Clearing};
ghost use Rattle.flow.specs.Arcs.{fresh};
ghost use Rattle.haul_table.specs.Roads.{hauled, empty, road_rows, Roaded, Alike};
ghost use Rattle.haul_table.specs.Uses.{Law};

use super::{HaulTable, MOST_ROADS, NODES};
use flow::arc::Arc;
use network::bounds::{HIGHEST_PRICE, MOST_CAPACITY};
use network::valuation::worth;
use search::clear::clear;
use search::improve::improve;
use std::marker::PhantomData;
use tables::refusal::Refusal;
use tables::table::Table;
use worth::kind::Worth;

// Whether an arc may join `count` others.
fn admit(arc: Arc, count: usize) -> Result<(), Refusal>
    ensures { First (road_rows 64 count arc) (refusal result) }
{
    if arc.from >= NODES || arc.to >= NODES {
        Err(Refusal::Unknown)
    } else if count >= MOST_ROADS {
        Err(Refusal::Full)
    } else if arc.capacity > MOST_CAPACITY || arc.weeks > 1 {
        Err(Refusal::Bounds)
    } else if arc.price < -HIGHEST_PRICE || arc.price > HIGHEST_PRICE {
        Err(Refusal::Price)
    } else {
        Ok(())
    }
}

impl<W: Worth> HaulTable<W> {
    // A haul table without arcs.
    pub fn new() -> Self
        ensures empty { hauled result ≡ empty }
        ensures law { Law W.Worth.ops }
    {
        HaulTable {
            arcs: Table::default(),
            kind: PhantomData,
        }
    }

    // Adds an arc on which nothing flows, and answers its number. The exchange's call names the five parts; they become one
    // `Arc` at once.
    pub fn road(
        &mut self,
        from: u32,
        to: u32,
        room: u32,
        price: i64,
        weeks: u32,
    ) -> Result<u32, Refusal>
        ensures outcome { Roaded (hauled self.old) (hauled self.new) (fresh from to room price weeks) result }
        ensures law { Law W.Worth.ops }
    {
        let arc = Arc::new(from, to, room, price, weeks);
        let number = self.arcs.len();
        admit(arc, number)?;
        self.arcs.push(arc)?;
        Ok(number as u32)
    }

    // This and the next two calls are those of a closed round too. The generic function is what the two share: each says its
    // own law over uses, and what its own type keeps.

    // Shifts along one cycle worth more than none, or says that the flows are best.
    pub fn improve(&mut self, work: &mut [W]) -> Result<Option<W>, Refusal>
        ensures outcome { Improving W.Worth.ops (hauled self.old) (hauled self.new) work.old work.new result }
        ensures kept { Alike self.old self.new }
        ensures law { Law W.Worth.ops }
    {
        improve(self, work)
    }

    // Improves until best, and answers the sum of the rises.
    pub fn clear(&mut self, work: &mut [W]) -> Result<W, Refusal>
        ensures outcome { Clearing W.Worth.ops (hauled self.old) (hauled self.new) work.old work.new result }
        ensures kept { Alike self.old self.new }
        ensures law { Law W.Worth.ops }
    {
        clear(self, work)
    }

    // The worth of what flows.
    pub fn worth(&self) -> W
        ensures value { result ≡ value W.Worth.ops (hauled self.now) }
        ensures law { Law W.Worth.ops }
    {
        worth(self)
    }
}
