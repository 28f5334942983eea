// Clears thousands of random small networks and compares each with the best of all its circulations.
#![tactic(auto)]

mod every;
mod random;

use every::{Best, best_of};
use flow::arc::Arc;
use haul_table::table::HaulTable;
use random::Random;
use std::io;
use tables::refusal::Refusal;
use worth::kind::Worth;
use worth::money::Money;
use worth::money_then_weeks::MoneyThenWeeks;
use worth::weeks::Weeks;

const NETWORKS: u32 = 20_000;

// A haul table with these arcs.
fn laid<W: Worth>(arcs: &[Arc]) -> Result<HaulTable<W>, Refusal> {
    let mut table = HaulTable::new();
    for arc in arcs {
        table.road(arc.from, arc.to, arc.capacity, arc.price, arc.weeks)?;
    }
    Ok(table)
}

// The worth of such a table once it is cleared.
fn cleared<W: Worth>(arcs: &[Arc], work: &mut [W]) -> Result<W, Refusal> {
    let mut table = laid::<W>(arcs)?;
    table.clear(work)?;
    Ok(table.worth())
}

// The worths that clearing finds, by each kind.
fn cleared_by_each(arcs: &[Arc]) -> Result<Best, Refusal> {
    let money = cleared(arcs, &mut [Money::none(); 64])?;
    let weeks = cleared(arcs, &mut [Weeks::none(); 64])?;
    let both = cleared(arcs, &mut [MoneyThenWeeks::none(); 64])?;
    Ok(Best {
        money: money.cents,
        weeks: weeks.count,
        both: (both.first.cents, both.second.count),
    })
}

// Whether there is money to gain, and whether clearing finds the best.
#[derive(Clone, Copy)]
struct Trial {
    gains: bool,
    agrees: bool,
}

fn tried(arcs: &mut [Arc]) -> Trial {
    let best = best_of(arcs);
    Trial {
        gains: best.money > 0,
        agrees: cleared_by_each(arcs) == Ok(best),
    }
}

fn main(rt: HostRuntime) -> io::Result<()> {
    let mut random = Random::new(1);
    // two counts, taken in one pass
    let mut gains: u32 = 0;
    let mut disagreements: u32 = 0;
    for _ in 0..NETWORKS {
        let mut room = [Arc::default(); 5];
        let trial = tried(random.arcs(&mut room));
        if trial.gains {
            gains = gains.saturating_add(1);
        }
        if !trial.agrees {
            disagreements = disagreements.saturating_add(1);
        }
    }
    println!(rt; "networks {NETWORKS}")?;
    println!(rt; "with money to gain {gains}")?;
    println!(rt; "disagreements {disagreements}")
}
