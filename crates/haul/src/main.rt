// Reads roads from standard input, clears the haul table by money then weeks, and prints the flows, the worth and the levels.
#![tactic(auto)]

mod reading;
mod writing;

use haul_table::table::HaulTable;
use network::readable::Network;
use reading::add_road;
use std::io;
use tables::refusal::Refusal;
use worth::kind::Worth;
use worth::money_then_weeks::MoneyThenWeeks;
use writing::Line;

// The flows, the worth and the levels.
fn print_table(
    rt: &HostRuntime,
    table: &HaulTable<MoneyThenWeeks>,
    levels: &[MoneyThenWeeks],
) -> io::Result<()> {
    for (number, arc) in table.arcs().enumerate() {
        rt.println(Line::Leg(number, arc.flow))?;
    }
    let worth = table.worth();
    rt.println(Line::Money(worth.first.cents))?;
    rt.println(Line::Weeks(worth.second.count))?;
    for (node, level) in levels.iter().enumerate() {
        rt.println(Line::Level(node, level.first.cents, level.second.count))?;
    }
    Ok(())
}

fn main(rt: HostRuntime) -> io::Result<()> {
    let mut table = HaulTable::new();
    for (at, line) in (1..).zip(rt.lines(rt.alloc())) {
        let added = match line {
            Ok(text) => add_road(&mut table, text.as_str()),
            Err(e) if e.kind() == io::ErrorKind::InvalidData => Err(Refusal::Layout),
            Err(e) => return Err(e),
        };
        if let Err(refusal) = added {
            return rt.println(Line::Refused(refusal, at));
        }
    }
    let mut levels = [MoneyThenWeeks::none(); 64];
    match table.clear(&mut levels) {
        Ok(_) => print_table(&rt, &table, &levels),
        Err(refusal) => rt.println(Line::Refused(refusal, 0)),
    }
}
