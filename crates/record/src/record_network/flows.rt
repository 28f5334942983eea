ghost use Rattle.std.specs.Prelude.{◌≡◌, ◌+◌, ◌^◌, ◌<◌, ◌≤◌, ◌++◌, map, length, sum, ◌==◌, slice_index};
ghost use Rattle.flow.specs.Graphs.{when};
ghost use Rattle.book.specs.Allotments.{of_item};
ghost use Rattle.reading.specs.Contents.{contents};
ghost use Rattle.record.specs.Filled.{filled};
ghost use Rattle.record.specs.Flows.{flow_row, given_from, flows_of};

use super::filled::{FilledOffer, FilledOffers};
use book::holding::Holding;
use network::bounds::MOST_ARCS;
use reading::record::Record;
use tables::table::Table;

// All units of a side.
fn total(units: &[u32]) -> u32
    requires { sum units.now < 2 ^ 32 }
    ensures { result ≡ sum units.now }
{
    units.iter().sum()
}

impl<'a> FilledOffer<'a> {
    // The units on the give lines of one item.
    fn given_of(self, item: u32) -> u32
        ensures { result ≡ of_item item self.entry.offer.give.now (λ t. slice_index self.entry.given.now t) }
    {
        self.offer
            .give
            .iter()
            .zip(self.given)
            .filter(|(line, _)| line.item == item)
            .map(|(_, units)| *units)
            .sum()
    }

    // The units that it gives from a holding.
    fn given_from(self, h: Holding) -> u32
        ensures { result ≡ when (self.entry.offer.member == h.member) (of_item h.item self.entry.offer.give.now (λ t. slice_index self.entry.given.now t)) }
    {
        if self.offer.member == h.member {
            self.given_of(h.item)
        } else {
            0
        }
    }

    // Adds the flows on its arcs: those of its give lines, its own, those of its get lines.
    fn add_to(self, flows: &mut Table<u32, MOST_ARCS>)
        requires { length flows.old + length (flow_row (filled self)) ≤ 448 }
        ensures { flows.new ≡ flows.old ++ flow_row (filled self.entry) }
    {
        flows.extend(self.given).unwrap();
        flows.push(total(self.given)).unwrap();
        flows.extend(self.got).unwrap();
    }
}

// The units given from a holding.
fn given_from(record: &Record, h: Holding) -> u32
    ensures { result ≡ given_from (contents «record».now) h }
{
    FilledOffers::of(record)
        .map(|offer| offer.given_from(h))
        .sum()
}

// The flows on the arcs of the holdings.
fn holding_flows(record: &Record) -> Table<u32, MOST_ARCS>
    ensures { result ≡ map (given_from (contents «record».now)) (contents «record».now).holdings }
{
    let mut flows = Table::default();
    for h in record.terms().held() {
        flows.push(given_from(record, *h)).unwrap();
    }
    flows
}

// The flow of each arc of the record's network, in the order of the arcs.
pub(super) fn flows_of(record: &Record) -> Table<u32, MOST_ARCS>
    ensures { result ≡ flows_of (contents «record».now) }
{
    let mut flows = holding_flows(record);
    for offer in FilledOffers::of(record) {
        offer.add_to(&mut flows);
    }
    flows
}
