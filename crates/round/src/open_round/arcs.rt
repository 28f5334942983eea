ghost use Rattle.std.specs.Prelude.{◌≡◌, ◌+◌, ◌<◌, ◌≤◌, ◌++◌, length};
ghost use Rattle.book.specs.Books.{spot_of};
ghost use Rattle.book.specs.Arcs.{source, give_capacity, holding_arcs, give_arc, get_arc, offer_arcs, nodes, arcs_of, give_at, no_flows};
ghost use Rattle.round.specs.Kept.{Entered};
ghost use Rattle.round.specs.Rounds.{book};
ghost use Rattle.round.specs.Views.{seen};

use super::super::entry::Entry;
use super::super::offer_view::OfferView;
use super::OpenRound;
use book::line::Line;
use flow::arc::Arc;
use network::bounds::MOST_ARCS;
use tables::table::Table;
use terms::holdings::find_holding;

// The arc of a get line, from the offer's outside to the item.
fn get_arc(outside: u32, l: Line) -> Arc
    ensures { result ≡ get_arc outside l 0 }
{
    let weeks = u32::from(!l.is_cash());
    Arc::new(outside, l.item, l.limit, i64::from(l.price), weeks)
}

impl OpenRound {
    // The node that a give line leaves from, and how much may leave on it, which its one caller takes apart at once.
    fn source(&self, member: u32, l: Line) -> (u32, u32)
        ensures node { result.0 ≡ source (spot_of (book self.now).holdings member l.item) (length (book self.now).items) l.item }
        ensures capacity { result.1 ≡ give_capacity (spot_of (book self.now).holdings member l.item) l }
    {
        match find_holding(self.holdings.as_slice(), member, l.item) {
            Some(k) => ((self.items.len() + k) as u32, l.limit),
            None => (l.item, if l.is_cash() { l.limit } else { 0 }),
        }
    }

    // The arc of a give line, from the member's holding of the item, or from the item if there is none, to the offer's inside.
    fn give_arc(&self, member: u32, inside: u32, l: Line) -> Arc
        ensures { result ≡ give_arc (length (book self.now).items) (book self.now).holdings member inside l 0 }
    {
        let (from, capacity) = self.source(member, l);
        Arc::new(from, inside, capacity, -i64::from(l.price), 0)
    }

    // Adds the arcs from each item to its holdings. The holdings are numbered, since their nodes come in their order after the items.
    fn add_holdings(&self, arcs: &mut Table<Arc, MOST_ARCS>)
        requires { length arcs.old ≤ 320 }
        ensures { arcs.new ≡ arcs.old ++ holding_arcs (length (book self.now).items) (book self.now).holdings no_flows.held }
    {
        let items = self.items.len();
        for (k, h) in self.holdings.as_slice().iter().enumerate() {
            let arc = Arc::new(h.item, (items + k) as u32, h.units, 0, 0);
            arcs.push(arc).unwrap();
        }
    }

    // Adds the arcs of one offer: its give lines, its own, its get lines.
    fn add_offer(&self, arcs: &mut Table<Arc, MOST_ARCS>, offer: &OfferView<'_>, inside: u32)
        requires small { inside < 272 }
        requires room { length arcs.old + (length offer.now.give.now + length offer.now.get.now) < 448 }
        ensures { arcs.new ≡ arcs.old ++ offer_arcs (length (book self.now).items) (book self.now).holdings inside (seen offer.now) (no_flows.offers 0) }
    {
        for l in offer.give {
            let arc = self.give_arc(offer.member, inside, *l);
            arcs.push(arc).unwrap();
        }
        let outside = inside + 1;
        let own = Arc::new(inside, outside, offer.limit, 0, 0);
        arcs.push(own).unwrap();
        for l in offer.get {
            arcs.push(get_arc(outside, *l)).unwrap();
        }
    }

    // The number of the first arc of an offer.
    pub(crate) fn first_arc(&self, offer: u32, entry: Entry) -> usize
        requires { Entered (book self.now) self.now.lines offer entry }
        ensures { result ≡ give_at (book self.now) offer 0 }
    {
        self.holdings.len() + entry.first as usize + offer as usize
    }

    // How many nodes the round's network has.
    pub fn nodes(&self) -> u32
        ensures { result ≡ nodes (book self.now) }
    {
        (self.items.len() + self.holdings.len() + 2 * self.offers.len()) as u32
    }

    // The arcs of the round's network, with no flow on them. The offers are numbered, since their nodes, two for each, come in their
    // order after those of the holdings.
    pub(crate) fn arcs(&self) -> Table<Arc, MOST_ARCS>
        ensures { result ≡ arcs_of (book self.now) }
    {
        let mut arcs = Table::default();
        self.add_holdings(&mut arcs);
        let first = self.items.len() + self.holdings.len();
        for (k, entry) in self.offers.as_slice().iter().enumerate() {
            let offer = self.show(*entry);
            self.add_offer(&mut arcs, &offer, (first + 2 * k) as u32);
        }
        arcs
    }
}
