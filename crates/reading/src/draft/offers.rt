ghost use Rattle.std.specs.Prelude.{◌<◌, length};
ghost use Rattle.round.specs.Offering.{made};
ghost use Rattle.round.specs.Rounds.{book};
ghost use Rattle.reading.specs.Drafts.{so_far, Gains};
ghost use Rattle.reading.specs.Offers.{Takable, OfferAdded};
ghost use Rattle.reading.specs.declared.entry.Entry.TheVariants.{Offer};

use super::super::offer_head::{OfferHead, next_offer_head};
use super::super::side::Side;
use super::Draft;
use book::line::Line;
use round::open_round::OpenRound;
use tables::table::Table;
use text::fault::Fault;

// Adds an offer that keeps the rules, so that the round does not refuse it.
// The exchange's records mark a withdrawn offer by the limit 0, which no offer is made with: it is made with the limit 1 and withdrawn.
fn add_offer(round: &mut OpenRound, head: OfferHead, give: &[Line], get: &[Line])
    requires { Takable (book round.old) (made head.member head.limit give.now get.now) }
    ensures { OfferAdded (book round.old) (book round.new) (made head.member head.limit give.now get.now) }
{
    if head.limit > 0 {
        round.offer(head.member, head.limit, give, get).unwrap();
    } else {
        let number = round.offer(head.member, 1, give, get).unwrap();
        round.withdraw(number).unwrap();
    }
}

impl Draft<'_> {
    // The next offer, its head and under it its lines, as one more offer of the round.
    pub(super) fn next_offer(&mut self) -> Result<(), Fault>
        requires { length (so_far self.old).offers < 64 }
        ensures { Gains Offer 1 self.old self.new result }
    {
        let items = self.round.item_names().len() as u32;
        let members = self.round.member_names().len() as u32;
        let lines = self.units.len();
        let head = next_offer_head(&mut self.reader, members, lines)?;
        // Its units are kept apart until the round has it, so that the draft stays whole where the text is refused in between.
        let mut units = Table::default();
        let gives = Side { items, other: &[] };
        let give = gives.next_lines(&mut self.reader, head.gives, &mut units)?;
        let gets = Side {
            items,
            other: give.as_slice(),
        };
        let get = gets.next_lines(&mut self.reader, head.gets, &mut units)?;
        add_offer(&mut self.round, head, give.as_slice(), get.as_slice());
        self.units.extend(units.as_slice()).unwrap();
        Ok(())
    }
}
