ghost use Rattle.std.specs.Prelude.{◌≡◌, ◌<◌, ◌⊎◌, map, length, Decides};
ghost use Rattle.tables.specs.Refusals.{First, refusal};
ghost use Rattle.book.specs.Books.{Twice, item_of};
ghost use Rattle.terms.specs.Lines.{EitherSide, Out};
ghost use Rattle.round.specs.Rounds.{book};
ghost use Rattle.round.specs.Offering.{made, NamesUnknown, Overfull, offering, TakesOffer};
ghost use Rattle.round.specs.Uses.{RoundLaw};
ghost use Rattle.round.specs.Views.{seen};

use super::super::entry::Entry;
use super::super::offer_view::OfferView;
use super::OpenRound;
use book::bounds::{MOST_LINES, MOST_OFFERS};
use book::line::Line;
use tables::refusal::Refusal;
use terms::lines::{has_line_out, has_unknown_item, is_doubled, is_loop, is_out, is_overpriced};

impl OfferView<'_> {
    fn has_limit_out(&self) -> bool
        ensures { Decides result (Out self.now.limit ⊎ EitherSide (λ l. Out l.limit) self.now.give.now self.now.get.now) }
    {
        is_out(self.limit) || has_line_out(self.give, self.get)
    }

    fn has_double(&self) -> bool
        ensures { Decides result (Twice (map item_of self.now.give.now) ⊎ Twice (map item_of self.now.get.now)) }
    {
        is_doubled(self.give) || is_doubled(self.get)
    }

    fn is_bare(&self) -> bool
        ensures { Decides result ((length self.now.give.now ≡ 0) ⊎ (length self.now.get.now ≡ 0)) }
    {
        self.give.is_empty() || self.get.is_empty()
    }
}

impl OpenRound {
    // Whether an offer names a member or an item that there is not.
    fn lacks(&self, offer: &OfferView<'_>) -> bool
        ensures { Decides result (NamesUnknown (book self.now) (seen offer.now)) }
    {
        let members = self.members.len();
        let items = self.items.len();
        members <= offer.member as usize || has_unknown_item(items, offer.give, offer.get)
    }

    // Whether there is no room for an offer more, or for its lines.
    fn overflows(&self, offer: &OfferView<'_>) -> bool
        ensures { Decides result (Overfull (book self.now).offers offer.now.give.now offer.now.get.now) }
    {
        let lines = self.lines.len() + offer.give.len() + offer.get.len();
        MOST_OFFERS <= self.offers.len() || MOST_LINES < lines
    }

    // Refuses an offer for the first reason that speaks against it.
    fn test(&self, offer: &OfferView<'_>) -> Result<(), Refusal>
        ensures { First (offering (book self.now) (seen offer.now)) (refusal result) }
    {
        if self.lacks(offer) {
            return Err(Refusal::Unknown);
        }
        if self.overflows(offer) {
            return Err(Refusal::Full);
        }
        if offer.has_limit_out() {
            return Err(Refusal::Bounds);
        }
        if is_overpriced(offer.give, offer.get) {
            return Err(Refusal::Price);
        }
        if offer.has_double() {
            return Err(Refusal::Double);
        }
        if offer.is_bare() {
            return Err(Refusal::Bare);
        }
        if is_loop(offer.give, offer.get) {
            return Err(Refusal::Loop);
        }
        Ok(())
    }

    // A new offer, and its number.
    pub fn offer(
        &mut self,
        member: u32,
        limit: u32,
        give: &[Line],
        get: &[Line],
    ) -> Result<u32, Refusal>
        ensures outcome { TakesOffer (book self.old) (book self.new) (made member limit give.now get.now) result }
        ensures law { RoundLaw }
    {
        let offer = OfferView {
            member,
            limit,
            give,
            get,
        };
        self.test(&offer)?;
        let n = self.offers.len();
        let first = self.lines.len();
        self.lines.extend(give).unwrap();
        self.lines.extend(get).unwrap();
        let entry = Entry {
            member,
            limit,
            first: first as u32,
            gives: give.len() as u32,
            gets: get.len() as u32,
        };
        self.offers.push(entry).unwrap();
        Ok(n as u32)
    }
}
