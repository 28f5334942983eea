ghost use Rattle.std.specs.Prelude.{◌≡◌, ◌+◌, ◌≤◌, length, MatchOption};
ghost use Rattle.round.specs.Kept.{offer_of, Entered};
ghost use Rattle.round.specs.Rounds.{book};
ghost use Rattle.round.specs.Views.{seen, ShowsOffer};

use super::super::entry::Entry;
use super::super::offer_view::OfferView;
use super::OpenRound;
use book::holding::Holding;
use terms::name::Name;

impl OpenRound {
    // The names of the items, of which the first is cash.
    pub fn item_names(&self) -> &[Name]
        ensures { result.now ≡ (book self.now).items }
    {
        self.items.as_slice()
    }

    // The names of the members.
    pub fn member_names(&self) -> &[Name]
        ensures { result.now ≡ (book self.now).members }
    {
        self.members.as_slice()
    }

    // The holdings in the order first made.
    pub fn held(&self) -> &[Holding]
        ensures { result.now ≡ (book self.now).holdings }
    {
        self.holdings.as_slice()
    }

    // How many offers there are, withdrawn ones among them.
    pub fn offer_count(&self) -> u32
        ensures { result ≡ length (book self.now).offers }
    {
        self.offers.len() as u32
    }

    // The entry of an offer.
    pub(crate) fn entry(&self, offer: u32) -> Option<Entry>
        ensures { MatchOption result (length (book self.now).offers ≤ offer) (λ e. Entered (book self.now) self.now.lines offer e) }
    {
        self.offers.get(offer as usize)
    }

    // The offer that an entry stands for.
    pub(crate) fn show(&self, entry: Entry) -> OfferView<'_>
        requires { entry.first + (entry.gives + entry.gets) ≤ length self.now.lines }
        ensures { seen result ≡ offer_of self.now.lines entry }
    {
        let lines = &self.lines.as_slice()[entry.first as usize..];
        let (give, rest) = lines.split_at(entry.gives as usize);
        OfferView {
            member: entry.member,
            limit: entry.limit,
            give,
            get: &rest[..entry.gets as usize],
        }
    }

    // An offer, or nothing where there is none.
    pub fn offer_at(&self, offer: u32) -> Option<OfferView<'_>>
        ensures { ShowsOffer (book self.now) offer result }
    {
        let entry = self.entry(offer)?;
        Some(self.show(entry))
    }
}
