ghost use Rattle.std.specs.Prelude.{◌<◌, Decides};
ghost use Rattle.std.specs.List.{AllByRecursion};
ghost use Rattle.round.specs.Rounds.{book};
ghost use Rattle.round.specs.Offering.{Withdraws};
ghost use Rattle.round.specs.Uses.{RoundLaw};

use super::super::entry::Entry;
use super::OpenRound;
use tables::refusal::Refusal;

impl OpenRound {
    // Sets an offer's limit to 0, which stands for withdrawn, and touches no other offer.
    pub fn withdraw(&mut self, offer: u32) -> Result<(), Refusal>
        ensures outcome { Withdraws (book self.old) (book self.new) offer result }
        ensures law { RoundLaw }
    {
        let k = offer as usize;
        let entry = self.offers.get(k).ok_or(Refusal::Unknown)?;
        if entry.limit == 0 {
            return Err(Refusal::Withdrawn);
        }
        self.offers.set(k, Entry { limit: 0, ..entry })
    }

    // Whether no offer is withdrawn.
    pub fn all_stand(&self) -> bool
        ensures { Decides result (AllByRecursion (λ o. 0 < o.limit) (book self.now).offers) }
    {
        self.offers.as_slice().iter().all(|entry| entry.limit > 0)
    }
}
