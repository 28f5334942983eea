ghost use Rattle.std.specs.Prelude.{Decides};
ghost use Rattle.round.specs.Rounds.{book};
ghost use Rattle.round.specs.Holdings.{Strange, Put, Holds, AnswersHolding};
ghost use Rattle.round.specs.Uses.{RoundLaw};

use super::OpenRound;
use book::bounds::{MOST_HOLDINGS, MOST_UNITS};
use book::holding::Holding;
use tables::refusal::Refusal;
use tables::table::Table;
use terms::holdings::{find_holding, units_held};

// Puts a holding in the place of the one for the same pair, or at the end.
fn put(holdings: &mut Table<Holding, MOST_HOLDINGS>, h: Holding) -> Result<(), Refusal>
    ensures { Put holdings.old holdings.new h result }
{
    let found = find_holding(holdings.as_slice(), h.member, h.item);
    if found.is_none() && holdings.len() == MOST_HOLDINGS {
        return Err(Refusal::Full);
    }
    if h.units > MOST_UNITS {
        return Err(Refusal::Bounds);
    }
    match found {
        Some(k) => holdings.set(k, h),
        None => holdings.push(h),
    }
}

// Member, item and units are parameters, since the exchange's calls `hold` and `holding` name them so.
impl OpenRound {
    // Whether there is no such member or no such item.
    fn is_strange(&self, member: u32, item: u32) -> bool
        ensures { Decides result (Strange (book self.now) member item) }
    {
        let members = self.members.len();
        let items = self.items.len();
        members <= member as usize || items <= item as usize
    }

    // Sets what a member holds of an item.
    pub fn hold(&mut self, member: u32, item: u32, units: u32) -> Result<(), Refusal>
        ensures outcome { Holds (book self.old) (book self.new) (record { member = member; item = item; units = units }) result }
        ensures law { RoundLaw }
    {
        if self.is_strange(member, item) {
            return Err(Refusal::Unknown);
        }
        let h = Holding {
            member,
            item,
            units,
        };
        put(&mut self.holdings, h)
    }

    // The units held, or that no entry exists.
    pub fn holding(&self, member: u32, item: u32) -> Result<Option<u32>, Refusal>
        ensures { AnswersHolding (book self.now) member item result }
    {
        if self.is_strange(member, item) {
            return Err(Refusal::Unknown);
        }
        Ok(units_held(self.holdings.as_slice(), member, item))
    }
}
