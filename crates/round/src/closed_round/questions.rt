ghost use Rattle.std.specs.Prelude.{◌≡◌, ◌+◌, ◌≤◌, length, take, drop, MatchOption};
ghost use Rattle.flow.specs.Arcs.{flow_of};
ghost use Rattle.network.specs.Networks.{value};
ghost use Rattle.book.specs.Allotments.{price_of, weeks_on};
ghost use Rattle.round.specs.Closed.{closed_book, closed_net, closed_allotment};
ghost use Rattle.round.specs.Holdings.{AnswersHolding};
ghost use Rattle.round.specs.Questions.{Moderate, Sided, AnswersUnits, AnswersPayoff};
ghost use Rattle.round.specs.Uses.{Law};

use super::ClosedRound;
use book::line::Line;
use book::side::Side;
use flow::arc::Arc;
use network::valuation::worth;
use tables::refusal::Refusal;
use worth::kind::Worth;

// Price times flow over the lines of a side and their arcs.
fn total_price(lines: &[Line], arcs: &[Arc]) -> u64
    requires { Moderate lines.now arcs.now }
    ensures sum { result ≡ price_of lines.now (flow_of arcs.now) }
    ensures bound { result ≤ 256000000000 }
{
    lines
        .iter()
        .zip(arcs)
        .map(|(line, arc)| u64::from(line.price) * u64::from(arc.flow))
        .sum()
}

// The flow over the lines of a side that are not of cash.
fn total_weeks(lines: &[Line], arcs: &[Arc]) -> u32
    requires { Moderate lines.now arcs.now }
    ensures { result ≡ weeks_on lines.now (flow_of arcs.now) }
{
    lines
        .iter()
        .zip(arcs)
        .filter(|(line, _)| !line.is_cash())
        .map(|(_, arc)| arc.flow)
        .sum()
}

impl<W: Worth> ClosedRound<W> {
    // So many arcs from one on.
    fn part(&self, first: usize, count: usize) -> &[Arc]
        requires { first + count ≤ length self.now.arcs }
        ensures { result.now ≡ take count (drop first self.now.arcs) }
    {
        &self.arcs.as_slice()[first..][..count]
    }

    // The lines of an offer's side, and the arcs that stand for them, or nothing: which refusal that is each question says itself. They are
    // two slices side by side: the lines lie in a table in the order of the round, the arcs of holdings and offers in another, in the
    // order of the network.
    fn side(&self, offer: u32, side: Side) -> Option<(&[Line], &[Arc])>
        ensures { MatchOption result (length (closed_book self.now).offers ≤ offer) (λ p. Sided (closed_book self.now) (closed_allotment self.now) offer side p.0.now p.1.now) }
    {
        let entry = self.round.entry(offer)?;
        let view = self.round.show(entry);
        let first = self.round.first_arc(offer, entry);
        match side {
            Side::Give => Some((view.give, self.part(first, view.give.len()))),
            Side::Get => {
                let first = first + view.give.len() + 1;
                Some((view.get, self.part(first, view.get.len())))
            }
        }
    }

    // The units on a line of an offer.
    pub fn units(&self, offer: u32, side: Side, line: u32) -> Result<u32, Refusal>
        ensures { AnswersUnits (closed_book self.now) (closed_allotment self.now) offer side line result }
    {
        let (_, arcs) = self.side(offer, side).ok_or(Refusal::Unknown)?;
        arcs.get(line as usize)
            .map(|arc| arc.flow)
            .ok_or(Refusal::Unknown)
    }

    // An offer's payoff and its weeks got: a pair, since the exchange answers both together.
    pub fn payoff(&self, offer: u32) -> Result<(i64, u32), Refusal>
        ensures { AnswersPayoff (closed_book self.now) (closed_allotment self.now) offer result }
    {
        let (give, given) = self.side(offer, Side::Give).ok_or(Refusal::Unknown)?;
        let (get, got) = self.side(offer, Side::Get).ok_or(Refusal::Unknown)?;
        let money = total_price(get, got) as i64 - total_price(give, given) as i64;
        Ok((money, total_weeks(get, got)))
    }

    // The worth of what flows: the generic function's, with the law over uses of a round.
    pub fn worth(&self) -> W
        ensures value { result ≡ value W.Worth.ops (closed_net self.now) }
        ensures law { Law W.Worth.ops }
    {
        worth(self)
    }

    // The units held, or that no entry exists.
    pub fn holding(&self, member: u32, item: u32) -> Result<Option<u32>, Refusal>
        ensures { AnswersHolding (closed_book self.now) member item result }
    {
        self.round.holding(member, item)
    }
}
