ghost use Rattle.std.specs.Prelude.{◌≡◌, ◌≤◌, map, length};
ghost use Rattle.std.specs.Mem.{FitsInMemory};
ghost use denote.Param.{number};
ghost use Rattle.tables.specs.contracts.table.Table.{the_row as table_row};
ghost use Rattle.book.specs.Rows.{map_with};
ghost use Rattle.layout.specs.Records.{Valid};
ghost use Rattle.reading.specs.Contents.{contents};
ghost use Rattle.round.specs.Closed.{closed_book, closed_allotment};
ghost use Rattle.record.specs.Checks.{result_of, Tested, Checks};
ghost use Rattle.record.specs.Evidence.{Evidence};

use super::levelled::Levelled;
use super::passed::{OfferResult, Passed, Total};
use super::record_network::draw;
use book::bounds::MOST_OFFERS;
use network::bounds::MOST_NODES;
use network::circulation::is_circulation;
use network::potentials::fits;
use reading::kind::Kind;
use reading::level::Level;
use reading::record::Record;
use round::closed_round::ClosedRound;
use tables::refusal::Refusal;
use tables::table::Table;
use text::fault::Fault;
use worth::kind::Worth;
use worth::money::Money;
use worth::money_then_weeks::MoneyThenWeeks;

// The worths that levels stand for, of which a record has at most one for each of 272 nodes.
fn worths<W: Levelled>(levels: &[Level]) -> Table<W, MOST_NODES>
    requires { length levels.now ≤ 272 }
    ensures { result ≡ map W.Levelled.worth levels.now }
{
    let mut worths = Table::new(W::none());
    for level in levels {
        worths.push(W::from_level(*level)).unwrap();
    }
    worths
}

// Each offer's payoff and weeks got, which a closed round answers by the offer's number.
fn results<W: Worth>(round: &ClosedRound<W>) -> Table<OfferResult, MOST_OFFERS>
    ensures { result ≡ map_with result_of (closed_book round.now).offers (closed_allotment round.now) }
{
    let mut results = Table::default();
    for k in 0..round.terms().offer_count() {
        let answer = round.payoff(k).unwrap();
        results.push(answer.into()).unwrap();
    }
    results
}

// What check answers of a record of this kind, where its allotment is allowed and its levels fit. The table of its worths fits in memory.
fn check_by<W: Levelled + Into<Total>>(read: Record) -> Result<Passed, Refusal>
    requires { FitsInMemory (table_row W.row (number 272)) }
    ensures { Valid (contents read) → (contents read).kind ≡ W.Levelled.sort → Tested W.Worth.ops W.Into.converts (contents read) result }
{
    let worths = worths::<W>(read.levels());
    let net = draw::<W>(read)?;
    if !is_circulation(&net) {
        return Err(Refusal::Rule);
    }
    if !fits(&net, worths.as_slice()) {
        return Err(Refusal::Unfit);
    }
    Ok(Passed {
        worth: net.round.worth().into(),
        offers: results(&net.round),
    })
}

// Tests a text: it reads, its allotment keeps the rules, and its levels show that no other is worth more.
pub fn check(text: &[u8]) -> Result<Passed, Fault>
    ensures outcome { Checks text.now result }
    ensures law { Evidence }
{
    let read = Record::read(text)?;
    // each kind of worth is a type of its own, and the kind that the text names picks it here: the two calls differ in what they do by it
    let tested = match read.kind() {
        Kind::Money => check_by::<Money>(read),
        Kind::MoneyThenWeeks => check_by::<MoneyThenWeeks>(read),
    };
    Ok(tested?)
}
