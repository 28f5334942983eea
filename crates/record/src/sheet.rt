ghost use Rattle.std.specs.Prelude.{◌≡◌, ◌*◌, ◌^◌, ◌<◌, IfErr, Decides};
ghost use Rattle.std.specs.Mem.{type_size};
ghost use Rattle.std.specs.List.{AllByRecursion};
ghost use Rattle.reading.specs.Contents.{contents};
ghost use Rattle.round.specs.Rounds.{book};
ghost use Rattle.record.specs.Evidence.{Evidence};
ghost use Rattle.record.specs.Files.{Roomy};
ghost use Rattle.record.specs.Sheets.{Sheet, ClearedRound, Clearing};

use super::file::file;
use super::levelled::Levelled;
use network::bounds::MOST_NODES;
use reading::kind::Kind;
use reading::record::Record;
use round::open_round::OpenRound;
use tables::refusal::Refusal;
use text::fault::Fault;
use worth::money::Money;
use worth::money_then_weeks::MoneyThenWeeks;

fn are_zero(units: &[u32]) -> bool
    ensures { Decides result (AllByRecursion (λ u. u ≡ 0) units.now) }
{
    units.iter().all(|u| *u == 0)
}

// Whether a record is a sheet: no levels, no units and no withdrawn offer.
pub fn is_sheet(read: &Record) -> bool
    ensures { Decides result (Sheet (contents read.now)) }
{
    read.levels().is_empty() && are_zero(read.units()) && read.terms().all_stand()
}

// Clears a round by a kind of worth, whose work table fits in memory, and files the record. The table is an array, so that the bound is
// said of an array's row.
fn clear_by<W: Levelled>(round: OpenRound, page: &mut [u8]) -> Result<usize, Refusal>
    requires { 272 * type_size W.row < 2 ^ 63 }
    ensures { ClearedRound W.Levelled.sort (book round) page.old page.new result }
{
    let mut work = [W::none(); MOST_NODES];
    let mut closed = round.close::<W>();
    closed.clear(&mut work)?;
    file(&closed, &work, page)
}

// Clears a sheet by its kind, writes the record to the start of a page and answers its length.
pub fn clear_sheet(text: &[u8], page: &mut [u8]) -> Result<usize, Fault>
    ensures outcome { Clearing text.now page.old page.new result }
    ensures roomy { IfErr result (λ f. Roomy page.old f.refusal) }
    ensures law { Evidence }
{
    let read = Record::read(text)?;
    if !is_sheet(&read) {
        return Err(Refusal::Sheet.into());
    }
    let kind = read.kind();
    let round = read.into_round();
    // each kind of worth is a type of its own, and the kind that the text names picks it here: the two calls differ in what they do by it
    let cleared = match kind {
        Kind::Money => clear_by::<Money>(round, page),
        Kind::MoneyThenWeeks => clear_by::<MoneyThenWeeks>(round, page),
    };
    Ok(cleared?)
}
