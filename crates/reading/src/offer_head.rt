ghost use Rattle.std.specs.Prelude.{◌≡◌, ◌+◌, ◌<◌, map, length, IfOk, Decides};
ghost use Rattle.book.specs.Books.{line_count};
ghost use Rattle.layout.specs.Layout.{offer};
ghost use Rattle.layout.specs.Records.{Contents, offer_of};
ghost use Rattle.reading.specs.Offers.{head_said, FairHead, HeadTested};
ghost use Rattle.reading.specs.Reading.{LineRead};

use super::next::next_row;
use book::bounds::{MOST_LINES, MOST_UNITS};
use tables::refusal::Refusal;
use text::fault::{Fault, at_line};
use text::reader::Reader;

// The head of an offer: its member and limit, and how many lines each side has.
#[derive(Clone, Copy)]
pub(crate) struct OfferHead {
    pub(crate) member: u32,
    pub(crate) limit: u32,
    pub(crate) gives: u32,
    pub(crate) gets: u32,
}

// Whether so many lines leave no room for so many more.
fn is_overfull(lines: u64, gives: u64, gets: u64) -> bool
    ensures { Decides result (256 < lines + (gives + gets)) }
{
    lines.saturating_add(gives).saturating_add(gets) > MOST_LINES as u64
}

// The head that has these numbers, or the first rule that they break.
fn test_head(numbers: [u64; 4], members: u32, lines: usize) -> Result<OfferHead, Refusal>
    ensures { HeadTested members lines numbers result }
{
    let [member, limit, gives, gets] = numbers;
    // The bounds are tested before the numbers, of up to 13 digits, are cut to the 32 bits of a head, as in a line of a side.
    if member >= u64::from(members) {
        return Err(Refusal::Unknown);
    }
    if is_overfull(lines as u64, gives, gets) {
        return Err(Refusal::Full);
    }
    if limit > u64::from(MOST_UNITS) {
        return Err(Refusal::Bounds);
    }
    if gives == 0 || gets == 0 {
        return Err(Refusal::Bare);
    }
    Ok(OfferHead {
        member: member as u32,
        limit: limit as u32,
        gives: gives as u32,
        gets: gets as u32,
    })
}

// The head on the next line, of an offer by one of so many members below so many lines.
// `Numbered::test` would be no plainer: of a closure that takes an array nothing is inferred, so that it would state `HeadTested` once more.
pub(crate) fn next_offer_head(
    reader: &mut Reader<'_>,
    members: u32,
    lines: usize,
) -> Result<OfferHead, Fault>
    ensures fair { IfOk result (λ h. FairHead members lines h) }
    ensures read { (x : Contents) → length x.members ≡ members → line_count (map offer_of x.offers) ≡ lines → LineRead offer head_said x reader.old reader.new result }
{
    let row = next_row::<u64, 4>(reader)?;
    at_line(row.line, test_head(row.said, members, lines))
}
