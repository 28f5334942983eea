ghost use Rattle.std.specs.Prelude.{◌≡◌, ◌+◌, ◌≤◌, List, map, length, IfOk, MatchResult};
ghost use Rattle.layout.specs.Layout.{HeadOfOffer};
ghost use Rattle.layout.specs.Records.{Contents, LineWithUnits, line_of};
ghost use Rattle.reading.specs.Offers.{FairBelow, LineTested, Part, Within, LineAdded, LinesRead, LinesStop};

use super::next::next_row;
use book::bounds::{HIGHEST_PRICE, MOST_LINES, MOST_UNITS};
use book::line::Line;
use tables::refusal::Refusal;
use tables::table::Table;
use terms::lines::{has_item, is_loop};
use text::fault::{Fault, at_line};
use text::reader::Reader;

// A line of a side, and the units on it.
#[derive(Clone, Copy)]
pub(crate) struct FilledLine {
    pub(crate) line: Line,
    pub(crate) units: u32,
}

// A side of an offer over so many items, and the lines that the other side has so far.
// What it gives is read first, when there are none of these yet. So the test for cash on both sides is one for either.
// Contracts take its two fields apart: of the rules of the layout, which they cite, one is about the items and another about the lines given.
#[derive(Clone, Copy)]
pub(crate) struct Side<'a> {
    pub(crate) items: u32,
    pub(crate) other: &'a [Line],
}

impl Side<'_> {
    // The line that has these numbers, or the first rule that they break. `above` has the lines of the side so far.
    fn test_line(self, numbers: [u64; 4], above: &[Line]) -> Result<FilledLine, Refusal>
        ensures { LineTested self.entry.items self.entry.other.now above.now numbers result }
    {
        let [item, limit, price, units] = numbers;
        // The bounds are tested before the numbers, of up to 13 digits, are cut to the 32 bits of a line; those of `terms` take what is cut already.
        if item >= u64::from(self.items) {
            return Err(Refusal::Unknown);
        }
        if limit < 1 || limit > u64::from(MOST_UNITS) || units > u64::from(MOST_UNITS) {
            return Err(Refusal::Bounds);
        }
        if price > u64::from(HIGHEST_PRICE) {
            return Err(Refusal::Price);
        }
        let line = Line {
            item: item as u32,
            limit: limit as u32,
            price: price as u32,
        };
        if has_item(above, line.item) {
            return Err(Refusal::Double);
        }
        if is_loop(self.other, &[line]) {
            return Err(Refusal::Loop);
        }
        Ok(FilledLine {
            line,
            units: units as u32,
        })
    }

    // The next line, as one of the side below these. `Numbered::test` would be no plainer, as at the head of an offer.
    fn next_line(self, reader: &mut Reader<'_>, above: &[Line]) -> Result<FilledLine, Fault>
        ensures fair { IfOk result (λ l. FairBelow self.entry.items self.entry.other.now above.now l.line) }
        ensures read { (p : Part) (x : Contents) (h : HeadOfOffer) (ls : List LineWithUnits) → Within p x self.entry.items self.entry.other.now → map line_of ls ≡ above.now → LineAdded p x h ls reader.old reader.new result }
    {
        let row = next_row::<u64, 4>(reader)?;
        at_line(row.line, self.test_line(row.said, above))
    }

    // So many lines of the side, and their units at the end of a row.
    pub(crate) fn next_lines(
        self,
        reader: &mut Reader<'_>,
        n: u32,
        units: &mut Table<u32, MOST_LINES>,
    ) -> Result<Table<Line, MOST_LINES>, Fault>
        requires { length units.old + n ≤ 256 }
        ensures { MatchResult result (λ lines. LinesRead self.entry.items self.entry.other.now n lines units.old units.new reader.old reader.new) (λ f. LinesStop self.entry.items self.entry.other.now n reader.old f) }
    {
        let mut lines = Table::default();
        for _ in 0..n {
            let filled = self.next_line(reader, lines.as_slice())?;
            lines.push(filled.line).unwrap();
            units.push(filled.units).unwrap();
        }
        Ok(lines)
    }
}
