ghost use Rattle.std.specs.Prelude.{◌≡◌};
ghost use Rattle.text.specs.Numbers.{Reads};
ghost use Rattle.text.specs.Lines.{Says};
ghost use Rattle.text.specs.declared.line.Line.TheVariants.{Head as IsHead, Name as IsName, Row as IsRow};

use super::number::number;
use super::row::Row;
use super::section::Section;
use tables::refusal::Refusal;

// The sorts of lines. A sort is asked for before there is a line, so it is an enum of its own beside `Line`.
// With a closure in its place the reader would say only what a caller makes of a line, and no longer what a line is.
#[derive(Clone, Copy, Debug, PartialEq, Eq)]
pub enum Sort {
    Head,
    Name,
    Row,
}

// What a line is read as: a section's head with its count, a name, or a row of numbers.
// A name and a row are still parts of the text.
#[derive(Clone, Copy, Debug, PartialEq, Eq)]
pub enum Line<'a> {
    Head(Section, u64),
    Name(&'a [u8]),
    Row(Row<'a>),
}

impl<'a> Line<'a> {
    // The bytes of a line as a line of this sort. Any bytes can be a name or a row: what they hold is tested later.
    pub fn read(sort: Sort, bytes: &'a [u8]) -> Result<Line<'a>, Refusal>
        ensures { Reads (Says sort bytes.now) result }
    {
        match sort {
            Sort::Head => read_head(bytes),
            Sort::Name => Ok(Line::Name(bytes)),
            Sort::Row => Ok(Line::Row(Row { bytes })),
        }
    }

    // The count, where the line is the head of this section.
    pub fn head(self, section: Section) -> Result<u64, Refusal>
        ensures { Reads (λ count. self.entry ≡ IsHead section count) result }
    {
        match self {
            Line::Head(found, count) if found == section => Ok(count),
            _ => Err(Refusal::Layout),
        }
    }

    // The bytes, where the line is a name.
    pub fn name(self) -> Result<&'a [u8], Refusal>
        ensures { Reads (λ name. self.entry ≡ IsName name) result }
    {
        match self {
            Line::Name(name) => Ok(name),
            _ => Err(Refusal::Layout),
        }
    }

    // The row, where the line is one.
    pub fn row(self) -> Result<Row<'a>, Refusal>
        ensures { Reads (λ row. self.entry ≡ IsRow row) result }
    {
        match self {
            Line::Row(row) => Ok(row),
            _ => Err(Refusal::Layout),
        }
    }
}

// A section's head: its letter, one space and the count.
fn read_head<'a>(bytes: &'a [u8]) -> Result<Line<'a>, Refusal>
    ensures { Reads (Says Sort.Head bytes.now) result }
{
    let [letter, b' ', digits @ ..] = bytes else {
        return Err(Refusal::Layout);
    };
    let section = Section::try_from(*letter)?;
    Ok(Line::Head(section, number(digits)?))
}
