ghost use Rattle.std.specs.Prelude.{◌≡◌};
ghost use Rattle.text.specs.Faults.{result_at};
ghost use Rattle.text.specs.Numbers.{Reads};
ghost use Rattle.text.specs.Rows.{SpellsRow};
ghost use Rattle.reading.specs.Reading.{ReadNext, NextTaken, IsHead, RowOf, SameTested};

use tables::refusal::Refusal;
use text::fault::{Fault, at_line};
use text::line::{Line, Sort};
use text::numeral::Numeral;
use text::reader::Reader;
use text::section::Section;

// What a line says, and the number of the line.
#[derive(Clone, Copy)]
pub(crate) struct Numbered<T> {
    pub(crate) line: u32,
    pub(crate) said: T,
}

impl<T> Numbered<T> {
    // What a test makes of it; a refusal stands at the line.
    // No `TryFrom` makes a row a head of an offer, a line or a holding, since each is tested against what came before it.
    pub(crate) fn test<U, F: FnOnce(T) -> Result<U, Refusal>>(self, test: F) -> Result<U, Fault>
        requires { F.pre test self.said }
        ensures { (r : _) × F.post test self.said r × (result ≡ result_at self.line r) }
    {
        let Numbered { line, said } = self;
        at_line(line, test(said))
    }

    // What is made of it, at the same line.
    pub(crate) fn map<U, F: FnOnce(T) -> U>(self, make: F) -> Numbered<U>
        requires { F.pre make self.said }
        ensures { (result.line ≡ self.line) × F.post make self.said result.said }
    {
        let Numbered { line, said } = self;
        Numbered {
            line,
            said: make(said),
        }
    }
}

// What is taken from the next line, which is of this sort; a refusal stands at the line.
fn next<'a, T, F: FnOnce(Line<'a>) -> Result<T, Refusal>>(
    reader: &mut Reader<'a>,
    sort: Sort,
    take: F,
) -> Result<Numbered<T>, Fault>
    requires { F.IsAlwaysCallable take }
    ensures { NextTaken sort (F.post take) reader.old reader.new result }
{
    let line = reader.line_number();
    let next = reader.next_line(sort)?;
    let said = at_line(line, take(next))?;
    Ok(Numbered { line, said })
}

// The count of the next line, where that is the head of this section.
pub(crate) fn next_head(reader: &mut Reader<'_>, section: Section) -> Result<Numbered<u64>, Fault>
    ensures { ReadNext (IsHead section) reader.old reader.new result }
{
    next(reader, Sort::Head, |line| line.head(section))
}

// The bytes of the next line.
pub(crate) fn next_name<'a>(reader: &mut Reader<'a>) -> Result<Numbered<&'a [u8]>, Fault>
    ensures { ReadNext (λ bytes name. name.now ≡ bytes) reader.old reader.new result }
{
    next(reader, Sort::Name, Line::name)
}

// The numbers of the next line, where that is a row of just N.
pub(crate) fn next_row<T: Numeral, const N: usize>(
    reader: &mut Reader<'_>,
) -> Result<Numbered<[T; N]>, Fault>
    ensures { ReadNext (SpellsRow T.Numeral.notation N) reader.old reader.new result }
{
    next(
        reader,
        Sort::Row,
        |line|
            ensures { Reads (RowOf T.Numeral.notation N line.entry) result }
        { line.row()?.read() },
    )
}

// The bytes are just those that are wanted.
pub(crate) fn test_same(bytes: &[u8], wanted: &[u8], refusal: Refusal) -> Result<(), Refusal>
    ensures { SameTested bytes.now wanted.now refusal result }
{
    if bytes == wanted {
        Ok(())
    } else {
        Err(refusal)
    }
}
