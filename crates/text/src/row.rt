ghost use Rattle.text.specs.Numbers.{Reads};
ghost use Rattle.text.specs.Rows.{SpellsRow};

use super::numeral::Numeral;
use tables::refusal::Refusal;

// A row of numbers, still a part of the text: its numbers are read from its bytes.
#[derive(Clone, Copy, Debug, PartialEq, Eq)]
pub struct Row<'a> {
    pub bytes: &'a [u8],
}

impl<'a> Row<'a> {
    // The numbers of the row, where it has just N of them, with one space between.
    pub fn read<T: Numeral, const N: usize>(self) -> Result<[T; N], Refusal>
        ensures { Reads (SpellsRow T.Numeral.notation N self.entry.bytes.now) result }
    {
        let mut numbers = [T::ZERO; N];
        let mut parts = self.bytes.split(|b| *b == b' ');
        for number in numbers.iter_mut() {
            *number = T::read(parts.next().ok_or(Refusal::Layout)?)?;
        }
        if parts.next().is_some() {
            return Err(Refusal::Layout);
        }
        Ok(numbers)
    }
}
