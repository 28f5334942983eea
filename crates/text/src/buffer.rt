ghost use Rattle.std.specs.Prelude.{◌≡◌, ◌≤◌, [], ◌∷◌, length, decimal};
ghost use Rattle.std.specs.Fmt.{signed_decimal};
ghost use Rattle.text.specs.Buffers.{Put, Copied};
ghost use Rattle.text.specs.Numbers.{spelt, level_spelt};
ghost use Rattle.text.specs.Rows.{row_spelt};
ghost use Rattle.text.specs.Sections.{letter};

use super::bounds::MOST_BYTES;
use super::numeral::Numeral;
use super::section::Section;
use itoa::Buffer as Digits;
use std::marker::Model;
use tables::refusal::Refusal;
use tables::table::Table;

// A text in the making, of at most 32,768 bytes. What is put in comes after what it has, as far as it fits.
#[derive(Drop)]
pub struct Buffer {
    bytes: Table<u8, MOST_BYTES>,
}

// Contracts see a buffer as the bytes that were put in.
impl Model for Buffer {
    ghost use Rattle.std.specs.Prelude.{◌≤◌, ℕ, List, length};

    ghost Value = { List ℕ };

    ghost view = { λ b. b.bytes };

    ghost invariant = { λ b. length b.bytes ≤ 32768 };
}

// A buffer with nothing in it.
impl Default for Buffer {
    ghost is_default = { λ b. b ≡ [] };

    fn default() -> Buffer {
        Buffer::new()
    }
}

impl Buffer {
    pub fn new() -> Buffer
        ensures { result ≡ [] }
    {
        Buffer {
            bytes: Table::default(),
        }
    }

    // How many bytes were put in.
    pub fn len(&self) -> usize
        ensures count { result ≡ length self.now }
        ensures bound { result ≤ 32768 }
    {
        self.bytes.len()
    }

    pub fn as_slice(&self) -> &[u8]
        ensures { result.now ≡ self.now }
    {
        self.bytes.as_slice()
    }

    pub fn put(&mut self, bytes: &[u8]) -> Result<(), Refusal>
        ensures { Put self.old self.new bytes.now result }
    {
        for b in bytes {
            self.bytes.push(*b)?;
        }
        Ok(())
    }

    // Puts a number in, in decimal digits, which are those of std. It is no `write!`: where that fails, std does not say how much it has put in.
    pub fn number(&mut self, n: u64) -> Result<(), Refusal>
        ensures put { Put self.old self.new (spelt n) result }
        ensures decimal { spelt n ≡ decimal n }
    {
        self.put(Digits::new().format(n).as_bytes())
    }

    // Puts a number in, with a minus where it is below 0.
    pub fn level(&mut self, z: i64) -> Result<(), Refusal>
        ensures put { Put self.old self.new (level_spelt z) result }
        ensures decimal { level_spelt z ≡ signed_decimal z }
    {
        self.put(Digits::new().format(z).as_bytes())
    }

    // Puts numbers in, with one space between; of no numbers, nothing.
    pub fn row<T: Numeral>(&mut self, numbers: &[T]) -> Result<(), Refusal>
        ensures { Put self.old self.new (row_spelt T.Numeral.notation numbers.now) result }
    {
        let Some((first, others)) = numbers.split_first() else {
            // the bound is known where the field is looked at
            let _ = &self.bytes;
            return Ok(());
        };
        first.write(self)?;
        for x in others {
            self.put(b" ")?;
            x.write(self)?;
        }
        Ok(())
    }

    // Puts a section's head in: its letter, one space and the count.
    pub fn head(&mut self, section: Section, count: u64) -> Result<(), Refusal>
        ensures { Put self.old self.new (letter section ∷ 32 ∷ spelt count) result }
    {
        self.put(&[section.letter(), b' '])?;
        self.number(count)
    }

    // Ends the line.
    pub fn end_line(&mut self) -> Result<(), Refusal>
        ensures { Put self.old self.new (10 ∷ []) result }
    {
        self.put(b"\n")
    }

    // Copies the text to the start of a page and answers its length; a shorter page stays as it is.
    pub fn copy_to(&self, page: &mut [u8]) -> Result<usize, Refusal>
        ensures { Copied self.now page.old page.new result }
    {
        let text = self.as_slice();
        let len = text.len();
        if page.len() < len {
            return Err(Refusal::Page);
        }
        page[..len].copy_from_slice(text);
        Ok(len)
    }
}
