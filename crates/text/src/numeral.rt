ghost use Rattle.text.specs.Buffers.{Put};
ghost use Rattle.text.specs.Numbers.{Notation, Legible, Reads, Spells, unsigned, signed};
ghost use Rattle.text.specs.NumbersLemmas.{legible_unsigned, legible_signed};

use super::buffer::Buffer;
use super::number::{level, number};
use tables::refusal::Refusal;

// A sort of number that rows are made of.
pub trait Numeral: Copy {
    // how its numbers are spelt
    ghost notation: { Notation Self };

    const ZERO: Self;

    // The number that the bytes spell.
    fn read(bytes: &[u8]) -> Result<Self, Refusal>
        ensures { Reads (Spells notation bytes.now) result };

    // Puts the number into a buffer.
    fn write(self, buffer: &mut Buffer) -> Result<(), Refusal>
        ensures { Put buffer.old buffer.new (notation.spelling self) result };

    ghost legible: { Legible notation };
}

impl Numeral for u64 {
    ghost notation = { unsigned };

    const ZERO: u64 = 0;

    ghost legible = { legible_unsigned };

    fn read(bytes: &[u8]) -> Result<u64, Refusal> {
        number(bytes)
    }

    fn write(self, buffer: &mut Buffer) -> Result<(), Refusal> {
        buffer.number(self)
    }
}

// Apart from `u64`, since its notation and its two calls differ, and nothing else is in either.
impl Numeral for i64 {
    ghost notation = { signed };

    const ZERO: i64 = 0;

    ghost legible = { legible_signed };

    fn read(bytes: &[u8]) -> Result<i64, Refusal> {
        level(bytes)
    }

    fn write(self, buffer: &mut Buffer) -> Result<(), Refusal> {
        buffer.level(self)
    }
}
