ghost use Rattle.std.specs.Prelude.{◌≡◌, IfOk, nat_le};
ghost use Rattle.text.specs.Numbers.{signed};
ghost use Rattle.text.specs.Rows.{SpellsRow};
ghost use Rattle.layout.specs.Layout.{level as a_level};
ghost use Rattle.layout.specs.Records.{by_money, by_money_then_weeks, Contents, parts, level_size};
ghost use Rattle.reading.specs.Kinds.{kind as kind_as};
ghost use Rattle.reading.specs.Levels.{numbers, Flat, LevelTested};
ghost use Rattle.reading.specs.Reading.{ReadNext, LineRead};

use super::kind::Kind;
use super::level::Level;
use super::next::{Numbered, next_row};
use network::bounds::LARGEST_SIZE;
use tables::refusal::Refusal;
use text::fault::Fault;
use text::reader::Reader;
use worth::kind::Worth;
use worth::lexicographic::Lexicographic;
use worth::money::Money;
use worth::weeks::Weeks;

// The level of a row of one number. It is no closure, since of one that takes an array nothing is inferred.
// Nor is it a `From<[i64; 1]> for Level`: a row does not say of which kind it is, and such a conversion would be open to every caller.
fn in_money(row: [i64; 1]) -> Level
    ensures written { numbers by_money result ≡ row }
    ensures flat { Flat by_money result }
{
    let [cents] = row;
    Level { cents, weeks: 0 }
}

// The level of a row of two, likewise.
fn in_both(row: [i64; 2]) -> Level
    ensures { numbers by_money_then_weeks result ≡ row }
{
    let [cents, weeks] = row;
    Level { cents, weeks }
}

impl Kind {
    // Whether the size of a level is at most 1,000,000. It makes the worth itself: `Levelled`, which also makes worths of levels, stands in a crate above.
    fn is_fair(self, level: Level) -> bool
        ensures { result ≡ nat_le (level_size (numbers (kind_as self) level)) 1000000 }
    {
        let first = Money { cents: level.cents };
        match self {
            Kind::Money => first.is_within(LARGEST_SIZE),
            Kind::MoneyThenWeeks => {
                let second = Weeks { count: level.weeks };
                let pair = Lexicographic { first, second };
                pair.is_within(LARGEST_SIZE)
            }
        }
    }

    // The level, where it is fair.
    fn test_level(self, level: Level) -> Result<Level, Refusal>
        ensures { LevelTested (kind_as self) level result }
    {
        if self.is_fair(level) {
            Ok(level)
        } else {
            Err(Refusal::Bounds)
        }
    }

    // The numbers of the next line, one for each part of the kind.
    fn next_numbers(self, reader: &mut Reader<'_>) -> Result<Numbered<Level>, Fault>
        ensures read { ReadNext (λ bytes l. SpellsRow signed (parts (kind_as self)) bytes (numbers (kind_as self) l)) reader.old reader.new result }
        ensures flat { IfOk result (λ n. Flat (kind_as self) n.said) }
    {
        match self {
            Kind::Money => Ok(next_row(reader)?.map(in_money)),
            Kind::MoneyThenWeeks => Ok(next_row(reader)?.map(in_both)),
        }
    }

    // The next line under L, a level.
    pub(crate) fn next_level(self, reader: &mut Reader<'_>) -> Result<Level, Fault>
        ensures read { (x : Contents) → x.kind ≡ kind_as self → LineRead a_level (numbers (kind_as self)) x reader.old reader.new result }
        ensures flat { IfOk result (Flat (kind_as self)) }
    {
        self.next_numbers(reader)?
            .test(|level| self.test_level(level))
    }
}
