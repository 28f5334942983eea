ghost use Rattle.std.specs.Prelude.{List, ◌∷◌, MatchResult};
ghost use Rattle.text.specs.declared.section.Section.TheVariants.{Kinds};
ghost use Rattle.layout.specs.Layout.{Slot, head, word as the_word};
ghost use Rattle.layout.specs.Records.{Contents, parts};
ghost use Rattle.reading.specs.Kinds.{kind as kind_as, of_kind};
ghost use Rattle.reading.specs.Reading.{Onward, Stops, LineRead};

use super::kind::Kind;
use super::next::{next_head, next_name, test_same};
use tables::refusal::Refusal;
use text::fault::Fault;
use text::reader::Reader;
use text::section::Section;

// The kind, by the count of its parts in the head of K.
fn next_kind(reader: &mut Reader<'_>) -> Result<Kind, Fault>
    ensures { (x : Contents) → LineRead (head Kinds) (λ k. parts (kind_as k)) x reader.old reader.new result }
{
    next_head(reader, Section::Kinds)?.test(|parts| Kind::try_from(parts))
}

// The next line, which is this word.
fn next_word(reader: &mut Reader<'_>, word: &[u8]) -> Result<(), Fault>
    ensures { (x : Contents) → LineRead (the_word word.now) (λ _. tt) x reader.old reader.new result }
{
    next_name(reader)?.test(|bytes| test_same(bytes, word, Refusal::Layout))
}

// The section of the kind. Its words stand here and in `file/sections.rt` of `record`: a list of them would be a slice of slices, for two words.
pub(crate) fn read_kind(reader: &mut Reader<'_>) -> Result<Kind, Fault>
    ensures { (x : Contents) (due : List Slot) → MatchResult result (λ k. Onward (head Kinds ∷ due) x reader.old due (of_kind k x) reader.new) (λ f. Stops (head Kinds ∷ due) x reader.old f) }
{
    let kind = next_kind(reader)?;
    next_word(reader, b"money")?;
    if kind == Kind::MoneyThenWeeks {
        next_word(reader, b"weeks")?;
    }
    Ok(kind)
}
