ghost use Rattle.reading.specs.Contents.{Reading, ReadingLaw};

use super::super::draft::Draft;
use super::super::entry::Entry;
use super::super::kinds::read_kind;
use super::Record;
use text::fault::Fault;
use text::reader::Reader;

impl Record {
    // The record that a text reads as.
    #[tactic(auto, using(crate::proofs::Wholly::reading_law))]
    pub fn read(text: &[u8]) -> Result<Record, Fault>
        ensures outcome { Reading text.now result }
        ensures law { ReadingLaw }
    {
        let mut reader = Reader::open(text)?;
        let kind = read_kind(&mut reader)?;
        let mut draft = Draft::begin(reader, kind)?;
        draft.read_section(Entry::Member)?;
        draft.read_section(Entry::Holding)?;
        draft.read_section(Entry::Offer)?;
        draft.read_section(Entry::Level)?;
        draft.end()?;
        let Draft {
            kind,
            round,
            units,
            levels,
            ..
        } = draft;
        Ok(Record {
            kind,
            round,
            units,
            levels,
        })
    }
}
