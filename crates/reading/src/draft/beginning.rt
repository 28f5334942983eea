ghost use Rattle.std.specs.Prelude.{◌≡◌, codes, length};
ghost use Rattle.layout.specs.Layout.{item as an_item, nothing};
ghost use Rattle.layout.specs.Records.{Contents};
ghost use Rattle.reading.specs.Drafts.{ReadsItems};
ghost use Rattle.reading.specs.Kinds.{of_kind};
ghost use Rattle.reading.specs.Reading.{LineRead};

use super::super::entry::Entry;
use super::super::kind::Kind;
use super::super::next::{next_name, test_same};
use super::Draft;
use round::open_round::OpenRound;
use tables::refusal::Refusal;
use tables::table::Table;
use text::fault::Fault;
use text::reader::Reader;

// The first name under I, which is cash.
fn next_cash(reader: &mut Reader<'_>) -> Result<(), Fault>
    ensures { (x : Contents) → length x.items ≡ 0 → LineRead an_item (λ _. codes "cash") x reader.old reader.new result }
{
    next_name(reader)?.test(|name| test_same(name, b"cash", Refusal::Spelling))
}

impl<'a> Draft<'a> {
    // The section of the items, after that of the kind. A round has the first item, cash, from its making.
    pub(crate) fn begin(mut reader: Reader<'a>, kind: Kind) -> Result<Draft<'a>, Fault>
        ensures { ReadsItems reader.entry (of_kind kind nothing) result }
    {
        let n = Entry::Item.next_count(&mut reader, 0)?;
        next_cash(&mut reader)?;
        let mut draft = Draft {
            reader,
            kind,
            round: OpenRound::open(),
            units: Table::default(),
            levels: Table::default(),
        };
        draft.next_entries(Entry::Item, n - 1)?;
        Ok(draft)
    }
}
