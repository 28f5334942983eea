ghost use Rattle.std.specs.Prelude.{◌≡◌, ◌≤◌, IfOk, Decides};
ghost use Rattle.book.specs.Arcs.{nodes as node_count};
ghost use Rattle.layout.specs.Layout.{head, Counts};
ghost use Rattle.layout.specs.Records.{Contents, book_of};
ghost use Rattle.reading.specs.Entries.{section_of, most_of, CountTested, FairCount};
ghost use Rattle.reading.specs.Reading.{LineRead};

use super::next::next_head;
use book::bounds::{MOST_HOLDINGS, MOST_ITEMS, MOST_MEMBERS, MOST_OFFERS};
use network::bounds::MOST_NODES;
use tables::refusal::Refusal;
use text::fault::Fault;
use text::reader::Reader;
use text::section::Section;

// The sorts of entries that a record lists, each in a section of its own.
// The kind's section lists no entries, so that with `Section` each table here would have a case that cannot come.
#[derive(Clone, Copy)]
pub(crate) enum Entry {
    Item,
    Member,
    Holding,
    Offer,
    Level,
}

impl Entry {
    fn section(self) -> Section
        ensures { result ≡ section_of self }
    {
        match self {
            Entry::Item => Section::Items,
            Entry::Member => Section::Members,
            Entry::Holding => Section::Holdings,
            Entry::Offer => Section::Offers,
            Entry::Level => Section::Levels,
        }
    }

    // How many a record may hold.
    fn most(self) -> u64
        ensures { result ≡ most_of self }
    {
        match self {
            Entry::Item => MOST_ITEMS as u64,
            Entry::Member => MOST_MEMBERS as u64,
            Entry::Holding => MOST_HOLDINGS as u64,
            Entry::Offer => MOST_OFFERS as u64,
            Entry::Level => MOST_NODES as u64,
        }
    }

    // Whether the layout lets the head of the section have this count, in a record of so many nodes.
    fn allows(self, n: u64, nodes: u32) -> bool
        ensures { (x : Contents) → node_count (book_of x) ≡ nodes → Decides result (Counts (section_of self) x n) }
    {
        match self {
            Entry::Item => n > 0,
            Entry::Level => n == 0 || n == u64::from(nodes),
            Entry::Member | Entry::Holding | Entry::Offer => true,
        }
    }

    // The count, where the layout lets the head have it and it is not too large.
    fn test_count(self, n: u64, nodes: u32) -> Result<u64, Refusal>
        requires { nodes ≤ 272 }
        ensures { CountTested self nodes n result }
    {
        if !self.allows(n, nodes) {
            Err(Refusal::Layout)
        } else if n > self.most() {
            Err(Refusal::Full)
        } else {
            Ok(n)
        }
    }

    // The count of the next line, the head of the section, in a record of so many nodes.
    pub(crate) fn next_count(self, reader: &mut Reader<'_>, nodes: u32) -> Result<u64, Fault>
        requires { nodes ≤ 272 }
        ensures fair { IfOk result (λ n. FairCount self nodes n) }
        ensures read { (x : Contents) → node_count (book_of x) ≡ nodes → LineRead (head (section_of self)) (λ n. n) x reader.old reader.new result }
    {
        next_head(reader, self.section())?.test(|n| self.test_count(n, nodes))
    }
}
