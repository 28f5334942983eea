ghost use Rattle.std.specs.Prelude.{◌≡◌, ◌+◌, ◌<◌, ◌≤◌};
ghost use Rattle.reading.specs.Drafts.{so_far, Gains, ReadsSection};
ghost use Rattle.reading.specs.Entries.{most_of, many};
ghost use Rattle.reading.specs.Reading.{Ends};

use super::super::entry::Entry;
use super::Draft;
use text::fault::Fault;

// A sort of entry brings its section, its bound, its rule of counts and its reader: with closures each section's caller would have to hand in all four.
impl Draft<'_> {
    // The next entry of a section. Each list has a bound of its own, below which its reader requires room; here these are one.
    fn next_entry(&mut self, entry: Entry) -> Result<(), Fault>
        requires { many entry (so_far self.old) < most_of entry }
        ensures { Gains entry 1 self.old self.new result }
    {
        match entry {
            Entry::Item => self.next_item(),
            Entry::Member => self.next_member(),
            Entry::Holding => self.next_holding(),
            Entry::Offer => self.next_offer(),
            Entry::Level => self.next_level(),
        }
    }

    // So many entries of a section.
    pub(super) fn next_entries(&mut self, entry: Entry, n: u64) -> Result<(), Fault>
        requires { many entry (so_far self.old) + n ≤ most_of entry }
        ensures { Gains entry n self.old self.new result }
    {
        for _ in 0..n {
            self.next_entry(entry)?;
        }
        Ok(())
    }

    // A section, of which nothing has been read yet.
    pub(crate) fn read_section(&mut self, entry: Entry) -> Result<(), Fault>
        requires { many entry (so_far self.old) ≡ 0 }
        ensures { ReadsSection entry self.old self.new result }
    {
        let nodes = self.round.nodes();
        let n = entry.next_count(&mut self.reader, nodes)?;
        self.next_entries(entry, n)
    }

    // Nothing follows the last line.
    pub(crate) fn end(&self) -> Result<(), Fault>
        ensures { Ends (so_far self.now) self.now.reader result }
    {
        self.reader.end()
    }
}
