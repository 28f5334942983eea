ghost use Rattle.std.specs.Prelude.{◌<◌, length};
ghost use Rattle.reading.specs.Drafts.{so_far, Gains};
ghost use Rattle.reading.specs.declared.entry.Entry.TheVariants.{Level};

use super::Draft;
use text::fault::Fault;

impl Draft<'_> {
    // The next line under L, as one more level.
    pub(super) fn next_level(&mut self) -> Result<(), Fault>
        requires { length (so_far self.old).levels < 272 }
        ensures { Gains Level 1 self.old self.new result }
    {
        let level = self.kind.next_level(&mut self.reader)?;
        self.levels.push(level).unwrap();
        Ok(())
    }
}
