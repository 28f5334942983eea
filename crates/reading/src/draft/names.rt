ghost use Rattle.std.specs.Prelude.{◌<◌, length};
ghost use Rattle.reading.specs.Drafts.{so_far, Gains};
ghost use Rattle.reading.specs.declared.entry.Entry.TheVariants.{Item, Member};

use super::super::next::next_name;
use super::Draft;
use text::fault::{Fault, at_line};

// Neither goes through `Numbered::test`: the `post` of an `FnOnce` gives its result and not the round that it leaves, so the proof did not close.
impl Draft<'_> {
    // The next name under I, as one more item of the round.
    pub(super) fn next_item(&mut self) -> Result<(), Fault>
        requires { length (so_far self.old).items < 16 }
        ensures { Gains Item 1 self.old self.new result }
    {
        let name = next_name(&mut self.reader)?;
        at_line(name.line, self.round.item(name.said))?;
        Ok(())
    }

    // The next name under M, as one more member of the round.
    // One function for both, with the round's call as a parameter, would be longer than the two are.
    pub(super) fn next_member(&mut self) -> Result<(), Fault>
        requires { length (so_far self.old).members < 32 }
        ensures { Gains Member 1 self.old self.new result }
    {
        let name = next_name(&mut self.reader)?;
        at_line(name.line, self.round.member(name.said))?;
        Ok(())
    }
}
