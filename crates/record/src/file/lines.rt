ghost use Rattle.std.specs.Prelude.{[], ◌∷◌};
ghost use Rattle.text.specs.Rows.{row_spelt};
ghost use Rattle.layout.specs.Layout.{head, level as a_level, spell};
ghost use Rattle.reading.specs.Kinds.{kind as kind_as};
ghost use Rattle.reading.specs.Levels.{numbers};
ghost use Rattle.record.specs.Writing.{Adds};

use super::draft::Draft;
use reading::kind::Kind;
use reading::level::Level;
use text::numeral::Numeral;
use text::section::Section;

// What does not fit into the buffer is left out. No record is so long, so the writers do not look at the answers.
impl Draft {
    // A line with these bytes.
    pub(super) fn line(&mut self, bytes: &[u8])
        ensures { Adds self.old.text self.new.text (bytes.now ∷ []) }
    {
        let _ = self.text.put(bytes);
        let _ = self.text.end_line();
    }

    // A line with these numbers.
    pub(super) fn row<T: Numeral>(&mut self, row: &[T])
        ensures { Adds self.old.text self.new.text (row_spelt T.Numeral.notation row.now ∷ []) }
    {
        let _ = self.text.row(row);
        let _ = self.text.end_line();
    }

    // The head of a section, with the count of its entries.
    pub(super) fn head(&mut self, section: Section, count: usize)
        ensures { Adds self.old.text self.new.text (spell (head section) count ∷ []) }
    {
        let _ = self.text.head(section, count as u64);
        let _ = self.text.end_line();
    }

    // A level, with a number for each part of the kind.
    pub(super) fn level(&mut self, kind: Kind, level: Level)
        ensures { Adds self.old.text self.new.text (spell a_level (numbers (kind_as kind) level) ∷ []) }
    {
        match kind {
            Kind::Money => self.row(&[level.cents]),
            Kind::MoneyThenWeeks => self.row(&[level.cents, level.weeks]),
        }
    }
}
