ghost use Rattle.std.specs.Prelude.{◌≡◌};
ghost use Rattle.text.specs.Lines.{Says};
ghost use Rattle.text.specs.Readers.{Opened, Next, Ended};

use super::super::bounds::MOST_BYTES;
use super::super::fault::{Fault, at_line};
use super::super::line::{Line, Sort};
use super::super::parts::cut;
use super::Reader;
use tables::refusal::Refusal;

impl<'a> Reader<'a> {
    // Begins to read a text, which has at most 32,768 bytes.
    pub fn open(text: &'a [u8]) -> Result<Reader<'a>, Refusal>
        ensures { Opened text.now result }
    {
        if text.len() > MOST_BYTES {
            return Err(Refusal::Long);
        }
        Ok(Reader {
            rest: text,
            line: 1,
        })
    }

    // The number of the line that comes next.
    pub fn line_number(&self) -> u32
        ensures { result ≡ self.now.line }
    {
        self.line
    }

    // The next line, which byte 10 ends, as a line of this sort.
    pub fn next_line(&mut self, sort: Sort) -> Result<Line<'a>, Fault>
        ensures { Next (Says sort) self.old self.new result }
    {
        let number = self.line;
        let parts = at_line(number, cut(self.rest, b'\n').ok_or(Refusal::Layout))?;
        let line = at_line(number, Line::read(sort, parts.before))?;
        self.rest = parts.after;
        self.line = number + 1;
        Ok(line)
    }

    // Nothing follows the last line.
    pub fn end(&self) -> Result<(), Fault>
        ensures { Ended self.now result }
    {
        if !self.rest.is_empty() {
            return Err(Fault {
                refusal: Refusal::Layout,
                line: self.line,
            });
        }
        Ok(())
    }
}
