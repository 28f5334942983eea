ghost use Rattle.std.specs.Prelude.{OnOk, IfSome};
ghost use Rattle.record.specs.Evidence.{Evidence};
ghost use Rattle.answers.specs.Programs.{Prints, CheckPrints, ClearPrints};

use super::answer::Answer;
use super::input::read_text;
use super::line::Line;
use record::check::check;
use record::sheet::clear_sheet;
use std::alloc::Global;
use std::io;
use std::io::{Read, Write};
use text::bounds::MOST_BYTES;

// Reads a record and prints what check answers of it.
pub fn run_check<R: Read + Drop, W: Write>(
    input: R,
    output: &mut W,
    alloc: Global,
) -> io::Result<()>
    ensures outcome { OnOk result (IfSome (R.Read.remaining input) (Prints CheckPrints (W.Write.contents output.old) (W.Write.contents output.new))) }
    ensures law { Evidence }
{
    let text = read_text(input, alloc)?;
    write!(output, "{}", Answer(check(&text)))
}

// Reads a sheet and prints the record of its cleared round, or why it is refused.
pub fn run_clear<R: Read + Drop, W: Write>(
    input: R,
    output: &mut W,
    alloc: Global,
) -> io::Result<()>
    ensures outcome { OnOk result (IfSome (R.Read.remaining input) (Prints ClearPrints (W.Write.contents output.old) (W.Write.contents output.new))) }
    ensures law { Evidence }
{
    let text = read_text(input, alloc)?;
    // no record is longer
    let mut page = [0; MOST_BYTES];
    match clear_sheet(&text, &mut page) {
        Ok(length) => output.write_all(&page[..length]),
        Err(fault) => writeln!(output, "{}", Line::Refused(fault)),
    }
}
