ghost use Rattle.std.specs.Prelude.{Some};
ghost use Rattle.haul.specs.Lines.{spelled};

use std::fmt;
use tables::refusal::Refusal;

// A line of the output. A refusal stands with its line, 0 for none; it is no `Fault`, which is a refusal of a text in the layout of records.
#[derive(Clone, Copy)]
pub enum Line {
    Leg(usize, u32),
    Money(i64),
    Weeks(i64),
    Level(usize, i64, i64),
    Refused(Refusal, u32),
}

impl fmt::Display for Line {
    ghost output = { λ line. Some (spelled line) };

    fn fmt<W: fmt::Write>(&self, f: &mut fmt::Formatter<W>) -> fmt::Result {
        match *self {
            Line::Leg(number, flow) => write!(f, "leg {number} {flow}"),
            Line::Money(cents) => write!(f, "money {cents}"),
            Line::Weeks(count) => write!(f, "weeks {count}"),
            Line::Level(node, cents, count) => write!(f, "level {node} {cents} {count}"),
            Line::Refused(refusal, line) => write!(f, "refused {} {line}", refusal.number()),
        }
    }
}
