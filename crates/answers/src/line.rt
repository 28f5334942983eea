ghost use Rattle.std.specs.Prelude.{Some};
ghost use Rattle.answers.specs.Lines.{spelled};

use std::fmt;
use text::fault::Fault;

// A line that the programs print.
#[derive(Clone, Copy)]
pub enum Line {
    Passed,
    Money(i64),
    Weeks(i64),
    Offer(usize, i64, u32),
    Refused(Fault),
}

impl fmt::Display for Line {
    ghost output = { λ line. Some (spelled line) };

    fn fmt<W: fmt::Write>(&self, f: &mut fmt::Formatter<W>) -> fmt::Result {
        match *self {
            Line::Passed => write!(f, "passed"),
            Line::Money(cents) => write!(f, "money {cents}"),
            Line::Weeks(count) => write!(f, "weeks {count}"),
            Line::Offer(number, payoff, weeks) => write!(f, "offer {number} {payoff} {weeks}"),
            Line::Refused(fault) => write!(f, "refused {} {}", fault.refusal.number(), fault.line),
        }
    }
}
