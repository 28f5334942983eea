ghost use Rattle.std.specs.Prelude.{Some};
ghost use Rattle.answers.specs.Lines.{lines_of, offer_lines, printed, worth_lines};

use super::line::Line;
use record::passed::{OfferResult, Passed, Total};
use std::fmt;
use text::fault::Fault;

// The worth, a line for each part of it.
#[derive(Clone, Copy)]
struct WorthLines(Total);

impl fmt::Display for WorthLines {
    ghost output = { λ x. Some (printed (worth_lines x.0)) };

    fn fmt<W: fmt::Write>(&self, f: &mut fmt::Formatter<W>) -> fmt::Result {
        match self.0 {
            Total::Money(money) => writeln!(f, "{}", Line::Money(money.cents)),
            Total::MoneyThenWeeks(both) => {
                writeln!(f, "{}", Line::Money(both.first.cents))?;
                writeln!(f, "{}", Line::Weeks(both.second.count))
            }
        }
    }
}

// What the offers come to, a line for each.
#[derive(Clone, Copy)]
struct OfferLines<'a>(&'a [OfferResult]);

impl fmt::Display for OfferLines<'_> {
    ghost output = { λ x. Some (printed (offer_lines 0 x.0.now)) };

    fn fmt<W: fmt::Write>(&self, f: &mut fmt::Formatter<W>) -> fmt::Result {
        for (number, offer) in self.0.iter().enumerate() {
            writeln!(f, "{}", Line::Offer(number, offer.payoff, offer.weeks))?;
        }
        Ok(())
    }
}

// What check answers, as it is printed.
#[derive(Drop)]
pub struct Answer(pub Result<Passed, Fault>);

impl fmt::Display for Answer {
    ghost output = { λ x. Some (printed (lines_of x.0)) };

    fn fmt<W: fmt::Write>(&self, f: &mut fmt::Formatter<W>) -> fmt::Result {
        match &self.0 {
            Ok(passed) => {
                writeln!(f, "{}", Line::Passed)?;
                write!(f, "{}", WorthLines(passed.worth))?;
                write!(f, "{}", OfferLines(passed.offers.as_slice()))
            }
            Err(fault) => writeln!(f, "{}", Line::Refused(*fault)),
        }
    }
}
