ghost use Rattle.std.specs.Prelude.{◌≡◌, Some};
ghost use Rattle.text.specs.Faults.{fault_at, result_at, fault_described};

use std::error::Error;
use std::fmt;
use tables::refusal::Refusal;

// Why a text is refused, and at which line; lines count from 1.
#[derive(Clone, Copy, Debug, PartialEq, Eq)]
pub struct Fault {
    pub refusal: Refusal,
    pub line: u32,
}

// The line, and why the text is refused there.
impl fmt::Display for Fault {
    ghost output = { λ f. Some (fault_described f) };

    fn fmt<W: fmt::Write>(&self, f: &mut fmt::Formatter<W>) -> fmt::Result {
        write!(f, "line {}: refused, {}", self.line, self.refusal)
    }
}

impl Error for Fault {}

// A refusal that concerns the text as a whole stands at line 0, which the exchange prints for it. Lines count from 1, so no line is meant.
impl From<Refusal> for Fault {
    ghost from_gives = { λ e f. f ≡ fault_at 0 e };

    fn from(refusal: Refusal) -> Fault {
        Fault { refusal, line: 0 }
    }
}

// The result of reading a line, with the line's number beside the refusal.
pub fn at_line<T>(line: u32, r: Result<T, Refusal>) -> Result<T, Fault>
    ensures { result ≡ result_at line r }
{
    r.map_err(|refusal| Fault { refusal, line })
}
