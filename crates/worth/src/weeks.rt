ghost use Rattle.std.specs.Prelude.{refl};
ghost use Rattle.worth.specs.Weeks.{weeks as counted};
ghost use Rattle.worth.specs.Integers.{weeks_laws};

use super::kind::{Ordered, Worth};
use std::cmp::Ordering;

// A count of weeks. A unit is worth its weeks. It is no kind of `Money`: the worth of a unit and the measure of a size differ.
#[derive(Clone, Copy, Debug, PartialEq, Eq, PartialOrd, Ord)]
pub struct Weeks {
    pub count: i64,
}

impl Worth for Weeks {
    ghost ops = { counted };

    ghost lawful = { weeks_laws };

    fn unit(_price: i64, weeks: u32) -> Weeks {
        Weeks {
            count: i64::from(weeks),
        }
    }

    fn none() -> Weeks {
        Weeks { count: 0 }
    }

    fn plus(self, other: Weeks) -> Weeks {
        Weeks {
            count: self.count + other.count,
        }
    }

    fn negated(self) -> Weeks {
        Weeks { count: -self.count }
    }

    fn compare(self, other: Weeks) -> Ordering {
        self.count.cmp(&other.count)
    }

    fn times(self, n: u32) -> Weeks {
        Weeks {
            count: self.count * i64::from(n),
        }
    }

    fn is_within(self, bound: u32) -> bool {
        self.count.unsigned_abs() <= u64::from(bound)
    }
}

impl Ordered for Weeks {
    ghost ordered = { λ x y. refl };
}
