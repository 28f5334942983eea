ghost use Rattle.std.specs.Prelude.{refl};
ghost use Rattle.worth.specs.Money.{money};
ghost use Rattle.worth.specs.Integers.{money_laws};

use super::kind::{Ordered, Worth};
use std::cmp::Ordering;

// Cents. A unit is worth its price.
#[derive(Clone, Copy, Debug, PartialEq, Eq, PartialOrd, Ord)]
pub struct Money {
    pub cents: i64,
}

impl Worth for Money {
    ghost ops = { money };

    ghost lawful = { money_laws };

    fn unit(price: i64, _weeks: u32) -> Money {
        Money { cents: price }
    }

    fn none() -> Money {
        Money { cents: 0 }
    }

    fn plus(self, other: Money) -> Money {
        Money {
            cents: self.cents + other.cents,
        }
    }

    fn negated(self) -> Money {
        Money { cents: -self.cents }
    }

    fn compare(self, other: Money) -> Ordering {
        self.cents.cmp(&other.cents)
    }

    fn times(self, n: u32) -> Money {
        Money {
            cents: self.cents * i64::from(n),
        }
    }

    // The size counts begun millions of cents, so it is within a bound where the amount is within so many millions.
    fn is_within(self, bound: u32) -> bool {
        self.cents.unsigned_abs() <= 1_000_000 * u64::from(bound)
    }
}

impl Ordered for Money {
    ghost ordered = { λ x y. refl };
}
