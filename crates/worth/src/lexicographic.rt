ghost use Rattle.worth.specs.Lexicographic.{pile};
ghost use Rattle.worth.specs.Pairs.{pile_laws, pile_ordered};

use super::kind::{Ordered, Worth};
use std::cmp::Ordering;

// Two kinds piled up: the first decides, the second only where the first is equal.
#[derive(Clone, Copy, Debug, PartialEq, Eq, PartialOrd, Ord)]
pub struct Lexicographic<A, B> {
    pub first: A,
    pub second: B,
}

impl<F: Worth, S: Worth> Worth for Lexicographic<F, S> {
    ghost ops = { pile F.Worth.ops S.Worth.ops };

    ghost lawful = { pile_laws F.Worth.lawful S.Worth.lawful };

    fn unit(price: i64, weeks: u32) -> Lexicographic<F, S> {
        Lexicographic {
            first: F::unit(price, weeks),
            second: S::unit(price, weeks),
        }
    }

    fn none() -> Lexicographic<F, S> {
        Lexicographic {
            first: F::none(),
            second: S::none(),
        }
    }

    fn plus(self, other: Lexicographic<F, S>) -> Lexicographic<F, S> {
        Lexicographic {
            first: self.first.plus(other.first),
            second: self.second.plus(other.second),
        }
    }

    fn negated(self) -> Lexicographic<F, S> {
        Lexicographic {
            first: self.first.negated(),
            second: self.second.negated(),
        }
    }

    fn compare(self, other: Lexicographic<F, S>) -> Ordering {
        match self.first.compare(other.first) {
            Ordering::Equal => self.second.compare(other.second),
            decided => decided,
        }
    }

    fn times(self, n: u32) -> Lexicographic<F, S> {
        Lexicographic {
            first: self.first.times(n),
            second: self.second.times(n),
        }
    }

    fn is_within(self, bound: u32) -> bool {
        self.first.is_within(bound) && self.second.is_within(bound)
    }
}

impl<F: Ordered, S: Ordered> Ordered for Lexicographic<F, S> {
    ghost ordered = { pile_ordered F.Worth.ops S.Worth.ops F.Ordered.ordered S.Ordered.ordered };
}
