ghost use Rattle.std.specs.Prelude.{◌≡◌, ◌+◌, ◌*◌, ◌≤◌, pos, negsuc, ◌≤ℤ◌, nat_le};
ghost use Rattle.worth.specs.Kinds.{Ops, Laws, ordering};

use std::cmp::Ordering;

// A kind of worth: an ordered abelian group whose elements have a size, and the worth of one traded unit.
// The laws hold at any size. Computing is exact while the sizes involved add up to at most 4,194,304.
pub trait Worth: Copy {
    ghost ops: { Ops Self };

    // The worth of one unit.
    fn unit(price: i64, weeks: u32) -> Self
        requires { (negsuc 999999 ≤ℤ price) × ((price ≤ℤ pos 1000000) × (weeks ≤ 1)) }
        ensures { result ≡ ops.unit price weeks };

    fn none() -> Self
        ensures { result ≡ ops.none };

    // `plus`, `minus`, `negated` and `times` are no `Add`, `Sub`, `Neg` and `Mul`, and `none` is no `Default`. Those can ask for a bound
    // too, but of a kind that is not known they say nothing of sizes and sums without further laws, which each caller would have to cite.
    fn plus(self, other: Self) -> Self
        requires { ops.size self + ops.size other ≤ 4194304 }
        ensures { result ≡ ops.plus self other };

    fn negated(self) -> Self
        requires { ops.size self ≤ 4194304 }
        ensures { result ≡ ops.neg self };

    fn times(self, n: u32) -> Self
        requires { n * ops.size self ≤ 4194304 }
        ensures { result ≡ ops.times n self };

    // Whether its size is at most `bound`.
    fn is_within(self, bound: u32) -> bool
        ensures { result ≡ nat_le (ops.size self) bound };

    fn minus(self, other: Self) -> Self
        requires { ops.size self + ops.size other ≤ 4194304 }
        ensures { result ≡ ops.plus self (ops.neg other) }
    {
        self.plus(other.negated())
    }

    // How two worths lie in the order.
    fn compare(self, other: Self) -> Ordering
        ensures { result ≡ ordering ops self other };

    fn is_less(self, other: Self) -> bool
        ensures { result ≡ ops.less self other }
    {
        self.compare(other).is_lt()
    }

    ghost lawful: { Laws ops };
}

// A kind whose values `Ord` orders too, as the operations do. `Worth` itself asks for no `Ord`, so that a kind needs none; and of a kind that
// is not known `Ord` alone would not say the order in the words of the operations, so that each caller would have to cite `ordered`.
pub trait Ordered: Worth + Ord {
    ghost ordered: { (x y : Self) → Self.cmp x y ≡ ordering Self.Worth.ops x y };
}
