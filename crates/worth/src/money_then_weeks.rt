use super::lexicographic::Lexicographic;
use super::money::Money;
use super::weeks::Weeks;

// Money first, and weeks where the money is equal.
pub type MoneyThenWeeks = Lexicographic<Money, Weeks>;
