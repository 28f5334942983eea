// Kinds of worth: what they share, money, weeks, and any two piled up.
#![tactic(auto)]

pub mod kind;
pub mod lexicographic;
pub mod money;
pub mod money_then_weeks;
pub mod weeks;
