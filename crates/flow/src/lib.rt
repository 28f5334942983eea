// The mathematics of circulations: which of them is best, and how that is shown.
#![tactic(auto)]

pub mod arc;
pub mod optimality;
pub mod step;
