// The book of a round: what is held and offered, which allotments are allowed, and the network that stands for it.
#![tactic(auto)]

pub mod agreement;
pub mod bounds;
pub mod holding;
pub mod line;
pub mod side;
