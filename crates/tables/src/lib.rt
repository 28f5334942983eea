// Lists of bounded length held in place, and the refusals that every call shares.
#![tactic(auto)]

pub mod refusal;
pub mod table;
