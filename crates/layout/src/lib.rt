// The layout of records: what a text reads as, and which line of a faulty text is refused.
#![tactic(auto)]

pub mod theorems;
