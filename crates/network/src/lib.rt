// Networks that can be read and networks that can be improved; their worth, and tests of their flows and of potentials.
#![tactic(auto)]

pub mod arcs;
pub mod bounds;
pub mod circulation;
pub mod improvable;
pub mod potentials;
pub mod readable;
pub mod valuation;
pub mod walk;
