// The haul table: a network that grows road by road.
#![tactic(auto)]

pub mod table;
