// Improve and clear, over every network that can be improved and every kind of worth.
// Only these two calls are public; the rest is the search that they share.
#![tactic(auto)]

pub mod clear;
mod cycle;
pub mod improve;
mod links;
mod quick;
mod residual;
mod shift;
mod sweep;
