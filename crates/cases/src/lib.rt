// The worked cases: what the rules of the exchange make of them.
#![tactic(auto)]

#[cfg(test)]
mod by_calls;
pub mod worked;
