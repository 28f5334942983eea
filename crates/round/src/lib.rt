// Rounds of the exchange: open while they take offers, closed when they are cleared.
// What holds over whole uses stands as a clause `law` on each public call that a use is made of: a caller looks at one call, so
// each call says the law itself.
#![tactic(auto)]

pub mod closed_round;
mod entry;
pub mod offer_view;
pub mod open_round;
pub mod theorems;
