// What the programs `check` and `clear` read and print.
#![tactic(auto)]

pub mod answer;
mod input;
pub mod line;
pub mod run;
