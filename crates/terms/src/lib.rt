// What calls bring into a book: names, lines and holdings, how they are tested, and how they are found.
#![tactic(auto)]

pub mod holdings;
pub mod lines;
pub mod name;
