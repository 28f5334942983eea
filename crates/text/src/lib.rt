// The layout of texts in small: numbers, rows of numbers and lines, read from bytes and written as bytes.
#![tactic(auto)]

pub mod bounds;
pub mod buffer;
pub mod fault;
pub mod line;
pub mod number;
pub mod numeral;
pub mod parts;
pub mod reader;
pub mod row;
pub mod section;
