// The bounds of texts and of the numbers in them.

pub const MOST_BYTES: usize = 32_768;

pub const MOST_DIGITS: usize = 13;
