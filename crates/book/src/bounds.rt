// The sizes of a round, and the bounds of what stands in it.

pub const MOST_ITEMS: usize = 16;

pub const MOST_MEMBERS: usize = 32;

pub const MOST_HOLDINGS: usize = 128;

pub const MOST_OFFERS: usize = 64;

// Over both sides of all offers.
pub const MOST_LINES: usize = 256;

// Of a limit, of a holding, and on a line.
pub const MOST_UNITS: u32 = 1_000;

// In cents.
pub const HIGHEST_PRICE: u32 = 1_000_000;
