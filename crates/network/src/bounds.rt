// The bounds of networks.

pub const MOST_NODES: usize = 272;

pub const MOST_ARCS: usize = 448;

// Of one arc.
pub const MOST_CAPACITY: u32 = 1_000;

// In cents, without sign.
pub const HIGHEST_PRICE: i64 = 1_000_000;

// The largest size of a potential.
pub const LARGEST_SIZE: u32 = 1_000_000;
