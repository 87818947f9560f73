//! How many items a queue holds, and how many it numbers.

/// The most items that a queue has places for.
pub const MOST_PLACES: u64 = 256;

/// So many items are numbered at most.
pub const MOST_ITEMS: u64 = 1 << 40;
