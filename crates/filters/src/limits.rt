//! How long a chain may be, how wide a blur, how dear a frame, and how long a number.

/// The most operations of a chain.
pub const MOST_OPS: usize = 8;

/// The greatest radius of a blur.
pub const MOST_RADIUS: u32 = 8;

/// The most units that one band may cost, which a blur of the greatest radius does.
pub const MOST_BAND_COST: u32 = 1 + MOST_RADIUS;

/// The most units that a frame may cost.
pub const MOST_COST: u32 = 32_768;

/// The most digits of a number in a text of operations.
pub const MOST_NUMBER_DIGITS: usize = 9;
