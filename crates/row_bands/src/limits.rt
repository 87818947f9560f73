//! How many rows a band has, and how many bands a frame.

/// The fewest luma rows of a band.
pub const FEWEST_BAND_ROWS: u32 = 2;

/// The most luma rows of a band.
pub const MOST_BAND_ROWS: u32 = 128;

/// The most bands of a frame: those of the highest one, each of the fewest rows.
pub const MOST_BANDS: usize = 8_192;
