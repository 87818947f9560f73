//! The header line and the frame lines of a YUV4MPEG2 stream.
#![tactic(auto)]

pub mod chroma;
pub mod error;
mod format;
pub mod frame_line;
pub mod header;
pub mod laws;
mod limits;
mod line;
mod resized;
mod size;
mod tags;
pub mod text;

pub use chroma::{Chroma, Divisors};
pub use error::HeaderError;
pub use frame_line::check_frame_line;
pub use header::Header;
pub use limits::{LARGEST_DATA, LONGEST_LINE, LONGEST_SIDE, MOST_FRAMES};
