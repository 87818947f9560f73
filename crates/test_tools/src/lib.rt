//! What several crates of tests use: frames of a few samples, streams of a few frames, readers and writers
//! that fail, and two parts of a work that wait for each other.
#![tactic(auto)]

mod devices;
mod frames;
mod parts;
pub mod streams;

pub use devices::{Narrow, Room, Tape};
pub use frames::{PIXEL, TALL, frame_of, geometry_of};
pub use parts::Parts;
