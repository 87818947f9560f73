//! A stream's queue of frames, first in first out, from which one frame at a time goes out to be worked on.
//!
//! Contracts see a [`FrameQueue`] as the numbered list of `specs/Queue.antt`.
#![tactic(auto)]

pub mod limits;
pub mod queue;

pub use queue::{AlreadyClosed, FrameQueue, Refused};
