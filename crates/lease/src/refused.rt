//! Why a frame got no job.
use frame_view::Frame;
use std::sync::Arc;
use thiserror::Error;

/// Why a frame got no job. The frame comes back.
#[derive(Debug, Drop, Error)]
pub enum JobRefused {
    /// The frame isn't of the geometry that the chain was made for.
    #[error("WrongSize")]
    WrongSize(Arc<Frame>),
    /// The memory that the call needs wasn't granted.
    #[error("NoMemory")]
    NoMemory(Arc<Frame>),
}

/// Why a frame got no job over the memory of an image. Both come back.
#[derive(Debug, Drop, Error)]
pub enum OverRefused {
    /// The frame isn't of the geometry that the chain was made for.
    #[error("WrongSize")]
    WrongSize(Arc<Frame>, Frame),
    /// The memory of the frame's line, which isn't the image's, wasn't granted.
    #[error("NoMemory")]
    NoMemory(Arc<Frame>, Frame),
}
