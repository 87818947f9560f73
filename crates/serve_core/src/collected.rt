//! What a collection gives.

use frame_view::Frame;
use std::sync::Arc;

/// A frame that was accepted, and its image by the stream's chain.
#[derive(Debug, Drop)]
pub struct Collected {
    pub source: Arc<Frame>,
    pub image: Frame,
}
