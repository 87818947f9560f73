//! What is offered to a hub.

use frame_view::Frame;
use std::sync::Arc;

/// A frame that is offered at a moment, with the memory of an image of its stream that isn't needed any more,
/// if one is at hand.
#[derive(Debug, Drop)]
pub struct Offer {
    pub at: u64,
    pub frame: Arc<Frame>,
    pub memory: Option<Frame>,
}
