//! Whether a stream is still there.

use std::alloc::{AllocError, Global};
use std::sync::Arc;
use std::sync::atomic::{AtomicBool, Ordering};

/// Whether a stream is still there, for who shows it beside those who serve it.
#[derive(Drop)]
pub struct Presence {
    is_over: Arc<AtomicBool, Global>,
}

impl Presence {
    /// The presence of a stream that has come.
    pub fn new(alloc: Global) -> Result<Presence, AllocError> {
        let is_over = Arc::new(alloc, AtomicBool::new(false))?;
        Ok(Presence { is_over })
    }

    /// The same presence, for another thread. None where too many have it.
    pub fn for_another(&self) -> Option<Presence> {
        let is_over = Arc::try_clone(&self.is_over).ok()?;
        Some(Presence { is_over })
    }

    /// The stream is no longer there, for all who have this.
    pub fn end(&self) {
        self.is_over.store(true, Ordering::SeqCst);
    }

    /// Whether the stream is still there.
    pub fn lasts(&self) -> bool {
        !self.is_over.load(Ordering::SeqCst)
    }
}
