//! What a client serves its stream by.

use serve_hub::{Epoch, Hub};
use std::alloc::{AllocError, Global};

/// What waits, where memory is taken, the hub of the epoch, and what tells the moments of offers.
pub struct Post<'a, L: Epoch, K, T> {
    pub rt: &'a T,
    pub alloc: Global,
    pub hub: &'a Hub<L>,
    pub clock: &'a K,
}

impl<'a, L: Epoch, K, T> Clone for Post<'a, L, K, T> {
    fn clone(&self) -> Result<Self, AllocError> {
        Ok(*self)
    }
}

impl<'a, L: Epoch, K, T> Copy for Post<'a, L, K, T> {}
