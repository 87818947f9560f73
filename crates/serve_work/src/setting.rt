//! What the epochs of a session are given.

use std::alloc::{AllocError, Global};

/// What starts threads and waits, where memory is taken, who is told of the work (`Gate`), and who tells the
/// moments of offers (`Clock`).
pub(crate) struct Setting<'a, G, K, T> {
    pub(crate) rt: &'a T,
    pub(crate) alloc: Global,
    pub(crate) gate: &'a G,
    pub(crate) clock: &'a K,
}

impl<'a, G, K, T> Clone for Setting<'a, G, K, T> {
    fn clone(&self) -> Result<Self, AllocError> {
        Ok(*self)
    }
}

impl<'a, G, K, T> Copy for Setting<'a, G, K, T> {}
