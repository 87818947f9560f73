//! What a session is served by.

use std::alloc::{AllocError, Global};

/// How many workers a session has, the most bands of one lease, and the most entries of an epoch's journal.
#[derive(Clone, Copy)]
pub struct Form {
    pub workers: u64,
    pub quantum: u64,
    pub journal: usize,
}

/// What starts a session's threads and waits, where memory is taken, its form, and what tells its moments.
pub struct Session<'t, 'c, K, T> {
    pub rt: &'t T,
    pub alloc: Global,
    pub form: Form,
    pub clock: &'c K,
}

impl<'t, 'c, K, T> Clone for Session<'t, 'c, K, T> {
    fn clone(&self) -> Result<Self, AllocError> {
        Ok(*self)
    }
}

impl<'t, 'c, K, T> Copy for Session<'t, 'c, K, T> {}
