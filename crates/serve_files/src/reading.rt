//! What others than its client and its looker share of a reader.

use std::alloc::{AllocError, Global};
use std::sync::atomic::{AtomicBool, Ordering};
use std::sync::{Arc, Condvar};

#[derive(Drop)]
struct Shared {
    is_read: AtomicBool,
    is_called: AtomicBool,
    changed: Condvar,
}

/// Whether a reader is being read by a thread of its own, for who asks beside that thread and its client. Who
/// has it may call the client, which doesn't wait on for bytes then.
#[derive(Drop)]
pub struct Reading {
    shared: Arc<Shared, Global>,
}

impl Reading {
    /// The reader isn't being read, and nobody is called.
    pub fn new(alloc: Global) -> Result<Reading, AllocError> {
        let shared = Shared {
            is_read: AtomicBool::new(false),
            is_called: AtomicBool::new(false),
            changed: Condvar::new(),
        };
        let shared = Arc::new(alloc, shared)?;
        Ok(Reading { shared })
    }

    /// The same for another thread. None where too many have it.
    pub fn for_another(&self) -> Option<Reading> {
        let shared = Arc::try_clone(&self.shared).ok()?;
        Some(Reading { shared })
    }

    /// Whether the reader is being read. That may be past once it is answered.
    pub fn is_on(&self) -> bool {
        self.shared.is_read.load(Ordering::SeqCst)
    }

    /// Says whether the reader is being read, to all who have this.
    pub fn set(&self, is_on: bool) {
        self.shared.is_read.store(is_on, Ordering::SeqCst);
    }

    /// Calls the client. Where it doesn't wait for bytes, its next wait ends at once.
    pub fn call(&self) {
        self.shared.is_called.store(true, Ordering::SeqCst);
        self.shared.changed.notify_all();
    }

    /// Answers a call of the client, and tells whether there was one.
    pub(crate) fn end_call(&self) -> bool {
        self.shared.is_called.swap(false, Ordering::SeqCst)
    }

    /// What client and looker wait by.
    pub(crate) fn changed(&self) -> &Condvar {
        &self.shared.changed
    }
}
