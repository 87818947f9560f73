//! Why there is no book, and no hub.
ghost use Rattle.std.specs.Prelude.{◌≡◌};

use std::alloc::AllocError;
use thiserror::Error;

/// Why there is no book, or no hub.
#[derive(Clone, Copy, Debug, PartialEq, Eq, Error)]
pub enum HubError {
    /// The journal's limit isn't 16 to 1,048,576, or not at least the number of streams and 2.
    #[error("BadLimit")]
    BadLimit,
    /// The memory for the desk, the journal or the seats was refused.
    #[error("NoMemory")]
    NoMemory,
}

impl From<AllocError> for HubError {
    ghost use Rattle.serve_hub.specs.declared.error.HubError.{HubError};

    ghost from_gives = { λ _ e. e ≡ HubError.NoMemory };

    fn from(_: AllocError) -> HubError {
        HubError::NoMemory
    }
}
