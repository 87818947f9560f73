//! What is wrong with a chain of operations.
ghost use Rattle.std.specs.Prelude.{◌≡◌};
ghost use Rattle.filters.specs.declared.error.FilterError.TheVariants.{NoMemory};

use std::alloc::{AllocError, AllocFailed};
use std::fmt;
use thiserror::Error;

/// Why a text of operations is none, or why operations make no chain.
#[derive(Clone, Copy, Debug, PartialEq, Eq, Error)]
pub enum FilterError {
    /// A part of the text says no operation, or a chain has a blur whose radius isn't 1 to 8.
    BadOp,
    /// There are more than 8 operations, or none.
    TooManyOps,
    /// A rectangle is empty, leaves the frame that reaches it, or cuts a sample of a chroma plane.
    BadCrop,
    /// The steps of a frame cost more than 32,768 units.
    TooManySteps,
    /// The memory that the call needs wasn't granted.
    NoMemory,
}

impl FilterError {
    ghost use Rattle.filters.specs.Words.{filter_word};

    /// The word that it is told by, its own name.
    pub fn word(&self) -> &'static str
        ensures { result.now ≡ filter_word self.now }
    {
        match self {
            FilterError::BadOp => "BadOp",
            FilterError::TooManyOps => "TooManyOps",
            FilterError::BadCrop => "BadCrop",
            FilterError::TooManySteps => "TooManySteps",
            FilterError::NoMemory => "NoMemory",
        }
    }
}

impl fmt::Display for FilterError {
    ghost use Rattle.std.specs.Prelude.{Some};
    ghost use Rattle.filters.specs.Words.{filter_word};

    ghost output = { λ error. Some (filter_word error) };

    fn fmt<W: fmt::Write>(&self, f: &mut fmt::Formatter<W>) -> fmt::Result {
        f.write_str(self.word())
    }
}

impl From<AllocError> for FilterError {
    ghost from_gives = { λ _ error. error ≡ NoMemory };

    fn from(_error: AllocError) -> FilterError {
        FilterError::NoMemory
    }
}

impl<T: Drop> From<AllocFailed<T>> for FilterError {
    ghost from_gives = { λ _ error. error ≡ NoMemory };

    fn from(_error: AllocFailed<T>) -> FilterError {
        FilterError::NoMemory
    }
}
