//! What is wrong with a line.
ghost use Rattle.std.specs.Prelude.{◌≡◌};
ghost use Rattle.y4m_header.specs.declared.error.HeaderError.TheVariants.{NoMemory};

use std::alloc::AllocError;
use std::fmt;
use thiserror::Error;

/// Why a line is no header line, or no frame line.
#[derive(Clone, Copy, Debug, PartialEq, Eq, Error)]
pub enum HeaderError {
    /// The line isn't `YUV4MPEG2` followed by its end or a space, holds a line feed, or is longer than
    /// `LONGEST_LINE`.
    NotY4m,
    /// A value of W or H isn't 1 to 9 digits that stand for at least 1.
    BadNumber,
    /// W, H or C stands twice.
    RepeatedTag,
    /// There is no W, or no H.
    MissingSize,
    /// The value of C names no chroma form that is read.
    UnknownChroma,
    /// The chroma form's divisors don't divide the size.
    NotDivisible,
    /// The width, the height or the frame's data is over its limit.
    TooLarge,
    /// There was no memory for the line.
    NoMemory,
    /// The line isn't `FRAME` followed by its end or a space, holds a line feed, or is longer than
    /// `LONGEST_LINE`.
    NotFrame,
}

impl HeaderError {
    ghost use Rattle.y4m_header.specs.Words.{header_word};

    /// The word that it is told by, its own name.
    pub fn word(&self) -> &'static str
        ensures { result.now ≡ header_word self.now }
    {
        match self {
            HeaderError::NotY4m => "NotY4m",
            HeaderError::BadNumber => "BadNumber",
            HeaderError::RepeatedTag => "RepeatedTag",
            HeaderError::MissingSize => "MissingSize",
            HeaderError::UnknownChroma => "UnknownChroma",
            HeaderError::NotDivisible => "NotDivisible",
            HeaderError::TooLarge => "TooLarge",
            HeaderError::NoMemory => "NoMemory",
            HeaderError::NotFrame => "NotFrame",
        }
    }
}

impl fmt::Display for HeaderError {
    ghost use Rattle.std.specs.Prelude.{Some};
    ghost use Rattle.y4m_header.specs.Words.{header_word};

    ghost output = { λ error. Some (header_word error) };

    fn fmt<W: fmt::Write>(&self, f: &mut fmt::Formatter<W>) -> fmt::Result {
        f.write_str(self.word())
    }
}

impl From<AllocError> for HeaderError {
    ghost from_gives = { λ _ error. error ≡ NoMemory };

    fn from(_error: AllocError) -> HeaderError {
        HeaderError::NoMemory
    }
}
