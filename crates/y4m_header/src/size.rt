//! The sizes that the tags W and H state.
ghost use Rattle.std.specs.Prelude.{◌≡◌, ◌↔◌, IsTrue};
ghost use Rattle.std.specs.Str.Parse.{digits_value};
ghost use Rattle.y4m_header.specs.HeaderLine.{IsSize};

use crate::limits::MOST_SIZE_DIGITS;
use crate::text::{decimal_number, digits_value};

/// Whether a value of W or H is one that such a tag may have.
pub fn is_size(value: &[u8]) -> bool
    ensures { IsTrue result ↔ IsSize value.now }
{
    decimal_number(MOST_SIZE_DIGITS, value).is_some_and(|size| size > 0)
}

/// The size that a value of W or H states.
pub fn stated_size(value: &[u8]) -> u32
    requires { IsSize value.now }
    ensures { result ≡ digits_value 10 value.now }
{
    digits_value(value) as u32
}
