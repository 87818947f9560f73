//! Decimal numbers between commas.
ghost use Rattle.std.specs.Prelude.{◌≡◌, ◌∷◌, ◌<◌, MatchOption, option_and_then};
ghost use Rattle.std.specs.Option.{option_copied, option_map};
ghost use Rattle.y4m_header.specs.Text.{number_of};
ghost use Rattle.filters.specs.OpsText.{numbers};
ghost use Rattle.filters.specs.Scan.{numbers_left, only_number, only_two, only_four};

use crate::limits::MOST_NUMBER_DIGITS;
use y4m_header::text::{cut, decimal_number};

/// The number that 1 to 9 digits write.
fn number_of(digits: &[u8]) -> Option<u32>
    ensures { result ≡ number_of MOST_NUMBER_DIGITS digits.now }
{
    let number = decimal_number(MOST_NUMBER_DIGITS, digits)?;
    Some(number as u32)
}

/// The first number, and what stands after the comma behind it.
fn next_number(text: &[u8]) -> Option<(u32, Option<&[u8]>)>
    ensures { MatchOption result (numbers text.now ≡ None) (λ next.
        numbers text.now ≡ option_map (λ more. next.0 ∷ more) (numbers_left (option_copied next.1))) }
{
    let (digits, rest) = cut(b',', text);
    Some((number_of(digits)?, rest))
}

/// The one number of a text.
pub fn one_number(text: &[u8]) -> Option<u32>
    ensures { result ≡ option_and_then only_number (numbers text.now) }
{
    let (number, rest) = next_number(text)?;
    match rest {
        None => Some(number),
        Some(_) => None,
    }
}

/// The two numbers of a text.
pub fn two_numbers(text: &[u8]) -> Option<(u32, u32)>
    ensures { result ≡ option_and_then only_two (numbers text.now) }
{
    let (first, rest) = next_number(text)?;
    Some((first, one_number(rest?)?))
}

/// The four numbers of a text.
pub fn four_numbers(text: &[u8]) -> Option<(u32, u32, u32, u32)>
    ensures { result ≡ option_and_then only_four (numbers text.now) }
{
    let (first, rest) = next_number(text)?;
    let (second, rest) = next_number(rest?)?;
    let (third, fourth) = two_numbers(rest?)?;
    Some((first, second, third, fourth))
}
