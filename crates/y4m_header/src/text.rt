//! Texts of bytes: their parts round a separator, the decimal numbers that they write, and names.
ghost use Rattle.std.specs.Prelude.{◌≡◌, ◌<◌, ◌≤◌, ◌∷◌, ◌^◌, ◌==◌, All, IsTrue, IfSome, IfNone, length};
ghost use Rattle.std.specs.Prelude.{position};
ghost use Rattle.std.specs.Char.{IsAsciiDigit, is_ascii_digit};
ghost use Rattle.std.specs.List.{before_first, list_all};
ghost use Rattle.std.specs.Option.{option_copied};
ghost use Rattle.std.specs.Str.Parse.{digits_value};
ghost use Rattle.y4m_header.specs.Text.{is_name, is_name_byte, number_of, parts, parts_left, text_after};

pub use crate::limits::MOST_DIGITS;

/// The longest name of a stream, in bytes.
const LONGEST_NAME: usize = 32;

/// The index of the first byte of this value.
pub fn place_of(byte: u8, text: &[u8]) -> Option<usize>
    ensures { result ≡ position (λ b. b == byte) text.now }
{
    text.iter().position(|b| *b == byte)
}

/// The first part of a text, and what stands after its separator if there is one.
///
/// Cut again and again, a text gives each of its parts, also the empty ones before, between and after
/// separators.
pub fn cut(separator: u8, text: &[u8]) -> (&[u8], Option<&[u8]>)
    ensures parts { parts separator text.now ≡ result.0.now ∷ parts_left separator (option_copied result.1) }
    ensures first { result.0.now ≡ before_first (λ byte. byte == separator) text.now }
    ensures rest { option_copied result.1 ≡ text_after separator text.now }
    ensures whole { IfNone result.1 (result.0.now ≡ text.now) }
    ensures shorter { IfSome result.1 (λ rest. length rest.now < length text.now) }
{
    match place_of(separator, text) {
        Some(place) => (&text[..place], Some(&text[place + 1..])),
        None => (text, None),
    }
}

/// The number that 1 to `most` decimal digits write, with leading zeros or without. Any other text writes
/// none.
pub fn decimal_number(most: usize, digits: &[u8]) -> Option<u64>
    requires { most ≤ MOST_DIGITS }
    ensures value { result ≡ number_of most digits.now }
    ensures small { IfSome result (λ number. number < 10 ^ most) }
{
    if digits.is_empty() || digits.len() > most || !are_digits(digits) {
        return None;
    }
    Some(digits_value(digits))
}

fn are_digits(text: &[u8]) -> bool
    ensures value { result ≡ list_all is_ascii_digit text.now }
    ensures each { IsTrue result → All IsAsciiDigit text.now }
{
    text.iter().all(|byte| byte.is_ascii_digit())
}

/// The number that decimal digits write.
pub(crate) fn digits_value(digits: &[u8]) -> u64
    requires few_digits { length digits.now ≤ MOST_DIGITS }
    requires digits { All IsAsciiDigit digits.now }
    ensures { result ≡ digits_value 10 digits.now }
{
    let mut value = 0;
    for digit in digits {
        value = 10 * value + u64::from(*digit - b'0');
    }
    value
}

/// Whether a text is the name that a user may give a stream: 1 to 32 letters, digits, `_` or `-`.
pub fn is_name(text: &[u8]) -> bool
    ensures { result ≡ is_name text.now }
{
    !text.is_empty() && text.len() <= LONGEST_NAME && are_name_bytes(text)
}

fn are_name_bytes(text: &[u8]) -> bool
    ensures { result ≡ list_all is_name_byte text.now }
{
    text.iter().all(|byte| is_name_byte(*byte))
}

fn is_name_byte(byte: u8) -> bool
    ensures { result ≡ is_name_byte byte }
{
    byte.is_ascii_alphanumeric() || byte == b'_' || byte == b'-'
}
