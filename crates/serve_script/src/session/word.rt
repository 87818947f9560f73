//! The words of a session script's lines.
ghost use Rattle.std.specs.Prelude.{◌≡◌};
ghost use Rattle.std.specs.List.{list_all};
ghost use Rattle.std.specs.Char.{is_ascii_hexdigit};
ghost use Rattle.std.specs.Option.{option_copied};
ghost use Rattle.serve_script.specs.SessionWords.{is_hex, name_of, worker_of};

use crate::command::parse_number;
use y4m_header::text::is_name;

/// Whether a word is one or more pairs of hexadecimal digits, of either case.
pub fn is_hex(word: &[u8]) -> bool
    ensures { result ≡ is_hex word.now }
{
    !word.is_empty() && word.len() % 2 == 0 && are_hex_digits(word)
}

fn are_hex_digits(word: &[u8]) -> bool
    ensures { result ≡ list_all is_ascii_hexdigit word.now }
{
    word.iter().all(|byte| byte.is_ascii_hexdigit())
}

/// The word, if it is a name.
pub fn parse_name(word: &[u8]) -> Option<&[u8]>
    ensures { option_copied result ≡ name_of word.now }
{
    if is_name(word) { Some(word) } else { None }
}

/// The worker whose number a word writes.
pub fn parse_worker(word: &[u8]) -> Option<u32>
    ensures { result ≡ worker_of word.now }
{
    let number = parse_number(word)?;
    if number < 1 << 32 {
        Some(number as u32)
    } else {
        None
    }
}
