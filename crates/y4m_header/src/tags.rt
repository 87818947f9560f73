//! The tags of a line.
ghost use Rattle.std.specs.Prelude.{◌≡◌, ◌<◌, ◌↔◌, IsTrue, MatchBool, All, Any, length, slice_get};
ghost use Rattle.std.specs.Option.{option_copied};
ghost use Rattle.y4m_header.specs.HeaderLine.{IsSize};
ghost use Rattle.y4m_header.specs.Line.{tag_value, values};

use crate::size::is_size;
use crate::text::cut;

/// What a piece says, if it is a tag with this letter.
fn tag_value(letter: u8, piece: &[u8]) -> Option<&[u8]>
    ensures { option_copied result ≡ tag_value letter piece.now }
{
    match piece.split_first() {
        Some((first, value)) if *first == letter => Some(value),
        _ => None,
    }
}

/// The tags of a line that have one letter.
#[derive(Clone, Copy)]
pub struct Tags<'a> {
    /// What the first of them says.
    pub first: Option<&'a [u8]>,
    /// Whether there is a second one.
    pub repeated: bool,
}

pub fn tags_with(letter: u8, line: &[u8]) -> Tags<'_>
    ensures first { option_copied result.first ≡ slice_get (values letter line.now) 0 }
    ensures repeated { IsTrue result.repeated ↔ (1 < length (values letter line.now)) }
{
    let mut tags = Tags {
        first: None,
        repeated: false,
    };
    let (_, mut rest) = cut(b' ', line);
    while let Some(text) = rest {
        let (piece, more) = cut(b' ', text);
        if let Some(value) = tag_value(letter, piece) {
            match tags.first {
                None => tags.first = Some(value),
                Some(_) => tags.repeated = true,
            }
        }
        rest = more;
    }
    tags
}

/// Whether each tag with this letter states a size.
pub fn all_sizes(letter: u8, line: &[u8]) -> bool
    ensures { MatchBool result (All IsSize (values letter line.now))
        (Any (λ value. ¬ IsSize value) (values letter line.now)) }
{
    let (_, mut rest) = cut(b' ', line);
    while let Some(text) = rest {
        let (piece, more) = cut(b' ', text);
        if let Some(value) = tag_value(letter, piece) {
            if !is_size(value) {
                return false;
            }
        }
        rest = more;
    }
    true
}
