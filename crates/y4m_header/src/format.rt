//! The size and the chroma form that a header line states.
ghost use Rattle.std.specs.Prelude.{◌↔◌, IsTrue, MatchBool, IfOk, IfErr, IfSome, IfNone};
ghost use Rattle.y4m_header.specs.HeaderLine.{IsY4mLine, StatesSize, StatesFormat, IsHeaderLine};
ghost use Rattle.y4m_header.specs.HeaderLine.{widths, heights};
ghost use Rattle.y4m_header.specs.Refusal.{IsRefusedAs, HasBadSize, HasGoodSizes, HasRepeat, HasNoRepeat};
ghost use Rattle.y4m_header.specs.Refusal.{LacksSize};

use crate::chroma::Chroma;
use crate::error::HeaderError;
use crate::limits::{is_divided, is_within_limits};
use crate::line::{is_line, word};
use crate::size::stated_size;
use crate::tags::{all_sizes, tags_with};

#[derive(Clone, Copy)]
pub struct Format {
    pub width: u32,
    pub height: u32,
    pub chroma: Chroma,
}

fn is_y4m_line(line: &[u8]) -> bool
    ensures { IsTrue result ↔ IsY4mLine line.now }
{
    is_line(line) && word(line) == b"YUV4MPEG2".as_slice()
}

fn has_bad_size(line: &[u8]) -> bool
    ensures { MatchBool result (HasBadSize line.now) (HasGoodSizes line.now) }
{
    !all_sizes(b'W', line) || !all_sizes(b'H', line)
}

fn has_repeat(line: &[u8]) -> bool
    ensures { MatchBool result (HasRepeat line.now) (HasNoRepeat line.now) }
{
    tags_with(b'W', line).repeated
        || tags_with(b'H', line).repeated
        || tags_with(b'C', line).repeated
}

/// The width and the height, if both are there.
fn sizes_of(line: &[u8]) -> Option<(u32, u32)>
    requires good { HasGoodSizes line.now }
    requires once { HasNoRepeat line.now }
    ensures stated { IfSome result (λ size.
        StatesSize (widths line.now) size.0 × StatesSize (heights line.now) size.1) }
    ensures none { IfNone result (LacksSize line.now) }
{
    match (tags_with(b'W', line).first, tags_with(b'H', line).first) {
        (Some(width), Some(height)) => Some((stated_size(width), stated_size(height))),
        _ => None,
    }
}

fn read_sizes(line: &[u8]) -> Result<(u32, u32), HeaderError>
    ensures stated { IfOk result (λ size. IsY4mLine line.now × HasNoRepeat line.now
        × StatesSize (widths line.now) size.0 × StatesSize (heights line.now) size.1) }
    ensures refused { IfErr result (λ error. IsRefusedAs error line.now) }
{
    if !is_y4m_line(line) {
        return Err(HeaderError::NotY4m);
    }
    if has_bad_size(line) {
        return Err(HeaderError::BadNumber);
    }
    if has_repeat(line) {
        return Err(HeaderError::RepeatedTag);
    }
    sizes_of(line).ok_or(HeaderError::MissingSize)
}

/// What the tags state, whether or not it goes together.
fn read_tags(line: &[u8]) -> Result<Format, HeaderError>
    ensures stated { IfOk result (λ format. StatesFormat line.now format.width format.height format.chroma) }
    ensures refused { IfErr result (λ error. IsRefusedAs error line.now) }
{
    let (width, height) = read_sizes(line)?;
    let Some(chroma) = Chroma::of_tag(tags_with(b'C', line).first) else {
        return Err(HeaderError::UnknownChroma);
    };
    Ok(Format {
        width,
        height,
        chroma,
    })
}

/// What a header line states.
pub fn read_format(line: &[u8]) -> Result<Format, HeaderError>
    ensures stated { IfOk result (λ format. IsHeaderLine line.now format.width format.height format.chroma) }
    ensures refused { IfErr result (λ error. IsRefusedAs error line.now) }
{
    let format = read_tags(line)?;
    if !is_divided(format.width, format.height, format.chroma) {
        return Err(HeaderError::NotDivisible);
    }
    if !is_within_limits(format.width, format.height, format.chroma) {
        return Err(HeaderError::TooLarge);
    }
    Ok(format)
}
