//! The limits of what is read, and which sizes go with a chroma form.
ghost use Rattle.std.specs.Prelude.{◌≡◌, ◌≤◌, ◌↔◌, IsTrue, MatchBool};
ghost use Rattle.y4m_header.specs.Chroma.{data_len};
ghost use Rattle.y4m_header.specs.HeaderLine.{IsDivided, IsWithinLimits};
ghost use Rattle.y4m_header.specs.Refusal.{IsTooLarge};

use crate::chroma::Chroma;

/// The longest line, without its line feed.
pub const LONGEST_LINE: usize = 1023;

/// So many decimal digits write a number of 64 bits, whatever they are.
pub const MOST_DIGITS: usize = 19;

/// The most digits of a width or a height.
pub const MOST_SIZE_DIGITS: usize = 9;

/// The greatest width and the greatest height, in pixels.
pub const LONGEST_SIDE: u32 = 16_384;

/// The most data of a frame, in bytes.
pub const LARGEST_DATA: u64 = 67_108_864;

/// The most frames of a stream.
pub const MOST_FRAMES: u64 = 16_777_216;

/// Whether the planes of the chroma have whole numbers of columns and rows.
pub fn is_divided(width: u32, height: u32, chroma: Chroma) -> bool
    ensures { IsTrue result ↔ IsDivided width height chroma }
{
    let divisors = chroma.divisors();
    width % divisors.horizontal == 0 && height % divisors.vertical == 0
}

/// The bytes of a frame's data.
fn data_len(width: u64, height: u64, chroma: Chroma) -> u64
    requires width { width ≤ LONGEST_SIDE }
    requires height { height ≤ LONGEST_SIDE }
    ensures { result ≡ data_len width height chroma }
{
    match chroma {
        Chroma::S420 => width * height + 2 * ((width / 2) * (height / 2)),
        Chroma::S422 => 2 * (width * height),
        Chroma::S411 => width * height + 2 * ((width / 4) * height),
        Chroma::S444 => 3 * (width * height),
        Chroma::S444Alpha => 4 * (width * height),
        Chroma::Mono => width * height,
    }
}

pub fn is_within_limits(width: u32, height: u32, chroma: Chroma) -> bool
    ensures { MatchBool result (IsWithinLimits width height chroma) (IsTooLarge width height chroma) }
{
    width <= LONGEST_SIDE
        && height <= LONGEST_SIDE
        && data_len(u64::from(width), u64::from(height), chroma) <= LARGEST_DATA
}
