//! The line before each frame.
ghost use Rattle.std.specs.Prelude.{◌≡◌, ◌↔◌, IsOk, IsErr, Err};
ghost use Rattle.y4m_header.specs.FrameLine.{IsFrameLine};

use crate::error::HeaderError;
use crate::line::{is_line, word};

/// Whether this is a line before a frame, given without its line feed: the word `FRAME`, then tags if any.
///
/// The tags (I and X in the manual page) are not read: an interlaced frame is one picture. Of a header's
/// errors `NotFrame` alone is answered.
pub fn check_frame_line(line: &[u8]) -> Result<(), HeaderError>
    ensures accepted { IsOk result ↔ IsFrameLine line.now }
    ensures refused { IsErr result → result ≡ Err HeaderError.NotFrame }
{
    if is_line(line) && word(line) == b"FRAME".as_slice() {
        Ok(())
    } else {
        Err(HeaderError::NotFrame)
    }
}
