//! The header line.
ghost use Rattle.std.specs.Prelude.{◌≡◌, ◌≢◌, ◌≤◌, ℕ, IfOk, IfErr, IsErrOf, length};

use crate::chroma::Chroma;
use crate::error::HeaderError;
use crate::format::read_format;
use crate::limits::LONGEST_SIDE;
use crate::resized::resized_line;
use std::alloc::Global;
use std::marker::Model;

/// A header line that was accepted, with the size and the chroma form that it states.
///
/// The line is kept byte for byte, without its line feed: the tags that nothing here reads (F, I, A, X and
/// any other) stay as they came.
#[derive(Debug, Drop)]
pub struct Header {
    line: Vec<u8>,
    width: u32,
    height: u32,
    chroma: Chroma,
}

impl Model for Header {
    ghost use Rattle.y4m_header.specs.Header.{HeaderValue};
    ghost use Rattle.y4m_header.specs.HeaderLine.{IsHeaderLine};

    ghost Value = { HeaderValue };

    ghost view = { λ a.
        record { line = a.line.items; width = a.width; height = a.height; chroma = a.chroma } };

    ghost invariant = { λ a. ∥ IsHeaderLine a.line.items a.width a.height a.chroma ∥₁ };
}

impl Header {
    ghost use Rattle.y4m_header.specs.HeaderLine.{IsHeaderLine, IsDivided, IsWithinLimits};
    ghost use Rattle.y4m_header.specs.Refusal.{IsRefusedAs};
    ghost use Rattle.y4m_header.specs.Resized.{resized_line};

    /// Reads a header line, given without its line feed, by the grammar of yuv4mpeg(5).
    ///
    /// Where the manual page leaves a choice: a size is 1 to 9 digits, leading zeros allowed; W, H or C twice
    /// is refused, and any other tag may be repeated; a run of spaces makes no tag; without C the form is
    /// 4:2:0.
    ///
    /// Of several faults the one is answered that stands first in `HeaderError`. `NoMemory` is answered for a
    /// header line alone, where the memory to keep it is refused.
    pub fn parse(alloc: Global, line: &[u8]) -> Result<Header, HeaderError>
        // What is kept is the line, and what it states.
        ensures line { IfOk result (λ header. header.line ≡ line.now) }
        ensures stated { IfOk result (λ header.
            IsHeaderLine line.now header.width header.height header.chroma) }

        // A header line is refused for want of memory alone.
        ensures accepted { (w h : ℕ) (chroma : Chroma) → IsHeaderLine line.now w h chroma
            → IfErr result (λ error. error ≡ HeaderError.NoMemory) }

        // Each refusal comes only where it is the first that holds, and there always.
        ensures refused { IfErr result (λ error. IsRefusedAs error line.now) }
        ensures each { (error : HeaderError) → error ≢ HeaderError.NoMemory → IsRefusedAs error line.now
            → IsErrOf result error }
    {
        let format = read_format(line)?;
        Ok(Header {
            line: line.to_vec(alloc)?,
            width: format.width,
            height: format.height,
            chroma: format.chroma,
        })
    }

    /// In pixels.
    pub fn width(&self) -> u32
        ensures value { result ≡ self.now.width }
        ensures positive { 1 ≤ result }
        ensures limit { result ≤ LONGEST_SIDE }
    {
        self.width
    }

    /// In pixels.
    pub fn height(&self) -> u32
        ensures value { result ≡ self.now.height }
        ensures positive { 1 ≤ result }
        ensures limit { result ≤ LONGEST_SIDE }
    {
        self.height
    }

    /// The chroma form that the tag C states, 4:2:0 where there is none. It divides the size.
    pub fn chroma(&self) -> Chroma
        ensures value { result ≡ self.now.chroma }
        ensures divided { IsDivided self.now.width self.now.height result }
        ensures limits { IsWithinLimits self.now.width self.now.height result }
    {
        self.chroma
    }

    /// The whole line, without its line feed.
    pub fn line(&self) -> &[u8]
        ensures value { result.now ≡ self.now.line }
        ensures is_header { IsHeaderLine self.now.line self.now.width self.now.height self.now.chroma }
    {
        &self.line
    }

    /// The header of frames cut out of this one's: the values of W and H are replaced in place, without
    /// leading zeros, and all else of the line stays byte for byte. `NoMemory` is answered where the memory
    /// for the new line is refused.
    pub fn resized(&self, alloc: Global, width: u32, height: u32) -> Result<Header, HeaderError>
        requires some_width { 1 ≤ width }
        requires within_width { width ≤ self.now.width }
        requires some_height { 1 ≤ height }
        requires within_height { height ≤ self.now.height }
        requires divided { IsDivided width height self.now.chroma }
        ensures line { IfOk result (λ header. header.line ≡ resized_line self.now.line width height) }
        ensures width { IfOk result (λ header. header.width ≡ width) }
        ensures height { IfOk result (λ header. header.height ≡ height) }
        ensures chroma { IfOk result (λ header. header.chroma ≡ self.now.chroma) }
        ensures never_longer { IfOk result (λ header. length header.line ≤ length self.now.line) }
        ensures memory { IfErr result (λ error. error ≡ HeaderError.NoMemory) }
    {
        Ok(Header {
            line: resized_line(alloc, &self.line, width, height)?,
            width,
            height,
            chroma: self.chroma,
        })
    }
}
