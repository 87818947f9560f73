//! What a reader of frames lacks of the next one.
ghost use Rattle.std.specs.Prelude.{◌≡◌, ℕ, ◌+◌, ◌-◌, ◌<◌, ◌≤◌, true, false};
ghost use Rattle.y4m_header.specs.FrameLine.{IsFrameLine};
ghost use Rattle.y4m_header.specs.declared.limits.TheConstants.{LARGEST_DATA};
ghost use Rattle.y4m_stream.specs.declared.lookahead.TheConstants.{LINE_LIMIT};
ghost use Rattle.y4m_stream.specs.declared.wanted.TheConstants.{SHORTEST};
ghost use Rattle.y4m_stream.specs.Wanted.{IsLeast};

use crate::lookahead::LINE_LIMIT;
use y4m_header::check_frame_line;
use y4m_header::text::place_of;

/// The shortest frame line, with its line feed.
const SHORTEST: usize = 6;

/// Whether the line is one that stands before a frame.
pub fn is_frame_line(line: &[u8]) -> bool
    ensures yes { result ≡ true → IsFrameLine line.now }
    ensures no { result ≡ false → ¬ IsFrameLine line.now }
{
    match check_frame_line(line) {
        Ok(()) => true,
        Err(_) => false,
    }
}

/// What a reader lacks of the next frame: the rest of its line, unless it has that, and so many bytes behind
/// it.
#[derive(Clone, Copy, Debug, PartialEq, Eq)]
pub struct Wanted {
    /// How many bytes the rest of the line may have, its line feed among them; 0 where the line is there.
    line: usize,
    /// How many bytes are wanted behind it.
    behind: usize,
    ghost not_empty: { 0 < line + behind },
    ghost short: { line ≤ LINE_LIMIT },
    ghost small: { behind ≤ LARGEST_DATA },
}

impl Wanted {
    /// So many bytes, and no line before them.
    pub fn data(bytes: usize) -> Wanted
        requires { (0 < bytes) × (bytes ≤ LARGEST_DATA) }
        ensures { (result.line ≡ 0) × (result.behind ≡ bytes) }
    {
        Wanted {
            line: 0,
            behind: bytes,
        }
    }

    /// The rest of a line, of at most so many bytes with its line feed, and so many behind it.
    pub fn line(most: usize, behind: usize) -> Wanted
        requires { (0 < most) × (most ≤ LINE_LIMIT) × (behind ≤ LARGEST_DATA) }
        ensures { (result.line ≡ most) × (result.behind ≡ behind) }
    {
        Wanted { line: most, behind }
    }

    /// At most so many bytes are wanted.
    pub fn most(self) -> usize
        ensures { (result ≡ self.line + self.behind) × (0 < result) }
    {
        self.line + self.behind
    }

    /// How many bytes are wanted at least, where these come first. Who waits for no more reads no byte beyond
    /// the frame.
    pub fn least(self, front: &[u8]) -> usize
        ensures within { (0 < result) × (result ≤ self.line + self.behind) }
        ensures data { self.line ≡ 0 → result ≡ self.behind }
        ensures line { 0 < self.line → IsLeast self.line self.behind front.now result }
    {
        if self.line == 0 {
            return self.behind;
        }
        let line = &front[..front.len().min(self.line)];
        let Some(end) = place_of(b'\n', line) else {
            return self.least_of(line.len());
        };
        if self.goes_on(&line[..end]) {
            return end + 1 + self.behind;
        }
        end + 1
    }

    /// Whether data may follow this end of the line: not where it is a whole line, and no frame line.
    fn goes_on(self, line: &[u8]) -> bool
        ensures yes { result ≡ true → self.line ≡ LINE_LIMIT → IsFrameLine line.now }
        ensures no { result ≡ false → (self.line ≡ LINE_LIMIT) × ¬ IsFrameLine line.now }
    {
        if self.line < LINE_LIMIT {
            return true;
        }
        is_frame_line(line)
    }

    /// How many bytes are wanted at least, where so many bytes of the line come first, without a line feed.
    fn least_of(self, come: usize) -> usize
        requires { 0 < self.line }
        ensures within { (0 < result) × (result ≤ self.line + self.behind) }
        ensures long { self.line ≤ come → result ≡ self.line }
        ensures more { come < self.line → come < result }
        ensures least { (n : ℕ) → come < self.line → come + 1 + self.behind ≤ n
            → SHORTEST + self.behind ≤ LINE_LIMIT - self.line + n → result ≤ n }
    {
        if self.line <= come {
            return self.line;
        }
        let before = LINE_LIMIT - self.line;
        (come + 1).max(SHORTEST.saturating_sub(before)) + self.behind
    }
}
