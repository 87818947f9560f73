//! The plane that a blur reads.

ghost use Rattle.std.specs.Prelude.{◌≡◌, ◌+◌, ◌*◌, ◌≤◌, ◌<◌, ℕ, length, slice_index};
ghost use Rattle.y4m_header.specs.declared.limits.TheConstants.{LONGEST_SIDE};
ghost use Rattle.filters.specs.declared.limits.TheConstants.{MOST_RADIUS};
ghost use Rattle.filters.specs.Blur.{clamped};

use crate::limits::MOST_RADIUS;

/// A plane of at most 16,384 columns and rows, its rows one after another, and the radius of its blur.
#[derive(Clone, Copy)]
pub struct SourcePlane<'a> {
    pub width: usize,
    pub height: usize,
    pub samples: &'a [u8],
    pub radius: usize,
    ghost sized: { length samples.now ≡ height * width },
    ghost wide: { width ≤ LONGEST_SIDE },
    ghost high: { height ≤ LONGEST_SIDE },
    ghost some_width: { 0 < width },
    ghost some_height: { 0 < height },
    ghost bytes: { (k : ℕ) → slice_index samples.now k ≤ 255 },
    ghost reach: { 1 ≤ radius },
    ghost small: { radius ≤ MOST_RADIUS },
}

impl SourcePlane<'_> {
    ghost use Rattle.filters.specs.BlurInside.{IsRowOf};

    /// The samples of row `y`.
    pub fn row(&self, y: usize) -> &[u8]
        requires { y < self.now.height }
        ensures { IsRowOf self.now y result.now }
    {
        let from = y * self.width;
        &self.samples[from..from + self.width]
    }
}

/// The place `at + k - radius`, or where a line of `count` places has none there, the nearest that it has.
pub fn clamped_place(count: usize, radius: usize, at: usize, k: usize) -> usize
    requires short { count ≤ LONGEST_SIDE }
    requires inside { at < count }
    requires near { k ≤ 2 * MOST_RADIUS + 1 }
    ensures place { result ≡ clamped count radius at k }
    ensures within { result < count }
{
    (at + k).saturating_sub(radius).min(count - 1)
}
