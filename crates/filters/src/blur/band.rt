//! The blur of a band of rows, by sums of columns that are kept down the band.

ghost use Rattle.std.specs.Prelude.{◌≡◌, ◌+◌, ◌-◌, ◌*◌, ◌≤◌, ◌<◌, ℕ, length};
ghost use Rattle.filters.specs.Blur.{side};
ghost use Rattle.filters.specs.BlurInside.{AreBlurredRows, AreMeansRound, IsPlane, column};

use super::columns::{first_columns, next_columns, repeat_ends};
use super::source::SourcePlane;
use super::window::mean_squares;
use crate::limits::MOST_RADIUS;
use crate::rows::RowSpan;
use y4m_header::LONGEST_SIDE;

/// How many sums there is room for where the plane is narrow: so there is little to clear.
const NARROW_ROOM: usize = 2048;

/// How many sums the widest plane has, with the places beside its columns.
const WIDEST_ROOM: usize = LONGEST_SIDE as usize + 2 * MOST_RADIUS as usize;

/// The row whose sums of columns these are. The columns stay; the places beside them and `fours` are written.
fn mean_row(columns: &mut [u16], radius: usize, fours: &mut [u16], target: &mut [u8])
    requires reach { 1 ≤ radius }
    requires small { radius ≤ MOST_RADIUS }
    requires not_empty { 0 < length target.old }
    requires sized { length target.old + 2 * radius ≡ length columns.old }
    requires fours { length fours.old ≡ length columns.old }
    requires bytes { (x : ℕ) → x < length target.old → column columns.old radius x ≤ 255 * side radius }
    ensures keeps_columns { (x : ℕ) → x < length target.old →
        column columns.new radius x ≡ column columns.old radius x }
    ensures means { AreMeansRound radius (length target.old) columns.old target.new }
{
    repeat_ends(columns, radius);
    mean_squares(columns, radius, fours, target);
}

/// Writes the rows from `from` up to `to` of the blurred plane, with two arrays of `ROOM` sums: those of the
/// columns, and those of four columns. It has a frame of its own on the stack, so that no other operation
/// takes the room of these arrays.
#[inline(never)]
fn blur_band<const ROOM: usize>(plane: &SourcePlane, from: usize, to: usize, target: &mut [u8])
    requires room { plane.now.width + 2 * plane.now.radius ≤ ROOM }
    requires most { ROOM ≤ WIDEST_ROOM }
    requires some_rows { from < to }
    requires rows { to ≤ plane.now.height }
    requires sized { length target.old ≡ (to - from) * plane.now.width }
    ensures { AreBlurredRows plane.now.samples.now plane.now.width plane.now.height plane.now.radius
        from to target.new }
{
    let mut sums = [0u16; ROOM];
    let mut sums_of_four = [0u16; ROOM];
    let (width, radius) = (plane.width, plane.radius);
    let columns = &mut sums[..width + 2 * radius];
    let fours = &mut sums_of_four[..width + 2 * radius];
    first_columns(plane, from, columns);
    for v in 0..to - from {
        let at = v * width;
        mean_row(columns, radius, fours, &mut target[at..at + width]);
        next_columns(plane, from + v, columns);
    }
}

/// Writes these rows of the blurred plane one after another, in a time that grows far less than the squares
/// do. The sums of the columns lie on the stack.
pub fn blur_rows(samples: &[u8], height: usize, radius: usize, span: RowSpan, target: &mut [u8])
    requires plane { IsPlane samples.now span.columns height radius }
    requires rows { span.to ≤ height }
    requires sized { length target.old ≡ (span.to - span.from) * span.columns }
    ensures { AreBlurredRows samples.now span.columns height radius span.from span.to target.new }
{
    let (width, from, to) = (span.columns, span.from, span.to);
    if from < to {
        let plane = SourcePlane {
            width,
            height,
            samples,
            radius,
        };
        if width + 2 * radius <= NARROW_ROOM {
            blur_band::<NARROW_ROOM>(&plane, from, to, target);
        } else {
            blur_band::<WIDEST_ROOM>(&plane, from, to, target);
        }
    }
}
