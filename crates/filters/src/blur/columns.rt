//! The sums of the columns over the rows near one row, kept from row to row.
//!
//! A line of column sums has `radius` places before the first column and as many after the last one, so
//! that a square over it needs no clamping.

ghost use Rattle.std.specs.Prelude.{◌≡◌, ◌+◌, ◌-◌, ◌*◌, ◌/◌, ◌≤◌, ◌<◌, ℕ, length, slice_index};
ghost use Rattle.filters.specs.Blur.{clamped};
ghost use Rattle.filters.specs.BlurInside.{AreColumnSums, AreSumsTo, IsRoomAt, IsRowOf, column};

use super::source::{SourcePlane, clamped_place};
use crate::limits::MOST_RADIUS;

/// Adds a row to the sums of the columns.
fn add_row(columns: &mut [u16], radius: usize, row: &[u8])
    requires same { length row.now + 2 * radius ≡ length columns.old }
    requires room { (x : ℕ) → x < length row.now → slice_index columns.old (radius + x) ≤ 65280 }
    ensures { (x : ℕ) → x < length row.now →
        column columns.new radius x ≡ column columns.old radius x + slice_index row.now x }
{
    for x in 0..row.len() {
        columns[radius + x] += row[x] as u16;
    }
}

/// Adds four rows to the sums of the columns, in a pass that takes hardly more time than that of one.
fn add_rows(
    columns: &mut [u16],
    radius: usize,
    first: &[u8],
    second: &[u8],
    third: &[u8],
    fourth: &[u8],
)
    requires same { length first.now + 2 * radius ≡ length columns.old }
    requires second { length second.now ≡ length first.now }
    requires third { length third.now ≡ length first.now }
    requires fourth { length fourth.now ≡ length first.now }
    requires room { (x : ℕ) → x < length first.now → slice_index columns.old (radius + x) ≤ 64515 }
    ensures { (x : ℕ) → x < length first.now →
        slice_index columns.new (radius + x)
        ≡ slice_index columns.old (radius + x) + (slice_index first.now x + slice_index second.now x
        + slice_index third.now x + slice_index fourth.now x) }
{
    for x in 0..first.len() {
        let four = first[x] as u16 + second[x] as u16 + third[x] as u16 + fourth[x] as u16;
        columns[radius + x] += four;
    }
}

/// Adds the row that enters to the sums of the columns, and takes off the one that leaves.
fn move_row(columns: &mut [u16], radius: usize, entering: &[u8], leaving: &[u8])
    requires enters { length entering.now + 2 * radius ≡ length columns.old }
    requires leaves { length leaving.now ≡ length entering.now }
    requires room { (x : ℕ) → x < length entering.now → slice_index columns.old (radius + x) ≤ 65280 }
    requires no_underflow { (x : ℕ) → x < length entering.now →
        slice_index leaving.now x ≤ column columns.old radius x }
    ensures { (x : ℕ) → x < length entering.now →
        slice_index columns.new (radius + x) + slice_index leaving.now x
        ≡ slice_index columns.old (radius + x) + slice_index entering.now x }
{
    for x in 0..entering.len() {
        columns[radius + x] = columns[radius + x] + entering[x] as u16 - leaving[x] as u16;
    }
}

/// Row `k` of those near `y`, from `y - radius` on.
fn row_near<'a>(plane: &'a SourcePlane, y: usize, k: usize) -> &'a [u8]
    requires down { y < plane.now.height }
    requires near { k ≤ 2 * MOST_RADIUS + 1 }
    ensures { IsRowOf plane.now (clamped plane.now.height plane.now.radius y k) result.now }
{
    plane.row(clamped_place(plane.height, plane.radius, y, k))
}

/// Sets the sums of the columns to those over the rows near `y`, but for the last ones, which make no group
/// of four.
fn first_groups(plane: &SourcePlane, y: usize, columns: &mut [u16])
    requires { IsRoomAt plane.now y columns.old }
    ensures { AreSumsTo plane.now y (4 * (plane.now.radius / 2)) columns.new }
{
    columns.fill(0);
    for g in 0..plane.radius / 2 {
        let first = row_near(plane, y, 4 * g);
        let second = row_near(plane, y, 4 * g + 1);
        let third = row_near(plane, y, 4 * g + 2);
        let fourth = row_near(plane, y, 4 * g + 3);
        add_rows(columns, plane.radius, first, second, third, fourth);
    }
}

/// Sets the sums of the columns to those over the rows near `y`.
pub fn first_columns(plane: &SourcePlane, y: usize, columns: &mut [u16])
    requires { IsRoomAt plane.now y columns.old }
    ensures { AreColumnSums plane.now y columns.new }
{
    first_groups(plane, y, columns);
    for i in 4 * (plane.radius / 2)..2 * plane.radius + 1 {
        add_row(columns, plane.radius, row_near(plane, y, i));
    }
}

/// Moves the sums of the columns from the rows near `y` to those near `y + 1`.
pub fn next_columns(plane: &SourcePlane, y: usize, columns: &mut [u16])
    requires room { IsRoomAt plane.now y columns.old }
    requires at { AreColumnSums plane.now y columns.old }
    ensures { AreColumnSums plane.now (y + 1) columns.new }
{
    let entering = row_near(plane, y, 2 * plane.radius + 1);
    let leaving = row_near(plane, y, 0);
    move_row(columns, plane.radius, entering, leaving);
}

/// Repeats the first and the last column in the places before and after the columns.
pub fn repeat_ends(columns: &mut [u16], radius: usize)
    requires some_columns { 2 * radius < length columns.old }
    requires small { radius ≤ MOST_RADIUS }
    ensures { (k : ℕ) → k < length columns.old →
        slice_index columns.new k
        ≡ slice_index columns.old (radius + clamped (length columns.old - 2 * radius) radius 0 k) }
{
    let end = columns.len() - radius;
    let first = columns[radius];
    let last = columns[end - 1];
    for k in 0..radius {
        columns[k] = first;
        columns[end + k] = last;
    }
}
