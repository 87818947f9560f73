//! Images of frames by plain formulas, for the tests to compare with.

use filters::{Op, Table};
use frame_view::{Frame, Geometry};
use std::alloc::{AllocError, Global};
use y4m_header::Chroma;

/// A plane, its rows one after another.
#[derive(Clone, Copy)]
pub struct Plane<'a> {
    pub samples: &'a [u8],
    pub width: u16,
    pub height: u16,
}

/// A row; one below the plane is its last.
fn row_of<'a>(plane: Plane<'a>, y: usize) -> &'a [u8] {
    let width = usize::from(plane.width);
    let last = usize::from(plane.height).saturating_sub(1);
    let start = y.min(last).wrapping_mul(width);
    plane
        .samples
        .get(start..start.wrapping_add(width))
        .unwrap_or(&[])
}

fn sample(plane: Plane<'_>, y: usize, x: usize) -> u8 {
    row_of(plane, y).get(x).copied().unwrap_or(0)
}

/// The sum of the samples from column x - radius to x + radius, each column clamped to the row.
fn sum_of_row(row: &[u8], radius: usize, x: usize) -> usize {
    let last = row.len().saturating_sub(1);
    let mut sum = 0usize;
    for k in 0..radius.saturating_mul(2).saturating_add(1) {
        let column = x.saturating_add(k).saturating_sub(radius).min(last);
        sum = sum.wrapping_add(usize::from(row.get(column).copied().unwrap_or(0)));
    }
    sum
}

/// The rounded mean of the square round a sample, whose places are clamped to the plane.
pub fn mean_of_square(plane: Plane<'_>, radius: u8, y: u16, x: u16) -> u8 {
    let side = 2 * usize::from(radius) + 1;
    let mut sum = 0usize;
    for k in 0..side {
        let row = row_of(
            plane,
            (usize::from(y) + k).saturating_sub(usize::from(radius)),
        );
        sum = sum.wrapping_add(sum_of_row(row, usize::from(radius), usize::from(x)));
    }
    let count = side * side;
    (sum.wrapping_add(count / 2) / count).min(255) as u8
}

/// What a sample of plane `p` becomes.
fn entry(table: Table, p: u8, sample: u8) -> u8 {
    match (table, p) {
        (_, 3) => sample,
        (Table::Invert, _) => 255 - sample,
        (Table::Threshold(limit), 0) if sample < limit => 0,
        (Table::Threshold(_), 0) => 255,
        (Table::Threshold(_), _) => 128,
        (Table::Clamp { low, .. }, 0) if sample < low => low,
        (Table::Clamp { high, .. }, 0) if sample > high => high,
        (Table::Clamp { .. }, _) => sample,
    }
}

/// How many pixels a sample of plane `p` stands for, across and down.
pub fn pixels_of(chroma: Chroma, p: u8) -> (u16, u16) {
    match (chroma, p) {
        (Chroma::S420, 1 | 2) => (2, 2),
        (Chroma::S422, 1 | 2) => (2, 1),
        (Chroma::S411, 1 | 2) => (4, 1),
        _ => (1, 1),
    }
}

fn short(number: u32) -> u16 {
    u16::try_from(number).unwrap_or(0)
}

/// The width and the height of the image of frames of this geometry.
pub fn size_of_image(op: Op, geometry: Geometry) -> (u16, u16) {
    match op {
        Op::Crop(crop) => (short(crop.width), short(crop.height)),
        _ => (short(geometry.width), short(geometry.height)),
    }
}

/// An operation on one plane: a sample of it stands for so many pixels.
#[derive(Clone, Copy)]
struct Painted<'a> {
    op: Op,
    p: u8,
    across: u16,
    down: u16,
    source: Plane<'a>,
}

/// The sample in row `y` and column `x` of the image of the plane.
fn pixel(painted: Painted<'_>, y: u16, x: u16) -> u8 {
    let plane = painted.source;
    let (row, column) = (usize::from(y), usize::from(x));
    match painted.op {
        Op::Table(table) => entry(table, painted.p, sample(plane, row, column)),
        Op::HFlip => sample(
            plane,
            row,
            usize::from(plane.width).saturating_sub(1 + column),
        ),
        Op::VFlip => sample(
            plane,
            usize::from(plane.height).saturating_sub(1 + row),
            column,
        ),
        Op::Crop(crop) => {
            let top = usize::from(short(crop.y) / painted.down.max(1));
            let left = usize::from(short(crop.x) / painted.across.max(1));
            sample(plane, row + top, column + left)
        }
        Op::Blur(blur) => mean_of_square(plane, short(blur.radius).min(255) as u8, y, x),
    }
}

/// Puts row `y` of the image of the plane, of this width, or a blank row.
fn put_row(
    image: &mut Vec<u8>,
    painted: Painted<'_>,
    y: u16,
    width: u16,
    blank: bool,
) -> Result<(), AllocError> {
    for x in 0..width {
        let sample = if blank { 0 } else { pixel(painted, y, x) };
        image.push(sample)?;
    }
    Ok(())
}

/// Luma rows from one up to another.
#[derive(Clone, Copy)]
pub struct Rows {
    pub from: u16,
    pub to: u16,
}

/// Puts the image of the plane, of this size; but the rows that don't go with these of luma are blank.
fn put_plane(
    image: &mut Vec<u8>,
    painted: Painted<'_>,
    size: (u16, u16),
    rows: Rows,
) -> Result<(), AllocError> {
    let (width, height) = size;
    let down = painted.down.max(1);
    for y in 0..height / down {
        let blank = y < rows.from / down || rows.to / down <= y;
        put_row(image, painted, y, width / painted.across.max(1), blank)?;
    }
    Ok(())
}

/// The data of the image of a frame, where all is blank but these rows of luma and what goes with them.
pub fn rows_of_image(
    alloc: Global,
    op: Op,
    source: &Frame,
    rows: Rows,
) -> Result<Vec<u8>, AllocError> {
    let geometry = source.geometry();
    let size = size_of_image(op, geometry);
    let mut left = source.data();
    let mut image = Vec::with_capacity(alloc, left.len())?;
    for p in 0..4 {
        if left.is_empty() {
            break;
        }
        let (across, down) = pixels_of(geometry.chroma, p);
        let plane = Plane {
            samples: left,
            width: short(geometry.width) / across.max(1),
            height: short(geometry.height) / down.max(1),
        };
        let painted = Painted {
            op,
            p,
            across,
            down,
            source: plane,
        };
        put_plane(&mut image, painted, size, rows)?;
        let samples = usize::from(plane.width) * usize::from(plane.height);
        left = left.get(samples..).unwrap_or(&[]);
    }
    Ok(image)
}

/// Fills the bytes with some in no order.
pub fn scatter(bytes: &mut [u8]) {
    let mut state = 1u32;
    for byte in bytes {
        state = state.wrapping_mul(1664525).wrapping_add(1013904223);
        *byte = (state >> 24) as u8;
    }
}
