//! Rows of the image of a frame.
ghost use Rattle.std.specs.Prelude.{◌≡◌};
ghost use Rattle.y4m_header.specs.Chroma.{horizontal_divisor, vertical_divisor};
ghost use Rattle.filters.specs.Pixel.{offset};
ghost use Rattle.filters.specs.Ops.{HasGoodRadius, IsRectangleOf};
ghost use Rattle.filters.specs.Chain.{IsImageGeometry};
ghost use Rattle.filters.specs.Rows.{AreImageRows, IsSpanOf};

use crate::blur::blur_rows;
use crate::flip::mirror_row;
use crate::op::{Blur, Crop, Op, Table};
use crate::table::table_row;
use frame_view::{Frame, Geometry, is_chroma_plane};

/// The rows from `from` on to `to`, which is left out, of plane `p`; each has so many columns.
#[derive(Clone, Copy)]
pub struct RowSpan {
    pub p: usize,
    pub columns: usize,
    pub from: usize,
    pub to: usize,
}

/// Writes the frame's rows of the span, each sample changed by the table.
pub fn table_rows(table: Table, source: &Frame, span: RowSpan, rows: &mut [u8])
    requires { IsSpanOf source.now.geometry span rows.old }
    ensures { AreImageRows (Op.Table table) source.now source.now.geometry span rows.new }
{
    table_row(table, span.p, source.rows(span.p, span.from, span.to), rows);
}

/// Writes the frame's rows of the span, each with its first sample last.
#[tactic(auto, using(crate::proofs::ReadRows::rows_held))]
pub fn mirrored_rows(source: &Frame, span: RowSpan, rows: &mut [u8])
    requires { IsSpanOf source.now.geometry span rows.old }
    ensures { AreImageRows Op.HFlip source.now source.now.geometry span rows.new }
{
    let columns = span.columns;
    for v in 0..span.to - span.from {
        let at = v * columns;
        mirror_row(
            source.row(span.p, span.from + v),
            &mut rows[at..at + columns],
        );
    }
}

/// Writes the rows of the span of the frame turned upside down.
#[tactic(auto, using(crate::proofs::ReadRows::rows_held))]
pub fn opposite_rows(source: &Frame, span: RowSpan, rows: &mut [u8])
    requires { IsSpanOf source.now.geometry span rows.old }
    ensures { AreImageRows Op.VFlip source.now source.now.geometry span rows.new }
{
    let columns = span.columns;
    let last = source.geometry().plane_size(span.p).rows - 1;
    for v in 0..span.to - span.from {
        let at = v * columns;
        rows[at..at + columns].copy_from_slice(source.row(span.p, last - (span.from + v)));
    }
}

/// Where a rectangle begins in plane `p`: its columns across and its rows down.
fn offsets(crop: Crop, geometry: Geometry, p: usize) -> (usize, usize)
    ensures across { result.0 ≡ offset p crop.x (horizontal_divisor geometry.chroma) }
    ensures down { result.1 ≡ offset p crop.y (vertical_divisor geometry.chroma) }
{
    let divisors = geometry.chroma.divisors();
    if is_chroma_plane(p) {
        (
            (crop.x / divisors.horizontal) as usize,
            (crop.y / divisors.vertical) as usize,
        )
    } else {
        (crop.x as usize, crop.y as usize)
    }
}

/// Writes the rows of the span of the rectangle, whose geometry is `target`.
#[tactic(auto, using(crate::proofs::ReadRows::rows_held))]
pub fn cropped_rows(crop: Crop, source: &Frame, target: Geometry, span: RowSpan, rows: &mut [u8])
    requires rectangle { IsRectangleOf crop source.now.geometry }
    requires image { IsImageGeometry (Op.Crop crop) source.now.geometry target }
    requires span { IsSpanOf target span rows.old }
    ensures { AreImageRows (Op.Crop crop) source.now target span rows.new }
{
    let columns = span.columns;
    let (across, down) = offsets(crop, source.geometry(), span.p);
    for v in 0..span.to - span.from {
        let at = v * columns;
        let row = source.row(span.p, span.from + v + down);
        rows[at..at + columns].copy_from_slice(&row[across..across + columns]);
    }
}

/// Writes the rows of the span of the blurred frame. It reads rows of the plane beside the span too.
pub fn blurred_rows(blur: Blur, source: &Frame, span: RowSpan, rows: &mut [u8])
    requires radius { HasGoodRadius (Op.Blur blur) }
    requires span { IsSpanOf source.now.geometry span rows.old }
    ensures { AreImageRows (Op.Blur blur) source.now source.now.geometry span rows.new }
{
    let size = source.geometry().plane_size(span.p);
    let samples = source.rows(span.p, 0, size.rows);
    blur_rows(samples, size.rows, blur.radius as usize, span, rows);
}
