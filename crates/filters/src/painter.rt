//! An operation as a painter of its image.
ghost use Rattle.frame_view.specs.Frame.{samples_of};
ghost use Rattle.filters.specs.Ops.{IsDoable};
ghost use Rattle.filters.specs.Image.{image_pixel};
ghost use Rattle.filters.specs.Chain.{IsImageGeometry};

use crate::op::Op;
use crate::rows::{RowSpan, blurred_rows, cropped_rows, mirrored_rows, opposite_rows, table_rows};
use frame_view::{Frame, Geometry};
use row_bands::Painter;

/// What can write any rows of the image of a frame.
#[derive(Drop)]
pub struct ImagePainter<'a> {
    pub op: Op,
    pub target: Geometry,
    pub source: &'a Frame,
    pub ghost doable: { ∥ IsDoable op source.now.geometry ∥₁ },
    pub ghost image: { IsImageGeometry op source.now.geometry target },
}

impl Painter for ImagePainter<'_> {
    ghost picture = { λ painter.
        image_pixel painter.op painter.source.now.geometry (samples_of painter.source.now) };

    ghost geometry = { λ painter. painter.target };

    fn paint(&self, p: usize, from: usize, to: usize, rows: &mut [u8]) {
        let columns = self.target.plane_size(p).columns;
        let span = RowSpan {
            p,
            columns,
            from,
            to,
        };
        match self.op {
            Op::Table(table) => table_rows(table, self.source, span, rows),
            Op::HFlip => mirrored_rows(self.source, span, rows),
            Op::VFlip => opposite_rows(self.source, span, rows),
            Op::Crop(crop) => cropped_rows(crop, self.source, self.target, span, rows),
            Op::Blur(blur) => blurred_rows(blur, self.source, span, rows),
        }
    }
}
