//! An operation on a frame, band by band.
ghost use Rattle.std.specs.Prelude.{◌≡◌, ◌<◌};
ghost use Rattle.frame_view.specs.Frame.{line_of, samples_of};
ghost use Rattle.row_bands.specs.Bands.{band_count, luma_from, luma_to};
ghost use Rattle.row_bands.specs.Canvas.{frame_of, height_of};
ghost use Rattle.row_bands.specs.Band.{band_geometry};
ghost use Rattle.row_bands.specs.Written.{HasBand, IsPainted};
ghost use Rattle.filters.specs.Ops.{IsDoable};
ghost use Rattle.filters.specs.Image.{image_pixel};
ghost use Rattle.filters.specs.Chain.{IsImageGeometry};
ghost use Rattle.filters.specs.ChainImage.{IsImage, value_of};

use crate::op::Op;
use crate::painter::ImagePainter;
use frame_view::Frame;
use row_bands::{Band, Canvas, paint_band};

/// Writes all rows of a band of the image of a frame; every other row stays. It takes no memory.
///
/// The band is one of a canvas of the image's size.
pub fn apply_band(op: Op, source: &Frame, band: &mut Band<'_>)
    requires doable { IsDoable op source.now.geometry }
    requires image { IsImageGeometry op source.now.geometry (band_geometry band.old) }
    ensures same_reference { band.new.canvas.ghost_name ≡ band.old.canvas.ghost_name }
    ensures painted { IsPainted (image_pixel op source.now.geometry (samples_of source.now))
        band.old band.new }
{
    let painter = ImagePainter {
        op,
        target: band.geometry(),
        source,
    };
    paint_band(&painter, band);
}

/// Writes band `k` of the image of a frame into a canvas of the image's size; every other row stays.
/// Bands may be written in any order, and take no memory.
pub fn apply_at(op: Op, source: &Frame, canvas: &mut Canvas, k: usize)
    requires doable { IsDoable op source.now.geometry }
    requires image { IsImageGeometry op source.now.geometry (frame_of canvas.old).geometry }
    requires band { k < band_count (frame_of canvas.old).geometry (height_of canvas.old) }
    ensures height { height_of canvas.new ≡ height_of canvas.old }
    ensures rows { HasBand (image_pixel op source.now.geometry (samples_of source.now))
        (luma_from (height_of canvas.old) k) (luma_to (frame_of canvas.old).geometry (height_of canvas.old) k)
        (frame_of canvas.old) (frame_of canvas.new) }
{
    let mut band = canvas.band_mut(k);
    apply_band(op, source, &mut band);
}

/// Makes a canvas of the image's size the image of a frame, whatever it was before; its line stays. It takes
/// no memory.
pub fn apply_op(op: Op, source: &Frame, canvas: &mut Canvas)
    requires doable { IsDoable op source.now.geometry }
    requires image { IsImageGeometry op source.now.geometry (frame_of canvas.old).geometry }
    ensures image { IsImage op (value_of source.now) (value_of (frame_of canvas.new)) }
    ensures line { line_of (frame_of canvas.new) ≡ line_of (frame_of canvas.old) }
    ensures height { height_of canvas.new ≡ height_of canvas.old }
{
    for k in 0..canvas.plan().count() {
        apply_at(op, source, canvas, k);
    }
}
