//! Writing the band of one step by two threads.
ghost use Rattle.std.specs.Prelude.{◌≡◌, ◌<◌, length, slice_index_or};
ghost use Rattle.frame_view.specs.Frame.{line_of, samples_of};
ghost use Rattle.row_bands.specs.declared.canvas.Canvas.{Canvas};
ghost use Rattle.row_bands.specs.Bands.{band_count, luma_from, luma_to, CanBeHalved};
ghost use Rattle.row_bands.specs.Canvas.{frame_of, height_of};
ghost use Rattle.row_bands.specs.Written.{HasBand};
ghost use Rattle.filters.specs.Image.{IsDoable, image_pixel};
ghost use Rattle.filters.specs.Chain.{IsImageGeometry};
ghost use Rattle.filters.specs.Steps.{counts_of, steps_of};
ghost use Rattle.lease.specs.Canvases.{IsImageCanvas, IsScratch};
ghost use Rattle.lease.specs.Halved.{CanHalveBand, CanHalveStep};
ghost use Rattle.lease.specs.Job.{frames_by, HasBandBetween, HasCanvases, WritesBand, WritesStep};

use crate::step::input_of_step;
use filters::painter::ImagePainter;
use filters::{Chain, Op, apply_band};
use frame_view::Frame;
use row_bands::{Canvas, paint_halves};
use std::thread::Threads;

/// Writes band `k` of the image of a frame into a canvas of the image's size, by two threads where the band
/// can be halved; every other row stays.
fn apply_halves<R: Threads, N: Fn(u32) + Sync>(
    rt: &R,
    op: Op,
    source: &Frame,
    canvas: &mut Canvas,
    k: usize,
    note: &N,
)
    requires callable { N.pre note.now 0 × N.pre note.now 1 }
    requires doable { IsDoable op source.now.geometry }
    requires image { IsImageGeometry op source.now.geometry (frame_of canvas.old).geometry }
    requires band { k < band_count (frame_of canvas.old).geometry (height_of canvas.old) }
    ensures height { height_of canvas.new ≡ height_of canvas.old }
    ensures rows { HasBand (image_pixel op source.now.geometry (samples_of source.now))
        (luma_from (height_of canvas.old) k) (luma_to (frame_of canvas.old).geometry (height_of canvas.old) k)
        (frame_of canvas.old) (frame_of canvas.new) }
    ensures noted { CanBeHalved (frame_of canvas.old).geometry (luma_from (height_of canvas.old) k)
        (luma_to (frame_of canvas.old).geometry (height_of canvas.old) k)
        → N.post note.now 0 tt × N.post note.now 1 tt }
{
    let mut band = canvas.band_mut(k);
    match band.half() {
        None => apply_band(op, source, &mut band),
        Some(row) => {
            let target = band.geometry();
            let painter = ImagePainter { op, target, source };
            paint_halves(rt, &painter, &mut band, row, note);
        }
    }
}

/// Writes a band of the image by an operation that isn't the last.
fn halve_between<R: Threads, N: Fn(u32) + Sync>(
    rt: &R,
    chain: &Chain,
    op: usize,
    band: usize,
    source: &Frame,
    scratch: &mut [Canvas],
    note: &N,
)
    requires callable { N.pre note.now 0 × N.pre note.now 1 }
    requires between { HasBandBetween chain.now op band source.now scratch.old }
    ensures scratch { IsScratch chain.now scratch.new }
    ensures written { (last : Canvas) → WritesBand chain.now op band
        (frames_by source.now scratch.old last) (frames_by source.now scratch.new last) }
    ensures noted { CanHalveBand chain.now op band → N.post note.now 0 tt × N.post note.now 1 tt }
{
    let (before, rest) = scratch.split_at_mut(op);
    apply_halves(
        rt,
        chain.op(op),
        input_of_step(source, before),
        &mut rest[0],
        band,
        note,
    );
}

/// Writes a band of the image by the last operation.
fn halve_last<R: Threads, N: Fn(u32) + Sync>(
    rt: &R,
    chain: &Chain,
    band: usize,
    source: &Frame,
    scratch: &[Canvas],
    canvas: &mut Canvas,
    note: &N,
)
    requires callable { N.pre note.now 0 × N.pre note.now 1 }
    requires band { band < slice_index_or (counts_of chain.now) (length scratch.now) 0 }
    requires canvases { HasCanvases chain.now source.now scratch.now canvas.old }
    ensures canvas { IsImageCanvas chain.now canvas.new }
    ensures line { line_of (frame_of canvas.new) ≡ line_of (frame_of canvas.old) }
    ensures written { WritesBand chain.now (length scratch.now) band
        (frames_by source.now scratch.now canvas.old) (frames_by source.now scratch.now canvas.new) }
    ensures noted { CanHalveBand chain.now (length scratch.now) band
        → N.post note.now 0 tt × N.post note.now 1 tt }
{
    apply_halves(
        rt,
        chain.op(scratch.len()),
        input_of_step(source, scratch),
        canvas,
        band,
        note,
    );
}

/// Does what `do_step` does, by two threads where the band can be halved.
pub fn halve_step<R: Threads, N: Fn(u32) + Sync>(
    rt: &R,
    chain: &Chain,
    k: u32,
    source: &Frame,
    scratch: &mut [Canvas],
    canvas: &mut Canvas,
    note: &N,
)
    requires callable { N.pre note.now 0 × N.pre note.now 1 }
    requires step { k < steps_of chain.now }
    requires canvases { HasCanvases chain.now source.now scratch.old canvas.old }
    ensures writes { WritesStep chain.now k source.now scratch.old scratch.new canvas.old canvas.new }
    ensures noted { CanHalveStep chain.now k → N.post note.now 0 tt × N.post note.now 1 tt }
{
    let (op, band) = chain.op_of_step(k);
    if op < scratch.len() {
        halve_between(rt, chain, op, band, source, scratch, note);
    } else {
        halve_last(rt, chain, band, source, scratch, canvas, note);
    }
}
