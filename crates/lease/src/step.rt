//! Writing the band of one step.
ghost use Rattle.std.specs.Prelude.{◌≡◌, ◌<◌, ◌∷◌, length, map, slice_index_or};
ghost use Rattle.frame_view.specs.Frame.{line_of};
ghost use Rattle.row_bands.specs.declared.canvas.Canvas.{Canvas};
ghost use Rattle.row_bands.specs.Canvas.{frame_of};
ghost use Rattle.filters.specs.Steps.{counts_of, steps_of};
ghost use Rattle.lease.specs.Canvases.{IsImageCanvas, IsScratch};
ghost use Rattle.lease.specs.Job.{frames_by, HasBandBetween, HasCanvases, WritesBand, WritesStep};

use filters::{Chain, apply_at};
use frame_view::Frame;
use row_bands::Canvas;

/// What the operation after these canvases is done on.
pub fn input_of_step<'a>(source: &'a Frame, before: &'a [Canvas]) -> &'a Frame
    ensures { result.now
        ≡ slice_index_or (source.now ∷ map frame_of before.now) (length before.now) source.now }
{
    match before.last() {
        None => source,
        Some(canvas) => canvas.frame(),
    }
}

/// Writes a band of the image by an operation that isn't the last.
fn write_between(chain: &Chain, op: usize, band: usize, source: &Frame, scratch: &mut [Canvas])
    requires { HasBandBetween chain.now op band source.now scratch.old }
    ensures scratch { IsScratch chain.now scratch.new }
    ensures written { (last : Canvas) → WritesBand chain.now op band
        (frames_by source.now scratch.old last) (frames_by source.now scratch.new last) }
{
    let (before, rest) = scratch.split_at_mut(op);
    apply_at(
        chain.op(op),
        input_of_step(source, before),
        &mut rest[0],
        band,
    );
}

/// Writes a band of the image by the last operation.
fn write_last(chain: &Chain, band: usize, source: &Frame, scratch: &[Canvas], canvas: &mut Canvas)
    requires band { band < slice_index_or (counts_of chain.now) (length scratch.now) 0 }
    requires canvases { HasCanvases chain.now source.now scratch.now canvas.old }
    ensures canvas { IsImageCanvas chain.now canvas.new }
    ensures line { line_of (frame_of canvas.new) ≡ line_of (frame_of canvas.old) }
    ensures written { WritesBand chain.now (length scratch.now) band
        (frames_by source.now scratch.now canvas.old) (frames_by source.now scratch.now canvas.new) }
{
    apply_at(
        chain.op(scratch.len()),
        input_of_step(source, scratch),
        canvas,
        band,
    );
}

/// Writes the band of step `k`. It takes no memory.
pub fn do_step(chain: &Chain, k: u32, source: &Frame, scratch: &mut [Canvas], canvas: &mut Canvas)
    requires step { k < steps_of chain.now }
    requires canvases { HasCanvases chain.now source.now scratch.old canvas.old }
    ensures { WritesStep chain.now k source.now scratch.old scratch.new canvas.old canvas.new }
{
    let (op, band) = chain.op_of_step(k);
    if op < scratch.len() {
        write_between(chain, op, band, source, scratch);
    } else {
        write_last(chain, band, source, scratch, canvas);
    }
}
