//! The images of frames by a chain.
ghost use Rattle.std.specs.Prelude.{◌≡◌, ◌+◌, ◌-◌, ◌<◌, ◌≤◌, All, drop, length, slice_index_or, take};
ghost use Rattle.std.specs.Prelude.{IfOk, IfErr, IfSome};
ghost use Rattle.y4m_header.specs.FrameLine.{IsFrameLine};
ghost use Rattle.frame_view.specs.Frame.{line_of};
ghost use Rattle.row_bands.specs.declared.canvas.Canvas.{Canvas};
ghost use Rattle.row_bands.specs.Canvas.{frame_of};
ghost use Rattle.filters.specs.declared.op.Op.{Op};
ghost use Rattle.filters.specs.Chain.{format_of, format_at, last_format};
ghost use Rattle.filters.specs.ChainImage.{IsCanvasAt, IsChainImage, IsImage, IsImageByAll, value_of};
ghost use Rattle.filters.specs.Front.{AreCanvases, KeepLines, front_of, image_in, last_canvas};

use crate::apply::apply_op;
use crate::chain::Chain;
use crate::chain::front::apply_front;
use crate::error::FilterError;
use crate::limits::MOST_OPS;
use frame_view::Frame;
use row_bands::Canvas;
use std::alloc::Global;

/// The image of a frame by operation `i` alone, with the frame's line.
fn image_by(chain: &Chain, alloc: Global, i: usize, source: &Frame) -> Result<Frame, FilterError>
    requires op { i < length chain.now.ops }
    requires op_within_limit { i < MOST_OPS }
    requires reaches { format_of source.now.geometry ≡ format_at chain.now i }
    ensures image { IfOk result (λ image. (d : Op) →
        IsImage (slice_index_or chain.now.ops i d) (value_of source.now) (value_of image)) }
    ensures line { IfOk result (λ image. line_of image ≡ line_of source.now) }
    ensures format { IfOk result (λ image. format_of image.geometry ≡ format_at chain.now (i + 1)) }
    ensures memory { IfErr result (λ e. e ≡ FilterError.NoMemory) }
{
    let mut canvas = Canvas::new(
        alloc,
        chain.geometry_after(i + 1),
        chain.band_height(),
        source.line(),
    )?;
    apply_op(chain.op(i), source, &mut canvas);
    Ok(canvas.into_frame())
}

/// Makes a canvas the image of a frame by operation `i` alone. Its line stays.
fn paint_at(chain: &Chain, i: usize, source: &Frame, canvas: &mut Canvas)
    requires op { i < length chain.now.ops }
    requires reaches { format_of source.now.geometry ≡ format_at chain.now i }
    requires canvas { IsCanvasAt chain.now i canvas.old }
    ensures canvas { IsCanvasAt chain.now i canvas.new }
    ensures line { line_of (frame_of canvas.new) ≡ line_of (frame_of canvas.old) }
    ensures image { (d : Op) →
        IsImage (slice_index_or chain.now.ops i d) (value_of source.now) (value_of (frame_of canvas.new)) }
{
    apply_op(chain.op(i), source, canvas);
}

/// Makes canvas `i` the image, by the operation that it is for, of what the canvas before it holds. All lines
/// stay.
fn paint_next(chain: &Chain, front: usize, i: usize, canvases: &mut [Canvas])
    requires few_ops { length chain.now.ops ≤ MOST_OPS }
    requires front { front ≡ front_of chain.now }
    requires not_first { 1 ≤ i }
    requires inside { i < length canvases.old }
    requires canvases { AreCanvases chain.now canvases.old }
    ensures canvases { AreCanvases chain.now canvases.new }
    ensures lines { KeepLines canvases.old canvases.new }
    ensures image { (o : Op) (d : Canvas) → IsImage (slice_index_or chain.now.ops (front + i) o)
        (value_of (frame_of (slice_index_or canvases.old (i - 1) d)))
        (value_of (frame_of (slice_index_or canvases.new i d))) }
{
    let (done, rest) = canvases.split_at_mut(i);
    paint_at(chain, front + i, done[i - 1].frame(), &mut rest[0]);
}

/// Does the operations behind the tables in front, from what these made of a frame. All lines stay.
fn paint_behind(chain: &Chain, source: &Frame, canvases: &mut [Canvas])
    requires geometry { source.now.geometry ≡ chain.now.geometry }
    requires canvases { AreCanvases chain.now canvases.old }
    ensures canvases { AreCanvases chain.now canvases.new }
    ensures lines { KeepLines canvases.old canvases.new }
    ensures image { IsImageByAll (drop (front_of chain.now) chain.now.ops)
        (value_of source.now) (value_of (image_in source.now canvases.new)) }
{
    let front = chain.front();
    let behind = chain.ops().len() - front;
    if behind == 0 {
        return;
    }
    paint_at(chain, front, source, &mut canvases[0]);
    for i in 1..behind {
        paint_next(chain, front, i, canvases);
    }
}

impl Chain {
    /// A canvas for the output of each operation behind the tables in front, each with this line. `NoMemory`
    /// is answered where the memory of one of them, or of their list, is refused; those that were made are
    /// let go.
    pub fn canvases(&self, alloc: Global, line: &[u8]) -> Result<Vec<Canvas>, FilterError>
        requires { IsFrameLine line.now }
        ensures ok { IfOk result (λ canvases. AreCanvases self.now canvases.items) }
        ensures lines { IfOk result (λ canvases.
            All (λ canvas. line_of (frame_of canvas) ≡ line.now) canvases.items) }
        ensures memory { IfErr result (λ e. e ≡ FilterError.NoMemory) }
    {
        let front = self.front();
        let count = self.ops().len() - front;
        let mut canvases = Vec::with_capacity(alloc, count)?;
        for i in 0..count {
            let output = self.geometry_after(front + i + 1);
            let canvas = Canvas::new(alloc, output, self.band_height(), line)?;
            canvases.push(canvas)?;
        }
        Ok(canvases)
    }

    /// The image of a frame: each operation is done on the image that the one before it made. `NoMemory` is
    /// answered where the memory of one of these images is refused; the frame stays as it is.
    pub fn apply(&self, alloc: Global, source: &Frame) -> Result<Frame, FilterError>
        requires { source.now.geometry ≡ self.now.geometry }
        ensures image { IfOk result (λ image.
            IsChainImage self.now.ops (value_of source.now) (value_of image)) }
        ensures format { IfOk result (λ image.
            format_of image.geometry ≡ last_format self.now.ops (format_of self.now.geometry)) }
        ensures memory { IfErr result (λ e. e ≡ FilterError.NoMemory) }
    {
        let count = self.ops().len();
        let mut image = image_by(self, alloc, 0, source)?;
        for i in 1..count {
            image = image_by(self, alloc, i, &image)?;
        }
        Ok(image)
    }

    /// Does the tables in front in the frame itself, and the other operations into the canvases, so that the
    /// last one holds the image, or the frame where there is none. Every canvas keeps its line. It takes no
    /// memory, and the canvases may be written again for the next frame with this line.
    pub fn apply_into(&self, source: &mut Frame, canvases: &mut [Canvas])
        requires geometry { source.old.geometry ≡ self.now.geometry }
        requires canvases { AreCanvases self.now canvases.old }
        requires line { IfSome (last_canvas canvases.old)
            (λ canvas. line_of (frame_of canvas) ≡ line_of source.old) }
        ensures geometry { source.new.geometry ≡ source.old.geometry }
        ensures canvases { AreCanvases self.now canvases.new }
        ensures lines { KeepLines canvases.old canvases.new }
        ensures front { IsChainImage (take (front_of self.now) self.now.ops)
            (value_of source.old) (value_of source.new) }
        ensures image { IsChainImage self.now.ops
            (value_of source.old) (value_of (image_in source.new canvases.new)) }
    {
        apply_front(self, source);
        paint_behind(self, source, canvases);
    }
}
