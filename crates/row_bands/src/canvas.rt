//! A frame that is written band by band.
use crate::band::Band;
use crate::band_height::BandHeight;
use crate::band_plan::BandPlan;
use frame_view::{Frame, Geometry};
use std::alloc::{AllocError, Global};
use std::marker::Model;

/// A frame that is written band by band.
#[derive(Drop)]
pub struct Canvas {
    frame: Frame,
    height: BandHeight,
}

impl Model for Canvas {
    ghost use Rattle.row_bands.specs.Canvas.{CanvasValue};

    ghost Value = { CanvasValue };

    ghost view = { λ a. record { frame = a.frame; height = a.height } };
}

impl Canvas {
    ghost use Rattle.std.specs.Prelude.{◌≡◌, ◌*◌, ◌-◌, ◌<◌, ◌≤◌, length, IsOk, IfOk, OnOk, OnErr};
    ghost use Rattle.std.specs.Borrow.{sem};
    ghost use Rattle.y4m_header.specs.Chroma.{plane_count};
    ghost use Rattle.y4m_header.specs.FrameLine.{IsFrameLine};
    ghost use Rattle.frame_view.specs.Places.{plane_width, plane_height, frame_len};
    ghost use Rattle.frame_view.specs.Rows.{run_of};
    ghost use Rattle.frame_view.specs.Frame.{line_of, samples_of};
    ghost use Rattle.row_bands.specs.Bands.{band_count};
    ghost use Rattle.row_bands.specs.Canvas.{frame_of, height_of, IsBandOf, IsBlankCanvas, KeepsAllButLine};
    ghost use Rattle.row_bands.specs.Lending.{LendsCanvas, LendsCanvasRows};

    /// A canvas whose samples are all 0, with its own copy of the line. It takes memory for the line and for
    /// the data; where that is refused, it answers the error and keeps none.
    pub fn new(
        alloc: Global,
        geometry: Geometry,
        height: BandHeight,
        line: &[u8],
    ) -> Result<Canvas, AllocError>
        requires { IsFrameLine line.now }
        ensures { IfOk result (IsBlankCanvas geometry height line.now) }
    {
        Ok(Canvas {
            frame: Frame::blank(alloc, geometry, line)?,
            height,
        })
    }

    /// A canvas over a frame that is there already; its samples stay until they are written.
    pub fn over(frame: Frame, height: BandHeight) -> Canvas
        ensures { result ≡ record { frame = frame; height = height } }
    {
        Canvas { frame, height }
    }

    /// The bands that the canvas is written in.
    pub fn plan(&self) -> BandPlan
        ensures geometry { result.geometry ≡ (frame_of self.now).geometry }
        ensures height { result.height.rows ≡ height_of self.now }
    {
        BandPlan::new(self.frame.geometry(), self.height)
    }

    /// The frame as it is by now.
    pub fn frame(&self) -> &Frame
        ensures { result.now ≡ frame_of self.now }
    {
        &self.frame
    }

    /// Puts a copy of this frame line in place of the frame's own; the samples stay.
    ///
    /// A line that the frame has already takes no memory. Where memory is refused, the frame keeps its old
    /// line.
    pub fn set_line(&mut self, alloc: Global, line: &[u8]) -> Result<(), AllocError>
        requires { IsFrameLine line.now }
        ensures keeps_rest { KeepsAllButLine self.old self.new }
        ensures same { line_of (frame_of self.old) ≡ line.now → IsOk result }
        ensures ok { OnOk result (line_of (frame_of self.new) ≡ line.now) }
        ensures err { OnErr result (line_of (frame_of self.new) ≡ line_of (frame_of self.old)) }
    {
        self.frame.set_line(alloc, line)
    }

    /// Gives the frame back, with its line and with the samples that were painted.
    pub fn into_frame(self) -> Frame
        ensures { result ≡ frame_of self }
    {
        let Canvas { frame, height: _ } = self;
        frame
    }

    /// Band `k`, lent for writing: its rows of all planes.
    pub fn band_mut(&mut self, k: usize) -> Band<'_>
        requires { k < band_count (frame_of self.old).geometry (height_of self.old) }
        ensures same_reference { result.canvas.ghost_name ≡ self.entry.ghost_name }
        ensures band { IsBandOf self.old k result.canvas.now result.from result.to }
    {
        let (from, to) = self.plan().rows(k, 0);
        Band {
            from,
            to,
            canvas: self,
        }
    }

    /// The samples of all planes, lent for writing.
    pub(crate) fn data_mut(&mut self) -> &mut [u8]
        ensures* writes_back { sem 𝓛 (LendsCanvas self.entry result) }
        ensures value { result.now ≡ samples_of self.old.frame }
        ensures len { length result.now ≡ frame_len self.old.frame.geometry }
    {
        self.frame.data_mut()
    }

    /// The rows of plane `p` from `from` on to `to`, which is left out, lent for writing as one slice.
    pub(crate) fn rows_mut(&mut self, p: usize, from: usize, to: usize) -> &mut [u8]
        requires plane { p < plane_count self.old.frame.geometry.chroma }
        requires rows { (from ≤ to) × (to ≤ plane_height self.old.frame.geometry p) }
        ensures* writes_back { sem 𝓛 (LendsCanvasRows self.entry p from result) }
        ensures value { result.now ≡ run_of self.old.frame.geometry (samples_of self.old.frame) p from to }
        ensures len { length result.now ≡ (to - from) * plane_width self.old.frame.geometry p }
    {
        self.frame.rows_mut(p, from, to)
    }
}
