//! The images that a chain's operations make of a frame, in memory that serves every frame.
ghost use Rattle.std.specs.Prelude.{◌≡◌, ◌<◌, IfOk, IfSome, OnOk, OnErr, IfErr, length};
ghost use Rattle.y4m_header.specs.FrameLine.{IsFrameLine};
ghost use Rattle.frame_view.specs.Frame.{line_of};
ghost use Rattle.row_bands.specs.Canvas.{frame_of};
ghost use Rattle.filters.specs.Canvases.{HasLineOf, HoldsImage};
ghost use Rattle.filters.specs.Chain.{ChainValue, format_of, last_format};
ghost use Rattle.filters.specs.Front.{AreCanvases, front_of, image_in, last_canvas};

use crate::chain::Chain;
use crate::error::FilterError;
use frame_view::Frame;
use row_bands::Canvas;
use std::alloc::{AllocError, Global};
use std::marker::Model;

/// A chain with a canvas for each of its operations behind the tables in front.
///
/// Where all operations are tables there are no canvases, and an image stands in the frame it is made of.
#[derive(Drop)]
pub struct Images {
    chain: Chain,
    canvases: Vec<Canvas>,
}

impl Model for Images {
    ghost use Rattle.filters.specs.Canvases.{ImagesValue};
    ghost use Rattle.filters.specs.Front.{AreCanvases};

    ghost Value = { ImagesValue };

    ghost view = { λ a. record { chain = a.chain; canvases = a.canvases.items } };

    ghost invariant = { λ a. AreCanvases a.chain a.canvases.items };
}

/// Puts a copy of this line on the last canvas, if there is one.
fn set_last_line(alloc: Global, canvases: &mut [Canvas], line: &[u8]) -> Result<(), AllocError>
    requires { IsFrameLine line.now }
    ensures canvases { (chain : ChainValue) → AreCanvases chain canvases.old
        → AreCanvases chain canvases.new }
    ensures line { OnOk result (IfSome (last_canvas canvases.new)
        (λ canvas. line_of (frame_of canvas) ≡ line.now)) }
{
    if canvases.is_empty() {
        return Ok(());
    }
    let last = canvases.len() - 1;
    canvases[last].set_line(alloc, line)
}

impl Images {
    /// Takes the memory of all canvases.
    pub fn new(alloc: Global, chain: Chain) -> Result<Images, FilterError>
        ensures chain { IfOk result (λ images. images.chain ≡ chain) }
        ensures memory { IfErr result (λ e. e ≡ FilterError.NoMemory) }
    {
        let canvases = chain.canvases(alloc, b"FRAME")?;
        Ok(Images { chain, canvases })
    }

    /// Puts a copy of a frame's line on the last canvas, if there is one. Memory is taken only for a line
    /// that is another than that of the image before, which is to be looked at no more.
    pub fn take_line_of(&mut self, alloc: Global, source: &Frame) -> Result<(), FilterError>
        ensures chain { self.new.chain ≡ self.old.chain }
        ensures line { OnOk result (HasLineOf source.now self.new) }
        ensures memory { IfErr result (λ e. e ≡ FilterError.NoMemory) }
    {
        set_last_line(alloc, &mut self.canvases, source.line())?;
        Ok(())
    }

    /// Makes the image of a frame whose line was taken, in the frame itself where all operations are tables.
    /// Otherwise nothing is known of what the frame then holds. No memory is taken.
    pub fn paint(&mut self, source: &mut Frame)
        requires geometry { source.old.geometry ≡ self.old.chain.geometry }
        requires line { HasLineOf source.old self.old }
        ensures chain { self.new.chain ≡ self.old.chain }
        ensures geometry { source.new.geometry ≡ source.old.geometry }
        ensures made { HoldsImage self.new source.old source.new }
    {
        self.chain.apply_into(source, &mut self.canvases);
    }

    /// Takes the line of a frame, and makes its image.
    pub fn make(&mut self, alloc: Global, source: &mut Frame) -> Result<(), FilterError>
        requires { source.old.geometry ≡ self.old.chain.geometry }
        ensures chain { self.new.chain ≡ self.old.chain }
        ensures geometry { source.new.geometry ≡ source.old.geometry }
        ensures made { OnOk result (HoldsImage self.new source.old source.new) }
        ensures keeps_source { OnErr result (source.new ≡ source.old) }
        ensures memory { IfErr result (λ e. e ≡ FilterError.NoMemory) }
    {
        self.take_line_of(alloc, source)?;
        self.paint(source);
        Ok(())
    }

    /// The image in the last canvas.
    fn canvas_image(&self) -> &Frame
        requires { front_of self.now.chain < length self.now.chain.ops }
        ensures last { (d : Frame) → result.now ≡ image_in d self.now.canvases }
        ensures size { format_of result.now.geometry
            ≡ last_format self.now.chain.ops (format_of self.now.chain.geometry) }
    {
        self.canvases[self.canvases.len() - 1].frame()
    }

    /// The image that was made last, of this frame.
    pub fn image<'a>(&'a self, source: &'a Frame) -> &'a Frame
        requires { source.now.geometry ≡ self.now.chain.geometry }
        ensures last { result.now ≡ image_in source.now self.now.canvases }
        ensures size { format_of result.now.geometry
            ≡ last_format self.now.chain.ops (format_of self.now.chain.geometry) }
    {
        if self.canvases.is_empty() {
            return source;
        }
        self.canvas_image()
    }
}
