//! The memory of frames and images that a stream is done with.
ghost use Rattle.std.specs.Prelude.{◌≡◌, ◌++◌, [], option_to_list, IfNone, IfOk, IfSome, vec_capacity};
ghost use Rattle.std.specs.Arc.{arc_value};
ghost use Rattle.serve_core.specs.Streams.{IsImageOf, source_in};
ghost use Rattle.serve_client.specs.ClientInside.{AreBuffersFor, HasPlaces, HasSamePlaces, IsKept};

use frame_view::Frame;
use serve_core::Collected;
use std::alloc::{AllocError, Global};
use std::sync::Arc;

/// Frames that were collected, and images that were written: the next ones of their stream take their memory.
/// There is a place for as many as the stream's seat can keep, so keeping them takes no memory.
#[derive(Drop)]
pub(crate) struct Buffers {
    pub(crate) sources: Vec<Arc<Frame>>,
    pub(crate) images: Vec<Frame>,
}

impl Buffers {
    ghost use Rattle.filters.specs.Chain.{ChainValue};

    pub(crate) fn new(alloc: Global, places: usize) -> Result<Buffers, AllocError>
        ensures sized { (chain : ChainValue) → IfOk result (AreBuffersFor chain) }
        ensures places { IfOk result (HasPlaces places) }
    {
        Ok(Buffers {
            sources: Vec::with_capacity(alloc, places)?,
            images: Vec::with_capacity(alloc, places)?,
        })
    }

    /// Keeps the memory of a frame and of its image. Where there is no place for them it is let go.
    pub(crate) fn keep(&mut self, pair: Collected)
        ensures sized { (chain : ChainValue) → AreBuffersFor chain self.old
            → (source_in pair).geometry ≡ chain.geometry → IsImageOf chain pair.image
            → AreBuffersFor chain self.new }
        ensures places { HasSamePlaces self.old self.new }
        ensures source { IsKept (vec_capacity self.old.sources) pair.source self.old.sources.items
            self.new.sources.items }
        ensures image { IsKept (vec_capacity self.old.images) pair.image self.old.images.items
            self.new.images.items }
    {
        let Collected { source, image } = pair;
        self.keep_source(source);
        self.keep_image(Some(image));
    }

    /// Keeps the memory of a frame.
    fn keep_source(&mut self, source: Arc<Frame>)
        ensures sized { (chain : ChainValue) → AreBuffersFor chain self.old
            → (arc_value source).geometry ≡ chain.geometry → AreBuffersFor chain self.new }
        ensures places { HasSamePlaces self.old self.new }
        ensures source { IsKept (vec_capacity self.old.sources) source self.old.sources.items
            self.new.sources.items }
        ensures images { self.new.images ≡ self.old.images }
    {
        if self.sources.len() < self.sources.capacity() {
            self.sources.push_reserved(source);
        }
    }

    /// Keeps the memory of an image that wasn't needed after all, if one was at hand.
    pub(crate) fn keep_image(&mut self, image: Option<Frame>)
        ensures sized { (chain : ChainValue) → AreBuffersFor chain self.old → IfSome image (IsImageOf chain)
            → AreBuffersFor chain self.new }
        ensures places { HasSamePlaces self.old self.new }
        ensures image { IfSome image (λ i. IsKept (vec_capacity self.old.images) i self.old.images.items
            self.new.images.items) }
        ensures none { IfNone image (self.new ≡ self.old) }
        ensures sources { self.new.sources ≡ self.old.sources }
    {
        let Some(image) = image else {
            return;
        };
        if self.images.len() < self.images.capacity() {
            self.images.push_reserved(image);
        }
    }

    /// The memory of the frame that was kept last, if one is kept.
    pub(crate) fn take_source(&mut self) -> Option<Arc<Frame>>
        ensures sized { (chain : ChainValue) → AreBuffersFor chain self.old → AreBuffersFor chain self.new }
        ensures size { (chain : ChainValue) → AreBuffersFor chain self.old
            → IfSome result (λ f. (arc_value f).geometry ≡ chain.geometry) }
        ensures taken { self.old.sources.items ≡ self.new.sources.items ++ option_to_list result }
        ensures none { IfNone result (self.old.sources.items ≡ []) }
        ensures places { HasSamePlaces self.old self.new }
    {
        self.sources.pop()
    }

    /// The memory of the image that was kept last, if one is kept.
    pub(crate) fn take_image(&mut self) -> Option<Frame>
        ensures sized { (chain : ChainValue) → AreBuffersFor chain self.old → AreBuffersFor chain self.new }
        ensures size { (chain : ChainValue) → AreBuffersFor chain self.old → IfSome result (IsImageOf chain) }
        ensures taken { self.old.images.items ≡ self.new.images.items ++ option_to_list result }
        ensures none { IfNone result (self.old.images.items ≡ []) }
        ensures places { HasSamePlaces self.old self.new }
    {
        self.images.pop()
    }
}
