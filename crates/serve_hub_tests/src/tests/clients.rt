//! Those who offer the frames of one stream, and check its images.
ghost use Rattle.std.specs.Prelude.{◌≡◌, IfOk, IfSome};
ghost use Rattle.serve_core.specs.Streams.{IsImageOf};

use super::{Core, frame_of};
use frame_view::Frame;
use serve_core::Collected;
use serve_hub::{Came, Epoch, Hub, Offer, Refusal, StreamSeat};
use std::alloc::Global;
use std::sync::{Arc, Wait};
use std::test::Fail;

/// The seat of a stream with the frames to offer, how many right images came in order, how many frames were
/// under way at most, and what went wrong first.
#[derive(Drop)]
pub(super) struct Client<L: Epoch> {
    pub(super) seat: StreamSeat<L>,
    alloc: Global,
    first: u32,
    frames: Vec<Arc<Frame>>,
    /// Whether it collects what comes soon before it offers a frame.
    is_soon: bool,
    pub(super) delivered: u64,
    pub(super) most: usize,
    pub(super) outcome: Result<(), Refusal>,
}

/// How many frames of a stream differ. It begins again with the first.
const PERIOD: u64 = 8;

/// The sample of frame `n` of those that begin with this one.
fn sample_of(first: u32, n: u64) -> u8 {
    (n.wrapping_mul(32).wrapping_add(first as u64) % 256) as u8
}

/// The frames of a stream, which begin with this sample.
#[derive(Drop)]
pub(super) struct Frames {
    first: u32,
    frames: Vec<Arc<Frame>>,
}

impl Frames {
    pub(super) fn new(alloc: Global, first: u32) -> Result<Frames, Fail> {
        let mut frames = Vec::new(alloc);
        for n in 0..PERIOD {
            frames.push(frame_of(alloc, &[sample_of(first, n)])?)?;
        }
        Ok(Frames { first, frames })
    }

    /// Those of so many streams, each of which begins with its number.
    pub(super) fn of_streams(alloc: Global, streams: u32) -> Result<Vec<Frames>, Fail> {
        let mut all = Vec::new(alloc);
        for s in 0..streams {
            all.push(Frames::new(alloc, s)?)?;
        }
        Ok(all)
    }
}

impl<L: Epoch> Client<L> {
    /// A client that offers these frames.
    pub(super) fn new(
        alloc: Global,
        seat: StreamSeat<L>,
        frames: Frames,
        is_soon: bool,
    ) -> Client<L> {
        let Frames { first, frames } = frames;
        Client {
            seat,
            alloc,
            first,
            frames,
            is_soon,
            delivered: 0,
            most: 0,
            outcome: Ok(()),
        }
    }

    /// Offers so many frames, and closes. Before each frame from the fifth on it collects an image, and
    /// offers the frame in its memory.
    ///
    /// It closes also where it couldn't offer all of them, so that no worker waits for it. A stream that was
    /// closed in an earlier epoch gets no more.
    pub(super) fn feed<R: Wait>(&mut self, rt: &R, hub: &Hub<L>, count: u64) {
        if self.seat.is_closed() {
            return;
        }
        let offered = self.offer_all(rt, hub, count);
        let closed = hub.close(rt, &mut self.seat);
        self.outcome = offered.and(closed);
    }

    /// Collects the images that are left.
    pub(super) fn drain<R: Wait>(&mut self, rt: &R, hub: &Hub<L>) {
        for _ in rt.forever() {
            match self.collect(rt, hub) {
                Ok(_) => {}
                Err(Refusal::Core(Core::Drained)) => return,
                Err(refusal) => {
                    self.outcome = self.outcome.and(Err(refusal));
                    return;
                }
            }
        }
    }

    fn offer_all<R: Wait>(&mut self, rt: &R, hub: &Hub<L>, count: u64) -> Result<(), Refusal> {
        for n in 0..count {
            if self.is_soon {
                self.collect_soon(rt, hub)?;
            }
            let frame = self.frame(n)?;
            self.offer(rt, hub, n, frame)?;
            self.most = self.most.max(self.seat.kept());
        }
        Ok(())
    }

    /// Collects the images that come soon.
    fn collect_soon<R: Wait>(&mut self, rt: &R, hub: &Hub<L>) -> Result<(), Refusal> {
        for _ in 0..self.seat.kept().saturating_add(1) {
            match hub.collect_soon(rt, &mut self.seat) {
                Ok(pair) => self.count(&pair)?,
                Err(refused) if refused.refusal == Refusal::Core(Core::Empty) => return Ok(()),
                Err(refused) => return Err(refused.refusal),
            }
        }
        Err(Refusal::Torn(Came::Other))
    }

    fn offer<R: Wait>(
        &mut self,
        rt: &R,
        hub: &Hub<L>,
        at: u64,
        frame: Arc<Frame>,
    ) -> Result<(), Refusal> {
        let memory = self.memory(rt, hub)?;
        let offer = Offer { at, frame, memory };
        match hub.offer(rt, self.alloc, &mut self.seat, offer) {
            Ok(_) => Ok(()),
            Err(refused) => Err(refused.refusal),
        }
    }

    /// The memory of the next image, where four frames were accepted.
    fn memory<R: Wait>(&mut self, rt: &R, hub: &Hub<L>) -> Result<Option<Frame>, Refusal>
        ensures { IfOk result (λ memory. IfSome memory (IsImageOf self.new.seat.chain)) }
    {
        if self.seat.kept() < 4 {
            return Ok(None);
        }
        let image = self.collect(rt, hub)?;
        Ok(Some(image))
    }

    /// The next image.
    fn collect<R: Wait>(&mut self, rt: &R, hub: &Hub<L>) -> Result<Frame, Refusal>
        ensures { IfOk result (λ image. IsImageOf self.new.seat.chain image) }
    {
        let pair = match hub.collect(rt, &mut self.seat) {
            Ok(pair) => pair,
            Err(refused) => return Err(refused.refusal),
        };
        self.count(&pair)?;
        Ok(pair.image)
    }

    /// Counts the next image. One with other samples than it should have is told as torn.
    fn count(&mut self, pair: &Collected) -> Result<(), Refusal>
        ensures { self.new.seat ≡ self.old.seat }
    {
        let sample = sample_of(self.first, self.delivered);
        if pair.source.data() != [sample].as_slice() || pair.image.data() != [!sample].as_slice() {
            return Err(Refusal::Torn(Came::Source));
        }
        self.delivered = self.delivered.saturating_add(1);
        Ok(())
    }

    /// Frame `n` of the seat's stream.
    fn frame(&self, n: u64) -> Result<Arc<Frame>, Refusal> {
        let Some(frame) = self.frames.get((n % PERIOD) as usize) else {
            return Err(Refusal::Core(Core::WrongSize));
        };
        match Arc::try_clone(frame) {
            Ok(frame) => Ok(frame),
            Err(_) => Err(Refusal::Core(Core::NoMemory)),
        }
    }
}
