//! Frames on their way from a reader to a seat.
ghost use Rattle.std.specs.Prelude.{◌≡◌, ℕ, List, None, Ok, Some, IfErr, IfOk, IfSome, OnOk, false};
ghost use Rattle.std.specs.Result.{result_err};
ghost use Rattle.std.specs.Arc.{arc_value};
ghost use Rattle.serve_core.specs.Streams.{IsImageOf};
ghost use Rattle.serve_hub.specs.declared.entry.Act.{Act};
ghost use Rattle.serve_hub.specs.Calls.{IsOfferTold, noted};
ghost use Rattle.serve_hub.specs.Seats.{StreamSeatValue};
ghost use Rattle.y4m_stream.specs.Reader.{IsOfHeader, MeetsEnd, ReaderState, TakesFrame, frame_text_of};
ghost use Rattle.serve_client.specs.ClientInside.{Holds, IsCounted, IsOffered, IsSized, IsUnread, Offers};
ghost use Rattle.serve_client.specs.ClientInside.{OffersAt, fed_before, fed_of, text_in};
ghost use Rattle.serve_client.specs.Pipelines.{CanOffer, CanReadOn, HasFed, PassesOn, StopsFeeding};

use crate::delivery::deliver;
use crate::gate::Clock;
use crate::input::{Input, await_input, reads_ahead};
use crate::pipeline::Pipeline;
use crate::post::Post;
use crate::stop::{Cause, Halt, Stop};
use frame_view::Frame;
use serve_core::{Collected, Refusal as Core};
use serve_hub::{Epoch, Offer, OfferRefused, Refusal, StreamSeat};
use std::alloc::Global;
use std::sync::{Arc, Wait};
use y4m_stream::reader::Phase;
use y4m_stream::{Sink, Source, StreamReader};

/// What became of a frame that was offered once.
#[derive(Drop)]
pub(crate) enum Offered {
    Accepted,
    /// The queue is full, and the offer comes back.
    QueueFull(Offer),
    /// The journal is full, and the offer comes back.
    JournalFull(Offer),
    Stopped(Stop),
}

/// Why no more frames are read and offered.
#[derive(Drop)]
pub(crate) enum Fed {
    /// The journal is full. The frame in hand, if there is one, is still to be offered; the image in hand, if
    /// there is one, isn't written whole yet.
    Paused(Option<Arc<Frame>>, Option<Collected>),
    /// An image couldn't be delivered, for this reason. No frame is in hand.
    Held(Stop),
    Stopped(Stop),
}

impl Fed {
    /// Why no more frames are offered, where no place was made for the one in hand.
    fn of(halt: Halt, in_hand: Arc<Frame>) -> Fed
        ensures { result ≡ fed_of halt in_hand }
    {
        match halt {
            Halt::Full(image) => Fed::Paused(Some(in_hand), image),
            Halt::Stopped(stop) => Fed::Stopped(stop),
        }
    }

    /// Why no frame is read, where an image couldn't be delivered.
    fn without_frame(halt: Halt) -> Fed
        ensures { result ≡ fed_before halt }
    {
        match halt {
            Halt::Full(image) => Fed::Paused(None, image),
            Halt::Stopped(stop) => Fed::Held(stop),
        }
    }
}

/// Reads the next frame into new memory.
pub(crate) fn read_new<R: Source + Drop>(
    alloc: Global,
    reader: &mut StreamReader<R>,
) -> Result<Option<Arc<Frame>>, Stop>
    requires open { reader.old.phase ≡ Phase.Open }
    ensures frame { IfOk result (λ next. IfSome next (λ f.
        TakesFrame reader.old reader.new (frame_text_of (arc_value f)))) }
    ensures size { IfOk result (λ next. IfSome next (λ f.
        IsOfHeader reader.old.header (arc_value f).geometry)) }
    ensures end { result ≡ Ok None → MeetsEnd reader.old reader.new }
    ensures fault { IfErr result (IsUnread reader.old reader.new) }
    ensures header { reader.new.header ≡ reader.old.header }
{
    let frame = match reader.next_frame(alloc) {
        Ok(Some(frame)) => frame,
        Ok(None) => return Ok(None),
        Err(fault) => return Err(Stop::Read(fault)),
    };
    match Arc::new(alloc, frame) {
        Ok(frame) => Ok(Some(frame)),
        Err(_) => Err(Stop::Refused(Cause::NoMemory)),
    }
}

/// Reads the next frame, into the memory of one that was collected if it is at hand.
fn read_into<R: Source + Drop>(
    alloc: Global,
    reader: &mut StreamReader<R>,
    memory: Option<Arc<Frame>>,
) -> Result<Option<Arc<Frame>>, Stop>
    requires open { reader.old.phase ≡ Phase.Open }
    requires size { IfSome memory (λ f. IsOfHeader reader.old.header (arc_value f).geometry) }
    ensures frame { IfOk result (λ next. IfSome next (λ f.
        TakesFrame reader.old reader.new (frame_text_of (arc_value f)))) }
    ensures size { IfOk result (λ next. IfSome next (λ f.
        IsOfHeader reader.old.header (arc_value f).geometry)) }
    ensures end { result ≡ Ok None → MeetsEnd reader.old reader.new }
    ensures fault { IfErr result (IsUnread reader.old reader.new) }
    ensures header { reader.new.header ≡ reader.old.header }
{
    let Some(mut frame) = memory else {
        return read_new(alloc, reader);
    };
    let Some(place) = Arc::get_mut(&mut frame) else {
        return read_new(alloc, reader);
    };
    match reader.read_frame(alloc, place) {
        Ok(true) => Ok(Some(frame)),
        Ok(false) => Ok(None),
        Err(fault) => Err(Stop::Read(fault)),
    }
}

/// Offers a frame once.
pub(crate) fn offer_once<L: Epoch, K, T: Wait>(
    post: Post<'_, L, K, T>,
    seat: &mut StreamSeat<L>,
    offer: Offer,
) -> Offered
    requires memory { IfSome offer.memory (IsImageOf seat.old.chain) }
    requires size { (arc_value offer.frame).geometry ≡ seat.old.chain.geometry }
    requires open { seat.old.is_closed ≡ false }
    ensures answer { IsOffered result offer.at (arc_value offer.frame) seat.old seat.new }
    ensures moment { OffersAt offer.at seat.old seat.new }
{
    match post.hub.offer(post.rt, post.alloc, seat, offer) {
        Ok(_) => Offered::Accepted,
        Err(OfferRefused { offer: None, .. }) => Offered::Stopped(Stop::Torn),
        Err(
            OfferRefused {
                refusal,
                offer: Some(back),
            },
        ) => offered_of(refusal, back),
    }
}

/// What a frame comes to that was refused and came back.
fn offered_of(refusal: Refusal, back: Offer) -> Offered
    ensures { (at : ℕ) (seat : StreamSeatValue) → seat.is_closed ≡ false
        → (arc_value back.frame).geometry ≡ seat.chain.geometry
        → IsOfferTold seat at (arc_value back.frame).geometry refusal
        → IfSome back.memory (IsImageOf seat.chain)
        → IsOffered result at (arc_value back.frame) seat (noted refusal seat) }
{
    match refusal {
        Refusal::Core(Core::Full) => Offered::QueueFull(back),
        Refusal::HistoryFull => Offered::JournalFull(back),
        refusal => Offered::Stopped(Stop::of(refusal)),
    }
}

impl<L: Epoch, R: Source + Drop, W: Sink> Pipeline<L, R, W> {
    /// Offers a frame until it is accepted; while the queue is full it collects and writes.
    fn accept<K: Clock, T: Wait>(
        &mut self,
        post: Post<'_, L, K, T>,
        frame: Arc<Frame>,
    ) -> Result<(), Fed>
        requires can { CanOffer self.old }
        requires frame { (arc_value frame).geometry ≡ self.old.seat.chain.geometry }
        ensures answer { Offers result (arc_value frame) self.old.seat self.new.seat
            self.old.writer self.new.writer }
        ensures has_fed { HasFed (K.gives post.entry.clock.now) (result_err result) self.old self.new }
        ensures reader { self.new.reader ≡ self.old.reader }
    {
        let mut frame = frame;
        for _ in post.rt.forever() {
            let offer = Offer {
                at: post.clock.moment(),
                frame,
                memory: self.buffers.take_image(),
            };
            match offer_once(post, &mut self.seat, offer) {
                Offered::Accepted => return Ok(()),
                Offered::Stopped(stop) => return Err(Fed::Stopped(stop)),
                Offered::JournalFull(back) => {
                    self.buffers.keep_image(back.memory);
                    return Err(Fed::Paused(Some(back.frame), None));
                }
                Offered::QueueFull(back) => {
                    self.buffers.keep_image(back.memory);
                    frame = back.frame;
                }
            }
            match deliver(post.rt, post.hub, &mut self.seat, &mut self.writer) {
                Ok(pair) => self.buffers.keep(pair),
                Err(halt) => return Err(Fed::of(halt, frame)),
            }
        }
        unreachable!()
    }

    /// Delivers the images that are there or come soon, and reads and offers a frame where one is there.
    fn feed_once<K: Clock, T: Wait>(&mut self, post: Post<'_, L, K, T>) -> Result<(), Fed>
        requires can { CanReadOn self.old }
        ensures passed { OnOk result (PassesOn self.old self.new) }
        ensures answer { IfErr result (λ fed. (past : List Act) → IsCounted past self.old.seat
            → StopsFeeding fed past self.old.reader self.old self.new) }
        ensures has_fed { HasFed (K.gives post.entry.clock.now) (result_err result) self.old self.new }
    {
        let ahead = reads_ahead(&self.seat, &self.reader);
        match self.deliver_ready(post.rt, post.hub, ahead) {
            Ok(()) => {}
            Err(halt) => return Err(Fed::without_frame(halt)),
        }
        match await_input(post.rt, post.hub, &self.reader) {
            Input::Ready => {}
            Input::Silent => return Ok(()),
            Input::JournalFull => return Err(Fed::Paused(None, None)),
        }
        let memory = self.buffers.take_source();
        match read_into(post.alloc, &mut self.reader, memory) {
            Ok(Some(frame)) => self.accept(post, frame),
            Ok(None) => Err(Fed::Stopped(Stop::Whole)),
            Err(stop) => Err(Fed::Stopped(stop)),
        }
    }

    /// Reads and offers frames until that fails, the input ends, the journal is full, or an image can't be
    /// delivered.
    fn feed_on<K: Clock, T: Wait>(&mut self, post: Post<'_, L, K, T>) -> Fed
        requires can { CanReadOn self.old }
        ensures answer { (past : List Act) → IsCounted past self.old.seat
            → StopsFeeding result past self.old.reader self.old self.new }
        ensures has_fed { HasFed (K.gives post.entry.clock.now) (Some result) self.old self.new }
    {
        for _ in post.rt.forever() {
            match self.feed_once(post) {
                Ok(()) => {}
                Err(fed) => return fed,
            }
        }
        unreachable!()
    }

    /// Offers the frame in hand first, if there is one, and then feeds on.
    pub(crate) fn feed<K: Clock, T: Wait>(
        &mut self,
        post: Post<'_, L, K, T>,
        in_hand: Option<Arc<Frame>>,
    ) -> Fed
        requires can { CanReadOn self.old }
        requires frame { IsSized self.old.seat.chain in_hand }
        ensures answer { (past : List Act) (before : ReaderState) → IsCounted past self.old.seat
            → Holds before self.old.reader (text_in in_hand)
            → StopsFeeding result past before self.old self.new }
        ensures has_fed { HasFed (K.gives post.entry.clock.now) (Some result) self.old self.new }
    {
        match in_hand {
            None => self.feed_on(post),
            Some(frame) => match self.accept(post, frame) {
                Ok(()) => self.feed_on(post),
                Err(fed) => fed,
            },
        }
    }
}
