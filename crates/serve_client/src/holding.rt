//! Frames that are offered while a fault of a delivery is held: no image is written any more.
ghost use Rattle.std.specs.Prelude.{◌≡◌, List, Some, IfErr, OnOk, false};
ghost use Rattle.std.specs.Arc.{arc_value};
ghost use Rattle.serve_hub.specs.declared.entry.Act.{Act};
ghost use Rattle.y4m_stream.specs.Reader.{ReaderState, frame_text_of};
ghost use Rattle.y4m_stream.specs.Writer.{WriterState};
ghost use Rattle.serve_client.specs.ClientInside.{Holds, IsCounted, IsSized, KeepsMoments, TalliesSeat};
ghost use Rattle.serve_client.specs.ClientInside.{text_in};
ghost use Rattle.serve_client.specs.Holding.{AllowsOnward, CanHoldOn, HasHeld, IsSizedOnward, OffersOn};
ghost use Rattle.serve_client.specs.Holding.{OffersOnce};

use crate::feeding::{Offered, offer_once, read_new};
use crate::gate::Clock;
use crate::input::{Input, await_input};
use crate::post::Post;
use crate::stop::Stop;
use frame_view::Frame;
use serve_hub::{Epoch, Offer, StreamSeat};
use std::sync::{Arc, Wait};
use y4m_stream::reader::Phase;
use y4m_stream::{Source, StreamReader};

/// Why no more frames are read and offered, where no image is written.
#[derive(Drop)]
pub(crate) enum Onward {
    /// The journal is full. The frame in hand, if there is one, is still to be offered.
    Paused(Option<Arc<Frame>>),
    /// The queue is full. The frame in hand is let go.
    QueueFull,
    Stopped(Stop),
}

/// Offers a frame that was read.
fn offer_on<L: Epoch, K: Clock, T: Wait>(
    post: Post<'_, L, K, T>,
    seat: &mut StreamSeat<L>,
    frame: Arc<Frame>,
) -> Result<(), Onward>
    requires size { (arc_value frame).geometry ≡ seat.old.chain.geometry }
    requires unclosed { seat.old.is_closed ≡ false }
    ensures answer { (past : List Act) (before reader : ReaderState) (writer : WriterState)
        → IsCounted past seat.old → Holds before reader (Some (frame_text_of (arc_value frame)))
        → OffersOnce result past before reader seat.old seat.new writer }
    ensures unclosed { OnOk result (seat.new.is_closed ≡ false) }
    ensures tally { TalliesSeat seat.old seat.new }
    ensures moments { KeepsMoments (K.gives post.entry.clock.now) seat.old seat.new }
    ensures stop { IfErr result (AllowsOnward (K.gives post.entry.clock.now)) }
    ensures frame { IfErr result (IsSizedOnward seat.old.chain) }
{
    let offer = Offer {
        at: post.clock.moment(),
        frame,
        memory: None,
    };
    match offer_once(post, seat, offer) {
        Offered::Accepted => Ok(()),
        Offered::QueueFull(_) => Err(Onward::QueueFull),
        Offered::JournalFull(back) => Err(Onward::Paused(Some(back.frame))),
        Offered::Stopped(stop) => Err(Onward::Stopped(stop)),
    }
}

/// Reads and offers a frame, where one is there.
fn hold_once<L: Epoch, R: Source + Drop, K: Clock, T: Wait>(
    post: Post<'_, L, K, T>,
    seat: &mut StreamSeat<L>,
    reader: &mut StreamReader<R>,
) -> Result<(), Onward>
    requires can { CanHoldOn reader.old seat.old }
    ensures answer { (past : List Act) (writer : WriterState) → IsCounted past seat.old
        → OffersOnce result past reader.old reader.new seat.old seat.new writer }
    ensures open { OnOk result (reader.new.phase ≡ Phase.Open) }
    ensures unclosed { OnOk result (seat.new.is_closed ≡ false) }
    ensures tally { TalliesSeat seat.old seat.new }
    ensures moments { KeepsMoments (K.gives post.entry.clock.now) seat.old seat.new }
    ensures stop { IfErr result (AllowsOnward (K.gives post.entry.clock.now)) }
    ensures frame { IfErr result (IsSizedOnward seat.old.chain) }
    ensures header { reader.new.header ≡ reader.old.header }
{
    match await_input(post.rt, post.hub, reader) {
        Input::Ready => {}
        Input::Silent => return Ok(()),
        Input::JournalFull => return Err(Onward::Paused(None)),
    }
    match read_new(post.alloc, reader) {
        Ok(Some(frame)) => offer_on(post, seat, frame),
        Ok(None) => Err(Onward::Stopped(Stop::Whole)),
        Err(stop) => Err(Onward::Stopped(stop)),
    }
}

/// Reads and offers frames until the queue or the journal is full, that fails, or the input ends.
fn hold_on<L: Epoch, R: Source + Drop, K: Clock, T: Wait>(
    post: Post<'_, L, K, T>,
    seat: &mut StreamSeat<L>,
    reader: &mut StreamReader<R>,
) -> Onward
    requires can { CanHoldOn reader.old seat.old }
    ensures answer { (past : List Act) (writer : WriterState) → IsCounted past seat.old
        → OffersOn result past reader.old reader.new seat.old seat.new writer }
    ensures has_held { HasHeld (K.gives post.entry.clock.now) result reader.old reader.new seat.old seat.new }
{
    for _ in post.rt.forever() {
        match hold_once(post, seat, reader) {
            Ok(()) => {}
            Err(onward) => return onward,
        }
    }
    unreachable!()
}

/// Offers the frame in hand first, if there is one, and then holds on.
pub(crate) fn hold<L: Epoch, R: Source + Drop, K: Clock, T: Wait>(
    post: Post<'_, L, K, T>,
    seat: &mut StreamSeat<L>,
    reader: &mut StreamReader<R>,
    in_hand: Option<Arc<Frame>>,
) -> Onward
    requires can { CanHoldOn reader.old seat.old }
    requires frame { IsSized seat.old.chain in_hand }
    ensures answer { (past : List Act) (before : ReaderState) (writer : WriterState) → IsCounted past seat.old
        → Holds before reader.old (text_in in_hand)
        → OffersOn result past before reader.new seat.old seat.new writer }
    ensures has_held { HasHeld (K.gives post.entry.clock.now) result reader.old reader.new seat.old seat.new }
{
    match in_hand {
        None => hold_on(post, seat, reader),
        Some(frame) => match offer_on(post, seat, frame) {
            Ok(()) => hold_on(post, seat, reader),
            Err(onward) => onward,
        },
    }
}
