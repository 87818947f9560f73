//! A client's way from its reader to its writer: it feeds its seat, and then drains it.
ghost use Rattle.std.specs.Prelude.{◌≡◌, None, Some, IsFalse, IsSome, IsTrue};
ghost use Rattle.y4m_stream.specs.Reader.{IsOfHeader};
ghost use Rattle.serve_client.specs.declared.course.Course.TheVariants as courses;
ghost use Rattle.serve_client.specs.ClientInside.{MayClose, TalliesSeat};
ghost use Rattle.serve_client.specs.Clients.{IsClosedUnlessTorn};
ghost use Rattle.serve_client.specs.Pipelines.{CanFollow, Follows, FollowsFrom};
ghost use Rattle.serve_client.specs.Rests.{HasStopped};

use crate::course::Course;
use crate::delivery::{discard, drain};
use crate::feeding::Fed;
use crate::gate::Clock;
use crate::hand::finish;
use crate::holding::{Onward, hold};
use crate::pipeline::Pipeline;
use crate::post::Post;
use crate::stop::{Halt, Stop};
use frame_view::Frame;
use serve_core::Collected;
use serve_hub::{Epoch, Hub, Refusal, StreamSeat};
use std::sync::{Arc, Wait};
use y4m_stream::{Sink, Source};

/// How far a client came in an epoch.
#[derive(Drop)]
pub(crate) enum Step {
    /// The journal is full.
    Paused(Course),
    /// All is done that could be, with the first fault.
    Done(Stop),
}

/// Closes a stream, and tells whether the answer contradicts the seat.
fn close_torn<L: Epoch, T: Wait>(rt: &T, hub: &Hub<L>, seat: &mut StreamSeat<L>) -> bool
    ensures closed { MayClose seat.old seat.new }
    ensures shut { IsClosedUnlessTorn seat.new }
    ensures torn { IsTrue result → IsSome seat.new.torn }
    ensures untorn { IsFalse result → seat.new.torn ≡ seat.old.torn }
    ensures tally { TalliesSeat seat.old seat.new }
{
    matches!(hub.close(rt, seat), Err(Refusal::Torn(_)))
}

impl<L: Epoch, R: Source + Drop, W: Sink> Pipeline<L, R, W> {
    /// Collects what is left and throws it away, behind a stop that is no end.
    fn discard_left<K: Clock, T: Wait>(&mut self, post: Post<'_, L, K, T>, stop: Stop) -> Step
        requires can { CanFollow (Some (courses.Discarding stop)) self.old }
        ensures { Follows (K.gives post.entry.clock.now) (Some (courses.Discarding stop))
            self.old self.new result }
    {
        if discard(post.rt, post.hub, &mut self.seat) {
            Step::Paused(Course::Discarding(stop))
        } else {
            Step::Done(stop)
        }
    }

    /// Closes the stream, and throws away what is left.
    fn spoil_left<K: Clock, T: Wait>(&mut self, post: Post<'_, L, K, T>, stop: Stop) -> Step
        requires can { CanFollow (Some (courses.Discarding stop)) self.old }
        ensures { FollowsFrom (HasStopped stop) (K.gives post.entry.clock.now)
            (Some (courses.Discarding stop)) self.old self.new result }
    {
        let _ = close_torn(post.rt, post.hub, &mut self.seat);
        self.discard_left(post, stop)
    }

    /// Reads and offers on, where an image couldn't be delivered for the reason that is held, and throws away
    /// what is left. It stops for that reason, whatever fault comes later.
    fn hold_left<K: Clock, T: Wait>(
        &mut self,
        post: Post<'_, L, K, T>,
        in_hand: Option<Arc<Frame>>,
        held: Stop,
    ) -> Step
        requires header { IsOfHeader self.old.reader.header self.old.seat.chain.geometry }
        requires can { CanFollow (Some (courses.Holding in_hand held)) self.old }
        ensures { Follows (K.gives post.entry.clock.now) (Some (courses.Holding in_hand held))
            self.old self.new result }
    {
        match hold(post, &mut self.seat, &mut self.reader, in_hand) {
            Onward::Paused(in_hand) => Step::Paused(Course::Holding(in_hand, held)),
            Onward::QueueFull => self.spoil_left(post, held),
            Onward::Stopped(_later) => self.spoil_left(post, held),
        }
    }

    /// Collects and writes what is left, behind a stop.
    fn drain_left<K: Clock, T: Wait>(&mut self, post: Post<'_, L, K, T>, stop: Stop) -> Step
        requires can { CanFollow (Some (courses.Draining stop None)) self.old }
        ensures { Follows (K.gives post.entry.clock.now) (Some (courses.Draining stop None))
            self.old self.new result }
    {
        match drain(post.rt, post.hub, &mut self.seat, &mut self.writer) {
            Halt::Full(image) => Step::Paused(Course::Draining(stop, image)),
            Halt::Stopped(last) => {
                let told = stop.or(last);
                if last.is_spoilt() {
                    self.discard_left(post, told)
                } else {
                    Step::Done(told)
                }
            }
        }
    }

    /// Writes on with an image in hand, and then drains what is left.
    fn drain_behind<K: Clock, T: Wait>(
        &mut self,
        post: Post<'_, L, K, T>,
        stop: Stop,
        pair: Collected,
    ) -> Step
        requires can { CanFollow (Some (courses.Draining stop (Some pair))) self.old }
        ensures { Follows (K.gives post.entry.clock.now) (Some (courses.Draining stop (Some pair)))
            self.old self.new result }
    {
        match finish(post.rt, post.hub, &mut self.writer, pair) {
            Ok(_) => self.drain_left(post, stop),
            Err(Halt::Full(image)) => Step::Paused(Course::Draining(stop, image)),
            Err(Halt::Stopped(last)) => self.discard_left(post, stop.or(last)),
        }
    }

    /// Reads and offers what is left, with the frame in hand first if there is one, and then drains.
    fn feed_left<K: Clock, T: Wait>(
        &mut self,
        post: Post<'_, L, K, T>,
        in_hand: Option<Arc<Frame>>,
    ) -> Step
        requires header { IsOfHeader self.old.reader.header self.old.seat.chain.geometry }
        requires can { CanFollow (Some (courses.Feeding in_hand None)) self.old }
        ensures { Follows (K.gives post.entry.clock.now) (Some (courses.Feeding in_hand None))
            self.old self.new result }
    {
        match self.feed(post, in_hand) {
            Fed::Paused(in_hand, image) => Step::Paused(Course::Feeding(in_hand, image)),
            Fed::Held(stop) => self.hold_left(post, None, stop),
            Fed::Stopped(stop) => {
                let is_torn = close_torn(post.rt, post.hub, &mut self.seat);
                if stop.is_spoilt() {
                    self.discard_left(post, stop)
                } else if is_torn {
                    self.discard_left(post, stop.or(Stop::Torn))
                } else {
                    self.drain_left(post, stop)
                }
            }
        }
    }

    /// Writes on with an image in hand, and then reads and offers what is left. Where that image fails, the
    /// fault is held.
    fn feed_behind<K: Clock, T: Wait>(
        &mut self,
        post: Post<'_, L, K, T>,
        in_hand: Option<Arc<Frame>>,
        pair: Collected,
    ) -> Step
        requires header { IsOfHeader self.old.reader.header self.old.seat.chain.geometry }
        requires can { CanFollow (Some (courses.Feeding in_hand (Some pair))) self.old }
        ensures { Follows (K.gives post.entry.clock.now) (Some (courses.Feeding in_hand (Some pair)))
            self.old self.new result }
    {
        match finish(post.rt, post.hub, &mut self.writer, pair) {
            Ok(pair) => {
                self.buffers.keep(pair);
                self.feed_left(post, in_hand)
            }
            Err(Halt::Full(image)) => Step::Paused(Course::Feeding(in_hand, image)),
            Err(Halt::Stopped(stop)) => self.hold_left(post, in_hand, stop),
        }
    }

    /// Goes on with a stream whose header line was written: from its first frame, or from where the client
    /// paused.
    pub(crate) fn serve<K: Clock, T: Wait>(
        &mut self,
        post: Post<'_, L, K, T>,
        course: Option<Course>,
    ) -> Step
        requires header { IsOfHeader self.old.reader.header self.old.seat.chain.geometry }
        requires can { CanFollow course self.old }
        ensures { Follows (K.gives post.entry.clock.now) course self.old self.new result }
    {
        match course {
            None => self.feed_left(post, None),
            Some(Course::Feeding(in_hand, image)) => match image {
                None => self.feed_left(post, in_hand),
                Some(pair) => self.feed_behind(post, in_hand, pair),
            },
            Some(Course::Holding(in_hand, held)) => self.hold_left(post, in_hand, held),
            Some(Course::Draining(stop, image)) => match image {
                None => self.drain_left(post, stop),
                Some(pair) => self.drain_behind(post, stop, pair),
            },
            Some(Course::Discarding(stop)) => self.discard_left(post, stop),
        }
    }
}
