//! A client: one stream, from its reader through its seat to its writer.
ghost use Rattle.std.specs.Prelude.{◌≡◌, ◌≤◌, List, IfOk, IfSome, Option, Some, unwrap_or};
ghost use Rattle.serve_hub.specs.declared.entry.Act.{Act};
ghost use Rattle.y4m_header.specs.Header.{HeaderValue};
ghost use Rattle.y4m_header.specs.declared.limits.TheConstants.{MOST_FRAMES};
ghost use Rattle.y4m_stream.specs.Reader.{IsOfHeader};
ghost use Rattle.y4m_stream.specs.Served.{IsHeaderOfImages};
ghost use Rattle.y4m_stream.specs.Writer.{IsOpenedFor, WriterState};
ghost use Rattle.serve_client.specs.ClientInside.{AreBuffersFor, HasPlaces, IsCounted, IsNoNewEnd};
ghost use Rattle.serve_client.specs.ClientInside.{KeepsAllowed, KeepsFault, KeepsMoments, TalliesSeat};
ghost use Rattle.serve_client.specs.Clients.{AllowsStop, ClientEnds, ClientStart, IsClosedUnlessTorn};
ghost use Rattle.serve_client.specs.Pipelines.{CanFollow};
ghost use Rattle.serve_client.specs.Rests.{IsFresh, IsRest, IsRestOf, IsRunning, IsTallied, IsUnbegun};
ghost use Rattle.serve_client.specs.Rests.{course_stop_before, reader_in, rest_stop};
ghost use Rattle.serve_client.specs.Turns.{PausesAtFull, Turns, left_unread, seat_in, turn_stop};
ghost use Rattle.serve_client.specs.Sends.{Flushes, Serves};

use crate::begun::{Begun, State};
use crate::buffers::Buffers;
use crate::course::Course;
use crate::gate::Clock;
use crate::pipeline::Pipeline;
use crate::post::Post;
use crate::rest::ClientRest;
use crate::serving::Step;
use crate::stop::{Cause, Stop};
use filters::FilterError;
use serve_hub::{Epoch, Hub, RoomLeft, StreamSeat};
use std::alloc::Global;
use std::marker::Model;
use std::sync::Wait;
use y4m_header::Header;
use y4m_stream::reader::Phase;
use y4m_stream::{
    Sink, Source, StreamReader, StreamWriter, WriteFault, resized_header, shown_header,
};

/// What a client leaves: its seat, which is closed and keeps no frame where all went well, its source without
/// the bytes that were read ahead, and its writer, which is flushed unless it failed or nothing was written.
/// Contracts see the `ClientLeft` of `specs/Clients.antt`.
#[derive(Drop)]
pub struct ClientEnd<L: Epoch, R: Source, W: Sink> {
    pub seat: StreamSeat<L>,
    pub source: R,
    pub writer: W,
    /// How many of its frames were accepted.
    pub accepted: u64,
    /// How many images were written whole.
    pub delivered: u64,
    /// The first fault, if there was one.
    pub stop: Stop,
}

impl<L: Epoch, R: Source, W: Sink> Model for ClientEnd<L, R, W> {
    ghost use Rattle.serve_client.specs.Clients.{ClientLeft};

    ghost Value = { ClientLeft };

    ghost view = { λ a. record {
      seat = a.seat;
      outcome = record {
        stop = a.stop;
        accepted = a.accepted;
        delivered = a.delivered;
        left = R.remaining a.source;
        read_failures = R.failures a.source;
        after = W.contents a.writer;
        failures = W.failures a.writer;
        is_flushed = W.is_flushed a.writer;
      };
    } };
}

/// What a client comes to in an epoch.
#[derive(Drop)]
pub enum ClientTurn<L: Epoch, R: Source, W: Sink> {
    /// It is done.
    Ended(ClientEnd<L, R, W>),
    /// The journal is full, as the hub told: this is left to do in the next epoch.
    Paused(StreamSeat<L>, ClientRest<R, W>, RoomLeft<L>),
}

/// The stop, or the fault of the flush where all went well before.
pub(crate) fn stop_after_flush(stop: Stop, flush: Result<(), WriteFault>) -> Stop
    ensures { Flushes stop flush result }
{
    match (stop, flush) {
        (Stop::Whole, Err(fault)) => Stop::Write(fault),
        (stop, _) => stop,
    }
}

/// The end of a client that wrote nothing, or not all of the header line: the stream is closed, and nothing
/// is offered.
fn end_unopened<L: Epoch, R: Source + Drop, W: Sink, K, T: Wait>(
    post: Post<'_, L, K, T>,
    mut seat: StreamSeat<L>,
    reader: StreamReader<R>,
    writer: W,
    stop: Stop,
) -> ClientEnd<L, R, W>
    ensures tally { TalliesSeat seat result.seat }
    ensures accepted { result.seat.accepted ≡ seat.accepted }
    ensures kept { result.seat.kept ≡ seat.kept }
    ensures closed { IsClosedUnlessTorn result.seat }
    ensures outcome { result.outcome ≡ left_unread reader (W.contents writer) (W.failures writer)
        (W.is_flushed writer) stop }
{
    let _ = post.hub.close(post.rt, &mut seat);
    ClientEnd {
        seat,
        source: reader.into_source(),
        writer,
        accepted: 0,
        delivered: 0,
        stop,
    }
}

/// What is taken before anything is written: the header of the images where they have another size, and the
/// places for the memory that is used again.
fn prepare<L: Epoch>(
    alloc: Global,
    seat: &StreamSeat<L>,
    header: &Header,
) -> Result<(Option<Header>, Buffers), FilterError>
    requires header { IsOfHeader header.now seat.now.chain.geometry }
    ensures shown { IfOk result (λ made.
        IsHeaderOfImages seat.now.chain header.now (unwrap_or made.0 header.now)) }
    ensures buffers { IfOk result (λ made. AreBuffersFor seat.now.chain made.1) }
    ensures places { IfOk result (λ made. HasPlaces seat.now.places made.1) }
{
    let resized = resized_header(alloc, seat.spec().chain(), header)?;
    let buffers = Buffers::new(alloc, seat.places())?;
    Ok((resized, buffers))
}

/// Flushes what was written of a stream that is done.
fn end<L: Epoch, R: Source + Drop, W: Sink>(
    pipeline: Pipeline<L, R, W>,
    stop: Stop,
) -> ClientEnd<L, R, W>
    ensures seat { result.seat ≡ pipeline.seat }
    ensures stop { IsNoNewEnd (Some stop) (Some result.outcome.stop) }
    ensures fault { KeepsFault (Some stop) (Some result.outcome.stop) }
    ensures ends { (start : ClientStart) (past : List Act) (shown : HeaderValue) (opened : WriterState)
        → IsHeaderOfImages start.seat.chain start.reader.header shown
        → IsOpenedFor shown start.before start.failures opened → IsFresh start.seat
        → Serves past stop start.reader pipeline.reader start.seat pipeline.seat opened pipeline.writer
        → IsTallied past start.seat pipeline.seat pipeline.writer
        → ClientEnds start past result.seat result.outcome }
{
    let Pipeline {
        seat,
        reader,
        writer,
        ..
    } = pipeline;
    let accepted = seat.accepted();
    let delivered = writer.frames();
    let (writer, flush) = writer.finish();
    ClientEnd {
        seat,
        source: reader.into_source(),
        writer,
        accepted,
        delivered,
        stop: stop_after_flush(stop, flush),
    }
}

/// Goes on with a stream whose header line was written.
fn run<L: Epoch, R: Source + Drop, W: Sink, K: Clock, T: Wait>(
    post: Post<'_, L, K, T>,
    pipeline: Pipeline<L, R, W>,
    course: Option<Course>,
) -> ClientTurn<L, R, W>
    requires header { IsOfHeader pipeline.reader.header pipeline.seat.chain.geometry }
    requires can { CanFollow course pipeline }
    ensures turn { (start : ClientStart) (past : List Act)
        → IsRunning course start past pipeline.reader pipeline.seat pipeline.writer
        → Turns start past result }
    ensures moments { KeepsMoments (K.gives post.entry.clock.now) pipeline.seat (seat_in result) }
    ensures stop { KeepsAllowed (K.gives post.entry.clock.now) (course_stop_before course)
        (turn_stop result) }
    ensures fault { KeepsFault (course_stop_before course) (turn_stop result) }
{
    let mut pipeline = pipeline;
    match pipeline.serve(post, course) {
        Step::Done(stop) => ClientTurn::Ended(end(pipeline, stop)),
        Step::Paused(course) => {
            let Pipeline {
                seat,
                reader,
                writer,
                buffers,
            } = pipeline;
            let accepted = seat.accepted();
            let begun = Begun {
                reader,
                writer,
                buffers,
                course,
                accepted,
                collected: accepted.saturating_sub(seat.kept() as u64),
            };
            let rest = ClientRest {
                state: State::Begun(begun),
            };
            ClientTurn::Paused(seat, rest, post.hub.room_left(post.rt))
        }
    }
}

/// Writes the header line, and then serves the stream.
fn begin<L: Epoch, R: Source + Drop, W: Sink, K: Clock, T: Wait>(
    post: Post<'_, L, K, T>,
    seat: StreamSeat<L>,
    reader: StreamReader<R>,
    writer: W,
) -> ClientTurn<L, R, W>
    requires header { IsOfHeader reader.header seat.chain.geometry }
    requires fresh { IsFresh seat }
    requires counted { (past : List Act) × IsCounted past seat }
    requires open { reader.phase ≡ Phase.Open }
    requires most { seat.frames ≤ MOST_FRAMES }
    ensures turn { (start : ClientStart) (past : List Act)
        → IsUnbegun start past seat reader (W.contents writer) (W.failures writer)
        → Turns start past result }
    ensures moments { KeepsMoments (K.gives post.entry.clock.now) seat (seat_in result) }
    ensures stop { IfSome (turn_stop result) (AllowsStop (K.gives post.entry.clock.now)) }
{
    let Ok((resized, buffers)) = prepare(post.alloc, &seat, reader.header()) else {
        let stop = Stop::Refused(Cause::NoMemory);
        return ClientTurn::Ended(end_unopened(post, seat, reader, writer, stop));
    };
    match StreamWriter::open(writer, shown_header(&resized, reader.header())) {
        Err((writer, fault)) => {
            let stop = Stop::Write(fault);
            ClientTurn::Ended(end_unopened(post, seat, reader, writer, stop))
        }
        Ok(output) => {
            let pipeline = Pipeline {
                seat,
                reader,
                writer: output,
                buffers,
            };
            run(post, pipeline, None)
        }
    }
}

/// Goes on with a stream until a call finds the journal full, or all is done.
fn go_on<L: Epoch, R: Source + Drop, W: Sink, K: Clock, T: Wait>(
    post: Post<'_, L, K, T>,
    seat: StreamSeat<L>,
    rest: ClientRest<R, W>,
) -> ClientTurn<L, R, W>
    requires header { IsOfHeader (reader_in rest).header seat.chain.geometry }
    requires rest { IsRest seat rest }
    ensures turn { (start : ClientStart) (past : List Act) → IsRestOf start past seat rest
        → Turns start past result }
    ensures moments { KeepsMoments (K.gives post.entry.clock.now) seat (seat_in result) }
    ensures stop { KeepsAllowed (K.gives post.entry.clock.now) (rest_stop rest) (turn_stop result) }
    ensures fault { KeepsFault (rest_stop rest) (turn_stop result) }
{
    let _recalled = seat.frames();
    match rest.state {
        State::Unbegun(reader, writer) => begin(post, seat, reader, writer),
        State::Begun(begun) => {
            let Begun {
                reader,
                writer,
                buffers,
                course,
                ..
            } = begun;
            let pipeline = Pipeline {
                seat,
                reader,
                writer,
                buffers,
            };
            run(post, pipeline, Some(course))
        }
    }
}

/// Serves one stream: it offers the frames that it reads, and writes the images that it collects.
///
/// The header line is written first, with the size of the images. Before each frame it writes the images that
/// are there or come soon. While its queue is full it waits for an image and writes it; at the end of the
/// input, and at any fault, it closes the stream and collects the images that are left. After a fault of the
/// writer, or an answer that contradicts the seat, these are thrown away, and nothing more is written; where
/// that came before a frame was read, frames are read and offered on until the queue is full or the input
/// ends or fails, and it is told then. Once a stream runs, frames and images have the memory of those before
/// them.
///
/// Where the journal is full it pauses, also while its input is silent, and tells what is left to do: in the
/// next epoch a call with the stream's seat of that epoch goes on from there, with the frame first that it
/// read and couldn't offer, if there is one.
pub fn client<L: Epoch, R: Source + Drop, W: Sink, K: Clock, T: Wait>(
    rt: &T,
    alloc: Global,
    hub: &Hub<L>,
    seat: StreamSeat<L>,
    rest: ClientRest<R, W>,
    clock: &K,
) -> ClientTurn<L, R, W>
    requires header { IsOfHeader (reader_in rest).header seat.chain.geometry }
    requires rest { IsRest seat rest }
    ensures turn { (start : ClientStart) (past : List Act) → IsRestOf start past seat rest
        → Turns start past result }
    ensures moments { KeepsMoments (K.gives clock.now) seat (seat_in result) }
    ensures stop { KeepsAllowed (K.gives clock.now) (rest_stop rest) (turn_stop result) }
    ensures fault { KeepsFault (rest_stop rest) (turn_stop result) }
    ensures full { PausesAtFull result }
{
    let post = Post {
        rt,
        alloc,
        hub,
        clock,
    };
    let mut seat = seat;
    let mut rest = rest;
    for _ in rt.forever() {
        match go_on(post, seat, rest) {
            ClientTurn::Ended(end) => return ClientTurn::Ended(end),
            ClientTurn::Paused(next_seat, next_rest, room_left) => {
                if room_left.is_full() {
                    return ClientTurn::Paused(next_seat, next_rest, room_left);
                }
                seat = next_seat;
                rest = next_rest;
            }
        }
    }
    unreachable!()
}
