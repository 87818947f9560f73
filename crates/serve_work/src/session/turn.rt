//! The streams of a session: each waits for its client, which goes on with it in each epoch, until it is
//! over.
ghost use Rattle.std.specs.Prelude.{◌≡◌, ◌≤◌, [], IfErr, IfOk, IfSome, None, Some, map, vec_capacity};
ghost use Rattle.std.specs.Prelude.{vec_len};
ghost use Rattle.std.specs.List.{AllByRecursion};
ghost use Rattle.y4m_stream.specs.Reader.{ReaderState};
ghost use Rattle.serve_client.specs.Streams.{IsOver};
ghost use Rattle.serve_client.specs.Streams as rules;
ghost use Rattle.serve_work.specs.SessionInside.{AreUnread, GoesOn, IsReady, Runs, held_at};
ghost use Rattle.serve_work.specs.SessionInside.{held_with};
ghost use Rattle.serve_work.specs.Sessions.{unread};

use serve_client::{ClientEnd, ClientRest, ClientTurn, Clock, Served, client};
use serve_hub::{Epoch, Hub, StreamSeat};
use std::alloc::Global;
use std::marker::Model;
use std::sync::Wait;
use y4m_stream::reader::Phase;
use y4m_stream::{Sink, Source, StreamReader};

/// A stream of a session, whatever the epoch. Contracts see the `StreamValue` of `specs/StreamInside.antt`.
#[derive(Drop)]
pub struct Stream<R: Source, W: Sink> {
    state: State<R, W>,
}

#[derive(Drop)]
enum State<R: Source, W: Sink> {
    /// This is left to do of it.
    Waiting(ClientRest<R, W>),
    /// It came to this. What it was charged isn't told yet.
    Over(Served<R, W>),
}

impl<R: Source, W: Sink> Model for Stream<R, W> {
    ghost use Rattle.serve_client.specs.Streams.{StreamValue};
    ghost use Rattle.serve_work.specs.StreamInside.{stream_of};

    ghost Value = { StreamValue };

    ghost view = { λ a. stream_of a.state };
}

impl<R: Source, W: Sink> Stream<R, W> {
    pub(crate) fn is_waiting(&self) -> bool
        ensures { result ≡ rules.is_waiting self.now }
    {
        matches!(&self.state, State::Waiting(_))
    }
}

impl<R: Source + Drop, W: Sink + Drop> Stream<R, W> {
    /// The stream of an input of which nothing is done yet.
    pub(crate) fn new(reader: StreamReader<R>, writer: W) -> Stream<R, W>
        requires open { reader.phase ≡ Phase.Open }
        ensures { result ≡ unread W.contents W.failures (reader, writer) }
    {
        Stream {
            state: State::Waiting(ClientRest::new(reader, writer)),
        }
    }

    /// The reader and the writer, where nothing was done of the stream.
    pub fn into_input(self) -> Option<(StreamReader<R>, W)>
        ensures unread { IfSome result (λ input. self ≡ unread W.contents W.failures input) }
        ensures returned { (input : ReaderState × W) → self ≡ unread W.contents W.failures input
            → ¬ (result ≡ None) }
    {
        match self.state {
            State::Waiting(rest) => rest.into_unread(),
            State::Over(_) => None,
        }
    }

    fn of_rest(rest: ClientRest<R, W>) -> Stream<R, W>
        ensures { result ≡ rules.Waiting rest }
    {
        Stream {
            state: State::Waiting(rest),
        }
    }

    fn of_served(served: Served<R, W>) -> Stream<R, W>
        ensures { result ≡ rules.Over served.outcome }
    {
        Stream {
            state: State::Over(served),
        }
    }

    /// What is told of it, when no epoch comes any more.
    pub(crate) fn into_served(self) -> Served<R, W>
        ensures { IsOver self result }
    {
        match self.state {
            State::Over(served) => served,
            State::Waiting(rest) => rest.give_up(),
        }
    }
}

/// A stream with its seat of this epoch.
#[derive(Drop)]
pub(crate) struct Held<L: Epoch, R: Source, W: Sink> {
    seat: StreamSeat<L>,
    stream: Stream<R, W>,
}

impl<L: Epoch, R: Source, W: Sink> Model for Held<L, R, W> {
    ghost use Rattle.serve_work.specs.SessionInside.{HeldValue, IsReady, held_at};

    ghost Value = { HeldValue };

    ghost view = { λ a. held_at a.seat a.stream };

    ghost invariant = { λ a. IsReady (held_at a.seat a.stream) };
}

impl<L: Epoch, R: Source + Drop, W: Sink + Drop> Held<L, R, W> {
    fn new(seat: StreamSeat<L>, stream: Stream<R, W>) -> Held<L, R, W>
        requires ready { IsReady (held_at seat stream) }
        ensures { result ≡ held_at seat stream }
    {
        Held { seat, stream }
    }

    /// Its client goes on, if it waits.
    fn go_on<K: Clock, T: Wait>(
        self,
        rt: &T,
        alloc: Global,
        hub: &Hub<L>,
        clock: &K,
    ) -> Held<L, R, W>
        ensures { GoesOn (K.gives clock.now) self result }
    {
        let Held { seat, stream } = self;
        match stream.state {
            State::Over(served) => Held::new(seat, Stream::of_served(served)),
            State::Waiting(rest) => match client(rt, alloc, hub, seat, rest, clock) {
                ClientTurn::Paused(seat, rest, _) => Held::new(seat, Stream::of_rest(rest)),
                ClientTurn::Ended(end) => {
                    let (seat, served) = part(end);
                    Held::new(seat, Stream::of_served(served))
                }
            },
        }
    }

    /// The seat, and the stream.
    pub(crate) fn part(self) -> (StreamSeat<L>, Stream<R, W>)
        ensures seat { result.0 ≡ self.seat }
        ensures stream { result.1 ≡ self.stream }
    {
        (self.seat, self.stream)
    }
}

/// The seat of a client that is done, and what is told of its stream, before it is known what it was charged.
fn part<L: Epoch, R: Source + Drop, W: Sink + Drop>(
    end: ClientEnd<L, R, W>,
) -> (StreamSeat<L>, Served<R, W>)
    ensures seat { result.0 ≡ end.seat }
    ensures outcome { result.1.outcome ≡ end.outcome }
{
    let ClientEnd {
        seat,
        source,
        writer,
        accepted,
        delivered,
        stop,
    } = end;
    let served = Served {
        accepted,
        delivered,
        charged: 0,
        stop,
        source,
        writer,
    };
    (seat, served)
}

/// The turn of a stream in an epoch. It is empty only while its client runs.
#[derive(Drop)]
pub(crate) struct Turn<L: Epoch, R: Source, W: Sink> {
    held: Option<Held<L, R, W>>,
}

impl<L: Epoch, R: Source, W: Sink> Model for Turn<L, R, W> {
    ghost use Rattle.std.specs.Prelude.{Option};
    ghost use Rattle.serve_work.specs.SessionInside.{HeldValue};

    ghost Value = { Option HeldValue };

    ghost view = { λ a. a.held };
}

impl<L: Epoch, R: Source + Drop, W: Sink + Drop> Turn<L, R, W> {
    /// A stream with its seat.
    pub(crate) fn new(seat: StreamSeat<L>, stream: Stream<R, W>) -> Turn<L, R, W>
        requires ready { IsReady (held_at seat stream) }
        ensures { result ≡ Some (held_at seat stream) }
    {
        Turn {
            held: Some(Held::new(seat, stream)),
        }
    }

    /// The stream's client goes on, if it waits.
    pub(crate) fn run<K: Clock, T: Wait>(&mut self, rt: &T, alloc: Global, hub: &Hub<L>, clock: &K)
        ensures { Runs (K.gives clock.now) self.old self.new }
    {
        if let Some(held) = self.held.take() {
            self.held.insert(held.go_on(rt, alloc, hub, clock));
        }
    }

    /// Whether nothing is left to do of its stream.
    pub(crate) fn is_over(&self) -> bool {
        match &self.held {
            None => true,
            Some(held) => !held.stream.is_waiting(),
        }
    }

    /// The stream with its seat.
    pub(crate) fn into_held(self) -> Option<Held<L, R, W>>
        ensures { result ≡ self }
    {
        self.held
    }
}

/// The streams of these inputs, with nothing done of them. Where there is no memory for their list, the
/// inputs come back.
pub(crate) fn streams_of<R: Source + Drop, W: Sink + Drop>(
    alloc: Global,
    inputs: Vec<(StreamReader<R>, W)>,
) -> Result<Vec<Stream<R, W>>, Vec<(StreamReader<R>, W)>>
    requires unread { AreUnread inputs.items }
    ensures streams { IfOk result (λ streams.
        streams.items ≡ map (unread W.contents W.failures) inputs.items) }
    ensures returns_inputs { IfErr result (λ back. back ≡ inputs) }
{
    let Ok(mut streams) = Vec::with_capacity(alloc, inputs.len()) else {
        return Err(inputs);
    };
    for (reader, writer) in inputs {
        streams.push_reserved(Stream::new(reader, writer));
    }
    Ok(streams)
}

/// The streams with their seats of this epoch, in a list that has the places for them.
pub(crate) fn pair_with_seats<L: Epoch, R: Source + Drop, W: Sink + Drop>(
    turns: Vec<Turn<L, R, W>>,
    seats: Vec<StreamSeat<L>>,
    streams: Vec<Stream<R, W>>,
) -> Vec<Turn<L, R, W>>
    requires none { turns.items ≡ [] }
    requires room { vec_len streams ≤ vec_capacity turns }
    requires ready { AllByRecursion IsReady (held_with seats.items streams.items) }
    ensures { result.items ≡ map Some (held_with seats.items streams.items) }
{
    let mut turns = turns;
    for (seat, stream) in seats.into_iter().zip(streams) {
        turns.push_reserved(Turn::new(seat, stream));
    }
    turns
}
