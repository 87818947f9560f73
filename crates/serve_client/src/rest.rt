//! What is left to do of a stream where the journal is full.
ghost use Rattle.std.specs.Prelude.{◌≡◌, IfNone, IfSome};
ghost use Rattle.serve_client.specs.Rests.{Begun, BegunValue, Unbegun, accepted_in, collected_in, delivered_in};
ghost use Rattle.serve_client.specs.Streams.{IsOver, Waiting};

use crate::begun::State;
use crate::served::Served;
use crate::stop::{Cause, Stop};
use std::marker::Model;
use y4m_stream::reader::Phase;
use y4m_stream::{Sink, Source, StreamReader};

/// What is left to do of a stream, from epoch to epoch: its reader and its writer, the frame that was read
/// and isn't accepted, if there is one, the image that isn't written whole, if there is one, the memory of
/// frames and images, how many frames were accepted and how many images collected and delivered, and why no
/// more frames are read, or no more images written.
///
/// Contracts see the `RestValue` of `specs/Rests.antt`.
#[derive(Drop)]
pub struct ClientRest<R: Source, W: Sink> {
    pub(crate) state: State<R, W>,
}

impl<R: Source, W: Sink> Model for ClientRest<R, W> {
    ghost use Rattle.serve_client.specs.Rests.{RestValue};
    ghost use Rattle.serve_client.specs.RestInside.{rest_of};

    ghost Value = { RestValue };

    ghost view = { λ a. rest_of W.contents W.failures a.state };
}

impl<R: Source + Drop, W: Sink> ClientRest<R, W> {
    /// A stream of which no frame was read, and nothing written.
    pub fn new(reader: StreamReader<R>, writer: W) -> ClientRest<R, W>
        requires open { reader.phase ≡ Phase.Open }
        ensures { result ≡ Unbegun reader (W.contents writer) (W.failures writer) }
    {
        ClientRest {
            state: State::Unbegun(reader, writer),
        }
    }

    /// How many frames were accepted.
    pub fn accepted(&self) -> u64
        ensures { result ≡ accepted_in self.now }
    {
        match &self.state {
            State::Unbegun(_, _) => 0,
            State::Begun(begun) => begun.accepted,
        }
    }

    /// How many of the accepted frames the stream's seat has no more.
    pub fn collected(&self) -> u64
        ensures { result ≡ collected_in self.now }
    {
        match &self.state {
            State::Unbegun(_, _) => 0,
            State::Begun(begun) => begun.collected,
        }
    }

    /// How many images were written whole.
    pub fn delivered(&self) -> u64
        ensures { result ≡ delivered_in self.now }
    {
        match &self.state {
            State::Unbegun(_, _) => 0,
            State::Begun(begun) => begun.writer.frames(),
        }
    }

    /// The end of a stream where no epoch comes any more: it stops for the fault that it keeps, and else for
    /// want of memory. What it was charged isn't told here.
    pub fn give_up(self) -> Served<R, W>
        ensures { IsOver (Waiting self) result }
    {
        match self.state {
            State::Unbegun(reader, writer) => Served {
                accepted: 0,
                delivered: 0,
                charged: 0,
                stop: Stop::Refused(Cause::NoMemory),
                source: reader.into_source(),
                writer,
            },
            State::Begun(begun) => begun.give_up(),
        }
    }
}

impl<R: Source + Drop, W: Sink + Drop> ClientRest<R, W> {
    /// The reader and the writer of a stream of which no frame was read, and nothing written.
    pub fn into_unread(self) -> Option<(StreamReader<R>, W)>
        ensures unread { IfSome result (λ input.
            self ≡ Unbegun input.0 (W.contents input.1) (W.failures input.1)) }
        ensures begun { IfNone result ((begun : BegunValue) × (self ≡ Begun begun)) }
    {
        match self.state {
            State::Unbegun(reader, writer) => Some((reader, writer)),
            State::Begun(_) => None,
        }
    }
}
