//! What is left of an epoch: the seats, and the streams.
ghost use Rattle.std.specs.Prelude.{◌≡◌, List, IfOk, Some, map, vec_capacity, vec_len};
ghost use Rattle.serve_work.specs.Intervals.{ArePlacesFor};
ghost use Rattle.serve_work.specs.SessionInside.{HeldValue};

use super::turn::{Stream, Turn};
use serve_hub::{Epoch, StreamSeat};
use std::alloc::{AllocError, Global};
use y4m_stream::{Sink, Source};

/// The places for what an epoch leaves: the seats, and the streams.
#[derive(Drop)]
pub(crate) struct Places<L: Epoch, R: Source, W: Sink> {
    pub(crate) seats: Vec<StreamSeat<L>>,
    pub(crate) streams: Vec<Stream<R, W>>,
}

impl<L: Epoch, R: Source + Drop, W: Sink + Drop> Places<L, R, W> {
    pub(crate) fn new(alloc: Global, streams: usize) -> Result<Places<L, R, W>, AllocError>
        ensures { IfOk result (ArePlacesFor streams) }
    {
        Ok(Places {
            seats: Vec::with_capacity(alloc, streams)?,
            streams: Vec::with_capacity(alloc, streams)?,
        })
    }

    /// Takes the turns apart, in order.
    pub(crate) fn fill(&mut self, turns: Vec<Turn<L, R, W>>)
        requires places { ArePlacesFor (vec_len turns) self.old }
        requires held { (helds : List HeldValue) × (turns.items ≡ map Some helds) }
        ensures seats { (helds : List HeldValue) → turns.items ≡ map Some helds
            → self.new.seats.items ≡ map (λ held. held.seat) helds }
        ensures streams { (helds : List HeldValue) → turns.items ≡ map Some helds
            → self.new.streams.items ≡ map (λ held. held.stream) helds }
        ensures same_room { vec_capacity self.new.seats ≡ vec_capacity self.old.seats }
    {
        for turn in turns {
            let Some(held) = turn.into_held() else {
                unreachable!()
            };
            let (seat, stream) = held.part();
            self.seats.push_reserved(seat);
            self.streams.push_reserved(stream);
        }
    }
}
