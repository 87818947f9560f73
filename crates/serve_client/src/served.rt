//! What became of a stream.

use crate::stop::Stop;
use std::marker::Model;
use y4m_stream::{Sink, Source};

/// What became of a stream, with its source and its writer. Contracts see the `ServedValue` of
/// `specs/Streams.antt`.
#[derive(Drop)]
pub struct Served<R: Source, W: Sink> {
    /// How many of its frames were accepted.
    pub accepted: u64,
    /// How many images were written whole.
    pub delivered: u64,
    /// How many units it was charged.
    pub charged: u64,
    /// The first fault, if there was one.
    pub stop: Stop,
    pub source: R,
    pub writer: W,
}

impl<R: Source, W: Sink> Model for Served<R, W> {
    ghost use Rattle.serve_client.specs.Streams.{ServedValue};

    ghost Value = { ServedValue };

    ghost view = { λ a. record {
      outcome = record {
        stop = a.stop;
        accepted = a.accepted;
        delivered = a.delivered;
        left = R.remaining a.source;
        read_failures = R.failures a.source;
        after = W.contents a.writer;
        failures = W.failures a.writer;
        is_flushed = W.is_flushed a.writer;
      };
      charged = a.charged;
    } };
}
