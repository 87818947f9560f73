//! Streams that are to be served, and what is told of them.

use serve_client::Served;
use serve_core::StreamSpec;
use serve_hub::Refusal;
use y4m_stream::{Sink, Source, StreamReader};

/// A stream that is to be served, under the number by which its door knows it.
#[derive(Drop)]
pub struct Request<R: Source, W: Sink> {
    pub ticket: u64,
    pub spec: StreamSpec,
    pub reader: StreamReader<R>,
    pub writer: W,
}

/// What is told of a request.
#[derive(Drop)]
pub enum Answer<R: Source, W: Sink> {
    /// The stream isn't served. Nothing was read of its frames, and nothing written.
    Refused(Refusal, StreamReader<R>, W),
    /// The stream came to this.
    Ended(Served<R, W>),
}

/// How a stream stands: how many of its frames were accepted, finished and collected, what it was charged,
/// its budget, and its deadline.
#[derive(Clone, Copy, Debug, PartialEq, Eq)]
pub struct Standing {
    pub accepted: u64,
    pub finished: u64,
    pub collected: u64,
    pub charged: u64,
    pub budget: u64,
    pub deadline: u64,
}
