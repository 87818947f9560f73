//! A stream that is ready to be served.
ghost use Rattle.serve_work.specs.Sessions.{IsInput};

use serve_core::StreamSpec;
use y4m_stream::{Sink, Source, StreamReader};

/// What a client reads from and writes to.
pub type Input<R, W> = (StreamReader<R>, W);

/// What a stream is served with, and its files, whose header was read.
#[derive(Drop)]
pub struct Ready<R: Source, W: Sink> {
    pub spec: StreamSpec,
    pub input: Input<R, W>,
    ghost is_input: { IsInput spec input },
}
