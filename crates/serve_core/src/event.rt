//! What is asked of the machine, and what it answers.

use crate::refusal::Refusal;
use crate::spec::StreamSpec;
use frame_view::Frame;
use std::sync::Arc;

/// What is asked of the machine. Streams and workers are told by their number, from 0.
#[derive(Drop)]
pub enum Event {
    /// A frame arrives at a stream.
    Arrive(u32, Arc<Frame>),
    /// A worker asks for a lease.
    Lease(u32),
    /// A worker does the next band of its lease.
    Band(u32),
    /// A worker gives its lease back.
    Settle(u32),
    /// The clock goes on to a moment.
    Tick(u64),
    /// A stream gets no more frames.
    Close(u32),
    /// The oldest image of a stream is asked for.
    Collect(u32),
    /// One stream more is asked for.
    Admit(StreamSpec),
}

/// What the machine answers.
#[derive(Drop)]
pub enum Reply {
    /// The frame was accepted, with this number in its stream, from 0.
    Accepted(u64),
    /// The lease: the stream, the number of its frame, and how many bands are granted.
    Leased(u32, u64, u32),
    /// The band is done.
    Stepped,
    /// The frame is back at the front of its queue, with the bands that are done.
    Returned,
    /// All bands of the frame of this number are done: its image waits for collection.
    Finished(u64),
    /// The clock shows the moment.
    Ticked,
    /// The stream is closed.
    Closing,
    /// The oldest image of the stream.
    Image(Frame),
    /// The stream is there, with this number.
    Admitted(u32),
    /// Nothing was done.
    Refused(Refusal),
    /// Nothing was done, and the frame comes back.
    GivenBack(Refusal, Arc<Frame>),
    /// Nothing was done, and the spec comes back.
    SpecBack(Refusal, StreamSpec),
}
