//! Sessions of several streams.
ghost use Rattle.serve_work.specs.Sessions.{AreInputs, IsInput};

use super::lists::put;
use super::{Open, Plan, Still, stream_of, writer_of};
use serve_core::{Setup, StreamSpec};
use serve_work::{Clock, Gate, Served, SessionFault, serve_session};
use std::alloc::Global;
use std::process::Abort;
use std::sync::Wait;
use std::thread::Threads;
use test_tools::{Room, Tape};
use y4m_stream::{OverRead, OverWrite, StreamReader};

/// A stream of a session: its bytes, whether its reader fails behind them, and what it is served with.
#[derive(Clone, Copy)]
pub(super) struct Stream<'a> {
    pub(super) input: &'a [u8],
    pub(super) breaks: bool,
    pub(super) plan: Plan<'a>,
}

/// Where a stream is read from, and written to.
pub(super) type Input<'a> = (StreamReader<OverRead<Tape<'a>>>, OverWrite<Room>);

/// The inputs of a session.
pub(super) type AllInputs<'a> = Vec<Input<'a>>;

/// What became of a stream.
pub(super) type OneServed<'a> = Served<OverRead<Tape<'a>>, OverWrite<Room>>;

/// What became of the streams.
pub(super) type AllServed<'a> = Vec<OneServed<'a>>;

/// How many workers there are, how many entries the journal may have, and the moment of all offers.
#[derive(Clone, Copy)]
pub(super) struct Hall {
    pub(super) workers: u64,
    pub(super) limit: usize,
    pub(super) moment: u64,
}

/// Two workers, and all that is needed.
pub(super) const WIDE: Hall = Hall {
    workers: 2,
    limit: 1000,
    moment: 0,
};

/// Reads the header of a stream.
pub(super) fn opened<'a>(
    rt: &impl Abort,
    alloc: Global,
    stream: &Stream<'a>,
) -> (StreamSpec, Input<'a>)
    ensures { IsInput result.0 result.1 }
{
    let writer = writer_of(rt, alloc, stream.plan.room);
    let tape = Tape::new(stream.input, stream.breaks);
    let reader = StreamReader::open(alloc, OverRead::new(tape)).expect(rt, "no reader");
    let spec = stream_of(rt, alloc, reader.header(), stream.plan);
    (spec, (reader, writer))
}

/// Reads the headers of these streams.
pub(super) fn all_opened<'a>(
    rt: &impl Abort,
    alloc: Global,
    streams: &[Stream<'a>],
) -> (Vec<StreamSpec>, AllInputs<'a>)
    ensures { AreInputs result.0.items result.1.items }
{
    let mut specs = Vec::new(alloc);
    let mut inputs = Vec::new(alloc);
    for stream in streams {
        let (spec, input) = opened(rt, alloc, stream);
        put(rt, &mut specs, spec);
        put(rt, &mut inputs, input);
    }
    (specs, inputs)
}

/// Serves these streams.
pub(super) fn serve_all<'a, T: Abort + Threads + Wait + Sync>(
    rt: &T,
    alloc: Global,
    streams: &[Stream<'a>],
    hall: Hall,
) -> Result<AllServed<'a>, SessionFault> {
    serve_behind(rt, alloc, streams, hall, &Open)
}

/// The same, behind this gate.
pub(super) fn serve_behind<'a, G: Gate + Sync, T: Abort + Threads + Wait + Sync>(
    rt: &T,
    alloc: Global,
    streams: &[Stream<'a>],
    hall: Hall,
    gate: &G,
) -> Result<AllServed<'a>, SessionFault> {
    serve_by(rt, alloc, streams, hall, gate, &Still(hall.moment))
}

/// The same, by this clock.
pub(super) fn serve_by<'a, G: Gate + Sync, K: Clock + Sync, T: Abort + Threads + Wait + Sync>(
    rt: &T,
    alloc: Global,
    streams: &[Stream<'a>],
    hall: Hall,
    gate: &G,
    clock: &K,
) -> Result<AllServed<'a>, SessionFault> {
    let (specs, inputs) = all_opened(rt, alloc, streams);
    let setup = Setup::new(hall.workers, 4, specs).expect(rt, "no setup");
    serve_session(rt, alloc, setup, inputs, hall.limit, gate, clock)
}
