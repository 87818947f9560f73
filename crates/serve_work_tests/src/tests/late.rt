//! Inputs that come late: streams that wait for another one, or for their own images.
ghost use Rattle.serve_work.specs.Sessions.{AreInputs, IsInput};

use super::lists::{put, two_of};
use super::{Open, PLAIN, Plan, Still, same_at, stream_of, writer_of};
use serve_core::{Setup, StreamSpec};
use serve_work::{Served, Stop, serve_session};
use std::alloc::{AllocError, Global};
use std::io::{self, ErrorKind, Read};
use std::process::Abort;
use std::sync::Wait;
use std::sync::atomic::{AtomicU64, Ordering};
use std::thread::Threads;
use test_tools::streams::{CUT, HEADER, ONE, ONE_INVERTED, THREE, THREE_INVERTED};
use test_tools::{Room, Tape};
use y4m_stream::{OverRead, OverWrite, Sink, Source, StreamReader, Wanted, WriteFault};

/// How often a source is asked at most whether it is ready. Then it says so, and its read fails: what it
/// waits for doesn't come any more, as where another stream had no memory.
const PATIENCE: u64 = 100_000_000;

/// When the bytes of a stream come: so many at first, and then ten at a time, where so many bytes were
/// written by then, and so many more for each ten of them.
#[derive(Clone, Copy)]
pub(super) struct Pace<'a> {
    pub(super) first: usize,
    pub(super) written: &'a AtomicU64,
    pub(super) least: u64,
    pub(super) each: u64,
}

impl Pace<'_> {
    /// Whether what a source gives that was read so often has come.
    fn has_come(&self, reads: u64) -> bool {
        let more = reads.saturating_sub(1).saturating_mul(self.each);
        reads == 0 || self.written.load(Ordering::SeqCst) >= self.least.saturating_add(more)
    }
}

/// Bytes that come by a pace: a read before that fails.
#[derive(Drop)]
pub(super) struct Paced<'a> {
    tape: Tape<'a>,
    pace: Pace<'a>,
}

impl Read for Paced<'_> {
    fn read(&mut self, buf: &mut [u8]) -> io::Result<usize> {
        if !self.pace.has_come(self.tape.reads) {
            return Err(io::Error::from(ErrorKind::Other));
        }
        let answer = self.tape.read(buf);
        self.tape.step = 10;
        answer
    }
}

/// A source that is ready by a pace, and counts how often it was read and asked.
#[derive(Drop)]
pub(super) struct Late<'a, S: Source> {
    source: S,
    pace: Pace<'a>,
    reads: u64,
    asked: AtomicU64,
}

impl<'a, S: Source> Source for Late<'a, S> {
    ghost remaining = { λ s. S.remaining s.source };

    ghost failures = { λ s. S.failures s.source };

    fn read(&mut self, buf: &mut [u8]) -> io::Result<usize> {
        self.reads = self.reads.saturating_add(1);
        self.source.read(buf)
    }

    fn is_ready(&self, _milliseconds: u64, _wanted: Wanted) -> bool {
        self.pace.has_come(self.reads) || self.asked.fetch_add(1, Ordering::SeqCst) > PATIENCE
    }
}

/// A sink that counts the bytes that it takes.
#[derive(Drop)]
pub(super) struct Counted<'a, S: Sink> {
    sink: S,
    written: &'a AtomicU64,
}

impl<'a, S: Sink> Sink for Counted<'a, S> {
    ghost contents = { λ s. S.contents s.sink };

    ghost failures = { λ s. S.failures s.sink };

    ghost is_flushed = { λ s. S.is_flushed s.sink };

    fn write(&mut self, buf: &[u8]) -> io::Result<usize> {
        let answer = self.sink.write(buf);
        if let Ok(n) = &answer {
            self.written.fetch_add(*n as u64, Ordering::SeqCst);
        }
        answer
    }

    fn flush(&mut self) -> io::Result<()> {
        self.sink.flush()
    }
}

/// A stream whose input comes late: its bytes, when they come, what it is served with, and where its bytes
/// that were written are counted.
#[derive(Clone, Copy)]
pub(super) struct Side<'a> {
    pub(super) input: &'a [u8],
    pub(super) pace: Pace<'a>,
    pub(super) plan: Plan<'a>,
    pub(super) written: &'a AtomicU64,
}

pub(super) type Reader<'a> = StreamReader<Late<'a, OverRead<Paced<'a>>>>;

pub(super) type Writer<'a> = Counted<'a, OverWrite<Room>>;

pub(super) type OneServed<'a> = Served<Late<'a, OverRead<Paced<'a>>>, Writer<'a>>;

pub(super) fn opened<'a>(
    rt: &impl Abort,
    alloc: Global,
    side: Side<'a>,
) -> (StreamSpec, (Reader<'a>, Writer<'a>))
    ensures { IsInput result.0 result.1 }
{
    let pace = side.pace;
    let tape = Tape::by_steps(side.input, pace.first);
    let late = Late {
        source: OverRead::new(Paced { tape, pace }),
        pace,
        reads: 0,
        asked: AtomicU64::new(0),
    };
    let sink = writer_of(rt, alloc, side.plan.room);
    let written = side.written;
    let reader = StreamReader::open(alloc, late).expect(rt, "no reader");
    let spec = stream_of(rt, alloc, reader.header(), side.plan);
    (spec, (reader, Counted { sink, written }))
}

/// Reads the headers of two streams.
fn both_opened<'a>(
    rt: &impl Abort,
    alloc: Global,
    first: Side<'a>,
    second: Side<'a>,
) -> (Vec<StreamSpec>, Vec<(Reader<'a>, Writer<'a>)>)
    ensures { AreInputs result.0.items result.1.items }
{
    let (first, input) = opened(rt, alloc, first);
    let (second, other) = opened(rt, alloc, second);
    (
        two_of(rt, alloc, first, second),
        two_of(rt, alloc, input, other),
    )
}

/// Serves two streams by two workers, with room for sixteen entries an epoch.
fn served_beside<'a, T: Abort + Threads + Wait + Sync>(
    rt: &T,
    alloc: Global,
    first: Side<'a>,
    second: Side<'a>,
) -> Vec<OneServed<'a>> {
    let (specs, inputs) = both_opened(rt, alloc, first, second);
    let setup = Setup::new(2, 4, specs).expect(rt, "no setup");
    serve_session(rt, alloc, setup, inputs, 16, &Open, &Still(0)).expect(rt, "the session")
}

/// What a stream came to: why it stopped, how many frames were accepted, delivered and charged, and what was
/// written.
#[derive(Drop)]
pub(super) struct Came {
    pub(super) end: (Stop, u64, u64, u64),
    pub(super) written: Vec<u8>,
}

pub(super) fn end_of(served: OneServed<'_>) -> Came {
    let end = (
        served.stop,
        served.accepted,
        served.delivered,
        served.charged,
    );
    let written = served.writer.sink.into_inner().taken;
    Came { end, written }
}

/// What two streams come to that are served beside each other.
fn both_came<'a, T: Abort + Threads + Wait + Sync>(
    rt: &T,
    alloc: Global,
    first: Side<'a>,
    second: Side<'a>,
) -> Vec<Came> {
    let mut all = Vec::new(alloc);
    for served in served_beside(rt, alloc, first, second) {
        put(rt, &mut all, end_of(served));
    }
    all
}

/// What is told of a stream, as `Came` has it.
#[derive(Drop)]
struct Told<'a> {
    end: (Stop, u64, u64, u64),
    written: &'a [u8],
}

fn came_to(rt: &impl Abort, came: Option<Came>, told: &Told<'_>, name: &str) {
    let came = came.expect(rt, name);
    same_at(rt, came.end, told.end, name);
    same_at(rt, came.written.as_slice(), told.written, name);
}

/// Twenty frames of four samples each, and what they are inverted to, each behind the header line: 222 bytes.
pub(super) fn twenty(alloc: Global) -> Result<(Vec<u8>, Vec<u8>), AllocError> {
    let mut frames = HEADER.to_vec(alloc)?;
    let mut images = HEADER.to_vec(alloc)?;
    for n in 0..20u8 {
        frames.extend_from_slice(b"FRAME\n\x00\x01\x02")?;
        frames.push(n)?;
        images.extend_from_slice(b"FRAME\n\xff\xfe\xfd")?;
        images.push(255 - n)?;
    }
    Ok((frames, images))
}

/// What a stream comes to that is silent, behind its first bytes, until all of another's images were written.
struct Case<'a> {
    name: &'a str,
    input: &'a [u8],
    first: usize,
    room: usize,
    told: Told<'a>,
}

const CASES: &[Case<'_>] = &[
    Case {
        name: "three frames, behind the header",
        input: THREE,
        first: 22,
        room: 1 << 16,
        told: Told {
            end: (Stop::Whole, 3, 3, 3),
            written: THREE_INVERTED,
        },
    },
    Case {
        name: "three frames, behind the first",
        input: THREE,
        first: 32,
        room: 1 << 16,
        told: Told {
            end: (Stop::Whole, 3, 3, 3),
            written: THREE_INVERTED,
        },
    },
    Case {
        name: "the fault of the first image is held until the input's end",
        input: THREE,
        first: 32,
        room: 22,
        told: Told {
            end: (Stop::Write(WriteFault::Device(22)), 3, 0, 3),
            written: HEADER,
        },
    },
    Case {
        name: "a fault that is held comes before one of the input",
        input: CUT,
        first: 32,
        room: 22,
        told: Told {
            end: (Stop::Write(WriteFault::Device(22)), 1, 0, 1),
            written: HEADER,
        },
    },
    Case {
        name: "one frame, behind the header",
        input: ONE,
        first: 22,
        room: 1 << 16,
        told: Told {
            end: (Stop::Whole, 1, 1, 1),
            written: ONE_INVERTED,
        },
    },
];

/// What two streams come to, of which one is silent, behind its first bytes, until all images of the other
/// were written.
fn beside_silent<'a, T: Abort + Threads + Wait + Sync>(
    rt: &T,
    alloc: Global,
    frames: &'a [u8],
    input: &'a [u8],
    sizes: (usize, usize),
    written: &'a AtomicU64,
    other: &'a AtomicU64,
) -> Vec<Came> {
    let (first, room) = sizes;
    let talker = Side {
        input: frames,
        pace: Pace {
            first: 22,
            written: other,
            least: 0,
            each: 0,
        },
        plan: PLAIN,
        written,
    };
    let silent = Side {
        input,
        pace: Pace {
            first,
            written,
            least: 222,
            each: 0,
        },
        plan: Plan { room, ..PLAIN },
        written: other,
    };
    both_came(rt, alloc, talker, silent)
}

/// A silent stream holds up no other, whose images need a dozen epochs.
fn comes_behind(rt: &(impl Abort + Threads + Wait + Sync), alloc: Global, case: &Case<'_>) {
    let (frames, images) = twenty(alloc).expect(rt, "twenty frames");
    let written = AtomicU64::new(0);
    let other = AtomicU64::new(0);
    let sizes = (case.first, case.room);
    let mut all = beside_silent(rt, alloc, &frames, case.input, sizes, &written, &other);
    came_to(rt, all.pop(), &case.told, case.name);
    let told = Told {
        end: (Stop::Whole, 20, 20, 20),
        written: &images,
    };
    came_to(rt, all.pop(), &told, "the other stream");
}

#[test]
fn a_silent_stream_holds_up_no_other(rt: HostRuntime) {
    for case in CASES {
        comes_behind(&rt, rt.alloc(), case);
    }
}

/// A stream of twenty frames, each of which comes once the image of the one before it is written.
fn live<'a>(frames: &'a [u8], ops: &'a str, written: &'a AtomicU64) -> Side<'a> {
    let pace = Pace {
        first: 22,
        written,
        least: 22,
        each: 10,
    };
    Side {
        input: frames,
        pace,
        plan: Plan { ops, ..PLAIN },
        written,
    }
}

/// What two such streams come to.
fn both_live<'a, T: Abort + Threads + Wait + Sync>(
    rt: &T,
    alloc: Global,
    frames: &'a [u8],
    ops: &'a str,
    first: &'a AtomicU64,
    second: &'a AtomicU64,
) -> Vec<Came> {
    let first = live(frames, ops, first);
    let second = live(frames, ops, second);
    both_came(rt, alloc, first, second)
}

/// Serves two such streams, and compares what was written where the images are known.
fn served_live(
    rt: &(impl Abort + Threads + Wait + Sync),
    alloc: Global,
    ops: &str,
    images: Option<&[u8]>,
) {
    let (frames, _) = twenty(alloc).expect(rt, "twenty frames");
    let first = AtomicU64::new(0);
    let second = AtomicU64::new(0);
    let all = both_live(rt, alloc, &frames, ops, &first, &second);
    same_at(rt, all.len(), 2, ops);
    for came in all {
        let (stop, accepted, delivered, _) = came.end;
        same_at(rt, (stop, accepted, delivered), (Stop::Whole, 20, 20), ops);
        same_at(rt, came.written.len(), 222, ops);
        if let Some(images) = images {
            same_at(rt, came.written.as_slice(), images, ops);
        }
    }
}

/// Also where a blur takes long, so that a client would read ahead.
#[test]
fn an_image_leaves_before_the_next_frame_comes(rt: HostRuntime) {
    let (_, images) = twenty(rt.alloc()).expect(&rt, "twenty frames");
    served_live(&rt, rt.alloc(), "invert", Some(&images));
    served_live(&rt, rt.alloc(), "blur:1+invert", None);
}
