//! What the streams of a session come to, each by itself.
use super::many::{AllServed, Hall, OneServed, Stream, WIDE, all_opened, serve_all};
use super::{Open, PLAIN, Plan, Still, same_at};
use serve_core::Setup;
use serve_work::{Cause, SessionFault, Stop, Unended, serve_session_or_return};
use std::alloc::{AllocError, Global};
use std::process::Abort;
use std::sync::Wait;
use std::thread::Threads;
use test_tools::streams::{CUT, HEADER, ONE_INVERTED, THREE, THREE_INVERTED, TWO, WIDER};
use y4m_stream::{ReadFault, WriteFault};

/// The three frames, each turned by half a turn.
const TURNED: &[u8] =
    b"YUV4MPEG2 W2 H2 Cmono\nFRAME\n\xff\xfe\x01\x00FRAME\n\x40\x30\x20\x10FRAME\nMARF";

/// The first two images by `invert`.
const TWO_INVERTED: &[u8] =
    b"YUV4MPEG2 W2 H2 Cmono\nFRAME\n\xff\xfe\x01\x00FRAME\n\xef\xdf\xcf\xbf";

/// The first image, and the beginning of the second.
const BROKEN: &[u8] = b"YUV4MPEG2 W2 H2 Cmono\nFRAME\n\xff\xfe\x01\x00FRAME\n\xef";

/// Three frames that are inverted, and three that are turned.
pub(super) const PLAIN_THREE: Stream<'_> = Stream {
    input: THREE,
    breaks: false,
    plan: PLAIN,
};

pub(super) const TURNED_THREE: Stream<'_> = Stream {
    plan: Plan {
        ops: "hflip+vflip",
        ..PLAIN
    },
    ..PLAIN_THREE
};

/// What is told of a stream: why it stopped, how many frames were accepted, delivered and charged, and what
/// was written.
#[derive(Drop)]
pub(super) struct Told<'a> {
    pub(super) end: (Stop, u64, u64, u64),
    pub(super) written: &'a [u8],
}

pub(super) const WHOLE: Told<'_> = Told {
    end: (Stop::Whole, 3, 3, 3),
    written: THREE_INVERTED,
};

pub(super) const WHOLE_TURNED: Told<'_> = Told {
    end: (Stop::Whole, 3, 3, 6),
    written: TURNED,
};

/// The stream was served so.
pub(super) fn was_served(rt: &impl Abort, served: OneServed<'_>, told: &Told<'_>, name: &str) {
    let end = (
        served.stop,
        served.accepted,
        served.delivered,
        served.charged,
    );
    same_at(rt, end, told.end, name);
    let written = served.writer.into_inner().taken;
    same_at(rt, written.as_slice(), told.written, name);
}

/// The streams were served so.
pub(super) fn were_served(rt: &impl Abort, all: AllServed<'_>, wanted: &[Told<'_>], name: &str) {
    same_at(rt, all.len(), wanted.len(), name);
    for (served, told) in all.into_iter().zip(wanted) {
        was_served(rt, served, told, name);
    }
}

/// A session's streams, and what comes of them.
#[derive(Drop)]
pub(super) struct Session<'a> {
    pub(super) name: &'a str,
    pub(super) hall: Hall,
    pub(super) streams: &'a [Stream<'a>],
    pub(super) told: &'a [Told<'a>],
}

/// Serves a session, and compares what comes of it.
pub(super) fn goes(
    rt: &(impl Abort + Threads + Wait + Sync),
    alloc: Global,
    session: &Session<'_>,
) {
    let all = serve_all(rt, alloc, session.streams, session.hall).expect(rt, session.name);
    were_served(rt, all, session.told, session.name);
}

const SESSIONS: &[Session<'_>] = &[
    Session {
        name: "two streams are served",
        hall: WIDE,
        streams: &[PLAIN_THREE, TURNED_THREE],
        told: &[WHOLE, WHOLE_TURNED],
    },
    Session {
        name: "each stream stops by itself",
        hall: Hall { workers: 3, ..WIDE },
        streams: &[
            Stream {
                input: TWO,
                breaks: true,
                ..PLAIN_THREE
            },
            Stream {
                plan: Plan { room: 39, ..PLAIN },
                ..PLAIN_THREE
            },
            Stream {
                plan: Plan { frames: 1, ..PLAIN },
                ..PLAIN_THREE
            },
            Stream {
                input: CUT,
                ..PLAIN_THREE
            },
            PLAIN_THREE,
        ],
        told: &[
            Told {
                end: (Stop::Read(ReadFault::Device), 2, 2, 2),
                written: TWO_INVERTED,
            },
            Told {
                end: (Stop::Write(WriteFault::Device(39)), 3, 1, 3),
                written: BROKEN,
            },
            Told {
                end: (Stop::Refused(Cause::TooManyFrames), 1, 1, 1),
                written: ONE_INVERTED,
            },
            Told {
                end: (Stop::Read(ReadFault::Truncated), 1, 1, 1),
                written: ONE_INVERTED,
            },
            WHOLE,
        ],
    },
    Session {
        name: "a clock past its end stops all",
        hall: Hall {
            moment: (1 << 60) + 1,
            ..WIDE
        },
        streams: &[PLAIN_THREE, PLAIN_THREE],
        told: &[
            Told {
                end: (Stop::Refused(Cause::ClockEnd), 0, 0, 0),
                written: HEADER,
            },
            Told {
                end: (Stop::Refused(Cause::ClockEnd), 0, 0, 0),
                written: HEADER,
            },
        ],
    },
];

#[test]
fn each_session_comes_to_what_is_told(rt: HostRuntime) {
    for session in SESSIONS {
        goes(&rt, rt.alloc(), session);
    }
}

/// Two frames, and a line of 1,025 bytes with its line feed.
fn long_line(alloc: Global) -> Result<Vec<u8>, AllocError> {
    let mut long = TWO.to_vec(alloc)?;
    long.extend_from_slice(b"FRAME X")?;
    long.extend_from_slice(&[b'a'; 1017])?;
    long.extend_from_slice(b"\nabcd")?;
    Ok(long)
}

/// A line that is no frame line is told behind the frames before it, while another stream goes on.
#[test]
fn a_line_that_is_no_frame_line_stops_its_own_stream(rt: HostRuntime) {
    let long = long_line(rt.alloc()).expect(&rt, "a long line");
    let streams = [
        Stream {
            input: WIDER,
            ..PLAIN_THREE
        },
        Stream {
            input: &long,
            ..PLAIN_THREE
        },
        Stream {
            input: b"YUV4MPEG2 W2 H2 Cmono\nFRAMES\n\x00\x01\xfe\xff",
            ..PLAIN_THREE
        },
        PLAIN_THREE,
    ];
    let session = Session {
        name: "no frame line",
        hall: WIDE,
        streams: &streams,
        told: NO_FRAME_LINES,
    };
    goes(&rt, rt.alloc(), &session);
}

const NO_FRAME_LINES: &[Told<'_>] = &[
    Told {
        end: (Stop::Read(ReadFault::NotFrame), 1, 1, 1),
        written: ONE_INVERTED,
    },
    Told {
        end: (Stop::Read(ReadFault::LineTooLong), 2, 2, 2),
        written: TWO_INVERTED,
    },
    Told {
        end: (Stop::Read(ReadFault::NotFrame), 0, 0, 0),
        written: HEADER,
    },
    WHOLE,
];

/// Three frames, whose operations cost three units.
const DEAR: Stream<'_> = Stream {
    plan: Plan {
        ops: "blur:1+invert",
        ..PLAIN
    },
    ..PLAIN_THREE
};

const DEAR_STREAMS: &[Stream<'_>] = &[DEAR; 32];

#[test]
fn thirty_two_streams_and_sixteen_workers(rt: HostRuntime) {
    let hall = Hall {
        workers: 16,
        limit: 10_000,
        moment: 1 << 60,
    };
    let all = serve_all(&rt, rt.alloc(), DEAR_STREAMS, hall).expect(&rt, "the session");
    same_at(&rt, all.len(), 32, "how many streams");
    for served in all {
        let end = (
            served.stop,
            served.accepted,
            served.delivered,
            served.charged,
        );
        same_at(&rt, end, (Stop::Whole, 3, 3, 9), "a stream's end");
    }
}

/// A session whose workers are refused their threads ends too: `bench/threads` refuses them.
#[test]
fn a_session_without_threads_wants_memory(rt: HostRuntime) {
    match serve_all(&rt, rt.alloc(), &[PLAIN_THREE], WIDE) {
        Ok(all) => were_served(&rt, all, &[WHOLE], "with threads"),
        Err(fault) => same_at(&rt, fault, SessionFault::NoMemory, "without threads"),
    }
}

/// How many streams there are, how many entries there may be, and whether that is enough.
const LIMITS: &[(usize, usize, bool)] = &[
    (1, 15, false),
    (15, 16, false),
    (1, 1_048_577, false),
    (1, 16, true),
    (14, 16, true),
    (15, 17, true),
];

/// A session of so many streams without frames, with room for so many entries.
fn limited(
    rt: &(impl Abort + Threads + Wait + Sync),
    alloc: Global,
    streams: usize,
    limit: usize,
) -> Result<(), SessionFault> {
    let empty = Stream {
        input: HEADER,
        ..PLAIN_THREE
    };
    let hall = Hall {
        workers: 8,
        limit,
        ..WIDE
    };
    let streams = vec![in alloc; empty; streams].expect(rt, "the streams");
    for served in serve_all(rt, alloc, &streams, hall)? {
        was_served(rt, served, &NO_FRAMES, "a limit");
    }
    Ok(())
}

const NO_FRAMES: Told<'_> = Told {
    end: (Stop::Whole, 0, 0, 0),
    written: HEADER,
};

#[test]
fn a_journal_has_limits(rt: HostRuntime) {
    for (streams, limit, is_enough) in LIMITS {
        let wanted = if *is_enough {
            Ok(())
        } else {
            Err(SessionFault::BadLimit)
        };
        let came = limited(&rt, rt.alloc(), *streams, *limit);
        same_at(&rt, came, wanted, *limit);
    }
}

/// How many of two streams are served, or come back with no frame read of them.
fn kept_or_served(
    rt: &(impl Abort + Threads + Wait + Sync),
    alloc: Global,
    limit: usize,
) -> (usize, Option<SessionFault>) {
    let (specs, inputs) = all_opened(rt, alloc, &[PLAIN_THREE, PLAIN_THREE]);
    let setup = Setup::new(1, 4, specs).expect(rt, "no setup");
    match serve_session_or_return(rt, alloc, setup, inputs, limit, &Open, &Still(0)) {
        Ok(served) => (served.len(), None),
        Err(Unended::Unopened(fault, inputs)) => (inputs.len(), Some(fault)),
        Err(Unended::Unbegun(streams)) => (streams.len(), Some(SessionFault::NoMemory)),
        Err(Unended::Mismatch) => (0, Some(SessionFault::Mismatch)),
    }
}

#[test]
fn a_session_that_cannot_begin_returns_its_inputs(rt: HostRuntime) {
    let came = kept_or_served(&rt, rt.alloc(), 15);
    same_at(&rt, came, (2, Some(SessionFault::BadLimit)), "the inputs");
}

/// It holds whichever growth is refused: `bench/growths` refuses each in turn.
#[test]
fn no_input_is_lost_where_memory_is_refused(rt: HostRuntime) {
    let (kept, _) = kept_or_served(&rt, rt.alloc(), 1000);
    same_at(&rt, kept, 2, "the streams");
}
