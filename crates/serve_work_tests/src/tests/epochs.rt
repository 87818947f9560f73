//! Sessions that go on from epoch to epoch, since their journals are short.
use super::many::{AllServed, Hall, OneServed, Stream, WIDE, serve_all, serve_by};
use super::sessions::Counting;
use super::stops::{
    PLAIN_THREE, Session, TURNED_THREE, Told, WHOLE, WHOLE_TURNED, goes, was_served,
};
use super::{Open, PLAIN, Plan, same_at};
use serve_work::{Cause, SessionFault, Stop};
use std::alloc::{AllocError, Global};
use std::process::Abort;
use std::sync::Wait;
use std::sync::atomic::{AtomicU64, Ordering};
use std::thread::Threads;
use test_tools::streams::{HEADER, ONE, ONE_INVERTED, numbered};
use y4m_stream::{ReadFault, WriteFault};

/// Sessions of two streams. The history of the first has 32 entries: six offers, two closes and six
/// collections, and nine leases with as many settlements.
const SESSIONS: &[Session<'_>] = &[
    Session {
        name: "two streams are whole",
        hall: WIDE,
        streams: &[PLAIN_THREE, TURNED_THREE],
        told: &[WHOLE, WHOLE_TURNED],
    },
    Session {
        name: "a writer takes the header line alone",
        hall: WIDE,
        streams: &[
            Stream {
                plan: Plan { room: 22, ..PLAIN },
                ..PLAIN_THREE
            },
            TURNED_THREE,
        ],
        told: &[
            Told {
                end: (Stop::Write(WriteFault::Device(22)), 3, 0, 3),
                written: HEADER,
            },
            WHOLE_TURNED,
        ],
    },
    Session {
        name: "a reader fails behind its first frame",
        hall: WIDE,
        streams: &[
            Stream {
                input: ONE,
                breaks: true,
                ..PLAIN_THREE
            },
            TURNED_THREE,
        ],
        told: &[
            Told {
                end: (Stop::Read(ReadFault::Device), 1, 1, 1),
                written: ONE_INVERTED,
            },
            WHOLE_TURNED,
        ],
    },
];

/// The session, over journals of so many entries.
fn goes_within(
    rt: &(impl Abort + Threads + Wait + Sync),
    alloc: Global,
    session: &Session<'_>,
    limit: usize,
) {
    let name = format!(in alloc; "{}, {limit} entries", session.name).expect(rt, session.name);
    let short = Session {
        name: &name,
        hall: Hall {
            limit,
            moment: 7,
            ..WIDE
        },
        streams: session.streams,
        told: session.told,
    };
    goes(rt, alloc, &short);
}

/// The session, over long journals and short ones.
fn goes_within_each(
    rt: &(impl Abort + Threads + Wait + Sync),
    alloc: Global,
    session: &Session<'_>,
) {
    goes(rt, alloc, session);
    for limit in 16..33 {
        goes_within(rt, alloc, session, limit);
    }
}

/// The sessions come to the same whatever the journal's limit is, from the least on.
#[test]
fn short_journals_change_nothing(rt: HostRuntime) {
    for session in SESSIONS {
        goes_within_each(&rt, rt.alloc(), session);
    }
}

const ONE_WHOLE: Told<'_> = Told {
    end: (Stop::Whole, 1, 1, 1),
    written: ONE_INVERTED,
};

const ONE_FRAME: Stream<'_> = Stream {
    input: ONE,
    ..PLAIN_THREE
};

const FOURTEEN: &[Stream<'_>] = &[ONE_FRAME; 14];

/// Where fourteen of sixteen entries are kept for closes, an epoch has place for two others.
#[test]
fn fourteen_streams_share_sixteen_entries(rt: HostRuntime) {
    let hall = Hall {
        workers: 8,
        limit: 16,
        ..WIDE
    };
    let all = serve_all(&rt, rt.alloc(), FOURTEEN, hall).expect(&rt, "the session");
    same_at(&rt, all.len(), 14, "how many streams");
    for served in all {
        was_served(&rt, served, &ONE_WHOLE, "16 entries");
    }
}

/// A stream of these frames, and others that stop behind fifteen of them, in the eighteenth image, in a
/// twenty-first frame, and at the end.
fn faulty<'a>(whole: &'a [u8], cut: &'a [u8]) -> [Stream<'a>; 5] {
    let all = Stream {
        input: whole,
        ..PLAIN_THREE
    };
    let few = Plan {
        frames: 15,
        ..PLAIN
    };
    let narrow = Plan { room: 195, ..PLAIN };
    [
        all,
        Stream { plan: few, ..all },
        Stream {
            plan: narrow,
            ..all
        },
        Stream { input: cut, ..all },
        Stream {
            breaks: true,
            ..all
        },
    ]
}

/// What is told of these streams.
fn told_of(images: &[u8]) -> [Told<'_>; 5] {
    let whole = |stop| Told {
        end: (stop, 20, 20, 20),
        written: images,
    };
    [
        whole(Stop::Whole),
        Told {
            end: (Stop::Refused(Cause::TooManyFrames), 15, 15, 15),
            written: images.get(..172).unwrap_or(images),
        },
        Told {
            end: (Stop::Write(WriteFault::Device(195)), 20, 17, 20),
            written: images.get(..195).unwrap_or(images),
        },
        whole(Stop::Read(ReadFault::Truncated)),
        whole(Stop::Read(ReadFault::Device)),
    ]
}

/// Twenty frames, and the front of another one.
fn cut_late(alloc: Global) -> Result<Vec<u8>, AllocError> {
    let (mut cut, _) = numbered(alloc, 20)?;
    cut.extend_from_slice(b"FRAME\n\x01")?;
    Ok(cut)
}

/// What stops a stream in a later epoch is told as in the first one, behind all that came before it, and
/// other streams go on.
#[test]
fn faults_of_later_epochs_are_told(rt: HostRuntime) {
    let (whole, images) = numbered(rt.alloc(), 20).expect(&rt, "twenty frames");
    let cut = cut_late(rt.alloc()).expect(&rt, "a cut frame");
    for limit in [16, 17, 21, 40] {
        let session = Session {
            name: "later epochs",
            hall: Hall {
                workers: 3,
                limit,
                ..WIDE
            },
            streams: &faulty(&whole, &cut),
            told: &told_of(&images),
        };
        goes(&rt, rt.alloc(), &session);
    }
}

/// Serves the two streams by so many workers over epochs of 16 entries. Where memory or a worker's thread is
/// refused, that is told, and what was written is a front of the images. A session that tells it has asked
/// for no moment.
fn wants_memory_alone(rt: &(impl Abort + Threads + Wait + Sync), alloc: Global, workers: u64) {
    let hall = Hall {
        workers,
        limit: 16,
        ..WIDE
    };
    let clock = Counting(AtomicU64::new(0));
    match serve_by(rt, alloc, BOTH, hall, &Open, &clock) {
        Ok(all) => each_wants_memory_alone(rt, all),
        Err(fault) => {
            let asked = clock.0.load(Ordering::SeqCst);
            same_at(
                rt,
                (fault, asked),
                (SessionFault::NoMemory, 0),
                "the session",
            );
        }
    }
}

/// The two streams, and what comes of them.
const BOTH: &[Stream<'_>] = &[PLAIN_THREE, TURNED_THREE];

const BOTH_WHOLE: &[Told<'_>] = &[WHOLE, WHOLE_TURNED];

/// Each of the two is whole, or stopped for want of memory.
fn each_wants_memory_alone(rt: &impl Abort, all: AllServed<'_>) {
    for (served, whole) in all.into_iter().zip(BOTH_WHOLE) {
        if served.stop == Stop::Whole {
            was_served(rt, served, whole, "a whole stream");
        } else {
            wants_memory(rt, served, whole.written);
        }
    }
}

/// The stream stopped for want of memory, and a front of the images was written.
fn wants_memory(rt: &impl Abort, served: OneServed<'_>, images: &[u8]) {
    let stop = served.stop;
    let is_refused = matches!(
        stop,
        Stop::Refused(Cause::NoMemory) | Stop::Read(ReadFault::NoMemory)
    );
    same_at(rt, (stop, is_refused), (stop, true), "a stream that stops");
    let written = served.writer.into_inner().taken;
    let front = images.get(..written.len());
    same_at(rt, front, Some(written.as_slice()), "a stream that stops");
}

/// It holds whichever growth is refused: `bench/growths` refuses each in turn.
#[test]
fn a_refused_growth_of_any_epoch_is_told(rt: HostRuntime) {
    wants_memory_alone(&rt, rt.alloc(), 2);
}

/// In a later epoch those of sixteen workers go on whose threads are granted: `bench/threads` refuses some.
#[test]
fn sixteen_workers_go_on_with_those_that_start(rt: HostRuntime) {
    let session = Session {
        name: "sixteen workers",
        hall: Hall {
            workers: 16,
            limit: 16,
            ..WIDE
        },
        streams: BOTH,
        told: BOTH_WHOLE,
    };
    goes(&rt, rt.alloc(), &session);
}
