//! Books and hubs that are called in turn, with the answers that were worked out by hand, and hubs that
//! threads call at once.
mod admissions;
mod calls;
mod clients;
mod ends;
mod epochs;
mod full;
mod hubs;
mod jobs;
mod leases;
mod missing;
mod newcomers;
mod replayed;
mod retired;
mod seated;
mod seats;
mod soon;
mod steps;
mod telling;
mod threads;
mod twins;
mod waking;

use self::steps::Answer;
use filters::{Chain, parse_ops};
use frame_view::{Frame, Geometry};
use lease::{JobSpec, Lease};
use row_bands::BandHeight;
use serve_core::{Counts, Refusal as Core, Setup, StreamSpec};
use serve_hub::{Book, Refusal, Settled};
use std::alloc::Global;
use std::fmt::Debug;
use std::process::Abort;
use std::sync::Arc;
use std::test::Fail;
use y4m_header::{Chroma, check_frame_line};

/// The line of each frame here, and so of each image.
const LINE: &[u8] = b"FRAME";

/// The size of a mono frame: one column.
#[derive(Clone, Copy, Debug)]
enum Size {
    /// One sample.
    Dot,
    /// Four samples.
    Tall,
}

/// What one stream is served with.
#[derive(Clone, Copy, Debug)]
struct Served<'a> {
    size: Size,
    ops: &'a str,
    rows: u32,
    account: (u64, u64),
    queue: u64,
    outbox: u64,
}

/// A stream of single samples.
const PLAIN: Served<'static> = Served {
    size: Size::Dot,
    ops: "invert",
    rows: 16,
    account: (1, 4),
    queue: 16,
    outbox: 4,
};

/// Compares what a call gave with what is wanted. Beside a hub or a book a branch is dear to prove: a call of
/// this is none, and `assert_eq!` is one.
fn same<T: PartialEq + Debug + Drop>(rt: &impl Abort, got: T, want: T) {
    assert_eq!(rt; got, want);
}

/// The same, and tells where it was.
fn same_at<T: PartialEq + Debug + Drop, P: Debug + Drop>(
    rt: &impl Abort,
    got: T,
    want: T,
    place: P,
) {
    assert_eq!(rt; got, want, "at {place:?}");
}

/// Compares a list with the one that is wanted.
fn same_list<T: PartialEq + Debug>(rt: &impl Abort, got: &[T], want: &[T]) {
    assert_eq!(rt; got, want);
}

fn geometry_of(size: Size) -> Geometry {
    let height = match size {
        Size::Dot => 1,
        Size::Tall => 4,
    };
    Geometry {
        width: 1,
        height,
        chroma: Chroma::Mono,
    }
}

fn job_spec_of(alloc: Global, served: &Served<'_>) -> Result<Arc<JobSpec>, Fail> {
    let band_height = BandHeight::new(served.rows).ok_or("no height")?;
    let ops = parse_ops(alloc, served.ops.as_bytes())?;
    let chain = Chain::new(alloc, ops, geometry_of(served.size), band_height)?;
    Ok(Arc::new(alloc, JobSpec::new(chain))?)
}

fn setup_of(alloc: Global, workers: u64, streams: &[Served<'_>]) -> Result<Setup, Fail> {
    let mut specs = Vec::new(alloc);
    for served in streams {
        specs.push(stream_spec_of(alloc, served)?)?;
    }
    Ok(Setup::new(workers, 4, specs)?)
}

fn stream_spec_of(alloc: Global, served: &Served<'_>) -> Result<StreamSpec, Fail> {
    let (q, t) = served.account;
    let spec = job_spec_of(alloc, served)?;
    Ok(StreamSpec::new(
        geometry_of(served.size),
        spec,
        q,
        t,
        served.queue,
        served.outbox,
        1 << 24,
    ))
}

/// A book of one worker and at most 16 entries.
fn book_of(alloc: Global, streams: &[Served<'_>]) -> Result<Book, Fail> {
    Ok(Book::new(alloc, setup_of(alloc, 1, streams)?, 16)?)
}

fn frame_of(alloc: Global, samples: &[u8]) -> Result<Arc<Frame>, Fail> {
    check_frame_line(LINE)?;
    let size = match samples.len() {
        1 => Size::Dot,
        4 => Size::Tall,
        _ => return Err("no frame".into()),
    };
    let frame = Frame::new(
        geometry_of(size),
        LINE.to_vec(alloc)?,
        samples.to_vec(alloc)?,
    )?;
    Ok(Arc::new(alloc, frame)?)
}

/// Offers a frame, which comes back where it is refused.
fn offered(
    alloc: Global,
    book: &mut Book,
    s: u32,
    at: u64,
    samples: &[u8],
) -> Result<Answer, Fail> {
    match book.offer(alloc, s, at, frame_of(alloc, samples)?) {
        Ok(number) => Ok(Answer::Accepted(number)),
        Err((refusal, frame)) => came_back(refusal, &frame, samples),
    }
}

/// The answer of an offer whose frame came back.
fn came_back(refusal: Refusal, frame: &Frame, samples: &[u8]) -> Result<Answer, Fail> {
    if frame.data() == samples {
        Ok(Answer::Refused(refusal))
    } else {
        Err("another frame came back".into())
    }
}

/// The first sample of the source and of the image that stream `s` gives.
fn collected(book: &mut Book, s: u32) -> Answer {
    match book.collect(s) {
        Ok(pair) => {
            let source = pair.source.data().first().copied();
            Answer::Given(source, pair.image.data().first().copied())
        }
        Err(refusal) => Answer::Refused(refusal),
    }
}

/// What is told of a book's end: how many entries it has, how many bands its first worker settled and what
/// they cost, and what its first stream stands at.
type Told = (usize, u64, Option<u64>, Option<[u64; 6]>);

/// What is told of this book. Beside it a comparison is dear to prove, and beside this cheap.
fn told_of(book: &Book) -> Told {
    let state = state_of(book.desk().account(0), book.desk().counts(0));
    (book.journal().len(), book.bands(0), book.units(0), state)
}

/// A lease that is settled after this many bands.
fn worked(book: &mut Book, w: u32, bands: u32) -> Answer {
    let lease = match book.lease(w) {
        Ok(lease) => lease,
        Err(refusal) => return Answer::Refused(refusal),
    };
    let lent = told(&lease);
    match settled(book, w, stepped(lease, bands)) {
        Ok(done) => Answer::Worked(lent, done),
        Err(refusal) => Answer::Refused(refusal),
    }
}

/// Settles a lease. A refused one ends.
fn settled(book: &mut Book, w: u32, lease: Lease) -> Result<Settled, Refusal> {
    match book.settle(w, lease) {
        Ok(done) => Ok(done),
        Err((refusal, lease)) => {
            let _job = lease.into_job();
            Err(refusal)
        }
    }
}

/// Does bands of a lease.
fn stepped(lease: Lease, bands: u32) -> Lease {
    let mut lease = lease;
    for _ in 0..bands {
        let _spent = lease.step();
    }
    lease
}

/// The stream, the number and the grant of a lease.
fn told(lease: &Lease) -> (u32, u64, u32) {
    (lease.stream(), lease.number(), lease.granted())
}

/// Budget, deadline, and how many frames were accepted, finished and collected, and what was charged.
fn state_of(account: Option<(u64, u64)>, counts: Option<Counts>) -> Option<[u64; 6]> {
    let (budget, deadline) = account?;
    let counts = counts?;
    Some([
        budget,
        deadline,
        counts.accepted,
        counts.finished,
        counts.collected,
        counts.charged,
    ])
}
