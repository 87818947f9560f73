//! Journals that were written by hand, legal ones and those with one number changed, and the lines of entries.
mod books;
mod changed;
mod journals;
mod lines;
mod memory;

use filters::{Chain, parse_ops};
use frame_view::Geometry;
use lease::JobSpec;
use row_bands::BandHeight;
use serve_audit::{AuditFault, check_all};
use serve_core::{Counts, Setup, StreamSpec, Tally};
use serve_hub::{Act, Entry, Seat};
use std::alloc::Global;
use std::fmt::{Debug, Display};
use std::process::Abort;
use std::sync::Arc;
use std::test::Fail;
use y4m_header::Chroma;

/// The size of a frame, a mono column: of one sample, or of ten.
#[derive(Clone, Copy)]
enum Size {
    Dot,
    Tall,
}

/// What a stream is served with: its bands have 2 rows.
#[derive(Clone, Copy)]
struct Served {
    size: Size,
    account: (u64, u64),
    queue: u64,
    outbox: u64,
}

/// A stream of single samples.
const PLAIN: Served = Served {
    size: Size::Dot,
    account: (2, 10),
    queue: 4,
    outbox: 4,
};

/// What a machine is made for, and the streams that may be admitted later.
#[derive(Clone, Copy)]
struct Plan<'a> {
    workers: u64,
    streams: &'a [Served],
    later: &'a [Served],
}

/// Who made a call, and what it did.
type Call = (Seat, Act);

/// Where an audit ends: what it found, the moment, and what the first stream stands at. That is budget,
/// deadline, and how many frames were accepted, finished and collected, and what was charged.
type End = (Result<(), AuditFault>, u64, Option<[u64; 6]>);

/// Compares what a call gave with what is wanted. Beside a tally a branch is dear to prove: a call of this is
/// none, and `assert_eq!` is one.
fn same<T: PartialEq + Debug + Drop>(rt: &impl Abort, got: T, want: T) {
    assert_eq!(rt; got, want);
}

/// The same, and tells where it was.
fn same_at<T: PartialEq + Debug + Drop, P: Display + Drop>(
    rt: &impl Abort,
    got: T,
    want: T,
    place: P,
) {
    assert_eq!(rt; got, want, "at {place}");
}

fn geometry_of(size: Size) -> Geometry {
    let height = match size {
        Size::Dot => 1,
        Size::Tall => 10,
    };
    Geometry {
        width: 1,
        height,
        chroma: Chroma::Mono,
    }
}

fn spec_of(alloc: Global, served: &Served) -> Result<StreamSpec, Fail> {
    let geometry = geometry_of(served.size);
    let band_height = BandHeight::new(2).ok_or("no height")?;
    let chain = Chain::new(alloc, parse_ops(alloc, b"invert")?, geometry, band_height)?;
    let job = Arc::new(alloc, JobSpec::new(chain))?;
    let (q, t) = served.account;
    Ok(StreamSpec::new(geometry, job, q, t, served.queue, served.outbox, 1 << 24))
}

fn specs_of(alloc: Global, streams: &[Served], later: &[Served]) -> Result<Vec<StreamSpec>, Fail> {
    let mut specs = Vec::new(alloc);
    for served in streams.iter().chain(later) {
        specs.push(spec_of(alloc, served)?)?;
    }
    Ok(specs)
}

fn setup_of(alloc: Global, plan: &Plan<'_>) -> Result<Setup, Fail> {
    Ok(Setup::new(plan.workers, 4, specs_of(alloc, plan.streams, &[])?)?)
}

fn tally_of(alloc: Global, plan: &Plan<'_>) -> Result<Tally, Fail> {
    Ok(Tally::new(alloc, setup_of(alloc, plan)?)?)
}

fn entries_of(alloc: Global, calls: &[Call]) -> Result<Vec<Entry>, Fail> {
    let mut entries = Vec::new(alloc);
    for (seat, act) in calls {
        entries.push(Entry {
            seat: *seat,
            act: *act,
        })?;
    }
    Ok(entries)
}

fn state(account: Option<(u64, u64)>, counts: Option<Counts>) -> Option<[u64; 6]> {
    let (budget, deadline) = account?;
    let counts = counts?;
    Some([
        budget,
        deadline,
        counts.accepted,
        counts.finished,
        counts.collected,
        counts.charged,
    ])
}

/// Audits a journal from the opening of a plan on.
fn audited(alloc: Global, plan: &Plan<'_>, entries: &[Entry]) -> Result<End, Fail> {
    let specs = specs_of(alloc, plan.streams, plan.later)?;
    let mut tally = tally_of(alloc, plan)?;
    let found = check_all(&mut tally, &specs, entries);
    if found == Err(AuditFault::NoMemory) {
        return Err(AuditFault::NoMemory.into());
    }
    let stands = state(tally.account(0), tally.counts(0));
    Ok((found, tally.clock(), stands))
}
