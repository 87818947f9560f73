//! Events with the replies that were worked out by hand, through `run` and through `Machine::step`.
mod accounts;
mod admissions;
mod desks;
mod ends;
mod fullest;
mod leases;
mod memory;
mod refusals;
mod setups;
mod tally;

use filters::{Chain, parse_ops};
use frame_view::{Frame, Geometry};
use lease::JobSpec;
use row_bands::BandHeight;
use serve_core::{Counts, Event, Machine, Refusal, Reply, Setup, StreamSpec, run};
use std::alloc::Global;
use std::fmt::{Debug, Display};
use std::process::Abort;
use std::sync::Arc;
use std::test::Fail;
use y4m_header::{Chroma, check_frame_line};

/// The line of each frame here, and so of each image.
const LINE: &[u8] = b"FRAME Ip";

/// The size of a mono frame.
#[derive(Clone, Copy)]
enum Size {
    /// One sample.
    Dot,
    /// One row of 2 samples.
    Pair,
    /// One column of 10 samples.
    Column,
}

/// What a stream is served with: its account is (Q, T), and `rows` is the height of its bands.
#[derive(Clone, Copy)]
struct Served<'a> {
    size: Size,
    ops: &'a str,
    rows: u32,
    account: (u64, u64),
    queue: u64,
    outbox: u64,
    frames: u64,
}

/// A stream of single samples.
const PLAIN: Served<'static> = Served {
    size: Size::Dot,
    ops: "invert",
    rows: 16,
    account: (2, 10),
    queue: 4,
    outbox: 4,
    frames: 1 << 24,
};

/// What a machine is made for.
#[derive(Clone, Copy)]
struct Plan<'a> {
    workers: u64,
    quantum: u64,
    streams: &'a [Served<'a>],
}

/// An event, a frame told by its size and its samples.
#[derive(Clone, Copy)]
enum Asked<'a> {
    Arrive(u32, Size, &'a [u8]),
    Lease(u32),
    Band(u32),
    Settle(u32),
    Tick(u64),
    Close(u32),
    Collect(u32),
    Admit(&'a Served<'a>),
}

/// A reply, a frame and an image told by its line and its samples.
#[derive(Clone, Copy, Debug, PartialEq, Eq)]
enum Told<'a> {
    Accepted(u64),
    Leased(u32, u64, u32),
    Stepped,
    Returned,
    Finished(u64),
    Ticked,
    Closing,
    Image(&'a [u8], &'a [u8]),
    Refused(Refusal),
    GivenBack(Refusal, &'a [u8], &'a [u8]),
    Admitted(u32),
    /// With the queue and the outbox of the spec that comes back.
    SpecBack(Refusal, u64, u64),
}

/// A line of a script: an event and its reply, or what a stream stands at by now, as [`state_of`] tells it.
#[derive(Clone, Copy)]
enum Line<'a> {
    Asks(Asked<'a>, Told<'a>),
    Stands(u32, [u64; 6]),
}

/// Compares what a call gave with what is wanted. Beside a machine a branch is dear to prove: a call of this
/// is none, and `assert_eq!` is one.
fn same<T: PartialEq + Debug + Drop>(rt: &impl Abort, got: T, want: T) {
    assert_eq!(rt; got, want);
}

/// Compares what a call gave with what is wanted, and tells where it was.
fn same_at<T: PartialEq + Debug + Drop, P: Display + Drop>(
    rt: &impl Abort,
    got: T,
    want: T,
    place: P,
) {
    assert_eq!(rt; got, want, "at {place}");
}

/// Compares what calls gave with what is wanted where their memory was there, and where it was refused.
fn same_either<T: PartialEq + Debug + Drop>(rt: &impl Abort, got: T, given: T, refused: T) {
    assert!(rt;
        got == given || got == refused,
        "{got:?} is neither {given:?} nor {refused:?}"
    );
}

fn geometry_of(size: Size) -> Geometry {
    let (width, height) = match size {
        Size::Dot => (1, 1),
        Size::Pair => (2, 1),
        Size::Column => (1, 10),
    };
    Geometry {
        width,
        height,
        chroma: Chroma::Mono,
    }
}

fn spec_of(alloc: Global, served: &Served<'_>) -> Result<StreamSpec, Fail> {
    let geometry = geometry_of(served.size);
    let band_height = BandHeight::new(served.rows).ok_or("no height")?;
    let ops = parse_ops(alloc, served.ops.as_bytes())?;
    let chain = Chain::new(alloc, ops, geometry, band_height)?;
    let (q, t) = served.account;
    Ok(StreamSpec::new(
        geometry,
        Arc::new(alloc, JobSpec::new(chain))?,
        q,
        t,
        served.queue,
        served.outbox,
        served.frames,
    ))
}

fn specs_of(alloc: Global, streams: &[Served<'_>]) -> Result<Vec<StreamSpec>, Fail> {
    let mut specs = Vec::new(alloc);
    for served in streams {
        specs.push(spec_of(alloc, served)?)?;
    }
    Ok(specs)
}

fn setup_of(alloc: Global, plan: &Plan<'_>) -> Result<Setup, Fail> {
    Ok(Setup::new(plan.workers, plan.quantum, specs_of(alloc, plan.streams)?)?)
}

fn frame_of(alloc: Global, size: Size, samples: &[u8]) -> Result<Arc<Frame>, Fail> {
    check_frame_line(LINE)?;
    let frame = Frame::new(
        geometry_of(size),
        LINE.to_vec(alloc)?,
        samples.to_vec(alloc)?,
    )?;
    Ok(Arc::new(alloc, frame)?)
}

fn event_of(alloc: Global, asked: &Asked<'_>) -> Result<Event, Fail> {
    Ok(match *asked {
        Asked::Arrive(s, size, samples) => Event::Arrive(s, frame_of(alloc, size, samples)?),
        Asked::Lease(w) => Event::Lease(w),
        Asked::Band(w) => Event::Band(w),
        Asked::Settle(w) => Event::Settle(w),
        Asked::Tick(to) => Event::Tick(to),
        Asked::Close(s) => Event::Close(s),
        Asked::Collect(s) => Event::Collect(s),
        Asked::Admit(served) => Event::Admit(spec_of(alloc, served)?),
    })
}

/// What a reply holds.
fn content_of(reply: &Reply) -> Told<'_> {
    match reply {
        Reply::Accepted(number) => Told::Accepted(*number),
        Reply::Leased(s, number, grant) => Told::Leased(*s, *number, *grant),
        Reply::Stepped => Told::Stepped,
        Reply::Returned => Told::Returned,
        Reply::Finished(number) => Told::Finished(*number),
        Reply::Ticked => Told::Ticked,
        Reply::Closing => Told::Closing,
        Reply::Image(image) => Told::Image(image.line(), image.data()),
        Reply::Refused(refusal) => Told::Refused(*refusal),
        Reply::GivenBack(refusal, frame) => Told::GivenBack(*refusal, frame.line(), frame.data()),
        Reply::Admitted(s) => Told::Admitted(*s),
        Reply::SpecBack(refusal, spec) => Told::SpecBack(*refusal, spec.queue(), spec.outbox()),
    }
}

/// Budget, deadline, and how many frames were accepted, finished and collected, and what was charged.
fn state_of(machine: &Machine, s: u32) -> Option<[u64; 6]> {
    state(machine.account(s), machine.counts(s))
}

fn state(account: Option<(u64, u64)>, counts: Option<Counts>) -> Option<[u64; 6]> {
    let (budget, deadline) = account?;
    let counts = counts?;
    Some([
        budget,
        deadline,
        counts.accepted,
        counts.finished,
        counts.collected,
        counts.charged,
    ])
}

fn events_of(alloc: Global, script: &[Line<'_>]) -> Result<Vec<Event>, Fail> {
    let mut events = Vec::new(alloc);
    for line in script {
        if let Line::Asks(asked, _) = line {
            events.push(event_of(alloc, asked)?)?;
        }
    }
    Ok(events)
}

/// All replies to the events of a script that is run at once.
fn replies_to(alloc: Global, plan: &Plan<'_>, script: &[Line<'_>]) -> Result<Vec<Reply>, Fail> {
    let setup = setup_of(alloc, plan)?;
    Ok(run(alloc, setup, events_of(alloc, script)?)?)
}

/// Whether the replies are those of a script.
fn are_told(replies: &[Reply], script: &[Line<'_>]) -> bool {
    let mut left = replies.iter();
    for line in script {
        if let Line::Asks(_, wanted) = line {
            match left.next() {
                Some(reply) if content_of(reply) == *wanted => {}
                _ => return false,
            }
        }
    }
    left.next().is_none()
}

/// Runs the events of a script at once.
fn runs(rt: &impl Abort, alloc: Global, plan: &Plan<'_>, script: &[Line<'_>]) -> Result<(), Fail> {
    let replies = replies_to(alloc, plan, script)?;
    same(rt, are_told(&replies, script), true);
    Ok(())
}

/// Runs a script line by line, and reads what streams stand at.
fn steps(rt: &impl Abort, alloc: Global, plan: &Plan<'_>, script: &[Line<'_>]) -> Result<(), Fail> {
    let mut machine = Machine::new(alloc, setup_of(alloc, plan)?)?;
    for (i, line) in script.iter().enumerate() {
        match line {
            Line::Asks(asked, wanted) => {
                let event = event_of(alloc, asked)?;
                answers(rt, alloc, &mut machine, event, *wanted, i);
            }
            Line::Stands(s, wanted) => {
                same_at(rt, state_of(&machine, *s), Some(*wanted), i);
            }
        }
    }
    Ok(())
}

fn answers(
    rt: &impl Abort,
    alloc: Global,
    machine: &mut Machine,
    event: Event,
    wanted: Told<'_>,
    i: usize,
) {
    let reply = machine.step(alloc, event);
    same_at(rt, content_of(&reply), wanted, i);
}

/// Runs a script in both ways, and tells a tally of it.
fn serves(
    rt: &impl Abort,
    alloc: Global,
    plan: &Plan<'_>,
    script: &[Line<'_>],
) -> Result<(), Fail> {
    runs(rt, alloc, plan, script)?;
    steps(rt, alloc, plan, script)?;
    tally::follows(rt, alloc, plan, script)
}
