//! Streams that are admitted while the machine runs, and those that leave their share.
use super::Asked::{Admit, Arrive, Band, Close, Collect, Lease, Settle, Tick};
use super::Line::{self, Asks, Stands};
use super::Size::Dot;
use super::Told::{
    Accepted, Admitted, Closing, Finished, GivenBack, Image, Leased, Refused, SpecBack, Stepped,
    Ticked,
};
use super::{LINE, PLAIN, Plan, Served, same, serves, setup_of, spec_of};
use serve_core::{Desk, Newcomer, Refusal, StreamSpec};
use std::alloc::Global;
use std::process::Abort;
use std::test::Fail;

/// Half of a worker.
const HALF: Served<'static> = Served {
    account: (1, 2),
    ..PLAIN
};

/// The 64th part of a worker.
const SMALL: Served<'static> = Served {
    account: (1, 64),
    ..PLAIN
};

/// More than a whole worker.
const EXCESS: Served<'static> = Served {
    account: (2, 1),
    ..PLAIN
};

/// A whole worker.
const HALVES: Plan<'static> = Plan {
    workers: 1,
    quantum: 4,
    streams: &[HALF, HALF],
};

const SCRIPTS: &[(Plan<'_>, &[Line<'_>])] = &[
    // A share is held up to the deadline.
    // The image is collected at once, but the stream's deadline is 4.
    (
        HALVES,
        &[
            Asks(Arrive(0, Dot, &[0x00]), Accepted(0)),
            Asks(Lease(0), Leased(0, 0, 1)),
            Asks(Band(0), Stepped),
            Asks(Settle(0), Finished(0)),
            Asks(Close(0), Closing),
            Asks(Collect(0), Image(LINE, &[0xFF])),
            Asks(Admit(&HALF), SpecBack(Refusal::Overload, 4, 4)),
            Asks(Tick(3), Ticked),
            Asks(Admit(&HALF), SpecBack(Refusal::Overload, 4, 4)),
            Asks(Tick(4), Ticked),
            Asks(Admit(&HALF), Admitted(2)),
            Asks(Admit(&HALF), SpecBack(Refusal::Overload, 4, 4)),
            Stands(2, [1, 0, 0, 0, 0, 0]),
            Asks(Arrive(2, Dot, &[0x01]), Accepted(0)),
            Asks(Lease(0), Leased(2, 0, 1)),
            Asks(Band(0), Stepped),
            Asks(Settle(0), Finished(0)),
            Asks(Collect(2), Image(LINE, &[0xFE])),
            Stands(2, [1, 8, 1, 1, 1, 1]),
            Asks(Collect(0), Refused(Refusal::Drained)),
        ],
    ),
    // A stream without frames leaves its share at its close.
    (
        HALVES,
        &[
            Asks(Close(0), Closing),
            Asks(Admit(&HALF), Admitted(2)),
            Asks(
                Arrive(0, Dot, &[0x00]),
                GivenBack(Refusal::Closed, LINE, &[0x00]),
            ),
        ],
    ),
    // No more than 64 streams are numbered.
    (
        Plan {
            streams: &[SMALL; 64],
            ..HALVES
        },
        &[
            Asks(Close(0), Closing),
            Asks(Admit(&SMALL), SpecBack(Refusal::TooManyStreams, 4, 4)),
            Asks(
                Admit(&Served { queue: 0, ..EXCESS }),
                SpecBack(Refusal::TooManyStreams, 0, 4),
            ),
        ],
    ),
    // A stream is refused for its first fault.
    (
        HALVES,
        &[
            Asks(
                Admit(&Served { queue: 0, ..EXCESS }),
                SpecBack(Refusal::BadLimits, 0, 4),
            ),
            Asks(Admit(&EXCESS), SpecBack(Refusal::BadBandwidth, 4, 4)),
            Asks(Admit(&HALF), SpecBack(Refusal::Overload, 4, 4)),
        ],
    ),
];

#[test]
fn streams_are_admitted_and_leave_their_shares(rt: HostRuntime) -> Result<(), Fail> {
    for (plan, script) in SCRIPTS {
        serves(&rt, rt.alloc(), plan, script)?;
    }
    Ok(())
}

fn desk_of(alloc: Global) -> Result<Desk, Fail> {
    Ok(Desk::new(alloc, setup_of(alloc, &HALVES)?)?)
}

fn newcomer_of(alloc: Global, served: &Served<'_>) -> Result<Newcomer, Fail> {
    match Newcomer::new(alloc, spec_of(alloc, served)?) {
        Ok(newcomer) => Ok(newcomer),
        Err((refusal, _)) => Err(refusal.into()),
    }
}

/// The number of a stream that a desk admits, or why it doesn't.
fn entered(alloc: Global, desk: &mut Desk, spec: StreamSpec) -> Result<u32, Refusal> {
    match desk.admit(alloc, spec) {
        Ok(s) => Ok(s),
        Err((refusal, _)) => Err(refusal),
    }
}

/// The number of the stream that a desk admits as this newcomer, or why it doesn't.
fn joined(desk: &mut Desk, newcomer: Newcomer) -> Result<u32, Refusal> {
    match desk.admit_newcomer(newcomer) {
        Ok(s) => Ok(s),
        Err((refusal, _)) => Err(refusal),
    }
}

/// A desk gives a spec back, since no half is left, and admits it once both streams are closed.
fn admits_at_last(rt: &impl Abort, alloc: Global, desk: &mut Desk, half: StreamSpec) {
    same(rt, desk.admit_refusal(&half), Some(Refusal::Overload));
    match desk.admit(alloc, half) {
        Ok(_) => same(rt, "a half was left", ""),
        Err((refusal, half)) => {
            same(rt, (refusal, desk.streams()), (Refusal::Overload, 2));
            admits_behind_closed(rt, alloc, desk, half);
        }
    }
}

fn admits_behind_closed(rt: &impl Abort, alloc: Global, desk: &mut Desk, half: StreamSpec) {
    let _closed = (desk.close(0), desk.close(1));
    same(rt, desk.admit_refusal(&half), None);
    same(rt, entered(alloc, desk, half), Ok(2));
}

/// The other half is left for a newcomer.
fn joins(rt: &impl Abort, desk: &mut Desk, newcomer: Newcomer) {
    same(rt, newcomer.spec().queue(), 4);
    same(rt, joined(desk, newcomer), Ok(3));
    let accounts = (desk.account(3), desk.account(4));
    same(rt, (desk.streams(), accounts), (4, (Some((1, 0)), None)));
}

#[test]
fn a_desk_admits_two_streams(rt: HostRuntime) -> Result<(), Fail> {
    let alloc = rt.alloc();
    let half = spec_of(alloc, &HALF)?;
    let newcomer = newcomer_of(alloc, &HALF)?;
    let mut desk = desk_of(alloc)?;
    admits_at_last(&rt, alloc, &mut desk, half);
    joins(&rt, &mut desk, newcomer);
    Ok(())
}

/// What comes back of a newcomer for which no share is left.
fn comes_back(rt: &impl Abort, desk: &mut Desk, newcomer: Newcomer) {
    match desk.admit_newcomer(newcomer) {
        Ok(_) => same(rt, "a share was left", ""),
        Err((refusal, newcomer)) => {
            let spec = newcomer.into_spec();
            let back = (refusal, desk.streams(), spec.queue(), spec.outbox());
            same(rt, back, (Refusal::Overload, 2, 4, 4));
        }
    }
}

#[test]
fn a_newcomer_comes_back(rt: HostRuntime) -> Result<(), Fail> {
    let newcomer = newcomer_of(rt.alloc(), &SMALL)?;
    let mut desk = desk_of(rt.alloc())?;
    comes_back(&rt, &mut desk, newcomer);
    Ok(())
}

/// Why a spec makes no newcomer, and the queue of the spec that comes back.
fn refused(alloc: Global, served: &Served<'_>) -> Result<Option<(Refusal, u64)>, Fail> {
    match Newcomer::new(alloc, spec_of(alloc, served)?) {
        Ok(_) => Ok(None),
        Err((refusal, spec)) => Ok(Some((refusal, spec.queue()))),
    }
}

#[test]
fn a_spec_that_no_stream_may_have_comes_back(rt: HostRuntime) -> Result<(), Fail> {
    for (served, wanted) in [
        (EXCESS, Refusal::BadBandwidth),
        (Served { queue: 0, ..HALF }, Refusal::BadLimits),
        (Served { queue: 0, ..EXCESS }, Refusal::BadLimits),
    ] {
        let back = refused(rt.alloc(), &served)?;
        same(&rt, back, Some((wanted, served.queue)));
    }
    Ok(())
}
