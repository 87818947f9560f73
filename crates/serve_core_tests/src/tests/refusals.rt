//! Refusals, and which of several is told.
use super::Asked::{Arrive, Band, Close, Collect, Lease, Settle, Tick};
use super::Line::{self, Asks, Stands};
use super::Size::{Dot, Pair};
use super::Told::{Accepted, Closing, GivenBack, Leased, Refused, Ticked};
use super::{LINE, PLAIN, Plan, Served, same, serves};
use serve_core::{CoreError, Refusal, SetupError};
use std::alloc::{AllocError, Global};
use std::fmt::Display;
use std::process::Abort;
use std::test::Fail;

/// One frame of two samples may come at all.
const SCARCE: Served<'static> = Served {
    size: Pair,
    account: (1, 4),
    frames: 1,
    ..PLAIN
};

const SCRIPTS: &[(Plan<'_>, &[Line<'_>])] = &[
    // The clock ends and never goes back.
    (
        Plan {
            workers: 1,
            quantum: 4,
            streams: &[PLAIN],
        },
        &[
            Asks(Tick(0), Ticked),
            Asks(Tick(1_152_921_504_606_846_976), Ticked),
            Asks(Tick(1_152_921_504_606_846_977), Refused(Refusal::ClockEnd)),
            Asks(Tick(5), Refused(Refusal::Past)),
            Asks(Tick(1_152_921_504_606_846_976), Ticked),
        ],
    ),
    // Frames have a size and a number.
    (
        Plan {
            workers: 1,
            quantum: 4,
            streams: &[SCARCE],
        },
        &[
            Asks(
                Arrive(0, Dot, &[0x00]),
                GivenBack(Refusal::WrongSize, LINE, &[0x00]),
            ),
            Asks(Arrive(0, Pair, &[0x00, 0x01]), Accepted(0)),
            Asks(
                Arrive(0, Pair, &[0x00, 0x01]),
                GivenBack(Refusal::TooManyFrames, LINE, &[0x00, 0x01]),
            ),
            Asks(
                Arrive(1, Dot, &[0x00]),
                GivenBack(Refusal::NoStream, LINE, &[0x00]),
            ),
        ],
    ),
    // Streams and workers have their numbers.
    (
        Plan {
            workers: 2,
            quantum: 4,
            streams: &[PLAIN, PLAIN, PLAIN],
        },
        &[
            Asks(Close(3), Refused(Refusal::NoStream)),
            Asks(Collect(3), Refused(Refusal::NoStream)),
            Asks(Close(u32::MAX), Refused(Refusal::NoStream)),
            Asks(Lease(2), Refused(Refusal::NoWorker)),
            Asks(Band(2), Refused(Refusal::NoWorker)),
            Asks(Settle(2), Refused(Refusal::NoWorker)),
            Asks(Settle(u32::MAX), Refused(Refusal::NoWorker)),
            Asks(Lease(1), Refused(Refusal::NoneReady)),
            Asks(Band(1), Refused(Refusal::NoLease)),
            Asks(Settle(1), Refused(Refusal::NoLease)),
        ],
    ),
    // An arrival is refused by the first that holds.
    // The one place is taken by the one frame that may come.
    (
        Plan {
            workers: 1,
            quantum: 4,
            streams: &[Served { queue: 1, ..SCARCE }],
        },
        &[
            Asks(Arrive(0, Pair, &[0x00, 0x01]), Accepted(0)),
            Asks(
                Arrive(0, Dot, &[0x02]),
                GivenBack(Refusal::WrongSize, LINE, &[0x02]),
            ),
            Asks(
                Arrive(0, Pair, &[0x00, 0x01]),
                GivenBack(Refusal::TooManyFrames, LINE, &[0x00, 0x01]),
            ),
            Asks(Close(0), Closing),
            Asks(
                Arrive(0, Dot, &[0x02]),
                GivenBack(Refusal::Closed, LINE, &[0x02]),
            ),
            Asks(Lease(0), Leased(0, 0, 1)),
            Stands(0, [1, 4, 1, 0, 0, 0]),
        ],
    ),
];

#[test]
fn the_first_refusal_that_holds_is_told(rt: HostRuntime) -> Result<(), Fail> {
    for (plan, script) in SCRIPTS {
        serves(&rt, rt.alloc(), plan, script)?;
    }
    Ok(())
}

const REFUSALS: &[(Refusal, &str)] = &[
    (Refusal::NoStream, "NoStream"),
    (Refusal::Closed, "Closed"),
    (Refusal::WrongSize, "WrongSize"),
    (Refusal::TooManyFrames, "TooManyFrames"),
    (Refusal::Full, "Full"),
    (Refusal::NoMemory, "NoMemory"),
    (Refusal::NoWorker, "NoWorker"),
    (Refusal::Busy, "Busy"),
    (Refusal::NoneReady, "NoneReady"),
    (Refusal::NoLease, "NoLease"),
    (Refusal::GrantSpent, "GrantSpent"),
    (Refusal::Past, "Past"),
    (Refusal::ClockEnd, "ClockEnd"),
    (Refusal::AlreadyClosed, "AlreadyClosed"),
    (Refusal::Empty, "Empty"),
    (Refusal::Drained, "Drained"),
    (Refusal::TooManyStreams, "TooManyStreams"),
    (Refusal::BadLimits, "BadLimits"),
    (Refusal::BadBandwidth, "BadBandwidth"),
    (Refusal::Overload, "Overload"),
];

const SETUP_ERRORS: &[(SetupError, &str)] = &[
    (SetupError::BadLimits, "BadLimits"),
    (SetupError::BadBandwidth(3), "BadBandwidth"),
    (SetupError::Overload(3), "Overload"),
];

/// Compares what is printed of a refusal with its name.
fn prints(
    rt: &impl Abort,
    alloc: Global,
    refused: &impl Display,
    name: &str,
) -> Result<(), AllocError> {
    let text = format!(in alloc; "{refused}")?;
    same(rt, text.as_str(), name);
    Ok(())
}

#[test]
fn refusals_are_told_by_their_names(rt: HostRuntime) -> Result<(), AllocError> {
    for (refusal, name) in REFUSALS {
        prints(&rt, rt.alloc(), refusal, name)?;
    }
    for (error, name) in SETUP_ERRORS {
        prints(&rt, rt.alloc(), error, name)?;
    }
    prints(&rt, rt.alloc(), &CoreError::NoMemory, "NoMemory")
}
