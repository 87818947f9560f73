//! Closes and collections.
use super::Asked::{Arrive, Band, Close, Collect, Lease, Settle};
use super::Line::{self, Asks};
use super::Size::Dot;
use super::Told::{Accepted, Closing, Finished, GivenBack, Image, Leased, Refused, Stepped};
use super::{LINE, PLAIN, Plan, Served, serves};
use serve_core::Refusal;
use std::test::Fail;

const SCRIPTS: &[(Plan<'_>, &[Line<'_>])] = &[
    // A closed stream is drained by its last collection.
    (
        Plan {
            workers: 1,
            quantum: 4,
            streams: &[Served {
                account: (1, 4),
                queue: 1,
                ..PLAIN
            }],
        },
        &[
            Asks(Arrive(0, Dot, &[0x00]), Accepted(0)),
            Asks(
                Arrive(0, Dot, &[0x01]),
                GivenBack(Refusal::Full, LINE, &[0x01]),
            ),
            Asks(Close(0), Closing),
            Asks(
                Arrive(0, Dot, &[0x01]),
                GivenBack(Refusal::Closed, LINE, &[0x01]),
            ),
            Asks(Close(0), Refused(Refusal::AlreadyClosed)),
            Asks(Lease(0), Leased(0, 0, 1)),
            Asks(Collect(0), Refused(Refusal::Empty)),
            Asks(Band(0), Stepped),
            Asks(Settle(0), Finished(0)),
            Asks(Collect(0), Image(LINE, &[0xFF])),
            Asks(Collect(0), Refused(Refusal::Drained)),
        ],
    ),
    // An open stream is empty and never drained.
    (
        Plan {
            workers: 1,
            quantum: 4,
            streams: &[PLAIN],
        },
        &[
            Asks(Collect(0), Refused(Refusal::Empty)),
            Asks(Arrive(0, Dot, &[0x00]), Accepted(0)),
            Asks(Collect(0), Refused(Refusal::Empty)),
            Asks(Lease(0), Leased(0, 0, 1)),
            Asks(Band(0), Stepped),
            Asks(Settle(0), Finished(0)),
            Asks(Collect(0), Image(LINE, &[0xFF])),
            Asks(Collect(0), Refused(Refusal::Empty)),
            Asks(Close(0), Closing),
            Asks(Collect(0), Refused(Refusal::Drained)),
        ],
    ),
    // A leased frame keeps its place.
    // The place is free once the frame is finished, though it isn't collected.
    (
        Plan {
            workers: 1,
            quantum: 4,
            streams: &[Served { queue: 1, ..PLAIN }],
        },
        &[
            Asks(Arrive(0, Dot, &[0x00]), Accepted(0)),
            Asks(Lease(0), Leased(0, 0, 1)),
            Asks(
                Arrive(0, Dot, &[0x01]),
                GivenBack(Refusal::Full, LINE, &[0x01]),
            ),
            Asks(Band(0), Stepped),
            Asks(
                Arrive(0, Dot, &[0x01]),
                GivenBack(Refusal::Full, LINE, &[0x01]),
            ),
            Asks(Settle(0), Finished(0)),
            Asks(Arrive(0, Dot, &[0x01]), Accepted(1)),
            Asks(Collect(0), Image(LINE, &[0xFF])),
        ],
    ),
    // A closed stream accepts nothing though it has room.
    (
        Plan {
            workers: 1,
            quantum: 4,
            streams: &[PLAIN],
        },
        &[
            Asks(Arrive(0, Dot, &[0x00]), Accepted(0)),
            Asks(Close(0), Closing),
            Asks(
                Arrive(0, Dot, &[0x01]),
                GivenBack(Refusal::Closed, LINE, &[0x01]),
            ),
            Asks(Lease(0), Leased(0, 0, 1)),
            Asks(Band(0), Stepped),
            Asks(Collect(0), Refused(Refusal::Empty)),
            Asks(Settle(0), Finished(0)),
            Asks(
                Arrive(0, Dot, &[0x01]),
                GivenBack(Refusal::Closed, LINE, &[0x01]),
            ),
            Asks(Collect(0), Image(LINE, &[0xFF])),
            Asks(Collect(0), Refused(Refusal::Drained)),
        ],
    ),
    // Images come in the order of their frames.
    // Both frames are finished before the first image is asked for.
    (
        Plan {
            workers: 1,
            quantum: 4,
            streams: &[PLAIN],
        },
        &[
            Asks(Arrive(0, Dot, &[0x00]), Accepted(0)),
            Asks(Arrive(0, Dot, &[0x01]), Accepted(1)),
            Asks(Lease(0), Leased(0, 0, 1)),
            Asks(Band(0), Stepped),
            Asks(Settle(0), Finished(0)),
            Asks(Lease(0), Leased(0, 1, 1)),
            Asks(Band(0), Stepped),
            Asks(Settle(0), Finished(1)),
            Asks(Collect(0), Image(LINE, &[0xFF])),
            Asks(Collect(0), Image(LINE, &[0xFE])),
            Asks(Collect(0), Refused(Refusal::Empty)),
        ],
    ),
];

#[test]
fn streams_are_closed_and_drained(rt: HostRuntime) -> Result<(), Fail> {
    for (plan, script) in SCRIPTS {
        serves(&rt, rt.alloc(), plan, script)?;
    }
    Ok(())
}
