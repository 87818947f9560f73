//! Which frame a worker gets, how many bands of it, and what comes of a settlement.
use super::Asked::{Arrive, Band, Collect, Lease, Settle};
use super::Line::{self, Asks, Stands};
use super::Size::{Column, Dot};
use super::Told::{Accepted, Finished, Image, Leased, Refused, Returned, Stepped};
use super::{LINE, PLAIN, Plan, Served, serves};
use serve_core::Refusal;
use std::test::Fail;

/// Like the plain stream, but its deadlines are 4 moments after an idle arrival.
const SOON: Served<'static> = Served {
    account: (1, 4),
    ..PLAIN
};

const SCRIPTS: &[(Plan<'_>, &[Line<'_>])] = &[
    // The earliest deadline is leased first.
    (
        Plan {
            workers: 2,
            quantum: 4,
            streams: &[PLAIN, SOON],
        },
        &[
            Asks(Arrive(0, Dot, &[0x00]), Accepted(0)),
            Asks(Arrive(1, Dot, &[0x00]), Accepted(0)),
            Asks(Lease(0), Leased(1, 0, 1)),
            Asks(Lease(1), Leased(0, 0, 1)),
            Asks(Lease(0), Refused(Refusal::Busy)),
            Asks(Lease(2), Refused(Refusal::NoWorker)),
            Asks(Band(1), Stepped),
            Asks(Band(1), Refused(Refusal::GrantSpent)),
            Asks(Settle(1), Finished(0)),
            Asks(Settle(1), Refused(Refusal::NoLease)),
            Stands(0, [1, 10, 1, 1, 0, 1]),
        ],
    ),
    // A leased stream is not ready.
    (
        Plan {
            workers: 3,
            quantum: 4,
            streams: &[SOON, SOON],
        },
        &[
            Asks(Arrive(0, Dot, &[0x00]), Accepted(0)),
            Asks(Arrive(1, Dot, &[0x00]), Accepted(0)),
            Asks(Lease(0), Leased(0, 0, 1)),
            Asks(Lease(1), Leased(1, 0, 1)),
            Asks(Lease(2), Refused(Refusal::NoneReady)),
        ],
    ),
    // A stream with a full outbox is not ready.
    (
        Plan {
            workers: 1,
            quantum: 4,
            streams: &[Served { outbox: 1, ..PLAIN }],
        },
        &[
            Asks(Arrive(0, Dot, &[0x00]), Accepted(0)),
            Asks(Arrive(0, Dot, &[0x01]), Accepted(1)),
            Asks(Lease(0), Leased(0, 0, 1)),
            Asks(Band(0), Stepped),
            Asks(Settle(0), Finished(0)),
            Asks(Lease(0), Refused(Refusal::NoneReady)),
            Asks(Collect(0), Image(LINE, &[0xFF])),
            Asks(Lease(0), Leased(0, 1, 1)),
        ],
    ),
    // A grant is what the budget pays for.
    // The quantum is 4, but the budget pays for 2 bands.
    (
        Plan {
            workers: 1,
            quantum: 4,
            streams: &[Served {
                size: Column,
                rows: 2,
                ..PLAIN
            }],
        },
        &[
            Asks(
                Arrive(0, Column, &[0, 1, 2, 3, 4, 5, 6, 7, 8, 9]),
                Accepted(0),
            ),
            Asks(Lease(0), Leased(0, 0, 2)),
            Asks(Band(0), Stepped),
            Asks(Band(0), Stepped),
            Asks(Band(0), Refused(Refusal::GrantSpent)),
            Asks(Settle(0), Returned),
            Asks(Lease(0), Leased(0, 0, 2)),
            Stands(0, [2, 20, 1, 0, 0, 2]),
            Asks(Settle(0), Returned),
            Asks(Lease(0), Leased(0, 0, 2)),
        ],
    ),
    // A returned frame goes on before the next.
    // Five bands in four leases: grants are 2 by the quantum, 1 by the budget, 2 again, 1 as the last one.
    (
        Plan {
            workers: 1,
            quantum: 2,
            streams: &[Served {
                size: Column,
                rows: 2,
                ..PLAIN
            }],
        },
        &[
            Asks(
                Arrive(0, Column, &[0, 1, 2, 3, 4, 5, 6, 7, 8, 9]),
                Accepted(0),
            ),
            Asks(Arrive(0, Column, &[7; 10]), Accepted(1)),
            Asks(Lease(0), Leased(0, 0, 2)),
            Asks(Band(0), Stepped),
            Asks(Settle(0), Returned),
            Asks(Lease(0), Leased(0, 0, 1)),
            Asks(Band(0), Stepped),
            Asks(Settle(0), Returned),
            Stands(0, [2, 20, 2, 0, 0, 2]),
            Asks(Lease(0), Leased(0, 0, 2)),
            Asks(Band(0), Stepped),
            Asks(Band(0), Stepped),
            Asks(Settle(0), Returned),
            Asks(Lease(0), Leased(0, 0, 1)),
            Asks(Band(0), Stepped),
            Asks(Settle(0), Finished(0)),
            Stands(0, [1, 30, 2, 1, 0, 5]),
            Asks(Lease(0), Leased(0, 1, 1)),
            Asks(
                Collect(0),
                Image(
                    LINE,
                    &[0xFF, 0xFE, 0xFD, 0xFC, 0xFB, 0xFA, 0xF9, 0xF8, 0xF7, 0xF6],
                ),
            ),
        ],
    ),
];

#[test]
fn frames_are_leased_band_by_band(rt: HostRuntime) -> Result<(), Fail> {
    for (plan, script) in SCRIPTS {
        serves(&rt, rt.alloc(), plan, script)?;
    }
    Ok(())
}

/// The last stream is the first that is ready.
#[test]
fn equal_deadlines_are_leased_by_number(rt: HostRuntime) -> Result<(), Fail> {
    let alloc = rt.alloc();
    let stream = Served {
        account: (1, 64),
        ..PLAIN
    };
    let plan = Plan {
        workers: 16,
        quantum: 4,
        streams: &[stream; 64],
    };
    let mut script = Vec::new(alloc);
    for s in (0..64).rev() {
        script.push(Asks(Arrive(s, Dot, &[0x00]), Accepted(0)))?;
    }
    for w in 0..16 {
        script.push(Asks(Lease(w), Leased(w, 0, 1)))?;
    }
    serves(&rt, alloc, &plan, &script)
}
