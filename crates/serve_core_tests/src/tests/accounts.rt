//! Budgets and deadlines by arrivals and charges.
use super::Asked::{Arrive, Band, Collect, Lease, Settle, Tick};
use super::Line::{self, Asks, Stands};
use super::Size::{Column, Dot};
use super::Told::{Accepted, Finished, Image, Leased, Returned, Stepped, Ticked};
use super::{LINE, PLAIN, Plan, Served, serves};
use std::test::Fail;

const ONE: Plan<'static> = Plan {
    workers: 1,
    quantum: 4,
    streams: &[PLAIN],
};

const SCRIPTS: &[(Plan<'_>, &[Line<'_>])] = &[
    // An arrival at an active stream leaves its account.
    (
        ONE,
        &[
            Asks(Arrive(0, Dot, &[0x00]), Accepted(0)),
            Asks(Tick(7), Ticked),
            Asks(Arrive(0, Dot, &[0x01]), Accepted(1)),
            Stands(0, [2, 10, 2, 0, 0, 0]),
        ],
    ),
    // An idle arrival recharges at equality. One unit is left until moment 10: 10 is at least 10 at moment 5.
    (
        ONE,
        &[
            Asks(Arrive(0, Dot, &[0x00]), Accepted(0)),
            Asks(Lease(0), Leased(0, 0, 1)),
            Asks(Band(0), Stepped),
            Asks(Settle(0), Finished(0)),
            Stands(0, [1, 10, 1, 1, 0, 1]),
            Asks(Tick(5), Ticked),
            Asks(Arrive(0, Dot, &[0x01]), Accepted(1)),
            Stands(0, [2, 15, 2, 1, 0, 1]),
        ],
    ),
    // It does not at moment 4, where 10 is less than 12.
    (
        ONE,
        &[
            Asks(Arrive(0, Dot, &[0x00]), Accepted(0)),
            Asks(Lease(0), Leased(0, 0, 1)),
            Asks(Band(0), Stepped),
            Asks(Settle(0), Finished(0)),
            Stands(0, [1, 10, 1, 1, 0, 1]),
            Asks(Tick(4), Ticked),
            Asks(Arrive(0, Dot, &[0x01]), Accepted(1)),
            Stands(0, [1, 10, 2, 1, 0, 1]),
        ],
    ),
    // A charge goes to the account of its stream.
    (
        Plan {
            workers: 2,
            quantum: 4,
            streams: &[PLAIN, PLAIN],
        },
        &[
            Asks(Arrive(0, Dot, &[0x00]), Accepted(0)),
            Asks(Arrive(1, Dot, &[0x01]), Accepted(0)),
            Asks(Lease(1), Leased(0, 0, 1)),
            Asks(Lease(0), Leased(1, 0, 1)),
            Asks(Band(0), Stepped),
            Stands(0, [2, 10, 1, 0, 0, 0]),
            Stands(1, [1, 10, 1, 0, 0, 1]),
            Asks(Settle(0), Finished(0)),
            Asks(Collect(1), Image(LINE, &[0xFE])),
            Stands(0, [2, 10, 1, 0, 0, 0]),
            Stands(1, [1, 10, 1, 1, 1, 1]),
        ],
    ),
    // A band of a blur costs its radius and one.
    // A band of it costs 2.
    (
        Plan {
            workers: 1,
            quantum: 4,
            streams: &[Served {
                size: Column,
                ops: "blur:1",
                rows: 2,
                account: (3, 10),
                ..PLAIN
            }],
        },
        &[
            Asks(Arrive(0, Column, &[0x5A; 10]), Accepted(0)),
            Asks(Lease(0), Leased(0, 0, 1)),
            Asks(Band(0), Stepped),
            Asks(Settle(0), Returned),
            Stands(0, [1, 10, 1, 0, 0, 2]),
            Asks(Lease(0), Leased(0, 0, 1)),
            Asks(Band(0), Stepped),
            Stands(0, [2, 20, 1, 0, 0, 4]),
        ],
    ),
    // One band recharges several times.
    // A band of it costs 9.
    (
        Plan {
            workers: 1,
            quantum: 4,
            streams: &[Served {
                ops: "blur:8",
                account: (1, 4),
                ..PLAIN
            }],
        },
        &[
            Asks(Arrive(0, Dot, &[0x5A]), Accepted(0)),
            Asks(Lease(0), Leased(0, 0, 1)),
            Asks(Band(0), Stepped),
            Stands(0, [1, 40, 1, 0, 0, 9]),
            Asks(Settle(0), Finished(0)),
            Asks(Collect(0), Image(LINE, &[0x5A])),
        ],
    ),
];

#[test]
fn accounts_follow_arrivals_and_charges(rt: HostRuntime) -> Result<(), Fail> {
    for (plan, script) in SCRIPTS {
        serves(&rt, rt.alloc(), plan, script)?;
    }
    Ok(())
}
