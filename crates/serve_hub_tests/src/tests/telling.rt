//! What hubs tell of that which is under their locks.
use super::admissions::HALF;
use super::ends::left_after;
use super::same;
use super::steps::Answer::{Accepted, AcceptedAt, Admitted, Closed, Due, Loaded, Worked};
use super::steps::Call::{Admit, Close, Deadline, Load, Offer, OfferAt, Work};
use super::steps::Step;
use serve_hub::{Moments, Settled};
use std::test::Fail;

/// A frame that finds its stream idle sets the deadline 2 moments ahead, and each unit puts it off by 2.
#[test]
fn a_hub_tells_the_deadline_of_each_stream(rt: HostRuntime) -> Result<(), Fail> {
    let left = left_after(&rt, rt.alloc(), &[HALF], &[DEADLINES])?;
    same(&rt, (left.entries, left.clock), (5, 3));
    Ok(())
}

const DEADLINES: &[Step] = &[
    (Deadline(0), Due(0, Some(0), 0)),
    (Deadline(1), Due(1, None, 0)),
    (Offer(0, 7), Accepted(0)),
    (Deadline(0), Due(0, Some(2), 0)),
    (Admit(&HALF), Admitted(1)),
    (Deadline(1), Due(1, Some(0), 0)),
    (
        OfferAt(1, 3, 5),
        AcceptedAt(
            0,
            Some(Moments {
                first: 3,
                latest: 3,
            }),
        ),
    ),
    (Deadline(1), Due(1, Some(5), 3)),
    (Deadline(0), Due(0, Some(2), 3)),
    (Work(0, 1), Worked((0, 0, 1), Settled::Finished(0))),
    (Deadline(0), Due(0, Some(4), 3)),
];

/// A stream that is admitted counts, and one that is closed does until its frames are finished.
#[test]
fn a_hub_counts_the_streams_that_are_not_over(rt: HostRuntime) -> Result<(), Fail> {
    let left = left_after(&rt, rt.alloc(), &[HALF], &[LOADS])?;
    same(&rt, left.entries, 6);
    Ok(())
}

const LOADS: &[Step] = &[
    (Load, Loaded(1, 1, false)),
    (Admit(&HALF), Admitted(1)),
    (Load, Loaded(2, 1, false)),
    (Offer(1, 7), Accepted(0)),
    (Close(1), Closed),
    (Load, Loaded(2, 1, false)),
    (Work(0, 1), Worked((1, 0, 1), Settled::Finished(0))),
    (Load, Loaded(1, 1, false)),
    (Close(0), Closed),
    (Load, Loaded(0, 1, true)),
];
