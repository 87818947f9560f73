//! Journals that are legal, and where they lead.
use super::{Call, PLAIN, Plan, Served, Size, audited, entries_of, same_at};
use serve_hub::Act::{Admitted, Closed, Collected, Leased, Offered, Settled};
use serve_hub::Seat::{Stream, Worker};
use std::test::Fail;

/// One unit in every 4 moments.
const SOON: Served = Served {
    account: (1, 4),
    ..PLAIN
};

/// One stream with much room, and one worker.
pub(super) const ONE: Plan<'static> = Plan {
    workers: 1,
    streams: &[Served { queue: 16, ..SOON }],
    later: &[],
};

/// A frame on its way, from its offer to its collection.
pub(super) const WHOLE_WAY: &[Call] = &[
    (Stream(0), Offered(None, 0)),
    (Worker(0), Leased(0, 0, 1)),
    (Worker(0), Settled(1, true)),
    (Stream(0), Collected(0)),
    (Stream(0), Closed),
];

/// Offers and nothing else, until the close.
pub(super) const FIFTEEN_OFFERS: &[Call] = &[
    (Stream(0), Offered(None, 0)),
    (Stream(0), Offered(None, 1)),
    (Stream(0), Offered(None, 2)),
    (Stream(0), Offered(None, 3)),
    (Stream(0), Offered(None, 4)),
    (Stream(0), Offered(None, 5)),
    (Stream(0), Offered(None, 6)),
    (Stream(0), Offered(None, 7)),
    (Stream(0), Offered(None, 8)),
    (Stream(0), Offered(None, 9)),
    (Stream(0), Offered(None, 10)),
    (Stream(0), Offered(None, 11)),
    (Stream(0), Offered(None, 12)),
    (Stream(0), Offered(None, 13)),
    (Stream(0), Offered(None, 14)),
    (Stream(0), Closed),
];

/// The second of two streams has the earlier deadline.
pub(super) const TWO: Plan<'static> = Plan {
    workers: 2,
    streams: &[PLAIN, SOON],
    later: &[],
};

pub(super) const BY_DEADLINE: &[Call] = &[
    (Stream(0), Offered(None, 0)),
    (Stream(1), Offered(None, 0)),
    (Worker(0), Leased(1, 0, 1)),
    (Worker(1), Leased(0, 0, 1)),
    (Worker(1), Settled(1, true)),
];

/// Two of three workers have a lease of a stream each.
pub(super) const EQUAL: Plan<'static> = Plan {
    workers: 3,
    streams: &[SOON, SOON],
    later: &[],
};

pub(super) const BY_NUMBER: &[Call] = &[
    (Stream(0), Offered(None, 0)),
    (Stream(1), Offered(None, 0)),
    (Worker(0), Leased(0, 0, 1)),
    (Worker(1), Leased(1, 0, 1)),
];

pub(super) const PLAIN_ONE: Plan<'static> = Plan {
    workers: 1,
    streams: &[PLAIN],
    later: &[],
};

/// One unit is left up to moment 10 when a frame comes at moment 5.
pub(super) const RECHARGED: &[Call] = &[
    (Stream(0), Offered(None, 0)),
    (Worker(0), Leased(0, 0, 1)),
    (Worker(0), Settled(1, true)),
    (Stream(0), Offered(Some(5), 1)),
];

/// It comes at moment 4.
const NOT_RECHARGED: &[Call] = &[
    (Stream(0), Offered(None, 0)),
    (Worker(0), Leased(0, 0, 1)),
    (Worker(0), Settled(1, true)),
    (Stream(0), Offered(Some(4), 1)),
];

/// Its frames have 5 bands, of which the budget pays for 2.
pub(super) const COLUMNS: Plan<'static> = Plan {
    workers: 1,
    streams: &[Served {
        size: Size::Tall,
        ..PLAIN
    }],
    later: &[],
};

pub(super) const RETURNED: &[Call] = &[
    (Stream(0), Offered(None, 0)),
    (Worker(0), Leased(0, 0, 2)),
    (Worker(0), Settled(2, false)),
    (Worker(0), Leased(0, 0, 2)),
    (Worker(0), Settled(0, false)),
    (Worker(0), Leased(0, 0, 2)),
];

/// 333,334 millionths of a worker.
const THIRD: Served = Served {
    account: (1, 3),
    ..PLAIN
};

/// Two thirds of the worker are left for others.
pub(super) const THIRDS: Plan<'static> = Plan {
    workers: 1,
    streams: &[THIRD],
    later: &[THIRD, THIRD],
};

/// The third stream has the share that the first one left.
pub(super) const ADMITTED: &[Call] = &[
    (Stream(1), Admitted),
    (Stream(0), Closed),
    (Stream(2), Admitted),
    (Stream(2), Offered(Some(7), 0)),
];

/// A plan, a journal, the moment at its end, and what the first stream then stands at.
type Case<'a> = (&'a Plan<'a>, &'a [Call], u64, [u64; 6]);

const CASES: &[Case<'_>] = &[
    (&ONE, &[], 0, [1, 0, 0, 0, 0, 0]),
    (&ONE, WHOLE_WAY, 0, [1, 8, 1, 1, 1, 1]),
    (&ONE, FIFTEEN_OFFERS, 0, [1, 4, 15, 0, 0, 0]),
    (&TWO, BY_DEADLINE, 0, [1, 10, 1, 1, 0, 1]),
    (&EQUAL, BY_NUMBER, 0, [1, 4, 1, 0, 0, 0]),
    (&PLAIN_ONE, RECHARGED, 5, [2, 15, 2, 1, 0, 1]),
    (&PLAIN_ONE, NOT_RECHARGED, 4, [1, 10, 2, 1, 0, 1]),
    (&COLUMNS, RETURNED, 0, [2, 20, 1, 0, 0, 2]),
    (&THIRDS, ADMITTED, 7, [1, 0, 0, 0, 0, 0]),
];

#[test]
fn legal_journals_are_accepted(rt: HostRuntime) -> Result<(), Fail> {
    let alloc = rt.alloc();
    for (place, (plan, calls, moment, stands)) in CASES.iter().enumerate() {
        let end = audited(alloc, plan, &entries_of(alloc, calls)?)?;
        same_at(&rt, end, (Ok(()), *moment, Some(*stands)), place);
    }
    Ok(())
}
