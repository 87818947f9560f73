//! Journals with one entry changed, which are refused at that place.
use super::journals::{
    ADMITTED, BY_DEADLINE, BY_NUMBER, COLUMNS, EQUAL, FIFTEEN_OFFERS, ONE, PLAIN_ONE, RECHARGED,
    RETURNED, THIRDS, TWO, WHOLE_WAY,
};
use super::{Call, Plan, audited, entries_of, same_at};
use serve_audit::AuditFault;
use serve_hub::Act::{Admitted, Closed, Collected, Leased, Offered, Settled};
use serve_hub::Entry;
use serve_hub::Seat::{Stream, Worker};
use std::alloc::Global;
use std::test::Fail;

/// A place in a journal, and what is told there in place of what was done.
type Change = (usize, Call);

const CHANGES: &[(&Plan<'_>, &[Call], &[Change])] = &[
    (
        &ONE,
        WHOLE_WAY,
        &[
            (0, (Stream(1), Offered(None, 0))),
            (0, (Stream(0), Offered(None, 1))),
            // A moment is told only where it is later.
            (0, (Stream(0), Offered(Some(0), 0))),
            (1, (Worker(1), Leased(0, 0, 1))),
            (1, (Worker(0), Leased(1, 0, 1))),
            (1, (Worker(0), Leased(0, 1, 1))),
            (1, (Worker(0), Leased(0, 0, 0))),
            (1, (Worker(0), Leased(0, 0, 2))),
            (2, (Worker(1), Settled(1, true))),
            (2, (Worker(0), Settled(0, true))),
            (2, (Worker(0), Settled(2, true))),
            (2, (Worker(0), Settled(u32::MAX, true))),
            (2, (Worker(0), Settled(1, false))),
            (3, (Stream(1), Collected(0))),
            (3, (Stream(0), Collected(1))),
            (4, (Stream(1), Closed)),
            // Acts that aren't their seats'.
            (0, (Worker(0), Offered(None, 0))),
            (1, (Stream(0), Leased(0, 0, 1))),
            (2, (Stream(0), Settled(1, true))),
            (3, (Worker(0), Collected(0))),
            (4, (Worker(0), Closed)),
            (4, (Worker(0), Admitted)),
        ],
    ),
    (
        &ONE,
        FIFTEEN_OFFERS,
        &[
            (14, (Stream(0), Offered(None, 15))),
            (14, (Stream(0), Offered(None, 13))),
            (15, (Stream(0), Offered(None, 16))),
        ],
    ),
    // A later deadline doesn't come first.
    (&TWO, BY_DEADLINE, &[(2, (Worker(0), Leased(0, 0, 1)))]),
    (&EQUAL, BY_NUMBER, &[(2, (Worker(0), Leased(1, 0, 1)))]),
    // The clock doesn't go past its last moment.
    (
        &PLAIN_ONE,
        RECHARGED,
        &[(3, (Stream(0), Offered(Some((1 << 60) + 1), 1)))],
    ),
    (
        &COLUMNS,
        RETURNED,
        &[
            (1, (Worker(0), Leased(0, 0, 4))),
            (2, (Worker(0), Settled(3, false))),
            (2, (Worker(0), Settled(2, true))),
        ],
    ),
    // Three thirds are 1,000,002 millionths.
    (
        &THIRDS,
        ADMITTED,
        &[
            (0, (Stream(0), Admitted)),
            (0, (Stream(2), Admitted)),
            (1, (Stream(2), Admitted)),
            (2, (Stream(3), Admitted)),
            (3, (Stream(0), Offered(Some(7), 0))),
        ],
    ),
];

/// What an audit finds in a journal with one entry changed.
fn found(
    alloc: Global,
    plan: &Plan<'_>,
    calls: &[Call],
    change: &Change,
) -> Result<Result<(), AuditFault>, Fail> {
    let mut entries = entries_of(alloc, calls)?;
    let (place, (seat, act)) = *change;
    if place < entries.len() {
        entries[place] = Entry { seat, act };
    }
    let (found, _, _) = audited(alloc, plan, &entries)?;
    Ok(found)
}

#[test]
fn a_changed_entry_is_refused_at_its_place(rt: HostRuntime) -> Result<(), Fail> {
    for (plan, calls, changes) in CHANGES {
        for (at, change) in changes.iter().enumerate() {
            let found = found(rt.alloc(), plan, calls, change)?;
            same_at(&rt, found, Err(AuditFault::Illegal(change.0)), at);
        }
    }
    Ok(())
}
