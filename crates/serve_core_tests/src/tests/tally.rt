//! A tally that is told of events with their replies.
use super::Asked::{self, Admit, Arrive, Band, Close, Collect, Lease, Settle, Tick};
use super::Line::{self, Asks, Stands};
use super::Size::Dot;
use super::Told::{
    self, Accepted, Admitted, Closing, Finished, Image, Leased, Returned, Stepped, Ticked,
};
use super::{LINE, PLAIN, Plan, Served, same, same_at, same_either, setup_of, spec_of, state};
use serve_core::{StreamSpec, Tally};
use std::alloc::Global;
use std::process::Abort;
use std::test::Fail;

/// Its deadlines are 4 moments after an idle arrival.
const SOON: Served<'static> = Served {
    account: (1, 4),
    ..PLAIN
};

/// A third of a worker and a little more.
const THIRD: Served<'static> = Served {
    account: (1, 3),
    ..PLAIN
};

/// A whole worker.
const WHOLE: Served<'static> = Served {
    account: (4, 4),
    ..PLAIN
};

/// More than a whole worker.
const EXCESS: Served<'static> = Served {
    account: (5, 4),
    ..PLAIN
};

const GIVEN: Told<'static> = Image(LINE, &[0xFF]);

/// The last moment of the clock.
const LAST: u64 = 1_152_921_504_606_846_976;

/// An event with a reply, and whether the reply is right.
type Turn<'a> = (Asked<'a>, Told<'a>, bool);

const TURNS: &[(Plan<'_>, &[Turn<'_>])] = &[
    // The leases go to the earliest deadlines.
    (
        Plan {
            workers: 2,
            quantum: 4,
            streams: &[PLAIN, SOON],
        },
        &[
            (Lease(0), Leased(0, 0, 1), false),
            (Arrive(0, Dot, &[]), Accepted(1), false),
            (Arrive(0, Dot, &[]), Accepted(0), true),
            (Arrive(0, Dot, &[]), Accepted(0), false),
            (Arrive(1, Dot, &[]), Accepted(0), true),
            (Arrive(2, Dot, &[]), Accepted(0), false),
            (Lease(0), Leased(0, 0, 1), false),
            (Lease(0), Leased(2, 0, 1), false),
            (Lease(0), Leased(1, 1, 1), false),
            (Lease(0), Leased(1, 0, 0), false),
            (Lease(0), Leased(1, 0, 2), false),
            (Lease(2), Leased(1, 0, 1), false),
            (Lease(0), Leased(1, 0, 1), true),
            (Lease(0), Leased(0, 0, 1), false),
            (Lease(1), Leased(0, 0, 1), true),
            (Band(2), Stepped, false),
            (Settle(1), Finished(0), false),
            (Band(1), Stepped, true),
            (Band(1), Stepped, false),
            (Settle(1), Returned, false),
            (Settle(1), Finished(1), false),
            (Settle(1), Finished(0), true),
            (Settle(1), Finished(0), false),
            (Settle(0), Returned, true),
            (Settle(0), Returned, false),
            (Band(0), Stepped, false),
            (Close(2), Closing, false),
            (Close(1), Closing, true),
            (Close(1), Closing, false),
            (Arrive(1, Dot, &[]), Accepted(1), false),
            (Collect(2), GIVEN, false),
            (Collect(1), GIVEN, false),
            (Collect(0), GIVEN, true),
            (Collect(0), GIVEN, false),
        ],
    ),
    // The lower number of equal deadlines comes first.
    (
        Plan {
            workers: 3,
            quantum: 4,
            streams: &[SOON, SOON],
        },
        &[
            (Arrive(1, Dot, &[]), Accepted(0), true),
            (Arrive(0, Dot, &[]), Accepted(0), true),
            (Lease(0), Leased(1, 0, 1), false),
            (Lease(0), Leased(0, 0, 1), true),
            (Lease(1), Leased(0, 0, 1), false),
            (Lease(1), Leased(1, 0, 1), true),
            (Lease(2), Leased(1, 0, 1), false),
        ],
    ),
    // A stream with a full outbox is not ready.
    (
        Plan {
            workers: 1,
            quantum: 4,
            streams: &[Served { outbox: 1, ..PLAIN }],
        },
        &[
            (Arrive(0, Dot, &[]), Accepted(0), true),
            (Arrive(0, Dot, &[]), Accepted(1), true),
            (Lease(0), Leased(0, 0, 1), true),
            (Band(0), Stepped, true),
            (Settle(0), Finished(0), true),
            (Lease(0), Leased(0, 1, 1), false),
            (Collect(0), GIVEN, true),
            (Lease(0), Leased(0, 1, 1), true),
        ],
    ),
    // One place, and two frames at all.
    (
        Plan {
            workers: 1,
            quantum: 4,
            streams: &[Served {
                queue: 1,
                frames: 2,
                ..SOON
            }],
        },
        &[
            (Arrive(0, Dot, &[]), Accepted(0), true),
            (Arrive(0, Dot, &[]), Accepted(1), false),
            (Lease(0), Leased(0, 0, 1), true),
            (Arrive(0, Dot, &[]), Accepted(1), false),
            (Band(0), Stepped, true),
            (Settle(0), Finished(0), true),
            (Arrive(0, Dot, &[]), Accepted(1), true),
            (Lease(0), Leased(0, 1, 1), true),
            (Band(0), Stepped, true),
            (Settle(0), Finished(1), true),
            (Arrive(0, Dot, &[]), Accepted(2), false),
        ],
    ),
    // The clock ends and never goes back.
    (
        Plan {
            workers: 1,
            quantum: 4,
            streams: &[PLAIN],
        },
        &[
            (Tick(0), Ticked, true),
            (Tick(5), Ticked, true),
            (Tick(4), Ticked, false),
            (Tick(5), Ticked, true),
            (Tick(LAST), Ticked, true),
            (Tick(LAST + 1), Ticked, false),
            (Tick(5), Ticked, false),
            (Tick(LAST), Ticked, true),
        ],
    ),
    // The share of (1, 3) is 333,334 millionths of a worker.
    (
        Plan {
            workers: 1,
            quantum: 4,
            streams: &[THIRD],
        },
        &[
            (Admit(&THIRD), Admitted(0), false),
            (Admit(&THIRD), Admitted(2), false),
            (Admit(&EXCESS), Admitted(1), false),
            (Admit(&Served { queue: 0, ..THIRD }), Admitted(1), false),
            (Admit(&THIRD), Admitted(1), true),
            (Admit(&THIRD), Admitted(2), false),
            (Close(0), Closing, true),
            (Admit(&THIRD), Admitted(2), true),
            (Admit(&THIRD), Admitted(3), false),
            (Close(1), Closing, true),
            (Close(2), Closing, true),
            (Admit(&WHOLE), Admitted(3), true),
        ],
    ),
    (
        Plan {
            workers: 2,
            quantum: 4,
            streams: &[THIRD, THIRD],
        },
        &[
            (Admit(&THIRD), Admitted(2), true),
            (Admit(&WHOLE), Admitted(3), false),
        ],
    ),
];

/// What a tally is told: an event with its reply.
#[derive(Clone, Copy)]
enum Deed<'a> {
    Arrive(u32, u64),
    Lease(u32, u32, u64, u32),
    Band(u32),
    GiveBack(u32),
    Finish(u32, u64),
    Tick(u64),
    Close(u32),
    Collect(u32),
    Admit(u32, &'a Served<'a>),
}

/// What a tally is told of an event and its reply. That is nothing where it is refused.
fn deed_of<'a>(asked: &Asked<'a>, told: &Told<'_>) -> Option<Deed<'a>> {
    match (*asked, *told) {
        (Arrive(s, _, _), Accepted(number)) => Some(Deed::Arrive(s, number)),
        (Lease(w), Leased(s, number, grant)) => Some(Deed::Lease(w, s, number, grant)),
        (Band(w), Stepped) => Some(Deed::Band(w)),
        (Settle(w), Returned) => Some(Deed::GiveBack(w)),
        (Settle(w), Finished(number)) => Some(Deed::Finish(w, number)),
        (Tick(to), Ticked) => Some(Deed::Tick(to)),
        (Close(s), Closing) => Some(Deed::Close(s)),
        (Collect(s), Image(_, _)) => Some(Deed::Collect(s)),
        (Admit(served), Admitted(s)) => Some(Deed::Admit(s, served)),
        _ => None,
    }
}

/// Whether a tally takes it.
fn takes(alloc: Global, tally: &mut Tally, deed: &Deed<'_>) -> Result<bool, Fail> {
    Ok(match *deed {
        Deed::Arrive(s, number) => tally.arrive(s, number),
        Deed::Lease(w, s, number, grant) => tally.lease(w, s, number, grant),
        Deed::Band(w) => tally.band(w),
        Deed::GiveBack(w) => tally.give_back(w),
        Deed::Finish(w, number) => tally.finish(w, number),
        Deed::Tick(to) => tally.tick(to),
        Deed::Close(s) => tally.close(s),
        Deed::Collect(s) => tally.collect(s),
        Deed::Admit(s, served) => return admits(alloc, tally, s, served),
    })
}

fn admits(alloc: Global, tally: &mut Tally, s: u32, served: &Served<'_>) -> Result<bool, Fail> {
    let spec = spec_of(alloc, served)?;
    Ok(tally.admit(s, spec)?)
}

/// Whether a tally takes an event with its reply, or nothing where that is refused.
fn took(
    alloc: Global,
    tally: &mut Tally,
    asked: &Asked<'_>,
    told: &Told<'_>,
) -> Result<Option<bool>, Fail> {
    match deed_of(asked, told) {
        None => Ok(None),
        Some(deed) => Ok(Some(takes(alloc, tally, &deed)?)),
    }
}

fn tally_of(alloc: Global, plan: &Plan<'_>) -> Result<Tally, Fail> {
    Ok(Tally::new(alloc, setup_of(alloc, plan)?)?)
}

/// Tells a tally of each turn.
fn judges(
    rt: &impl Abort,
    alloc: Global,
    tally: &mut Tally,
    turns: &[Turn<'_>],
) -> Result<(), Fail> {
    for (place, (asked, told, right)) in turns.iter().enumerate() {
        same_at(rt, took(alloc, tally, asked, told)?, Some(*right), place);
    }
    Ok(())
}

#[test]
fn a_tally_goes_on_where_a_reply_is_right(rt: HostRuntime) -> Result<(), Fail> {
    for (plan, turns) in TURNS {
        judges(&rt, rt.alloc(), &mut tally_of(rt.alloc(), plan)?, turns)?;
    }
    Ok(())
}

/// Tells a tally of the events of a script and their replies, and reads what streams stand at.
pub(super) fn follows(
    rt: &impl Abort,
    alloc: Global,
    plan: &Plan<'_>,
    script: &[Line<'_>],
) -> Result<(), Fail> {
    let mut tally = tally_of(alloc, plan)?;
    for (place, line) in script.iter().enumerate() {
        match line {
            Asks(asked, told) => {
                let took = took(alloc, &mut tally, asked, told)?;
                same_at(rt, took != Some(false), true, place);
            }
            Stands(s, wanted) => same_at(rt, state_of(&tally, *s), Some(*wanted), place),
        }
    }
    Ok(())
}

fn state_of(tally: &Tally, s: u32) -> Option<[u64; 6]> {
    state(tally.account(s), tally.counts(s))
}

/// What a worker holds: stream, number, grant, and how many bands are done.
fn held(tally: &Tally, w: u32) -> Option<(u32, u64, u32, u32)> {
    let held = tally.lease_of_worker(w)?;
    Some((held.stream, held.number, held.grant, held.used))
}

const LEASED: &[Turn<'_>] = &[
    (Tick(6), Ticked, true),
    (Arrive(0, Dot, &[]), Accepted(0), true),
    (Lease(1), Leased(0, 0, 1), true),
    (Band(1), Stepped, true),
];

#[test]
fn a_tally_tells_its_leases(rt: HostRuntime) -> Result<(), Fail> {
    let plan = Plan {
        workers: 2,
        quantum: 4,
        streams: &[PLAIN],
    };
    let mut tally = tally_of(rt.alloc(), &plan)?;
    judges(&rt, rt.alloc(), &mut tally, LEASED)?;
    same(&rt, (held(&tally, 0), held(&tally, 2)), (None, None));
    same(&rt, held(&tally, 1), Some((0, 0, 1, 1)));
    same(&rt, (tally.clock(), tally.streams()), (6, 1));
    same(&rt, (tally.account(1), tally.counts(1)), (None, None));
    Ok(())
}

/// The second of two streams has its frame done, but it holds its share up to moment 8.
const DONE: &[Turn<'_>] = &[
    (Arrive(1, Dot, &[]), Accepted(0), true),
    (Lease(0), Leased(1, 0, 1), true),
    (Band(0), Stepped, true),
    (Settle(0), Finished(0), true),
    (Close(1), Closing, true),
    (Collect(1), GIVEN, true),
];

const BOTH: Plan<'static> = Plan {
    workers: 1,
    quantum: 4,
    streams: &[PLAIN, SOON],
};

/// Whether it takes streams out, how many stay, and the account of the first.
fn retired(tally: &mut Tally) -> (bool, usize, Option<(u64, u64)>) {
    (tally.retire(), tally.streams(), tally.account(0))
}

/// Whether each of three streams is released.
fn released(tally: &Tally) -> [Option<bool>; 3] {
    [
        tally.is_released(0),
        tally.is_released(1),
        tally.is_released(2),
    ]
}

#[test]
fn a_tally_takes_released_streams_out(rt: HostRuntime) -> Result<(), Fail> {
    let alloc = rt.alloc();
    let mut tally = tally_of(alloc, &BOTH)?;
    judges(&rt, alloc, &mut tally, DONE)?;
    judges(
        &rt,
        alloc,
        &mut tally,
        &[(Close(0), Closing, true), (Tick(7), Ticked, true)],
    )?;
    same(&rt, released(&tally), [Some(true), Some(false), None]);
    same(&rt, retired(&mut tally), (true, 1, Some((1, 8))));
    judges(&rt, alloc, &mut tally, &[(Tick(8), Ticked, true)])?;
    same(&rt, retired(&mut tally), (false, 1, Some((1, 8))));
    Ok(())
}

#[test]
fn a_tally_with_a_lease_out_keeps_its_streams(rt: HostRuntime) -> Result<(), Fail> {
    let alloc = rt.alloc();
    let mut tally = tally_of(alloc, &BOTH)?;
    judges(
        &rt,
        alloc,
        &mut tally,
        &[
            (Close(0), Closing, true),
            (Arrive(1, Dot, &[]), Accepted(0), true),
            (Lease(0), Leased(1, 0, 1), true),
        ],
    )?;
    same(&rt, retired(&mut tally), (false, 2, Some((2, 0))));
    judges(&rt, alloc, &mut tally, &[(Settle(0), Returned, true)])?;
    same(&rt, retired(&mut tally), (true, 1, Some((1, 4))));
    judges(&rt, alloc, &mut tally, &[(Lease(0), Leased(0, 0, 1), true)])
}

/// One stream more is there, or for want of memory all is as it was.
fn grows(rt: &impl Abort, tally: &mut Tally, spec: StreamSpec) {
    let right = tally.admit(2, spec).ok();
    same_either(
        rt,
        (right, tally.streams(), tally.account(2)),
        (Some(true), 3, Some((2, 0))),
        (None, 2, None),
    );
}

#[test]
fn a_stream_without_memory_leaves_the_tally(rt: HostRuntime) -> Result<(), Fail> {
    let spec = spec_of(rt.alloc(), &PLAIN)?;
    let mut tally = tally_of(rt.alloc(), &BOTH)?;
    grows(&rt, &mut tally, spec);
    Ok(())
}
