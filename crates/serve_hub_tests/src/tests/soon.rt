//! Images that clients wait for where they come soon, and journals that are full.
use super::ends::{again_after, ended_after, left_after};
use super::steps::Answer::{Accepted, Closed, Full, Given, Refused, Room, Worked};
use super::steps::Call::{Close, CollectSoon, EndEpoch, IsFull, Offer, RoomLeft, Work};
use super::steps::{Step, TWELVE_FRAMES};
use super::threads::{Plan, serve, serve_whole};
use super::{Core, PLAIN, same};
use serve_hub::{Ended, Refusal, Settled};
use std::alloc::Global;
use std::process::Abort;
use std::sync::Wait;
use std::test::Fail;

const EMPTY: Refusal = Refusal::Core(Core::Empty);

/// Nobody waits where there is an image, or no frame for one.
#[test]
fn an_image_that_is_there_is_given(rt: HostRuntime) -> Result<(), Fail> {
    let left = left_after(&rt, rt.alloc(), &[PLAIN], &[ONE_FRAME])?;
    same(&rt, left.entries, 5);
    Ok(())
}

const ONE_FRAME: &[Step] = &[
    (CollectSoon(0), Refused(EMPTY)),
    (Offer(0, 0), Accepted(0)),
    (Work(0, 1), Worked((0, 0, 1), Settled::Finished(0))),
    (CollectSoon(0), Given(Some(0), Some(255))),
    (CollectSoon(0), Refused(EMPTY)),
    (Close(0), Closed),
    (CollectSoon(0), Refused(Refusal::Core(Core::Drained))),
];

/// Nobody waits where two streams have frames for one worker.
#[test]
fn two_streams_do_not_wait_for_one_worker(rt: HostRuntime) -> Result<(), Fail> {
    let left = left_after(&rt, rt.alloc(), &[PLAIN, PLAIN], &[TWO_STREAMS])?;
    same(&rt, left.entries, 8);
    same(&rt, left.is_full, false);
    Ok(())
}

const TWO_STREAMS: &[Step] = &[
    (Offer(0, 5), Accepted(0)),
    (Offer(1, 6), Accepted(0)),
    (CollectSoon(0), Refused(EMPTY)),
    (CollectSoon(1), Refused(EMPTY)),
    (Work(0, 1), Worked((0, 0, 1), Settled::Finished(0))),
    (CollectSoon(0), Given(Some(5), Some(250))),
    (CollectSoon(0), Refused(EMPTY)),
    (Work(0, 1), Worked((1, 0, 1), Settled::Finished(0))),
    (CollectSoon(1), Given(Some(6), Some(249))),
];

/// Sixteen places less one for the close: the fourteenth frame leaves one, and a lease needs two.
#[test]
fn fourteen_frames_fill_a_journal(rt: HostRuntime) -> Result<(), Fail> {
    let parts = &[TWELVE_FRAMES, THREE_MORE, NO_LEASE];
    let left = left_after(&rt, rt.alloc(), &[PLAIN], parts)?;
    same(&rt, left.entries, 15);
    Ok(())
}

const THREE_MORE: &[Step] = &[
    (IsFull, Full(false)),
    (RoomLeft, Room(3, false, false)),
    (Offer(0, 12), Accepted(12)),
    (IsFull, Full(false)),
    (RoomLeft, Room(2, false, false)),
    (Offer(0, 13), Accepted(13)),
    (IsFull, Full(true)),
    (RoomLeft, Room(1, false, true)),
    (Offer(0, 14), Accepted(14)),
    (IsFull, Full(true)),
];

/// Nobody waits for a frame that can't be leased any more.
const NO_LEASE: &[Step] = &[
    (Work(0, 1), Refused(Refusal::HistoryFull)),
    (CollectSoon(0), Refused(EMPTY)),
];

/// Where the epoch is being ended, all but a close is refused where it would be accepted, and what is refused
/// anyway is refused as before. The next epoch goes on.
#[test]
fn an_epoch_is_ended_before_its_journal_is_full(rt: HostRuntime) -> Result<(), Fail> {
    let ended = ended_after(&rt, rt.alloc(), &[PLAIN], &[ONE_IMAGE, ENDING])?;
    same(&rt, told_of_places(&ended), (4, 11, true, [Some(0), None]));
    same(&rt, entries_again(&rt, rt.alloc(), ended)?, (4, 4));
    Ok(())
}

/// How many entries an end's journal has and may have beside, whether it is full, and the numbers of the
/// first two streams that handed their seats over.
fn told_of_places(ended: &Ended) -> (usize, usize, bool, [Option<u32>; 2]) {
    let numbers = [ended.number(0), ended.number(1)];
    (
        ended.journal().len(),
        ended.left(),
        ended.is_full(),
        numbers,
    )
}

/// How many entries the epoch had, and how many the next one has.
fn entries_again<R: Wait + Abort>(
    rt: &R,
    alloc: Global,
    ended: Ended,
) -> Result<(usize, usize), Fail> {
    let (again, entries) = again_after(rt, alloc, ended, &[AFTER_ALL])?;
    Ok((entries, again.journal().len()))
}

const ONE_IMAGE: &[Step] = &[
    (Offer(0, 0), Accepted(0)),
    (Work(0, 1), Worked((0, 0, 1), Settled::Finished(0))),
    (Offer(0, 1), Accepted(1)),
];

const ENDING: &[Step] = &[
    (IsFull, Full(false)),
    (RoomLeft, Room(11, false, false)),
    (EndEpoch, Full(true)),
    (RoomLeft, Room(11, true, true)),
    (Offer(0, 2), Refused(Refusal::HistoryFull)),
    (CollectSoon(0), Refused(Refusal::HistoryFull)),
    (Work(0, 1), Refused(Refusal::HistoryFull)),
];

const AFTER_ALL: &[Step] = &[
    (IsFull, Full(false)),
    (RoomLeft, Room(15, false, false)),
    (CollectSoon(0), Given(Some(0), Some(255))),
    (Work(0, 1), Worked((0, 1, 1), Settled::Finished(1))),
    (CollectSoon(0), Given(Some(1), Some(254))),
];

/// One frame at a time, 1,000 of them.
#[test]
fn a_client_waits_for_the_one_worker(rt: HostRuntime) -> Result<(), Fail> {
    serve_whole(&rt, rt.alloc(), soon_of(Plan::whole(1, 1, 1_000), 1))
}

/// 2,000 frames. There are never more streams with frames than workers, so each client has one at a time.
#[test]
fn two_clients_wait_for_two_workers(rt: HostRuntime) -> Result<(), Fail> {
    serve_whole(&rt, rt.alloc(), soon_of(Plan::whole(2, 2, 1_000), 1))
}

/// 2,400 frames, of three streams that sometimes wait.
#[test]
fn three_clients_share_two_workers(rt: HostRuntime) -> Result<(), Fail> {
    serve_whole(&rt, rt.alloc(), soon_of(Plan::whole(3, 2, 800), 4))
}

/// The same, whose clients collect what comes soon and have no more than so many frames of a stream under
/// way.
fn soon_of(plan: Plan, most: usize) -> Plan {
    Plan {
        is_soon: true,
        most,
        ..plan
    }
}

/// A journal that has no place for all frames of even one stream, which take 128 entries, fills while some
/// wait for a lease, and some for an image.
#[test]
fn a_full_journal_wakes_all_who_wait(rt: HostRuntime) -> Result<(), Fail> {
    for round in 0..40 {
        let plan = Plan {
            limit: 120,
            is_soon: round % 2 == 0,
            outcome: Err(Refusal::HistoryFull),
            delivered: None,
            ..Plan::whole(16, 8, 32)
        };
        let ended = serve(&rt, rt.alloc(), plan)?;
        same(&rt, ended.is_full(), true);
    }
    Ok(())
}
