//! Hubs that go on without their released streams.
ghost use Rattle.std.specs.Prelude.{◌≡◌};
ghost use Rattle.serve_core.specs.Schedule.{opened_schedule};

use super::seated::{Seated, seated_after};
use super::steps::Answer::{Accepted, Admitted, Closed, Given, Worked};
use super::steps::Call::{Close, Collect, Offer, Work};
use super::steps::Step;
use super::{PLAIN, frame_of, same, setup_of, state_of};
use serve_core::Setup;
use serve_hub::{Ended, Epoch, Hub, Retired, Settled};
use std::alloc::Global;
use std::marker::Brand;
use std::process::Abort;
use std::sync::Wait;
use std::sync::ledger::Blank;
use std::test::Fail;

/// What a hub of four streams leaves at moment 9, two of which are released then: the first, whose deadline
/// is 8, and the last, which had no frame.
fn first_epoch<L: Epoch, R: Wait + Abort>(
    rt: &R,
    alloc: Global,
    blank: Blank,
    setup: Setup,
) -> Result<Ended, Fail>
    requires name { blank.name ≡ L.name }
    requires parts { blank.parts ≡ L.parts }
    requires enough { blank.parts ≡ 80 }
    requires opening { opened_schedule setup ≡ L.opening }
{
    let mut seated = seated_after::<L, _>(rt, alloc, blank, setup, FIRST_CALLS)?;
    offered_at_nine(rt, alloc, &mut seated)?;
    Ok(seated.ended(rt))
}

/// A frame of the second stream.
fn offered_at_nine<L: Epoch>(
    rt: &impl Wait,
    alloc: Global,
    seated: &mut Seated<L>,
) -> Result<(), Fail> {
    let Seated { owner, streams, .. } = seated;
    let seat = streams.get_mut(1).ok_or("no seat")?;
    let offer = serve_hub::Offer {
        at: 9,
        frame: frame_of(alloc, &[0x10])?,
        memory: None,
    };
    match owner.hub().offer(rt, alloc, seat, offer) {
        Ok(_) => Ok(()),
        Err(refused) => Err(refused.refusal.into()),
    }
}

/// The next epoch, in which the numbers of the released streams are given again.
fn next_epoch<L: Epoch, R: Wait + Abort>(
    rt: &R,
    alloc: Global,
    blank: Blank,
    ended: Ended,
) -> Result<Ended, Fail>
    requires name { blank.name ≡ L.name }
    requires parts { blank.parts ≡ L.parts }
    requires enough { blank.parts ≡ 80 }
    requires opening { ended.book.desk ≡ L.opening }
{
    match Hub::<L>::reopen(alloc, blank, ended, 16) {
        Err(refused) => Err(refused.refusal.into()),
        Ok(reopened) => {
            let mut seated = Seated::again(reopened);
            same(rt, seated.admit(rt, alloc, &PLAIN)?, Admitted(2));
            seated.follow(rt, alloc, NEXT_CALLS)?;
            Ok(seated.ended(rt))
        }
    }
}

#[test]
fn two_streams_go_on_without_two(rt: HostRuntime) -> Result<(), Fail> {
    let alloc = rt.alloc();
    let setup = setup_of(alloc, 1, &[PLAIN, PLAIN, PLAIN, PLAIN])?;
    let ended = first_epoch::<Brand, _>(&rt, alloc, Blank::new(80), setup)?;
    same(&rt, (ended.clock(), ended.journal().len()), (9, 11));
    same(&rt, who_stay(&ended), [false, true, true, false, false]);
    let Ok(Retired { ended, journal }) = ended.retire(alloc) else {
        return Err("not retired".into());
    };
    same(&rt, (journal.len(), ended.journal().len()), (11, 0));
    same(&rt, (ended.clock(), ended.limit()), (9, 16));
    let states = (
        state_of(ended.account(0), ended.counts(0)),
        state_of(ended.account(1), ended.counts(1)),
        state_of(ended.account(2), ended.counts(2)),
    );
    let want = (Some([1, 13, 1, 0, 0, 0]), Some([1, 8, 2, 1, 0, 1]), None);
    same(&rt, states, want);
    let ended = next_epoch::<Brand, _>(&rt, alloc, Blank::new(80), ended)?;
    same(&rt, (ended.clock(), ended.journal().len()), (9, 8));
    Ok(())
}

/// Which of five numbers are of streams that stay. No stream has the last.
fn who_stay(ended: &Ended) -> [bool; 5] {
    [
        ended.stays(0),
        ended.stays(1),
        ended.stays(2),
        ended.stays(3),
        ended.stays(4),
    ]
}

/// What a hub leaves whose only stream is closed.
fn closed<L: Epoch, R: Wait + Abort>(
    rt: &R,
    alloc: Global,
    blank: Blank,
    setup: Setup,
) -> Result<Ended, Fail>
    requires name { blank.name ≡ L.name }
    requires parts { blank.parts ≡ L.parts }
    requires enough { blank.parts ≡ 80 }
    requires opening { opened_schedule setup ≡ L.opening }
{
    let seated = seated_after::<L, _>(rt, alloc, blank, setup, &[(Close(0), Closed)])?;
    Ok(seated.ended(rt))
}

/// Where none would stay, nothing changes.
#[test]
fn the_only_stream_stays(rt: HostRuntime) -> Result<(), Fail> {
    let alloc = rt.alloc();
    let setup = setup_of(alloc, 1, &[PLAIN])?;
    let ended = closed::<Brand, _>(&rt, alloc, Blank::new(80), setup)?;
    match ended.retire(alloc) {
        Ok(_) => Err("no stream is left".into()),
        Err(ended) => {
            same(&rt, ended.journal().len(), 1);
            Ok(())
        }
    }
}

/// What a hub of two streams leaves, the first of which is over, with its deadline at 8.
fn over<L: Epoch, R: Wait + Abort>(
    rt: &R,
    alloc: Global,
    blank: Blank,
    setup: Setup,
) -> Result<Ended, Fail>
    requires name { blank.name ≡ L.name }
    requires parts { blank.parts ≡ L.parts }
    requires enough { blank.parts ≡ 80 }
    requires opening { opened_schedule setup ≡ L.opening }
{
    let seated = seated_after::<L, _>(rt, alloc, blank, setup, OVER_CALLS)?;
    Ok(seated.ended(rt))
}

/// What is left where the clock goes on, and how: the moment, the entries, and whether the first stream stays.
fn ticked(ended: Ended, at: u64) -> Result<(Ended, (u64, usize, bool)), Fail> {
    match ended.tick(at) {
        Err(_) => Err("the clock has ended".into()),
        Ok(ended) => {
            let stands = (ended.clock(), ended.journal().len(), ended.stays(0));
            Ok((ended, stands))
        }
    }
}

/// A stream is released where the clock comes to its deadline, though no frame was offered.
#[test]
fn the_clock_goes_on_between_epochs(rt: HostRuntime) -> Result<(), Fail> {
    let alloc = rt.alloc();
    let setup = setup_of(alloc, 1, &[PLAIN, PLAIN])?;
    let ended = over::<Brand, _>(&rt, alloc, Blank::new(80), setup)?;
    same(
        &rt,
        (ended.clock(), ended.journal().len(), ended.stays(0)),
        (0, 5, true),
    );
    let (ended, stands) = ticked(ended, 7)?;
    same(&rt, stands, (7, 0, true));
    let (ended, stands) = ticked(ended, 8)?;
    same(&rt, stands, (8, 0, false));
    let (ended, stands) = ticked(ended, 3)?;
    same(&rt, stands, (8, 0, false));
    same(
        &rt,
        state_of(ended.account(0), ended.counts(0)),
        Some([1, 8, 1, 1, 1, 1]),
    );
    match ended.tick((1 << 60) + 1) {
        Ok(_) => Err("past the end of the clock".into()),
        Err(ended) => {
            same(&rt, (ended.clock(), ended.limit()), (8, 16));
            match ended.retire(alloc) {
                Err(_) => Err("not retired".into()),
                Ok(retired) => {
                    same(&rt, retired.ended.clock(), 8);
                    same(&rt, retired.ended.spec(1).is_none(), true);
                    Ok(())
                }
            }
        }
    }
}

/// The first stream is over.
const OVER_CALLS: &[Step] = &[
    (Offer(0, 5), Accepted(0)),
    (Work(0, 1), Worked((0, 0, 1), Settled::Finished(0))),
    (Close(0), Closed),
    (Collect(0), Given(Some(5), Some(250))),
];

/// The second stream has had no frame yet.
const FIRST_CALLS: &[Step] = &[
    (Close(3), Closed),
    (Offer(0, 5), Accepted(0)),
    (Work(0, 1), Worked((0, 0, 1), Settled::Finished(0))),
    (Close(0), Closed),
    (Collect(0), Given(Some(5), Some(250))),
    (Offer(2, 6), Accepted(0)),
    (Work(0, 1), Worked((2, 0, 1), Settled::Finished(0))),
    (Offer(2, 7), Accepted(1)),
];

/// The deadlines are 13 and 8, and 4 for the new stream.
const NEXT_CALLS: &[Step] = &[
    (Collect(1), Given(Some(6), Some(249))),
    (Work(0, 1), Worked((1, 1, 1), Settled::Finished(1))),
    (Work(0, 1), Worked((0, 0, 1), Settled::Finished(0))),
    (Collect(1), Given(Some(7), Some(248))),
    (Collect(0), Given(Some(0x10), Some(0xEF))),
];
