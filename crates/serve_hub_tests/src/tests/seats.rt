//! Seats that come too early, and leases that come to the wrong seat or hub.
ghost use Rattle.std.specs.Prelude.{◌≡◌};
ghost use Rattle.serve_core.specs.Schedule.{opened_schedule};

use super::leases::{TALL, TALL_FRAME, strays};
use super::seated::{Seated, seated_after};
use super::steps::{Answer, Call, Step};
use super::{Core, PLAIN, Served, job_spec_of, same, setup_of, stepped, told};
use lease::{JobSpec, Lease, is_same_spec};
use serve_core::{Collected, Setup};
use serve_hub::{Came, CollectRefused, Ended, Epoch, EpochOwner, Fault, Refusal, Settled};
use std::alloc::Global;
use std::marker::Brand;
use std::process::Abort;
use std::sync::Wait;
use std::sync::ledger::Blank;
use std::test::Fail;

/// The lease comes back, with what it told before.
fn came_back<L: Epoch, R: Wait + Abort>(
    rt: &R,
    seated: &mut Seated<L>,
    w: u32,
    lease: Lease,
    refusal: Refusal,
) -> Lease {
    let lent = told(&lease);
    let lease = refused(rt, seated.settle(rt, w, lease), refusal);
    same(rt, told(&lease), lent);
    lease
}

/// The lease that came back with this refusal.
fn refused(
    rt: &impl Abort,
    answer: Result<Settled, (Refusal, Option<Lease>)>,
    refusal: Refusal,
) -> Lease {
    match answer {
        Err((got, Some(lease))) => {
            same(rt, got, refusal);
            lease
        }
        Err((_, None)) => panic!(rt; "a stray lease was kept"),
        Ok(_) => panic!(rt; "a stray lease was settled"),
    }
}

/// The hub and its seats, which come back for this fault.
fn not_ended<L: Epoch, R: Abort>(rt: &R, seated: Seated<L>, fault: Fault) -> Seated<L> {
    match seated.finish() {
        Ok(_) => panic!(rt; "ended in spite of {fault:?}"),
        Err(mismatch) => {
            same(rt, mismatch.fault, fault);
            Seated {
                owner: EpochOwner::new(mismatch.unlocked.lock()),
                streams: mismatch.streams,
                workers: mismatch.workers,
            }
        }
    }
}

/// The frames of two streams.
const TWO_FRAMES: &[Step] = &[
    (Call::Offer(0, 0x00), Answer::Accepted(0)),
    (Call::Offer(1, 0x00), Answer::Accepted(0)),
];

const DARK: &[Step] = &[(Call::Offer(0, 0x00), Answer::Accepted(0))];

const LIGHT: &[Step] = &[(Call::Offer(0, 0x01), Answer::Accepted(0))];

/// A stream with another chain.
const FLIPPED: Served<'static> = Served {
    ops: "hflip",
    ..PLAIN
};

#[test]
fn seats_come_early(rt: HostRuntime) -> Result<(), Fail> {
    let alloc = rt.alloc();
    let setup = setup_of(alloc, 2, &[PLAIN, PLAIN])?;
    let strange = setup_of(alloc, 1, &[FLIPPED])?;
    let spec = job_spec_of(alloc, &FLIPPED)?;
    let ended = early::<Brand, _>(&rt, alloc, Blank::new(80), setup, strange, &spec)?;
    same(&rt, ended.journal().len(), 6);
    Ok(())
}

fn early<L: Epoch, R: Wait + Abort>(
    rt: &R,
    alloc: Global,
    blank: Blank,
    setup: Setup,
    strange: Setup,
    spec: &JobSpec,
) -> Result<Ended, Fail>
    requires name { blank.name ≡ L.name }
    requires parts { blank.parts ≡ L.parts }
    requires enough { blank.parts ≡ 80 }
    requires opening { opened_schedule setup ≡ L.opening }
{
    let seated = seated_after::<L, R>(rt, alloc, blank, setup, TWO_FRAMES)?;
    let mut seated = settled_in_time(rt, seated);
    refuses_another(rt, alloc, &mut seated, strange, spec)?;
    Ok(with_all_seats(rt, seated))
}

/// The lease of another hub, over this chain, comes back to a worker that has none.
fn refuses_another<L: Epoch, R: Wait + Abort>(
    rt: &R,
    alloc: Global,
    seated: &mut Seated<L>,
    strange: Setup,
    spec: &JobSpec,
) -> Result<(), Fail> {
    let lease = lease_of_another::<Brand, R>(rt, alloc, Blank::new(80), strange)?;
    let lease = came_back(rt, seated, 0, lease, Refusal::Core(Core::NoLease));
    same(rt, told(&lease), (0, 0, 1));
    same(rt, lease.source().data(), [0x00].as_slice());
    same(
        rt,
        (is_same_spec(lease.spec(), spec), lease.used()),
        (true, 0),
    );
    let _job = lease.into_job();
    Ok(())
}

/// The lease of a hub of one frame, which it never gets back.
fn lease_of_another<L: Epoch, R: Wait + Abort>(
    rt: &R,
    alloc: Global,
    blank: Blank,
    setup: Setup,
) -> Result<Lease, Fail>
    requires name { blank.name ≡ L.name }
    requires parts { blank.parts ≡ L.parts }
    requires enough { blank.parts ≡ 80 }
    requires opening { opened_schedule setup ≡ L.opening }
{
    let mut seated = seated_after::<L, R>(rt, alloc, blank, setup, DARK)?;
    Ok(seated.try_lease(rt, 0).expect(rt, "a lease"))
}

/// The end of a hub, which can't be ended while a seat is missing.
fn with_all_seats<L: Epoch, R: Abort>(rt: &R, seated: Seated<L>) -> Ended {
    let mut seated = seated;
    let last = seated.workers.pop().expect(rt, "a seat");
    let seated = not_ended(rt, seated, Fault::SeatMissing);
    let mut seated = not_ended(rt, seated, Fault::SeatMissing);
    seated.workers.push(last).expect(rt, "a place");
    seated.ended(rt)
}

/// Both workers lease. The second can't settle the first one's lease, and the hub can't be ended before each
/// has settled its own.
fn settled_in_time<L: Epoch, R: Wait + Abort>(rt: &R, seated: Seated<L>) -> Seated<L> {
    let mut seated = seated;
    let first = seated.lease(rt, 0).expect(rt, "a lease");
    let second = seated.try_lease(rt, 1).expect(rt, "a lease");
    same(rt, (told(&first), told(&second)), ((0, 0, 1), (1, 0, 1)));
    let first = came_back(rt, &mut seated, 1, first, Refusal::StrayLease);
    let mut seated = not_ended(rt, seated, Fault::LeaseOut);
    same(rt, seated.settled(rt, 0, first), Ok(Settled::Returned));
    same(rt, seated.settled(rt, 1, second), Ok(Settled::Returned));
    seated
}

#[test]
fn a_stray_lease_comes_back(rt: HostRuntime) -> Result<(), Fail> {
    let setup = setup_of(rt.alloc(), 1, &[TALL])?;
    strayed::<Brand, _>(&rt, rt.alloc(), Blank::new(80), setup)
}

/// Leases of another grant and another number than the worker's come back, and its own settles.
fn strayed<L: Epoch, R: Wait + Abort>(
    rt: &R,
    alloc: Global,
    blank: Blank,
    setup: Setup,
) -> Result<(), Fail>
    requires name { blank.name ≡ L.name }
    requires parts { blank.parts ≡ L.parts }
    requires enough { blank.parts ≡ 80 }
    requires opening { opened_schedule setup ≡ L.opening }
{
    let mut seated = seated_after::<L, R>(rt, alloc, blank, setup, TALL_FRAME)?;
    settle_strays(rt, alloc, &mut seated)
}

fn settle_strays<L: Epoch, R: Wait + Abort>(
    rt: &R,
    alloc: Global,
    seated: &mut Seated<L>,
) -> Result<(), Fail> {
    let (smaller, later) = strays(alloc)?;
    let lease = seated.try_lease(rt, 0).expect(rt, "a lease");
    same(rt, told(&lease), (0, 0, 2));
    let smaller = came_back(rt, seated, 0, smaller, Refusal::StrayLease);
    let later = came_back(rt, seated, 0, later, Refusal::StrayLease);
    let _jobs = (smaller.into_job(), later.into_job());
    let done = seated.settled(rt, 0, stepped(lease, 2));
    same(rt, done, Ok(Settled::Finished(0)));
    Ok(())
}

/// Two hubs can't tell each other's leases where stream, number, grant, first band and chain are the same.
#[test]
fn equal_leases_are_settled_crosswise(rt: HostRuntime) -> Result<(), Fail> {
    let alloc = rt.alloc();
    let (setup, twin) = (setup_of(alloc, 1, &[PLAIN])?, setup_of(alloc, 1, &[PLAIN])?);
    let ended = crosswise::<Brand, _>(&rt, alloc, Blank::new(80), setup, twin)?;
    same(&rt, ended.journal().len(), 4);
    Ok(())
}

fn crosswise<L: Epoch, R: Wait + Abort>(
    rt: &R,
    alloc: Global,
    blank: Blank,
    setup: Setup,
    twin: Setup,
) -> Result<Ended, Fail>
    requires name { blank.name ≡ L.name }
    requires parts { blank.parts ≡ L.parts }
    requires enough { blank.parts ≡ 80 }
    requires opening { opened_schedule setup ≡ L.opening }
{
    let mut one = seated_after::<L, R>(rt, alloc, blank, setup, DARK)?;
    other_across(rt, alloc, &mut one, twin)?;
    same(rt, torn(rt, &mut one), Some(0xFE));
    Ok(one.ended(rt))
}

/// The hub that has the other frame.
fn other_across<L: Epoch, R: Wait + Abort>(
    rt: &R,
    alloc: Global,
    one: &mut Seated<L>,
    twin: Setup,
) -> Result<(), Fail> {
    let ended = across::<L, Brand, R>(rt, alloc, one, Blank::new(80), twin)?;
    same(rt, ended.journal().len(), 4);
    Ok(())
}

fn across<L: Epoch, M: Epoch, R: Wait + Abort>(
    rt: &R,
    alloc: Global,
    one: &mut Seated<L>,
    blank: Blank,
    setup: Setup,
) -> Result<Ended, Fail>
    requires name { blank.name ≡ M.name }
    requires parts { blank.parts ≡ M.parts }
    requires enough { blank.parts ≡ 80 }
    requires opening { opened_schedule setup ≡ M.opening }
{
    let mut two = seated_after::<M, R>(rt, alloc, blank, setup, LIGHT)?;
    exchange(rt, one, &mut two);
    same(rt, torn(rt, &mut two), Some(0xFF));
    Ok(two.ended(rt))
}

/// The worker of each hub settles the other's lease.
fn exchange<L: Epoch, M: Epoch, R: Wait + Abort>(rt: &R, one: &mut Seated<L>, two: &mut Seated<M>) {
    let first = stepped(one.try_lease(rt, 0).expect(rt, "a lease"), 1);
    let second = stepped(two.try_lease(rt, 0).expect(rt, "a lease"), 1);
    let done = (one.settled(rt, 0, second), two.settled(rt, 0, first));
    let finished = Ok(Settled::Finished(0));
    same(rt, done, (finished, finished));
}

/// The first sample of an image of another frame than the oldest that the seat keeps, which it gives up.
fn torn<L: Epoch, R: Wait + Abort>(rt: &R, seated: &mut Seated<L>) -> Option<u8> {
    let sample = torn_sample(rt, seated.try_collect(rt, 0));
    for seat in &seated.streams {
        same(rt, seat.kept(), 0);
        same(rt, seat.torn(), Some(0));
    }
    sample
}

fn torn_sample(rt: &impl Abort, answer: Result<Collected, CollectRefused>) -> Option<u8> {
    let CollectRefused { refusal, pair } = answer.expect_err(rt, "not torn");
    same(rt, refusal, Refusal::Torn(Came::Source));
    let pair = pair.expect(rt, "an image");
    pair.image.data().first().copied()
}
