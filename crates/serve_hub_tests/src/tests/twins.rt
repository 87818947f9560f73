//! A hub beside a book of the same setup, which answer the same.
ghost use Rattle.std.specs.Prelude.{◌≡◌};
ghost use Rattle.serve_core.specs.Schedule.{opened_schedule};

use super::calls::after_one_frame;
use super::ends::followed;
use super::leases::{TALL, TALL_FRAME};
use super::seated::{Seated, seated_after};
use super::steps::{AFTER_CLOSE, Answer, CLOSED, FIRST_FRAME, FIRST_IMAGE};
use super::{Core, PLAIN, same, same_list, setup_of, stepped, told};
use serve_core::Setup;
use serve_hub::{Ended, Epoch, Refusal, Settled};
use std::alloc::Global;
use std::marker::Brand;
use std::process::Abort;
use std::sync::Wait;
use std::sync::ledger::Blank;
use std::test::Fail;

/// The end of a hub after one frame, which answers as a book does in [`after_one_frame`].
fn ended_after_one_frame<L: Epoch, R: Wait + Abort>(
    rt: &R,
    alloc: Global,
    blank: Blank,
    setup: Setup,
) -> Result<Ended, Fail>
    requires name { blank.name ≡ L.name }
    requires parts { blank.parts ≡ L.parts }
    requires enough { blank.parts ≡ 80 }
    requires opening { opened_schedule setup ≡ L.opening }
{
    let mut hub = seated_after::<L, R>(rt, alloc, blank, setup, FIRST_FRAME)?;
    works(rt, &mut hub);
    followed(rt, alloc, hub, &[FIRST_IMAGE, CLOSED, AFTER_CLOSE])
}

/// Leases, is refused a second lease and an image, and settles.
fn works<L: Epoch, R: Wait + Abort>(rt: &R, hub: &mut Seated<L>) {
    let lease = hub.try_lease(rt, 0).expect(rt, "a lease");
    same(rt, told(&lease), (0, 0, 1));
    let busy = Answer::Refused(Refusal::Core(Core::Busy));
    let empty = Answer::Refused(Refusal::Core(Core::Empty));
    same(
        rt,
        (hub.worked(rt, 0, 0), hub.collected(rt, 0)),
        (busy, empty),
    );
    let done = hub.settled(rt, 0, stepped(lease, 1));
    same(rt, done, Ok(Settled::Finished(0)));
}

#[test]
fn a_hub_answers_as_its_book(rt: HostRuntime) -> Result<(), Fail> {
    let alloc = rt.alloc();
    let setup = setup_of(alloc, 1, &[PLAIN])?;
    let ended = ended_after_one_frame::<Brand, _>(&rt, alloc, Blank::new(80), setup)?;
    let book = after_one_frame(&rt, alloc)?;
    same(&rt, ended.journal().len(), 5);
    same_list(&rt, ended.journal(), book.journal());
    same(&rt, (ended.bands(0), book.bands(0)), (1, 1));
    same(&rt, (ended.units(0), ended.clock()), (Some(1), 0));
    same(&rt, ended.account(0), book.desk().account(0));
    same(&rt, ended.counts(0), book.desk().counts(0));
    Ok(())
}

/// The end of a hub whose worker settled a lease and got the next one at once.
fn ended_after_two_leases<L: Epoch, R: Wait + Abort>(
    rt: &R,
    alloc: Global,
    blank: Blank,
    setup: Setup,
) -> Result<Ended, Fail>
    requires name { blank.name ≡ L.name }
    requires parts { blank.parts ≡ L.parts }
    requires enough { blank.parts ≡ 80 }
    requires opening { opened_schedule setup ≡ L.opening }
{
    let mut hub = seated_after::<L, R>(rt, alloc, blank, setup, TALL_FRAME)?;
    goes_on(rt, &mut hub);
    Ok(hub.ended(rt))
}

/// Leases, settles half of a frame, and the other half with the lease that came with that.
fn goes_on<L: Epoch, R: Wait + Abort>(rt: &R, hub: &mut Seated<L>) {
    let lease = hub.try_lease(rt, 0).expect(rt, "a lease");
    let (done, next) = hub
        .settled_and_leased(rt, 0, stepped(lease, 1))
        .expect(rt, "a settlement");
    let next = next.expect(rt, "the next lease");
    same(rt, (done, told(&next)), (Settled::Returned, (0, 0, 1)));
    let (done, next) = hub
        .settled_and_leased(rt, 0, stepped(next, 1))
        .expect(rt, "a settlement");
    same(rt, (done, next.is_none()), (Settled::Finished(0), true));
    if let Some(lease) = next {
        let _job = lease.into_job();
    }
}

#[test]
fn a_worker_settles_and_goes_on(rt: HostRuntime) -> Result<(), Fail> {
    let setup = setup_of(rt.alloc(), 1, &[TALL])?;
    let ended = ended_after_two_leases::<Brand, _>(&rt, rt.alloc(), Blank::new(80), setup)?;
    same(&rt, (ended.journal().len(), ended.bands(0)), (5, 2));
    Ok(())
}
