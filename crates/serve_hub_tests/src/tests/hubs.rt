//! Hubs that one thread calls in turn, with the answers that were worked out by hand.
ghost use Rattle.std.specs.Prelude.{◌≡◌};
ghost use Rattle.serve_core.specs.Schedule.{opened_schedule};

use super::ends::{Left, followed, left_after, left_of};
use super::leases::{BLURRED, ONE_BAND};
use super::seated::{Seated, seated_after};
use super::steps::{Answer, CLOSED, Call, FIFTEEN_FRAMES, SEVEN_LEASES, Step, TWELVE_FRAMES};
use super::{Core, PLAIN, frame_of, same, setup_of, stepped, told};
use frame_view::Frame;
use serve_core::Setup;
use serve_hub::{Epoch, Hub, HubError, OfferRefused, Refusal, Settled};
use std::alloc::Global;
use std::marker::Brand;
use std::process::Abort;
use std::sync::ledger::Blank;
use std::sync::{Arc, Wait};
use std::test::Fail;

#[test]
fn offers_fill_the_journal(rt: HostRuntime) -> Result<(), Fail> {
    let left = left_after(&rt, rt.alloc(), &[PLAIN], &[FIFTEEN_FRAMES, CLOSED])?;
    same(&rt, left.entries, 16);
    same(&rt, (left.limit, left.is_full), (16, true));
    Ok(())
}

#[test]
fn a_limit_has_limits(rt: HostRuntime) -> Result<(), Fail> {
    let setup = setup_of(rt.alloc(), 1, &[PLAIN])?;
    let refused = short::<Brand>(rt.alloc(), Blank::new(80), setup);
    same(&rt, refused, Some(HubError::BadLimit));
    Ok(())
}

/// Why there is no hub for 15 entries.
fn short<L: Epoch>(alloc: Global, blank: Blank, setup: Setup) -> Option<HubError>
    requires name { blank.name ≡ L.name }
    requires parts { blank.parts ≡ L.parts }
    requires enough { blank.parts ≡ 80 }
    requires opening { opened_schedule setup ≡ L.opening }
{
    Hub::<L>::new(alloc, blank, setup, 15).err()
}

#[test]
fn leases_without_a_band_fill_the_journal(rt: HostRuntime) -> Result<(), Fail> {
    let left = left_after(&rt, rt.alloc(), &[PLAIN], &[SEVEN_LEASES, CLOSED])?;
    same(&rt, left.entries, 16);
    same(&rt, left.states[0], Some([1, 4, 1, 0, 0, 0]));
    same(&rt, (left.bands, left.units), (0, Some(0)));
    Ok(())
}

/// A band of a blur costs its radius more.
#[test]
fn units_are_what_bands_cost(rt: HostRuntime) -> Result<(), Fail> {
    let left = left_after(&rt, rt.alloc(), &[BLURRED], &[ONE_BAND])?;
    same(&rt, (left.bands, left.units), (1, Some(9)));
    same(&rt, left.states[0], Some([1, 40, 1, 1, 0, 9]));
    Ok(())
}

/// The entries of the settlement and the close are kept for them.
#[test]
fn a_lease_is_out_while_the_journal_fills(rt: HostRuntime) -> Result<(), Fail> {
    let alloc = rt.alloc();
    let frames = (frame_of(alloc, &[0x0C])?, frame_of(alloc, &[0x5A])?);
    let setup = setup_of(alloc, 1, &[PLAIN])?;
    let left = full_with_a_lease::<Brand, _>(&rt, alloc, Blank::new(80), setup, frames)?;
    same(&rt, left.entries, 16);
    same(&rt, left.states[0], Some([1, 8, 13, 1, 0, 1]));
    same(&rt, (left.bands, left.units), (1, Some(1)));
    Ok(())
}

fn full_with_a_lease<L: Epoch, R: Wait + Abort>(
    rt: &R,
    alloc: Global,
    blank: Blank,
    setup: Setup,
    frames: (Arc<Frame>, Arc<Frame>),
) -> Result<Left, Fail>
    requires name { blank.name ≡ L.name }
    requires parts { blank.parts ≡ L.parts }
    requires enough { blank.parts ≡ 80 }
    requires opening { opened_schedule setup ≡ L.opening }
{
    let mut seated = seated_after::<L, R>(rt, alloc, blank, setup, TWELVE_FRAMES)?;
    fill_beside_a_lease(rt, alloc, &mut seated, frames);
    left_of(followed(rt, alloc, seated, &[BEHIND_THE_LEASE]))
}

/// Leases the first of twelve frames, and offers the thirteenth and one more before its settlement.
fn fill_beside_a_lease<L: Epoch, R: Wait + Abort>(
    rt: &R,
    alloc: Global,
    seated: &mut Seated<L>,
    frames: (Arc<Frame>, Arc<Frame>),
) {
    let (next, last) = frames;
    let lease = seated.try_lease(rt, 0).expect(rt, "a lease");
    same(rt, told(&lease), (0, 0, 1));
    let next = number_of(seated.offer(rt, alloc, 0, next));
    same(rt, next, Ok(12));
    let last = number_of(seated.offer(rt, alloc, 0, last));
    same(rt, last, Err(Refusal::HistoryFull));
    let empty = Answer::Refused(Refusal::Core(Core::Empty));
    same(rt, seated.collected(rt, 0), empty);
    let done = seated.settled(rt, 0, stepped(lease, 1));
    same(rt, done, Ok(Settled::Finished(0)));
}

/// Nothing but the close is left.
const BEHIND_THE_LEASE: &[Step] = &[
    (Call::Collect(0), Answer::Refused(Refusal::HistoryFull)),
    (Call::CollectSoon(0), Answer::Refused(Refusal::HistoryFull)),
    (Call::Close(0), Answer::Closed),
];

/// The frame that comes back ends.
fn number_of(offered: Result<u64, OfferRefused>) -> Result<u64, Refusal> {
    match offered {
        Ok(number) => Ok(number),
        Err(refused) => Err(refused.refusal),
    }
}
