//! Hubs that aren't ended while the seat of a stream is missing.
ghost use Rattle.std.specs.Prelude.{◌≡◌};
ghost use Rattle.serve_core.specs.Schedule.{opened_schedule};

use super::seated::{Seated, seated_after};
use super::steps::Answer::Admitted;
use super::steps::Call::Admit;
use super::steps::Step;
use super::{PLAIN, same, setup_of};
use serve_core::Setup;
use serve_hub::{Ended, Epoch, EpochOwner, Fault};
use std::alloc::Global;
use std::marker::Brand;
use std::process::Abort;
use std::sync::Wait;
use std::sync::ledger::Blank;
use std::test::Fail;

#[test]
fn a_hub_waits_for_the_seat_of_a_stream(rt: HostRuntime) -> Result<(), Fail> {
    let alloc = rt.alloc();
    let setup = setup_of(alloc, 1, &[PLAIN, PLAIN])?;
    let ended = without_the_last::<Brand, _>(&rt, alloc, Blank::new(80), setup, &[])?;
    same(&rt, ended.journal().len(), 0);
    Ok(())
}

#[test]
fn a_hub_waits_for_the_seat_of_an_admitted_stream(rt: HostRuntime) -> Result<(), Fail> {
    let alloc = rt.alloc();
    let setup = setup_of(alloc, 1, &[PLAIN])?;
    let ended = without_the_last::<Brand, _>(&rt, alloc, Blank::new(80), setup, ONE_MORE)?;
    same(&rt, ended.journal().len(), 1);
    Ok(())
}

/// The second stream's admission.
const ONE_MORE: &[Step] = &[(Admit(&PLAIN), Admitted(1))];

/// The end of a hub of two streams after these calls, which isn't ended before the second seat is there.
fn without_the_last<L: Epoch, R: Wait + Abort>(
    rt: &R,
    alloc: Global,
    blank: Blank,
    setup: Setup,
    steps: &[Step],
) -> Result<Ended, Fail>
    requires name { blank.name ≡ L.name }
    requires parts { blank.parts ≡ L.parts }
    requires enough { blank.parts ≡ 80 }
    requires opening { opened_schedule setup ≡ L.opening }
{
    let seated = seated_after::<L, R>(rt, alloc, blank, setup, steps)?;
    Ok(with_the_last(rt, seated))
}

fn with_the_last<L: Epoch, R: Abort>(rt: &R, seated: Seated<L>) -> Ended {
    let mut seated = seated;
    let last = seated.streams.pop().expect(rt, "a seat");
    let mut seated = not_ended(rt, seated);
    seated.streams.push(last).expect(rt, "a place");
    seated.ended(rt)
}

/// The hub and the seats that are there come back, and its book tells that it has two streams.
fn not_ended<L: Epoch, R: Abort>(rt: &R, seated: Seated<L>) -> Seated<L> {
    match seated.finish() {
        Ok(_) => panic!(rt; "ended without a seat"),
        Err(mismatch) => {
            let streams = mismatch.unlocked.book().desk().streams();
            let told = (mismatch.fault, mismatch.streams.len(), streams);
            same(rt, told, (Fault::SeatMissing, 1, 2));
            Seated {
                owner: EpochOwner::new(mismatch.unlocked.lock()),
                streams: mismatch.streams,
                workers: mismatch.workers,
            }
        }
    }
}
