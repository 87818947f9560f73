//! A journal with an admission, whose streams an end tells.
ghost use Rattle.std.specs.Prelude.{◌≡◌};
ghost use Rattle.serve_core.specs.Schedule.{opened_schedule};

use super::seated::seated_after;
use super::steps::Answer::{Accepted, Admitted, Worked};
use super::steps::Call::{Offer, Work};
use super::steps::{Step, follow};
use super::{PLAIN, Served, book_of, same, setup_of, state_of};
use serve_core::{Setup, StreamSpec};
use serve_hub::{Book, Ended, Epoch, Refusal, Settled};
use std::alloc::Global;
use std::marker::Brand;
use std::process::Abort;
use std::sync::Wait;
use std::sync::ledger::Blank;
use std::test::Fail;

/// The stream that is admitted.
const LATE: Served<'static> = Served {
    account: (1, 8),
    ..PLAIN
};

/// One frame of it is finished.
const ONE_FRAME: &[Step] = &[
    (Offer(1, 7), Accepted(0)),
    (Work(0, 1), Worked((1, 0, 1), Settled::Finished(0))),
];

/// Budget, deadline, and how many frames were accepted, finished and collected, and what was charged: one
/// unit is the whole budget, so the deadline is a second period away.
const AFTER: Option<[u64; 6]> = Some([1, 16, 1, 1, 0, 1]);

#[test]
fn an_admission_is_replayed_from_its_end(rt: HostRuntime) -> Result<(), Fail> {
    let setup = setup_of(rt.alloc(), 1, &[PLAIN])?;
    let ended = admitted::<Brand, _>(&rt, rt.alloc(), Blank::new(80), setup)?;
    same(&rt, state_of(ended.account(1), ended.counts(1)), AFTER);
    let spec = spec_of(&rt, &ended)?;
    let mut book = book_of(rt.alloc(), &[PLAIN])?;
    replay(&rt, rt.alloc(), &mut book, spec)
}

/// What a hub leaves that admitted a stream, and finished a frame of it.
fn admitted<L: Epoch, R: Wait + Abort>(
    rt: &R,
    alloc: Global,
    blank: Blank,
    setup: Setup,
) -> Result<Ended, Fail>
    requires name { blank.name ≡ L.name }
    requires parts { blank.parts ≡ L.parts }
    requires enough { blank.parts ≡ 80 }
    requires opening { opened_schedule setup ≡ L.opening }
{
    let mut seated = seated_after::<L, R>(rt, alloc, blank, setup, &[])?;
    same(rt, seated.admit(rt, alloc, &LATE)?, Admitted(1));
    seated.follow(rt, alloc, ONE_FRAME)?;
    Ok(seated.ended(rt))
}

/// What the end tells of the admitted stream. There is no other behind it.
fn spec_of(rt: &impl Abort, ended: &Ended) -> Result<StreamSpec, Fail> {
    same(rt, ended.spec(2).is_none(), true);
    let spec = ended.spec(1).ok_or("no spec")?;
    Ok(spec.try_clone()?)
}

/// The same calls on a book of the same setup.
fn replay(rt: &impl Abort, alloc: Global, book: &mut Book, spec: StreamSpec) -> Result<(), Fail> {
    same(rt, number_of(book, alloc, spec), Ok(1));
    follow(rt, alloc, book, ONE_FRAME)?;
    same(
        rt,
        state_of(book.desk().account(1), book.desk().counts(1)),
        AFTER,
    );
    Ok(())
}

/// The number that a stream gets.
fn number_of(book: &mut Book, alloc: Global, spec: StreamSpec) -> Result<u32, Refusal> {
    match book.admit(alloc, spec) {
        Ok(number) => Ok(number),
        Err((refusal, _spec)) => Err(refusal),
    }
}
