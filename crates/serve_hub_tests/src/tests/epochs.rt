//! Hubs that go on in further epochs.
ghost use Rattle.std.specs.Prelude.{◌≡◌};

use super::ends::{again_after, ended_after, followed};
use super::seated::Seated;
use super::steps::Answer::{Full, Given, Refused, Worked};
use super::steps::Call::{Collect, IsFull, Work};
use super::steps::{CLOSED, FIFTEEN_FRAMES, Step};
use super::{Core, PLAIN, same, state_of};
use serve_hub::{Ended, Epoch, Hub, HubError, Refusal, Settled};
use std::alloc::Global;
use std::marker::Brand;
use std::process::Abort;
use std::sync::Wait;
use std::sync::ledger::Blank;
use std::test::Fail;

/// The end of another epoch, or for want of memory that of the last one.
fn next_or_last<L: Epoch, R: Wait + Abort>(
    rt: &R,
    alloc: Global,
    blank: Blank,
    ended: Ended,
) -> Result<(Ended, bool), Fail>
    requires name { blank.name ≡ L.name }
    requires parts { blank.parts ≡ L.parts }
    requires enough { blank.parts ≡ 80 }
    requires opening { ended.book.desk ≡ L.opening }
{
    match Hub::<L>::reopen(alloc, blank, ended, 16) {
        Err(refused) => {
            same(rt, refused.refusal, HubError::NoMemory);
            Ok((refused.ended, false))
        }
        Ok(reopened) => {
            let ended = followed(rt, alloc, Seated::again(reopened), &[FIRST_IMAGES])?;
            Ok((ended, true))
        }
    }
}

/// The end of a hub that was refused another epoch.
fn too_short<L: Epoch, R: Abort>(rt: &R, alloc: Global, blank: Blank, ended: Ended) -> Ended
    requires name { blank.name ≡ L.name }
    requires parts { blank.parts ≡ L.parts }
    requires enough { blank.parts ≡ 80 }
    requires opening { ended.book.desk ≡ L.opening }
    ensures { result ≡ ended }
{
    match Hub::<L>::reopen(alloc, blank, ended, 15) {
        Ok(_) => panic!(rt; "a limit of 15"),
        Err(refused) => {
            same(rt, refused.refusal, HubError::BadLimit);
            refused.ended
        }
    }
}

/// What a hub leaves whose journal fifteen frames filled.
fn fifteen_frames<R: Wait + Abort>(rt: &R, alloc: Global) -> Result<Ended, Fail> {
    ended_after(rt, alloc, &[PLAIN], &[FIFTEEN_FRAMES, CLOSED])
}

/// Fifteen frames fill a journal, and five images of them the next one.
#[test]
fn three_epochs_give_fifteen_images(rt: HostRuntime) -> Result<(), Fail> {
    let alloc = rt.alloc();
    let ended = fifteen_frames(&rt, alloc)?;
    let ended = too_short::<Brand, _>(&rt, alloc, Blank::new(80), ended);
    let ended = five_images(&rt, alloc, ended, FIRST_IMAGES, 16)?;
    let ended = five_images(&rt, alloc, ended, NEXT_IMAGES, 15)?;
    let ended = five_images(&rt, alloc, ended, LAST_IMAGES, 15)?;
    same(&rt, left(&ended), (15, Some([1, 64, 15, 15, 15, 15])));
    Ok(())
}

/// What an epoch of these calls leaves, which fill its journal. The one before it had so many entries.
fn five_images<R: Wait + Abort>(
    rt: &R,
    alloc: Global,
    ended: Ended,
    steps: &[Step],
    before: usize,
) -> Result<Ended, Fail> {
    let (next, entries) = again_after(rt, alloc, ended, &[HAS_ROOM, steps, HAS_NONE])?;
    same(rt, (entries, next.journal().len()), (before, 15));
    same(rt, (next.limit(), next.is_full()), (16, true));
    same(rt, (next.bands(0), next.units(0)), (5, Some(5)));
    Ok(next)
}

const HAS_ROOM: &[Step] = &[(IsFull, Full(false))];

const HAS_NONE: &[Step] = &[(IsFull, Full(true))];

/// How many entries an end has, and where its first stream is.
fn left(ended: &Ended) -> (usize, Option<[u64; 6]>) {
    let state = state_of(ended.account(0), ended.counts(0));
    (ended.journal().len(), state)
}

/// The next call opens what a refused one leaves. It holds whichever growth is refused.
#[test]
fn a_hub_opens_again_after_a_want_of_memory(rt: HostRuntime) -> Result<(), Fail> {
    let alloc = rt.alloc();
    let ended = fifteen_frames(&rt, alloc)?;
    let ended = opened_in_two(&rt, alloc, ended)?;
    same(&rt, left(&ended), (15, Some([1, 24, 15, 5, 5, 5])));
    Ok(())
}

/// The end of an epoch that opens at the second call where the first is refused.
fn opened_in_two<R: Wait + Abort>(rt: &R, alloc: Global, ended: Ended) -> Result<Ended, Fail> {
    let (ended, is_open) = tried(rt, alloc, ended)?;
    if is_open {
        return Ok(ended);
    }
    match tried(rt, alloc, ended)? {
        (ended, true) => Ok(ended),
        _ => Err("was the memory refused twice?".into()),
    }
}

/// The end of another epoch, or for want of memory that of the last one, which is as it was.
fn tried<R: Wait + Abort>(rt: &R, alloc: Global, ended: Ended) -> Result<(Ended, bool), Fail> {
    same(rt, left(&ended), (16, Some([1, 4, 15, 0, 0, 0])));
    next_or_last::<Brand, R>(rt, alloc, Blank::new(80), ended)
}

/// The sixth lease lacks the entry of its settlement.
const FIRST_IMAGES: &[Step] = &[
    (Work(0, 1), Worked((0, 0, 1), Settled::Finished(0))),
    (Collect(0), Given(Some(0), Some(255))),
    (Work(0, 1), Worked((0, 1, 1), Settled::Finished(1))),
    (Collect(0), Given(Some(1), Some(254))),
    (Work(0, 1), Worked((0, 2, 1), Settled::Finished(2))),
    (Collect(0), Given(Some(2), Some(253))),
    (Work(0, 1), Worked((0, 3, 1), Settled::Finished(3))),
    (Collect(0), Given(Some(3), Some(252))),
    (Work(0, 1), Worked((0, 4, 1), Settled::Finished(4))),
    (Collect(0), Given(Some(4), Some(251))),
    (Work(0, 1), Refused(Refusal::HistoryFull)),
];

const NEXT_IMAGES: &[Step] = &[
    (Work(0, 1), Worked((0, 5, 1), Settled::Finished(5))),
    (Collect(0), Given(Some(5), Some(250))),
    (Work(0, 1), Worked((0, 6, 1), Settled::Finished(6))),
    (Collect(0), Given(Some(6), Some(249))),
    (Work(0, 1), Worked((0, 7, 1), Settled::Finished(7))),
    (Collect(0), Given(Some(7), Some(248))),
    (Work(0, 1), Worked((0, 8, 1), Settled::Finished(8))),
    (Collect(0), Given(Some(8), Some(247))),
    (Work(0, 1), Worked((0, 9, 1), Settled::Finished(9))),
    (Collect(0), Given(Some(9), Some(246))),
    (Work(0, 1), Refused(Refusal::HistoryFull)),
];

/// Nothing is left behind the last image, and the stream was closed two epochs ago.
const LAST_IMAGES: &[Step] = &[
    (Work(0, 1), Worked((0, 10, 1), Settled::Finished(10))),
    (Collect(0), Given(Some(10), Some(245))),
    (Work(0, 1), Worked((0, 11, 1), Settled::Finished(11))),
    (Collect(0), Given(Some(11), Some(244))),
    (Work(0, 1), Worked((0, 12, 1), Settled::Finished(12))),
    (Collect(0), Given(Some(12), Some(243))),
    (Work(0, 1), Worked((0, 13, 1), Settled::Finished(13))),
    (Collect(0), Given(Some(13), Some(242))),
    (Work(0, 1), Worked((0, 14, 1), Settled::Finished(14))),
    (Collect(0), Given(Some(14), Some(241))),
    (Work(0, 1), Refused(Refusal::Core(Core::NoneReady))),
    (Collect(0), Refused(Refusal::Core(Core::Drained))),
];
