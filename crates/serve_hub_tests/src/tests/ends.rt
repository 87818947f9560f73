//! What hubs leave after calls, and the epochs that go on from there.
ghost use Rattle.std.specs.Prelude.{◌≡◌};
ghost use Rattle.serve_core.specs.Schedule.{opened_schedule};

use super::seated::{Seated, seated_of};
use super::steps::Step;
use super::{Served, setup_of, state_of};
use serve_core::Setup;
use serve_hub::{Ended, Epoch, Hub, Reopened};
use std::alloc::Global;
use std::marker::Brand;
use std::process::Abort;
use std::sync::Wait;
use std::sync::ledger::Blank;
use std::test::Fail;

/// What a hub leaves after these calls.
pub(super) fn followed<L: Epoch, R: Wait + Abort>(
    rt: &R,
    alloc: Global,
    seated: Seated<L>,
    parts: &[&[Step]],
) -> Result<Ended, Fail> {
    let mut seated = seated;
    seated.follow_all(rt, alloc, parts)?;
    Ok(seated.ended(rt))
}

fn first_after<L: Epoch, R: Wait + Abort>(
    rt: &R,
    alloc: Global,
    blank: Blank,
    setup: Setup,
    parts: &[&[Step]],
) -> Result<Ended, Fail>
    requires name { blank.name ≡ L.name }
    requires parts { blank.parts ≡ L.parts }
    requires enough { blank.parts ≡ 80 }
    requires opening { opened_schedule setup ≡ L.opening }
{
    let seated = seated_of::<L>(alloc, blank, setup, 16)?;
    followed(rt, alloc, seated, parts)
}

/// What a hub of one worker leaves after these calls, for at most 16 entries.
pub(super) fn ended_after<R: Wait + Abort>(
    rt: &R,
    alloc: Global,
    streams: &[Served<'_>],
    parts: &[&[Step]],
) -> Result<Ended, Fail> {
    let setup = setup_of(alloc, 1, streams)?;
    first_after::<Brand, R>(rt, alloc, Blank::new(80), setup, parts)
}

/// What is told of a hub's end.
#[derive(Clone, Copy)]
pub(super) struct Left {
    pub(super) entries: usize,
    pub(super) limit: usize,
    pub(super) is_full: bool,
    pub(super) clock: u64,
    /// How many bands the first worker settled, and what they cost.
    pub(super) bands: u64,
    pub(super) units: Option<u64>,
    /// What the first four streams stand at, as [`state_of`] tells it.
    pub(super) states: [Option<[u64; 6]>; 4],
}

/// What is told of this end. Beside it a comparison is dear to prove, and beside this cheap.
pub(super) fn left_by(ended: &Ended) -> Left {
    Left {
        entries: ended.journal().len(),
        limit: ended.limit(),
        is_full: ended.is_full(),
        clock: ended.clock(),
        bands: ended.bands(0),
        units: ended.units(0),
        states: [
            state_of(ended.account(0), ended.counts(0)),
            state_of(ended.account(1), ended.counts(1)),
            state_of(ended.account(2), ended.counts(2)),
            state_of(ended.account(3), ended.counts(3)),
        ],
    }
}

/// What is told of an end, if there is one.
pub(super) fn left_of(ended: Result<Ended, Fail>) -> Result<Left, Fail> {
    Ok(left_by(&ended?))
}

/// What is told of the end of a hub of one worker after these calls, for at most 16 entries.
pub(super) fn left_after<R: Wait + Abort>(
    rt: &R,
    alloc: Global,
    streams: &[Served<'_>],
    parts: &[&[Step]],
) -> Result<Left, Fail> {
    left_of(ended_after(rt, alloc, streams, parts))
}

/// The next epoch of a hub.
pub(super) fn reopened_of<L: Epoch>(
    alloc: Global,
    blank: Blank,
    ended: Ended,
    limit: usize,
) -> Result<Reopened<L>, Fail>
    requires name { blank.name ≡ L.name }
    requires parts { blank.parts ≡ L.parts }
    requires enough { blank.parts ≡ 80 }
    requires opening { ended.book.desk ≡ L.opening }
{
    match Hub::<L>::reopen(alloc, blank, ended, limit) {
        Ok(reopened) => Ok(reopened),
        Err(refused) => Err(refused.refusal.into()),
    }
}

fn next_after<L: Epoch, R: Wait + Abort>(
    rt: &R,
    alloc: Global,
    blank: Blank,
    ended: Ended,
    parts: &[&[Step]],
) -> Result<(Ended, usize), Fail>
    requires name { blank.name ≡ L.name }
    requires parts { blank.parts ≡ L.parts }
    requires enough { blank.parts ≡ 80 }
    requires opening { ended.book.desk ≡ L.opening }
{
    let reopened = reopened_of::<L>(alloc, blank, ended, 16)?;
    let entries = reopened.journal.len();
    let ended = followed(rt, alloc, Seated::again(reopened), parts)?;
    Ok((ended, entries))
}

/// What the next epoch of a hub leaves after these calls, for at most 16 entries, and how many entries the
/// one before it had.
pub(super) fn again_after<R: Wait + Abort>(
    rt: &R,
    alloc: Global,
    ended: Ended,
    parts: &[&[Step]],
) -> Result<(Ended, usize), Fail> {
    next_after::<Brand, R>(rt, alloc, Blank::new(80), ended, parts)
}
