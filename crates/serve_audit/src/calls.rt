//! The entries that stand for more than one event, or for one that needs a look at the state.
ghost use Rattle.std.specs.Prelude.{ℕ, ◌≡◌, ◌<◌, IfOk, IfSome, OnErr, IsSomeAnd, length, slice_get};
ghost use Rattle.serve_core.specs.AtOnce.{bands};
ghost use Rattle.serve_core.specs.Desk.{one, settlement};
ghost use Rattle.serve_core.specs.Events as events;
ghost use Rattle.serve_core.specs.States.{held_at};
ghost use Rattle.serve_hub.specs.Journal.{admission_of, number_of, ticks};
ghost use Rattle.serve_audit.specs.Audit.{Follows, FollowsIf};

use serve_core::{StreamSpec, Tally};
use std::alloc::AllocError;

/// A frame is accepted, where the clock goes on to a later moment before, if one is told.
pub(crate) fn offer(tally: &mut Tally, s: u32, tick: Option<u64>, number: u64) -> bool
    ensures { FollowsIf (IfSome tick (λ moment. tally.old.clock < moment)) tally.old
        (events.Then (ticks tick) (events.Arrive s tt) (events.Accepted number)) result tally.new }
{
    match tick {
        None => offer_now(tally, s, number),
        Some(moment) => offer_later(tally, s, moment, number),
    }
}

fn offer_now(tally: &mut Tally, s: u32, number: u64) -> bool
    ensures { Follows tally.old (one (events.Arrive s tt) (events.Accepted number)) result tally.new }
{
    tally.arrive(s, number)
}

fn offer_later(tally: &mut Tally, s: u32, moment: u64, number: u64) -> bool
    ensures { FollowsIf (tally.old.clock < moment) tally.old
        (events.Then (one (events.Tick moment) events.Ticked) (events.Arrive s tt) (events.Accepted number))
        result tally.new }
{
    if moment <= tally.clock() {
        return false;
    }
    if !tally.tick(moment) {
        return false;
    }
    tally.arrive(s, number)
}

/// The image of the frame of this number is given away: so many were collected before.
pub(crate) fn collect(tally: &mut Tally, s: u32, number: u64) -> bool
    ensures { FollowsIf (IsSomeAnd (slice_get tally.old.streams s) (λ x. number ≡ x.collected)) tally.old
        (one (events.Collect s) (events.Image tt)) result tally.new }
{
    match tally.counts(s) {
        None => false,
        Some(counts) => {
            if counts.collected != number {
                return false;
            }
            tally.collect(s)
        }
    }
}

/// The stream of this number is admitted, with its spec.
pub(crate) fn admit(tally: &mut Tally, specs: &[StreamSpec], s: u32) -> Result<bool, AllocError>
    ensures checked { IfOk result (λ answer. FollowsIf (s < length specs.now) tally.old
        (admission_of s (slice_get specs.now s)) answer tally.new) }
    ensures same { OnErr result (tally.new ≡ tally.old) }
{
    match specs.get(s as usize) {
        None => Ok(false),
        Some(spec) => {
            let spec = spec.try_clone()?;
            tally.admit(s, spec)
        }
    }
}

/// Worker `w` does so many bands, and gives its lease back.
pub(crate) fn settle(tally: &mut Tally, w: u32, count: u32, is_finished: bool) -> bool
    ensures { Follows tally.old
        (settlement w count (number_of is_finished (held_at tally.old.workers w))) result tally.new }
{
    let Some(held) = tally.lease_of_worker(w) else {
        return false;
    };
    if !do_bands(tally, w, count) {
        return false;
    }
    if is_finished {
        tally.finish(w, held.number)
    } else {
        tally.give_back(w)
    }
}

/// Worker `w` does so many bands.
fn do_bands(tally: &mut Tally, w: u32, count: u32) -> bool
    ensures { Follows tally.old (bands w count) result tally.new }
{
    for _band in 0..count {
        if !tally.band(w) {
            return false;
        }
    }
    true
}
