//! A session whose streams come and go.
//!
//! It goes from epoch to epoch. Where a request is at the door, or a question of how the streams stand, or
//! where a stream is over, the epoch is ended. Then the hub's clock goes on to the present moment, the
//! streams that are over are told, those that are left are shown if it was asked, and those that came are
//! admitted before the next epoch begins.
ghost use Rattle.std.specs.Prelude.{ℕ, ◌≡◌, ◌↔◌, ◌⊎◌, List, [], ◌∷◌, IfErr, IfOk, IsErrOf, length};
ghost use Rattle.serve_work.specs.History.{EpochValue, IsHistory, terms_of};
ghost use Rattle.serve_work.specs.Live.{IsForm, IsLiveLimit, waiting_of};
ghost use Rattle.serve_work.specs.Sessions.{IsInput};
ghost use Rattle.serve_work.specs.LiveInside.{IsLiveInterval};

mod admission;
mod clock;
mod epochs;
mod form;
mod guests;
mod opening;
mod retirement;
mod threads;
mod tickets;

use crate::bounds::{Host, LentClock, LentDoor, LentGate, SentSink, SentSource};
use crate::door::Door;
use crate::request::Request;
use crate::session::SessionFault;
use crate::setting::Setting;
use cbs_account::limits::MOST_ENTRIES;
use epochs::{first_epoch, next_epoch};
use form::Form;
use guests::{Interval, show_guests, show_none, tell_guests};
use retirement::retire_released;
use serve_client::{Clock, Gate};
use serve_hub::limits::MOST_SEATS;
use std::alloc::Global;
use std::marker::Brand;
use std::sync::Wait;
use std::sync::ledger::Blank;
use std::thread::Threads;
use y4m_stream::{Sink, Source};

/// The fewest entries of an epoch's journal: two for each stream that is admitted where it opens, and those
/// of a lease.
const LEAST_LIMIT: usize = 130;

/// Serves the stream of a request, and those that come while any is served.
fn serve_from<R: SentSource, W: SentSink, D: LentDoor<R, W>, G: LentGate, K: LentClock, T: Host>(
    setting: Setting<'_, G, K, T>,
    form: Form,
    request: Request<R, W>,
    door: &mut D,
) -> Result<(), SessionFault>
    requires terms { terms_of form.workers form.quantum form.limit ≡ D.terms }
    requires times { (at : ℕ) → K.gives setting.clock.now at → D.times at }
    requires waits { (es : List EpochValue) × IsHistory D.terms D.times es
        × D.stands door.old es (waiting_of W.contents W.failures (length es) request ∷ []) }
    requires input { IsInput request.spec (request.reader, request.writer) }
    ensures fault { IfErr result (λ e. e ≡ SessionFault.Mismatch) }
    ensures answered { IfOk result (λ _. (es : List EpochValue) × IsHistory D.terms D.times es
        × D.stands door.new es []) }
{
    let Some(stream) = opening::set_up(setting.alloc, form, request, door) else {
        return Ok(());
    };
    let blank = Blank::new(MOST_SEATS);
    match first_epoch::<Brand, R, W, D, G, K, T>(setting, blank, stream, form.limit, door)? {
        None => Ok(()),
        Some(interval) => go_on(setting, interval, door),
    }
}

/// Goes on from epoch to epoch, until no stream is left.
fn go_on<R: SentSource, W: SentSink, D: LentDoor<R, W>, G: LentGate, K: LentClock, T: Host>(
    setting: Setting<'_, G, K, T>,
    interval: Interval<R, W>,
    door: &mut D,
) -> Result<(), SessionFault>
    requires times { (at : ℕ) → K.gives setting.clock.now at → D.times at }
    requires guests { IsLiveInterval (D.stands door.old) D.terms D.times interval }
    ensures fault { IfErr result (λ e. e ≡ SessionFault.Mismatch) }
    ensures answered { IfOk result (λ _. (es : List EpochValue) × IsHistory D.terms D.times es
        × D.stands door.new es []) }
{
    let mut interval = interval;
    for _ in setting.rt.forever() {
        let gives_up = !interval.goes_on;
        if !tell_guests(door, &interval.ended, &mut interval.guests, gives_up) {
            return Ok(());
        }
        show_guests(door, &interval.ended, &interval.guests);
        let left = retire_released(setting.alloc, interval, door);
        let blank = Blank::new(MOST_SEATS);
        interval = next_epoch::<Brand, R, W, D, G, K, T>(setting, blank, left, door)?;
    }
    unreachable!()
}

/// Serves streams that come and go, until none is left and no more requests come.
///
/// Each request is told its answer at the door: where it isn't admitted, or when its stream is over. A
/// session that fails lets go of those that wait.
pub fn serve_live<
    R: Source + Drop + Send,
    W: Sink + Drop + Send,
    D: Door<R, W> + Sync,
    G: Gate + Sync,
    K: Clock + Sync,
    T: Threads + Wait + Sync,
>(
    rt: &T,
    alloc: Global,
    workers: u64,
    quantum: u64,
    limit: usize,
    door: &mut D,
    gate: &G,
    clock: &K,
) -> Result<(), SessionFault>
    requires form { IsForm workers quantum }
    requires terms { terms_of workers quantum limit ≡ D.terms }
    requires times { (at : ℕ) → K.gives clock.now at → D.times at }
    requires nobody { (es : List EpochValue) × IsHistory D.terms D.times es × D.stands door.old es [] }
    ensures answered { IfOk result (λ _. (es : List EpochValue) × IsHistory D.terms D.times es
        × D.stands door.new es []) }
    ensures over { IfOk result (λ _. D.is_over door.new) }
    ensures bad_limit { IsErrOf result SessionFault.BadLimit ↔ ¬ IsLiveLimit limit }
    ensures fault { IfErr result (λ e. (e ≡ SessionFault.BadLimit) ⊎ (e ≡ SessionFault.Mismatch)) }
{
    if limit < LEAST_LIMIT || limit > MOST_ENTRIES {
        return Err(SessionFault::BadLimit);
    }
    let form = Form {
        workers,
        quantum,
        limit,
    };
    let setting = Setting {
        rt,
        alloc,
        gate,
        clock,
    };
    for _ in rt.forever() {
        if !door.wait() {
            return Ok(());
        }
        show_none::<R, W, D>(door);
        if let Some(request) = door.next() {
            serve_from(setting, form, request, door)?;
        }
    }
    unreachable!()
}
