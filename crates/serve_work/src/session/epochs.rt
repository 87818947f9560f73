//! The epochs of a session, each with a journal of its own.
ghost use Rattle.std.specs.Prelude.{ℕ, ◌≡◌, ◌<◌, ◌≤◌, ◌↔◌, [], IfErr, IfOk, IsFalse, IsTrue};
ghost use Rattle.std.specs.Prelude.{OnErr, OnOk, length};
ghost use Rattle.serve_core.specs.Schedule.{opened_schedule};
ghost use Rattle.serve_core.specs.Setup.{IsSetup};
ghost use Rattle.serve_hub.specs.Books.{IsLimit, entries_left};
ghost use Rattle.serve_work.specs.History.{terms_with};
ghost use Rattle.serve_work.specs.Intervals.{CanName, Continues, GoesLater, MayBegin, StandsBetween};
ghost use Rattle.serve_work.specs.Intervals.{StandsSo, beginning_of};
ghost use Rattle.serve_work.specs.Sessions.{AreInputs, GivesBack, IsToldAtEnds, fault_of};
ghost use Rattle.serve_work.specs.SessionInside.{AreAllOver, AreAllowed, IsUnended};
ghost use Rattle.serve_work.specs.SessionInside.{held_with};

use super::SessionFault;
use super::interval::Interval;
use super::opening::{Opening, open_first, open_next};
use super::places::Places;
use super::room::{Room, empty_slots, fill_slots};
use super::threads::run_threads;
use super::turn::{Stream, pair_with_seats};
use super::unended::Unended;
use crate::bounds::{Host, LentClock, LentGate, SentSink, SentSource};
use crate::chronicle::Chronicle;
use crate::setting::Setting;
use serve_client::have_spent;
use serve_core::Setup;
use serve_hub::limits::MOST_SEATS;
use serve_hub::{Ended, Epoch};
use std::marker::Brand;
use std::sync::ledger::Blank;
use y4m_stream::{Sink, Source, StreamReader};

/// Whether anything is left to do of a stream.
fn any_waits<R: Source, W: Sink>(streams: &Vec<Stream<R, W>>) -> bool
    ensures waits { IsTrue result → ¬ AreAllOver streams.now.items }
    ensures over { IsFalse result → AreAllOver streams.now.items }
{
    for stream in streams {
        if stream.is_waiting() {
            return true;
        }
    }
    false
}

/// Whether the session is cut where an epoch ended so. A stream waits for another behind a full journal.
/// Where no worker started in a later epoch, it has no entry, and none can begin any more. It is a mismatch
/// where streams wait behind other journals.
fn is_cut(ended: &Ended, waits: bool, is_first: bool) -> Result<bool, SessionFault>
    ensures full { IfOk result (λ cut. IsFalse cut → IsTrue waits → entries_left ended.now.book < 2) }
    ensures empty { IfOk result (λ cut. IsTrue cut → ended.now.book.past ≡ []) }
    ensures later { IfOk result (λ cut. IsTrue cut → IsFalse is_first) }
    ensures fault { IfErr result (λ e. e ≡ SessionFault.Mismatch) }
    ensures waits { OnErr result (IsTrue waits × (2 ≤ entries_left ended.now.book)) }
{
    if !waits || ended.left() < 2 {
        return Ok(false);
    }
    if is_first || !ended.journal().is_empty() {
        return Err(SessionFault::Mismatch);
    }
    Ok(true)
}

/// The streams go on with their seats of this epoch, until all are over or the journal is full. In the first
/// epoch all workers have to start; in a later one it goes on with those that do. The chronicle is told of the
/// epoch where it came to its end.
fn epoch<
    L: Epoch + Send + Sync,
    R: SentSource,
    W: SentSink,
    C: Chronicle,
    G: LentGate,
    K: LentClock,
    T: Host,
>(
    setting: Setting<'_, G, K, T>,
    opening: Opening<L, R, W>,
    is_first: bool,
    chronicle: &mut C,
) -> Result<Interval<R, W>, Unended<R, W>>
    requires can_begin { MayBegin (C.stands chronicle.old) C.terms (K.gives setting.clock.now) is_first
        L.opening opening }
    requires times { (at : ℕ) → K.gives setting.clock.now at → C.times at }
    ensures later { IfOk result (Continues (C.stands chronicle.old) (C.stands chronicle.new) C.terms
        (K.gives setting.entry.clock.now) is_first L.opening opening) }
    ensures unended { IfErr result (IsUnended is_first
        (held_with opening.opened.1.items opening.streams.items)) }
    ensures untold { OnErr result (chronicle.new ≡ chronicle.old) }
{
    let (hub, seats, work_seats) = opening.opened;
    let Room {
        turns,
        mut places,
        mut slots,
        mut back,
    } = opening.room;
    setting.gate.epoch_begins();
    let workers = work_seats.len();
    let turns = pair_with_seats(turns, seats, opening.streams);
    fill_slots(&mut slots, work_seats);
    let turns = match run_threads(setting, &hub, &slots, turns, is_first) {
        Ok(turns) => turns,
        Err(turns) => {
            places.fill(turns);
            return Err(Unended::Unbegun(places.streams));
        }
    };
    empty_slots(slots, &mut back);
    if !have_spent(&back) {
        return Err(Unended::Mismatch);
    }
    places.fill(turns);
    let Places { seats, streams } = places;
    let Ok(ended) = hub.finish(seats, back) else {
        return Err(Unended::Mismatch);
    };
    let waits = any_waits(&streams);
    let Ok(is_cut) = is_cut(&ended, waits, is_first) else {
        return Err(Unended::Mismatch);
    };
    chronicle.epoch_ended(&ended, &[]);
    Ok(Interval {
        ended,
        streams,
        served: opening.served,
        workers,
        waits,
        is_cut,
    })
}

/// The first epoch of a session. All that it needs is taken before a frame is read. Where some of it is
/// refused, the inputs come back as they were, or the streams with nothing done of them.
pub(super) fn begin<
    L: Epoch + Send + Sync,
    R: SentSource,
    W: SentSink,
    C: Chronicle,
    G: LentGate,
    K: LentClock,
    T: Host,
>(
    setting: Setting<'_, G, K, T>,
    blank: Blank,
    setup: Setup,
    inputs: Vec<(StreamReader<R>, W)>,
    limit: usize,
    chronicle: &mut C,
) -> Result<Interval<R, W>, Unended<R, W>>
    requires blank { CanName blank.name blank.parts (opened_schedule setup) L.name L.parts L.opening }
    requires inputs { AreInputs setup.streams inputs.items }
    requires is_setup { IsSetup setup }
    requires terms { terms_with setup limit ≡ C.terms }
    requires times { (at : ℕ) → K.gives setting.clock.now at → C.times at }
    requires untold { C.stands chronicle.old [] [] }
    ensures between { IfOk result (StandsBetween (C.stands chronicle.new) C.terms
        (K.gives setting.entry.clock.now) (beginning_of W.contents W.failures setup limit inputs.items)) }
    ensures stops { IfOk result (λ interval.
        AreAllowed (K.gives setting.entry.clock.now) interval.streams.items) }
    ensures limit { OnOk result (IsLimit (length setup.streams) limit) }
    ensures bad_limit { IfErr result (λ e.
        (fault_of e ≡ SessionFault.BadLimit) ↔ ¬ IsLimit (length setup.streams) limit) }
    ensures returns_inputs { IfErr result (GivesBack W.contents W.failures inputs.items) }
    ensures untold { OnErr result (chronicle.new ≡ chronicle.old) }
{
    let opening = open_first::<L, R, W>(setting.alloc, blank, setup, inputs, limit)?;
    epoch(setting, opening, true, chronicle)
}

/// The next epoch of a session. Where none can be opened, the session is cut.
fn run_next<
    L: Epoch + Send + Sync,
    R: SentSource,
    W: SentSink,
    C: Chronicle,
    G: LentGate,
    K: LentClock,
    T: Host,
>(
    setting: Setting<'_, G, K, T>,
    blank: Blank,
    interval: Interval<R, W>,
    chronicle: &mut C,
) -> Result<Interval<R, W>, SessionFault>
    requires blank { CanName blank.name blank.parts interval.ended.book.desk L.name L.parts L.opening }
    requires between { StandsSo (C.stands chronicle.old) C.terms (K.gives setting.clock.now) interval }
    requires waits { IsTrue interval.waits }
    requires goes_on { IsFalse interval.is_cut }
    requires times { (at : ℕ) → K.gives setting.clock.now at → C.times at }
    ensures later { IfOk result (GoesLater (C.stands chronicle.old) (C.stands chronicle.new) C.terms
        (K.gives setting.entry.clock.now) interval) }
    ensures fault { IfErr result (λ e. e ≡ SessionFault.Mismatch) }
    ensures untold { OnErr result (chronicle.new ≡ chronicle.old) }
{
    match open_next::<L, R, W>(setting.alloc, blank, interval) {
        Err(interval) => Ok(interval),
        Ok(opening) => match epoch(setting, opening, false, chronicle) {
            Ok(interval) => Ok(interval),
            Err(unended) => Err(unended.fault()),
        },
    }
}

/// Goes on with a session from epoch to epoch, until all its streams are over or it is cut.
pub(super) fn go_on<R: SentSource, W: SentSink, C: Chronicle, G: LentGate, K: LentClock, T: Host>(
    setting: Setting<'_, G, K, T>,
    interval: Interval<R, W>,
    chronicle: &mut C,
) -> Result<Interval<R, W>, SessionFault>
    requires between { StandsSo (C.stands chronicle.old) C.terms (K.gives setting.clock.now) interval }
    requires times { (at : ℕ) → K.gives setting.clock.now at → C.times at }
    ensures later { IfOk result (GoesLater (C.stands chronicle.old) (C.stands chronicle.new) C.terms
        (K.gives setting.entry.clock.now) interval) }
    ensures fault { IfErr result (λ e. e ≡ SessionFault.Mismatch) }
    ensures told { OnErr result (IsToldAtEnds (C.stands chronicle.new)) }
{
    let mut interval = interval;
    for _ in setting.rt.forever() {
        let waits = interval.waits;
        if !waits || interval.is_cut {
            return Ok(interval);
        }
        let blank = Blank::new(MOST_SEATS);
        interval = run_next::<Brand, R, W, C, G, K, T>(setting, blank, interval, chronicle)?;
    }
    unreachable!()
}
