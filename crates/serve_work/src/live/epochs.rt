//! The epochs of a session whose streams come and go.
ghost use Rattle.std.specs.Prelude.{ℕ, ◌≡◌, ◌+◌, ◌≤◌, ◌++◌, All, List, [], ◌∷◌, IfErr, IfNone, IfOk};
ghost use Rattle.std.specs.Prelude.{IfSome, OnOk, vec_capacity, vec_len};
ghost use Rattle.serve_core.specs.Schedule.{opened_schedule};
ghost use Rattle.serve_core.specs.Setup.{IsSetup, StreamSpec};
ghost use Rattle.serve_hub.specs.Ends.{IsEndOf};
ghost use Rattle.serve_client.specs.Workers.{AreSpent};
ghost use Rattle.serve_work.specs.History.{EpochValue, IsHistory};
ghost use Rattle.serve_work.specs.Intervals.{CanName, HasNoCalls};
ghost use Rattle.serve_work.specs.Live.{IsSeatFor, Waiting};
ghost use Rattle.serve_work.specs.LiveInside.{AreGuests, AreSeated, HasPlaces, IsFirst};
ghost use Rattle.serve_work.specs.LiveInside.{IsLiveInterval, guests_of, nobody};

use crate::bounds::{Host, LentClock, LentDoor, LentGate, SentSink, SentSource};
use crate::door::Door;
use crate::live::admission::admit_all;
use crate::live::clock::go_to_now;
use crate::live::guests::{Guest, Interval};
use crate::live::opening::{FirstStream, Hall, Opening};
use crate::live::threads::run_threads;
use crate::live::tickets::tickets_of;
use crate::request::Answer;
use crate::session::SessionFault;
use crate::session::places::Places;
use crate::session::room::{Room, empty_slots, fill_slots};
use crate::session::turn::Stream;
use crate::setting::Setting;
use serve_client::have_spent;
use serve_core::{Refusal as Core, Setup};
use serve_hub::{Ended, Epoch, EpochOwner, Hub, Refusal, StreamSeat, WorkSeat};
use std::alloc::Global;
use std::sync::ledger::Blank;
use y4m_stream::{Sink, Source};

/// Fills the guests: the streams with the tickets of their requests.
fn fill_guests<R: Source + Drop, W: Sink + Drop>(
    guests: &mut Vec<Option<Guest<R, W>>>,
    tickets: Vec<u64>,
    streams: Vec<Stream<R, W>>,
)
    requires none { guests.old.items ≡ [] }
    requires room { vec_len streams ≤ vec_capacity guests.old }
    ensures guests { guests.new.items ≡ guests_of tickets.items streams.items }
    ensures guests_within { vec_len guests.new ≤ vec_len streams }
    ensures same_room { vec_capacity guests.new ≡ vec_capacity guests.old }
{
    for (ticket, stream) in tickets.into_iter().zip(streams) {
        guests.push_reserved(Some(Guest { ticket, stream }));
    }
}

/// Puts the idle seats behind the others. They have no streams.
fn append_idle<L: Epoch, R: Source + Drop, W: Sink + Drop>(
    seats: &mut Vec<StreamSeat<L>>,
    guests: &mut Vec<Option<Guest<R, W>>>,
    idle: Vec<StreamSeat<L>>,
)
    requires room { vec_len seats.old + vec_len idle ≤ vec_capacity seats.old }
    requires guests_room { vec_len guests.old + vec_len idle ≤ vec_capacity guests.old }
    ensures seats { seats.new.items ≡ seats.old.items ++ idle.items }
    ensures guests { guests.new.items ≡ guests.old.items ++ nobody idle.items }
{
    for seat in idle {
        seats.push_reserved(seat);
        guests.push_reserved(None);
    }
}

/// The end of an epoch whose workers settled their leases with the whole grants.
fn finish<L: Epoch>(
    hub: Hub<L>,
    seats: Vec<StreamSeat<L>>,
    work_seats: Vec<WorkSeat<L>>,
) -> Result<Ended, SessionFault>
    ensures fault { IfErr result (λ e. e ≡ SessionFault.Mismatch) }
    ensures end { IfOk result (IsEndOf L.opening hub seats.items work_seats.items) }
    ensures spent { OnOk result (All (λ s. AreSpent s.calls.list) work_seats.items) }
{
    if !have_spent(&work_seats) {
        return Err(SessionFault::Mismatch);
    }
    let Ok(ended) = hub.finish(seats, work_seats) else {
        return Err(SessionFault::Mismatch);
    };
    Ok(ended)
}

/// Admits those who are at the door. Then the streams go on with their seats of this epoch, until it is
/// ended, and the clock goes on to the moment then.
fn epoch<
    L: Epoch + Send + Sync,
    R: SentSource,
    W: SentSink,
    D: LentDoor<R, W>,
    G: LentGate,
    K: LentClock,
    T: Host,
>(
    setting: Setting<'_, G, K, T>,
    opening: Opening<L, R, W>,
    door: &mut D,
) -> Result<Interval<R, W>, SessionFault>
    requires seated { (es : List EpochValue) × (ws : List Waiting) × D.stands door.old es ws
        × AreSeated D.terms D.times es L.opening ws opening.hall }
    requires limit { opening.hub.limit ≡ D.terms.limit }
    requires times { (at : ℕ) → K.gives setting.clock.now at → D.times at }
    ensures fault { IfErr result (λ e. e ≡ SessionFault.Mismatch) }
    ensures guests { IfOk result (IsLiveInterval (D.stands door.new) D.terms D.times) }
{
    let Opening {
        hub,
        work_seats,
        mut hall,
    } = opening;
    admit_all(setting, &hub, &mut hall, door);
    let Hall {
        room,
        tickets,
        idle,
        mut guests,
    } = hall;
    let Room {
        turns,
        mut places,
        mut slots,
        mut back,
    } = room;
    setting.gate.epoch_begins();
    let workers = work_seats.len();
    fill_slots(&mut slots, work_seats);
    let owner = EpochOwner::new(hub);
    let (turns, goes_on) = run_threads::<L, R, W, D, G, K, T>(
        setting, &owner, &slots, turns, &*door,
    );
    let hub = owner.into_hub();
    empty_slots(slots, &mut back);
    places.fill(turns);
    let Places { mut seats, streams } = places;
    fill_guests(&mut guests, tickets, streams);
    append_idle(&mut seats, &mut guests, idle);
    let ended = finish(hub, seats, back)?;
    door.epoch_ended(&ended, &tickets_of(&ended, &guests));
    let now = go_to_now(setting.clock, ended, door);
    Ok(Interval {
        ended: now,
        guests,
        workers,
        goes_on,
    })
}

/// A hub of one stream, and its seat.
fn first_seat<L: Epoch, R: Source + Drop, W: Sink + Drop>(
    alloc: Global,
    blank: Blank,
    setup: Setup,
    limit: usize,
) -> Option<(Opening<L, R, W>, StreamSeat<L>)>
    requires blank { CanName blank.name blank.parts (opened_schedule setup) L.name L.parts L.opening }
    requires is_setup { IsSetup setup }
    ensures places { IfSome result (λ made. HasPlaces made.0.hall) }
    ensures empty { IfSome result (λ made. (made.0.hall.room.turns.items ≡ [])
        × (made.0.hall.tickets.items ≡ []) × (made.0.hall.idle.items ≡ [])) }
    ensures limit { IfSome result (λ made. made.0.hub.limit ≡ limit) }
    ensures seat { (spec : StreamSpec) → setup.streams ≡ spec ∷ []
        → IfSome result (λ made. IsSeatFor spec made.1 × HasNoCalls made.1 × (made.1.number ≡ 0)) }
{
    let workers = setup.workers() as usize;
    let Ok(hall) = Hall::<L, R, W>::new(alloc, workers) else {
        return None;
    };
    let Ok(opened) = Hub::<L>::new(alloc, blank, setup, limit) else {
        return None;
    };
    let (hub, mut seats, work_seats) = opened;
    match seats.pop() {
        None => None,
        Some(seat) => Some((
            Opening {
                hub,
                work_seats,
                hall,
            },
            seat,
        )),
    }
}

/// The first epoch of a hub. Where it can't be opened, the request is told.
pub(super) fn first_epoch<
    L: Epoch + Send + Sync,
    R: SentSource,
    W: SentSink,
    D: LentDoor<R, W>,
    G: LentGate,
    K: LentClock,
    T: Host,
>(
    setting: Setting<'_, G, K, T>,
    blank: Blank,
    stream: FirstStream<R, W>,
    limit: usize,
    door: &mut D,
) -> Result<Option<Interval<R, W>>, SessionFault>
    requires blank { CanName blank.name blank.parts (opened_schedule stream.setup) L.name L.parts L.opening }
    requires limit { limit ≡ D.terms.limit }
    requires times { (at : ℕ) → K.gives setting.clock.now at → D.times at }
    requires first { (es : List EpochValue) × IsHistory D.terms D.times es × (w : Waiting)
        × D.stands door.old es (w ∷ []) × IsFirst W.contents W.failures D.terms es w stream }
    ensures fault { IfErr result (λ e. e ≡ SessionFault.Mismatch) }
    ensures answered { IfOk result (λ o. IfNone o ((es : List EpochValue)
        × IsHistory D.terms D.times es × D.stands door.new es [])) }
    ensures guests { IfOk result (λ o. IfSome o (IsLiveInterval (D.stands door.new) D.terms D.times)) }
{
    let FirstStream {
        setup,
        ticket,
        reader,
        writer,
    } = stream;
    match first_seat::<L, R, W>(setting.alloc, blank, setup, limit) {
        None => {
            let refusal = Refusal::Core(Core::NoMemory);
            door.tell(ticket, &mut Some(Answer::Refused(refusal, reader, writer)));
            Ok(None)
        }
        Some(made) => {
            let (mut opening, seat) = made;
            opening.hall.seat(seat, ticket, Stream::new(reader, writer));
            door.admitted(ticket);
            Ok(Some(epoch(setting, opening, door)?))
        }
    }
}

/// The next epoch of a session. Where none can be opened, the session doesn't go on.
pub(super) fn next_epoch<
    L: Epoch + Send + Sync,
    R: SentSource,
    W: SentSink,
    D: LentDoor<R, W>,
    G: LentGate,
    K: LentClock,
    T: Host,
>(
    setting: Setting<'_, G, K, T>,
    blank: Blank,
    interval: Interval<R, W>,
    door: &mut D,
) -> Result<Interval<R, W>, SessionFault>
    requires blank { CanName blank.name blank.parts interval.ended.book.desk L.name L.parts L.opening }
    requires times { (at : ℕ) → K.gives setting.clock.now at → D.times at }
    requires guests { IsLiveInterval (D.stands door.old) D.terms D.times interval }
    ensures fault { IfErr result (λ e. e ≡ SessionFault.Mismatch) }
    ensures guests { IfOk result (IsLiveInterval (D.stands door.new) D.terms D.times) }
{
    match open_next::<L, R, W, D>(setting.alloc, blank, interval) {
        Err(interval) => Ok(interval),
        Ok(opening) => epoch(setting, opening, door),
    }
}

/// Opens the next epoch, with the streams that are left in their seats.
fn open_next<L: Epoch, R: Source + Drop, W: Sink + Drop, D: Door<R, W>>(
    alloc: Global,
    blank: Blank,
    interval: Interval<R, W>,
) -> Result<Opening<L, R, W>, Interval<R, W>>
    requires blank { CanName blank.name blank.parts interval.ended.book.desk L.name L.parts L.opening }
    requires guests { (es : List EpochValue) × (ws : List Waiting)
        × AreGuests D.terms D.times es interval.ended ws interval.guests.items }
    ensures seated { (es : List EpochValue) (ws : List Waiting)
        → AreGuests D.terms D.times es interval.ended ws interval.guests.items
        → IfOk result (λ opening. AreSeated D.terms D.times es L.opening ws opening.hall) }
    ensures limit { IfOk result (λ opening. opening.hub.limit ≡ interval.ended.book.limit) }
    ensures returns_interval { IfErr result (λ back. (back.ended ≡ interval.ended)
        × (back.guests.items ≡ interval.guests.items)) }
{
    let Interval {
        ended,
        guests,
        workers,
        ..
    } = interval;
    let Ok(mut hall) = Hall::<L, R, W>::new(alloc, workers) else {
        return Err(Interval {
            ended,
            guests,
            workers,
            goes_on: false,
        });
    };
    let limit = ended.limit();
    match Hub::<L>::reopen(alloc, blank, ended, limit) {
        Err(refused) => Err(Interval {
            ended: refused.ended,
            guests,
            workers,
            goes_on: false,
        }),
        Ok(next) => {
            hall.seat_all(next.streams, guests);
            Ok(Opening {
                hub: next.hub,
                work_seats: next.workers,
                hall,
            })
        }
    }
}
