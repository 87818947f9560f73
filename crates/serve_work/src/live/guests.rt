//! The streams that a session serves, from epoch to epoch.
ghost use Rattle.std.specs.Prelude.{◌≡◌, ◌<◌, ◌⊎◌, ◌++◌, List, [], ◌∷◌, None, Some, IsFalse, IsTrue};
ghost use Rattle.std.specs.Prelude.{IfSome, slice_get, slice_set, vec_len, ⊤};
ghost use Rattle.serve_core.specs.Schedule.{HasStream};
ghost use Rattle.serve_hub.specs.Seats.{StreamRest};
ghost use Rattle.serve_client.specs.Streams.{is_waiting};
ghost use Rattle.serve_work.specs.History.{EpochValue, IsHistory};
ghost use Rattle.serve_work.specs.Live.{IsStandingOf, Waiting};
ghost use Rattle.serve_work.specs.LiveInside.{AreAllTold, CanTell, HaveWaited, MayTell, ended_so};

use crate::chronicle::Chronicle;
use crate::door::Door;
use crate::request::{Answer, Standing};
use crate::session::turn::Stream;
use serve_hub::Ended;
use y4m_stream::{Sink, Source};

/// A stream with the ticket of its request.
#[derive(Drop)]
pub(super) struct Guest<R: Source, W: Sink> {
    pub(super) ticket: u64,
    pub(super) stream: Stream<R, W>,
}

/// What crosses from one epoch to the next: what is left of the hub, and for each seat, in the order in which
/// they were handed over, its stream, unless that was told.
#[derive(Drop)]
pub(super) struct Interval<R: Source, W: Sink> {
    pub(super) ended: Ended,
    pub(super) guests: Vec<Option<Guest<R, W>>>,
    /// How many workers there are.
    pub(super) workers: usize,
    /// Whether another epoch may come.
    pub(super) goes_on: bool,
}

/// Tells what a stream came to whose seat was handed over at this place.
fn tell<R: Source + Drop, W: Sink + Drop, D: Door<R, W>>(
    door: &mut D,
    ended: &Ended,
    place: usize,
    guest: Guest<R, W>,
)
    requires can { (es : List EpochValue) × (told : List EpochValue) × (before : List Waiting)
        × (w : Waiting) × (after : List Waiting) × D.stands door.old told (before ++ w ∷ after)
        × MayTell es told guest.stream × CanTell D.terms D.times es ended.now place guest w }
    ensures waits_no_longer { (es : List EpochValue) (before : List Waiting) (w : Waiting)
        (after : List Waiting) → D.stands door.old es (before ++ w ∷ after)
        → w.ticket ≡ guest.ticket → D.stands door.new es (before ++ after) }
{
    let Guest { ticket, stream } = guest;
    let mut served = stream.into_served();
    let Some(number) = ended.number(place) else {
        unreachable!()
    };
    let Some(counts) = ended.counts(number) else {
        unreachable!()
    };
    served.charged = counts.charged;
    door.tell(ticket, &mut Some(Answer::Ended(served)));
}

/// Tells what came of each stream that is over, or of all where they are given up. Answers whether any is
/// left.
pub(super) fn tell_guests<R: Source + Drop, W: Sink + Drop, D: Door<R, W>>(
    door: &mut D,
    ended: &Ended,
    guests: &mut Vec<Option<Guest<R, W>>>,
    gives_up: bool,
) -> bool
    requires guests { HaveWaited (D.stands door.old) D.terms D.times ended.now guests.old.items }
    ensures guests { IsTrue result
        → HaveWaited (D.stands door.new) D.terms D.times ended.now guests.new.items }
    ensures left { IsTrue result → ¬ AreAllTold guests.new.items }
    ensures answered { IsFalse result → (es : List EpochValue) × IsHistory D.terms D.times es
        × D.stands door.new es [] }
{
    give_up(door, gives_up);
    for place in 0..guests.len() {
        tell_at(door, ended, guests, place, gives_up);
    }
    if gives_up {
        return false;
    }
    any_left(guests)
}

/// Tells that all streams are given up, if they are.
fn give_up<C: Chronicle>(chronicle: &mut C, gives_up: bool)
    ensures { (es : List EpochValue) (ws : List Waiting) → C.stands chronicle.old es ws
        → C.stands chronicle.new (ended_so gives_up es) ws }
{
    if !gives_up {
        return;
    }
    chronicle.gives_up();
}

/// Tells what came of the stream at this place, if it is over, or given up.
fn tell_at<R: Source + Drop, W: Sink + Drop, D: Door<R, W>>(
    door: &mut D,
    ended: &Ended,
    guests: &mut Vec<Option<Guest<R, W>>>,
    place: usize,
    gives_up: bool,
)
    requires within { place < vec_len guests.old }
    requires guests { HaveWaited (λ es. D.stands door.old (ended_so gives_up es)) D.terms D.times
        ended.now guests.old.items }
    ensures guests { HaveWaited (λ es. D.stands door.new (ended_so gives_up es)) D.terms D.times
        ended.now guests.new.items }
    ensures len { vec_len guests.new ≡ vec_len guests.old }
    ensures told { IsTrue gives_up → guests.new.items ≡ slice_set guests.old.items place None }
{
    if !is_due(&guests[place], gives_up) {
        return;
    }
    match take_at(guests, place) {
        None => {}
        Some(guest) => tell(door, ended, place, guest),
    }
}

/// Shows at the door how each stream stands that isn't over, if it is asked there.
pub(super) fn show_guests<R: Source + Drop, W: Sink + Drop, D: Door<R, W>>(
    door: &mut D,
    ended: &Ended,
    guests: &Vec<Option<Guest<R, W>>>,
)
    requires guests { HaveWaited (D.stands door.old) D.terms D.times ended.now guests.now.items }
    requires left { ¬ AreAllTold guests.now.items }
    ensures waits { (es : List EpochValue) (ws : List Waiting) → D.stands door.old es ws
        → D.stands door.new es ws }
{
    if !door.asks() {
        return;
    }
    for place in 0..guests.len() {
        show_at(door, ended, guests, place);
    }
    door.end_show(Some(ended.clock()));
}

/// Tells the door, if it asks, that no stream is served.
pub(super) fn show_none<R: Source, W: Sink, D: Door<R, W>>(door: &mut D)
    requires nobody { (es : List EpochValue) × D.stands door.old es [] }
    ensures waits { (es : List EpochValue) (ws : List Waiting) → D.stands door.old es ws
        → D.stands door.new es ws }
{
    if door.asks() {
        door.end_show(None);
    }
}

/// Shows how the stream at this place stands, if it isn't over.
fn show_at<R: Source + Drop, W: Sink + Drop, D: Door<R, W>>(
    door: &mut D,
    ended: &Ended,
    guests: &Vec<Option<Guest<R, W>>>,
    place: usize,
)
    requires within { place < vec_len guests.now }
    requires guests { HaveWaited (D.stands door.old) D.terms D.times ended.now guests.now.items }
    ensures waits { (es : List EpochValue) (ws : List Waiting) → D.stands door.old es ws
        → D.stands door.new es ws }
{
    if let Some(guest) = &guests[place] {
        if guest.stream.is_waiting() {
            door.show(guest.ticket, standing_at(ended, place));
        }
    }
}

/// How the stream stands whose seat was handed over at this place.
fn standing_at(ended: &Ended, place: usize) -> Standing
    requires { (rest : StreamRest) × (slice_get ended.now.streams place ≡ Some rest)
        × HasStream ended.now.book.desk rest.number (λ _. ⊤) }
    ensures { (rest : StreamRest) → slice_get ended.now.streams place ≡ Some rest
        → HasStream ended.now.book.desk rest.number (IsStandingOf result) }
{
    let Some(number) = ended.number(place) else {
        unreachable!()
    };
    let Some(counts) = ended.counts(number) else {
        unreachable!()
    };
    let Some((budget, deadline)) = ended.account(number) else {
        unreachable!()
    };
    Standing {
        accepted: counts.accepted,
        finished: counts.finished,
        collected: counts.collected,
        charged: counts.charged,
        budget,
        deadline,
    }
}

/// Takes the stream at this place.
fn take_at<R: Source, W: Sink>(
    guests: &mut Vec<Option<Guest<R, W>>>,
    place: usize,
) -> Option<Guest<R, W>>
    requires within { place < vec_len guests.old }
    ensures taken { slice_get guests.old.items place ≡ Some result }
    ensures emptied { guests.new.items ≡ slice_set guests.old.items place None }
    ensures len { vec_len guests.new ≡ vec_len guests.old }
{
    guests[place].take()
}

/// Whether a stream is to be told: it is over, or given up.
fn is_due<R: Source, W: Sink>(guest: &Option<Guest<R, W>>, gives_up: bool) -> bool
    ensures due { IsTrue result → IfSome guest.now
        (λ guest. IsTrue gives_up ⊎ IsFalse (is_waiting guest.stream)) }
    ensures none { IsTrue gives_up → IsFalse result → guest.now ≡ None }
{
    let Some(guest) = guest else {
        return false;
    };
    if gives_up {
        return true;
    }
    !guest.stream.is_waiting()
}

/// Whether a stream is left that wasn't told.
fn any_left<R: Source, W: Sink>(guests: &Vec<Option<Guest<R, W>>>) -> bool
    ensures none { IsFalse result → AreAllTold guests.now.items }
    ensures any { IsTrue result → ¬ AreAllTold guests.now.items }
{
    for guest in guests {
        if guest.is_some() {
            return true;
        }
    }
    false
}
