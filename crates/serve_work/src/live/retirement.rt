//! Where released streams are taken out between two epochs.
ghost use Rattle.std.specs.Prelude.{◌≡◌, ◌+◌, ◌≤◌, ◌++◌, false, List, [], ◌∷◌, None, IfSome, IsFalse, IsTrue};
ghost use Rattle.std.specs.Prelude.{length, map, take};
ghost use Rattle.std.specs.Vec.{vec_capacity, vec_len};
ghost use Rattle.serve_core.specs.Retired.{stays};
ghost use Rattle.serve_work.specs.History.{EpochValue};
ghost use Rattle.serve_work.specs.Live.{Waiting};
ghost use Rattle.serve_work.specs.LiveInside.{AreGuests, AreToldBut, HaveWaited, at_marks};

use crate::chronicle::Chronicle;
use crate::live::guests::{Guest, Interval};
use serve_hub::Ended;
use std::alloc::Global;
use y4m_stream::{Sink, Source};

/// Takes the released streams out, if each of them was told, and tells so. Their numbers are free then, for
/// others. Where one wasn't, where no stream would be left, or where memory is refused, all stays as it is.
pub(super) fn retire_released<R: Source + Drop, W: Sink + Drop, C: Chronicle>(
    alloc: Global,
    interval: Interval<R, W>,
    chronicle: &mut C,
) -> Interval<R, W>
    requires guests { HaveWaited (C.stands chronicle.old) C.terms C.times interval.ended
        interval.guests.items }
    ensures guests { (es : List EpochValue) (ws : List Waiting)
        → AreGuests C.terms C.times es interval.ended ws interval.guests.items
        → AreGuests C.terms C.times es result.ended ws result.guests.items }
    ensures waits { (es : List EpochValue) (ws : List Waiting) → C.stands chronicle.old es ws
        → C.stands chronicle.new es ws }
{
    let Some((marks, mut kept)) = marks_and_room(alloc, &interval) else {
        return interval;
    };
    let Interval {
        ended,
        guests,
        workers,
        goes_on,
    } = interval;
    match ended.retire(alloc) {
        Err(ended) => Interval {
            ended,
            guests,
            workers,
            goes_on,
        },
        Ok(retired) => {
            let count = guests.len();
            keep_marked(&mut kept, marks, guests);
            tell_retired(chronicle, kept.len() < count);
            Interval {
                ended: retired.ended,
                guests: kept,
                workers,
                goes_on,
            }
        }
    }
}

/// Tells that streams were taken out, if any was.
fn tell_retired<C: Chronicle>(chronicle: &mut C, is_any: bool)
    requires behind { (epoch : EpochValue) × (es : List EpochValue) × (ws : List Waiting)
        × C.stands chronicle.old (epoch ∷ es) ws × IsFalse epoch.is_given_up }
    ensures { (es : List EpochValue) (ws : List Waiting) → C.stands chronicle.old es ws
        → C.stands chronicle.new es ws }
{
    if is_any {
        chronicle.retired();
    }
}

/// Which of the streams stay, and room for as many. There is none where one that doesn't stay wasn't told, or
/// where memory is refused.
fn marks_and_room<R: Source + Drop, W: Sink + Drop>(
    alloc: Global,
    interval: &Interval<R, W>,
) -> Option<(Vec<bool>, Vec<Option<Guest<R, W>>>)>
    ensures marks { IfSome result (λ made. made.0.items ≡ map
        (λ rest. stays interval.now.ended.book.desk rest.number)
        (take (length interval.now.guests.items) interval.now.ended.streams)) }
    ensures unmarked_told { IfSome result (λ made. AreToldBut made.0.items interval.now.guests.items) }
    ensures none { IfSome result (λ made. made.1.items ≡ []) }
    ensures room { IfSome result (λ made. vec_len interval.now.guests ≤ vec_capacity made.1) }
{
    let Interval { ended, guests, .. } = interval;
    let marks = marks_of(alloc, ended, guests.len())?;
    let Ok(kept) = Vec::with_capacity(alloc, guests.len()) else {
        return None;
    };
    if !are_told_but_marked(&marks, guests) {
        return None;
    }
    Some((marks, kept))
}

/// Which of the streams stay whose seats were handed over at these places.
fn marks_of(alloc: Global, ended: &Ended, count: usize) -> Option<Vec<bool>>
    ensures marks { IfSome result (λ marks. marks.items
        ≡ map (λ rest. stays ended.now.book.desk rest.number) (take count ended.now.streams)) }
    ensures each { IfSome result (λ marks. vec_len marks ≡ count) }
{
    let Ok(mut marks) = Vec::with_capacity(alloc, count) else {
        return None;
    };
    for place in 0..count {
        let Some(number) = ended.number(place) else {
            return None;
        };
        marks.push_reserved(ended.stays(number));
    }
    Some(marks)
}

/// Whether the stream at this place was told, or the place is marked.
fn is_told_or_marked<R: Source, W: Sink>(mark: bool, guest: &Option<Guest<R, W>>) -> bool
    ensures { IsTrue result → mark ≡ false → guest.now ≡ None }
{
    mark || guest.is_none()
}

/// Whether no stream is left at the places that aren't marked.
fn are_told_but_marked<R: Source, W: Sink>(marks: &[bool], guests: &[Option<Guest<R, W>>]) -> bool
    requires each { length guests.now ≤ length marks.now }
    ensures { IsTrue result → AreToldBut marks.now guests.now }
{
    for place in 0..guests.len() {
        if !is_told_or_marked(marks[place], &guests[place]) {
            return false;
        }
    }
    true
}

/// Puts this guest to the others, if it is marked.
fn keep_one<R: Source + Drop, W: Sink + Drop>(
    kept: &mut Vec<Option<Guest<R, W>>>,
    mark: bool,
    guest: Option<Guest<R, W>>,
)
    requires room { vec_len kept.old + 1 ≤ vec_capacity kept.old }
    ensures appends_marked { kept.new.items ≡ kept.old.items ++ at_marks (mark ∷ []) (guest ∷ []) }
    ensures one_more { vec_len kept.new ≤ vec_len kept.old + 1 }
    ensures same_room { vec_capacity kept.new ≡ vec_capacity kept.old }
{
    if mark {
        kept.push_reserved(guest);
    }
}

/// Keeps the guests at the marked places.
fn keep_marked<R: Source + Drop, W: Sink + Drop>(
    kept: &mut Vec<Option<Guest<R, W>>>,
    marks: Vec<bool>,
    guests: Vec<Option<Guest<R, W>>>,
)
    requires none { kept.old.items ≡ [] }
    requires room { vec_len guests ≤ vec_capacity kept.old }
    ensures { kept.new.items ≡ at_marks marks.items guests.items }
{
    for (mark, guest) in marks.into_iter().zip(guests) {
        keep_one(kept, mark, guest);
    }
}
