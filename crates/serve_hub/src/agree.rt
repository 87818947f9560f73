//! Whether the seats are all there, and agree with the book and with the clock of its journal.
ghost use Rattle.std.specs.Prelude.{◌≡◌, ◌≤◌, ◌↔◌, IsSomeAnd, IsTrue, List, reverse};
ghost use Rattle.std.specs.List.{Any};
ghost use Rattle.serve_core.specs.Bare.{Blank};
ghost use Rattle.serve_core.specs.Setup.{StreamSpec};
ghost use Rattle.serve_core.specs.States.{State};
ghost use Rattle.serve_hub.specs.Ends as rules;
ghost use Rattle.serve_hub.specs.Ends.{AreStreamCalls, AreStreamsOf, AreWorkCalls, ClockReached};
ghost use Rattle.serve_hub.specs.Ends.{ClocksReached, HaveStreams, HaveWorkers, IsOfferOf, acts_of};

use crate::book::Book;
use crate::entry::{Act, Entry, Seat};
use crate::epoch::Epoch;
use crate::moments::Moments;
use crate::stream_seat::StreamSeat;
use crate::work_seat::WorkSeat;

/// Whether both are one seat.
fn is_same_seat(a: Seat, b: Seat) -> bool
    ensures { result ≡ rules.is_same_seat a b }
{
    a == b
}

/// Whether the calls are what the journal has of the seat, in order.
fn agrees(journal: &[Entry], seat: Seat, calls: &[Act]) -> bool
    ensures { IsTrue result ↔ (acts_of seat journal.now ≡ calls.now) }
{
    let mut next = 0;
    for entry in journal {
        if is_same_seat(seat, entry.seat) {
            if next >= calls.len() || calls[next] != entry.act {
                return false;
            }
            next += 1;
        }
    }
    next == calls.len()
}

/// Whether the calls of each stream's seat are what the journal has of it, in order.
pub(crate) fn streams_agree<L: Epoch>(journal: &[Entry], seats: &[StreamSeat<L>]) -> bool
    ensures { IsTrue result ↔ AreStreamCalls journal.now seats.now }
{
    for seat in seats {
        if !agrees(journal, Seat::Stream(seat.number()), seat.calls()) {
            return false;
        }
    }
    true
}

/// Whether the calls of each worker's seat are what the journal has of it, in order.
pub(crate) fn workers_agree<L: Epoch>(journal: &[Entry], seats: &[WorkSeat<L>]) -> bool
    ensures { IsTrue result ↔ AreWorkCalls journal.now seats.now }
{
    for seat in seats {
        if !agrees(journal, Seat::Worker(seat.worker()), seat.calls()) {
            return false;
        }
    }
    true
}

/// Whether each of so many streams has its seat.
pub(crate) fn all_streams_have_seats<L: Epoch>(count: usize, seats: &[StreamSeat<L>]) -> bool
    ensures { IsTrue result ↔ HaveStreams count seats.now }
{
    for number in 0..count {
        if !has_stream(seats, number) {
            return false;
        }
    }
    true
}

/// Whether the stream of this number has its seat.
fn has_stream<L: Epoch>(seats: &[StreamSeat<L>], number: usize) -> bool
    ensures { IsTrue result ↔ Any (λ s. s.number ≡ number) seats.now }
{
    seats.iter().any(|seat| seat.number() as usize == number)
}

/// Whether each of so many workers has its seat.
pub(crate) fn all_workers_have_seats<L: Epoch>(count: usize, seats: &[WorkSeat<L>]) -> bool
    ensures { IsTrue result ↔ HaveWorkers count seats.now }
{
    for number in 0..count {
        if !has_worker(seats, number) {
            return false;
        }
    }
    true
}

/// Whether the worker of this number has its seat.
fn has_worker<L: Epoch>(seats: &[WorkSeat<L>], number: usize) -> bool
    ensures { IsTrue result ↔ Any (λ s. s.number ≡ number) seats.now }
{
    seats.iter().any(|seat| seat.worker() as usize == number)
}

/// Whether each seat's stream is in the book as the seat tells of it.
pub(crate) fn have_their_streams<L: Epoch>(book: &Book, seats: &[StreamSeat<L>]) -> bool
    ensures { IsTrue result ↔ AreStreamsOf book.now.desk seats.now }
{
    for seat in seats {
        if !seat.has_its_stream(book) {
            return false;
        }
    }
    true
}

/// Whether the clock had reached the moment of each seat's first frame wherever the journal has an accepted
/// frame of the seat. It was at `opened_at` when the book was opened.
pub(crate) fn clocks_agree<L: Epoch>(book: &Book, opened_at: u64, seats: &[StreamSeat<L>]) -> bool
    requires { opened_at ≡ book.now.opening.clock }
    ensures { IsTrue result ↔ ClocksReached book.now seats.now }
{
    for seat in seats {
        if !clock_agrees(book.journal(), opened_at, seat.number(), seat.moments()) {
            return false;
        }
    }
    true
}

/// Whether the clock had reached the moment of the first frame of a stream's seat wherever the journal has an
/// accepted frame of the stream. It was at `opened_at` when the book was opened.
fn clock_agrees(journal: &[Entry], opened_at: u64, number: u32, moments: Option<Moments>) -> bool
    ensures { (specs : List StreamSpec) (opening : State Blank) → opening.clock ≡ opened_at
        → (IsTrue result ↔ ClockReached number moments specs opening (reverse journal.now)) }
{
    let mut clock = opened_at;
    for entry in journal {
        clock = clock_after(clock, entry);
        if is_offer_of(number, entry) && !is_first_reached(moments, clock) {
            return false;
        }
    }
    true
}

/// The clock after a call, where it was this before.
fn clock_after(clock: u64, entry: &Entry) -> u64
    ensures { result ≡ rules.clock_after clock entry.now.seat entry.now.act }
{
    match (entry.seat, entry.act) {
        (Seat::Stream(_), Act::Offered(Some(moment), _)) => moment,
        _ => clock,
    }
}

/// Whether the entry is that of an accepted frame of the stream.
fn is_offer_of(number: u32, entry: &Entry) -> bool
    ensures { IsTrue result ↔ IsOfferOf number entry.now.seat entry.now.act }
{
    match (entry.seat, entry.act) {
        (Seat::Stream(stream), Act::Offered(_, _)) => stream == number,
        _ => false,
    }
}

/// Whether the clock has reached the first moment, where there is one.
fn is_first_reached(moments: Option<Moments>, clock: u64) -> bool
    ensures { IsTrue result ↔ IsSomeAnd moments (λ m. m.first ≤ clock) }
{
    moments.is_some_and(|moments| moments.first <= clock)
}
