//! The memory that an epoch takes beside its book.
ghost use Rattle.std.specs.Prelude.{◌≡◌, ◌+◌, ◌<◌, ◌≤◌, [], IfOk, OnOk, length, map, replicate, vec_len};
ghost use Rattle.std.specs.List.{range_with_len};
ghost use Rattle.std.specs.Vec.{vec_capacity};
ghost use Rattle.serve_hub.specs.Ends.{IsOpening};
ghost use Rattle.serve_hub.specs.Seats.{hub_of, no_calls, opened_worker, seat_over};

use crate::book::Book;
use crate::calls::Calls;
use crate::epoch::Epoch;
use crate::hub::{Hub, Opened};
use crate::limits::MOST_SEATS;
use crate::rest::SeatRest;
use crate::shared::Shared;
use crate::stream_seat::StreamSeat;
use crate::work_seat::WorkSeat;
use cbs_account::limits::{MOST_STREAMS, MOST_WORKERS};
use std::alloc::{AllocError, Global};
use std::sync::ledger::{Blank, Book as Total, Share};

/// The lists of the seats' calls, the seats, and the room for what those of the streams leave, with the
/// ledger, which has counted nothing.
#[derive(Drop)]
pub(crate) struct Room<L: Epoch> {
    total: Total<L>,
    spare: Share<L>,
    calls: Vec<Calls<L>>,
    seats: Vec<StreamSeat<L>>,
    workers: Vec<WorkSeat<L>>,
    rests: Vec<SeatRest>,
}

impl<L: Epoch> Room<L> {
    /// Room for so many streams and workers, and for calls up to this limit.
    pub(crate) fn new(
        alloc: Global,
        blank: Blank,
        streams: usize,
        workers: usize,
        limit: usize,
    ) -> Result<Room<L>, AllocError>
        requires name { blank.name ≡ L.name }
        requires parts { blank.parts ≡ L.parts }
        requires enough { blank.parts ≡ MOST_SEATS }
        requires few_streams { streams ≤ MOST_STREAMS }
        requires few_workers { workers ≤ MOST_WORKERS }
        ensures total { IfOk result (λ room. room.total.total ≡ 0) }
        ensures parts { IfOk result (λ room. room.spare.parts + streams + workers ≡ L.parts) }
        ensures amount { IfOk result (λ room. room.spare.amount ≡ 0) }
        ensures calls { IfOk result (λ room. room.calls.items ≡ replicate streams (no_calls limit)) }
        ensures seats { IfOk result (λ room.
            (room.seats.items ≡ []) × (streams ≤ vec_capacity room.seats)) }
        ensures workers { IfOk result (λ room.
            room.workers.items ≡ map (opened_worker limit) (range_with_len 0 workers)) }
        ensures rests { IfOk result (λ room.
            (room.rests.items ≡ []) × (MOST_STREAMS ≤ vec_capacity room.rests)) }
    {
        let (total, mut spare) = blank.open::<L>();
        let calls = lists_of_calls(alloc, &mut spare, streams, limit)?;
        let workers = work_seats(alloc, &mut spare, workers, limit)?;
        Ok(Room {
            total,
            spare,
            calls,
            seats: Vec::with_capacity(alloc, streams)?,
            workers,
            rests: Vec::with_capacity(alloc, MOST_STREAMS)?,
        })
    }

    /// The hub of this book, with a seat over what each stream's last one left, and one for each worker.
    pub(crate) fn into_hub(
        self,
        book: Book,
        limit: usize,
        rests: Vec<SeatRest>,
        workers: usize,
    ) -> Opened<L>
        requires total { self.total.total ≡ length book.past }
        requires limit { limit ≡ book.limit }
        requires parts { self.spare.parts + vec_len rests + workers ≡ L.parts }
        requires amount { self.spare.amount ≡ 0 }
        requires opening { IsOpening L.opening book.opening workers }
        requires unmoved { book.desk ≡ book.opening }
        requires all { vec_len rests ≡ length book.desk.streams }
        requires calls { self.calls.items ≡ replicate (vec_len rests) (no_calls limit) }
        requires seats { self.seats.items ≡ [] }
        requires seats_room { vec_len rests ≤ vec_capacity self.seats }
        requires no_rests { self.rests.items ≡ [] }
        requires rests_room { MOST_STREAMS ≤ vec_capacity self.rests }
        requires enough { L.parts ≡ MOST_SEATS }
        ensures hub { result.0 ≡ hub_of (vec_len rests) workers limit }
        ensures streams { result.1.items ≡ map (seat_over limit) rests.items }
        ensures workers { result.2.items ≡ self.workers.items }
    {
        let Room {
            total,
            spare,
            calls,
            mut seats,
            workers: work_seats,
            rests: empty_rests,
        } = self;
        let streams = rests.len();
        fill_seats(&mut seats, calls, rests, limit);
        let shared = Shared::new(book, total, spare, empty_rests);
        (Hub::of(shared, streams, workers, limit), seats, work_seats)
    }
}

/// Fills the seats: one over what each stream's last one left.
fn fill_seats<L: Epoch>(
    seats: &mut Vec<StreamSeat<L>>,
    calls: Vec<Calls<L>>,
    rests: Vec<SeatRest>,
    limit: usize,
)
    requires calls { calls.items ≡ replicate (vec_len rests) (no_calls limit) }
    requires none { seats.old.items ≡ [] }
    requires room { vec_len rests ≤ vec_capacity seats.old }
    ensures { seats.new.items ≡ map (seat_over limit) rests.items }
{
    let mut lists = calls;
    for rest in rests {
        let calls = next_calls(&mut lists, limit);
        seats.push_reserved(StreamSeat::over(rest, calls));
    }
}

/// One of the lists, all of which are the same.
fn next_calls<L: Epoch>(lists: &mut Vec<Calls<L>>, limit: usize) -> Calls<L>
    requires not_empty { 0 < vec_len lists.old }
    requires calls { lists.old.items ≡ replicate (vec_len lists.old) (no_calls limit) }
    ensures calls { lists.new.items ≡ replicate (vec_len lists.new) (no_calls limit) }
    ensures fewer { vec_len lists.new + 1 ≡ vec_len lists.old }
    ensures next { result ≡ no_calls limit }
{
    match lists.pop() {
        Some(calls) => calls,
        None => unreachable!(),
    }
}

/// Cuts a part for the calls of each stream's seat.
fn lists_of_calls<L: Epoch>(
    alloc: Global,
    spare: &mut Share<L>,
    streams: usize,
    limit: usize,
) -> Result<Vec<Calls<L>>, AllocError>
    requires parts { streams ≤ spare.old.parts }
    requires amount { spare.old.amount ≡ 0 }
    requires few_streams { streams ≤ MOST_STREAMS }
    ensures calls { IfOk result (λ calls. calls.items ≡ replicate streams (no_calls limit)) }
    ensures parts { OnOk result (spare.new.parts + streams ≡ spare.old.parts) }
    ensures amount { spare.new.amount ≡ 0 }
{
    let mut lists = Vec::with_capacity(alloc, streams)?;
    for n in 0..streams {
        let share = spare.split_off(1, 0);
        lists.push(Calls::new(alloc, limit, share)?)?;
    }
    Ok(lists)
}

/// Cuts a part for the seat of each worker.
fn work_seats<L: Epoch>(
    alloc: Global,
    spare: &mut Share<L>,
    workers: usize,
    limit: usize,
) -> Result<Vec<WorkSeat<L>>, AllocError>
    requires parts { workers ≤ spare.old.parts }
    requires amount { spare.old.amount ≡ 0 }
    requires few_workers { workers ≤ MOST_WORKERS }
    ensures seats { IfOk result (λ seats.
        seats.items ≡ map (opened_worker limit) (range_with_len 0 workers)) }
    ensures parts { OnOk result (spare.new.parts + workers ≡ spare.old.parts) }
    ensures amount { spare.new.amount ≡ 0 }
{
    let mut seats = Vec::with_capacity(alloc, workers)?;
    for w in 0..workers {
        let share = spare.split_off(1, 0);
        seats.push(WorkSeat::new(alloc, w as u32, limit, share)?)?;
    }
    Ok(seats)
}
