//! A book that threads share.
ghost use Rattle.std.specs.Prelude.{◌≡◌, ◌≤◌, ◌↔◌, All, IfErr, IfNone, IfOk, IfSome, IsErrOf, IsFalse};
ghost use Rattle.std.specs.Prelude.{IsTrue, length, map, vec_len};
ghost use Rattle.std.specs.List.{range_with_len};
ghost use Rattle.serve_core.specs.Schedule.{opened_schedule};
ghost use Rattle.serve_core.specs.Setup.{IsWithinLimits};
ghost use Rattle.serve_hub.specs.Books.{IsLimit};
ghost use Rattle.serve_hub.specs.Ends.{IsEndOf, IsFault, IsUnended, NoLeaseOut};
ghost use Rattle.serve_hub.specs.Seats.{hub_of, opened_rests, opened_streams, opened_worker};

mod admissions;
mod epochs;
mod images;
mod leases;
mod offers;

use crate::book::Book;
use crate::ended::{Ended, Fault, Mismatch};
use crate::epoch::Epoch;
use crate::error::HubError;
use crate::hub_load::HubLoad;
use crate::limits::{MOST_SEATS, is_limit};
use crate::rest::SeatRest;
use crate::room::Room;
use crate::room_left::RoomLeft;
use crate::shared::Shared;
use crate::stream_deadline::StreamDeadline;
use crate::stream_seat::StreamSeat;
use crate::unlocked::Unlocked;
use crate::work_seat::WorkSeat;
use cbs_account::limits::MOST_STREAMS;
pub use epochs::{ReopenRefused, Reopened};
use serve_core::{Setup, StreamSpec};
use std::alloc::{AllocError, Global};
use std::array;
use std::marker::Model;
use std::sync::ledger::Blank;
use std::sync::{Condvar, Mutex, Wait};

/// A book under one lock, for the seats of its streams and workers, whose calls wait for the lock.
///
/// `L` is the name of the ledger that counts the journal's entries, and tells which hub a seat belongs to.
/// Contracts see how many streams it opened with, how many workers it has, and the most entries of its
/// journal.
///
/// Each accepted call wakes those whom it may help. One that may make a stream ready wakes a worker: a frame
/// that is accepted where no other of its stream is unfinished, a settlement that leaves its stream a frame
/// that isn't finished and isn't leased with it, and a collection from a full outbox where there is such a
/// frame. By other offers and collections no stream becomes ready: a worker was woken for its first
/// unfinished frame, or has it, or the outbox is full, or there is none. A frame that is finished wakes the
/// client of its stream. All workers wake at a close, at an admission and where nothing is left to lease, and
/// all who wait where the journal is full or the epoch is being ended.
#[derive(Drop)]
pub struct Hub<L: Epoch> {
    shared: Mutex<Shared<L>>,
    for_workers: Condvar,
    for_streams: [Condvar; MOST_STREAMS],
    streams: usize,
    workers: usize,
    limit: usize,
}

impl<L: Epoch> Model for Hub<L> {
    ghost use Rattle.serve_hub.specs.Seats.{HubValue};

    ghost Value = { HubValue };

    ghost view = { λ a. record { streams = a.streams; workers = a.workers; limit = a.limit } };
}

/// A hub with the seats of its streams and of its workers.
pub type Opened<L> = (Hub<L>, Vec<StreamSeat<L>>, Vec<WorkSeat<L>>);

impl<L: Epoch> Hub<L> {
    /// A hub without entries, for at most `limit`, with a seat for each stream and each worker, for which the
    /// ledger has parts.
    pub fn new(
        alloc: Global,
        blank: Blank,
        setup: Setup,
        limit: usize,
    ) -> Result<Opened<L>, HubError>
        requires name { blank.name ≡ L.name }
        requires parts { blank.parts ≡ L.parts }
        requires enough { blank.parts ≡ MOST_SEATS }
        requires opening { opened_schedule setup ≡ L.opening }
        ensures hub { IfOk result (λ r. r.0 ≡ hub_of (length setup.streams) setup.workers limit) }
        ensures streams { IfOk result (λ r. r.1.items ≡ opened_streams limit 0 setup.streams) }
        ensures workers { IfOk result (λ r.
            r.2.items ≡ map (opened_worker limit) (range_with_len 0 setup.workers)) }
        ensures limit { IfOk result (λ _. IsLimit (length setup.streams) limit) }
        ensures bad_limit { IsErrOf result HubError.BadLimit ↔ ¬ IsLimit (length setup.streams) limit }
    {
        setup.recall_limits();
        let streams = setup.streams().len();
        let workers = setup.workers() as usize;
        if !is_limit(streams, limit) {
            return Err(HubError::BadLimit);
        }
        let room = Room::<L>::new(alloc, blank, streams, workers, limit)?;
        let rests = rests_of(alloc, setup.streams())?;
        let Ok(book) = Book::new(alloc, setup, limit) else {
            return Err(HubError::NoMemory);
        };
        Ok(room.into_hub(book, limit, rests, workers))
    }

    pub(crate) fn of(shared: Shared<L>, streams: usize, workers: usize, limit: usize) -> Hub<L>
        ensures { result ≡ hub_of streams workers limit }
    {
        Hub {
            shared: Mutex::new(shared),
            for_workers: Condvar::new(),
            for_streams: array::from_fn(|_| Condvar::new()),
            streams,
            workers,
            limit,
        }
    }

    /// What the hub did, where all seats are back, no lease is out, what the seats keep of their calls and
    /// their streams is what the book has, and its limit is the hub's. A hub that can't be ended comes back
    /// with the seats, and without its lock, so that its book tells which seats there are. [`Unlocked::lock`]
    /// makes it a hub again.
    ///
    /// No contract can name what is under a lock, so what the end tells of the streams' specs and of their
    /// counts is compared with the seats here, the journal's clock with the seats' first moments, and its
    /// limit with the hub's. What the hub opened from is a part of its name.
    pub fn finish(
        self,
        streams: Vec<StreamSeat<L>>,
        workers: Vec<WorkSeat<L>>,
    ) -> Result<Ended, Mismatch<L>>
        ensures end { IfOk result (IsEndOf L.opening self streams.items workers.items) }
        ensures refused { IfErr result (λ m.
            IsUnended L.opening self streams.items workers.items m.fault m.unlocked) }
        ensures returns_seats { IfErr result (λ m. (m.streams.items ≡ streams.items)
            × (m.workers.items ≡ workers.items)) }
    {
        let Hub {
            shared,
            streams: stream_count,
            workers: worker_count,
            limit,
            ..
        } = self;
        let shared = shared.into_inner();
        let counts = (shared.all_streams(), worker_count);
        if let Some(fault) = fault(&shared, counts, limit, &streams, &workers) {
            return Err(Mismatch {
                fault,
                unlocked: Unlocked::of(shared, stream_count, worker_count, limit),
                streams,
                workers,
            });
        }
        Ok(shared.into_ended(streams, workers))
    }

    /// Whether the journal has no place for another lease and its settlement, or the epoch is being ended.
    /// Then no frame is leased any more, and the epoch comes to its end. It waits for the lock alone.
    ///
    /// No contract can name what is under a lock, so none promises anything of the answer.
    pub fn is_full(&self, rt: &impl Wait) -> bool {
        self.shared.lock(rt).is_full()
    }

    /// The room that the journal has left, as the book under the lock tells it. It waits for the lock alone.
    pub fn room_left(&self, rt: &impl Wait) -> RoomLeft<L> {
        let shared = self.shared.lock(rt);
        RoomLeft::of(&shared)
    }

    /// The deadline of a stream, if there is such a stream, and the moment of the clock, as the book under the
    /// lock tells them. It waits for the lock alone.
    pub fn deadline(&self, rt: &impl Wait, stream: u32) -> StreamDeadline<L>
        ensures { result.stream ≡ stream }
    {
        let shared = self.shared.lock(rt);
        StreamDeadline::of(&shared, stream)
    }

    /// How many streams aren't over, and how many workers there are, as the book under the lock tells. It
    /// waits for the lock alone.
    pub fn load(&self, rt: &impl Wait) -> HubLoad<L> {
        let shared = self.shared.lock(rt);
        HubLoad::of(&shared)
    }

    /// Ends the epoch, for its owner ([`EpochOwner::end_epoch`](crate::owner::EpochOwner::end_epoch)).
    pub(crate) fn end_epoch(&self, rt: &impl Wait) {
        let mut shared = self.shared.lock(rt);
        shared.book.end_epoch();
        drop(shared);
        self.wake_all();
    }

    /// Wakes all who wait.
    fn wake_all(&self) {
        self.for_workers.notify_all();
        for stream in &self.for_streams {
            stream.notify_all();
        }
    }

    /// Wakes all who wait, where the journal is full.
    fn wake_if_full(&self, is_full: bool) {
        if is_full {
            self.wake_all();
        }
    }

    /// Where the client of a stream waits.
    fn for_stream(&self, stream: u32) -> &Condvar {
        // Each stream's number is below this, but no contract of a seat or a lease says so.
        &self.for_streams[stream as usize % MOST_STREAMS]
    }
}

/// What does not fit between a hub of so many streams and workers, for a journal of at most `limit` entries,
/// and the seats.
fn fault<L: Epoch>(
    shared: &Shared<L>,
    counts: (usize, usize),
    limit: usize,
    streams: &[StreamSeat<L>],
    workers: &[WorkSeat<L>],
) -> Option<Fault>
    ensures { IsFault result counts.0 counts.1 limit shared.now.book streams.now workers.now }
{
    let (stream_count, worker_count) = counts;
    if streams.len() != stream_count || workers.len() != worker_count {
        return Some(Fault::SeatMissing);
    }
    if any_lease_out(workers) {
        return Some(Fault::LeaseOut);
    }
    if !shared.agrees(limit, streams, workers) {
        return Some(Fault::Differs);
    }
    None
}

/// Whether a worker's latest call is a lease.
fn any_lease_out<L: Epoch>(seats: &[WorkSeat<L>]) -> bool
    ensures out { IsTrue result → ¬ NoLeaseOut seats.now }
    ensures settled { IsFalse result → NoLeaseOut seats.now }
{
    seats.iter().any(|seat| seat.has_lease())
}

/// What there is of each stream before its first epoch.
#[tactic(auto, using(crate::proofs::Seating::one_more_rest))]
fn rests_of(alloc: Global, streams: &[StreamSpec]) -> Result<Vec<SeatRest>, AllocError>
    requires limits { All IsWithinLimits streams.now }
    requires few_streams { length streams.now ≤ MOST_STREAMS }
    ensures rests { IfOk result (λ rests. rests.items ≡ opened_rests 0 streams.now) }
    ensures count { IfOk result (λ rests. vec_len rests ≡ length streams.now) }
{
    let mut rests = Vec::with_capacity(alloc, streams.len())?;
    for (s, stream) in streams.iter().enumerate() {
        rests.push(SeatRest::new(alloc, s as u32, stream)?)?;
    }
    Ok(rests)
}
