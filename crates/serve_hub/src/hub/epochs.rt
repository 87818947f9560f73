//! The next epoch of a hub that ended.
ghost use Rattle.std.specs.Prelude.{◌≡◌, ◌↔◌, IfErr, IfOk, OnOk, length, map, reverse};
ghost use Rattle.std.specs.List.{range_with_len};
ghost use Rattle.serve_hub.specs.Books.{IsLimit};
ghost use Rattle.serve_hub.specs.Seats.{hub_of, opened_worker, seat_over};

use super::Hub;
use crate::ended::Ended;
use crate::entry::Entry;
use crate::epoch::Epoch;
use crate::error::HubError;
use crate::limits::{MOST_SEATS, is_limit};
use crate::room::Room;
use crate::stream_seat::StreamSeat;
use crate::work_seat::WorkSeat;
use std::alloc::Global;
use std::sync::ledger::Blank;

/// The next epoch of a hub, with its seats, and the journal of the epoch that ended, the oldest entry first.
/// The journal is empty where [`Ended::retire`] made the end, which handed it out, or [`Ended::tick`], which
/// dropped it.
#[derive(Drop)]
pub struct Reopened<L: Epoch> {
    pub hub: Hub<L>,
    pub streams: Vec<StreamSeat<L>>,
    pub workers: Vec<WorkSeat<L>>,
    pub journal: Vec<Entry>,
}

/// Why there is no next epoch, with what is left of the last one.
#[derive(Drop)]
pub struct ReopenRefused {
    pub refusal: HubError,
    pub ended: Ended,
}

impl<L: Epoch> Hub<L> {
    /// The next epoch of a hub that ended, without entries, for at most `limit`. It goes on from the same
    /// desk, with all jobs and images; the seats of the streams keep the frames that their last ones kept.
    ///
    /// `blank` must have the name of the ledger `L` and all its parts, one for each seat that a hub may have,
    /// and `L` the desk that `ended` has.
    ///
    /// It is refused as `BadLimit` where the journal of so many streams may not have this limit, and else as
    /// `NoMemory` where the memory for the seats or the journal is refused. What is left of the last epoch
    /// comes back then as it was.
    pub fn reopen(
        alloc: Global,
        blank: Blank,
        ended: Ended,
        limit: usize,
    ) -> Result<Reopened<L>, ReopenRefused>
        requires name { blank.name ≡ L.name }
        requires parts { blank.parts ≡ L.parts }
        requires enough { blank.parts ≡ MOST_SEATS }
        requires opening { ended.book.desk ≡ L.opening }
        ensures hub { IfOk result (λ r.
            r.hub ≡ hub_of (length ended.streams) (length ended.book.desk.workers) limit) }
        ensures streams { IfOk result (λ r. r.streams.items ≡ map (seat_over limit) ended.streams) }
        ensures workers { IfOk result (λ r.
            r.workers.items
            ≡ map (opened_worker limit) (range_with_len 0 (length ended.book.desk.workers))) }
        ensures journal { IfOk result (λ r. reverse r.journal.items ≡ ended.book.past) }
        ensures limit { OnOk result (IsLimit (length ended.streams) limit) }
        ensures bad_limit { IfErr result (λ e.
            (e.refusal ≡ HubError.BadLimit) ↔ ¬ IsLimit (length ended.streams) limit) }
        ensures returns_ended { IfErr result (λ e. e.ended ≡ ended) }
    {
        let (streams, workers) = ended.seats();
        if !is_limit(streams, limit) {
            return Err(ReopenRefused {
                refusal: HubError::BadLimit,
                ended,
            });
        }
        let (Ok(room), Ok(journal)) = (
            Room::<L>::new(alloc, blank, streams, workers, limit),
            Vec::with_capacity(alloc, limit),
        ) else {
            return Err(ReopenRefused {
                refusal: HubError::NoMemory,
                ended,
            });
        };
        let (book, rests, journal) = ended.into_book(journal, limit);
        let (hub, streams, workers) = room.into_hub(book, limit, rests, workers);
        Ok(Reopened {
            hub,
            streams,
            workers,
            journal,
        })
    }
}
