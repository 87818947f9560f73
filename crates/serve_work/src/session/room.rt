//! The memory that an epoch takes beside its hub.
ghost use Rattle.std.specs.Prelude.{IfOk};
ghost use Rattle.serve_work.specs.Intervals.{IsRoomFor};

use super::places::Places;
use super::turn::Turn;
use serve_hub::{Epoch, WorkSeat};
use std::alloc::{AllocError, Global};
use std::sync::Mutex;
use y4m_stream::{Sink, Source};

/// Where a worker finds its seat, and leaves it at its end.
pub(crate) type Slot<L> = Mutex<Option<WorkSeat<L>>>;

/// The lists of an epoch, with a place for each of its streams and workers. A later epoch takes them before
/// it opens, so that nothing is lost where one is refused.
#[derive(Drop)]
pub(crate) struct Room<L: Epoch, R: Source, W: Sink> {
    pub(crate) turns: Vec<Turn<L, R, W>>,
    pub(crate) places: Places<L, R, W>,
    pub(crate) slots: Vec<Slot<L>>,
    pub(crate) back: Vec<WorkSeat<L>>,
}

impl<L: Epoch, R: Source + Drop, W: Sink + Drop> Room<L, R, W> {
    pub(crate) fn new(
        alloc: Global,
        streams: usize,
        workers: usize,
    ) -> Result<Room<L, R, W>, AllocError>
        ensures { IfOk result (IsRoomFor streams) }
    {
        Ok(Room {
            turns: Vec::with_capacity(alloc, streams)?,
            places: Places::new(alloc, streams)?,
            slots: Vec::with_capacity(alloc, workers)?,
            back: Vec::with_capacity(alloc, workers)?,
        })
    }
}

/// Puts each worker's seat into a slot.
pub(crate) fn fill_slots<L: Epoch>(slots: &mut Vec<Slot<L>>, seats: Vec<WorkSeat<L>>) {
    for seat in seats {
        // The room has a place for each worker, so no push is refused.
        let _ = slots.push(Mutex::new(Some(seat)));
    }
}

/// Takes the workers' seats out of their slots.
pub(crate) fn empty_slots<L: Epoch>(slots: Vec<Slot<L>>, back: &mut Vec<WorkSeat<L>>) {
    for slot in slots {
        if let Some(seat) = slot.into_inner() {
            // The room has a place for each worker here too.
            let _ = back.push(seat);
        }
    }
}
