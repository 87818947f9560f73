//! How many streams the workers of a hub serve.
ghost use Rattle.std.specs.Prelude.{◌≡◌, ◌<◌, ◌≤◌, ◌↔◌, IsTrue, length};
ghost use Rattle.serve_core.specs.Schedule.{HasStream};
ghost use Rattle.serve_core.specs.Streams.{IsOver};
ghost use Rattle.serve_hub.specs.Books.{not_over};

use crate::epoch::Epoch;
use crate::shared::Shared;
use cbs_account::limits::MOST_STREAMS;
use serve_core::{Desk, Refusal};
use std::marker::{Model, PhantomData};

/// How many streams of a hub weren't over, and how many workers it had, when it told so. Streams that were
/// admitted count; those that are closed, with all their frames finished, don't.
///
/// It is made of what stands under the lock of a hub of the name `L`, and of nothing else. So who has one was
/// told it, though no contract can name what is under a lock.
#[derive(Drop)]
pub struct HubLoad<L: Epoch> {
    streams: usize,
    workers: usize,
    of: PhantomData<L>,
}

impl<L: Epoch> Model for HubLoad<L> {
    ghost use Rattle.serve_hub.specs.Books.{HasHadLoad, LoadValue};

    ghost Value = { LoadValue };

    ghost view = { λ a. record { streams = a.streams; workers = a.workers } };

    ghost invariant = { λ a. HasHadLoad L.opening
        (record { streams = a.streams; workers = a.workers }) };
}

impl<L: Epoch> HubLoad<L> {
    pub(crate) fn of(shared: &Shared<L>) -> HubLoad<L>
        ensures streams { result.streams ≡ not_over shared.now.book.desk }
        ensures workers { result.workers ≡ length shared.now.book.desk.workers }
    {
        // The call is made for what it recalls, that the book keeps what every book keeps.
        let _recalled = shared.book.journal();
        HubLoad {
            streams: count_not_over(shared.book.desk()),
            workers: shared.book.workers(),
            of: PhantomData,
        }
    }

    /// How many streams weren't over.
    pub fn streams(&self) -> usize
        ensures { result ≡ self.now.streams }
    {
        self.streams
    }

    /// How many workers there were.
    pub fn workers(&self) -> usize
        ensures { result ≡ self.now.workers }
    {
        self.workers
    }

    /// Whether there were more workers than streams that weren't over.
    pub fn has_spare_workers(&self) -> bool
        ensures { IsTrue result ↔ (self.now.streams < self.now.workers) }
    {
        self.streams < self.workers
    }
}

/// How many streams of a desk aren't over.
fn count_not_over(desk: &Desk) -> usize
    requires few_streams { length desk.now.streams ≤ MOST_STREAMS }
    ensures { result ≡ not_over desk.now }
{
    let mut count = 0;
    for stream in 0..desk.streams() {
        if !is_over(desk, stream as u32) {
            count += 1;
        }
    }
    count
}

/// Whether a stream is there and is over.
fn is_over(desk: &Desk, stream: u32) -> bool
    ensures { IsTrue result ↔ HasStream desk.now stream IsOver }
{
    // A stream that refuses any frame as `Closed` is closed.
    match (desk.offer_job_refusal(stream, 0), desk.counts(stream)) {
        (Some(Refusal::Closed), Some(counts)) => counts.finished == counts.accepted,
        _ => false,
    }
}
