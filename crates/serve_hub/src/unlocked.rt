//! A hub without its lock.
ghost use Rattle.std.specs.Prelude.{◌≡◌};
ghost use Rattle.serve_hub.specs.Books.{IsBook};
ghost use Rattle.serve_hub.specs.Seats.{hub_of};

use crate::book::Book;
use crate::epoch::Epoch;
use crate::hub::Hub;
use crate::shared::Shared;
use std::marker::Model;

/// What a hub shared under its lock, taken out. Contracts can name its book, which they can't while it is
/// under the lock.
#[derive(Drop)]
pub struct Unlocked<L: Epoch> {
    shared: Shared<L>,
    streams: usize,
    workers: usize,
    limit: usize,
}

impl<L: Epoch> Model for Unlocked<L> {
    ghost use Rattle.serve_hub.specs.Seats.{UnlockedValue, hub_of};

    ghost Value = { UnlockedValue };

    ghost view = { λ a. record { hub = hub_of a.streams a.workers a.limit; book = a.shared.book } };
}

impl<L: Epoch> Unlocked<L> {
    pub(crate) fn of(shared: Shared<L>, streams: usize, workers: usize, limit: usize) -> Unlocked<L>
        ensures hub { result.hub ≡ hub_of streams workers limit }
        ensures book { result.book ≡ shared.book }
    {
        Unlocked {
            shared,
            streams,
            workers,
            limit,
        }
    }

    /// The book, which has the streams that were admitted too.
    pub fn book(&self) -> &Book
        ensures { result.now ≡ self.now.book }
    {
        &self.shared.book
    }

    /// The hub, with the book under its lock again.
    pub fn lock(self) -> Hub<L>
        ensures { result ≡ self.hub }
    {
        Hub::of(self.shared, self.streams, self.workers, self.limit)
    }
}
