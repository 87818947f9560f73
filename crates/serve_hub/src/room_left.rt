//! The room that the journal of a hub has left.
ghost use Rattle.std.specs.Prelude.{◌≡◌, ◌↔◌, IsTrue};
ghost use Rattle.serve_hub.specs.Books.{IsFull, room_of};

use crate::epoch::Epoch;
use crate::shared::Shared;
use std::marker::{Model, PhantomData};

/// How many entries the journal of a hub had left, beside those that are reserved, and whether its epoch was
/// being ended, when it told so.
///
/// It is made of what stands under the lock of a hub of the name `L`, and of nothing else. So who has one was
/// told it, though no contract can name what is under a lock. Contracts see the `RoomValue` of
/// `specs/Books.antt`.
#[derive(Drop)]
pub struct RoomLeft<L: Epoch> {
    entries: usize,
    is_ending: bool,
    of: PhantomData<L>,
}

impl<L: Epoch> Model for RoomLeft<L> {
    ghost use Rattle.serve_hub.specs.Books.{HasHadRoom, RoomValue};

    ghost Value = { RoomValue };

    ghost view = { λ a. record { entries = a.entries; is_ending = a.is_ending } };

    ghost invariant = { λ a. let left : RoomValue = record { entries = a.entries; is_ending = a.is_ending } in
        HasHadRoom L.opening left };
}

impl<L: Epoch> RoomLeft<L> {
    pub(crate) fn of(shared: &Shared<L>) -> RoomLeft<L>
        ensures { result ≡ room_of shared.now.book }
    {
        // The call is made for what it recalls, that the book keeps what every book keeps.
        let _recalled = shared.book.journal();
        RoomLeft {
            entries: shared.book.left(),
            is_ending: shared.book.is_ending(),
            of: PhantomData,
        }
    }

    /// How many entries the journal had left, beside those that are reserved.
    pub fn entries(&self) -> usize
        ensures { result ≡ self.now.entries }
    {
        self.entries
    }

    /// Whether the epoch was being ended.
    pub fn is_ending(&self) -> bool
        ensures { result ≡ self.now.is_ending }
    {
        self.is_ending
    }

    /// Whether there was no place for another lease and its settlement, or the epoch was being ended.
    pub fn is_full(&self) -> bool
        ensures { IsTrue result ↔ IsFull self.now }
    {
        let lacks_places = self.entries < 2;
        lacks_places || self.is_ending
    }
}
