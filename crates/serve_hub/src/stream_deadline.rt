//! The deadline of a stream of a hub.
ghost use Rattle.std.specs.Prelude.{◌≡◌};
ghost use Rattle.serve_hub.specs.Books.{HasDeadline};

use crate::epoch::Epoch;
use crate::shared::Shared;
use serve_core::Desk;
use std::marker::{Model, PhantomData};

/// The deadline that a stream of a hub had, or that there was no such stream, and the moment of the clock,
/// when the hub told them.
///
/// It is made of what stands under the lock of a hub of the name `L`, and of nothing else. So who has one was
/// told it, though no contract can name what is under a lock.
#[derive(Drop)]
pub struct StreamDeadline<L: Epoch> {
    stream: u32,
    deadline: Option<u64>,
    clock: u64,
    of: PhantomData<L>,
}

impl<L: Epoch> Model for StreamDeadline<L> {
    ghost use Rattle.serve_hub.specs.Books.{DeadlineValue, HasHadDeadline};

    ghost Value = { DeadlineValue };

    ghost view = { λ a. record { stream = a.stream; deadline = a.deadline; clock = a.clock } };

    ghost invariant = { λ a. HasHadDeadline L.opening
        (record { stream = a.stream; deadline = a.deadline; clock = a.clock }) };
}

impl<L: Epoch> StreamDeadline<L> {
    pub(crate) fn of(shared: &Shared<L>, stream: u32) -> StreamDeadline<L>
        ensures stream { result.stream ≡ stream }
        ensures deadline { HasDeadline shared.now.book.desk stream result.deadline }
        ensures clock { result.clock ≡ shared.now.book.desk.clock }
    {
        // The call is made for what it recalls, that the book keeps what every book keeps.
        let _recalled = shared.book.journal();
        let desk = shared.book.desk();
        StreamDeadline {
            stream,
            deadline: deadline_of(desk, stream),
            clock: desk.clock(),
            of: PhantomData,
        }
    }

    /// The stream's number.
    pub fn stream(&self) -> u32
        ensures { result ≡ self.now.stream }
    {
        self.stream
    }

    /// The stream's deadline, if there was such a stream.
    pub fn deadline(&self) -> Option<u64>
        ensures { result ≡ self.now.deadline }
    {
        self.deadline
    }

    /// The moment of the clock.
    pub fn clock(&self) -> u64
        ensures { result ≡ self.now.clock }
    {
        self.clock
    }
}

/// The deadline of a stream, if there is such a stream.
fn deadline_of(desk: &Desk, stream: u32) -> Option<u64>
    ensures { HasDeadline desk.now stream result }
{
    let (_, deadline) = desk.account(stream)?;
    Some(deadline)
}
