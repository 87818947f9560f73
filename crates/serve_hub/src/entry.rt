//! What is told of an accepted call.
ghost use Rattle.std.specs.Prelude.{◌≡◌};
ghost use Rattle.serve_hub.specs.Journal.{entry_of};

/// Who made a call: a stream or a worker, by its number.
#[derive(Clone, Copy, Debug, PartialEq, Eq)]
pub enum Seat {
    Stream(u32),
    Worker(u32),
}

/// What an accepted call did.
#[derive(Clone, Copy, Debug, PartialEq, Eq)]
pub enum Act {
    /// A frame was accepted: the moment that the clock went on to, if it did, and the frame's number.
    Offered(Option<u64>, u64),
    /// The stream was closed.
    Closed,
    /// The worker got a lease: the stream, the number of its frame, and how many bands were granted.
    Leased(u32, u64, u32),
    /// The worker gave its lease back: how many bands it did, and whether that finished the frame.
    Settled(u32, bool),
    /// The image of the frame of this number was given away.
    Collected(u64),
    /// The stream was admitted while the book was open. Its spec isn't told here: the book's desk has it.
    Admitted,
}

/// An accepted call.
#[derive(Clone, Copy, Debug, PartialEq, Eq)]
pub struct Entry {
    pub seat: Seat,
    pub act: Act,
}

impl Entry {
    pub(crate) fn new(seat: Seat, act: Act) -> Entry
        ensures { result ≡ entry_of seat act }
    {
        Entry { seat, act }
    }
}

/// What became of the frame of a lease that was given back.
#[derive(Clone, Copy, Debug, PartialEq, Eq)]
pub enum Settled {
    /// It is at the front of its queue, with the bands that are done.
    Returned,
    /// All its bands are done, and its image waits for collection. It has this number in its stream.
    Finished(u64),
}
