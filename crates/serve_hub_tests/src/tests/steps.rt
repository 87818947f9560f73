//! Calls on a book or a hub, with the answers that were worked out by hand.
use self::Answer::{Accepted, Given, Refused, Worked};
use self::Call::{Close, Collect, Offer, Work};
use super::{Core, Served, Told, book_of, collected, offered, same_at, told_of, worked};
use serve_hub::{Book, Moments, Refusal, Settled};
use std::alloc::Global;
use std::process::Abort;
use std::test::Fail;

/// A call of a stream or a worker, by its number, at moment 0 if no other is told.
#[derive(Clone, Copy, Debug)]
pub(super) enum Call {
    /// The stream offers a frame of this sample.
    Offer(u32, u8),
    /// The stream offers a frame of this sample at this moment.
    OfferAt(u32, u64, u8),
    /// The stream offers a frame of the samples 1 to 4.
    OfferTall(u32),
    /// The stream of a hub collects an image, and offers a frame of this sample in its memory.
    OfferOver(u32, u8),
    /// The worker leases, does so many bands, and settles.
    Work(u32, u32),
    /// The worker of a hub does the same, but waits for the lease.
    WaitAndWork(u32, u32),
    /// The stream collects an image.
    Collect(u32),
    /// The stream of a hub collects an image that comes soon.
    CollectSoon(u32),
    /// The stream is closed.
    Close(u32),
    /// A hub admits a stream.
    Admit(&'static Served<'static>),
    /// A hub tells whether its journal is full.
    IsFull,
    /// A hub tells the room that its journal has left.
    RoomLeft,
    /// The owner of a hub ends its epoch, and tells whether its journal is full.
    EndEpoch,
    /// A hub tells the deadline of the stream.
    Deadline(u32),
    /// A hub tells how many streams it serves with how many workers.
    Load,
}

/// What a call answers.
#[derive(Clone, Copy, Debug, PartialEq)]
pub(super) enum Answer {
    /// The frame has this number.
    Accepted(u64),
    /// The same of a hub, and the seat had these moments then.
    AcceptedAt(u64, Option<Moments>),
    /// What the lease told, and what became of its frame.
    Worked((u32, u64, u32), Settled),
    /// The first sample of the source and of the image.
    Given(Option<u8>, Option<u8>),
    /// The stream is closed.
    Closed,
    /// The call was refused.
    Refused(Refusal),
    /// The offer was refused, and the frame came back with an image of this one sample.
    Returned(Refusal, Option<u8>),
    /// The stream has this number.
    Admitted(u32),
    /// The stream was refused, and its spec came back with this queue and this outbox.
    SpecBack(Refusal, u64, u64),
    /// Whether the journal is full.
    Full(bool),
    /// How many entries are left, whether the epoch is being ended, and whether the room is told as full.
    Room(usize, bool, bool),
    /// The stream's number, its deadline, if there is such a stream, and the moment of the clock.
    Due(u32, Option<u64>, u64),
    /// How many streams aren't over, how many workers there are, and whether those are more.
    Loaded(usize, usize, bool),
}

/// A call, and the answer that is wanted.
pub(super) type Step = (Call, Answer);

/// Nothing is there before the first frame.
pub(super) const FIRST_FRAME: &[Step] = &[
    (Work(0, 0), Refused(Refusal::Core(Core::NoneReady))),
    (Collect(0), Refused(Refusal::Core(Core::Empty))),
    (Offer(0, 0x00), Accepted(0)),
];

/// Nothing is left behind the image of the first frame.
pub(super) const FIRST_IMAGE: &[Step] = &[
    (Collect(0), Given(Some(0x00), Some(0xFF))),
    (Work(0, 0), Refused(Refusal::Core(Core::NoneReady))),
    (Collect(0), Refused(Refusal::Core(Core::Empty))),
];

/// The end of the first stream.
pub(super) const CLOSED: &[Step] = &[(Close(0), Answer::Closed)];

/// What is answered once the stream is closed and its images are collected.
pub(super) const AFTER_CLOSE: &[Step] = &[
    (Collect(0), Refused(Refusal::Core(Core::Drained))),
    (Offer(0, 0x5A), Refused(Refusal::Core(Core::Closed))),
    (Close(0), Refused(Refusal::Core(Core::AlreadyClosed))),
];

/// As many frames as the journal has places beside that of the close.
pub(super) const FIFTEEN_FRAMES: &[Step] = &[
    (Offer(0, 0), Accepted(0)),
    (Offer(0, 1), Accepted(1)),
    (Offer(0, 2), Accepted(2)),
    (Offer(0, 3), Accepted(3)),
    (Offer(0, 4), Accepted(4)),
    (Offer(0, 5), Accepted(5)),
    (Offer(0, 6), Accepted(6)),
    (Offer(0, 7), Accepted(7)),
    (Offer(0, 8), Accepted(8)),
    (Offer(0, 9), Accepted(9)),
    (Offer(0, 10), Accepted(10)),
    (Offer(0, 11), Accepted(11)),
    (Offer(0, 12), Accepted(12)),
    (Offer(0, 13), Accepted(13)),
    (Offer(0, 14), Accepted(14)),
    (Offer(0, 0x5A), Refused(Refusal::HistoryFull)),
    (Work(0, 0), Refused(Refusal::HistoryFull)),
];

/// As many frames as leave places for a lease and one frame more.
pub(super) const TWELVE_FRAMES: &[Step] = &[
    (Offer(0, 0), Accepted(0)),
    (Offer(0, 1), Accepted(1)),
    (Offer(0, 2), Accepted(2)),
    (Offer(0, 3), Accepted(3)),
    (Offer(0, 4), Accepted(4)),
    (Offer(0, 5), Accepted(5)),
    (Offer(0, 6), Accepted(6)),
    (Offer(0, 7), Accepted(7)),
    (Offer(0, 8), Accepted(8)),
    (Offer(0, 9), Accepted(9)),
    (Offer(0, 10), Accepted(10)),
    (Offer(0, 11), Accepted(11)),
];

/// A lease without a band is two entries each time, and the last needs a place for its settlement.
pub(super) const SEVEN_LEASES: &[Step] = &[
    (Offer(0, 0x00), Accepted(0)),
    (Work(0, 0), Worked((0, 0, 1), Settled::Returned)),
    (Work(0, 0), Worked((0, 0, 1), Settled::Returned)),
    (Work(0, 0), Worked((0, 0, 1), Settled::Returned)),
    (Work(0, 0), Worked((0, 0, 1), Settled::Returned)),
    (Work(0, 0), Worked((0, 0, 1), Settled::Returned)),
    (Work(0, 0), Worked((0, 0, 1), Settled::Returned)),
    (Work(0, 0), Worked((0, 0, 1), Settled::Returned)),
    (Work(0, 0), Refused(Refusal::HistoryFull)),
];

/// A book of one worker after these calls.
pub(super) fn book_after(
    rt: &impl Abort,
    alloc: Global,
    streams: &[Served<'_>],
    steps: &[Step],
) -> Result<Book, Fail> {
    let mut book = book_of(alloc, streams)?;
    follow(rt, alloc, &mut book, steps)?;
    Ok(book)
}

/// What is told of a book of one worker after these calls.
pub(super) fn told_after(
    rt: &impl Abort,
    alloc: Global,
    streams: &[Served<'_>],
    parts: &[&[Step]],
) -> Result<Told, Fail> {
    let mut book = book_of(alloc, streams)?;
    for part in parts {
        follow(rt, alloc, &mut book, part)?;
    }
    Ok(told_of(&book))
}

/// Calls a book in turn, and compares each answer.
pub(super) fn follow(
    rt: &impl Abort,
    alloc: Global,
    book: &mut Book,
    steps: &[Step],
) -> Result<(), Fail> {
    for step in steps {
        let (call, want) = *step;
        let got = answer_to(alloc, book, call)?;
        same_at(rt, got, want, call);
    }
    Ok(())
}

/// What a book answers to a call.
fn answer_to(alloc: Global, book: &mut Book, call: Call) -> Result<Answer, Fail> {
    match call {
        Offer(s, sample) => offered(alloc, book, s, 0, &[sample]),
        Call::OfferAt(s, at, sample) => offered(alloc, book, s, at, &[sample]),
        Call::OfferTall(s) => offered(alloc, book, s, 0, &[1, 2, 3, 4]),
        Work(w, bands) => Ok(worked(book, w, bands)),
        Collect(s) => Ok(collected(book, s)),
        Close(s) => Ok(closed(book.close(s))),
        _ => Err("only a hub is called so".into()),
    }
}

/// The answer of a close.
pub(super) fn closed(answer: Result<(), Refusal>) -> Answer {
    match answer {
        Ok(()) => Answer::Closed,
        Err(refusal) => Refused(refusal),
    }
}
