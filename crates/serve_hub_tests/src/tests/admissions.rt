//! Streams that books and hubs admit, in one epoch and in the next.
ghost use Rattle.std.specs.Prelude.{◌≡◌};
ghost use Rattle.serve_core.specs.Schedule.{opened_schedule};

use super::ends::{Left, again_after, ended_after, followed, left_after, left_by, left_of};
use super::seated::seated_of;
use super::steps::Answer::{
    Accepted, AcceptedAt, Admitted, Closed, Given, Refused, SpecBack, Worked,
};
use super::steps::Call::{Admit, Close, Collect, Offer, OfferAt, WaitAndWork, Work};
use super::steps::{Answer, Step, TWELVE_FRAMES, follow};
use super::{Core, PLAIN, Served, book_of, same, setup_of, stream_spec_of};
use serve_core::{Setup, StreamSpec};
use serve_hub::{Act, Book, Ended, Entry, Epoch, Moments, Refusal, Seat, Settled};
use std::alloc::Global;
use std::marker::Brand;
use std::process::Abort;
use std::sync::Wait;
use std::sync::ledger::Blank;
use std::test::Fail;

/// Half of a worker.
pub(super) const HALF: Served<'static> = Served {
    account: (1, 2),
    queue: 4,
    ..PLAIN
};

/// Nothing is left of the worker for another half.
const NO_HALF: Step = (Admit(&HALF), SpecBack(Refusal::Core(Core::Overload), 4, 4));

/// The new stream's deadline is 6, that of the second 5 and then 7.
#[test]
fn a_share_is_held_up_to_the_deadline(rt: HostRuntime) -> Result<(), Fail> {
    let parts = &[COLLECTED, HELD, LATER_CALLS];
    let left = left_after(&rt, rt.alloc(), &[HALF, HALF], parts)?;
    let states = (left.states[1], left.states[2]);
    let want = (Some([1, 7, 2, 1, 0, 1]), Some([1, 8, 1, 1, 1, 1]));
    same(&rt, (left.clock, states), (4, want));
    Ok(())
}

/// Nobody calls a worker back that was told that all is drained. It gets the lease where it asks again.
#[test]
fn a_worker_asks_again_for_the_stream_that_came_later(rt: HostRuntime) -> Result<(), Fail> {
    let parts = &[DRAINED, ASKED_AGAIN];
    let left = left_after(&rt, rt.alloc(), &[HALF], parts)?;
    same(&rt, left.entries, 6);
    Ok(())
}

/// A hub that admits a stream, or is as it was for want of memory.
fn admitted_or_not<L: Epoch, R: Wait + Abort>(
    rt: &R,
    alloc: Global,
    blank: Blank,
    setup: Setup,
) -> Result<Left, Fail>
    requires name { blank.name ≡ L.name }
    requires parts { blank.parts ≡ L.parts }
    requires enough { blank.parts ≡ 80 }
    requires opening { opened_schedule setup ≡ L.opening }
{
    let mut seated = seated_of::<L>(alloc, blank, setup, 16)?;
    let got = seated.answer_to(rt, alloc, Admit(&HALF))?;
    left_of(followed(rt, alloc, seated, &[checked(rt, got)]))
}

/// The calls on a hub that answered an admission so.
fn checked(rt: &impl Abort, got: Answer) -> &'static [Step] {
    if got == Admitted(1) {
        return &[];
    }
    same(rt, got, SpecBack(Refusal::Core(Core::NoMemory), 4, 4));
    NO_OTHER
}

/// It holds whichever growths are refused.
#[test]
fn an_admission_without_memory_leaves_the_hub(rt: HostRuntime) -> Result<(), Fail> {
    let alloc = rt.alloc();
    let setup = setup_of(alloc, 1, &[HALF])?;
    let left = admitted_or_not::<Brand, _>(&rt, alloc, Blank::new(80), setup)?;
    same(&rt, left.entries, usize::from(left.states[1].is_some()));
    Ok(())
}

/// The entry of an admission is the book's latest, and the close of the stream is reserved.
#[test]
fn a_book_admits_a_stream(rt: HostRuntime) -> Result<(), Fail> {
    let alloc = rt.alloc();
    let (second, third) = (stream_spec_of(alloc, &HALF)?, stream_spec_of(alloc, &HALF)?);
    let mut book = book_of(alloc, &[HALF])?;
    second_admitted(&rt, alloc, &mut book, second);
    asked_again(&rt, alloc, &mut book, third)
}

/// The second stream has a frame, and a third one is refused.
fn asked_again(
    rt: &impl Abort,
    alloc: Global,
    book: &mut Book,
    third: StreamSpec,
) -> Result<(), Fail> {
    follow(rt, alloc, book, ASKED_AGAIN)?;
    third_refused(rt, alloc, book, third);
    Ok(())
}

/// Half of the worker is left.
fn second_admitted(rt: &impl Abort, alloc: Global, book: &mut Book, spec: StreamSpec) {
    same(rt, book.admit_refusal(&spec), None);
    let answer = told(book.admit(alloc, spec));
    same(rt, (answer, book.latest()), (Admitted(1), Some(ADMITTED)));
    same(rt, book.room(), 13);
}

/// The entry of the second stream.
const ADMITTED: Entry = Entry {
    seat: Seat::Stream(1),
    act: Act::Admitted,
};

/// Two halves leave nothing of the worker.
fn third_refused(rt: &impl Abort, alloc: Global, book: &mut Book, spec: StreamSpec) {
    let overload = Refusal::Core(Core::Overload);
    same(rt, book.admit_refusal(&spec), Some(overload));
    let answer = told(book.admit(alloc, spec));
    same(rt, answer, SpecBack(overload, 4, 4));
}

/// What a book answers to an admission.
fn told(answer: Result<u32, (Refusal, StreamSpec)>) -> Answer {
    match answer {
        Ok(number) => Admitted(number),
        Err((refusal, spec)) => SpecBack(refusal, spec.queue(), spec.outbox()),
    }
}

/// What is wrong with these comes before a full journal.
const WRONG: &[Step] = &[
    (
        Admit(&Served { queue: 0, ..PLAIN }),
        SpecBack(Refusal::Core(Core::BadLimits), 0, 4),
    ),
    (
        Admit(&Served {
            queue: 0,
            account: (5, 4),
            ..PLAIN
        }),
        SpecBack(Refusal::Core(Core::BadLimits), 0, 4),
    ),
    (
        Admit(&Served {
            account: (5, 4),
            ..PLAIN
        }),
        SpecBack(Refusal::Core(Core::BadBandwidth), 16, 4),
    ),
    (
        Admit(&Served {
            account: (1, 1),
            ..PLAIN
        }),
        SpecBack(Refusal::Core(Core::Overload), 16, 4),
    ),
];

/// The journal has a place for one entry beside the close, and so none for a stream.
#[test]
fn a_full_journal_is_told_last(rt: HostRuntime) -> Result<(), Fail> {
    let parts = &[TWELVE_FRAMES, WRONG, TWO_MORE, WRONG, NO_PLACE];
    let left = left_after(&rt, rt.alloc(), &[PLAIN], parts)?;
    same(&rt, (left.entries, left.states[1]), (15, None));
    Ok(())
}

/// The first stream's share is free in the next epoch, where its close is behind.
#[test]
fn a_hub_admits_a_stream_in_each_epoch(rt: HostRuntime) -> Result<(), Fail> {
    let alloc = rt.alloc();
    let ended = ended_after(&rt, alloc, &[HALF], &[FIRST_CALLS])?;
    same(&rt, ended.journal().len(), 7);
    let left = left_again(&rt, alloc, ended)?;
    same(&rt, left.entries, 8);
    let states = (left.states[1], left.states[2], left.states[3]);
    let want = (Some([1, 6, 2, 2, 2, 2]), Some([1, 4, 1, 1, 1, 1]), None);
    same(&rt, states, want);
    Ok(())
}

/// What is told of the end of the next epoch.
fn left_again<R: Wait + Abort>(rt: &R, alloc: Global, ended: Ended) -> Result<Left, Fail> {
    let (ended, _) = again_after(rt, alloc, ended, &[NEXT_CALLS])?;
    Ok(left_by(&ended))
}

const TWO_MORE: &[Step] = &[(Offer(0, 12), Accepted(12)), (Offer(0, 13), Accepted(13))];

const NO_PLACE: &[Step] = &[
    (Admit(&PLAIN), SpecBack(Refusal::HistoryFull, 16, 4)),
    (Close(0), Closed),
];

/// All that the first stream gets is collected.
const COLLECTED: &[Step] = &[
    (Offer(0, 0x00), Accepted(0)),
    (Work(0, 1), Worked((0, 0, 1), Settled::Finished(0))),
    (Close(0), Closed),
    (Collect(0), Given(Some(0x00), Some(0xFF))),
];

/// The first stream is collected at once, but has the deadline 4.
const HELD: &[Step] = &[
    NO_HALF,
    (
        OfferAt(1, 3, 0x10),
        AcceptedAt(
            0,
            Some(Moments {
                first: 3,
                latest: 3,
            }),
        ),
    ),
    NO_HALF,
    (
        OfferAt(1, 4, 0x10),
        AcceptedAt(
            1,
            Some(Moments {
                first: 3,
                latest: 4,
            }),
        ),
    ),
    (Admit(&HALF), Admitted(2)),
];

/// The new seat offers and collects a frame.
const LATER_CALLS: &[Step] = &[
    (Offer(2, 7), Accepted(0)),
    (Work(0, 1), Worked((1, 0, 1), Settled::Finished(0))),
    (Work(0, 1), Worked((2, 0, 1), Settled::Finished(0))),
    (Collect(2), Given(Some(7), Some(248))),
];

/// The only stream is closed, and another one is admitted.
const DRAINED: &[Step] = &[
    (Close(0), Closed),
    (WaitAndWork(0, 1), Refused(Refusal::Core(Core::Drained))),
    (Admit(&HALF), Admitted(1)),
];

const ASKED_AGAIN: &[Step] = &[
    (Offer(1, 7), Accepted(0)),
    (Work(0, 1), Worked((1, 0, 1), Settled::Finished(0))),
    (Collect(1), Given(Some(7), Some(248))),
];

const NO_OTHER: &[Step] = &[(Work(0, 0), Refused(Refusal::Core(Core::NoneReady)))];

/// The admission is the first entry.
const FIRST_CALLS: &[Step] = &[
    (Admit(&HALF), Admitted(1)),
    NO_HALF,
    (Offer(1, 5), Accepted(0)),
    (Offer(1, 6), Accepted(1)),
    (Work(0, 1), Worked((1, 0, 1), Settled::Finished(0))),
    (Close(0), Closed),
    (Collect(1), Given(Some(5), Some(250))),
];

/// What is left of stream 1 goes on, beside stream 2.
const NEXT_CALLS: &[Step] = &[
    (Admit(&HALF), Admitted(2)),
    NO_HALF,
    (Offer(2, 7), Accepted(0)),
    (Work(0, 1), Worked((2, 0, 1), Settled::Finished(0))),
    (Work(0, 1), Worked((1, 1, 1), Settled::Finished(1))),
    (Collect(1), Given(Some(6), Some(249))),
    (Collect(2), Given(Some(7), Some(248))),
    (Collect(1), Refused(Refusal::Core(Core::Empty))),
];
