//! One frame from its offer to its collection, with the refusals on its way.
use super::steps::Answer::Refused;
use super::steps::Call::OfferAt;
use super::steps::{AFTER_CLOSE, Answer, FIRST_FRAME, FIRST_IMAGE, Step, book_after, follow};
use super::{
    Core, PLAIN, book_of, collected, frame_of, same, same_list, settled, state_of, stepped, told,
    worked,
};
use frame_view::Frame;
use serve_hub::Act::{Closed, Collected, Leased, Offered, Settled};
use serve_hub::Seat::{Stream, Worker};
use serve_hub::{Book, Entry, Refusal, Settled as Done};
use std::alloc::Global;
use std::process::Abort;
use std::sync::Arc;
use std::test::Fail;

/// The journal of one frame.
const JOURNAL: &[Entry] = &[
    Entry {
        seat: Stream(0),
        act: Offered(None, 0),
    },
    Entry {
        seat: Worker(0),
        act: Leased(0, 0, 1),
    },
    Entry {
        seat: Worker(0),
        act: Settled(1, true),
    },
    Entry {
        seat: Stream(0),
        act: Collected(0),
    },
    Entry {
        seat: Stream(0),
        act: Closed,
    },
];

/// What a book answers while its one frame is leased.
fn works(rt: &impl Abort, book: &mut Book) {
    let lease = book.lease(0).expect(rt, "a lease");
    same(rt, (told(&lease), book.desk().is_out(0)), ((0, 0, 1), true));
    let busy = Answer::Refused(Refusal::Core(Core::Busy));
    let empty = Answer::Refused(Refusal::Core(Core::Empty));
    same(rt, (worked(book, 0, 0), collected(book, 0)), (busy, empty));
    let done = settled(book, 0, stepped(lease, 1));
    same(
        rt,
        (done, book.desk().is_out(0)),
        (Ok(Done::Finished(0)), false),
    );
}

/// From the lease of the one frame on.
fn goes_on(rt: &impl Abort, alloc: Global, book: &mut Book) -> Result<(), Fail> {
    works(rt, book);
    follow(rt, alloc, book, FIRST_IMAGE)?;
    let closed = (book.desk().is_over(), book.close(0), book.desk().is_over());
    same(rt, closed, (false, Ok(()), true));
    follow(rt, alloc, book, AFTER_CLOSE)
}

/// The book after one frame.
pub(super) fn after_one_frame(rt: &impl Abort, alloc: Global) -> Result<Book, Fail> {
    let mut book = book_after(rt, alloc, &[PLAIN], FIRST_FRAME)?;
    goes_on(rt, alloc, &mut book)?;
    Ok(book)
}

#[test]
fn a_frame_goes_through(rt: HostRuntime) -> Result<(), Fail> {
    let book = after_one_frame(&rt, rt.alloc())?;
    same_list(&rt, book.journal(), JOURNAL);
    same(&rt, book.latest(), JOURNAL.last().copied());
    let cost = (book.bands(0), book.units(0), book.units(1));
    same(&rt, cost, (1, Some(1), None));
    let state = state_of(book.desk().account(0), book.desk().counts(0));
    same(&rt, state, Some([1, 8, 1, 1, 1, 1]));
    same(&rt, book.room(), 11);
    Ok(())
}

/// An offer at a later moment lets the clock go on, and tells it in its entry.
#[test]
fn an_entry_tells_the_tick(rt: HostRuntime) -> Result<(), Fail> {
    let alloc = rt.alloc();
    let frame = frame_of(alloc, &[0x00])?;
    let mut book = book_of(alloc, &[PLAIN])?;
    let want = left_by(&rt, book.offer(alloc, 0, 7, frame));
    same(&rt, (book.desk().clock(), book.latest()), want);
    Ok(())
}

/// The clock and the latest entry behind the first offer, at moment 7, which may want memory.
fn left_by(rt: &impl Abort, answer: Result<u64, (Refusal, Arc<Frame>)>) -> (u64, Option<Entry>) {
    match answer {
        Ok(number) => {
            same(rt, number, 0);
            let entry = Entry {
                seat: Stream(0),
                act: Offered(Some(7), 0),
            };
            (7, Some(entry))
        }
        Err((refusal, _)) => {
            same(rt, refusal, Refusal::Core(Core::NoMemory));
            (0, None)
        }
    }
}

/// A refused offer leaves the clock.
#[test]
fn a_refused_offer_leaves_the_clock(rt: HostRuntime) -> Result<(), Fail> {
    let book = book_after(&rt, rt.alloc(), &[PLAIN], IN_VAIN)?;
    same(&rt, (book.desk().clock(), book.latest()), (0, None));
    Ok(())
}

/// Offers to a stream that isn't there, and behind the end of the clock.
const IN_VAIN: &[Step] = &[
    (OfferAt(1, 9, 0x5A), Refused(Refusal::Core(Core::NoStream))),
    (
        OfferAt(0, (1 << 60) + 1, 0x5A),
        Refused(Refusal::Core(Core::ClockEnd)),
    ),
];
