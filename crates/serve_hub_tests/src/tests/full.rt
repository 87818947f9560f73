//! Journals up to their last entry.
use super::steps::{
    Answer, CLOSED, FIFTEEN_FRAMES, SEVEN_LEASES, TWELVE_FRAMES, book_after, told_after,
};
use super::{
    Core, PLAIN, collected, frame_of, same, same_at, settled, setup_of, state_of, stepped,
};
use frame_view::Frame;
use serve_hub::{Book, HubError, Refusal, Settled};
use std::alloc::Global;
use std::process::Abort;
use std::sync::Arc;
use std::test::Fail;

#[test]
fn offers_fill_the_journal(rt: HostRuntime) -> Result<(), Fail> {
    let mut book = book_after(&rt, rt.alloc(), &[PLAIN], FIFTEEN_FRAMES)?;
    let refusal = book.offer_job_refusal(0, 0);
    same(&rt, refusal, Some(Refusal::HistoryFull));
    same(&rt, (book.close(0), book.journal().len()), (Ok(()), 16));
    Ok(())
}

#[test]
fn a_limit_has_limits(rt: HostRuntime) -> Result<(), Fail> {
    let alloc = rt.alloc();
    for limit in [0, 15, (1 << 20) + 1] {
        let setup = setup_of(alloc, 1, &[PLAIN])?;
        let refused = Book::new(alloc, setup, limit).err();
        same_at(&rt, refused, Some(HubError::BadLimit), limit);
    }
    Ok(())
}

#[test]
fn leases_without_a_band_fill_the_journal(rt: HostRuntime) -> Result<(), Fail> {
    let told = told_after(&rt, rt.alloc(), &[PLAIN], &[SEVEN_LEASES, CLOSED])?;
    same(&rt, told, (16, 0, Some(0), Some([1, 4, 1, 0, 0, 0])));
    Ok(())
}

/// The entries of the settlement and the close are kept for them.
#[test]
fn a_lease_is_out_while_the_journal_fills(rt: HostRuntime) -> Result<(), Fail> {
    let frame = frame_of(rt.alloc(), &[0x0C])?;
    let mut book = book_after(&rt, rt.alloc(), &[PLAIN], TWELVE_FRAMES)?;
    fill_beside_a_lease(&rt, rt.alloc(), &mut book, frame);
    Ok(())
}

/// Leases the first of twelve frames, and offers the thirteenth before its settlement. Where the memory for
/// that is refused, the journal has a place left.
fn fill_beside_a_lease(rt: &impl Abort, alloc: Global, book: &mut Book, frame: Arc<Frame>) {
    let lease = book.lease(0).expect(rt, "a lease");
    offered_or_not(rt, book.offer(alloc, 0, 0, frame));
    let last = book.offer_job_refusal(0, 0);
    let empty = Answer::Refused(Refusal::Core(Core::Empty));
    same(rt, collected(book, 0), empty);
    let done = settled(book, 0, stepped(lease, 1));
    same(rt, done, Ok(Settled::Finished(0)));
    if last == Some(Refusal::HistoryFull) {
        ends_full(rt, book);
    }
}

/// The thirteenth frame was accepted, or its memory was refused.
fn offered_or_not(rt: &impl Abort, answer: Result<u64, (Refusal, Arc<Frame>)>) {
    match answer {
        Ok(number) => same(rt, number, 12),
        Err((refusal, _)) => same(rt, refusal, Refusal::Core(Core::NoMemory)),
    }
}

/// A full journal whose one image can't be collected.
fn ends_full(rt: &impl Abort, book: &mut Book) {
    let full = Answer::Refused(Refusal::HistoryFull);
    same(rt, (collected(book, 0), book.close(0)), (full, Ok(())));
    let state = state_of(book.desk().account(0), book.desk().counts(0));
    same(rt, state, Some([1, 8, 13, 1, 0, 1]));
    same(rt, (book.journal().len(), book.bands(0)), (16, 1));
}
