//! The journal that a book keeps, and what an audit makes of it.
use super::journals::ONE;
use super::{audited, same, setup_of};
use frame_view::{Frame, Geometry};
use lease::Lease;
use serve_hub::Book;
use std::alloc::Global;
use std::process::Abort;
use std::sync::Arc;
use std::test::Fail;
use y4m_header::{Chroma, check_frame_line};

fn frame_of(alloc: Global, sample: u8) -> Result<Arc<Frame>, Fail> {
    check_frame_line(b"FRAME")?;
    let geometry = Geometry {
        width: 1,
        height: 1,
        chroma: Chroma::Mono,
    };
    let frame = Frame::new(geometry, b"FRAME".to_vec(alloc)?, [sample].to_vec(alloc)?)?;
    Ok(Arc::new(alloc, frame)?)
}

/// Does a band of a lease, and settles it.
fn settles(book: &mut Book, lease: Lease) -> bool {
    let mut lease = lease;
    let _spent = lease.step();
    match book.settle(0, lease) {
        Ok(_) => true,
        Err((_, lease)) => {
            let _job = lease.into_job();
            false
        }
    }
}

/// Leases the frame, and settles it.
fn works(rt: &impl Abort, book: &mut Book) {
    match book.lease(0) {
        Ok(lease) => same(rt, settles(book, lease), true),
        Err(_) => same(rt, "no lease", ""),
    }
}

fn offered(alloc: Global, book: &mut Book, frame: Arc<Frame>) -> Result<u64, Fail> {
    match book.offer(alloc, 0, 9, frame) {
        Ok(number) => Ok(number),
        Err((refusal, _)) => Err(refusal.into()),
    }
}

/// Serves the frame, with a call that is refused.
fn serves(rt: &impl Abort, book: &mut Book) {
    same(rt, book.collect(0).is_ok(), false);
    works(rt, book);
    same(
        rt,
        (book.collect(0).is_ok(), book.close(0).is_ok()),
        (true, true),
    );
}

#[test]
fn the_journal_of_a_book_is_legal(rt: HostRuntime) -> Result<(), Fail> {
    let alloc = rt.alloc();
    let frame = frame_of(alloc, 0x00)?;
    let mut book = Book::new(alloc, setup_of(alloc, &ONE)?, 16)?;
    same(&rt, offered(alloc, &mut book, frame)?, 0);
    serves(&rt, &mut book);
    let end = audited(alloc, &ONE, book.journal())?;
    same(&rt, book.journal().len(), 5);
    same(&rt, end, (Ok(()), 9, Some([1, 17, 1, 1, 1, 1])));
    Ok(())
}
