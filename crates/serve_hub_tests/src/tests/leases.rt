//! Leases that come back to the wrong worker or book.
use super::steps::{Answer, Call, Step, book_after, follow, told_after};
use super::{
    Core, PLAIN, Served, Size, book_of, collected, frame_of, same, settled, setup_of, stepped, told,
};
use lease::{Job, Lease};
use serve_hub::{Book, Refusal, Settled};
use std::alloc::Global;
use std::process::Abort;
use std::test::Fail;

/// A frame of two bands.
pub(super) const TALL: Served<'static> = Served {
    size: Size::Tall,
    rows: 2,
    account: (2, 4),
    ..PLAIN
};

/// The first frame of a stream.
pub(super) const TALL_FRAME: &[Step] = &[(Call::OfferTall(0), Answer::Accepted(0))];

/// The first frames of two streams.
const TWO_TALL_FRAMES: &[Step] = &[
    (Call::OfferTall(0), Answer::Accepted(0)),
    (Call::OfferTall(1), Answer::Accepted(0)),
];

/// A lease that no book gave, over the same frame and chain.
fn stray(alloc: Global, number: u64, grant: u32) -> Result<Lease, Fail> {
    let spec = super::job_spec_of(alloc, &TALL)?;
    let scratch = lease::Scratch::new(alloc, &spec)?;
    let mut job = Job::new(alloc, spec, frame_of(alloc, &[1, 2, 3, 4])?)?;
    job.start(scratch);
    if !(1..=job.steps()).contains(&grant) {
        return Err("no grant".into());
    }
    Ok(Lease::new(job, 0, number, grant))
}

/// A lease of one band, and one of the second frame.
pub(super) fn strays(alloc: Global) -> Result<(Lease, Lease), Fail> {
    let smaller = stray(alloc, 0, 1)?;
    match stray(alloc, 1, 2) {
        Ok(later) => Ok((smaller, later)),
        Err(e) => {
            let _job = smaller.into_job();
            Err(e)
        }
    }
}

#[test]
fn a_stray_lease_comes_back(rt: HostRuntime) -> Result<(), Fail> {
    let mut book = book_after(&rt, rt.alloc(), &[TALL], TALL_FRAME)?;
    strayed(&rt, rt.alloc(), &mut book)
}

/// Leases of another grant and another number than the worker's come back, and its own settles.
fn strayed(rt: &impl Abort, alloc: Global, book: &mut Book) -> Result<(), Fail> {
    let (smaller, later) = strays(alloc)?;
    let lease = book.lease(0).expect(rt, "a lease");
    same(rt, told(&lease), (0, 0, 2));
    let refused = (settled(book, 0, smaller), settled(book, 0, later));
    let refusal = Err(Refusal::StrayLease);
    same(rt, refused, (refusal, refusal));
    same(rt, book.journal().len(), 2);
    let done = settled(book, 0, stepped(lease, 2));
    same(rt, done, Ok(Settled::Finished(0)));
    Ok(())
}

#[test]
fn a_worker_settles_its_own_lease(rt: HostRuntime) -> Result<(), Fail> {
    let alloc = rt.alloc();
    let setup = setup_of(alloc, 2, &[TALL, TALL])?;
    let mut book = Book::new(alloc, setup, 16)?;
    follow(&rt, alloc, &mut book, TWO_TALL_FRAMES)?;
    two_work(&rt, &mut book);
    Ok(())
}

/// Both workers lease. The second can't settle the first one's lease.
fn two_work(rt: &impl Abort, book: &mut Book) {
    let first = book.lease(0).expect(rt, "a lease");
    let second = book.lease(1).expect(rt, "a lease");
    let first = came_back(rt, book.settle(1, first));
    let done = settled(book, 0, stepped(first, 1));
    same(rt, done, Ok(Settled::Returned));
    let done = settled(book, 1, stepped(second, 2));
    same(rt, done, Ok(Settled::Finished(0)));
    same(rt, (book.bands(0), book.bands(1)), (1, 2));
}

/// The lease that another worker has.
fn came_back(rt: &impl Abort, answer: Result<Settled, (Refusal, Lease)>) -> Lease {
    match answer {
        Ok(_) => panic!(rt; "another worker's lease was settled"),
        Err((refusal, lease)) => {
            same(rt, refusal, Refusal::StrayLease);
            lease
        }
    }
}

/// A worker without a lease has nothing to settle.
#[test]
fn a_lease_of_another_book_comes_back(rt: HostRuntime) -> Result<(), Fail> {
    let alloc = rt.alloc();
    let mut book = book_of(alloc, &[TALL])?;
    let lease = stray(alloc, 0, 2)?;
    let refused = settled(&mut book, 0, lease);
    same(&rt, refused, Err(Refusal::Core(Core::NoLease)));
    Ok(())
}

/// Two books can't tell each other's leases where stream, number, grant, first band and chain are the same.
#[test]
fn equal_leases_are_settled_crosswise(rt: HostRuntime) -> Result<(), Fail> {
    let dark = &[(Call::Offer(0, 0x00), Answer::Accepted(0))];
    let mut one = book_after(&rt, rt.alloc(), &[PLAIN], dark)?;
    across(&rt, rt.alloc(), &mut one)
}

/// The book that has the other frame.
fn across(rt: &impl Abort, alloc: Global, one: &mut Book) -> Result<(), Fail> {
    let light = &[(Call::Offer(0, 0x01), Answer::Accepted(0))];
    let mut other = book_after(rt, alloc, &[PLAIN], light)?;
    exchange(rt, one, &mut other);
    Ok(())
}

/// The worker of each book settles the other's lease.
fn exchange(rt: &impl Abort, one: &mut Book, other: &mut Book) {
    let of_one = stepped(one.lease(0).expect(rt, "a lease"), 1);
    let of_other = stepped(other.lease(0).expect(rt, "a lease"), 1);
    let done = (settled(one, 0, of_other), settled(other, 0, of_one));
    let finished = Ok(Settled::Finished(0));
    same(rt, done, (finished, finished));
    let image = Answer::Given(Some(0x01), Some(0xFE));
    same(rt, collected(one, 0), image);
}

/// A stream whose chain is a blur.
pub(super) const BLURRED: Served<'static> = Served {
    ops: "blur:8",
    ..PLAIN
};

/// A frame of one band.
pub(super) const ONE_BAND: &[Step] = &[
    (Call::Offer(0, 0x5A), Answer::Accepted(0)),
    (
        Call::Work(0, 1),
        Answer::Worked((0, 0, 1), Settled::Finished(0)),
    ),
];

/// A band of a blur costs its radius more.
#[test]
fn units_are_what_bands_cost(rt: HostRuntime) -> Result<(), Fail> {
    let told = told_after(&rt, rt.alloc(), &[BLURRED], &[ONE_BAND])?;
    same(&rt, told, (3, 1, Some(9), Some([1, 40, 1, 1, 0, 9])));
    Ok(())
}
