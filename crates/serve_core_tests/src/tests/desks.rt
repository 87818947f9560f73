//! A desk's clock, and whether it has a stream for a worker.
use super::Size::Dot;
use super::{PLAIN, Plan, frame_of, same, setup_of};
use frame_view::Frame;
use serve_core::Desk;
use std::alloc::Global;
use std::process::Abort;
use std::sync::Arc;
use std::test::Fail;

const ONE: Plan<'static> = Plan {
    workers: 1,
    quantum: 4,
    streams: &[PLAIN],
};

fn desk_of(alloc: Global) -> Result<Desk, Fail> {
    Ok(Desk::new(alloc, setup_of(alloc, &ONE)?)?)
}

/// The clock of a desk behind a tick.
fn ticked(desk: &mut Desk, at: u64) -> u64 {
    if at <= 1 << 60 {
        desk.tick(at);
    }
    desk.clock()
}

#[test]
fn the_clock_of_a_desk_goes_on(rt: HostRuntime) -> Result<(), Fail> {
    let mut desk = desk_of(rt.alloc())?;
    for (at, clock) in [
        (0, 0),
        (7, 7),
        (5, 7),
        (7, 7),
        (1 << 60, 1 << 60),
        (8, 1 << 60),
    ] {
        same(&rt, ticked(&mut desk, at), clock);
    }
    Ok(())
}

fn offered(alloc: Global, desk: &mut Desk, frame: Arc<Frame>) -> Result<u64, Fail> {
    match desk.offer(alloc, 0, 0, frame) {
        Ok(number) => Ok(number),
        Err((refusal, _)) => Err(refusal.into()),
    }
}

/// Its one stream is ready as long as its frame waits for a worker.
fn leases(rt: &impl Abort, desk: &mut Desk) {
    same(rt, desk.any_ready(), true);
    match desk.lease(0) {
        Ok(lease) => {
            same(rt, desk.any_ready(), false);
            let _job = lease.into_job();
        }
        Err(_) => same(rt, "no lease", ""),
    }
}

#[test]
fn a_frame_that_waits_makes_its_stream_ready(rt: HostRuntime) -> Result<(), Fail> {
    let frame = frame_of(rt.alloc(), Dot, &[0x00])?;
    let mut desk = desk_of(rt.alloc())?;
    same(&rt, desk.any_ready(), false);
    same(&rt, offered(rt.alloc(), &mut desk, frame)?, 0);
    leases(&rt, &mut desk);
    Ok(())
}
