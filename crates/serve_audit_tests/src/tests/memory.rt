//! Audits of an admission, whose memory may be refused. Each of these tests holds whichever growths are
//! refused.
use super::journals::THIRDS;
use super::{same, specs_of, tally_of};
use serve_audit::{AuditFault, check, check_all};
use serve_core::{StreamSpec, Tally};
use serve_hub::{Act, Entry, Seat};
use std::alloc::Global;
use std::process::Abort;
use std::test::Fail;

const ADMISSION: Entry = Entry {
    seat: Seat::Stream(1),
    act: Act::Admitted,
};

fn opened(alloc: Global) -> Result<(Tally, Vec<StreamSpec>), Fail> {
    let specs = specs_of(alloc, THIRDS.streams, THIRDS.later)?;
    Ok((tally_of(alloc, &THIRDS)?, specs))
}

/// The stream is there with its share, or all is as it was.
fn admits(rt: &impl Abort, tally: &mut Tally, specs: &[StreamSpec]) {
    match check(tally, specs, ADMISSION) {
        Ok(right) => same(rt, (right, tally.streams()), (true, 2)),
        Err(_) => same(rt, (tally.streams(), tally.account(0)), (1, Some((1, 0)))),
    }
}

#[test]
fn an_entry_without_memory_leaves_the_tally(rt: HostRuntime) -> Result<(), Fail> {
    let (mut tally, specs) = opened(rt.alloc())?;
    admits(&rt, &mut tally, &specs);
    Ok(())
}

#[test]
fn an_audit_without_memory_says_so(rt: HostRuntime) -> Result<(), Fail> {
    let (mut tally, specs) = opened(rt.alloc())?;
    match check_all(&mut tally, &specs, &[ADMISSION]) {
        Ok(()) => same(&rt, tally.streams(), 2),
        Err(fault) => same(&rt, fault, AuditFault::NoMemory),
    }
    Ok(())
}
