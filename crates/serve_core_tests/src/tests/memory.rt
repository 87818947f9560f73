//! Arrivals and admissions whose memory may be refused. Each of these tests holds whichever growths are
//! refused.
use super::Asked::{Arrive, Band, Close, Collect, Lease, Settle};
use super::Line::{self, Asks};
use super::Size::Dot;
use super::Told::{
    Accepted, Admitted, Closing, Finished, GivenBack, Image, Leased, Refused, SpecBack, Stepped,
};
use super::{
    LINE, PLAIN, Plan, Served, are_told, content_of, frame_of, replies_to, same, same_either,
    setup_of, spec_of, state_of,
};
use frame_view::Frame;
use serve_core::{Desk, Event, Machine, Newcomer, Refusal, StreamSpec};
use std::alloc::Global;
use std::process::Abort;
use std::sync::Arc;
use std::test::Fail;

/// One place for a frame.
const NARROW: Plan<'static> = Plan {
    workers: 1,
    quantum: 4,
    streams: &[Served {
        account: (1, 4),
        queue: 1,
        ..PLAIN
    }],
};

const FIRST_ACCEPTED: &[Line<'_>] = &[
    Asks(Arrive(0, Dot, &[0x00]), Accepted(0)),
    Asks(
        Arrive(0, Dot, &[0x01]),
        GivenBack(Refusal::Full, LINE, &[0x01]),
    ),
    Asks(Close(0), Closing),
    Asks(
        Arrive(0, Dot, &[0x01]),
        GivenBack(Refusal::Closed, LINE, &[0x01]),
    ),
    Asks(Close(0), Refused(Refusal::AlreadyClosed)),
    Asks(Lease(0), Leased(0, 0, 1)),
    Asks(Collect(0), Refused(Refusal::Empty)),
    Asks(Band(0), Stepped),
    Asks(Settle(0), Finished(0)),
    Asks(Collect(0), Image(LINE, &[0xFF])),
    Asks(Collect(0), Refused(Refusal::Drained)),
];

const SECOND_ACCEPTED: &[Line<'_>] = &[
    Asks(
        Arrive(0, Dot, &[0x00]),
        GivenBack(Refusal::NoMemory, LINE, &[0x00]),
    ),
    Asks(Arrive(0, Dot, &[0x01]), Accepted(0)),
    Asks(Close(0), Closing),
    Asks(
        Arrive(0, Dot, &[0x01]),
        GivenBack(Refusal::Closed, LINE, &[0x01]),
    ),
    Asks(Close(0), Refused(Refusal::AlreadyClosed)),
    Asks(Lease(0), Leased(0, 0, 1)),
    Asks(Collect(0), Refused(Refusal::Empty)),
    Asks(Band(0), Stepped),
    Asks(Settle(0), Finished(0)),
    Asks(Collect(0), Image(LINE, &[0xFE])),
    Asks(Collect(0), Refused(Refusal::Drained)),
];

const NONE_ACCEPTED: &[Line<'_>] = &[
    Asks(
        Arrive(0, Dot, &[0x00]),
        GivenBack(Refusal::NoMemory, LINE, &[0x00]),
    ),
    Asks(
        Arrive(0, Dot, &[0x01]),
        GivenBack(Refusal::NoMemory, LINE, &[0x01]),
    ),
    Asks(Close(0), Closing),
    Asks(
        Arrive(0, Dot, &[0x01]),
        GivenBack(Refusal::Closed, LINE, &[0x01]),
    ),
    Asks(Close(0), Refused(Refusal::AlreadyClosed)),
    Asks(Lease(0), Refused(Refusal::NoneReady)),
    Asks(Collect(0), Refused(Refusal::Drained)),
    Asks(Band(0), Refused(Refusal::NoLease)),
    Asks(Settle(0), Refused(Refusal::NoLease)),
    Asks(Collect(0), Refused(Refusal::Drained)),
    Asks(Collect(0), Refused(Refusal::Drained)),
];

/// An arrival is accepted or refused for memory, and all that follows is as it then has to be.
#[test]
fn each_run_is_a_legal_transcript(rt: HostRuntime) -> Result<(), Fail> {
    let replies = replies_to(rt.alloc(), &NARROW, FIRST_ACCEPTED)?;
    let is_legal = are_told(&replies, FIRST_ACCEPTED)
        || are_told(&replies, SECOND_ACCEPTED)
        || are_told(&replies, NONE_ACCEPTED);
    same(&rt, is_legal, true);
    Ok(())
}

fn machine_of(alloc: Global) -> Result<Machine, Fail> {
    Ok(Machine::new(alloc, setup_of(alloc, &NARROW)?)?)
}

fn desk_of(alloc: Global) -> Result<Desk, Fail> {
    Ok(Desk::new(alloc, setup_of(alloc, &NARROW)?)?)
}

/// A frame arrives at moment 7, as an idle arrival, and a worker asks for it.
fn arrives(rt: &impl Abort, alloc: Global, machine: &mut Machine, frame: Arc<Frame>) {
    let _ticked = machine.step(alloc, Event::Tick(7));
    let state = state_of(machine, 0);
    let reply = machine.step(alloc, Event::Arrive(0, frame));
    let then = state_of(machine, 0);
    let lease = machine.step(alloc, Event::Lease(0));
    same_either(
        rt,
        (content_of(&reply), then, content_of(&lease)),
        (Accepted(0), Some([1, 11, 1, 0, 0, 0]), Leased(0, 0, 1)),
        (
            GivenBack(Refusal::NoMemory, LINE, &[0x5A]),
            state,
            Refused(Refusal::NoneReady),
        ),
    );
    same(rt, machine.clock(), 7);
}

#[test]
fn a_frame_without_memory_leaves_the_machine(rt: HostRuntime) -> Result<(), Fail> {
    let frame = frame_of(rt.alloc(), Dot, &[0x5A])?;
    let mut machine = machine_of(rt.alloc())?;
    arrives(&rt, rt.alloc(), &mut machine, frame);
    Ok(())
}

/// The stream is there with its share, or the spec comes back and another has its place.
fn admits(rt: &impl Abort, alloc: Global, machine: &mut Machine, spec: StreamSpec) {
    let _ticked = machine.step(alloc, Event::Tick(7));
    let state = state_of(machine, 0);
    let reply = machine.step(alloc, Event::Admit(spec));
    same_either(
        rt,
        (content_of(&reply), state_of(machine, 1)),
        (Admitted(1), Some([2, 0, 0, 0, 0, 0])),
        (SpecBack(Refusal::NoMemory, 4, 4), None),
    );
    same(rt, (machine.clock(), state_of(machine, 0)), (7, state));
}

#[test]
fn a_stream_without_memory_leaves_the_machine(rt: HostRuntime) -> Result<(), Fail> {
    let spec = spec_of(rt.alloc(), &PLAIN)?;
    let mut machine = machine_of(rt.alloc())?;
    admits(&rt, rt.alloc(), &mut machine, spec);
    Ok(())
}

/// A refusal, with the queue and the outbox of the spec that comes back, and what the desk says of that spec.
type Back = (Refusal, u64, u64, Option<Refusal>);

/// What a desk makes of a spec.
fn desk_answers(alloc: Global, desk: &mut Desk, spec: StreamSpec) -> Result<u32, Back> {
    match desk.admit(alloc, spec) {
        Ok(s) => Ok(s),
        Err((refusal, spec)) => Err((
            refusal,
            spec.queue(),
            spec.outbox(),
            desk.admit_refusal(&spec),
        )),
    }
}

/// So it is at a desk.
fn desk_admits(rt: &impl Abort, alloc: Global, desk: &mut Desk, spec: StreamSpec) {
    let answer = desk_answers(alloc, desk, spec);
    same_either(
        rt,
        (answer, desk.streams(), desk.account(1)),
        (Ok(1), 2, Some((2, 0))),
        (Err((Refusal::NoMemory, 4, 4, None)), 1, None),
    );
    same(rt, (desk.clock(), desk.account(0)), (0, Some((1, 0))));
}

#[test]
fn a_stream_without_memory_leaves_the_desk(rt: HostRuntime) -> Result<(), Fail> {
    let spec = spec_of(rt.alloc(), &PLAIN)?;
    let mut desk = desk_of(rt.alloc())?;
    desk_admits(&rt, rt.alloc(), &mut desk, spec);
    Ok(())
}

/// What a desk makes of a newcomer: its number, or why not, with the queue of its spec.
fn newcomer_answers(desk: &mut Desk, newcomer: Newcomer) -> Result<u32, (Refusal, u64)> {
    match desk.admit_newcomer(newcomer) {
        Ok(s) => Ok(s),
        Err((refusal, newcomer)) => Err((refusal, newcomer.spec().queue())),
    }
}

/// The memory of a stream is there before the desk is asked, but for its place.
fn newcomer_comes(rt: &impl Abort, desk: &mut Desk, newcomer: Newcomer) {
    let answer = newcomer_answers(desk, newcomer);
    same_either(
        rt,
        (answer, desk.streams(), desk.account(1)),
        (Ok(1), 2, Some((2, 0))),
        (Err((Refusal::NoMemory, 4)), 1, None),
    );
}

/// A newcomer comes to a desk of its own.
fn newcomer_enters(rt: &impl Abort, alloc: Global, newcomer: Newcomer) -> Result<(), Fail> {
    let mut desk = desk_of(alloc)?;
    newcomer_comes(rt, &mut desk, newcomer);
    Ok(())
}

#[test]
fn a_newcomer_without_a_place_leaves_the_desk(rt: HostRuntime) -> Result<(), Fail> {
    match Newcomer::new(rt.alloc(), spec_of(rt.alloc(), &PLAIN)?) {
        Ok(newcomer) => newcomer_enters(&rt, rt.alloc(), newcomer),
        Err((refusal, spec)) => {
            let back = (refusal, spec.queue(), spec.outbox());
            same(&rt, back, (Refusal::NoMemory, 4, 4));
            Ok(())
        }
    }
}
