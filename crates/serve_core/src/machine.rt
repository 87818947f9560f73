//! The machine: events in, replies out.
ghost use Rattle.std.specs.Prelude.{◌≡◌, IfOk, OnErr, length, map, slice_get};
ghost use Rattle.std.specs.Arc.{arc_value};
ghost use Rattle.std.specs.Option.{option_map};
ghost use Rattle.filters.specs.ChainImage.{FrameValue, value_of};
ghost use Rattle.serve_core.specs.Events as rules;
ghost use Rattle.serve_core.specs.Events.{Start, told};
ghost use Rattle.serve_core.specs.Frames.{measures, is_image};
ghost use Rattle.serve_core.specs.Headline.{IsRun};
ghost use Rattle.serve_core.specs.Leads.{Leads, LeadsOn, opening_state};
ghost use Rattle.serve_core.specs.Rules.{Allows};
ghost use Rattle.serve_core.specs.Schedule.{account_of, counts_of};
ghost use Rattle.serve_core.specs.Seen.{GivesBack, IsGivenBack, heard, seen};
ghost use Rattle.serve_core.specs.States.{after};

use crate::counts::Counts;
use crate::event::{Event, Reply};
use crate::refusal::Refusal;
use crate::schedule::Schedule;
use crate::setup::Setup;
use crate::spec::StreamSpec;
use frame_view::Frame;
use std::alloc::{AllocError, Global};
use std::marker::Model;
use std::sync::Arc;
use thiserror::Error;

/// The memory for the machine or for the list of replies was refused, and no event was run.
#[derive(Clone, Copy, Debug, PartialEq, Eq, Error)]
pub enum CoreError {
    #[error("NoMemory")]
    NoMemory,
}

/// The machine. It keeps the jobs that are out, so it can be dropped with leases out. Contracts see the
/// `State` of `specs/States.antt`; that it is sound, as `specs/Sound.antt` says, is
/// [`sound_law`](crate::laws::sound_law).
#[derive(Drop)]
pub struct Machine {
    schedule: Schedule,
}

impl Model for Machine {
    ghost use Rattle.filters.specs.ChainImage.{FrameValue};
    ghost use Rattle.serve_core.specs.States.{State};

    ghost Value = { State FrameValue };

    ghost use Rattle.serve_core.specs.MachineInside.{IsMachine, machine};

    ghost view = { λ a. machine a.schedule };

    ghost invariant = { λ a. IsMachine a.schedule };
}

impl Machine {
    /// A machine before any event.
    pub fn new(alloc: Global, setup: Setup) -> Result<Machine, AllocError>
        ensures { IfOk result (λ m. m ≡ opening_state FrameValue FrameValue setup) }
    {
        setup.recall_limits();
        let schedule = Schedule::new(alloc, setup)?;
        Ok(Machine { schedule })
    }

    /// One event. Only an arrival and an admission take memory; where they are refused, the frame or the spec
    /// comes back. That `NoMemory` is told only where memory was refused is tested. Behind each legal
    /// transcript that led to the machine's state, event and reply are legal again, and lead to the new one.
    pub fn step(&mut self, alloc: Global, event: Event) -> Reply
        ensures allowed { Allows measures is_image self.old (seen event) (heard result) }
        ensures state { self.new ≡ after self.old (seen event) (heard result) }
        ensures transcript { LeadsOn measures is_image self.old (seen event) (heard result) self.new }
        ensures returns_frame { GivesBack event result }
    {
        self.answer(alloc, event)
    }

    /// The right reply to an event.
    fn answer(&mut self, alloc: Global, event: Event) -> Reply
        ensures allowed { Allows measures is_image self.old (seen event) (heard result) }
        ensures state { self.new ≡ after self.old (seen event) (heard result) }
        ensures returns_frame { GivesBack event result }
    {
        match event {
            Event::Arrive(s, frame) => self.arrive(alloc, s, frame),
            Event::Lease(w) => self.lease(w),
            Event::Band(w) => self.band(w),
            Event::Settle(w) => self.settle(w),
            Event::Tick(to) => self.tick(to),
            Event::Close(s) => self.close(s),
            Event::Collect(s) => self.collect(s),
            Event::Admit(spec) => self.admit(alloc, spec),
        }
    }

    /// The present moment.
    pub fn clock(&self) -> u64
        ensures { result ≡ self.now.clock }
    {
        self.schedule.clock
    }

    /// The budget and the deadline of stream `s`.
    pub fn account(&self, s: u32) -> Option<(u64, u64)>
        ensures { result ≡ option_map account_of (slice_get self.now.streams s) }
    {
        self.schedule.stream(s).map(|stream| stream.account())
    }

    /// How many frames of stream `s` were accepted, finished and collected, and what it was charged.
    pub fn counts(&self, s: u32) -> Option<Counts>
        ensures { result ≡ option_map counts_of (slice_get self.now.streams s) }
    {
        self.schedule.stream(s).map(|stream| stream.counts())
    }

    /// Runs these events, one after the other. Where the memory for the list of replies is refused, no event
    /// was run.
    fn run_on(&mut self, alloc: Global, events: Vec<Event>) -> Result<Vec<Reply>, AllocError>
        ensures count { IfOk result (λ replies. length replies.items ≡ length events.items) }
        ensures leads { IfOk result (λ replies. Leads measures is_image self.old
            (told Start (map seen events.items) (map heard replies.items)) self.new) }
        ensures none { OnErr result (self.new ≡ self.old) }
    {
        let mut replies = Vec::with_capacity(alloc, events.len())?;
        for event in events {
            let reply = self.step(alloc, event);
            replies.push_reserved(reply);
        }
        Ok(replies)
    }

    /// A frame arrives.
    fn arrive(&mut self, alloc: Global, s: u32, frame: Arc<Frame>) -> Reply
        ensures allowed { let arrival = rules.Arrive s (value_of (arc_value frame)) in
            Allows measures is_image self.old arrival (heard result) }
        ensures state { let arrival = rules.Arrive s (value_of (arc_value frame)) in
            self.new ≡ after self.old arrival (heard result) }
        ensures returns_frame { IsGivenBack frame result }
    {
        let geometry = frame.geometry();
        if let Some(refusal) = self.schedule.arrival_refusal(s, geometry) {
            return Reply::GivenBack(refusal, frame);
        }
        match self.schedule.job(alloc, s, frame) {
            Ok(job) => Reply::Accepted(self.schedule.accept(s, job)),
            Err(frame) => Reply::GivenBack(Refusal::NoMemory, frame),
        }
    }

    /// One stream more is asked for.
    fn admit(&mut self, alloc: Global, spec: StreamSpec) -> Reply
        ensures allowed { Allows measures is_image self.old (rules.Admit spec) (heard result) }
        ensures state { self.new ≡ after self.old (rules.Admit spec) (heard result) }
    {
        if let Some(refusal) = self.schedule.admit_refusal(&spec) {
            return Reply::SpecBack(refusal, spec);
        }
        match self.schedule.admit(alloc, spec) {
            Ok(s) => Reply::Admitted(s),
            Err(spec) => Reply::SpecBack(Refusal::NoMemory, spec),
        }
    }

    /// A worker asks for a lease.
    fn lease(&mut self, w: u32) -> Reply
        ensures allowed { Allows measures is_image self.old (rules.Lease w) (heard result) }
        ensures state { self.new ≡ after self.old (rules.Lease w) (heard result) }
    {
        match self.schedule.lease(w) {
            Ok(held) => Reply::Leased(held.stream, held.number, held.grant),
            Err(refusal) => Reply::Refused(refusal),
        }
    }

    /// A worker does the next band of its lease.
    fn band(&mut self, w: u32) -> Reply
        ensures allowed { Allows measures is_image self.old (rules.Band w) (heard result) }
        ensures state { self.new ≡ after self.old (rules.Band w) (heard result) }
    {
        match self.schedule.lease_of_worker(w) {
            Err(refusal) => Reply::Refused(refusal),
            Ok(held) => {
                if held.used == held.grant {
                    return Reply::Refused(Refusal::GrantSpent);
                }
                self.schedule.step(w, held);
                Reply::Stepped
            }
        }
    }

    /// A worker gives its lease back.
    fn settle(&mut self, w: u32) -> Reply
        ensures allowed { Allows measures is_image self.old (rules.Settle w) (heard result) }
        ensures state { self.new ≡ after self.old (rules.Settle w) (heard result) }
    {
        match self.schedule.lease_of_worker(w) {
            Err(refusal) => Reply::Refused(refusal),
            Ok(held) => match self.schedule.settle(w, held) {
                None => Reply::Returned,
                Some(number) => Reply::Finished(number),
            },
        }
    }

    /// The clock goes on.
    fn tick(&mut self, to: u64) -> Reply
        ensures allowed { Allows measures is_image self.old (rules.Tick to) (heard result) }
        ensures state { self.new ≡ after self.old (rules.Tick to) (heard result) }
    {
        match self.schedule.tick_refusal(to) {
            Some(refusal) => Reply::Refused(refusal),
            None => {
                self.schedule.tick(to);
                Reply::Ticked
            }
        }
    }

    /// A stream gets no more frames.
    fn close(&mut self, s: u32) -> Reply
        ensures allowed { Allows measures is_image self.old (rules.Close s) (heard result) }
        ensures state { self.new ≡ after self.old (rules.Close s) (heard result) }
    {
        match self.schedule.close(s) {
            Ok(()) => Reply::Closing,
            Err(refusal) => Reply::Refused(refusal),
        }
    }

    /// The oldest image of a stream is given away.
    fn collect(&mut self, s: u32) -> Reply
        ensures allowed { Allows measures is_image self.old (rules.Collect s) (heard result) }
        ensures state { self.new ≡ after self.old (rules.Collect s) (heard result) }
    {
        match self.schedule.collect(s) {
            Ok(pair) => Reply::Image(pair.image),
            Err(refusal) => Reply::Refused(refusal),
        }
    }
}

/// Runs these events on a new machine, one after the other. Where the memory for the machine or the list of
/// replies is refused, no event was run.
pub fn run(alloc: Global, setup: Setup, events: Vec<Event>) -> Result<Vec<Reply>, CoreError>
    ensures { IfOk result (λ replies.
        IsRun measures is_image setup (map seen events.items) (map heard replies.items)) }
{
    setup.recall_limits();
    let mut machine = match Machine::new(alloc, setup) {
        Ok(machine) => machine,
        Err(_) => return Err(CoreError::NoMemory),
    };
    match machine.run_on(alloc, events) {
        Ok(replies) => Ok(replies),
        Err(_) => Err(CoreError::NoMemory),
    }
}
