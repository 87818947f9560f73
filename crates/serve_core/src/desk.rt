//! The machine for workers that do their bands by themselves.
ghost use Rattle.std.specs.Prelude.{◌≡◌, ◌≤◌, ◌<◌, ◌^◌, max, Some, None, length, slice_get, option_copied};
ghost use Rattle.std.specs.Prelude.{◌↔◌, All, IsFalse, IsTrue, IsSome, IfOk, IfErr, IfSome, IfNone, OnOk};
ghost use Rattle.std.specs.Prelude.{MatchOption};
ghost use Rattle.std.specs.Arc.{arc_value};
ghost use Rattle.std.specs.Option.{option_map};
ghost use Rattle.serve_core.specs.declared.refusal.Refusal.TheVariants as refusals;
ghost use Rattle.edf_pool.specs.Earliest.{NoneReady};
ghost use Rattle.serve_core.specs.Bare.{Blank, measures_any, is_any_image};
ghost use Rattle.serve_core.specs.Desk as rules;
ghost use Rattle.serve_core.specs.Desk.{IsOfferAnswer, LeadsDesk, desk_state, one};
ghost use Rattle.serve_core.specs.Events as events;
ghost use Rattle.serve_core.specs.Leads.{opening_state};
ghost use Rattle.serve_core.specs.Reached.{IsReached};
ghost use Rattle.serve_core.specs.Retired.{AreFree, new_number, retired_schedule, staying, stays};
ghost use Rattle.serve_core.specs.Streams.{HasPlace, IsFresh, IsOver};
ghost use Rattle.serve_core.specs.Schedule as schedules;
ghost use Rattle.serve_core.specs.Schedule.{HasLease, HasStream, account_of, counts_of, with_stream_at};
ghost use Rattle.serve_core.specs.Ticked.{at_moment};

use crate::collected::Collected;
use crate::counts::Counts;
use crate::held::Held;
use crate::newcomer::Newcomer;
use crate::refusal::Refusal;
use crate::schedule::Schedule;
use crate::setup::Setup;
use crate::spec::StreamSpec;
use cbs_account::limits::{LAST_MOMENT, MOST_STREAMS};
use frame_view::Frame;
use lease::{Job, JobSpec, Lease};
use std::alloc::{AllocError, Global};
use std::marker::Model;
use std::sync::Arc;

/// The machine without the jobs that are out: a lease takes its job away, and its settlement brings it back
/// with all bands that were done of it. Only `new`, `offer`, `admit` and `admit_newcomer` take memory.
///
/// Contracts see the `ScheduleValue` of `specs/Schedule.antt`, and tell of each call which bare events it is.
#[derive(Drop)]
pub struct Desk {
    schedule: Schedule,
}

impl Model for Desk {
    ghost use Rattle.serve_core.specs.Schedule.{ScheduleValue};

    ghost Value = { ScheduleValue };

    ghost use Rattle.serve_core.specs.DeskInside.{IsDesk};

    ghost view = { λ a. a.schedule };

    ghost invariant = { λ a. IsDesk a.schedule };
}

impl Desk {
    /// A desk before any event.
    pub fn new(alloc: Global, setup: Setup) -> Result<Desk, AllocError>
        ensures desk { IfOk result (λ x. x ≡ schedules.opened_schedule setup) }
        ensures state { IfOk result (λ x. desk_state x ≡ opening_state Blank Blank setup) }
    {
        setup.recall_limits();
        let schedule = Schedule::new(alloc, setup)?;
        Ok(Desk { schedule })
    }

    /// The present moment.
    pub fn clock(&self) -> u64
        ensures { result ≡ self.now.clock }
    {
        self.schedule.clock
    }

    /// How many streams there are.
    pub fn streams(&self) -> usize
        ensures { result ≡ length self.now.streams }
    {
        self.schedule.streams().len()
    }

    /// The budget and the deadline of stream `s`.
    pub fn account(&self, s: u32) -> Option<(u64, u64)>
        ensures { result ≡ option_map (λ stream. account_of stream.state) (slice_get self.now.streams s) }
    {
        self.schedule.stream(s).map(|stream| stream.account())
    }

    /// How many frames of stream `s` were accepted, finished and collected, and what it was charged.
    pub fn counts(&self, s: u32) -> Option<Counts>
        ensures { result ≡ option_map (λ stream. counts_of stream.state) (slice_get self.now.streams s) }
    {
        self.schedule.stream(s).map(|stream| stream.counts())
    }

    /// What is done to the frames of stream `s`.
    pub fn spec(&self, s: u32) -> Option<&JobSpec>
        ensures { option_copied result
            ≡ option_map (λ stream. stream.state.spec.chain) (slice_get self.now.streams s) }
    {
        self.schedule.stream(s).map(|stream| stream.spec())
    }

    /// What stream `s` is served with.
    pub fn stream_spec(&self, s: u32) -> Option<&StreamSpec>
        ensures { option_copied result
            ≡ option_map (λ stream. stream.state.spec) (slice_get self.now.streams s) }
    {
        self.schedule.stream(s).map(|stream| stream.stream_spec())
    }

    /// What [`Desk::offer`] would refuse this frame for, want of memory aside.
    pub fn offer_refusal(&self, s: u32, at: u64, frame: &Frame) -> Option<Refusal>
        ensures answer { IsOfferAnswer self.now s at frame.now.geometry result }
        ensures moment { IfNone result (at ≤ LAST_MOMENT) }
        ensures place { IfNone result (HasStream self.now s (λ stream.
            (frame.now.geometry ≡ stream.state.spec.geometry) × HasPlace stream.state)) }
    {
        if at > LAST_MOMENT {
            return Some(Refusal::ClockEnd);
        }
        self.schedule.arrival_refusal(s, frame.geometry())
    }

    /// A frame arrives at stream `s` at a moment, or now if that is later. A refused frame comes back, and
    /// the clock stays. Where no other refusal holds, no clause says when `NoMemory` is told: that it is so
    /// only where memory was refused is tested.
    pub fn offer(
        &mut self,
        alloc: Global,
        s: u32,
        at: u64,
        frame: Arc<Frame>,
    ) -> Result<u64, (Refusal, Arc<Frame>)>
        ensures events { IfOk result
            (λ n. LeadsDesk self.old (rules.offered self.old.clock s at n) self.new) }
        ensures answer { OnOk result (IsOfferAnswer self.old s at (arc_value frame).geometry None) }
        ensures job { IfOk result (λ n. rules.TakesFrame s at (arc_value frame) n self.old self.new) }
        ensures refused { IfErr result (λ e.
            rules.RefusesOffer self.old s at (arc_value frame).geometry e.0) }
        ensures returns_frame { IfErr result (λ e. (e.1 ≡ frame) × (self.new ≡ self.old)) }
    {
        if let Some(refusal) = self.offer_refusal(s, at, &frame) {
            return Err((refusal, frame));
        }
        match self.schedule.job(alloc, s, frame) {
            Ok(job) => Ok(self.accept(s, at, job)),
            Err(frame) => Err((Refusal::NoMemory, frame)),
        }
    }

    /// What [`Desk::offer_job`] would refuse.
    pub fn offer_job_refusal(&self, s: u32, at: u64) -> Option<Refusal>
        ensures { result ≡ rules.job_refusal self.now s at }
    {
        if at > LAST_MOMENT {
            return Some(Refusal::ClockEnd);
        }
        self.schedule.job_refusal(s)
    }

    /// What [`Desk::offer`] does, with the frame's job, which was made outside. A refused job comes back, and
    /// the clock stays.
    pub fn offer_job(&mut self, s: u32, at: u64, job: Job) -> Result<u64, (Refusal, Job)>
        requires { rules.IsFreshFor self.old s job }
        ensures events { IfOk result
            (λ n. LeadsDesk self.old (rules.offered self.old.clock s at n) self.new) }
        ensures answer { OnOk result (rules.job_refusal self.old s at ≡ None) }
        ensures job { IfOk result (λ n. rules.TakesJob s at job n self.old self.new) }
        ensures refused { IfErr result (λ e. rules.job_refusal self.old s at ≡ Some e.0) }
        ensures returns_job { IfErr result (λ e. (e.1 ≡ job) × (self.new ≡ self.old)) }
    {
        if at > LAST_MOMENT {
            return Err((Refusal::ClockEnd, job));
        }
        match self.schedule.job_refusal(s) {
            Some(refusal) => Err((refusal, job)),
            None => Ok(self.accept(s, at, job)),
        }
    }

    /// Stream `s` takes the job at a moment, or now if that is later.
    fn accept(&mut self, s: u32, at: u64, job: Job) -> u64
        requires moment { at ≤ LAST_MOMENT }
        requires stream { HasStream self.old s
            (λ stream. HasPlace stream.state × IsFresh stream.state.spec.chain job) }
        ensures events { LeadsDesk self.old (rules.offered self.old.clock s at result) self.new }
        ensures job { rules.TakesJob s at job result self.old self.new }
    {
        let moment = self.schedule.clock.max(at);
        self.schedule.tick(moment);
        self.schedule.accept(s, job)
    }

    /// Lets the clock go on to a moment, unless it is past that.
    pub fn tick(&mut self, at: u64)
        requires moment { at ≤ LAST_MOMENT }
        ensures events { LeadsDesk self.old (rules.ticked self.old.clock at) self.new }
        ensures desk { self.new ≡ at_moment at self.old }
        ensures reached { IsReached measures_any is_any_image (desk_state self.old)
            → IsReached measures_any is_any_image (desk_state self.new) }
    {
        let now = self.schedule.clock.max(at);
        self.schedule.tick(now);
    }

    /// What [`Desk::admit`] would refuse this stream for, want of memory aside.
    pub fn admit_refusal(&self, spec: &StreamSpec) -> Option<Refusal>
        ensures { schedules.IsAdmitAnswer self.now spec.now result }
    {
        self.schedule.admit_refusal(spec)
    }

    /// One stream more, with the number behind all others. A refused spec comes back.
    pub fn admit(&mut self, alloc: Global, spec: StreamSpec) -> Result<u32, (Refusal, StreamSpec)>
        ensures events { IfOk result (λ s. LeadsDesk self.old (one (events.Admit spec) (events.Admitted s))
            self.new) }
        ensures answer { OnOk result (schedules.IsAdmitAnswer self.old spec None) }
        ensures stream { IfOk result (λ s. (s ≡ length self.old.streams)
            × (self.new ≡ schedules.with_stream spec self.old)) }
        ensures refused { IfErr result (λ e. rules.RefusesAdmission self.old spec e.0) }
        ensures returns_spec { IfErr result (λ e. (e.1 ≡ spec) × (self.new ≡ self.old)) }
    {
        if let Some(refusal) = self.schedule.admit_refusal(&spec) {
            return Err((refusal, spec));
        }
        match self.schedule.admit(alloc, spec) {
            Ok(s) => Ok(s),
            Err(spec) => Err((Refusal::NoMemory, spec)),
        }
    }

    /// What [`Desk::admit`] does, with the stream's memory, which was taken outside. A refused newcomer comes
    /// back.
    pub fn admit_newcomer(&mut self, newcomer: Newcomer) -> Result<u32, (Refusal, Newcomer)>
        ensures events { IfOk result
            (λ s. LeadsDesk self.old (one (events.Admit newcomer) (events.Admitted s)) self.new) }
        ensures answer { OnOk result (schedules.IsAdmitAnswer self.old newcomer None) }
        ensures stream { IfOk result (λ s. (s ≡ length self.old.streams)
            × (self.new ≡ schedules.with_stream newcomer self.old)) }
        ensures refused { IfErr result (λ e. rules.RefusesAdmission self.old newcomer e.0) }
        ensures returns_newcomer { IfErr result (λ e. (e.1 ≡ newcomer) × (self.new ≡ self.old)) }
    {
        if let Some(refusal) = self.schedule.admit_refusal(newcomer.spec()) {
            return Err((refusal, newcomer));
        }
        match self.schedule.join(newcomer) {
            Ok(s) => Ok(s),
            Err(newcomer) => Err((Refusal::NoMemory, newcomer)),
        }
    }

    /// Whether stream `s` is there and isn't released: then [`Desk::retire`] would leave it.
    pub fn stays(&self, s: u32) -> bool
        ensures { result ≡ stays self.now s }
    {
        self.schedule.stays(s)
    }

    /// How many of the first `s` streams aren't released. If stream `s` isn't, that would be its number after
    /// [`Desk::retire`].
    pub fn new_number(&self, s: u32) -> u32
        requires { s ≤ length self.now.streams }
        ensures { result ≡ new_number self.now s }
    {
        self.schedule.new_number(s)
    }

    /// Takes the released streams out, where no worker holds a lease and a stream isn't released. Those that
    /// stay are numbered anew, in their order; they keep all that they have.
    pub fn retire(&mut self)
        requires free { AreFree self.old.workers }
        requires few_streams { length self.old.streams ≤ MOST_STREAMS }
        requires some_stay { 1 ≤ length (staying self.old) }
        ensures desk { self.new ≡ retired_schedule self.old }
        ensures reached { IsReached measures_any is_any_image (desk_state self.old)
            → IsReached measures_any is_any_image (desk_state self.new) }
    {
        self.schedule.retire();
    }

    /// What [`Desk::lease`] would refuse worker `w` for.
    pub fn lease_refusal(&self, w: u32) -> Option<Refusal>
        ensures refused { IfSome result (schedules.RefusesLease self.now w) }
        ensures free { IfNone result (slice_get self.now.workers w ≡ Some None) }
        ensures ready { IfNone result (rules.SomeReady self.now) }
    {
        self.schedule.lease_refusal(w)
    }

    /// Worker `w` gets the front job of the ready stream that has the earliest deadline, with the lease.
    pub fn lease(&mut self, w: u32) -> Result<Lease, Refusal>
        ensures events { IfOk result (λ lease. LeadsDesk self.old (one (events.Lease w)
            (events.Leased lease.stream lease.number lease.granted)) self.new) }
        ensures job { IfOk result (λ lease. rules.GivesJob w lease self.old self.new) }
        ensures free { OnOk result (slice_get self.old.workers w ≡ Some None) }
        ensures ready { OnOk result (rules.SomeReady self.old) }
        ensures refused { IfErr result (λ e. schedules.RefusesLease self.old w e × (self.new ≡ self.old)) }
    {
        let held = self.schedule.lease(w)?;
        let job = self.schedule.take_job(held.stream);
        Ok(Lease::new(job, held.stream, held.number, held.grant))
    }

    /// Whether a stream is ready: then a worker that holds nothing gets a lease.
    pub fn any_ready(&self) -> bool
        ensures ready { IsTrue result → rules.SomeReady self.now }
        ensures none { IsFalse result → NoneReady (schedules.ready_deadlines self.now.streams) }
    {
        self.schedule.any_ready()
    }

    /// What worker `w` holds, or why it has nothing to settle. No band is told of before the settlement.
    pub fn lease_of_worker(&self, w: u32) -> Result<Held, Refusal>
        ensures ok { IfOk result (λ held. HasLease self.now w held) }
        ensures unused { IfOk result (λ held. held.used ≡ 0) }
        ensures err { IfErr result (λ e. rules.RefusesSettle self.now w e) }
    {
        self.schedule.lease_of_worker(w)
    }

    /// How many bands of the first unfinished frame of stream `s` were settled.
    pub fn done(&self, s: u32) -> Option<u32>
        ensures { result ≡ option_map (λ stream. stream.state.done) (slice_get self.now.streams s) }
    {
        self.schedule.stream(s).map(|stream| stream.done())
    }

    /// Whether stream `s` is there, and a worker has its first unfinished frame.
    pub fn is_out(&self, s: u32) -> bool
        ensures { IsTrue result ↔ HasStream self.now s (λ stream. IsSome stream.state.holder) }
    {
        self.schedule
            .stream(s)
            .is_some_and(|stream| stream.is_out())
    }

    /// Whether every stream is closed, with all its frames finished: then there is nothing more to lease.
    pub fn is_over(&self) -> bool
        ensures { IsTrue result ↔ All IsOver self.now.streams }
    {
        for stream in self.schedule.streams() {
            if !stream.is_over() {
                return false;
            }
        }
        true
    }

    /// Worker `w` gives its lease back, with its job and all bands that were done. Answers the number of the
    /// frame if that is finished. A refused lease comes back.
    pub fn settle(&mut self, w: u32, lease: Lease) -> Result<Option<u64>, (Refusal, Lease)>
        requires { rules.IsHeldBy self.old w lease }
        ensures events { IfOk result (λ n. LeadsDesk self.old (rules.settlement w lease.used n) self.new) }
        ensures job { IfOk result (λ n. MatchOption n (rules.TakesBack w lease self.old self.new)
            (λ number. rules.TakesImage w lease number self.old self.new)) }
        ensures refused { IfErr result (λ e. rules.RefusesSettle self.old w e.0) }
        ensures returns_lease { IfErr result (λ e. (e.1 ≡ lease) × (self.new ≡ self.old)) }
    {
        match self.schedule.lease_of_worker(w) {
            Err(refusal) => Err((refusal, lease)),
            Ok(held) => Ok(self.take_back(w, held, lease)),
        }
    }

    /// What [`Desk::settle`] does where worker `w` holds this.
    pub fn take_back(&mut self, w: u32, held: Held, lease: Lease) -> Option<u64>
        requires holds { HasLease self.old w held }
        requires recorded { rules.IsHeldBy self.old w lease }
        ensures events { LeadsDesk self.old (rules.settlement w lease.used result) self.new }
        ensures job { MatchOption result (rules.TakesBack w lease self.old self.new)
            (λ number. rules.TakesImage w lease number self.old self.new) }
    {
        let bands = lease.used();
        let units = lease.spent() as u64;
        let job = lease.into_job();
        self.schedule.return_job(held.stream, job, bands, units);
        self.schedule.settle(w, held)
    }

    /// Stream `s` accepts no more frames.
    pub fn close(&mut self, s: u32) -> Result<(), Refusal>
        ensures events { OnOk result (LeadsDesk self.old (one (events.Close s) events.Closing) self.new) }
        ensures stream { OnOk result (HasStream self.old s (λ stream.
            self.new ≡ with_stream_at s (schedules.stream_closed stream) self.old)) }
        ensures refused { IfErr result (λ e. rules.RefusesClose self.old s e × (self.new ≡ self.old)) }
    {
        self.schedule.close(s)
    }

    /// What [`Desk::collect`] would refuse for stream `s`.
    pub fn collect_refusal(&self, s: u32) -> Option<Refusal>
        ensures refused { IfSome result (schedules.RefusesCollect self.now s) }
        ensures none { IfNone result (HasStream self.now s (λ stream.
            stream.state.collected < stream.state.finished)) }
    {
        self.schedule.collect_refusal(s)
    }

    /// Gives the oldest image of stream `s` away, with its source.
    pub fn collect(&mut self, s: u32) -> Result<Collected, Refusal>
        ensures events { OnOk result
            (LeadsDesk self.old (one (events.Collect s) (events.Image tt)) self.new) }
        ensures pair { IfOk result (λ pair. HasStream self.old s (λ stream. schedules.IsFirst pair stream
            × (self.new ≡ with_stream_at s (schedules.stream_collected stream) self.old))) }
        ensures refused { IfErr result (λ e. schedules.RefusesCollect self.old s e × (self.new ≡ self.old)) }
    {
        self.schedule.collect(s)
    }
}
