//! The streams, what each worker holds, and the pool of the streams that are ready.
ghost use Rattle.std.specs.Prelude.{◌≡◌, ◌≢◌, ◌≤◌, ◌<◌, ◌^◌, ◌↔◌, Bool, Some, None, length, slice_get};
ghost use Rattle.std.specs.Prelude.{filter, not, replicate, vec_len, slice_set, IsTrue, IsFalse, IsSome};
ghost use Rattle.std.specs.Prelude.{IsSomeAnd, MatchOption, IfOk, IfErr, IfSome, IfNone, OnOk, option_copied};
ghost use Rattle.std.specs.Arc.{arc_value};
ghost use Rattle.cbs_account.specs.Admission.{Fits};
ghost use Rattle.edf_pool.specs.Earliest.{IsEarliest, NoneReady};
ghost use Rattle.serve_core.specs.declared.refusal.Refusal.TheVariants as refusals;
ghost use Rattle.serve_core.specs.AtOnce.{with_used};
ghost use Rattle.serve_core.specs.Desk.{SomeReady};
ghost use Rattle.serve_core.specs.Streams.{HasPlace, IsFresh, GainsImage};
ghost use Rattle.serve_core.specs.Schedule as rules;
ghost use Rattle.serve_core.specs.Released.{is_released};
ghost use Rattle.serve_core.specs.Retired.{new_number, retired_schedule, staying, stays};
ghost use Rattle.serve_core.specs.Rules.{arrival_refusal};
ghost use Rattle.serve_core.specs.Schedule.{HasLease, HasStream, with_held, with_stream_at};
ghost use Rattle.serve_core.specs.Setup.{steps};
ghost use Rattle.serve_core.specs.States.{ready_deadline};

mod handing;

use crate::collected::Collected;
use crate::held::Held;
use crate::newcomer::Newcomer;
use crate::refusal::Refusal;
use crate::setup::Setup;
use crate::spec::StreamSpec;
use crate::stream::Stream;
use cbs_account::limits::{LAST_MOMENT, MOST_STREAMS, MOST_WORKERS};
use cbs_account::{Admission, AdmissionError};
use edf_pool::{Compares, Pool};
use frame_view::{Frame, Geometry};
use lease::Job;
use std::alloc::{AllocError, Global};
use std::marker::Model;
use std::sync::Arc;

/// The streams with their jobs and images, what each worker holds, and the deadlines of the streams that are
/// ready. Machine and desk stand on it. Contracts see the `ScheduleValue` of `specs/Schedule.antt`.
#[derive(Drop)]
pub(crate) struct Schedule {
    pub(crate) clock: u64,
    quantum: u64,
    streams: Vec<Stream>,
    workers: Vec<Option<Held>>,
    pool: Pool,
}

impl Model for Schedule {
    ghost use Rattle.serve_core.specs.Schedule.{ScheduleValue};

    ghost Value = { ScheduleValue };

    ghost use Rattle.serve_core.specs.ScheduleInside.{IsSchedule, schedule};

    ghost view = { schedule };

    ghost invariant = { IsSchedule };
}

impl Schedule {
    /// The schedule of a setup before any event.
    pub(crate) fn new(alloc: Global, setup: Setup) -> Result<Schedule, AllocError>
        ensures { IfOk result (λ x. x ≡ rules.opened_schedule setup) }
    {
        let count = setup.streams.len();
        let mut streams = Vec::with_capacity(alloc, count)?;
        for spec in setup.streams {
            match Stream::new(alloc, spec) {
                Ok(stream) => streams.push(stream)?,
                Err(_) => return Err(AllocError),
            }
        }
        let workers = vec![in alloc; None; setup.workers as usize]?;
        let pool = Pool::new(alloc, count as u32)?;
        Ok(Schedule {
            clock: 0,
            quantum: setup.quantum,
            streams,
            workers,
            pool,
        })
    }

    /// The streams, in the order of their numbers.
    pub(crate) fn streams(&self) -> &[Stream]
        ensures { result.now ≡ self.now.streams }
    {
        &self.streams
    }

    /// Stream `s`, if it is there.
    pub(crate) fn stream(&self, s: u32) -> Option<&Stream>
        ensures { option_copied result ≡ slice_get self.now.streams s }
    {
        self.streams.get(s as usize)
    }

    /// Why the clock can't go on to a moment, if it can't.
    pub(crate) fn tick_refusal(&self, to: u64) -> Option<Refusal>
        ensures { result ≡ rules.tick_refusal self.now.clock to }
    {
        if to < self.clock {
            return Some(Refusal::Past);
        }
        if to > LAST_MOMENT {
            return Some(Refusal::ClockEnd);
        }
        None
    }

    /// Lets the clock go on to a moment.
    pub(crate) fn tick(&mut self, to: u64)
        requires { to ≤ LAST_MOMENT }
        ensures { self.new ≡ record self.old { clock = to } }
    {
        self.clock = to;
    }

    /// Why a frame of this geometry is refused by stream `s`, if it is, want of memory aside.
    pub(crate) fn arrival_refusal(&self, s: u32, geometry: Geometry) -> Option<Refusal>
        ensures refusal { MatchOption (slice_get self.now.streams s) (result ≡ Some refusals.NoStream)
            (λ stream. (is_sized : Bool) × (IsTrue is_sized ↔ (geometry ≡ stream.state.spec.geometry))
            × (result ≡ arrival_refusal is_sized stream.state)) }
        ensures place { IfNone result (HasStream self.now s (λ stream. (geometry ≡ stream.state.spec.geometry)
            × HasPlace stream.state)) }
    {
        match self.streams.get(s as usize) {
            None => Some(Refusal::NoStream),
            Some(stream) => stream.arrival_refusal(stream.is_sized(geometry)),
        }
    }

    /// A job for a frame of stream `s`. The frame comes back where the memory for it is refused.
    pub(crate) fn job(&self, alloc: Global, s: u32, frame: Arc<Frame>) -> Result<Job, Arc<Frame>>
        requires { HasStream self.now s (λ stream. (arc_value frame).geometry ≡ stream.state.spec.geometry) }
        ensures ok { IfOk result
            (λ job. HasStream self.now s (λ stream. IsFresh stream.state.spec.chain job)) }
        ensures source { IfOk result (λ job. job.source ≡ arc_value frame) }
        ensures returns_frame { IfErr result (λ back. back ≡ frame) }
    {
        self.streams[s as usize].job(alloc, frame)
    }

    /// Takes a job behind all others of stream `s`, and answers its number.
    pub(crate) fn accept(&mut self, s: u32, job: Job) -> u64
        requires { HasStream self.old s
            (λ stream. HasPlace stream.state × IsFresh stream.state.spec.chain job) }
        ensures { HasStream self.old s (λ stream. (result ≡ stream.state.accepted)
            × (self.new ≡ with_stream_at s (rules.stream_offered self.old.clock job stream) self.old)) }
    {
        let stream = &mut self.streams[s as usize];
        let number = stream.accept(self.clock, job);
        show(&mut self.pool, s, stream);
        number
    }

    /// Why a stream isn't admitted, if it isn't, want of memory aside.
    pub(crate) fn admit_refusal(&self, spec: &StreamSpec) -> Option<Refusal>
        requires some_workers { 1 ≤ length self.now.workers }
        requires most { length self.now.workers ≤ MOST_WORKERS }
        requires fits { Fits (rules.held_by self.now) }
        ensures { rules.IsAdmitAnswer self.now spec.now result }
    {
        if self.streams.len() >= MOST_STREAMS {
            return Some(Refusal::TooManyStreams);
        }
        if !spec.is_within_limits() {
            return Some(Refusal::BadLimits);
        }
        let mut admission = admission_of_held_shares(
            self.workers.len() as u64,
            self.clock,
            &self.streams,
        );
        match admission.admit(spec.maximum, spec.period) {
            Ok(()) => None,
            Err(AdmissionError::BadBandwidth) => Some(Refusal::BadBandwidth),
            Err(AdmissionError::Overload) => Some(Refusal::Overload),
        }
    }

    /// Takes a stream behind all others, and answers its number. The spec comes back where the memory for it
    /// is refused.
    pub(crate) fn admit(&mut self, alloc: Global, spec: StreamSpec) -> Result<u32, StreamSpec>
        requires room_for_stream { length self.old.streams < MOST_STREAMS }
        ensures ok { IfOk result (λ s. (s ≡ length self.old.streams)
            × (self.new ≡ rules.with_stream spec self.old)) }
        ensures err { IfErr result (λ back. (back ≡ spec) × (self.new ≡ self.old)) }
    {
        let newcomer = match Newcomer::new(alloc, spec) {
            Ok(newcomer) => newcomer,
            Err((_, spec)) => return Err(spec),
        };
        match self.join(newcomer) {
            Ok(s) => Ok(s),
            Err(newcomer) => Err(newcomer.into_spec()),
        }
    }

    /// Takes a newcomer behind all others, and answers its number. It comes back where the memory for its
    /// place is refused.
    pub(crate) fn join(&mut self, newcomer: Newcomer) -> Result<u32, Newcomer>
        requires room_for_stream { length self.old.streams < MOST_STREAMS }
        ensures ok { IfOk result (λ s. (s ≡ length self.old.streams)
            × (self.new ≡ rules.with_stream newcomer self.old)) }
        ensures err { IfErr result (λ back. (back ≡ newcomer) × (self.new ≡ self.old)) }
    {
        let number = self.streams.len() as u32;
        newcomer.recall_limits();
        match self.streams.push(newcomer.into_stream()) {
            Ok(()) => {
                self.pool.grow();
                Ok(number)
            }
            Err(refused) => Err(Newcomer::of(refused.value)),
        }
    }

    /// Whether stream `s` is there and isn't released.
    pub(crate) fn stays(&self, s: u32) -> bool
        ensures { result ≡ stays self.now s }
    {
        match self.streams.get(s as usize) {
            None => false,
            Some(stream) => !stream.is_released(self.clock),
        }
    }

    /// How many of the first `s` streams aren't released.
    pub(crate) fn new_number(&self, s: u32) -> u32
        requires { s ≤ length self.now.streams }
        ensures { result ≡ new_number self.now s }
    {
        let mut count = 0;
        for t in 0..s {
            if !self.streams[t as usize].is_released(self.clock) {
                count += 1;
            }
        }
        count
    }

    /// Takes the released streams out. The others are numbered anew, in their order.
    pub(crate) fn retire(&mut self)
        requires few_streams { length self.old.streams ≤ MOST_STREAMS }
        requires some_stay { 1 ≤ length (staying self.old) }
        ensures { self.new ≡ retired_schedule self.old }
    {
        drop_released(&mut self.streams, self.clock);
        self.pool.reset(self.streams.len() as u32);
        show_all(&mut self.pool, &self.streams);
    }

    /// Why worker `w` gets no lease, if it gets none.
    pub(crate) fn lease_refusal(&self, w: u32) -> Option<Refusal>
        ensures refused { IfSome result (λ e. rules.RefusesLease self.now w e) }
        ensures none { IfNone result (slice_get self.now.workers w ≡ Some None) }
        ensures ready { IfNone result (SomeReady self.now) }
    {
        match self.workers.get(w as usize) {
            None => Some(Refusal::NoWorker),
            Some(Some(_)) => Some(Refusal::Busy),
            Some(None) => match self.pool.earliest() {
                None => Some(Refusal::NoneReady),
                Some(_) => None,
            },
        }
    }

    /// Whether a stream is ready.
    pub(crate) fn any_ready(&self) -> bool
        ensures ready { IsTrue result → SomeReady self.now }
        ensures none { IsFalse result → NoneReady (rules.ready_deadlines self.now.streams) }
    {
        self.pool.any_ready()
    }

    /// Lends worker `w` the front job of the ready stream that has the earliest deadline.
    pub(crate) fn lease(&mut self, w: u32) -> Result<Held, Refusal>
        ensures ok { IfOk result (λ held. (slice_get self.old.workers w ≡ Some None)
            × rules.IsLending w held self.old self.new) }
        ensures err { IfErr result (λ e. rules.RefusesLease self.old w e × (self.new ≡ self.old)) }
    {
        match self.workers.get(w as usize) {
            None => return Err(Refusal::NoWorker),
            Some(Some(_)) => return Err(Refusal::Busy),
            Some(None) => {}
        }
        match self.pool.earliest() {
            None => Err(Refusal::NoneReady),
            Some(s) => Ok(self.lend(w, s)),
        }
    }

    /// Lends worker `w` the front job of stream `s`.
    fn lend(&mut self, w: u32, s: u32) -> Held
        requires worker { w < length self.old.workers }
        requires earliest { IsEarliest (rules.ready_deadlines self.old.streams) s }
        ensures { rules.IsLending w result self.old self.new }
    {
        let stream = &mut self.streams[s as usize];
        let (number, grant) = stream.lend(w, self.quantum);
        show(&mut self.pool, s, stream);
        let held = Held {
            stream: s,
            number,
            grant,
            used: 0,
        };
        self.workers[w as usize] = Some(held);
        held
    }

    /// What worker `w` holds, or why it holds nothing.
    pub(crate) fn lease_of_worker(&self, w: u32) -> Result<Held, Refusal>
        ensures ok { IfOk result (λ held. HasLease self.now w held) }
        ensures err { IfErr result (λ e. MatchOption (slice_get self.now.workers w) (e ≡ refusals.NoWorker)
            (λ held. (held ≡ None) × (e ≡ refusals.NoLease))) }
    {
        match self.workers.get(w as usize) {
            None => Err(Refusal::NoWorker),
            Some(None) => Err(Refusal::NoLease),
            Some(Some(held)) => Ok(*held),
        }
    }

    /// Does the next band of the lease of worker `w`.
    pub(crate) fn step(&mut self, w: u32, held: Held)
        requires lease { HasLease self.old w held }
        requires left { held.used < held.grant }
        requires stream { HasStream self.old held.stream rules.CanStep }
        ensures { HasStream self.old held.stream (λ stream. HasStream self.new held.stream (λ after.
            IsSome after.leased
            × (self.new ≡ with_held w (Some (with_used 1 held)) (with_stream_at held.stream
            (rules.stream_worked after.leased stream) self.old)))) }
    {
        let stream = &mut self.streams[held.stream as usize];
        stream.step();
        show(&mut self.pool, held.stream, stream);
        self.workers[w as usize] = Some(Held {
            used: held.used + 1,
            ..held
        });
    }

    /// Takes the job of worker `w` back: to the front of its queue, or to its outbox if all steps are done,
    /// and answers its number then.
    pub(crate) fn settle(&mut self, w: u32, held: Held) -> Option<u64>
        requires lease { HasLease self.old w held }
        requires stream { HasStream self.old held.stream (λ stream. IsSome stream.leased) }
        ensures requeued { IfNone result (HasStream self.old held.stream (λ stream.
            (stream.state.done ≢ steps stream.state.spec)
            × (self.new ≡ with_held w None
            (with_stream_at held.stream (rules.stream_returned stream) self.old)))) }
        ensures finished { IfSome result (λ number. HasStream self.old held.stream (λ stream.
            HasStream self.new held.stream (λ after.
            (stream.state.done ≡ steps stream.state.spec) × (number ≡ stream.state.finished)
            × IsSomeAnd stream.leased (λ job. GainsImage job stream.images after.images)
            × (self.new ≡ with_held w None (with_stream_at held.stream
            (rules.stream_finished after.images stream) self.old))))) }
    {
        let stream = &mut self.streams[held.stream as usize];
        let number = stream.settle();
        show(&mut self.pool, held.stream, stream);
        self.workers[w as usize] = None;
        number
    }

    /// Closes stream `s`.
    pub(crate) fn close(&mut self, s: u32) -> Result<(), Refusal>
        ensures ok { OnOk result (HasStream self.old s (λ stream. IsFalse stream.state.is_closed
            × (self.new ≡ with_stream_at s (rules.stream_closed stream) self.old))) }
        ensures err { IfErr result (λ e. (self.new ≡ self.old) × MatchOption (slice_get self.old.streams s)
            (e ≡ refusals.NoStream)
            (λ stream. IsTrue stream.state.is_closed × (e ≡ refusals.AlreadyClosed))) }
    {
        if s as usize >= self.streams.len() {
            return Err(Refusal::NoStream);
        }
        let stream = &mut self.streams[s as usize];
        stream.close()?;
        show(&mut self.pool, s, stream);
        Ok(())
    }

    /// Why stream `s` gives no image, if it gives none.
    pub(crate) fn collect_refusal(&self, s: u32) -> Option<Refusal>
        ensures refused { IfSome result (λ e. rules.RefusesCollect self.now s e) }
        ensures none { IfNone result (HasStream self.now s (λ stream.
            stream.state.collected < stream.state.finished)) }
    {
        match self.streams.get(s as usize) {
            None => Some(Refusal::NoStream),
            Some(stream) => stream.collect_refusal(),
        }
    }

    /// Gives the oldest image of stream `s` away, with its source.
    pub(crate) fn collect(&mut self, s: u32) -> Result<Collected, Refusal>
        ensures ok { IfOk result (λ pair. HasStream self.old s (λ stream. rules.IsFirst pair stream
            × (self.new ≡ with_stream_at s (rules.stream_collected stream) self.old))) }
        ensures err { IfErr result (λ e. rules.RefusesCollect self.old s e × (self.new ≡ self.old)) }
    {
        if let Some(refusal) = self.collect_refusal(s) {
            return Err(refusal);
        }
        let stream = &mut self.streams[s as usize];
        match stream.collect() {
            None => unreachable!(),
            Some(pair) => {
                show(&mut self.pool, s, stream);
                Ok(pair)
            }
        }
    }
}

/// The workers with the shares that the streams hold at a moment.
fn admission_of_held_shares(workers: u64, moment: u64, streams: &[Stream]) -> Admission
    requires some_workers { 1 ≤ workers }
    requires most { workers ≤ MOST_WORKERS }
    requires fits { Fits (rules.held_of_streams workers moment streams.now) }
    ensures { result ≡ rules.held_of_streams workers moment streams.now }
{
    let mut admission = Admission::new(workers);
    for stream in streams {
        stream.hold(moment, &mut admission);
    }
    admission
}

/// Tells the pool whether stream `s` is ready.
fn show(pool: &mut Pool, s: u32, stream: &Stream)
    requires { s < length pool.old }
    ensures { pool.new ≡ slice_set pool.old s (ready_deadline stream.now.state) }
{
    pool.set_ready(s, stream.ready_deadline(), &mut Compares::new());
}

/// Drops the streams that are released at a moment.
fn drop_released(streams: &mut Vec<Stream>, moment: u64)
    ensures streams { streams.new.items
        ≡ filter (λ stream. not (is_released moment stream.state)) streams.old.items }
    ensures fewer { vec_len streams.new ≤ vec_len streams.old }
{
    streams.retain(|stream| !stream.is_released(moment));
}

/// Tells a pool of these streams, none of which is ready in it, which of them are.
fn show_all(pool: &mut Pool, streams: &[Stream])
    requires pool { pool.old ≡ replicate (length streams.now) None }
    requires few_streams { length streams.now ≤ MOST_STREAMS }
    ensures { pool.new ≡ rules.ready_deadlines streams.now }
{
    for s in 0..streams.len() {
        show(pool, s as u32, &streams[s]);
    }
}
