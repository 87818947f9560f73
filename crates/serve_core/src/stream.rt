//! One stream of the schedule.
ghost use Rattle.std.specs.Prelude.{◌≡◌, ◌≤◌, ◌<◌, ◌+◌, ◌-◌, ◌^◌, [], ◌∷◌, ◌++◌, Some, None, drop, slice_get};
ghost use Rattle.std.specs.Prelude.{◌↔◌, ◌≢◌, IsTrue, IsFalse, IsSome, IsSomeAnd, IfOk, IfErr, IfSome};
ghost use Rattle.std.specs.Prelude.{IfNone, OnOk, OnSome};
ghost use Rattle.cbs_account.specs.Rules.{CanCharge};
ghost use Rattle.filters.specs.Steps.{steps_of};
ghost use Rattle.lease.specs.Job.{StepsOn};
ghost use Rattle.serve_core.specs.AtOnce.{cost_of_next, worked_at_once};
ghost use Rattle.serve_core.specs.Counts.{Came, Worked, Ended, Back, Lent, Shut, Taken};
ghost use Rattle.serve_core.specs.Streams.{GainsImage, HasPlace, IsFresh, IsOver, IsPair, IsStarted};
ghost use Rattle.serve_core.specs.Streams.{IsWithOne, listed, opened, source_in, source_of, with_leased};
ghost use Rattle.serve_core.specs.Rules as rules;
ghost use Rattle.serve_core.specs.Schedule.{counts_of, stream_finished, stream_returned};
ghost use Rattle.std.specs.Arc.{arc_value};
ghost use Rattle.serve_core.specs.Setup.{HasBandwidth, IsWithinLimits, steps};
ghost use Rattle.serve_core.specs.States as states;
ghost use Rattle.serve_core.specs.States.{did, next_cost};

mod shares;

use crate::collected::Collected;
use crate::counts::Counts;
use crate::grant::grant_of;
use crate::refusal::Refusal;
use crate::spec::StreamSpec;
use cbs_account::Account;
use cbs_account::limits::LAST_MOMENT;
use circular_buffer::HeapCircularBuffer;
use frame_view::{Frame, Geometry};
use lease::{Job, JobRefused, JobSpec, Lease, Scratch};
use std::alloc::Global;
use std::marker::Model;
use std::sync::Arc;
use stream_queue::FrameQueue;

/// A stream's account, its jobs and its images. The scratch is with its front job once that has started. The
/// job that is out stays here unless it is handed over. Contracts see the `KeptStream` of
/// `specs/Streams.antt`.
#[derive(Drop)]
pub(crate) struct Stream {
    spec: StreamSpec,
    account: Account,
    queue: FrameQueue<Job>,
    outbox: HeapCircularBuffer<Collected>,
    scratch: Option<Scratch>,
    leased: Option<Job>,
    holder: Option<u32>,
    collected: u64,
    charged: u64,
    done: u32,
}

impl Model for Stream {
    ghost use Rattle.serve_core.specs.Streams.{KeptStream};

    ghost Value = { KeptStream };

    ghost use Rattle.serve_core.specs.StreamInside.{IsStream, stream};

    ghost view = { stream };

    ghost invariant = { IsStream };
}

impl Stream {
    /// A stream that has had no frame. The spec comes back where its memory is refused.
    pub(crate) fn new(alloc: Global, spec: StreamSpec) -> Result<Stream, StreamSpec>
        requires limits { IsWithinLimits spec }
        requires bandwidth { HasBandwidth spec }
        ensures stream { IfOk result (λ x. x ≡ opened spec) }
        ensures returns_spec { IfErr result (λ back. back ≡ spec) }
    {
        let account = match Account::new(spec.maximum, spec.period) {
            Ok(account) => account,
            Err(_) => unreachable!(),
        };
        let Ok(queue) = FrameQueue::new(alloc, spec.queue as usize) else {
            return Err(spec);
        };
        let Ok(outbox) = HeapCircularBuffer::with_capacity(alloc, spec.outbox as usize) else {
            return Err(spec);
        };
        let Ok(scratch) = Scratch::new(alloc, &spec.job) else {
            return Err(spec);
        };
        Ok(Stream {
            spec,
            account,
            queue,
            outbox,
            scratch: Some(scratch),
            leased: None,
            holder: None,
            collected: 0,
            charged: 0,
            done: 0,
        })
    }

    /// What the stream was made for.
    pub(crate) fn stream_spec(&self) -> &StreamSpec
        ensures { result.now ≡ self.now.state.spec }
    {
        &self.spec
    }

    /// What the stream was made for. All else is given up.
    pub(crate) fn into_spec(self) -> StreamSpec
        ensures { result ≡ self.state.spec }
    {
        self.spec
    }

    /// What is done to the frames.
    pub(crate) fn spec(&self) -> &JobSpec
        ensures { result.now ≡ self.now.state.spec.chain }
    {
        &self.spec.job
    }

    /// The deadline, if the front frame can be leased.
    pub(crate) fn ready_deadline(&self) -> Option<u64>
        ensures { result ≡ states.ready_deadline self.now.state }
    {
        let unfinished = self.queue.finished() < self.queue.accepted();
        let fits = self.queue.finished() - self.collected < self.spec.outbox;
        if unfinished && self.holder.is_none() && fits {
            Some(self.account.deadline())
        } else {
            None
        }
    }

    /// Whether a frame of this geometry has the stream's size.
    pub(crate) fn is_sized(&self, geometry: Geometry) -> bool
        ensures { IsTrue result ↔ (geometry ≡ self.now.state.spec.geometry) }
    {
        geometry == self.spec.geometry
    }

    /// A job for a frame of the stream's size. The frame comes back where its memory is refused.
    pub(crate) fn job(&self, alloc: Global, frame: Arc<Frame>) -> Result<Job, Arc<Frame>>
        requires { (arc_value frame).geometry ≡ self.now.state.spec.geometry }
        ensures fresh { IfOk result (IsFresh self.now.state.spec.chain) }
        ensures source { IfOk result (λ job. job.source ≡ arc_value frame) }
        ensures returns_frame { IfErr result (λ back. back ≡ frame) }
    {
        let spec = match self.spec.job.clone() {
            Ok(spec) => spec,
            Err(_) => return Err(frame),
        };
        match Job::new(alloc, spec, frame) {
            Ok(job) => Ok(job),
            Err(JobRefused::NoMemory(frame) | JobRefused::WrongSize(frame)) => Err(frame),
        }
    }

    /// Why a frame is refused, if it is. `is_sized` tells whether it has the stream's size.
    pub(crate) fn arrival_refusal(&self, is_sized: bool) -> Option<Refusal>
        ensures refusal { result ≡ rules.arrival_refusal is_sized self.now.state }
        ensures place { IfNone result (IsTrue is_sized × HasPlace self.now.state) }
    {
        if self.queue.is_closed() {
            return Some(Refusal::Closed);
        }
        if !is_sized {
            return Some(Refusal::WrongSize);
        }
        if self.queue.accepted() == self.spec.frames {
            return Some(Refusal::TooManyFrames);
        }
        if self.queue.accepted() - self.queue.finished() >= self.spec.queue {
            return Some(Refusal::Full);
        }
        None
    }

    /// Takes a job behind all others.
    #[tactic(auto, using(crate::proofs::Schedules::Jobs::here_more))]
    pub(crate) fn accept(&mut self, now: u64, job: Job) -> u64
        requires clock { now ≤ LAST_MOMENT }
        requires place { HasPlace self.old.state }
        requires fresh { IsFresh self.old.state.spec.chain job }
        ensures number { result ≡ self.old.state.accepted }
        ensures accepted { self.new ≡ record self.old {
          state = did self.old.state (Came now (source_of job));
          jobs = self.old.jobs ++ job ∷ [];
        } }
    {
        let idle = self.queue.accepted() == self.queue.finished();
        let number = match self.queue.offer(job) {
            Ok(number) => number,
            Err(_) => unreachable!(),
        };
        if idle {
            self.account.arrive_idle(now);
        }
        number
    }

    /// Lends the front job to a worker, started, and answers its number and how many bands are granted.
    #[tactic(auto, using(crate::proofs::Schedules::Jobs::none_lent))]
    pub(crate) fn lend(&mut self, worker: u32, quantum: u64) -> (u64, u32)
        requires unfinished { self.old.state.finished < self.old.state.accepted }
        requires here { self.old.state.holder ≡ None }
        requires room { self.old.state.finished - self.old.state.collected < self.old.state.spec.outbox }
        ensures number { result.0 ≡ self.old.state.finished }
        ensures grant { result.1 ≡ rules.grant quantum self.old.state }
        ensures lent { self.new ≡ record self.old {
          state = did self.old.state (Lent worker);
          leased = self.new.leased;
          jobs = drop 1 self.old.jobs;
        } }
        ensures job { IsSomeAnd self.new.leased (λ job. IsSomeAnd (slice_get self.old.jobs 0) (λ first.
            job ≡ record first { scratch = job.scratch })) }
        ensures started { IsSomeAnd self.new.leased
            (IsStarted self.old.state.spec.chain self.old.state.done) }
    {
        match self.queue.take() {
            None => unreachable!(),
            Some((number, job)) => {
                self.leased = Some(start_job(job, self.scratch.take()));
                self.holder = Some(worker);
                let budget = self.account.budget();
                let grant = grant_of(self.spec.job.chain(), quantum, budget, self.done);
                (number, grant)
            }
        }
    }

    /// Hands the job over that is out.
    pub(crate) fn take_job(&mut self) -> Job
        requires { IsSome self.old.leased }
        ensures job { self.old.leased ≡ Some result }
        ensures gone { self.new ≡ with_leased None self.old }
    {
        match self.leased.take() {
            Some(job) => job,
            None => unreachable!(),
        }
    }

    /// Takes the job that was handed over.
    pub(crate) fn return_job(&mut self, job: Job)
        requires out { IsSome self.old.state.holder }
        requires gone { self.old.leased ≡ None }
        requires started { IsStarted self.old.state.spec.chain self.old.state.done job }
        ensures { self.new ≡ with_leased (Some job) self.old }
    {
        self.leased = Some(job);
    }

    /// Does the next band of the job that is out, and charges the units that it costs.
    #[tactic(auto, using(crate::proofs::Bands::Costs::few_steps))]
    pub(crate) fn step(&mut self)
        requires leased { IsSome self.old.leased }
        requires left { self.old.state.done < steps self.old.state.spec }
        requires charge { CanCharge (next_cost self.old.state) self.old.state.account }
        requires no_overflow { self.old.state.charged + next_cost self.old.state < 2 ^ 64 }
        ensures worked { self.new ≡ record self.old {
          state = did self.old.state Worked;
          leased = self.new.leased;
        } }
        ensures leased { IsSome self.new.leased }
    {
        let cost = self.spec.cost_of_band(self.done);
        match self.leased.take() {
            None => unreachable!(),
            Some(job) => {
                self.leased = Some(step_job(job));
                self.account.charge(cost);
                self.charged += cost;
                self.done += 1;
            }
        }
    }

    /// Charges bands of the job that was handed over, with the units that they cost together.
    #[tactic(auto, using(crate::proofs::Bands::Costs::few_steps))]
    pub(crate) fn charge(&mut self, bands: u32, units: u64)
        requires out { IsSome self.old.state.holder }
        requires gone { self.old.leased ≡ None }
        requires left { self.old.state.done + bands ≤ steps self.old.state.spec }
        requires units { units ≡ cost_of_next bands self.old.state }
        requires charge { CanCharge units self.old.state.account }
        requires no_overflow { self.old.state.charged + units < 2 ^ 64 }
        ensures { self.new ≡ record self.old { state = worked_at_once bands self.old.state } }
    {
        self.account.charge(units);
        self.charged += units;
        self.done += bands;
    }

    /// Takes the job back that is out, to the front.
    pub(crate) fn put_back(&mut self)
        requires leased { IsSome self.old.leased }
        requires left { self.old.state.done < steps self.old.state.spec }
        ensures { self.new ≡ record self.old {
          state = did self.old.state Back;
          leased = None;
          jobs = listed self.old.leased ++ self.old.jobs;
        } }
    {
        self.holder = None;
        match self.leased.take() {
            Some(job) => self.queue.put_back(job),
            None => unreachable!(),
        }
    }

    /// Takes the job back that is out and whose steps are all done, and answers its number. Its image waits
    /// for collection.
    #[tactic(auto, using(crate::proofs::Schedules::Jobs::finishing))]
    pub(crate) fn finish(&mut self) -> u64
        requires leased { IsSome self.old.leased }
        requires all { self.old.state.done ≡ steps self.old.state.spec }
        ensures number { result ≡ self.old.state.finished }
        ensures finished { self.new ≡ record self.old {
          state = did self.old.state Ended;
          leased = None;
          images = self.new.images;
        } }
        ensures image { IsSomeAnd self.old.leased (λ job. GainsImage job self.old.images self.new.images) }
    {
        match self.leased.take() {
            None => unreachable!(),
            Some(job) => {
                let number = self.queue.finish();
                let (source, image, scratch) = job.into_image();
                self.holder = None;
                self.scratch = Some(scratch);
                self.done = 0;
                match self.outbox.try_push_back(Collected { source, image }) {
                    Ok(()) => number,
                    Err(_) => unreachable!(),
                }
            }
        }
    }

    /// Takes the job back that is out: to the front, or to the outbox if its steps are all done, and answers
    /// its number then.
    pub(crate) fn settle(&mut self) -> Option<u64>
        requires { IsSome self.old.leased }
        ensures requeued { IfNone result ((self.old.state.done ≢ steps self.old.state.spec)
            × (self.new ≡ stream_returned self.old)) }
        ensures finished { IfSome result (λ number. (self.old.state.done ≡ steps self.old.state.spec)
            × (number ≡ self.old.state.finished)
            × (self.new ≡ stream_finished self.new.images self.old)
            × IsSomeAnd self.old.leased (λ job. GainsImage job self.old.images self.new.images)) }
    {
        if self.done == self.spec.job.chain().steps() {
            Some(self.finish())
        } else {
            self.put_back();
            None
        }
    }

    /// Accepts no more frames.
    pub(crate) fn close(&mut self) -> Result<(), Refusal>
        ensures ok { OnOk result (IsFalse self.old.state.is_closed
            × (self.new ≡ record self.old { state = did self.old.state Shut })) }
        ensures err { IfErr result (λ e. (e ≡ Refusal.AlreadyClosed) × IsTrue self.old.state.is_closed
            × (self.new ≡ self.old)) }
    {
        match self.queue.close() {
            Ok(()) => Ok(()),
            Err(_) => Err(Refusal::AlreadyClosed),
        }
    }

    /// Gives the oldest image away, with its source.
    #[tactic(auto, using(crate::proofs::Schedules::Jobs::fewer, crate::proofs::Schedules::Jobs::first_of))]
    pub(crate) fn collect(&mut self) -> Option<Collected>
        ensures first { IfSome result (λ pair. slice_get self.old.images 0 ≡ Some pair) }
        ensures source { IfSome result (λ pair. slice_get self.old.state.frames 0 ≡ Some (source_in pair)) }
        ensures pair { IfSome result (IsPair self.old.state.spec.chain) }
        ensures less { OnSome result (self.old.state.collected < self.old.state.finished) }
        ensures taken { OnSome result (self.new ≡ record self.old {
          state = did self.old.state Taken;
          images = drop 1 self.old.images;
        }) }
        ensures none { IfNone result (self.old.state.finished ≤ self.old.state.collected) }
        ensures same { IfNone result (self.new ≡ self.old) }
    {
        match self.outbox.pop_front() {
            None => None,
            Some(pair) => {
                self.collected += 1;
                Some(pair)
            }
        }
    }

    /// Why the stream gives no image, if it gives none.
    pub(crate) fn collect_refusal(&self) -> Option<Refusal>
        ensures refused { IfSome result (λ e. (self.now.state.finished ≤ self.now.state.collected)
            × (e ≡ rules.lack self.now.state)) }
        ensures none { IfNone result (self.now.state.collected < self.now.state.finished) }
    {
        if self.collected < self.queue.finished() {
            None
        } else if self.queue.is_closed() && self.queue.accepted() == self.queue.finished() {
            Some(Refusal::Drained)
        } else {
            Some(Refusal::Empty)
        }
    }

    /// The budget and the deadline.
    pub(crate) fn account(&self) -> (u64, u64)
        ensures { result ≡ (self.now.state.account.budget, self.now.state.account.deadline) }
    {
        (self.account.budget(), self.account.deadline())
    }

    /// How many bands of the first unfinished frame are done.
    pub(crate) fn done(&self) -> u32
        ensures { result ≡ self.now.state.done }
    {
        self.done
    }

    /// Whether a worker has the first unfinished frame.
    pub(crate) fn is_out(&self) -> bool
        ensures { IsTrue result ↔ IsSome self.now.state.holder }
    {
        self.holder.is_some()
    }

    /// Whether no frame will be leased any more: the stream is closed, and all its frames are finished.
    pub(crate) fn is_over(&self) -> bool
        ensures { IsTrue result ↔ IsOver self.now }
    {
        self.queue.is_closed() && self.queue.accepted() == self.queue.finished()
    }

    /// What was counted.
    pub(crate) fn counts(&self) -> Counts
        ensures { result ≡ counts_of self.now.state }
    {
        Counts {
            accepted: self.queue.accepted(),
            finished: self.queue.finished(),
            collected: self.collected,
            charged: self.charged,
        }
    }
}

/// The job, started with the scratch where it has none.
#[tactic(auto, using(crate::proofs::Schedules::Jobs::with_scratch))]
fn start_job(job: Job, scratch: Option<Scratch>) -> Job
    requires { IsWithOne job.chain scratch job.scratch }
    ensures same { result ≡ record job { scratch = result.scratch } }
    ensures started { IsSome result.scratch }
{
    match scratch {
        None => job,
        Some(scratch) => {
            let mut job = job;
            job.start(scratch);
            job
        }
    }
}

/// The job with one step more.
fn step_job(job: Job) -> Job
    requires started { IsSome job.scratch }
    requires left { job.done < steps_of job.chain }
    ensures step { StepsOn job result }
    ensures started { IsSome result.scratch }
{
    let mut lease = Lease::new(job, 0, 0, 1);
    match lease.step() {
        Ok(()) => {}
        Err(_) => unreachable!(),
    }
    lease.into_job()
}
