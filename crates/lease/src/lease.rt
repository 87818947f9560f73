//! The leave to do some steps of a job.
use crate::job::Job;
use crate::job_spec::JobSpec;
use crate::report::LeaseReport;
use frame_view::Frame;
use std::marker::Model;
use std::thread::Threads;
use thiserror::Error;

/// As many steps as the lease grants are done.
#[derive(Clone, Copy, Debug, PartialEq, Eq, Error)]
#[error("GrantSpent")]
pub struct GrantSpent;

/// The leave to do some steps of a started job, which a worker holds.
///
/// A lease can't be dropped: it ends by [`Lease::into_job`] alone, so no job is lost while it is worked on.
pub struct Lease {
    job: Job,
    stream: u32,
    number: u64,
    granted: u32,
    used: u32,
    spent: u32,
}

impl Model for Lease {
    ghost use Rattle.lease.specs.Lease.{LeaseValue};

    ghost Value = { LeaseValue };

    ghost use Rattle.lease.specs.LeaseInside.{IsCounted, lease_of};

    ghost view = { lease_of };

    ghost invariant = { IsCounted };
}

impl Lease {
    ghost use Rattle.std.specs.Prelude.{◌≡◌, ◌+◌, ◌≤◌, ◌↔◌, IsSome, IsTrue, OnOk};
    ghost use Rattle.filters.specs.Steps.{steps_of};
    ghost use Rattle.lease.specs.Halved.{CanHalveStep};
    ghost use Rattle.lease.specs.Lease.{granted_of, spent_of, TakesStep};

    /// A lease of this many steps of the job of frame `number` of its stream.
    pub fn new(job: Job, stream: u32, number: u64, grant: u32) -> Lease
        requires started { IsSome job.scratch }
        requires positive_grant { 1 ≤ grant }
        requires left { job.done + grant ≤ steps_of job.chain }
        ensures { result ≡ granted_of job stream number grant }
    {
        Lease {
            job,
            stream,
            number,
            granted: grant,
            used: 0,
            spent: 0,
        }
    }

    /// Does the next step of the job. It takes no memory and waits for nobody.
    pub fn step(&mut self) -> Result<(), GrantSpent>
        ensures { TakesStep self.old self.new result }
    {
        if self.used == self.granted {
            return Err(GrantSpent);
        }
        prove!(self.job.done() < self.job.steps());
        self.spent += self.job.next_cost();
        self.used += 1;
        self.job.step();
        Ok(())
    }

    /// Does what [`Lease::step`] does. Where the band can be halved, `note` is called with 0 before the part
    /// above is written and with 1 before the other one, and two threads may write them at the same time.
    /// Memory is taken for the second thread alone; where it isn't granted, the caller's own writes both.
    pub fn step_halves<R: Threads, N: Fn(u32) + Sync>(
        &mut self,
        rt: &R,
        note: &N,
    ) -> Result<(), GrantSpent>
        requires { N.pre note.now 0 × N.pre note.now 1 }
        ensures step { TakesStep self.old self.new result }
        ensures noted { OnOk result (CanHalveStep self.old.job.chain self.old.job.done
            → N.post note.now 0 tt × N.post note.now 1 tt) }
    {
        if self.used >= self.granted {
            return Err(GrantSpent);
        }
        prove!(self.job.done() < self.job.steps());
        let cost = self.job.next_cost();
        self.job.step_halves(rt, note);
        self.used += 1;
        self.spent += cost;
        Ok(())
    }

    /// What is done to the job's frame.
    pub fn spec(&self) -> &JobSpec
        ensures { result.now ≡ self.now.job.chain }
    {
        self.job.spec()
    }

    /// The number of the job's stream.
    pub fn stream(&self) -> u32
        ensures { result ≡ self.now.stream }
    {
        self.stream
    }

    /// The job's number in its stream, which `replay` writes as SEQ.
    pub fn seq(&self) -> u64
        ensures { result ≡ self.now.number }
    {
        self.number
    }

    /// The job's number in its stream, by the name that it has everywhere else.
    pub fn number(&self) -> u64
        ensures { result ≡ self.now.number }
    {
        self.seq()
    }

    /// The frame that the job filters.
    pub fn source(&self) -> &Frame
        ensures { result.now ≡ self.now.job.source }
    {
        self.job.source()
    }

    /// How many steps may be done under the lease.
    pub fn granted(&self) -> u32
        ensures value { result ≡ self.now.granted }
        ensures positive { 1 ≤ result }
    {
        self.granted
    }

    /// How many steps are done under the lease.
    pub fn used(&self) -> u32
        ensures value { result ≡ self.now.used }
        ensures within { result ≤ self.now.granted }
        ensures own { result ≤ self.now.job.done }
    {
        self.used
    }

    /// What the steps cost that are done under the lease, in units.
    pub fn spent(&self) -> u32
        ensures { result ≡ spent_of self.now }
    {
        self.spent
    }

    /// How many steps of the job are done, under this lease and those before it.
    pub fn done(&self) -> u32
        ensures value { result ≡ self.now.job.done }
        ensures within { result ≤ steps_of self.now.job.chain }
    {
        self.job.done()
    }

    /// What is done under the lease.
    pub fn report(&self) -> LeaseReport
        ensures frame { (result.stream ≡ self.now.stream) × (result.number ≡ self.now.number) }
        ensures bands { result.bands ≡ self.now.used }
        ensures units { result.units ≡ spent_of self.now }
        ensures last { IsTrue result.is_finished ↔ (self.now.job.done ≡ steps_of self.now.job.chain) }
    {
        LeaseReport {
            stream: self.stream,
            number: self.number,
            bands: self.used,
            units: self.spent,
            is_finished: self.job.done() == self.job.steps(),
        }
    }

    /// Ends the lease. The job keeps what is done.
    pub fn into_job(self) -> Job
        ensures value { result ≡ self.job }
        ensures started { IsSome result.scratch }
    {
        let Lease {
            job,
            stream: _,
            number: _,
            granted: _,
            used: _,
            spent: _,
        } = self;
        job
    }
}
