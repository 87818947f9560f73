//! One stream of a tally.
ghost use Rattle.std.specs.Prelude.{◌≡◌, ◌≤◌, ◌<◌, ◌+◌, ◌^◌, nat_eq, nat_lt, true};
ghost use Rattle.cbs_account.specs.Admission.{Fits};
ghost use Rattle.cbs_account.specs.Rules.{CanCharge};
ghost use Rattle.serve_core.specs.Counts.{Back, Came, Ended, Lent, Shut, Taken, Worked};
ghost use Rattle.serve_core.specs.Released.{is_released, with_held_share};
ghost use Rattle.serve_core.specs.Rules as rules;
ghost use Rattle.serve_core.specs.Schedule.{account_of, counts_of};
ghost use Rattle.serve_core.specs.Setup.{HasBandwidth, IsWithinLimits, steps};
ghost use Rattle.serve_core.specs.States as states;
ghost use Rattle.serve_core.specs.States.{did, new_stream, next_cost};

use crate::counts::Counts;
use crate::grant::grant_of;
use crate::refusal::Refusal;
use crate::spec::StreamSpec;
use cbs_account::limits::LAST_MOMENT;
use cbs_account::{Account, Admission};
use std::marker::Model;

/// A stream's account and counts, without its frames. Contracts see it as a `StreamState`.
#[derive(Drop)]
pub(crate) struct Row {
    spec: StreamSpec,
    account: Account,
    accepted: u64,
    finished: u64,
    collected: u64,
    charged: u64,
    done: u32,
    is_closed: bool,
    holder: Option<u32>,
}

impl Model for Row {
    ghost use Rattle.serve_core.specs.Bare.{Blank};
    ghost use Rattle.serve_core.specs.States.{StreamState};
    ghost use Rattle.serve_core.specs.RowInside.{IsRow, row};

    ghost Value = { StreamState Blank };

    ghost view = { row };

    ghost invariant = { IsRow };
}

impl Row {
    /// A stream that has had no frame.
    pub(crate) fn new(spec: StreamSpec) -> Row
        requires limits { IsWithinLimits spec }
        requires bandwidth { HasBandwidth spec }
        ensures { result ≡ new_stream spec }
    {
        let account = match Account::new(spec.maximum, spec.period) {
            Ok(account) => account,
            Err(_) => unreachable!(),
        };
        Row {
            spec,
            account,
            accepted: 0,
            finished: 0,
            collected: 0,
            charged: 0,
            done: 0,
            is_closed: false,
            holder: None,
        }
    }

    /// What the stream is served with.
    pub(crate) fn spec(&self) -> &StreamSpec
        ensures { result.now ≡ self.now.spec }
    {
        &self.spec
    }

    /// The deadline, if the front frame can be leased.
    pub(crate) fn ready_deadline(&self) -> Option<u64>
        ensures { result ≡ states.ready_deadline self.now }
    {
        let unfinished = self.finished < self.accepted;
        let fits = self.finished - self.collected < self.spec.outbox;
        if unfinished && self.holder.is_none() && fits {
            Some(self.account.deadline())
        } else {
            None
        }
    }

    /// Why a frame of the stream's size is refused, if it is.
    pub(crate) fn arrival_refusal(&self) -> Option<Refusal>
        ensures { result ≡ rules.arrival_refusal true self.now }
    {
        if self.is_closed {
            return Some(Refusal::Closed);
        }
        if self.accepted == self.spec.frames {
            return Some(Refusal::TooManyFrames);
        }
        if self.accepted - self.finished >= self.spec.queue {
            return Some(Refusal::Full);
        }
        None
    }

    /// How many frames were accepted.
    pub(crate) fn accepted(&self) -> u64
        ensures { result ≡ self.now.accepted }
    {
        self.accepted
    }

    /// How many frames were finished.
    pub(crate) fn finished(&self) -> u64
        ensures { result ≡ self.now.finished }
    {
        self.finished
    }

    /// Whether the stream gets no more frames.
    pub(crate) fn is_closed(&self) -> bool
        ensures { result ≡ self.now.is_closed }
    {
        self.is_closed
    }

    /// Whether a finished frame isn't collected.
    pub(crate) fn has_image(&self) -> bool
        ensures { result ≡ nat_lt self.now.collected self.now.finished }
    {
        self.collected < self.finished
    }

    /// How many bands a lease grants.
    pub(crate) fn grant(&self, quantum: u64) -> u32
        requires { self.now.done ≤ steps self.now.spec }
        ensures { result ≡ rules.grant quantum self.now }
    {
        let budget = self.account.budget();
        grant_of(self.spec.job.chain(), quantum, budget, self.done)
    }

    /// Whether all bands of the first unfinished frame are done.
    pub(crate) fn is_done(&self) -> bool
        ensures { result ≡ nat_eq self.now.done (steps self.now.spec) }
    {
        self.done == self.spec.job.chain().steps()
    }

    /// Whether no frame and no image is left, and the moment has reached the deadline.
    pub(crate) fn is_released(&self, moment: u64) -> bool
        ensures { result ≡ is_released moment self.now }
    {
        self.is_closed
            && self.accepted == self.finished
            && self.finished == self.collected
            && self.account.deadline() <= moment
    }

    /// Takes the share that the stream holds at a moment.
    pub(crate) fn hold(&self, moment: u64, admission: &mut Admission)
        requires { Fits (with_held_share moment self.now admission.old) }
        ensures { admission.new ≡ with_held_share moment self.now admission.old }
    {
        if self.is_released(moment) {
            return;
        }
        match admission.admit(self.spec.maximum, self.spec.period) {
            Ok(()) => {}
            Err(_) => unreachable!(),
        }
    }

    /// The budget and the deadline.
    pub(crate) fn account(&self) -> (u64, u64)
        ensures { result ≡ account_of self.now }
    {
        (self.account.budget(), self.account.deadline())
    }

    /// What was counted.
    pub(crate) fn counts(&self) -> Counts
        ensures { result ≡ counts_of self.now }
    {
        Counts {
            accepted: self.accepted,
            finished: self.finished,
            collected: self.collected,
            charged: self.charged,
        }
    }

    /// A frame comes at a moment.
    pub(crate) fn come(&mut self, now: u64)
        requires clock { now ≤ LAST_MOMENT }
        requires few { self.old.accepted < 2 ^ 63 }
        ensures { self.new ≡ did self.old (Came now tt) }
    {
        let is_idle = self.accepted == self.finished;
        self.accepted += 1;
        if is_idle {
            self.account.arrive_idle(now);
        }
    }

    /// The first unfinished frame is lent to a worker.
    pub(crate) fn lend(&mut self, worker: u32)
        ensures { self.new ≡ did self.old (Lent worker) }
    {
        self.holder = Some(worker);
    }

    /// The next band is done, and its units are charged.
    #[tactic(auto, using(crate::proofs::Bands::Costs::few_steps))]
    pub(crate) fn step(&mut self)
        requires left { self.old.done < steps self.old.spec }
        requires charge { CanCharge (next_cost self.old) self.old.account }
        requires no_overflow { self.old.charged + next_cost self.old < 2 ^ 64 }
        ensures { self.new ≡ did self.old Worked }
    {
        let cost = self.spec.cost_of_band(self.done);
        self.account.charge(cost);
        self.charged += cost;
        self.done += 1;
    }

    /// The frame is back, with the bands that are done.
    pub(crate) fn put_back(&mut self)
        ensures { self.new ≡ did self.old Back }
    {
        self.holder = None;
    }

    /// The frame is finished.
    pub(crate) fn finish(&mut self)
        requires { self.old.finished < self.old.accepted }
        ensures { self.new ≡ did self.old Ended }
    {
        self.finished += 1;
        self.done = 0;
        self.holder = None;
    }

    /// No more frames come.
    pub(crate) fn close(&mut self)
        ensures { self.new ≡ did self.old Shut }
    {
        self.is_closed = true;
    }

    /// The oldest image is given away.
    pub(crate) fn collect(&mut self)
        requires { self.old.collected < self.old.finished }
        ensures { self.new ≡ did self.old Taken }
    {
        self.collected += 1;
    }
}
