//! A machine without frames, [`Tally`], which judges the events that it is told of.
ghost use Rattle.std.specs.Prelude.{ℕ, ◌≡◌, ◌≢◌, ◌≤◌, ◌<◌, ◌↔◌, IfOk, IfSome, IfNone, OnErr, IsTrue, IsFalse};
ghost use Rattle.std.specs.Prelude.{Some, None, filter, length, map, not, slice_get};
ghost use Rattle.std.specs.Option.{option_map};
ghost use Rattle.cbs_account.specs.Admission.{Fits};
ghost use Rattle.edf_pool.specs.Earliest.{IsEarliest};
ghost use Rattle.serve_core.specs.declared.held.Held.{Held as HeldValue};
ghost use Rattle.serve_core.specs.Bare.{Blank, measures_any, is_any_image};
ghost use Rattle.serve_core.specs.Events as events;
ghost use Rattle.serve_core.specs.Leads.{opening_state};
ghost use Rattle.serve_core.specs.Reached.{IsReached};
ghost use Rattle.serve_core.specs.Released.{is_released, unreleased};
ghost use Rattle.serve_core.specs.Retired.{AreFree, retired};
ghost use Rattle.serve_core.specs.Schedule.{account_of, counts_of};
ghost use Rattle.serve_core.specs.States as states;
ghost use Rattle.serve_core.specs.Tally.{Checks, Ends, IsRightReply, held_of_rows};
ghost use Rattle.serve_core.specs.Sooner.{ComesBefore};

mod row;

use self::row::Row;
use crate::counts::Counts;
use crate::held::Held;
use crate::setup::Setup;
use crate::spec::StreamSpec;
use cbs_account::Admission;
use cbs_account::limits::{LAST_MOMENT, MOST_STREAMS, MOST_WORKERS};
use std::alloc::{AllocError, Global};
use std::marker::Model;

/// A machine without frames. It is told of events with their replies, each by a call of its own, which
/// answers whether the reply is right: then the tally goes on, and else it stays as it is. So a history of
/// any length is judged in the memory of its streams' specs, accounts and counts. It is told of no refusals,
/// since these change nothing.
///
/// Contracts see the `State` of `specs/States.antt`, to which some legal transcript of a setup leads.
#[derive(Drop)]
pub struct Tally {
    clock: u64,
    quantum: u64,
    rows: Vec<Row>,
    workers: Vec<Option<Held>>,
}

impl Model for Tally {
    ghost use Rattle.serve_core.specs.Bare.{Blank};
    ghost use Rattle.serve_core.specs.States.{State};
    ghost use Rattle.serve_core.specs.TallyInside.{IsTally, tally};

    ghost Value = { State Blank };

    ghost view = { tally };

    ghost invariant = { IsTally };
}

impl Tally {
    /// A tally before any event.
    pub fn new(alloc: Global, setup: Setup) -> Result<Tally, AllocError>
        ensures { IfOk result (λ m. m ≡ opening_state Blank Blank setup) }
    {
        setup.recall_limits();
        let mut rows = Vec::with_capacity(alloc, setup.streams.len())?;
        for spec in setup.streams {
            rows.push(Row::new(spec))?;
        }
        let workers = vec![in alloc; None; setup.workers as usize]?;
        Ok(Tally {
            clock: 0,
            quantum: setup.quantum,
            rows,
            workers,
        })
    }

    /// Some legal transcript of a setup leads to its state. It does nothing: the laws ask for this.
    pub fn recall_reached(&self)
        ensures { IsReached measures_any is_any_image self.now }
    {
        let _clock = self.clock;
    }

    /// The present moment.
    pub fn clock(&self) -> u64
        ensures { result ≡ self.now.clock }
    {
        self.clock
    }

    /// How many streams there are.
    pub fn streams(&self) -> usize
        ensures { result ≡ length self.now.streams }
    {
        self.rows.len()
    }

    /// The budget and the deadline of stream `s`.
    pub fn account(&self, s: u32) -> Option<(u64, u64)>
        ensures { result ≡ option_map account_of (slice_get self.now.streams s) }
    {
        self.rows.get(s as usize).map(|row| row.account())
    }

    /// How many frames of stream `s` were accepted, finished and collected, and what it was charged.
    pub fn counts(&self, s: u32) -> Option<Counts>
        ensures { result ≡ option_map counts_of (slice_get self.now.streams s) }
    {
        self.rows.get(s as usize).map(|row| row.counts())
    }

    /// Whether stream `s` is released at the present moment: closed, its frames finished and collected, its
    /// deadline reached.
    pub fn is_released(&self, s: u32) -> Option<bool>
        ensures { result ≡ option_map (is_released self.now.clock) (slice_get self.now.streams s) }
    {
        let clock = self.clock;
        self.rows.get(s as usize).map(|row| row.is_released(clock))
    }

    /// What worker `w` holds.
    pub fn lease_of_worker(&self, w: u32) -> Option<Held>
        ensures some { IfSome result (λ held. slice_get self.now.workers w ≡ Some (Some held)) }
        ensures none { IfNone result
            ((held : HeldValue) → slice_get self.now.workers w ≢ Some (Some held)) }
    {
        match self.workers.get(w as usize) {
            Some(Some(held)) => Some(*held),
            _ => None,
        }
    }

    /// Whether the clock goes on to this moment.
    pub fn tick(&mut self, to: u64) -> bool
        ensures { Checks self.old (events.Tick to) events.Ticked result self.new }
    {
        if to < self.clock || to > LAST_MOMENT {
            return false;
        }
        self.clock = to;
        true
    }

    /// Whether stream `s` accepts a frame, as this number.
    pub fn arrive(&mut self, s: u32, number: u64) -> bool
        ensures { Checks self.old (events.Arrive s tt) (events.Accepted number) result self.new }
    {
        if !self.may_arrive(s, number) {
            return false;
        }
        let now = self.clock;
        self.rows[s as usize].come(now);
        true
    }

    fn may_arrive(&self, s: u32, number: u64) -> bool
        ensures { IsTrue result ↔ IsRightReply self.now (events.Arrive s tt) (events.Accepted number) }
    {
        match self.rows.get(s as usize) {
            None => false,
            Some(row) => match row.arrival_refusal() {
                Some(_) => false,
                None => number == row.accepted(),
            },
        }
    }

    /// Whether worker `w` gets a lease of this frame of stream `s`, with this grant.
    pub fn lease(&mut self, w: u32, s: u32, number: u64, grant: u32) -> bool
        ensures { Checks self.old (events.Lease w) (events.Leased s number grant) result self.new }
    {
        if !self.may_lease(w, s, number, grant) {
            return false;
        }
        self.rows[s as usize].lend(w);
        self.workers[w as usize] = Some(Held {
            stream: s,
            number,
            grant,
            used: 0,
        });
        true
    }

    fn may_lease(&self, w: u32, s: u32, number: u64, grant: u32) -> bool
        ensures { IsTrue result ↔ IsRightReply self.now (events.Lease w) (events.Leased s number grant) }
    {
        if !self.is_free(w) {
            return false;
        }
        if s as usize >= self.rows.len() {
            return false;
        }
        if !is_earliest(&self.rows, s) {
            return false;
        }
        let row = &self.rows[s as usize];
        if number != row.finished() {
            return false;
        }
        grant == row.grant(self.quantum)
    }

    /// Whether worker `w` is there, and holds nothing.
    fn is_free(&self, w: u32) -> bool
        ensures { IsTrue result ↔ (slice_get self.now.workers w ≡ Some None) }
    {
        match self.workers.get(w as usize) {
            Some(None) => true,
            _ => false,
        }
    }

    /// Whether worker `w` does a band of its lease.
    pub fn band(&mut self, w: u32) -> bool
        ensures { Checks self.old (events.Band w) events.Stepped result self.new }
    {
        let Some(held) = self.lease_of_worker(w) else {
            return false;
        };
        if held.used == held.grant {
            return false;
        }
        self.rows[held.stream as usize].step();
        self.workers[w as usize] = Some(Held {
            used: held.used + 1,
            ..held
        });
        true
    }

    /// Whether worker `w` gives its lease back, and the frame isn't finished.
    pub fn give_back(&mut self, w: u32) -> bool
        ensures { Checks self.old (events.Settle w) events.Returned result self.new }
    {
        let Some(held) = self.lease_of_worker(w) else {
            return false;
        };
        if self.rows[held.stream as usize].is_done() {
            return false;
        }
        self.rows[held.stream as usize].put_back();
        self.workers[w as usize] = None;
        true
    }

    /// Whether worker `w` gives its lease back, and this frame is finished.
    pub fn finish(&mut self, w: u32, number: u64) -> bool
        ensures { Checks self.old (events.Settle w) (events.Finished number) result self.new }
    {
        let Some(held) = self.lease_of_worker(w) else {
            return false;
        };
        if !self.ends(held.stream, number) {
            return false;
        }
        self.rows[held.stream as usize].finish();
        self.workers[w as usize] = None;
        true
    }

    /// Whether all bands of this frame of stream `s` are done, which is its first unfinished one.
    fn ends(&self, s: u32, number: u64) -> bool
        requires { s < length self.now.streams }
        ensures { IsTrue result ↔ Ends self.now s number }
    {
        let row = &self.rows[s as usize];
        row.is_done() && number == row.finished()
    }

    /// Whether stream `s` is closed.
    pub fn close(&mut self, s: u32) -> bool
        ensures { Checks self.old (events.Close s) events.Closing result self.new }
    {
        if !self.may_close(s) {
            return false;
        }
        self.rows[s as usize].close();
        true
    }

    fn may_close(&self, s: u32) -> bool
        ensures { IsTrue result ↔ IsRightReply self.now (events.Close s) events.Closing }
    {
        match self.rows.get(s as usize) {
            None => false,
            Some(row) => !row.is_closed(),
        }
    }

    /// Whether stream `s` gives its oldest image away.
    pub fn collect(&mut self, s: u32) -> bool
        ensures { Checks self.old (events.Collect s) (events.Image tt) result self.new }
    {
        if !self.may_collect(s) {
            return false;
        }
        self.rows[s as usize].collect();
        true
    }

    fn may_collect(&self, s: u32) -> bool
        ensures { IsTrue result ↔ IsRightReply self.now (events.Collect s) (events.Image tt) }
    {
        match self.rows.get(s as usize) {
            None => false,
            Some(row) => row.has_image(),
        }
    }

    /// Whether one stream more is admitted, as stream `s`. Where it is and memory is refused, it stays as it is.
    pub fn admit(&mut self, s: u32, spec: StreamSpec) -> Result<bool, AllocError>
        ensures checks { IfOk result (λ answer.
            Checks self.old (events.Admit spec) (events.Admitted s) answer self.new) }
        ensures memory { OnErr result (IsRightReply self.old (events.Admit spec) (events.Admitted s)) }
        ensures same { OnErr result (self.new ≡ self.old) }
    {
        if !self.may_admit(s, &spec) {
            return Ok(false);
        }
        self.rows.push(Row::new(spec))?;
        Ok(true)
    }

    fn may_admit(&self, s: u32, spec: &StreamSpec) -> bool
        ensures { IsTrue result ↔ IsRightReply self.now (events.Admit spec.now) (events.Admitted s) }
    {
        if self.rows.len() >= MOST_STREAMS || s as usize != self.rows.len() {
            return false;
        }
        if !spec.is_within_limits() {
            return false;
        }
        let mut admission = admission_of_held_shares(
            self.workers.len() as u64,
            self.clock,
            &self.rows,
        );
        admission.admit(spec.maximum, spec.period).is_ok()
    }

    /// Takes the released streams out, where no worker holds a lease and a stream isn't released, and answers
    /// whether that is so. Those that stay are numbered anew, in their order.
    pub fn retire(&mut self) -> bool
        ensures may { IsTrue result ↔ (AreFree self.old.workers × (1 ≤ length (unreleased self.old))) }
        ensures retired { IsTrue result → self.new ≡ retired self.old }
        ensures same { IsFalse result → self.new ≡ self.old }
    {
        if !self.may_retire() {
            return false;
        }
        let clock = self.clock;
        drop_released(&mut self.rows, clock);
        true
    }

    fn may_retire(&self) -> bool
        ensures { IsTrue result ↔ (AreFree self.now.workers × (1 ≤ length (unreleased self.now))) }
    {
        are_free(&self.workers) && some_stays(&self.rows, self.clock)
    }
}

/// Whether no worker holds a lease.
fn are_free(workers: &[Option<Held>]) -> bool
    ensures { IsTrue result ↔ AreFree workers.now }
{
    for worker in workers {
        if worker.is_some() {
            return false;
        }
    }
    true
}

/// Whether a stream isn't released at a moment.
fn some_stays(rows: &[Row], moment: u64) -> bool
    ensures { IsTrue result ↔ (1 ≤ length (filter (λ x. not (is_released moment x)) rows.now)) }
{
    for row in rows {
        if !row.is_released(moment) {
            return true;
        }
    }
    false
}

/// Drops the streams that are released at a moment.
fn drop_released(rows: &mut Vec<Row>, moment: u64)
    ensures { rows.new.items ≡ filter (λ x. not (is_released moment x)) rows.old.items }
{
    rows.retain(|row| !row.is_released(moment));
}

/// The workers with the shares that the streams hold at a moment.
fn admission_of_held_shares(workers: u64, moment: u64, rows: &[Row]) -> Admission
    requires some_workers { 1 ≤ workers }
    requires most { workers ≤ MOST_WORKERS }
    requires fits { Fits (held_of_rows workers moment rows.now) }
    ensures { result ≡ held_of_rows workers moment rows.now }
{
    let mut admission = Admission::new(workers);
    for row in rows {
        row.hold(moment, &mut admission);
    }
    admission
}

/// Whether stream `s` is ready, with the earliest deadline.
fn is_earliest(rows: &[Row], s: u32) -> bool
    requires { s < length rows.now }
    ensures { IsTrue result ↔ IsEarliest (map states.ready_deadline rows.now) s }
{
    let Some(deadline) = rows[s as usize].ready_deadline() else {
        return false;
    };
    for t in 0..rows.len() {
        if comes_before(rows[t].ready_deadline(), deadline, t < s as usize) {
            return false;
        }
    }
    true
}

/// Whether a stream with this deadline, if it is ready, comes before one with another.
fn comes_before(own: Option<u64>, other: u64, is_lower: bool) -> bool
    ensures { IsTrue result ↔ ComesBefore own other is_lower }
{
    match own {
        None => false,
        Some(own) => own < other || (own == other && is_lower),
    }
}
