//! Frames that are offered.
ghost use Rattle.std.specs.Prelude.{◌≡◌, None, Some, IfErr, IfOk, OnOk};
ghost use Rattle.std.specs.Arc.{arc_value};
ghost use Rattle.serve_core.specs.Desk.{IsFreshFor, TakesFrame, TakesJob};
ghost use Rattle.serve_hub.specs.declared.entry.Act.TheVariants.{Offered};
ghost use Rattle.serve_hub.specs.declared.entry.Seat.TheVariants.{Stream};
ghost use Rattle.serve_hub.specs.Answers.{IsJobAnswer, IsOfferAnswer, RefusesOffer};
ghost use Rattle.serve_hub.specs.Books.{Appends};
ghost use Rattle.serve_hub.specs.Journal as journals;

use super::Book;
use crate::entry::{Act, Entry, Seat};
use crate::refusal::{Refusal, or_full};
use frame_view::Frame;
use lease::Job;
use std::alloc::Global;
use std::sync::Arc;

impl Book {
    /// What [`Book::offer`] would refuse this frame for, want of memory aside.
    pub fn offer_refusal(&self, s: u32, at: u64, frame: &Frame) -> Option<Refusal>
        ensures { IsOfferAnswer self.now s at frame.now.geometry result }
    {
        if let Some(refusal) = self.desk.offer_refusal(s, at, frame) {
            return Some(Refusal::Core(refusal));
        }
        if self.room() < 1 {
            return Some(Refusal::HistoryFull);
        }
        None
    }

    /// A frame arrives at stream `s` at a moment, or now if that is later. A refused frame comes back, and
    /// the clock stays.
    pub fn offer(
        &mut self,
        alloc: Global,
        s: u32,
        at: u64,
        frame: Arc<Frame>,
    ) -> Result<u64, (Refusal, Arc<Frame>)>
        ensures entry { IfOk result (λ n.
            Appends (Stream s) (Offered (journals.tick_of self.old.desk.clock at) n) self.old self.new) }
        ensures job { IfOk result (λ n. TakesFrame s at (arc_value frame) n self.old.desk self.new.desk) }
        ensures answer { OnOk result (IsOfferAnswer self.old s at (arc_value frame).geometry None) }
        ensures refused { IfErr result (λ e. RefusesOffer self.old s at (arc_value frame).geometry e.0) }
        ensures returns_frame { IfErr result (λ e. (e.1 ≡ frame) × (self.new ≡ self.old)) }
    {
        if self.room() < 1 {
            return Err((or_full(self.desk.offer_refusal(s, at, &frame)), frame));
        }
        let tick = tick_of(self.desk.clock(), at);
        match self.desk.offer(alloc, s, at, frame) {
            Ok(number) => {
                self.journal
                    .push_reserved(Entry::new(Seat::Stream(s), Act::Offered(tick, number)));
                self.taken += 1;
                Ok(number)
            }
            Err((refusal, frame)) => Err((Refusal::Core(refusal), frame)),
        }
    }

    /// What [`Book::offer_job`] would refuse a job for, if it would. Where the job couldn't be made for want
    /// of memory, it tells the refusal that comes before that.
    pub fn offer_job_refusal(&self, s: u32, at: u64) -> Option<Refusal>
        ensures { IsJobAnswer self.now s at result }
    {
        if let Some(refusal) = self.desk.offer_job_refusal(s, at) {
            return Some(Refusal::Core(refusal));
        }
        if self.room() < 1 {
            return Some(Refusal::HistoryFull);
        }
        None
    }

    /// What [`Book::offer`] does, with the frame's job, which was made outside. A refused job comes back, and
    /// the clock stays.
    pub fn offer_job(&mut self, s: u32, at: u64, job: Job) -> Result<u64, (Refusal, Job)>
        requires { IsFreshFor self.old.desk s job }
        ensures entry { IfOk result (λ n.
            Appends (Stream s) (Offered (journals.tick_of self.old.desk.clock at) n) self.old self.new) }
        ensures job { IfOk result (λ n. TakesJob s at job n self.old.desk self.new.desk) }
        ensures answer { OnOk result (IsJobAnswer self.old s at None) }
        ensures refused { IfErr result (λ e. IsJobAnswer self.old s at (Some e.0)) }
        ensures returns_job { IfErr result (λ e. (e.1 ≡ job) × (self.new ≡ self.old)) }
    {
        if self.room() < 1 {
            return Err((or_full(self.desk.offer_job_refusal(s, at)), job));
        }
        let tick = tick_of(self.desk.clock(), at);
        match self.desk.offer_job(s, at, job) {
            Ok(number) => {
                self.journal
                    .push_reserved(Entry::new(Seat::Stream(s), Act::Offered(tick, number)));
                self.taken += 1;
                Ok(number)
            }
            Err((refusal, job)) => Err((Refusal::Core(refusal), job)),
        }
    }
}

/// The moment that the clock goes on to, if it does.
fn tick_of(clock: u64, at: u64) -> Option<u64>
    ensures { result ≡ journals.tick_of clock at }
{
    if clock < at { Some(at) } else { None }
}
