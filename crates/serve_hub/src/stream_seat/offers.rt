//! Frames that a seat offers.
ghost use Rattle.std.specs.Prelude.{◌≡◌, ◌≢◌, ◌↔◌, ◌<◌, IfErr, IfNone, IfOk, IfSome, IsTrue, None};
ghost use Rattle.std.specs.Prelude.{MatchOption, OnOk, Some};
ghost use Rattle.std.specs.Arc.{arc_value};
ghost use Rattle.filters.specs.ChainImage.{value_of};
ghost use Rattle.serve_core.specs.Schedule.{HasStream};
ghost use Rattle.serve_core.specs.Streams.{IsFresh, IsImageOf};
ghost use Rattle.serve_hub.specs.declared.refusal.Came.TheVariants.{NoPlace};
ghost use Rattle.serve_hub.specs.declared.refusal.Refusal.TheVariants.{Torn};
ghost use Rattle.serve_hub.specs.Answers.{IsOfferAnswer};
ghost use Rattle.serve_hub.specs.Calls.{Accepts, AllowsOffer, GetsOther, IsOfBook, IsOfferTold, NotesFrom};
ghost use Rattle.serve_hub.specs.Calls.{ReturnsMemory};
ghost use Rattle.serve_hub.specs.Seats.{HasPlace, kept_more};

use super::StreamSeat;
use crate::epoch::Epoch;
use crate::moments::Moments;
use crate::refusal::{Came, Refusal};
use crate::shared::Shared;
use cbs_account::limits::LAST_MOMENT;
use frame_view::{Frame, Geometry};
use lease::{Job, JobRefused, OverRefused};
use serve_core::Refusal as Core;
use std::alloc::Global;
use std::sync::Arc;

/// The job of a frame, and the frame for the seat to keep.
#[derive(Drop)]
pub(crate) struct Entrant {
    pub(crate) job: Job,
    pub(crate) frame: Arc<Frame>,
}

impl<L: Epoch> StreamSeat<L> {
    /// The job of a frame, over the memory of an image of the seat's chain if one is at hand, and the frame
    /// for the seat to keep. A frame of another size comes back with the memory, and so does one for whose
    /// job no memory is granted.
    pub(crate) fn job(
        &self,
        alloc: Global,
        frame: Arc<Frame>,
        memory: Option<Frame>,
    ) -> Result<Entrant, (Arc<Frame>, Option<Frame>)>
        requires { IfSome memory (IsImageOf self.now.chain) }
        ensures fresh { IfOk result (λ made. IsFresh self.now.chain made.job) }
        ensures source { IfOk result (λ made. made.job.source ≡ arc_value frame) }
        ensures keeps_frame { IfOk result (λ made. arc_value made.frame ≡ arc_value frame) }
        ensures size { IfOk result (λ made. (arc_value frame).geometry ≡ self.now.chain.geometry) }
        ensures returns_frame { IfErr result (λ back. back.0 ≡ frame) }
        ensures memory { IfErr result (λ back. ReturnsMemory self.now.chain memory back.1) }
    {
        let (Ok(spec), Ok(kept)) = (Arc::try_clone(self.rest.spec.job()), Arc::try_clone(&frame))
        else {
            return Err((frame, memory));
        };
        match memory {
            None => match Job::new(alloc, spec, frame) {
                Ok(job) => Ok(Entrant { job, frame: kept }),
                Err(JobRefused::WrongSize(frame) | JobRefused::NoMemory(frame)) => {
                    Err((frame, None))
                }
            },
            Some(image) => match Job::over(alloc, spec, frame, image) {
                Ok(job) => Ok(Entrant { job, frame: kept }),
                Err(OverRefused::WrongSize(frame, image) | OverRefused::NoMemory(frame, image)) => {
                    Err((frame, Some(image)))
                }
            },
        }
    }

    /// The seat's frame is offered with its job. A refused job comes back; there is none where it was
    /// accepted with another number than the seat's next. That the seat has no place is told only where the
    /// book was asked, and would accept the frame.
    pub(crate) fn offer(
        &mut self,
        shared: &mut Shared<L>,
        at: u64,
        entrant: Entrant,
    ) -> Result<u64, (Refusal, Option<Job>)>
        requires fresh { IsFresh self.old.chain entrant.job }
        requires size { (arc_value entrant.frame).geometry ≡ self.old.chain.geometry }
        ensures accepted { IfOk result (λ n. (n ≡ self.old.accepted)
            × Accepts (value_of (arc_value entrant.frame)) n self.old self.new) }
        ensures moment { OnOk result (NotesFrom shared.old.book.desk.clock at self.old self.new) }
        ensures other_moment { IfErr result (λ e.
            IfNone e.1 (NotesFrom shared.old.book.desk.clock at self.old self.new)) }
        ensures refused { IfErr result (λ e. MatchOption e.1
            (GetsOther (value_of (arc_value entrant.frame)) e.0 self.old self.new)
            (λ back. (back ≡ entrant.job) × (self.new ≡ self.old)
            × IsOfferTold self.old at (arc_value entrant.frame).geometry e.0)) }
        ensures asked { IfErr result (λ e. e.0 ≡ Torn NoPlace
            → IsOfferAnswer shared.old.book self.old.number at (arc_value entrant.frame).geometry None) }
    {
        if let Some(came) = self.contradiction(shared) {
            return Err((Refusal::Torn(came), Some(entrant.job)));
        }
        if !self.has_place() {
            let refusal = match self.offer_refusal(shared, at, &entrant.frame) {
                Some(refusal) => refusal,
                None => Refusal::Torn(Came::NoPlace),
            };
            return Err((refusal, Some(entrant.job)));
        }
        self.enter(shared, at, entrant)
    }

    /// Offers the frame to the book, which has the seat's stream; the seat has a place for the frame.
    fn enter(
        &mut self,
        shared: &mut Shared<L>,
        at: u64,
        entrant: Entrant,
    ) -> Result<u64, (Refusal, Option<Job>)>
        requires fresh { IsFresh self.old.chain entrant.job }
        requires size { (arc_value entrant.frame).geometry ≡ self.old.chain.geometry }
        requires limit { self.old.calls.limit ≡ shared.old.book.limit }
        requires chain { HasStream shared.old.book.desk self.old.number (λ stream.
            stream.state.spec.chain ≡ self.old.chain) }
        requires place { HasPlace self.old }
        ensures accepted { IfOk result (λ n. (n ≡ self.old.accepted)
            × Accepts (value_of (arc_value entrant.frame)) n self.old self.new) }
        ensures moment { OnOk result (NotesFrom shared.old.book.desk.clock at self.old self.new) }
        ensures other_moment { IfErr result (λ e.
            IfNone e.1 (NotesFrom shared.old.book.desk.clock at self.old self.new)) }
        ensures refused { IfErr result (λ e. MatchOption e.1
            (GetsOther (value_of (arc_value entrant.frame)) e.0 self.old self.new)
            (λ back. (back ≡ entrant.job) × (self.new ≡ self.old)
            × IsOfferTold self.old at (arc_value entrant.frame).geometry e.0)) }
        ensures never_no_place { IfErr result (λ e. e.0 ≢ Torn NoPlace) }
    {
        let Entrant { job, frame } = entrant;
        let Shared { book, total, .. } = shared;
        let number = match book.offer_job(self.rest.number, at, job) {
            Ok(number) => number,
            Err((refusal, job)) => return Err((self.judge_offer(at, &frame, refusal), Some(job))),
        };
        self.calls.count(book, total);
        self.moments = Some(Moments::with(self.moments, at));
        let next = self.keep(frame);
        if number != next {
            return Err((Refusal::Torn(Came::Number(number)), None));
        }
        Ok(number)
    }

    /// Whether the seat can keep one frame more. There are places for as many as the stream can have.
    fn has_place(&self) -> bool
        ensures { IsTrue result ↔ HasPlace self.now }
    {
        self.rest.kept.len() < self.rest.kept.capacity()
            && self.rest.accepted < self.rest.spec.frames()
    }

    /// Keeps a frame that was accepted, and tells the number that it should have.
    #[tactic(auto, using(crate::proofs::Keeping::sized_more, crate::proofs::Keeping::one_more_kept))]
    fn keep(&mut self, frame: Arc<Frame>) -> u64
        requires size { (arc_value frame).geometry ≡ self.old.chain.geometry }
        requires place { HasPlace self.old }
        ensures next { result ≡ self.old.accepted }
        ensures seat { self.new ≡ kept_more (value_of (arc_value frame)) self.old }
    {
        let next = self.rest.accepted;
        self.rest.kept.push_back_reserved(frame);
        self.rest.accepted += 1;
        next
    }

    /// What a frame is refused for whose job wasn't made: where the book would accept it, for want of memory.
    pub(crate) fn refusal(&self, shared: &Shared<L>, at: u64, frame: &Frame) -> Refusal
        ensures refused { IsOfferTold self.now at frame.now.geometry result }
        ensures never_no_place { result ≢ Torn NoPlace }
    {
        match self.offer_refusal(shared, at, frame) {
            Some(refusal) => refusal,
            None => self.judge_offer(at, frame, Refusal::Core(Core::NoMemory)),
        }
    }

    /// What a frame is refused for, want of memory aside, if it is.
    fn offer_refusal(&self, shared: &Shared<L>, at: u64, frame: &Frame) -> Option<Refusal>
        ensures refused { IfSome result (IsOfferTold self.now at frame.now.geometry) }
        ensures never_no_place { result ≢ Some (Torn NoPlace) }
        ensures accepts { IfNone result (IsOfferAnswer shared.now.book self.now.number at frame.now.geometry
            None) }
    {
        if let Some(came) = self.contradiction(shared) {
            return Some(Refusal::Torn(came));
        }
        let refusal = shared.book.offer_refusal(self.rest.number, at, frame);
        refusal.map(|refusal| self.judge_offer(at, frame, refusal))
    }

    /// A refusal of a frame as the seat is told it.
    fn judge_offer(&self, at: u64, frame: &Frame, refusal: Refusal) -> Refusal
        requires book { IsOfBook refusal }
        ensures refused { IsOfferTold self.now at frame.now.geometry result }
        ensures never_no_place { result ≢ Torn NoPlace }
    {
        match refusal {
            Refusal::HistoryFull => refusal,
            Refusal::StrayLease | Refusal::Torn(_) => unreachable!(),
            Refusal::Core(core) => {
                if self.allows_offer(at, frame.geometry(), core) {
                    refusal
                } else {
                    Refusal::Torn(Came::Refused(core))
                }
            }
        }
    }

    /// Whether the seat can be refused so for a frame of this geometry.
    fn allows_offer(&self, at: u64, geometry: Geometry, refusal: Core) -> bool
        ensures { IsTrue result ↔ AllowsOffer self.now at geometry refusal }
    {
        let is_sized = self.rest.spec.job().fits(geometry);
        match refusal {
            Core::ClockEnd => at > LAST_MOMENT,
            Core::Closed => self.rest.is_closed,
            Core::WrongSize => !is_sized,
            Core::TooManyFrames => self.rest.accepted == self.rest.spec.frames(),
            Core::Full => self.rest.kept.len() as u64 >= self.rest.spec.queue(),
            Core::NoMemory => is_sized,
            _ => false,
        }
    }
}
