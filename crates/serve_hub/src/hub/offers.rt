//! Frames that threads offer.
ghost use Rattle.std.specs.Prelude.{◌≡◌, IfErr, IfNone, IfOk, IfSome, MatchOption, OnOk};
ghost use Rattle.std.specs.Arc.{arc_value};
ghost use Rattle.filters.specs.ChainImage.{value_of};
ghost use Rattle.serve_core.specs.Streams.{IsFresh, IsImageOf};
ghost use Rattle.serve_hub.specs.Calls.{Accepts, AcceptsOther, AnswersOffer, IsOfferTold, Notes, noted};

use super::Hub;
use crate::epoch::Epoch;
use crate::offer::Offer;
use crate::refusal::Refusal;
use crate::refused::OfferRefused;
use crate::stream_seat::{Entrant, StreamSeat};
use cbs_account::limits::LAST_MOMENT;
use frame_view::Frame;
use lease::Job;
use serve_core::Refusal as CoreRefusal;
use std::alloc::Global;
use std::sync::Wait;

impl<L: Epoch> Hub<L> {
    /// The seat's stream is offered a frame at a moment, or now if that is later. It answers the frame's
    /// number.
    ///
    /// It makes the frame's job before it takes the lock. Over the memory of an image it takes more only for
    /// the frame's line, and only where the image has another.
    pub fn offer(
        &self,
        rt: &impl Wait,
        alloc: Global,
        seat: &mut StreamSeat<L>,
        offer: Offer,
    ) -> Result<u64, OfferRefused>
        requires { IfSome offer.memory (IsImageOf seat.old.chain) }
        ensures { AnswersOffer offer result seat.old seat.new }
    {
        if offer.at > LAST_MOMENT {
            return Err(OfferRefused {
                refusal: Refusal::Core(CoreRefusal::ClockEnd),
                offer: Some(offer),
            });
        }
        let Offer { at, frame, memory } = offer;
        match seat.job(alloc, frame, memory) {
            Err((frame, memory)) => Err(OfferRefused {
                refusal: self.refusal(rt, seat, at, &frame),
                offer: Some(Offer { at, frame, memory }),
            }),
            Ok(entrant) => match self.enter(rt, seat, at, entrant) {
                Ok(number) => Ok(number),
                Err((refusal, None)) => Err(OfferRefused {
                    refusal,
                    offer: None,
                }),
                Err((refusal, Some(job))) => {
                    let (frame, image) = job.undo();
                    let memory = Some(image);
                    Err(OfferRefused {
                        refusal,
                        offer: Some(Offer { at, frame, memory }),
                    })
                }
            },
        }
    }

    /// Offers a job, and wakes a worker for it where it doesn't come back and no frame of the stream is
    /// before it.
    fn enter(
        &self,
        rt: &impl Wait,
        seat: &mut StreamSeat<L>,
        at: u64,
        entrant: Entrant,
    ) -> Result<u64, (Refusal, Option<Job>)>
        requires fresh { IsFresh seat.old.chain entrant.job }
        requires size { (arc_value entrant.frame).geometry ≡ seat.old.chain.geometry }
        ensures accepted { IfOk result (λ n. (n ≡ seat.old.accepted)
            × Accepts (value_of (arc_value entrant.frame)) n seat.old seat.new) }
        ensures moment { OnOk result (Notes at seat.old seat.new) }
        ensures other_moment { IfErr result (λ e. IfNone e.1 (Notes at seat.old seat.new)) }
        ensures refused { IfErr result (λ e. MatchOption e.1
            (AcceptsOther (value_of (arc_value entrant.frame)) e.0 seat.old seat.new)
            (λ back. (back ≡ entrant.job) × (seat.new ≡ noted e.0 seat.old)
            × IsOfferTold seat.old at (arc_value entrant.frame).geometry e.0)) }
    {
        let mut shared = self.shared.lock(rt);
        let had_work = shared.has_work(seat.number());
        let answer = seat.offer(&mut shared, at, entrant);
        let is_full = shared.is_full();
        drop(shared);
        if is_full {
            self.wake_all();
        } else if !had_work && !matches!(answer, Err((_, Some(_)))) {
            self.for_workers.notify_one();
        }
        match answer {
            Ok(number) => Ok(number),
            Err(refused) => {
                seat.note(refused.0);
                Err(refused)
            }
        }
    }

    /// What a frame is refused for whose job wasn't made.
    fn refusal(&self, rt: &impl Wait, seat: &mut StreamSeat<L>, at: u64, frame: &Frame) -> Refusal
        ensures refused { IsOfferTold seat.old at frame.now.geometry result }
        ensures seat { seat.new ≡ noted result seat.old }
    {
        let shared = self.shared.lock(rt);
        let refusal = seat.refusal(&shared, at, frame);
        drop(shared);
        seat.note(refusal);
        refusal
    }
}
