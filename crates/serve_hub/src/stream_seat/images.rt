//! Images that a seat collects, and its close.
ghost use Rattle.std.specs.Prelude.{◌≡◌, ◌≢◌, ◌-◌, Ok, None, IfErr, IfOk, IfSome, MatchResult, OnOk};
ghost use Rattle.std.specs.Prelude.{slice_get};
ghost use Rattle.std.specs.Arc.{arc_value};
ghost use Rattle.std.specs.Option.{option_map};
ghost use Rattle.filters.specs.ChainImage.{value_of};
ghost use Rattle.serve_core.specs.Streams.{source_in};
ghost use Rattle.serve_hub.specs.declared.refusal.Refusal.TheVariants.{HistoryFull};
ghost use Rattle.serve_hub.specs.Calls.{Closes, Collects, IsCloseTold, IsCollectTold, IsOfBook, IsOldest};
ghost use Rattle.serve_hub.specs.Calls.{IsOther, after_refusal, gives_up};
ghost use Rattle.serve_hub.specs.Seats.{collected_by, torn_at};

use super::StreamSeat;
use crate::epoch::Epoch;
use crate::refusal::{Came, Refusal};
use crate::refused::CollectRefused;
use crate::shared::Shared;
use frame_view::{Frame, is_same_frame};
use serve_core::{Collected, Refusal as Core};
use std::sync::Arc;

impl<L: Epoch> StreamSeat<L> {
    pub(crate) fn close(&mut self, shared: &mut Shared<L>) -> Result<(), Refusal>
        ensures closed { OnOk result (Closes self.old self.new) }
        ensures refused { IfErr result (λ e. IsCloseTold self.old e × (self.new ≡ self.old)) }
        ensures reserved { IfErr result (λ e. e ≢ HistoryFull) }
    {
        if let Some(came) = self.contradiction(shared) {
            return Err(Refusal::Torn(came));
        }
        let Shared { book, total, .. } = shared;
        match book.close(self.rest.number) {
            Err(refusal) => Err(self.judge_close(refusal)),
            Ok(()) => {
                self.calls.count(book, total);
                self.rest.is_closed = true;
                Ok(())
            }
        }
    }

    /// Takes an image out of the book. It isn't compared yet.
    pub(crate) fn collect(&mut self, shared: &mut Shared<L>) -> Result<Collected, Refusal>
        ensures given { IfOk result (λ pair. Collects pair self.old self.new) }
        ensures keeps_frames { OnOk result (self.new.kept ≡ self.old.kept) }
        ensures refused { IfErr result (λ e. IsCollectTold self.old e × (self.new ≡ self.old)) }
    {
        if let Some(came) = self.contradiction(shared) {
            return Err(Refusal::Torn(came));
        }
        let Shared { book, total, .. } = shared;
        let pair = match book.collect(self.rest.number) {
            Ok(pair) => pair,
            Err(refusal) => return Err(self.judge_collect(refusal)),
        };
        self.calls.count(book, total);
        Ok(pair)
    }

    /// Takes the oldest frame that the seat keeps off, and compares it with the source of the image that was
    /// collected. A refusal that is told as Torn gives that frame up too.
    pub(crate) fn compare(
        &mut self,
        answer: Result<Collected, Refusal>,
    ) -> Result<Collected, CollectRefused>
        ensures given { IfOk result (λ pair. (answer ≡ Ok pair) × IsOldest pair self.old
            × (self.new ≡ gives_up self.old)) }
        ensures size { IfOk result (λ pair. (source_in pair).geometry ≡ self.old.chain.geometry) }
        ensures refused { IfErr result (λ e. MatchResult answer (λ pair. IsOther pair e self.old
            × (self.new ≡ torn_at (collected_by self.old - 1) (gives_up self.old)))
            (λ refusal. (e.refusal ≡ refusal) × (e.pair ≡ None)
            × (self.new ≡ after_refusal refusal self.old))) }
    {
        let refusal = match answer {
            Ok(pair) => return self.take(pair),
            Err(refusal) => refusal,
        };
        if let Refusal::Torn(_) = refusal {
            self.note(refusal);
            drop(self.give_up());
        }
        Err(CollectRefused {
            refusal,
            pair: None,
        })
    }

    /// Gives the oldest frame up, and tells it.
    #[tactic(auto, using(crate::proofs::Keeping::first_sized, crate::proofs::Keeping::rest_kept))]
    fn give_up(&mut self) -> Option<Arc<Frame>>
        ensures oldest { option_map (λ f. value_of (arc_value f)) result ≡ slice_get self.old.kept 0 }
        ensures size { IfSome result (λ f. (arc_value f).geometry ≡ self.old.chain.geometry) }
        ensures seat { self.new ≡ gives_up self.old }
    {
        self.rest.kept.pop_front()
    }

    /// Takes the oldest frame off, and compares it with the pair's source. Where that is another frame, one
    /// image fewer was collected before.
    #[tactic(auto, using(crate::proofs::Keeping::same_size))]
    fn take(&mut self, pair: Collected) -> Result<Collected, CollectRefused>
        ensures given { IfOk result (λ given. (given ≡ pair) × IsOldest pair self.old) }
        ensures size { OnOk result ((source_in pair).geometry ≡ self.old.chain.geometry) }
        ensures other { IfErr result (λ e. IsOther pair e self.old) }
        ensures seat { OnOk result (self.new ≡ gives_up self.old) }
        ensures torn { IfErr result (λ _.
            self.new ≡ torn_at (collected_by self.old - 1) (gives_up self.old)) }
    {
        match self.give_up() {
            Some(oldest) if is_same_frame(&oldest, &pair.source) => Ok(pair),
            _ => {
                self.tear(self.collected().saturating_sub(1));
                Err(CollectRefused {
                    refusal: Refusal::Torn(Came::Source),
                    pair: Some(pair),
                })
            }
        }
    }

    fn judge_close(&self, refusal: Refusal) -> Refusal
        requires book { IsOfBook refusal }
        requires reserved { refusal ≢ HistoryFull }
        ensures refused { IsCloseTold self.now result }
        ensures reserved { result ≢ HistoryFull }
    {
        match refusal {
            Refusal::HistoryFull | Refusal::StrayLease | Refusal::Torn(_) => unreachable!(),
            Refusal::Core(Core::AlreadyClosed) if self.is_closed() => refusal,
            Refusal::Core(core) => Refusal::Torn(Came::Refused(core)),
        }
    }

    fn judge_collect(&self, refusal: Refusal) -> Refusal
        requires book { IsOfBook refusal }
        ensures { IsCollectTold self.now result }
    {
        match refusal {
            Refusal::HistoryFull | Refusal::Core(Core::Empty) => refusal,
            Refusal::StrayLease | Refusal::Torn(_) => unreachable!(),
            Refusal::Core(Core::Drained) if self.is_closed() && self.kept() == 0 => refusal,
            Refusal::Core(core) => Refusal::Torn(Came::Refused(core)),
        }
    }
}
