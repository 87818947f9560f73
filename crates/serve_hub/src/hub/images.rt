//! Streams that threads close, and images that they collect.
ghost use Rattle.std.specs.Prelude.{◌≡◌, ◌≢◌, IfErr, IfOk, IsFalse, OnOk};
ghost use Rattle.serve_core.specs.declared.refusal.Refusal.TheVariants.{Empty};
ghost use Rattle.serve_hub.specs.declared.refusal.Refusal.TheVariants.{Core, HistoryFull};
ghost use Rattle.serve_hub.specs.Calls.{Closes, Gives, IsCloseTold, IsCollectRefused, noted};

use super::Hub;
use crate::epoch::Epoch;
use crate::refusal::Refusal;
use crate::refused::CollectRefused;
use crate::stream_seat::StreamSeat;
use serve_core::{Collected, Refusal as CoreRefusal};
use std::sync::Wait;

impl<L: Epoch> Hub<L> {
    /// The seat's stream accepts no more frames.
    pub fn close(&self, rt: &impl Wait, seat: &mut StreamSeat<L>) -> Result<(), Refusal>
        ensures closed { OnOk result (Closes seat.old seat.new) }
        ensures refused { IfErr result (λ e. IsCloseTold seat.old e × (seat.new ≡ noted e seat.old)) }
        ensures reserved { IfErr result (λ e. e ≢ HistoryFull) }
    {
        let mut shared = self.shared.lock(rt);
        let answer = seat.close(&mut shared);
        drop(shared);
        self.for_workers.notify_all();
        match answer {
            Ok(()) => Ok(()),
            Err(refusal) => {
                seat.note(refusal);
                Err(refusal)
            }
        }
    }

    /// The oldest image of the seat's stream, with its source. It waits for the lock alone.
    #[tactic(auto, using(crate::proofs::Giving::gives))]
    pub fn try_collect(
        &self,
        rt: &impl Wait,
        seat: &mut StreamSeat<L>,
    ) -> Result<Collected, CollectRefused>
        ensures given { IfOk result (λ pair. Gives pair seat.old seat.new) }
        ensures refused { IfErr result (λ e. IsCollectRefused e seat.old seat.new) }
    {
        let mut shared = self.shared.lock(rt);
        let was_blocked = shared.waits_for_room(seat.number());
        let answer = seat.collect(&mut shared);
        let may_be_ready = answer.is_ok() && was_blocked;
        let is_full = shared.is_full();
        drop(shared);
        if is_full {
            self.wake_all();
        } else if may_be_ready {
            self.for_workers.notify_one();
        }
        seat.compare(answer)
    }

    /// The oldest image of the seat's stream, with its source. It waits for one while the stream isn't
    /// drained and one can come.
    ///
    /// Where the stream is open and has no unfinished frame none comes, since this call has the seat, which
    /// alone offers frames and closes the stream: it waits until the journal is full, perhaps for ever.
    pub fn collect<R: Wait>(
        &self,
        rt: &R,
        seat: &mut StreamSeat<L>,
    ) -> Result<Collected, CollectRefused>
        ensures given { IfOk result (λ pair. Gives pair seat.old seat.new) }
        ensures refused { IfErr result (λ e. IsCollectRefused e seat.old seat.new) }
        ensures waited { IfErr result (λ e. e.refusal ≢ Core Empty) }
    {
        self.collect_or_wait(rt, seat, false)
    }

    /// The oldest image of the seat's stream, with its source. It waits for one that comes soon, and answers
    /// `Empty` where none does.
    ///
    /// One comes soon where the stream has a frame that isn't finished, the journal has a place for a lease,
    /// and no more streams have such frames than there are workers. A wait goes on where more streams get
    /// frames meanwhile.
    pub fn collect_soon<R: Wait>(
        &self,
        rt: &R,
        seat: &mut StreamSeat<L>,
    ) -> Result<Collected, CollectRefused>
        ensures given { IfOk result (λ pair. Gives pair seat.old seat.new) }
        ensures refused { IfErr result (λ e. IsCollectRefused e seat.old seat.new) }
    {
        self.collect_or_wait(rt, seat, true)
    }

    /// The oldest image of the seat's stream, with its source. It waits for one that can come, or only for
    /// one that comes soon.
    #[tactic(auto, using(crate::proofs::Giving::gives))]
    fn collect_or_wait<R: Wait>(
        &self,
        rt: &R,
        seat: &mut StreamSeat<L>,
        only_soon: bool,
    ) -> Result<Collected, CollectRefused>
        ensures given { IfOk result (λ pair. Gives pair seat.old seat.new) }
        ensures refused { IfErr result (λ e. IsCollectRefused e seat.old seat.new) }
        ensures waited { IsFalse only_soon → IfErr result (λ e. e.refusal ≢ Core Empty) }
    {
        let mut shared = self.shared.lock(rt);
        for _ in rt.forever() {
            let was_blocked = shared.waits_for_room(seat.number());
            match seat.collect(&mut shared) {
                Err(Refusal::Core(CoreRefusal::Empty)) => {}
                answer => {
                    let may_be_ready = answer.is_ok() && was_blocked;
                    let is_full = shared.is_full();
                    drop(shared);
                    if is_full {
                        self.wake_all();
                    } else if may_be_ready {
                        self.for_workers.notify_one();
                    }
                    return seat.compare(answer);
                }
            }
            if let Some(end) = shared.end_of_wait(seat.number(), only_soon) {
                return seat.compare(Err(end));
            }
            shared = self.for_stream(seat.number()).wait(rt, shared);
        }
        unreachable!()
    }
}
