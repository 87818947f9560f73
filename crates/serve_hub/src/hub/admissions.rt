//! Streams that are admitted while a hub is open.
ghost use Rattle.std.specs.Prelude.{◌≡◌, ◌≤◌, ◌<◌, [], IfErr, IfOk, length};
ghost use Rattle.serve_hub.specs.Calls.{Admits, IsAdmitRefused};
ghost use Rattle.serve_hub.specs.Seats.{opened_rest};

use super::Hub;
use crate::entry::Act;
use crate::epoch::Epoch;
use crate::refused::AdmitRefused;
use crate::rest::SeatRest;
use crate::stream_seat::StreamSeat;
use cbs_account::limits::MOST_STREAMS;
use serve_core::{Newcomer, StreamSpec};
use std::alloc::Global;
use std::sync::Wait;

/// The memory of a stream and of its seat, which has no number yet.
type Made = (Newcomer, SeatRest, Vec<Act>);

impl<L: Epoch> Hub<L> {
    /// One stream more, with its seat, whose first call is its admission. It has the number behind all
    /// others.
    ///
    /// It takes the memory for the stream and its seat before it takes the lock; only the list of streams may
    /// grow under it. All waiting workers are woken; one that was answered
    /// [`Drained`](serve_core::Refusal::Drained) isn't called back.
    pub fn admit(
        &self,
        rt: &impl Wait,
        alloc: Global,
        spec: StreamSpec,
    ) -> Result<StreamSeat<L>, AdmitRefused>
        ensures seat { IfOk result (Admits spec) }
        ensures behind { IfOk result (λ seat. length L.opening.streams ≤ seat.number) }
        ensures number_in_range { IfOk result (λ seat. seat.number < MOST_STREAMS) }
        ensures refused { IfErr result (IsAdmitRefused spec) }
    {
        let (newcomer, rest, list) = match make_newcomer(alloc, self.limit, spec) {
            Ok(made) => made,
            Err(spec) => return Err(self.refuse_without_memory(rt, spec)),
        };
        let mut shared = self.shared.lock(rt);
        let answer = shared.admit(newcomer, rest, list);
        let is_full = shared.is_full();
        drop(shared);
        self.for_workers.notify_all();
        self.wake_if_full(is_full);
        answer
    }

    /// What a stream is refused for whose memory, or whose seat's, was refused.
    fn refuse_without_memory(&self, rt: &impl Wait, spec: StreamSpec) -> AdmitRefused
        ensures { IsAdmitRefused spec result }
    {
        let shared = self.shared.lock(rt);
        let refusal = shared.book.refusal_without_memory(&spec);
        AdmitRefused { refusal, spec }
    }
}

/// Makes a stream, and what its seat needs for so many calls. The spec comes back where no stream may have
/// it, or where memory is refused.
fn make_newcomer(alloc: Global, limit: usize, spec: StreamSpec) -> Result<Made, StreamSpec>
    ensures newcomer { IfOk result (λ made. made.0 ≡ spec) }
    ensures rest { IfOk result (λ made. made.1 ≡ opened_rest made.1.number spec) }
    ensures list { IfOk result (λ made. made.2.items ≡ []) }
    ensures returns_spec { IfErr result (λ back. back ≡ spec) }
{
    let newcomer = match Newcomer::new(alloc, spec) {
        Ok(newcomer) => newcomer,
        Err((_, spec)) => return Err(spec),
    };
    let (Ok(rest), Ok(list)) = (
        SeatRest::new(alloc, 0, newcomer.spec()),
        Vec::with_capacity(alloc, limit),
    ) else {
        return Err(newcomer.into_spec());
    };
    Ok((newcomer, rest, list))
}
