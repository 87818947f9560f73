//! Leases that threads get and settle.
ghost use Rattle.std.specs.Prelude.{◌≡◌, ◌≢◌, IfErr, IfOk, IfSome, OnErr};
ghost use Rattle.serve_core.specs.declared.refusal.Refusal.TheVariants.{NoneReady};
ghost use Rattle.serve_hub.specs.declared.refusal.Refusal.TheVariants.{Core};
ghost use Rattle.serve_hub.specs.Calls.{HasNumber, IsEndOfLeases, IsLeaseRefusal, IsOutcome};
ghost use Rattle.serve_hub.specs.Calls.{IsSettleRefusal, IsSettleRefused, Leases, Settles, SettlesAndLeases};

use super::Hub;
use crate::entry::Settled;
use crate::epoch::Epoch;
use crate::refusal::Refusal;
use crate::refused::LeaseRefused;
use crate::work_seat::WorkSeat;
use lease::Lease;
use serve_core::Refusal as CoreRefusal;
use std::sync::Wait;

impl<L: Epoch> Hub<L> {
    /// The front job of the ready stream that has the earliest deadline, with the lease. It waits for the
    /// lock alone.
    pub fn try_lease(&self, rt: &impl Wait, seat: &mut WorkSeat<L>) -> Result<Lease, Refusal>
        ensures given { IfOk result (λ lease. Leases lease seat.old seat.new) }
        ensures unused { IfOk result (λ lease. lease.used ≡ 0) }
        ensures refused { OnErr result (seat.new ≡ seat.old) }
        ensures refusals { IfErr result (IsLeaseRefusal seat.old) }
    {
        let mut shared = self.shared.lock(rt);
        let answer = seat.lease(&mut shared);
        let is_full = shared.is_full();
        drop(shared);
        self.wake_if_full(is_full);
        answer
    }

    /// The front job of the ready stream that has the earliest deadline, with the lease. It waits for a ready
    /// stream while there is more to lease.
    pub fn lease<R: Wait>(&self, rt: &R, seat: &mut WorkSeat<L>) -> Result<Lease, Refusal>
        ensures given { IfOk result (λ lease. Leases lease seat.old seat.new) }
        ensures unused { IfOk result (λ lease. lease.used ≡ 0) }
        ensures waited { IfErr result (λ e. e ≢ Core NoneReady) }
        ensures refused { OnErr result (seat.new ≡ seat.old) }
        ensures refusals { IfErr result (IsEndOfLeases seat.old) }
    {
        let mut shared = self.shared.lock(rt);
        for _ in rt.forever() {
            match seat.lease(&mut shared) {
                Err(Refusal::Core(CoreRefusal::NoneReady)) => {}
                answer => {
                    let is_full = shared.is_full();
                    drop(shared);
                    self.wake_if_full(is_full);
                    return answer;
                }
            }
            if let Some(end) = shared.end_of_work() {
                return Err(end);
            }
            shared = self.for_workers.wait(rt, shared);
        }
        unreachable!()
    }

    /// The worker gives its lease back, with its job and all bands that were done.
    ///
    /// Another worker is woken where the stream has a frame that isn't finished: who settles need not ask for
    /// another lease.
    pub fn settle(
        &self,
        rt: &impl Wait,
        seat: &mut WorkSeat<L>,
        lease: Lease,
    ) -> Result<Settled, LeaseRefused>
        ensures settled { IfOk result (λ done. Settles lease done seat.old seat.new) }
        ensures outcome { IfOk result (λ done. IsOutcome lease done × HasNumber lease done) }
        ensures refused { IfErr result (λ e. IsSettleRefused lease e seat.old seat.new) }
        ensures refusals { IfErr result (λ e. IfSome e.lease (λ _. IsSettleRefusal seat.old e.refusal)) }
    {
        let stream = lease.stream();
        let mut shared = self.shared.lock(rt);
        let answer = seat.settle(&mut shared, lease);
        let (is_full, is_over) = (shared.is_full(), shared.book.desk().is_over());
        let has_work = shared.has_work(stream);
        drop(shared);
        if !matches!(answer, Ok(Settled::Returned)) {
            self.for_stream(stream).notify_all();
        }
        if is_over {
            self.for_workers.notify_all();
        }
        if has_work && !is_full {
            self.for_workers.notify_one();
        }
        self.wake_if_full(is_full);
        answer
    }

    /// The worker gives its lease back, as by [`Hub::settle`], and gets the next one, as by
    /// [`Hub::try_lease`], under the lock once. Where it gets none, a lease that is asked for tells why.
    ///
    /// Another worker is woken only where the stream is left with a frame and this one goes on with another's.
    pub fn settle_and_lease(
        &self,
        rt: &impl Wait,
        seat: &mut WorkSeat<L>,
        lease: Lease,
    ) -> Result<(Settled, Option<Lease>), LeaseRefused>
        ensures settled { IfOk result (λ ans. SettlesAndLeases lease ans.0 ans.1 seat.old seat.new) }
        ensures outcome { IfOk result (λ ans. IsOutcome lease ans.0 × HasNumber lease ans.0) }
        ensures unused { IfOk result (λ ans. IfSome ans.1 (λ next. next.used ≡ 0)) }
        ensures refused { IfErr result (λ e. IsSettleRefused lease e seat.old seat.new) }
        ensures refusals { IfErr result (λ e. IfSome e.lease (λ _. IsSettleRefusal seat.old e.refusal)) }
    {
        let stream = lease.stream();
        let mut shared = self.shared.lock(rt);
        let settled = match seat.settle(&mut shared, lease) {
            Ok(settled) => settled,
            Err(refused) => {
                drop(shared);
                self.wake_all();
                return Err(refused);
            }
        };
        let next = seat.lease(&mut shared).ok();
        let (is_full, is_over) = (shared.is_full(), shared.book.desk().is_over());
        let is_left = match &next {
            Some(next) => next.stream() != stream && shared.has_work(stream),
            None => false,
        };
        drop(shared);
        if settled != Settled::Returned {
            self.for_stream(stream).notify_all();
        }
        if is_over {
            self.for_workers.notify_all();
        } else if is_left && !is_full {
            self.for_workers.notify_one();
        }
        self.wake_if_full(is_full);
        Ok((settled, next))
    }
}
