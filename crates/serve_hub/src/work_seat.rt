//! The seat of a worker.
ghost use Rattle.std.specs.Prelude.{◌≡◌, ◌≢◌, ◌↔◌, IfErr, IfOk, IfSome, IsTrue, MatchOption, OnErr, length};
ghost use Rattle.serve_hub.specs.Calls.{FinishesOther, HasNumber, IsLeaseRefusal, IsOutcome};
ghost use Rattle.serve_hub.specs.Calls.{IsSettleRefusal, Leases, Settles};
ghost use Rattle.serve_hub.specs.Ends.{HasLeaseOut};
ghost use Rattle.serve_hub.specs.Seats.{opened_worker};

use crate::calls::Calls;
use crate::entry::{Act, Settled};
use crate::epoch::Epoch;
use crate::refusal::{Came, Refusal};
use crate::refused::LeaseRefused;
use crate::shared::Shared;
use lease::Lease;
use std::alloc::{AllocError, Global};
use std::marker::Model;
use std::sync::ledger::Share;

/// Who leases jobs of a hub, and settles them.
///
/// The seat keeps its calls that were accepted. It is a seat of the hub whose ledger has the name `L`.
/// Contracts see the `WorkSeatValue` of `specs/Seats.antt`.
#[derive(Drop)]
pub struct WorkSeat<L: Epoch> {
    number: u32,
    pub(crate) calls: Calls<L>,
}

impl<L: Epoch> Model for WorkSeat<L> {
    ghost use Rattle.serve_hub.specs.Seats.{WorkSeatValue};

    ghost Value = { WorkSeatValue };

    ghost view = { λ a. record { number = a.number; calls = a.calls } };
}

impl<L: Epoch> WorkSeat<L> {
    pub(crate) fn new(
        alloc: Global,
        number: u32,
        limit: usize,
        share: Share<L>,
    ) -> Result<WorkSeat<L>, AllocError>
        requires part { share.parts ≡ 1 }
        requires amount { share.amount ≡ 0 }
        ensures { IfOk result (λ seat. seat ≡ opened_worker limit number) }
    {
        let calls = Calls::new(alloc, limit, share)?;
        Ok(WorkSeat { number, calls })
    }

    /// The worker's number.
    pub fn worker(&self) -> u32
        ensures { result ≡ self.now.number }
    {
        self.number
    }

    /// Its calls that were accepted, the oldest first.
    pub fn calls(&self) -> &[Act]
        ensures { result.now ≡ self.now.calls.list }
    {
        &self.calls.list
    }

    /// Whether its latest call is a lease, which isn't settled.
    pub(crate) fn has_lease(&self) -> bool
        ensures { IsTrue result ↔ HasLeaseOut self.now }
    {
        matches!(self.calls.list.last(), Some(Act::Leased(_, _, _)))
    }

    pub(crate) fn lease(&mut self, shared: &mut Shared<L>) -> Result<Lease, Refusal>
        ensures given { IfOk result (λ lease. Leases lease self.old self.new) }
        ensures unused { IfOk result (λ lease. lease.used ≡ 0) }
        ensures refused { OnErr result (self.new ≡ self.old) }
        ensures refusals { IfErr result (IsLeaseRefusal self.old) }
    {
        if self.calls.limit != shared.limit {
            return Err(Refusal::Torn(Came::Limit(shared.limit)));
        }
        let Shared { book, total, .. } = shared;
        let lease = book.lease(self.number)?;
        self.calls.count(book, total);
        Ok(lease)
    }

    #[tactic(auto, using(crate::proofs::Outcomes::outcome, crate::proofs::Refusing::settle_told))]
    pub(crate) fn settle(
        &mut self,
        shared: &mut Shared<L>,
        lease: Lease,
    ) -> Result<Settled, LeaseRefused>
        ensures settled { IfOk result (λ done. Settles lease done self.old self.new) }
        ensures outcome { IfOk result (λ done. IsOutcome lease done × HasNumber lease done) }
        ensures refused { IfErr result (λ e. MatchOption e.lease
            (FinishesOther lease e.refusal self.old self.new)
            (λ back. (back ≡ lease) × (self.new ≡ self.old))) }
        ensures refusals { IfErr result (λ e. IfSome e.lease (λ _. IsSettleRefusal self.old e.refusal)) }
    {
        if self.calls.limit != shared.limit {
            return Err(LeaseRefused {
                refusal: Refusal::Torn(Came::Limit(shared.limit)),
                lease: Some(lease),
            });
        }
        let number = lease.number();
        let Shared { book, total, .. } = shared;
        let done = match book.settle(self.number, lease) {
            Ok(done) => done,
            Err((refusal, lease)) => {
                return Err(LeaseRefused {
                    refusal,
                    lease: Some(lease),
                });
            }
        };
        self.calls.count(book, total);
        let Settled::Finished(found) = done else {
            return Ok(done);
        };
        if found != number {
            return Err(LeaseRefused {
                refusal: Refusal::Torn(Came::Number(found)),
                lease: None,
            });
        }
        Ok(done)
    }
}
