//! A worker: it leases jobs, does what is granted, and settles.
ghost use Rattle.std.specs.Prelude.{◌≡◌, ◌<◌, ◌+◌, ◌↔◌, IsTrue};
ghost use Rattle.lease.specs.Lease.{spent_of};
ghost use Rattle.filters.specs.Steps.{steps_of};
ghost use Rattle.serve_client.specs.Workers.{Works};

use crate::gate::Gate;
use lease::{Lease, LeaseReport};
use serve_hub::{Epoch, Hub, LeaseRefused, Refusal, WorkSeat};
use std::sync::Wait;
use std::thread::Threads;

/// Does the next band of a lease, by two threads where the gate says so.
fn step<G: Gate + Sync, T: Threads>(rt: &T, worker: u32, lease: &mut Lease, gate: &G)
    requires { lease.old.used < lease.old.granted }
    ensures { lease.new ≡ record lease.old { job = lease.new.job; used = lease.old.used + 1 } }
{
    gate.before_band(worker, lease.stream(), lease.number());
    let samples = lease.spec().chain().geometry().bytes();
    if gate.allows_halves(samples) {
        let _ = lease.step_halves(rt, &|half| gate.before_half(worker, half));
    } else {
        let _ = lease.step();
    }
}

/// Does all bands that were granted.
fn spend<G: Gate + Sync, T: Threads>(rt: &T, worker: u32, lease: &mut Lease, gate: &G)
    requires { lease.old.used ≡ 0 }
    ensures { lease.new ≡ record lease.old { job = lease.new.job; used = lease.old.granted } }
{
    let granted = lease.granted();
    for _done in 0..granted {
        step(rt, worker, lease, gate);
    }
}

/// Tells a gate that follows leases of one that was settled.
fn tell<L: Epoch, G: Gate, T: Wait>(
    rt: &T,
    hub: &Hub<L>,
    worker: u32,
    report: LeaseReport,
    gate: &G,
) {
    if gate.follows_leases() {
        let told = hub.deadline(rt, report.stream);
        let deadline = told.deadline().map(|deadline| (deadline, told.clock()));
        gate.lease_ends(worker, report, deadline);
    }
}

/// Why a settlement was refused. A lease that came back is given up, with its job.
fn drop_lease(refused: LeaseRefused) -> Refusal
    ensures { result ≡ refused.refusal }
{
    let LeaseRefused { refusal, lease } = refused;
    if let Some(lease) = lease {
        let _job = lease.into_job();
    }
    refusal
}

/// Leases jobs, does all bands that are granted, and settles, until a call is refused: `Drained` where all
/// streams are closed and done, and `HistoryFull` where the journal has no place for another lease.
///
/// Before each band it tells the gate, and a gate that follows leases of each one too. It holds no lock then,
/// nor while it filters. A lease whose settlement is refused is given up, with its job.
pub fn work<L: Epoch, G: Gate + Sync, T: Threads + Wait>(
    rt: &T,
    hub: &Hub<L>,
    seat: WorkSeat<L>,
    gate: &G,
) -> (WorkSeat<L>, Refusal)
    ensures { Works seat result.0 result.1 }
{
    let mut seat = seat;
    let mut lease = match hub.lease(rt, &mut seat) {
        Ok(lease) => lease,
        Err(refusal) => return (seat, refusal),
    };
    for _ in rt.forever() {
        if gate.follows_leases() {
            gate.lease_begins(seat.worker());
        }
        spend(rt, seat.worker(), &mut lease, gate);
        let report = lease.report();
        let next = match hub.settle_and_lease(rt, &mut seat, lease) {
            Ok((_, next)) => next,
            Err(refused) => return (seat, drop_lease(refused)),
        };
        tell(rt, hub, seat.worker(), report, gate);
        lease = match next {
            Some(next) => next,
            None => match hub.lease(rt, &mut seat) {
                Ok(next) => next,
                Err(refusal) => return (seat, refusal),
            },
        };
    }
    let _job = lease.into_job();
    unreachable!()
}
