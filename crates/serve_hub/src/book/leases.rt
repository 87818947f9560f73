//! Leases that are given and settled, images that are given away, and streams that are closed.
ghost use Rattle.std.specs.Prelude.{◌≡◌, ◌↔◌, None, Some, IfErr, IfOk, IsTrue, OnOk};
ghost use Rattle.lease.specs.Lease.{spent_of};
ghost use Rattle.serve_core.specs.Desk.{GivesJob, IsRecorded};
ghost use Rattle.serve_core.specs.Schedule.{HasStream, IsFirst, stream_collected, with_stream_at};
ghost use Rattle.serve_core.specs.Schedule as schedules;
ghost use Rattle.serve_hub.specs.declared.entry.Act.TheVariants as acts;
ghost use Rattle.serve_hub.specs.declared.entry.Seat.TheVariants as seats;
ghost use Rattle.serve_hub.specs.Answers as answers;
ghost use Rattle.serve_hub.specs.Answers.{IsCollectAnswer, IsLeaseAnswer, RefusesClose, RefusesSettle};
ghost use Rattle.serve_hub.specs.Answers.{TakesLease};
ghost use Rattle.serve_hub.specs.Books.{Appends, IsOut, with_units};

use super::Book;
use crate::entry::{Act, Entry, Seat, Settled};
use crate::refusal::{Refusal, or_full};
use lease::{Lease, is_same_spec};
use serve_core::{Collected, Held, Refusal as CoreRefusal};

impl Book {
    /// Worker `w` gets the front job of the ready stream that has the earliest deadline, with the lease.
    pub fn lease(&mut self, w: u32) -> Result<Lease, Refusal>
        ensures entry { IfOk result (λ lease. Appends (seats.Worker w)
            (acts.Leased lease.stream lease.number lease.granted) self.old self.new) }
        ensures job { IfOk result (λ lease. GivesJob w lease self.old.desk self.new.desk) }
        ensures recorded { IfOk result (IsOut self.new w) }
        ensures answer { OnOk result (IsLeaseAnswer self.old w None) }
        ensures refused { IfErr result (λ e. IsLeaseAnswer self.old w (Some e) × (self.new ≡ self.old)) }
    {
        if self.room() < 2 {
            return Err(or_full(self.desk.lease_refusal(w)));
        }
        let lease = self.desk.lease(w)?;
        self.journal.push_reserved(Entry::new(
            Seat::Worker(w),
            Act::Leased(lease.stream(), lease.number(), lease.granted()),
        ));
        self.taken += 2;
        Ok(lease)
    }

    /// Worker `w` gives its lease back, with its job and all bands that were done. A refused lease comes
    /// back.
    pub fn settle(&mut self, w: u32, lease: Lease) -> Result<Settled, (Refusal, Lease)>
        ensures entry { IfOk result (λ done. Appends (seats.Worker w)
            (acts.Settled lease.used (answers.is_finished done))
            (with_units w (spent_of lease) self.old) self.new) }
        ensures job { IfOk result (λ done. TakesLease w lease done self.old.desk self.new.desk) }
        ensures recorded { OnOk result (IsOut self.old w lease) }
        ensures refused { IfErr result (λ e. RefusesSettle self.old w lease e.0) }
        ensures returns_lease { IfErr result (λ e. (e.1 ≡ lease) × (self.new ≡ self.old)) }
    {
        let held = match self.desk.lease_of_worker(w) {
            Ok(held) => held,
            Err(refusal) => return Err((Refusal::Core(refusal), lease)),
        };
        if !self.is_recorded(held, &lease) {
            return Err((Refusal::StrayLease, lease));
        }
        let (bands, units) = (lease.used(), lease.spent());
        let number = self.desk.take_back(w, held, lease);
        self.journal.push_reserved(Entry::new(
            Seat::Worker(w),
            Act::Settled(bands, number.is_some()),
        ));
        self.units[w as usize] += units as u64;
        Ok(settlement_of(number))
    }

    /// Whether the lease is what the desk has of it, with the chain and the first band of its stream.
    fn is_recorded(&self, held: Held, lease: &Lease) -> bool
        ensures { IsTrue result ↔ HasStream self.now.desk held.stream (IsRecorded lease.now held) }
    {
        let (Some(done), Some(spec)) = (self.desk.done(held.stream), self.desk.spec(held.stream))
        else {
            return false;
        };
        lease.stream() == held.stream
            && lease.number() == held.number
            && lease.granted() == held.grant
            && lease.done() - lease.used() == done
            && is_same_spec(lease.spec(), spec)
    }

    /// Stream `s` accepts no more frames.
    pub fn close(&mut self, s: u32) -> Result<(), Refusal>
        ensures entry { OnOk result (Appends (seats.Stream s) acts.Closed self.old self.new) }
        ensures stream { OnOk result (HasStream self.old.desk s (λ stream.
            self.new.desk ≡ with_stream_at s (schedules.stream_closed stream) self.old.desk)) }
        ensures refused { IfErr result (λ e. RefusesClose self.old s e × (self.new ≡ self.old)) }
    {
        self.desk.close(s)?;
        self.journal
            .push_reserved(Entry::new(Seat::Stream(s), Act::Closed));
        Ok(())
    }

    /// Gives the oldest image of stream `s` away, with its source.
    pub fn collect(&mut self, s: u32) -> Result<Collected, Refusal>
        ensures entry { OnOk result (HasStream self.old.desk s (λ stream.
            Appends (seats.Stream s) (acts.Collected stream.state.collected) self.old self.new)) }
        ensures pair { IfOk result (λ pair. HasStream self.old.desk s (λ stream. IsFirst pair stream
            × (self.new.desk ≡ with_stream_at s (stream_collected stream) self.old.desk))) }
        ensures answer { OnOk result (IsCollectAnswer self.old s None) }
        ensures opening { self.new.opening ≡ self.old.opening }
        ensures refused { IfErr result (λ e. IsCollectAnswer self.old s (Some e) × (self.new ≡ self.old)) }
    {
        if self.room() < 1 {
            return Err(or_full(self.desk.collect_refusal(s)));
        }
        let Some(counts) = self.desk.counts(s) else {
            return Err(Refusal::Core(CoreRefusal::NoStream));
        };
        let pair = self.desk.collect(s)?;
        self.journal.push_reserved(Entry::new(Seat::Stream(s), Act::Collected(counts.collected)));
        self.taken += 1;
        Ok(pair)
    }
}

/// What became of a frame that has this number if it is finished.
fn settlement_of(number: Option<u64>) -> Settled
    ensures { result ≡ answers.settled_as number }
{
    match number {
        None => Settled::Returned,
        Some(number) => Settled::Finished(number),
    }
}
