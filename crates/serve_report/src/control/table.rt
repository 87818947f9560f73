//! The streams of a run that haven't ended.
ghost use Rattle.std.specs.Prelude.{ℕ, ◌≡◌, ◌≤◌, ◌<◌, ◌*◌, ◌-◌, ◌⊎◌, ◌↔◌, [], IfErr, IfOk, IsErrOf};
ghost use Rattle.std.specs.Prelude.{◌++◌, ◌∷◌, IsOk, IsTrue, None, OnErr, OnOk, false, filter, position};
ghost use Rattle.std.specs.Prelude.{vec_len};
ghost use Rattle.std.specs.Arc.{arc_value};
ghost use Rattle.cbs_account.specs.Admission.{Fits, share, with_share};
ghost use Rattle.cbs_account.specs.Balance.{IsBandwidth};
ghost use Rattle.cbs_account.specs.declared.limits.TheConstants.{MOST_STREAMS, MOST_WORKERS, WHOLE};
ghost use Rattle.serve_report.specs.Holdings.{IsTaken, holds_at, kept_by, loaded, share_since, sum_within};
ghost use Rattle.serve_report.specs.Places.{IsTakenOut, is_next, places_taken};
ghost use Rattle.serve_report.specs.declared.control.entry.Stage.TheVariants.{Input};

use super::AdmitFault;
use super::answer::{Holding, Said};
use super::entry::Entry;
use super::holders::{Holder, Holders};
use super::order::Order;
use super::shares::{Share, share_beside, whole_of};
use super::still_read::StillRead;
use crate::serve::{FileUse, Ready};
use cbs_account::AdmissionError;
use cbs_account::limits::MOST_STREAMS;
use serve_files::{Files, Place};
use std::alloc::{AllocError, Global};
use std::sync::Arc;
use y4m_stream::{Sink, Source};

/// The streams of a run that are being opened, or wait to be served, or are, in the order in which they were
/// asked for, and those that have ended and hold a share. Each of the first keeps its share from when it was
/// asked for.
#[derive(Drop)]
pub struct Table<R: Source, W: Sink, S: Drop> {
    workers: u64,
    pub entries: Vec<Entry<R, W, S>>,
    pub holders: Holders,
    still_read: StillRead,
    /// How many times it is asked how the streams stand.
    pub asked: u64,
    /// Whether no stream is asked for any more.
    pub is_ended: bool,
    /// Whether nobody is served any more.
    is_given_up: bool,
    ghost fewest: { 1 ≤ workers },
    ghost most: { workers ≤ MOST_WORKERS },
}

impl<R: Source + Drop, W: Sink + Drop, S: Drop> Table<R, W, S> {
    /// No stream was asked for yet.
    pub fn new(alloc: Global, workers: u64) -> Result<Table<R, W, S>, AllocError>
        requires some_workers { 1 ≤ workers }
        requires most { workers ≤ MOST_WORKERS }
    {
        Ok(Table {
            workers,
            entries: Vec::with_capacity(alloc, MOST_STREAMS)?,
            holders: Holders::new(alloc)?,
            still_read: StillRead::new(alloc, MOST_STREAMS)?,
            asked: 0,
            is_ended: false,
            is_given_up: false,
        })
    }

    /// Whether a stream has the name.
    pub fn has_name(&self, name: &str) -> bool {
        self.entries.iter().any(|entry| entry.is_named(name))
    }

    /// Whether a stream other than that of this number uses the file in such a way that one of the two would
    /// lose by it.
    pub fn has_clash(&self, except: Option<u64>, file: &FileUse<'_>) -> bool {
        for entry in &self.entries {
            if except != Some(entry.order.number) && entry.clashes_with(file) {
                return true;
            }
        }
        self.still_read.has_clash(file)
    }

    /// Takes one more stream, which is being opened, if there is a place for it and its share is left at this
    /// moment. Where nobody is served any more it is closed at once.
    pub fn enter(
        &mut self,
        order: Arc<Order, Global>,
        moment: u64,
        input: Place,
        output: Place,
    ) -> Result<(), AdmitFault>
        ensures fits { OnOk result (IsBandwidth (arc_value order).q (arc_value order).t
            × Fits (with_share (arc_value order).q (arc_value order).t (loaded self.old.workers
            (kept_by (λ entry. entry.share) moment self.old.entries.items self.old.holders.all.items)))) }
        ensures keeps { OnOk result ((at : ℕ)
            → kept_by (λ entry. entry.share) at self.new.entries.items self.new.holders.all.items
            ≡ sum_within
            (kept_by (λ entry. entry.share) at self.old.entries.items self.old.holders.all.items)
            (share (arc_value order).q (arc_value order).t)) }
        ensures entered { OnOk result (self.new.entries.items ≡ self.old.entries.items
            ++ (record {
              order = order;
              input = input;
              output = output;
              stage = Input;
              share = share_since moment (arc_value order);
              held = None;
              is_loss_told = false;
            }) ∷ []) }
        ensures err { OnErr result (self.new.entries.items ≡ self.old.entries.items) }
        ensures no_place { IsErrOf result AdmitFault.TooManyStreams ↔ (MOST_STREAMS
            ≤ places_taken (vec_len self.old.entries) self.old.holders.all.items
            self.new.still_read.inputs.items) }
        ensures overload { IsErrOf result AdmitFault.Overload
            → IsBandwidth (arc_value order).q (arc_value order).t
            × ¬ Fits (with_share (arc_value order).q (arc_value order).t (loaded self.old.workers
            (kept_by (λ entry. entry.share) moment self.old.entries.items self.old.holders.all.items))) }
        ensures bad_bandwidth { IsErrOf result AdmitFault.BadBandwidth
            → ¬ IsBandwidth (arc_value order).q (arc_value order).t }
        ensures holders { self.new.holders ≡ self.old.holders }
        ensures workers { self.new.workers ≡ self.old.workers }
    {
        if self.places_left() == 0 {
            return Err(AdmitFault::TooManyStreams);
        }
        let share = self.share_of(&order, moment)?;
        if self.is_given_up {
            order.close();
        }
        match self.entries.push(Entry::new(order, share, input, output)) {
            Ok(()) => Ok(()),
            Err(_) => Err(AdmitFault::NoMemory),
        }
    }

    /// How many places are left.
    fn places_left(&mut self) -> usize
        ensures places { result ≡ MOST_STREAMS - places_taken (vec_len self.old.entries)
            self.old.holders.all.items self.new.still_read.inputs.items }
        ensures entries { self.new.entries ≡ self.old.entries }
        ensures holders { self.new.holders ≡ self.old.holders }
        ensures workers { self.new.workers ≡ self.old.workers }
    {
        let holders = self.holders.all();
        let others = self.still_read.count_beside(holders);
        let room = MOST_STREAMS.saturating_sub(self.entries.len());
        room.saturating_sub(holders.len()).saturating_sub(others)
    }

    /// The share of a stream, if it is left at this moment.
    fn share_of(&self, order: &Order, moment: u64) -> Result<Share, AdmitFault>
        ensures accepted { IsOk result ↔ (IsBandwidth order.now.q order.now.t
            × Fits (with_share order.now.q order.now.t (loaded self.now.workers
            (kept_by (λ entry. entry.share) moment self.now.entries.items self.now.holders.all.items)))) }
        ensures taken { IfOk result (IsTaken self.now.workers
            (kept_by (λ entry. entry.share) moment self.now.entries.items self.now.holders.all.items)
            order.now.q order.now.t moment) }
        ensures since { IfOk result (λ kept. kept ≡ share_since moment order.now) }
        ensures fault { IfErr result (λ e.
            ((e ≡ AdmitFault.BadBandwidth) × ¬ IsBandwidth order.now.q order.now.t)
            ⊎ ((e ≡ AdmitFault.Overload) × IsBandwidth order.now.q order.now.t)) }
    {
        let kept = self.kept_at(moment);
        match share_beside(kept, self.workers, order.q, order.t) {
            Ok(parts) => Ok(Share {
                parts,
                since: moment,
            }),
            Err(AdmissionError::BadBandwidth) => Err(AdmitFault::BadBandwidth),
            Err(AdmissionError::Overload) => Err(AdmitFault::Overload),
        }
    }

    /// The shares that are kept at a moment, in millionths of a worker. A number of 64 bits stays at its last
    /// value.
    fn kept_at(&self, moment: u64) -> u64
        ensures { result
            ≡ kept_by (λ entry. entry.share) moment self.now.entries.items self.now.holders.all.items }
    {
        let mut parts = self.holders.parts_at(moment);
        for entry in &self.entries {
            parts = parts.saturating_add(entry.share.parts);
        }
        parts
    }

    /// The moment at which a share was taken last, or this one, if that is later. By it no share counts twice
    /// that came free and was given on.
    pub fn latest(&self, moment: u64) -> u64 {
        let mut latest = moment;
        for entry in &self.entries {
            latest = latest.max(entry.share.since);
        }
        latest
    }

    /// What is told of the shares that are kept at a moment.
    pub fn shares_said(&self, moment: u64) -> Said<'_>
        ensures { result ≡ Said.Shares
            (kept_by (λ entry. entry.share) moment self.now.entries.items self.now.holders.all.items)
            (WHOLE * self.now.workers) }
    {
        Said::Shares(self.kept_at(moment), self.whole())
    }

    /// What the workers have, in millionths of one.
    fn whole(&self) -> u64
        ensures { result ≡ WHOLE * self.now.workers }
    {
        whole_of(self.workers)
    }

    /// The stream of this number among all that were asked for.
    pub fn entry_mut(&mut self, number: u64) -> Option<&mut Entry<R, W, S>> {
        self.entries
            .iter_mut()
            .find(|entry| entry.order.number == number)
    }

    /// The stream of this name.
    pub fn entry_named_mut(&mut self, name: &str) -> Option<&mut Entry<R, W, S>> {
        self.entries.iter_mut().find(|entry| entry.is_named(name))
    }

    /// The stream that is served under this ticket.
    pub fn entry_under(&self, ticket: u64) -> Option<&Entry<R, W, S>> {
        self.entries.iter().find(|entry| entry.is_served(ticket))
    }

    /// Takes the stream of this number out.
    pub fn take(&mut self, number: u64) -> Option<Entry<R, W, S>> {
        let place = self
            .entries
            .iter()
            .position(|entry| entry.order.number == number)?;
        Some(self.take_at(place))
    }

    /// Takes the stream out that is served under this ticket. From here on it holds this, unless it is the
    /// last one that is served: then nobody holds anything.
    pub fn end_served(
        &mut self,
        ticket: u64,
        holding: Option<Holding>,
        is_last: bool,
    ) -> Option<Entry<R, W, S>>
        ensures last { IsTrue is_last → self.new.holders.all.items ≡ [] }
    {
        let entry = self.take_served(ticket, holding);
        if is_last {
            self.holders.clear();
        }
        entry
    }

    /// Takes the stream out that is served under this ticket, which holds this from here on.
    fn take_served(&mut self, ticket: u64, holding: Option<Holding>) -> Option<Entry<R, W, S>> {
        let place = self
            .entries
            .iter()
            .position(|entry| entry.is_served(ticket))?;
        let entry = self.take_at(place);
        if let (Some(holding), Ok(order)) = (holding, Arc::try_clone(&entry.order)) {
            let parts = entry.share.parts;
            self.holders.take(Holder {
                order,
                ticket,
                parts,
                holding,
            });
        }
        Some(entry)
    }

    /// Takes a stream out. A FIFO of it that is still being read stays in use.
    fn take_at(&mut self, place: usize) -> Entry<R, W, S>
        requires { place < vec_len self.old.entries }
        ensures taken { IsTakenOut place self.old.entries.items self.new.entries.items result }
        ensures holders { self.new.holders ≡ self.old.holders }
    {
        let mut entry = self.entries.remove(place);
        entry.drop_held();
        self.still_read.keep(&entry);
        entry
    }

    /// The clock of the workers has gone on to a moment: the shares that are free at it are so from here on.
    pub fn goes_on(&mut self, at: u64)
        ensures holders { self.new.holders.all.items ≡ self.old.holders.all.items }
        ensures moment { self.new.holders.moment ≡ at }
        ensures entries { self.new.entries ≡ self.old.entries }
    {
        self.holders.release(at);
    }

    /// The workers have let those go whose shares are free. Their places are free from here on.
    pub fn retired(&mut self)
        ensures holders { self.new.holders.all.items
            ≡ filter (holds_at self.old.holders.moment) self.old.holders.all.items }
        ensures moment { self.new.holders.moment ≡ self.old.holders.moment }
        ensures entries { self.new.entries ≡ self.old.entries }
    {
        self.holders.retire();
    }

    /// Nobody is served any more: the streams are closed, and those that are being opened come back.
    pub fn give_up<F: Files<Slow = S>>(&mut self, files: &F)
    where
        S: 'static,
    {
        self.is_given_up = true;
        self.is_ended = true;
        self.close_all(files);
    }

    /// Closes the streams. What is being opened for one is let go.
    pub fn close_all<F: Files<Slow = S>>(&mut self, files: &F)
    where
        S: 'static,
    {
        for entry in &mut self.entries {
            entry.order.close();
            entry.hold_open(files);
        }
    }

    /// What the first stream is served with that waits to be, and whose share has come free. It is served
    /// under this ticket from here on.
    pub fn serve_next(&mut self, ticket: u64) -> Option<Ready<R, W>>
        ensures { self.new.holders ≡ self.old.holders }
    {
        let place = self.next_place()?;
        self.entries[place].serve(ticket)
    }

    /// Where the first stream stands that waits to be served, and whose share has come free.
    fn next_place(&self) -> Option<usize>
        ensures { result ≡ position (is_next self.now.holders.all.items self.now.holders.moment)
            self.now.entries.items }
    {
        self.entries.iter().position(|entry| self.is_next(entry))
    }

    /// Whether a stream waits to be served, and its share has come free.
    fn is_next(&self, entry: &Entry<R, W, S>) -> bool
        ensures { result ≡ is_next self.now.holders.all.items self.now.holders.moment entry.now }
    {
        entry.is_ready() && self.holders.are_free_since(entry.share.since)
    }

    /// How many streams are served.
    pub fn count_served(&self) -> usize {
        let mut count = 0usize;
        for entry in &self.entries {
            if !entry.is_unserved() {
                count = count.saturating_add(1);
            }
        }
        count
    }

    /// Whether a stream waits to be served.
    pub fn has_ready(&self) -> bool {
        self.entries.iter().any(|entry| entry.is_ready())
    }

    /// Calls the client of each stream.
    pub fn call_all(&self) {
        for entry in &self.entries {
            entry.order.reading.call();
        }
    }

    /// Whether a stream waits to be served, or it is asked how they stand.
    pub fn has_request(&self) -> bool {
        self.asked > 0 || self.has_ready()
    }

    /// Whether a stream lost its output, and that wasn't told.
    pub fn has_untold_loss(&self) -> bool {
        self.entries.iter().any(|entry| entry.has_untold_loss())
    }

    /// Whether an epoch is to end at a moment: a stream waits to be served, it is asked how they stand, or a
    /// share is free with which a place may come free.
    pub fn ends_epoch(&self, moment: u64) -> bool {
        self.has_request() || self.holders.have_passed(moment)
    }

    /// Whether a stream may yet come that waits to be served.
    pub fn may_call(&self) -> bool {
        !self.is_ended || self.entries.iter().any(|entry| entry.is_unserved())
    }
}
