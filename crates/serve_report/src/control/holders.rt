//! Streams that have ended and still hold a share of the workers, or a place.
ghost use Rattle.std.specs.Prelude.{◌≡◌, ◌≤◌, ◌<◌, [], IfOk, filter, nat_lt};
ghost use Rattle.std.specs.Prelude.{position, vec_len};
ghost use Rattle.std.specs.List.{list_all, list_any};
ghost use Rattle.std.specs.Vec.{vec_capacity};
ghost use Rattle.cbs_account.specs.declared.limits.TheConstants.{MOST_STREAMS};
ghost use Rattle.serve_report.specs.Holdings.{has_passed, held_at, held_by, holds_at, is_free_since};
ghost use Rattle.serve_report.specs.Holdings.{place_behind, with_holder};
ghost use Rattle.serve_report.specs.Places.{is_of};

use super::answer::Holding;
use super::order::Order;
use cbs_account::limits::MOST_STREAMS;
use std::alloc::{AllocError, Global};
use std::sync::Arc;

/// A stream that has ended, by the ticket that it was served under, and what it holds.
#[derive(Drop)]
pub struct Holder {
    pub order: Arc<Order, Global>,
    pub ticket: u64,
    /// Its share, in millionths of a worker.
    pub parts: u64,
    pub holding: Holding,
}

impl Holder {
    /// Whether its share isn't free yet at a moment.
    pub fn holds_at(&self, moment: u64) -> bool
        ensures { result ≡ holds_at moment self.now }
    {
        moment < self.holding.until
    }

    /// Whether its stream has this number among all that were asked for.
    pub fn is_of(&self, number: u64) -> bool
        ensures { result ≡ is_of self.now number }
    {
        self.order.number == number
    }

    /// What it holds at a moment, in millionths of a worker.
    fn parts_at(&self, moment: u64) -> u64
        ensures { result ≡ held_at moment self.now }
    {
        if self.holds_at(moment) { self.parts } else { 0 }
    }
}

/// Those who hold shares or places, in the order of their tickets, which is that of their streams' numbers. A
/// share is free when its deadline has passed. The place is when the workers have let the stream go, which
/// they do of all together whose shares are free, or of none.
#[derive(Drop)]
pub struct Holders {
    all: Vec<Holder>,
    /// The moment at which shares came free last.
    moment: u64,
    ghost room: { MOST_STREAMS ≤ vec_capacity all },
}

impl Holders {
    /// Nobody yet. There is memory for as many as there may be streams.
    pub fn new(alloc: Global) -> Result<Holders, AllocError>
        ensures nobody { IfOk result (λ holders. holders.all.items ≡ []) }
        ensures moment { IfOk result (λ holders. holders.moment ≡ 0) }
    {
        Ok(Holders {
            all: Vec::with_capacity(alloc, MOST_STREAMS)?,
            moment: 0,
        })
    }

    pub fn all(&self) -> &[Holder]
        ensures { result.now ≡ self.now.all.items }
    {
        &self.all
    }

    /// Takes one more.
    pub fn take(&mut self, holder: Holder)
        ensures holder { vec_len self.old.all < MOST_STREAMS
            → self.new.all.items ≡ with_holder holder self.old.all.items }
        ensures moment { self.new.moment ≡ self.old.moment }
    {
        let place = self.place_behind(holder.ticket);
        let _ = self.all.insert(place, holder).is_ok();
    }

    /// The place behind those whose tickets are lower.
    fn place_behind(&self, ticket: u64) -> usize
        ensures place { result ≡ place_behind ticket self.now.all.items }
        ensures within { result ≤ vec_len self.now.all }
    {
        match self.later(ticket) {
            Some(place) => place,
            None => self.all.len(),
        }
    }

    /// The place of the first whose ticket is higher.
    fn later(&self, ticket: u64) -> Option<usize>
        ensures { result ≡ position (λ one. nat_lt ticket one.ticket) self.now.all.items }
    {
        self.all.iter().position(|one| ticket < one.ticket)
    }

    /// Frees the shares that are free at a moment, for others. Who had them keep their places.
    pub fn release(&mut self, moment: u64)
        ensures all { self.new.all.items ≡ self.old.all.items }
        ensures moment { self.new.moment ≡ moment }
    {
        self.moment = moment;
    }

    /// Lets those go whose shares came free.
    pub fn retire(&mut self)
        ensures left { self.new.all.items ≡ filter (holds_at self.old.moment) self.old.all.items }
        ensures moment { self.new.moment ≡ self.old.moment }
    {
        let moment = self.moment;
        self.all.retain(|holder| holder.holds_at(moment));
    }

    /// Lets all go, since the workers serve nobody any more.
    pub fn clear(&mut self)
        ensures nobody { self.new.all.items ≡ [] }
        ensures moment { self.new.moment ≡ self.old.moment }
    {
        self.all.clear();
    }

    /// Whether a share is free at a moment that came free at none yet.
    pub fn have_passed(&self, moment: u64) -> bool
        ensures { result ≡ list_any (has_passed self.now.moment moment) self.now.all.items }
    {
        self.all.iter().any(|holder| holder.holds_at(self.moment) && !holder.holds_at(moment))
    }

    /// The shares that are held at a moment, in millionths of a worker. A number of 64 bits stays at its last
    /// value.
    pub fn parts_at(&self, moment: u64) -> u64
        ensures { result ≡ held_by moment self.now.all.items }
    {
        let mut parts = 0u64;
        for holder in &self.all {
            parts = parts.saturating_add(holder.parts_at(moment));
        }
        parts
    }

    /// Whether the shares that were free at a moment came free: none of them is held any more.
    pub fn are_free_since(&self, moment: u64) -> bool
        ensures { result ≡ list_all (is_free_since self.now.moment moment) self.now.all.items }
    {
        self.all.iter().all(|holder| holder.holds_at(moment) || !holder.holds_at(self.moment))
    }
}
