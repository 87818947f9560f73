//! The tickets of those who were let in at a door.
ghost use Rattle.std.specs.Prelude.{ℕ, ◌≡◌, ◌≢◌, ◌<◌, ◌↔◌, ◌++◌, ◌∷◌, [], All, List, IfOk, IsTrue};
ghost use Rattle.std.specs.Prelude.{MatchOption, length, slice_index};

use cbs_account::limits::MOST_STREAMS;
use std::alloc::{AllocError, Global};
use std::marker::Model;

/// The tickets that were given and not taken back, the oldest first. No two are the same.
#[derive(Drop)]
pub struct Tickets {
    given: Vec<u64>,
    /// The next one.
    next: u64,
}

impl Model for Tickets {
    ghost use Rattle.std.specs.Prelude.{ℕ, ◌<◌, All, AllPairs, List};

    ghost Value = { List ℕ };

    ghost view = { λ tickets. tickets.given.items };

    ghost invariant = { λ tickets. AllPairs (λ one later. one < later) tickets.given.items
        × All (λ one. one < tickets.next) tickets.given.items };
}

impl Tickets {
    /// None was given yet. There is memory for as many as there may be streams.
    pub fn new(alloc: Global) -> Result<Tickets, AllocError>
        ensures { IfOk result (λ tickets. tickets ≡ []) }
    {
        Ok(Tickets {
            given: Vec::with_capacity(alloc, MOST_STREAMS)?,
            next: 0,
        })
    }

    /// Gives a ticket, unless as many are out as there may be.
    pub fn give(&mut self) -> Option<u64>
        ensures { MatchOption result (self.new ≡ self.old) (λ ticket. self.new ≡ self.old ++ ticket ∷ []) }
    {
        let ticket = self.next;
        if ticket == u64::MAX || self.given.push(ticket).is_err() {
            return None;
        }
        self.next = ticket + 1;
        Some(ticket)
    }

    /// Whether none is out.
    pub fn is_empty(&self) -> bool
        ensures { IsTrue result ↔ (self.now ≡ []) }
    {
        self.given.is_empty()
    }

    /// Takes a ticket back, if it was given.
    pub fn take(&mut self, ticket: u64)
        ensures { (before after : List ℕ) → self.old ≡ before ++ ticket ∷ after → self.new ≡ before ++ after }
    {
        if let Some(place) = self.place_of(ticket) {
            self.given.remove(place);
        }
    }

    /// Where the ticket stands, if it was given.
    fn place_of(&self, ticket: u64) -> Option<usize>
        ensures { MatchOption result (All (λ one. one ≢ ticket) self.now)
            (λ place. (place < length self.now) × (slice_index self.now place ≡ ticket)) }
    {
        for place in 0..self.given.len() {
            if self.given[place] == ticket {
                return Some(place);
            }
        }
        None
    }
}
