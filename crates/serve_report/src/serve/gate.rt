//! The gates of a run.

use super::opening::Entrant;
use lease::LeaseReport;
use serve_watch::Watch;
use serve_work::Gate;
use std::alloc::{AllocError, Global};

/// A gate that notes nothing. Each band is done by one thread.
#[derive(Clone, Copy)]
pub struct PlainGate;

impl Gate for PlainGate {
    fn before_band(&self, _worker: u32, _stream: u32, _number: u64) {}

    fn allows_halves(&self, _samples: usize) -> bool {
        false
    }

    fn before_half(&self, _worker: u32, _half: u32) {}
}

/// A gate that tells a watch of leases. Each band is done by one thread.
#[derive(Drop)]
pub struct WatchedGate<'w, V: Watch> {
    watch: Option<&'w V>,
    /// The place of each stream of the session among all.
    places: Vec<usize>,
}

impl<'w, V: Watch> WatchedGate<'w, V> {
    /// A gate for a session of those that take part.
    pub fn new(
        alloc: Global,
        entrants: &[Entrant<'_>],
        watch: Option<&'w V>,
    ) -> Result<WatchedGate<'w, V>, AllocError> {
        let places = places_in(alloc, entrants)?;
        Ok(WatchedGate { watch, places })
    }
}

/// The places of those that take part in a session.
fn places_in(alloc: Global, entrants: &[Entrant<'_>]) -> Result<Vec<usize>, AllocError> {
    let mut places = Vec::new(alloc);
    for (place, entrant) in entrants.iter().enumerate() {
        if entrant.stop.is_none() {
            places.push(place)?;
        }
    }
    Ok(places)
}

impl<'w, V: Watch> Gate for WatchedGate<'w, V> {
    fn before_band(&self, _worker: u32, _stream: u32, _number: u64) {}

    fn allows_halves(&self, _samples: usize) -> bool {
        false
    }

    fn before_half(&self, _worker: u32, _half: u32) {}

    fn epoch_begins(&self) {
        if let Some(watch) = self.watch {
            watch.epoch_begins();
        }
    }

    fn follows_leases(&self) -> bool {
        match self.watch {
            Some(watch) => watch.follows_leases(),
            None => false,
        }
    }

    fn lease_begins(&self, worker: u32) {
        if let Some(watch) = self.watch {
            watch.lease_begins(worker);
        }
    }

    fn lease_ends(&self, worker: u32, report: LeaseReport, deadline: Option<(u64, u64)>) {
        if let (Some(watch), Some(place)) = (self.watch, self.places.get(report.stream as usize)) {
            watch.lease_ends(worker, *place, report, deadline);
        }
    }
}
