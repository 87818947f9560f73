//! Inputs of streams that have ended.
ghost use Rattle.std.specs.Prelude.{◌≡◌, ◌≤◌, filter, length, vec_len};
ghost use Rattle.std.specs.List.{list_any};
ghost use Rattle.serve_report.specs.Places.{is_beside, is_of};

use super::entry::Entry;
use super::holders::Holder;
use crate::serve::FileUse;
use serve_files::{Place, Reading};
use std::alloc::{AllocError, Global};
use y4m_stream::{Sink, Source};

/// An input whose stream has ended while a read of it waited.
#[derive(Drop)]
struct Left {
    /// The number of its stream among all that were asked for.
    number: u64,
    input: Place,
    reading: Reading,
}

impl Left {
    /// Whether its stream is one of those.
    fn is_among(&self, holders: &[Holder]) -> bool
        ensures { result ≡ list_any (λ holder. is_of holder self.now.number) holders.now }
    {
        holders.iter().any(|holder| holder.is_of(self.number))
    }

    /// Whether its stream is none of those.
    fn is_beside(&self, holders: &[Holder]) -> bool
        ensures { result ≡ is_beside holders.now self.now }
    {
        !self.is_among(holders)
    }
}

/// The inputs of streams that have ended of which a read hasn't come back yet. What that read brings is lost,
/// so no other stream may have the FIFO before.
#[derive(Drop)]
pub struct StillRead {
    inputs: Vec<Left>,
}

impl StillRead {
    /// None yet, and room for so many.
    pub fn new(alloc: Global, most: usize) -> Result<StillRead, AllocError> {
        let inputs = Vec::with_capacity(alloc, most)?;
        Ok(StillRead { inputs })
    }

    /// Takes the input of a stream that has ended, if a read of it waits.
    pub fn keep<R: Source + Drop, W: Sink + Drop, S: Drop>(&mut self, entry: &Entry<R, W, S>) {
        let Some(reading) = entry.order.reading.for_another() else {
            return;
        };
        if reading.is_on() {
            let _ = self.inputs.push(Left {
                number: entry.order.number,
                input: entry.input(),
                reading,
            });
        }
    }

    /// How many there are whose streams are none of those. The inputs whose read came back are let go.
    pub fn count_beside(&mut self, holders: &[Holder]) -> usize
        ensures count { result ≡ length (filter (is_beside holders.now) self.new.inputs.items) }
        ensures fewer { vec_len self.new.inputs ≤ vec_len self.old.inputs }
    {
        self.inputs.retain(|left| left.reading.is_on());
        self.count_left(holders)
    }

    /// How many there are whose streams are none of those.
    fn count_left(&self, holders: &[Holder]) -> usize
        ensures { result ≡ length (filter (is_beside holders.now) self.now.inputs.items) }
    {
        let mut count = 0;
        for left in &self.inputs {
            if left.is_beside(holders) {
                count += 1;
            }
        }
        count
    }

    /// Whether the file is one of these FIFOs.
    pub fn has_clash(&self, file: &FileUse<'_>) -> bool {
        for left in &self.inputs {
            let input = FileUse::input("", left.input);
            if left.reading.is_on() && input.clashes_with(file) {
                return true;
            }
        }
        false
    }
}
