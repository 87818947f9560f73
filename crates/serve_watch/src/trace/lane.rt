//! Records on their way to the file of a trace.
ghost use Rattle.std.specs.Prelude.{◌≡◌, [], ◌++◌, codes, IfOk, IfSome, OnOk};

use std::alloc::{AllocError, Global};
use std::fmt::Display;
use std::io::{self, Write};
use std::marker::Model;

/// The bytes that are reserved for a lane.
const ROOM: usize = 1 << 14;

/// More bytes than a record has: a name has at most 32, and each of its eight numbers at most 20.
const LONGEST: usize = 512;

/// Whole records that aren't written yet, in memory that was reserved.
#[derive(Drop)]
pub struct Lane {
    text: Vec<u8>,
}

/// Their text.
impl Model for Lane {
    ghost use Rattle.std.specs.Prelude.{ℕ, List};

    ghost Value = { List ℕ };

    ghost view = { λ lane. lane.text.items };
}

impl Lane {
    /// A lane without records.
    pub fn new(alloc: Global) -> Result<Lane, AllocError>
        ensures { IfOk result (λ lane. lane ≡ []) }
    {
        Ok(Lane {
            text: Vec::with_capacity(alloc, ROOM)?,
        })
    }

    /// Whether one more record might not have room.
    pub fn is_full(&self) -> bool {
        self.text.len() > ROOM - LONGEST
    }

    /// Adds a record behind those before it: all begin with a comma and a line feed.
    pub fn add<D: Display>(&mut self, event: &D) -> io::Result<()>
        ensures { OnOk result (IfSome (D.output event.now)
            (λ text. self.new ≡ self.old ++ codes ",\n" ++ text)) }
    {
        let before = self.text.len();
        let answer = write!(self.text, ",\n{event}");
        if answer.is_err() {
            self.text.truncate(before);
        }
        answer
    }

    /// Their text.
    pub fn text(&self) -> &[u8]
        ensures { result.now ≡ self.now }
    {
        &self.text
    }

    /// Drops the records, which were written.
    pub fn clear(&mut self)
        ensures { self.new ≡ [] }
    {
        self.text.clear();
    }
}
