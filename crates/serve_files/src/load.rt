//! A writer, and the bytes that are handed over to be written.
ghost use Rattle.std.specs.Prelude.{◌≡◌, ◌≢◌, ◌≤◌, [], false, true, IfSome, length, take};
ghost use Rattle.std.specs.Io.{StartsWith, WritesAtMost};
ghost use Rattle.std.specs.Io.KnownBytes.{Keeps};
ghost use Rattle.serve_files.specs.Relays.{AppendsHanded, IsTold};

use std::alloc::{AllocError, Global};
use std::io::{self, ErrorKind, Write};
use std::marker::Model;
use std::mem;

/// The most bytes that are handed over at once.
pub const MOST: usize = 1 << 20;

/// Room for the bytes that are handed over.
#[derive(Drop)]
pub struct Room {
    bytes: Vec<u8>,
}

impl Model for Room {
    ghost use Rattle.std.specs.Prelude.{ℕ, ◌≡◌, length};
    ghost use Rattle.serve_files.specs.declared.load.TheConstants.{MOST};

    ghost Value = { ℕ };

    ghost view = { λ r. length r.bytes.items };

    ghost invariant = { λ r. length r.bytes.items ≡ MOST };
}

impl Room {
    /// Room for `MOST` bytes.
    pub fn new(alloc: Global) -> Result<Room, AllocError> {
        let bytes = vec![in alloc; 0u8; MOST]?;
        Ok(Room { bytes })
    }
}

/// What came of a write.
#[derive(Drop)]
pub enum Answer {
    /// Nothing that is still to be told.
    Awaited,
    /// So many bytes went out.
    Taken(usize),
    Fault(io::Error),
}

/// A writer, the bytes that it is handed, and what came of their write.
#[derive(Drop)]
pub struct Load<W: Write> {
    writer: W,
    bytes: Vec<u8>,
    /// How many of these are handed over.
    len: usize,
    answer: Answer,
}

impl<W: Write> Model for Load<W> {
    ghost use Rattle.std.specs.Prelude.{◌≡◌, ◌≤◌, length, take};
    ghost use Rattle.serve_files.specs.Relays.{IsBounded, LoadState};
    ghost use Rattle.serve_files.specs.declared.load.TheConstants.{MOST};

    ghost Value = { LoadState };

    ghost view = { λ l. record {
      handed = take l.len l.bytes.items;
      contents = W.contents l.writer;
      answer = l.answer;
    } };

    ghost invariant = { λ l. (l.len ≤ length l.bytes.items) × (length l.bytes.items ≡ MOST)
        × IsBounded (take l.len l.bytes.items) l.answer };
}

impl<W: Write> Load<W> {
    /// Nothing is handed over yet.
    pub fn new(writer: W, room: Room) -> Load<W>
        ensures { result ≡ record { handed = []; contents = W.contents writer; answer = Answer.Awaited } }
    {
        Load {
            writer,
            bytes: room.bytes,
            len: 0,
            answer: Answer::Awaited,
        }
    }

    /// Whether what a write answered is still to be told.
    pub fn is_answered(&self) -> bool
        ensures awaited { result ≡ false → self.now.answer ≡ Answer.Awaited }
        ensures answered { result ≡ true → self.now.answer ≢ Answer.Awaited }
    {
        !matches!(self.answer, Answer::Awaited)
    }

    /// Takes a front of these bytes: at most 1 MiB.
    pub fn take(&mut self, buf: &[u8])
        ensures handed { self.new.handed ≡ take MOST buf.now }
        ensures contents { self.new.contents ≡ self.old.contents }
        ensures answer { self.new.answer ≡ Answer.Awaited }
    {
        self.len = copy_front(&mut self.bytes, buf);
        self.answer = Answer::Awaited;
    }

    /// Writes once what was handed over.
    pub fn carry(&mut self)
        ensures handed { self.new.handed ≡ self.old.handed }
        ensures bytes { AppendsHanded self.old.contents self.new.contents self.old.handed self.new.answer }
    {
        self.answer = match self.writer.write(&self.bytes[..self.len]) {
            Ok(n) => Answer::Taken(n),
            Err(error) => Answer::Fault(error),
        };
    }

    /// What the write of a front of these bytes answered. It fails where there are fewer than went out.
    pub fn answer_to(&mut self, buf: &[u8]) -> Option<io::Result<usize>>
        ensures bound { IfSome result (λ answer. WritesAtMost answer buf.now) }
        ensures answer { StartsWith buf.now self.old.handed → IsTold self.old.answer result }
        ensures awaits_answer { self.new ≡ record self.old { answer = Answer.Awaited } }
    {
        match mem::replace(&mut self.answer, Answer::Awaited) {
            Answer::Awaited => None,
            Answer::Taken(n) if n <= buf.len() => Some(Ok(n)),
            Answer::Taken(_) => Some(Err(io::Error::from(ErrorKind::Other))),
            Answer::Fault(error) => Some(Err(error)),
        }
    }

    /// Flushes the writer.
    pub fn flush(&mut self) -> io::Result<()>
        ensures keeps_contents { Keeps self.old.contents self.new.contents }
        ensures others { (self.new.handed ≡ self.old.handed) × (self.new.answer ≡ self.old.answer) }
    {
        self.writer.flush()
    }
}

/// Copies a front of these bytes to the front of a room, as many as fit, and answers how many.
fn copy_front(room: &mut [u8], buf: &[u8]) -> usize
    ensures within { result ≤ length room.old }
    ensures front { take result room.new ≡ take (length room.old) buf.now }
{
    let count = buf.len().min(room.len());
    room[..count].copy_from_slice(&buf[..count]);
    count
}
