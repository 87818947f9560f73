//! Bytes that are read piece by piece.
ghost use Rattle.std.specs.Prelude.{◌≡◌, ◌≤◌, drop, length, min, take};
ghost use Rattle.std.specs.Io.{ReadsAtMost};

use std::io::{self, Read};
use std::marker::Model;

/// How many bytes tell the length of a piece.
pub const HEAD: usize = 2;

/// The longest piece, in bytes, with its length.
const ROOM: usize = 4096;

/// A reader that gives what another one has in pieces: the length of each in two bytes, the higher one
/// first, and then its bytes. A piece is what one read brought, which is begun where none is left of the
/// piece before. So who has taken the length takes the piece without waiting.
#[derive(Drop)]
pub struct Pieces<S: Read> {
    reader: S,
    room: [u8; ROOM],
    /// Where what is left of the last piece begins and ends.
    from: usize,
    to: usize,
}

impl<S: Read> Model for Pieces<S> {
    ghost use Rattle.std.specs.Prelude.{ℕ, ◌≤◌, List, drop, take};
    ghost use Rattle.serve_report.specs.declared.control.pieces.TheConstants.{ROOM};

    ghost Value = { List ℕ };

    ghost view = { λ p. drop p.from (take p.to p.room) };

    ghost invariant = { λ p. (p.from ≤ p.to) × (p.to ≤ ROOM) };
}

impl<S: Read> Pieces<S> {
    /// Nothing is read yet.
    pub fn new(reader: S) -> Pieces<S> {
        Pieces {
            reader,
            room: [0; ROOM],
            from: 0,
            to: 0,
        }
    }

    /// Reads the next piece. Where the reader is at its end, none is left.
    fn fill(&mut self) -> io::Result<()> {
        self.from = 0;
        self.to = 0;
        let count = self.reader.read(&mut self.room[HEAD..])?;
        if count == 0 {
            return Ok(());
        }
        let [high, low] = length_told(count);
        self.room[0] = high;
        self.room[1] = low;
        self.to = HEAD + count;
        Ok(())
    }

    /// Moves as many bytes as both have from what is left of a piece into `out`.
    fn take_into(&mut self, out: &mut [u8]) -> usize
        ensures count { result ≡ min (length self.old) (length out.old) }
        ensures moved { take result out.new ≡ take result self.old }
        ensures left { self.new ≡ drop result self.old }
    {
        let held = &self.room[self.from..self.to];
        let count = held.len().min(out.len());
        out[..count].copy_from_slice(&held[..count]);
        self.from += count;
        count
    }
}

impl<S: Read> Read for Pieces<S> {
    fn read(&mut self, buf: &mut [u8]) -> io::Result<usize> {
        if self.from == self.to && !buf.is_empty() {
            self.fill()?;
        }
        Ok(self.take_into(buf))
    }
}

/// The bytes that tell a length.
fn length_told(length: usize) -> [u8; HEAD]
    requires { length ≤ ROOM }
{
    [(length / 256) as u8, (length % 256) as u8]
}

/// The length that two bytes tell.
pub fn length_of(told: [u8; HEAD]) -> usize {
    let [high, low] = told;
    usize::from(high) * 256 + usize::from(low)
}
