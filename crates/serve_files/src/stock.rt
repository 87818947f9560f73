//! Bytes that are held until they are taken.
ghost use Rattle.std.specs.Prelude.{◌≡◌, ◌+◌, ◌-◌, ◌<◌, ◌≤◌, [], drop, false, length, min, take, true, IfOk};
ghost use Rattle.serve_files.specs.ReadAhead.{FillsFrom, FillsSlice};

use std::alloc::{AllocError, Global};
use std::io::{self, Read};
use std::marker::Model;

/// Bytes that are held until they are taken, and room for some.
#[derive(Drop)]
pub struct Stock {
    alloc: Global,
    bytes: Vec<u8>,
    /// Where the bytes that are held begin and end.
    from: usize,
    to: usize,
}

impl Model for Stock {
    ghost use Rattle.std.specs.Prelude.{◌<◌, ◌≤◌, drop, length, take};
    ghost use Rattle.serve_files.specs.ReadAhead.{StockState};

    ghost Value = { StockState };

    ghost view = { λ s. record {
      held = drop s.from (take s.to s.bytes.items);
      room = length s.bytes.items;
    } };

    ghost invariant = { λ s. (s.from ≤ s.to) × (s.to ≤ length s.bytes.items) × (0 < length s.bytes.items) };
}

impl Stock {
    /// Holds nothing yet, with room for so many bytes.
    pub fn new(alloc: Global, room: usize) -> Result<Stock, AllocError>
        requires { 0 < room }
        ensures { IfOk result (λ stock. stock ≡ record { held = []; room = room }) }
    {
        Ok(Stock {
            alloc,
            bytes: vec![in alloc; 0u8; room]?,
            from: 0,
            to: 0,
        })
    }

    /// Whether bytes are held.
    pub fn is_holding(&self) -> bool
        ensures not_empty { result ≡ true → 0 < length self.now.held }
        ensures none { result ≡ false → self.now.held ≡ [] }
    {
        self.from < self.to
    }

    /// The bytes that are held.
    pub fn bytes(&self) -> &[u8]
        ensures { result.now ≡ self.now.held }
    {
        &self.bytes[self.from..self.to]
    }

    /// How many bytes it has room for.
    pub fn room(&self) -> usize
        ensures value { result ≡ self.now.room }
        ensures positive { 0 < result }
    {
        self.bytes.len()
    }

    /// Makes room for so many bytes, where there is memory.
    pub fn widen(&mut self, room: usize)
        ensures held { self.new.held ≡ self.old.held }
        ensures room { self.old.room ≤ self.new.room }
        ensures as_asked { self.old.room < self.new.room → self.new.room ≡ room }
    {
        if room <= self.bytes.len() {
            return;
        }
        let Ok(mut bytes) = vec![in self.alloc; 0u8; room] else {
            return;
        };
        copy_to_front(&mut bytes, &self.bytes[self.from..self.to]);
        self.bytes = bytes;
        self.to -= self.from;
        self.from = 0;
    }

    /// Reads once, behind what is held, up to so many bytes in all.
    pub fn fill<R: Read>(&mut self, reader: &mut R, most: usize) -> io::Result<usize>
        requires more_wanted { length self.old.held < most }
        requires within { most ≤ self.old.room }
        ensures bytes { FillsFrom (R.remaining reader.old) (R.remaining reader.new) result self.old.held
            self.new.held }
        ensures most { length self.new.held ≤ most }
        ensures room { self.new.room ≡ self.old.room }
    {
        let count = match fill_behind(reader, &mut self.bytes, self.from, self.to, most) {
            Ok(count) => count,
            Err(error) => {
                self.to -= self.from;
                self.from = 0;
                return Err(error);
            }
        };
        self.to = self.to - self.from + count;
        self.from = 0;
        Ok(count)
    }

    /// Moves as many bytes as both have from the front into `out`.
    pub fn take_into(&mut self, out: &mut [u8]) -> usize
        ensures count { result ≡ min (length self.old.held) (length out.old) }
        ensures moved { take result out.new ≡ take result self.old.held }
        ensures left { self.new ≡ record self.old { held = drop result self.old.held } }
    {
        let held = &self.bytes[self.from..self.to];
        let count = held.len().min(out.len());
        out[..count].copy_from_slice(&held[..count]);
        self.from += count;
        count
    }
}

/// Copies these bytes to the front.
fn copy_to_front(bytes: &mut [u8], held: &[u8])
    requires { length held.now ≤ length bytes.old }
    ensures { take (length held.now) bytes.new ≡ held.now }
{
    bytes[..held.len()].copy_from_slice(held);
}

/// Moves the bytes between two places to the front, and reads once behind them, up to a third place.
fn fill_behind<R: Read>(
    reader: &mut R,
    bytes: &mut [u8],
    from: usize,
    to: usize,
    most: usize,
) -> io::Result<usize>
    requires order { from ≤ to }
    requires within { to ≤ length bytes.old }
    requires more_wanted { to - from < most }
    requires most { most ≤ length bytes.old }
    ensures bytes { FillsSlice (R.remaining reader.old) (R.remaining reader.new) result
        (drop from (take to bytes.old)) bytes.new }
    ensures most { IfOk result (λ count. to - from + count ≤ most) }
{
    move_to_front(bytes, from, to);
    reader.read(&mut bytes[to - from..most])
}

/// Moves the bytes between two places to the front.
fn move_to_front(bytes: &mut [u8], from: usize, to: usize)
    requires order { from ≤ to }
    requires within { to ≤ length bytes.old }
    ensures { take (to - from) bytes.new ≡ drop from (take to bytes.old) }
{
    if from == 0 {
        return;
    }
    bytes.copy_within(from..to, 0);
}
