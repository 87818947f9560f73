//! A reader, and what was read from it before it was asked for.
ghost use Rattle.std.specs.Prelude.{◌≡◌, ◌≢◌, ◌+◌, ◌<◌, [], false, true, length, take, IfErr, IfOk, IsOk};
ghost use Rattle.std.specs.Prelude.{MatchResult};
ghost use Rattle.std.specs.Io.{ReadsAtMost, StartsWith};
ghost use Rattle.std.specs.Io.KnownBytes.{Keeps, ReadConsumes, prepend_known};
ghost use Rattle.serve_files.specs.ReadAhead.{HasNone, HasWanted, IsNoFurther, IsThere, rest_of};

use crate::stock::Stock;
use std::alloc::Global;
use std::io::{self, Read};
use std::marker::Model;
use std::mem;
use y4m_stream::Wanted;

/// How many bytes may be read ahead at first: as many as a pipe holds.
pub const ROOM: usize = 1 << 16;

/// What a read told that gave no bytes.
#[derive(Drop)]
pub enum Told {
    Nothing,
    End,
    Fault(io::Error),
}

/// A reader, and what was read from it ahead of its client: bytes, and then perhaps the end, or a fault.
#[derive(Drop)]
pub struct Ahead<R: Read> {
    reader: R,
    stock: Stock,
    told: Told,
}

impl<R: Read> Model for Ahead<R> {
    ghost use Rattle.serve_files.specs.ReadAhead.{AheadState, IsTold};

    ghost Value = { AheadState };

    ghost view = { λ a. record {
      held = a.stock.held;
      room = a.stock.room;
      left = R.remaining a.reader;
      told = a.told;
    } };

    ghost invariant = { λ a. IsTold a.told (R.remaining a.reader) };
}

impl<R: Read> Ahead<R> {
    /// A reader of which nothing is held yet. Where there is no memory it comes back.
    pub fn new(alloc: Global, reader: R) -> Result<Ahead<R>, R>
        ensures ok { IfOk result (λ ahead.
            ahead ≡ record { held = []; room = ROOM; left = R.remaining reader; told = Told.Nothing }) }
        ensures err { IfErr result (λ back. back ≡ reader) }
    {
        let Ok(stock) = Stock::new(alloc, ROOM) else {
            return Err(reader);
        };
        Ok(Ahead {
            reader,
            stock,
            told: Told::Nothing,
        })
    }

    /// Whether reads of what is wanted are answered by what is held, or of as much of it as there is room
    /// for.
    pub fn has(&self, wanted: Wanted) -> bool
        ensures none { HasNone self.now → result ≡ false }
        ensures there { result ≡ true → IsThere wanted self.now }
        ensures untold { result ≡ false → self.now.told ≡ Told.Nothing }
        ensures lacking { result ≡ false → ¬ HasWanted wanted self.now.held }
        ensures room { result ≡ false → length self.now.held < self.now.room }
    {
        if !matches!(self.told, Told::Nothing) {
            return true;
        }
        let held = self.stock.bytes();
        wanted.least(held).min(self.stock.room()) <= held.len()
    }

    /// Reads once more of what is wanted, where that isn't held. It makes room for all that is wanted, where
    /// there is memory.
    pub fn look(&mut self, wanted: Wanted)
        ensures bytes { Keeps (rest_of self.old) (rest_of self.new) }
        ensures held { StartsWith self.new.held self.old.held }
        ensures news { ¬ HasNone self.new }
        ensures same_once_told { self.old.told ≢ Told.Nothing → self.new ≡ self.old }
        ensures same { HasWanted wanted self.old.held → self.new ≡ self.old }
        ensures no_further { IsNoFurther wanted self.old.held self.new.held }
        ensures memory { self.old.room < self.new.room → self.new.room ≡ wanted.line + wanted.behind }
    {
        if self.has(wanted) {
            return;
        }
        self.stock.widen(wanted.most());
        let held = self.stock.bytes();
        let most = wanted.least(held).min(self.stock.room());
        if most <= held.len() {
            return;
        }
        match self.stock.fill(&mut self.reader, most) {
            Ok(0) => self.told = Told::End,
            Ok(_) => {}
            Err(error) => self.told = Told::Fault(error),
        }
    }
}

impl<R: Read> Read for Ahead<R> {
    ghost remaining = { λ a. prepend_known a.held a.left };

    fn read(&mut self, buf: &mut [u8]) -> io::Result<usize>
        ensures bound { ReadsAtMost result buf.new }
        ensures bytes { ReadConsumes (prepend_known self.old.held self.old.left)
            (prepend_known self.new.held self.new.left) result buf.new }
        ensures held { self.old.held ≢ [] → IsOk result }
        ensures end_or_fault { self.old.held ≡ [] → self.old.told ≢ Told.Nothing → 0 < length buf.old
            → HasNone self.new × MatchResult result (λ count. (count ≡ 0) × (self.old.told ≡ Told.End))
            (λ error. self.old.told ≡ Told.Fault error) }
    {
        if buf.is_empty() {
            return Ok(0);
        }
        if self.stock.is_holding() {
            return Ok(self.stock.take_into(buf));
        }
        match mem::replace(&mut self.told, Told::Nothing) {
            Told::Nothing => self.reader.read(buf),
            Told::End => Ok(0),
            Told::Fault(error) => Err(error),
        }
    }
}
