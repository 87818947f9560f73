//! A source that is closed by another thread.
ghost use Rattle.std.specs.Prelude.{◌≡◌, ◌≤◌};
ghost use Rattle.std.specs.Io.{ReadsAtMost};
ghost use Rattle.std.specs.Io.KnownBytes.{ReadConsumes};
ghost use Rattle.serve_files.specs.Inlets.{inflow_remaining};

use super::order::Order;
use serve_files::Inflow;
use std::alloc::Global;
use std::io::{self, ErrorKind, Read};
use std::sync::{Arc, Wait};
use std::time::Clock;
use y4m_stream::{Source, Wanted};

/// A wait of so many milliseconds is a client's that has other work.
const GLANCE: u64 = 1;

/// For how many milliseconds an input is waited for where no image is to come.
const IDLE_PATIENCE: u64 = 50;

/// The inflow of an order. A read that begins when the order is closed fails, and takes nothing. Where no image
/// is to come it is waited for longer than is asked for: the client is called where its epoch ends.
#[derive(Drop)]
pub struct Closable<R: Read, S: Read + Drop, T: Wait + Drop> {
    inflow: Inflow<R, S, T>,
    order: Arc<Order, Global>,
    failures: u64,
}

impl<R: Read, S: Read + Drop, T: Wait + Drop> Closable<R, S, T> {
    /// No read has failed yet.
    pub fn new(inflow: Inflow<R, S, T>, order: Arc<Order, Global>) -> Closable<R, S, T>
        ensures inflow { result.inflow ≡ inflow }
        ensures failures { result.failures ≡ 0 }
    {
        Closable {
            inflow,
            order,
            failures: 0,
        }
    }

    /// For how many milliseconds the input is waited for where so many are asked for.
    fn patience(&self, milliseconds: u64) -> u64
        ensures { milliseconds ≤ result }
    {
        if milliseconds > GLANCE && self.order.is_idle() {
            milliseconds.max(IDLE_PATIENCE)
        } else {
            milliseconds
        }
    }

    /// Reads once, unless it is closed.
    fn read_open(&mut self, buf: &mut [u8]) -> io::Result<usize>
        ensures bound { ReadsAtMost result buf.new }
        ensures bytes { ReadConsumes (inflow_remaining R.remaining S.remaining self.old.inflow)
            (inflow_remaining R.remaining S.remaining self.new.inflow) result buf.new }
        ensures failures { self.new.failures ≡ self.old.failures }
    {
        if self.order.is_closed() {
            return Err(io::Error::from(ErrorKind::Other));
        }
        self.inflow.read(buf)
    }
}

impl<R: Read, S: Read + Drop, T: Wait + Clock + Drop> Source for Closable<R, S, T> {
    ghost remaining = { λ s. inflow_remaining R.remaining S.remaining s.inflow };

    ghost failures = { λ s. s.failures };

    fn read(&mut self, buf: &mut [u8]) -> io::Result<usize> {
        let answer = self.read_open(buf);
        if answer.is_err() {
            self.failures = self.failures.saturating_add(1);
        }
        answer
    }

    fn is_ready(&self, milliseconds: u64, wanted: Wanted) -> bool {
        self.order.is_closed() || self.inflow.is_ready(self.patience(milliseconds), wanted)
    }

    fn frame_ended(&mut self) {
        self.order.frame_ended();
    }
}
