//! What the images of a run are written to.
ghost use Rattle.std.specs.Prelude.{◌≡◌, ◌<◌, false, true, IfOk, IfSome, OnOk};
ghost use Rattle.y4m_stream.specs.Failures.{TriesToAppend};
ghost use Rattle.serve_files.specs.Outlets.{IsOutflowOf, outflow_contents, outlet_contents};

use crate::relay::{Carrier, Relay};
use std::alloc::Global;
use std::io::{self, Write};
use std::sync::Wait;
use std::thread::Threads;
use std::time::Clock;
use y4m_stream::Sink;

/// A file that was made for writing.
#[derive(Drop)]
pub enum Outlet<W, S> {
    /// Its writes are answered at once.
    Prompt(W),
    /// A write may wait until somebody reads, as of a FIFO or of a terminal.
    Slow(S),
}

impl<W: Write, S: Write> Write for Outlet<W, S> {
    ghost contents = { λ outlet. outlet_contents W.contents outlet };

    fn write(&mut self, buf: &[u8]) -> io::Result<usize> {
        match self {
            Outlet::Prompt(writer) => writer.write(buf),
            Outlet::Slow(writer) => writer.write(buf),
        }
    }

    fn flush(&mut self) -> io::Result<()> {
        match self {
            Outlet::Prompt(writer) => writer.flush(),
            Outlet::Slow(writer) => writer.flush(),
        }
    }
}

/// An outlet whose writes can be waited for a while, where they may wait.
#[derive(Drop)]
pub enum Outflow<W: Write, S: Write + Drop, T: Wait + Drop> {
    Prompt(W),
    /// There was no thread, or no memory, to write with.
    Slow(S),
    Relayed(Relay<S, T>),
}

impl<W: Write, S: Write + Drop, T: Wait + Drop> Write for Outflow<W, S, T> {
    ghost contents = { λ outflow. outflow_contents W.contents outflow };

    fn write(&mut self, buf: &[u8]) -> io::Result<usize> {
        match self {
            Outflow::Prompt(writer) => writer.write(buf),
            Outflow::Slow(writer) => writer.write(buf),
            Outflow::Relayed(relay) => relay.write(buf),
        }
    }

    fn flush(&mut self) -> io::Result<()> {
        match self {
            Outflow::Prompt(writer) => writer.flush(),
            Outflow::Slow(writer) => writer.flush(),
            Outflow::Relayed(relay) => relay.flush(),
        }
    }
}

impl<W: Write, S: Write + Drop, T: Wait + Clock + Drop> Outflow<W, S, T> {
    /// Writes as `write` does. Where that may wait, it waits at most so many milliseconds, and answers none
    /// where the bytes are on their way then.
    pub fn try_write(&mut self, buf: &[u8], milliseconds: u64) -> io::Result<Option<usize>>
        ensures { TriesToAppend (outflow_contents W.contents self.old) (outflow_contents W.contents self.new)
            result buf.now }
    {
        if let Outflow::Relayed(relay) = self {
            return relay.try_write(buf, milliseconds);
        }
        let taken = self.write(buf)?;
        Ok(Some(taken))
    }
}

/// The outflow of an outlet, by a carrier of its own where a write may wait.
pub fn outflow_of<W, S, T>(rt: &T, alloc: Global, outlet: Outlet<W, S>) -> Outflow<W, S, T>
where
    W: Write,
    S: Write + Drop + Send + 'static,
    T: Threads + Wait + Clock + Copy + Drop + Send + 'static,
    ensures bytes { outflow_contents W.contents result ≡ outlet_contents W.contents outlet }
    ensures kind { IsOutflowOf outlet result }
{
    let carrier = if matches!(outlet, Outlet::Slow(_)) {
        Carrier::start(rt, alloc)
    } else {
        None
    };
    outflow_by(outlet, carrier)
}

/// The outflow of an outlet, by a carrier that was started before, if one was.
pub fn outflow_by<W, S, T>(outlet: Outlet<W, S>, carrier: Option<Carrier<S, T>>) -> Outflow<W, S, T>
where
    W: Write,
    S: Write + Drop,
    T: Wait + Clock + Drop,
    ensures bytes { outflow_contents W.contents result ≡ outlet_contents W.contents outlet }
    ensures kind { IsOutflowOf outlet result }
{
    match outlet {
        Outlet::Prompt(writer) => Outflow::Prompt(writer),
        Outlet::Slow(writer) => match carrier {
            Some(carrier) => Outflow::Relayed(carrier.carry(writer)),
            None => Outflow::Slow(writer),
        },
    }
}

/// A sink over an outflow: its writes and flushes, and a count of those that failed.
#[derive(Drop)]
pub struct OverOutflow<W: Write, S: Write + Drop, T: Wait + Drop> {
    outflow: Outflow<W, S, T>,
    failures: u64,
    is_flushed: bool,
}

impl<W: Write, S: Write + Drop, T: Wait + Drop> OverOutflow<W, S, T> {
    /// No write and no flush has failed yet, and nothing was flushed.
    pub fn new(outflow: Outflow<W, S, T>) -> OverOutflow<W, S, T>
        ensures outflow { result.outflow ≡ outflow }
        ensures failures { result.failures ≡ 0 }
    {
        OverOutflow {
            outflow,
            failures: 0,
            is_flushed: false,
        }
    }
}

impl<W: Write, S: Write + Drop, T: Wait + Clock + Drop> Sink for OverOutflow<W, S, T> {
    ghost contents = { λ s. outflow_contents W.contents s.outflow };

    ghost failures = { λ s. s.failures };

    ghost is_flushed = { λ s. s.is_flushed };

    fn write(&mut self, buf: &[u8]) -> io::Result<usize> {
        self.is_flushed = false;
        let answer = self.outflow.write(buf);
        let failed = match &answer {
            Ok(taken) => *taken == 0 && !buf.is_empty(),
            Err(_) => true,
        };
        if failed {
            self.failures = self.failures.saturating_add(1);
        }
        answer
    }

    fn try_write(&mut self, buf: &[u8], milliseconds: u64) -> io::Result<Option<usize>> {
        self.is_flushed = false;
        let answer = self.outflow.try_write(buf, milliseconds);
        let failed = match &answer {
            Ok(Some(taken)) => *taken == 0 && !buf.is_empty(),
            Ok(None) => false,
            Err(_) => true,
        };
        if failed {
            self.failures = self.failures.saturating_add(1);
        }
        answer
    }

    fn flush(&mut self) -> io::Result<()> {
        let answer = self.outflow.flush();
        match &answer {
            Ok(()) => self.is_flushed = true,
            Err(_) => self.failures = self.failures.saturating_add(1),
        }
        answer
    }
}
