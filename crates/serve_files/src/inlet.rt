//! What the streams of a run are read from.
ghost use Rattle.std.specs.Prelude.{◌≡◌, true};
ghost use Rattle.std.specs.Io.KnownBytes.{Keeps};
ghost use Rattle.serve_files.specs.Calls.{IfUnwatched};
ghost use Rattle.serve_files.specs.Inlets.{IsInflowOf, inflow_remaining, inlet_remaining};
ghost use Rattle.serve_files.specs.declared.inlet.Inlet.TheVariants.{Slow};

use crate::lookout::{Looker, Lookout};
use std::alloc::Global;
use std::io::{self, Read};
use std::sync::Wait;
use std::thread::Threads;
use std::time::Clock;
use y4m_stream::{Source, Wanted};

/// A file that was opened for reading.
#[derive(Drop)]
pub enum Inlet<R, S> {
    /// Its reads are answered at once.
    Prompt(R),
    /// A read may wait for what isn't there yet, as of a FIFO or of a terminal.
    Slow(S),
}

/// An inlet that can be asked whether a read would wait, where that can be told.
#[derive(Drop)]
pub enum Inflow<R: Read, S: Read + Drop, T: Wait + Drop> {
    Prompt(R),
    /// There was no thread, or no memory, to look out with.
    Slow(S),
    Watched(Lookout<S, T>),
}

impl<R: Read, S: Read + Drop, T: Wait + Drop> Read for Inflow<R, S, T> {
    ghost remaining = { λ inflow. inflow_remaining R.remaining S.remaining inflow };

    fn read(&mut self, buf: &mut [u8]) -> io::Result<usize> {
        match self {
            Inflow::Prompt(reader) => reader.read(buf),
            Inflow::Slow(reader) => reader.read(buf),
            Inflow::Watched(lookout) => lookout.read(buf),
        }
    }
}

impl<R: Read, S: Read + Drop, T: Wait + Clock + Drop> Inflow<R, S, T> {
    /// Whether reads of what is wanted would be answered at once, where that can be told. It waits for that
    /// at most so many milliseconds.
    pub fn is_ready(&self, milliseconds: u64, wanted: Wanted) -> bool
        ensures unwatched { IfUnwatched (result ≡ true) self.now }
    {
        match self {
            Inflow::Watched(lookout) => lookout.is_ready(milliseconds, wanted),
            _ => true,
        }
    }
}

/// The inflow of an inlet, by a looker of its own where a read may wait.
pub fn inflow_of<R, S, T>(rt: &T, alloc: Global, inlet: Inlet<R, S>) -> Inflow<R, S, T>
where
    R: Read,
    S: Read + Drop + Send + 'static,
    T: Threads + Wait + Clock + Copy + Drop + Send + 'static,
    ensures bytes { Keeps (inlet_remaining R.remaining inlet)
        (inflow_remaining R.remaining S.remaining result) }
    ensures kind { IsInflowOf inlet result }
{
    let looker = if matches!(inlet, Inlet::Slow(_)) {
        Looker::start(rt, alloc, None)
    } else {
        None
    };
    inflow_by(alloc, inlet, looker)
}

/// The inflow of an inlet, by a looker that was started before, if one was.
pub fn inflow_by<R, S, T>(
    alloc: Global,
    inlet: Inlet<R, S>,
    looker: Option<Looker<S, T>>,
) -> Inflow<R, S, T>
where
    R: Read,
    S: Read + Drop,
    T: Wait + Clock + Drop,
    ensures bytes { Keeps (inlet_remaining R.remaining inlet)
        (inflow_remaining R.remaining S.remaining result) }
    ensures kind { IsInflowOf inlet result }
{
    match inlet {
        Inlet::Prompt(reader) => Inflow::Prompt(reader),
        Inlet::Slow(reader) => look_out(alloc, reader, looker),
    }
}

/// Looks out at a reader that may wait, where there is a looker.
fn look_out<R, S, T>(alloc: Global, reader: S, looker: Option<Looker<S, T>>) -> Inflow<R, S, T>
where
    R: Read,
    S: Read + Drop,
    T: Wait + Clock + Drop,
    ensures { IsInflowOf (Slow reader) result }
{
    let Some(looker) = looker else {
        return Inflow::Slow(reader);
    };
    match looker.look_out(alloc, reader) {
        Ok(lookout) => Inflow::Watched(lookout),
        Err(reader) => Inflow::Slow(reader),
    }
}

/// A source over an inflow: its reads, and a count of those that failed.
#[derive(Drop)]
pub struct OverInflow<R: Read, S: Read + Drop, T: Wait + Drop> {
    inflow: Inflow<R, S, T>,
    failures: u64,
}

impl<R: Read, S: Read + Drop, T: Wait + Drop> OverInflow<R, S, T> {
    /// No read has failed yet.
    pub fn new(inflow: Inflow<R, S, T>) -> OverInflow<R, S, T>
        ensures inflow { result.inflow ≡ inflow }
        ensures failures { result.failures ≡ 0 }
    {
        OverInflow {
            inflow,
            failures: 0,
        }
    }
}

impl<R: Read, S: Read + Drop, T: Wait + Clock + Drop> Source for OverInflow<R, S, T> {
    ghost remaining = { λ s. inflow_remaining R.remaining S.remaining s.inflow };

    ghost failures = { λ s. s.failures };

    fn read(&mut self, buf: &mut [u8]) -> io::Result<usize> {
        let answer = self.inflow.read(buf);
        if answer.is_err() {
            self.failures = self.failures.saturating_add(1);
        }
        answer
    }

    fn is_ready(&self, milliseconds: u64, wanted: Wanted) -> bool
        ensures unwatched { IfUnwatched (result ≡ true) self.now.inflow }
    {
        self.inflow.is_ready(milliseconds, wanted)
    }
}
