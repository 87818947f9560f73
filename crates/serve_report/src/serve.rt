//! Many streams at once: each has a file that it is read from and one that it is written to, and they share
//! some workers.
ghost use Rattle.std.specs.Prelude.{◌≡◌, ◌≤◌, IfOk, None, Ok, map, true};
ghost use Rattle.std.specs.Io.KnownBytes.{Keeps};
ghost use Rattle.serve_hub.specs.Seats.{opened_streams};
ghost use Rattle.serve_report.specs.Apart.{FilesGive};
ghost use Rattle.serve_report.specs.Entrants.{Leaves, Reports, Serves, ServesAll, Tells};
ghost use Rattle.serve_report.specs.Openings.{openings_of};
ghost use Rattle.serve_words.specs.ServeChecks.{all_told};
ghost use Rattle.serve_work.specs.Sessions.{AreInputs, starts_of};

pub use self::apart::{FileUse, errors_of};
use self::apart::{tell_control_apart, tell_files_apart, tell_trace_apart};
pub use self::clock::Counter;
pub use self::gate::PlainGate;
use self::gate::WatchedGate;
use self::opening::{Opened, Tried, gather_opened};
pub use self::opening::{job_of, spec_of};
use self::ready::Input;
pub use self::ready::Ready;
pub use self::report::{AdmitFault, StreamRow, StreamStop};
use self::rows::{are_whole, rows_of, write_report};
pub use self::run_clock::RunClock;
use crate::control::{Agenda, lines_file, lines_of};
use crate::host::Host;
use crate::session::{Form, Session};
use crate::tell::tell;
use serve_core::{Setup, StreamSpec};
use serve_files::{Files, Outlet};
use serve_watch::{Trace, Watch};
use serve_words::{Asked, Checked, ServeWords, WordFault, check};
use serve_work::{Clock, Gate, Served, SessionFault, serve_session};
use std::alloc::{AllocError, Global};
use std::io::{self, Read, Write};
use std::sync::Wait;
use std::thread::Threads;
use std::{fmt, time};
use y4m_stream::{Sink, Source};

mod apart;
mod clock;
mod gate;
mod opening;
mod ready;
mod report;
mod rows;
mod run_clock;

/// What is said at the end of a run of whose trace something was lost.
const TRACE: &str = "trace";

/// What is said where a run is to be traced whose streams come and go.
const TRACED_CONTROL: &str = "trace and control";

/// Why a run isn't reported.
#[derive(Clone, Copy)]
pub enum RunFault {
    Session(SessionFault),
    Write,
}

impl fmt::Display for RunFault {
    fn fmt<W: fmt::Write>(&self, f: &mut fmt::Formatter<W>) -> fmt::Result {
        match *self {
            RunFault::Session(fault) => write!(f, "session {fault}"),
            RunFault::Write => write!(f, "write"),
        }
    }
}

impl From<AllocError> for RunFault {
    fn from(_error: AllocError) -> RunFault {
        RunFault::Session(SessionFault::NoMemory)
    }
}

impl From<SessionFault> for RunFault {
    fn from(fault: SessionFault) -> RunFault {
        RunFault::Session(fault)
    }
}

impl From<io::Error> for RunFault {
    fn from(_error: io::Error) -> RunFault {
        RunFault::Write
    }
}

/// What a traced run came to, and whether its trace is whole.
#[derive(Drop)]
struct Traced {
    served: Result<bool, RunFault>,
    is_whole: bool,
}

impl<'t, 'f, 'w, F, V, T> Host<'t, 'f, 'w, F, V, T>
where
    F: Files + Sync,
    F::Reader: Send,
    F::Slow: Send + 'static,
    F::Writer: Send,
    F::SlowWriter: Send + 'static,
    V: Watch + Sync,
    T: Threads + Wait + time::Clock + Copy + Drop + Send + Sync + 'static,
{
    /// Serves the streams that the words ask for, and answers the program's status.
    pub fn run_serve<R, W, E>(
        self,
        words: ServeWords<'_>,
        input: R,
        output: &mut W,
        errors: &mut E,
    ) -> u8
    where
        R: Read + Drop + Send,
        W: Write + Send,
        E: Write + Send,
        ensures status { result ≤ 2 }
        ensures untouched { result ≡ 2 → Keeps (W.contents output.old) (W.contents output.new) }
        ensures well { result ≡ 0 → words.entry.control ≡ None
            → ServesAll F.place_gives F.open_gives F.create_gives words.entry (W.contents output.old)
            (W.contents output.new) }
    {
        let checked = match check(self.alloc, &words) {
            Ok(checked) => checked,
            Err(fault) => return refuse(errors, fault),
        };
        if let Err(fault) = tell_files_apart(self.alloc, self.files, &checked.streams) {
            return refuse(errors, fault);
        }
        let host = self.with_watch(self.watch_of_frames(words.is_quiet));
        let clock = RunClock::new(self.rt, words.microseconds());
        if let Some(control) = words.control {
            if words.trace.is_some() {
                tell(errors, &TRACED_CONTROL);
                return 2;
            }
            if let Err(clash) = tell_control_apart(
                self.files,
                lines_file(control),
                &checked.streams,
            ) {
                return refuse(errors, clash);
            }
            let Ok(lines) = lines_of(control, input, self.files) else {
                tell(errors, &"control");
                return 1;
            };
            return host.run_control(Agenda { checked, lines }, &clock, output, errors);
        }
        let Some(file) = words.trace else {
            return tell_served(errors, host.serve(checked, &clock, output));
        };
        if let Err(clash) = tell_trace_apart(self.alloc, self.files, file, &checked.streams) {
            return refuse(errors, clash);
        }
        tell_traced(errors, host.serve_traced(file, checked, &clock, output))
    }

    /// Serves the streams, with a trace of the run in this file.
    fn serve_traced<W: Write, K: Clock + Sync>(
        self,
        file: &str,
        checked: Checked<'_>,
        clock: &K,
        output: &mut W,
    ) -> Traced
        requires apart { FilesGive F.place_gives (all_told checked.streams.items) None }
        ensures { IfOk result.served
            (Reports F.open_gives F.create_gives (K.gives clock.now) checked.entry (W.contents output.old)
            (W.contents output.new)) }
    {
        let names = names_of(self.alloc, &checked.streams);
        let file = trace_file(self.files, file);
        let trace = Trace::start(
            self.rt,
            self.alloc,
            file,
            checked.workers,
            names,
            self.watch,
        );
        let traced = Host {
            rt: self.rt,
            alloc: self.alloc,
            files: self.files,
            watch: Some(&trace),
        };
        let served = traced.serve(checked, clock, output);
        Traced {
            served,
            is_whole: trace.end(),
        }
    }

    /// Serves the streams, whose files are told apart, by a clock, and reports them. It answers whether all
    /// are whole.
    fn serve<W: Write, K: Clock + Sync>(
        self,
        checked: Checked<'_>,
        clock: &K,
        output: &mut W,
    ) -> Result<bool, RunFault>
        requires apart { FilesGive F.place_gives (all_told checked.streams.items) None }
        ensures { IfOk result
            (Reports F.open_gives F.create_gives (K.gives clock.now) checked.entry (W.contents output.old)
            (W.contents output.new)) }
    {
        let watch = announce_streams(self.alloc, &checked.streams, self.watch);
        let rows = self.with_watch(watch).serve_files(checked, clock);
        if let Some(watch) = watch {
            watch.ends();
        }
        let rows = rows?;
        write_report(output, &rows)?;
        Ok(are_whole(&rows))
    }

    /// Serves the streams between their files, and answers what is reported of each, in order.
    fn serve_files<'a, K: Clock + Sync>(
        self,
        checked: Checked<'a>,
        clock: &K,
    ) -> Result<Vec<StreamRow<'a>>, RunFault>
        ensures { IfOk result
            (λ rows. Serves F.open_gives F.create_gives (K.gives clock.now) checked.entry rows.items) }
    {
        let Checked {
            workers,
            quantum,
            journal,
            height,
            streams,
        } = checked;
        let tried = self.open_all(streams, height)?;
        let form = Form {
            workers,
            quantum,
            journal,
        };
        let session = Session {
            rt: self.rt,
            alloc: self.alloc,
            form,
            clock,
        };
        let rows = session.serve_tried(tried, self.watch)?;
        Ok(rows)
    }
}

impl<'t, 'c, K, T> Session<'t, 'c, K, T>
where
    K: Clock + Sync,
    T: Threads + Wait + Sync,
{
    /// Serves the streams by what came of opening them.
    fn serve_tried<'a, R, W, V>(
        self,
        tried: Vec<Tried<'a, R, W>>,
        watch: Option<&V>,
    ) -> Result<Vec<StreamRow<'a>>, RunFault>
    where
        R: Source + Drop + Send,
        W: Sink + Drop + Send,
        V: Watch + Sync,
        ensures { IfOk result (λ rows. Tells (K.gives self.entry.clock.now) self.entry.form.workers
            self.entry.form.quantum self.entry.form.journal (openings_of tried.entry.items) rows.items) }
    {
        let Opened {
            entrants,
            specs,
            inputs,
        } = gather_opened(self.alloc, tried)?;
        // No memory is taken after the session, so that one that ended is reported.
        let rows = Vec::with_capacity(self.alloc, entrants.len())?;
        let gate = WatchedGate::new(self.alloc, entrants.as_slice(), watch)?;
        let left = self.serve_opened(specs, inputs, &gate)?;
        let Some(rows) = rows_of(rows, &entrants, &left) else {
            return Err(RunFault::Session(SessionFault::Mismatch));
        };
        Ok(rows)
    }

    /// Serves the streams that were opened; none where there is none.
    fn serve_opened<R, W, G>(
        self,
        specs: Vec<StreamSpec>,
        inputs: Vec<Input<R, W>>,
        gate: &G,
    ) -> Result<Vec<Served<R, W>>, SessionFault>
    where
        R: Source + Drop + Send,
        W: Sink + Drop + Send,
        G: Gate + Sync,
        requires inputs { AreInputs specs.items inputs.items }
        ensures { IfOk result (λ left. Leaves (K.gives self.entry.clock.now) self.entry.form.workers
            self.entry.form.quantum self.entry.form.journal specs.items
            (starts_of W.contents W.failures (opened_streams self.entry.form.journal 0 specs.items)
            inputs.items) left.items) }
    {
        if specs.is_empty() {
            return Ok(Vec::new(self.alloc));
        }
        let Form {
            workers,
            quantum,
            journal,
        } = self.form;
        let Ok(setup) = Setup::new(workers, quantum, specs) else {
            return Err(SessionFault::Mismatch);
        };
        let left = serve_session(
            self.rt, self.alloc, setup, inputs, journal, gate, self.clock,
        )?;
        Ok(left)
    }
}

/// Tells the fault of a run, if there is one, and answers the program's status.
fn tell_served<E: Write>(errors: &mut E, served: Result<bool, RunFault>) -> u8
    ensures status { result ≤ 1 }
    ensures well { result ≡ 0 → served ≡ Ok true }
{
    match served {
        Ok(true) => 0,
        Ok(false) => 1,
        Err(fault) => {
            tell(errors, &fault);
            1
        }
    }
}

/// Tells the fault of a traced run, if there is one, and then whether something of its trace was lost, and
/// answers the program's status.
fn tell_traced<E: Write>(errors: &mut E, traced: Traced) -> u8
    ensures status { result ≤ 1 }
    ensures well { result ≡ 0 → traced.served ≡ Ok true }
{
    let status = tell_served(errors, traced.served);
    if !traced.is_whole {
        tell(errors, &TRACE);
        return 1;
    }
    status
}

/// Makes the file of a trace.
fn trace_file<F: Files>(files: &F, name: &str) -> Option<Outlet<F::Writer, F::SlowWriter>> {
    files.create(name).ok()
}

/// Tells what is wrong with the words, and answers the program's status.
pub fn refuse<E: Write>(errors: &mut E, fault: WordFault<'_>) -> u8
    ensures least { 1 ≤ result }
    ensures most { result ≤ 2 }
{
    tell(errors, &fault);
    fault.status()
}

/// Tells a watch which streams begin, and answers it. Where there is no memory for their names, none is told
/// of the run.
fn announce_streams<'w, V: Watch>(
    alloc: Global,
    streams: &[Asked<'_>],
    watch: Option<&'w V>,
) -> Option<&'w V> {
    let watch = watch?;
    let names = names_of(alloc, streams)?;
    watch.begins(&names);
    Some(watch)
}

/// The names of the streams, where there is memory for them.
fn names_of<'a>(alloc: Global, streams: &[Asked<'a>]) -> Option<Vec<&'a str>> {
    let mut names = Vec::new(alloc);
    for asked in streams {
        names.push(asked.word.name).ok()?;
    }
    Some(names)
}
