//! The program, over any reader and writers.
ghost use Rattle.std.specs.Prelude.{◌≡◌, ◌≤◌, ◌↔◌, Bool, Ok, Result, map, string_bytes, true};
ghost use Rattle.std.specs.Io.KnownBytes.{Appends, Keeps};
ghost use Rattle.serve_report.specs.Runs.{IsDone, Replays, RunsWell};

use crate::host::Host;
use crate::lent::{LentWriter, Loan, NamedWriter};
use crate::tell::tell;
use serve_files::Files;
use serve_script::{ReplayFault, replay};
use serve_watch::{Unwatched, Watch};
use serve_words::{NoRequest, Request, read_words};
use std::alloc::Global;
use std::io::{Read, Write};
use std::marker::Brand;
use std::sync::Wait;
use std::thread::Threads;
use std::time::Clock;
use y4m_stream::{OverRead, OverWrite};

/// Runs the program with these words, which follow its name, and answers its status: 0 where all went well, 1
/// after a fault of a stream or of the script or for want of memory, 2 for wrong words. A fault is one line
/// on `errors`; that of a script is the last line on `output`, and that of a stream among others ends its
/// line there. Help that is asked for is written to `output`. Where the words are wrong, nothing is.
pub fn main_on<R, W, E, F, T>(
    rt: &T,
    alloc: Global,
    words: &[String],
    input: R,
    output: &mut W,
    errors: &mut E,
    files: &F,
) -> u8
where
    R: Read + Drop + Send,
    W: Write + Send,
    E: Write + Send,
    F: Files + Sync,
    F::Reader: Send,
    F::Slow: Send + 'static,
    F::Writer: Send,
    F::SlowWriter: Send + 'static,
    T: Threads + Wait + Clock + Copy + Drop + Send + Sync + 'static,
    ensures status { result ≤ 2 }
    ensures untouched { result ≡ 2 → Keeps (W.contents output.old) (W.contents output.new) }
    ensures well { result ≡ 0 → RunsWell F.place_gives F.open_gives F.create_gives
        (map string_bytes words.now) (R.remaining input) (W.contents output.old) (W.contents output.new) }
{
    let watch: Option<&Unwatched> = None;
    let host = Host {
        rt,
        alloc,
        files,
        watch,
    };
    host.run(words, input, output, errors)
}

impl<'t, 'f, 'w, F, V, T> Host<'t, 'f, 'w, F, V, T>
where
    F: Files + Sync,
    F::Reader: Send,
    F::Slow: Send + 'static,
    F::Writer: Send,
    F::SlowWriter: Send + 'static,
    V: Watch + Sync,
    T: Threads + Wait + Clock + Copy + Drop + Send + Sync + 'static,
{
    /// Runs the program as [`main_on`] does, under the host's watch, if it has one.
    ///
    /// `filter` asks it for terminals once the words are right and before anything is read. It takes no
    /// terminal as its output, status 2. Where its input is one it says what it waits for. Of `filter` and of
    /// `serve` the watch is told each frame. With `--quiet` neither is done.
    pub fn run<R, W, E>(self, words: &[String], input: R, output: &mut W, errors: &mut E) -> u8
    where
        R: Read + Drop + Send,
        W: Write + Send,
        E: Write + Send,
        ensures status { result ≤ 2 }
        ensures untouched { result ≡ 2 → Keeps (W.contents output.old) (W.contents output.new) }
        ensures well { result ≡ 0 → RunsWell F.place_gives F.open_gives F.create_gives
            (map string_bytes words.now) (R.remaining input) (W.contents output.old) (W.contents output.new) }
    {
        match read_words(self.alloc, words) {
            Ok(request) => self.run_request(request, input, output, errors),
            Err(NoRequest::Help(text)) => write_help(&text, output, errors),
            Err(NoRequest::Wrong(text)) => {
                let _ = errors.write_all(text.as_bytes());
                2
            }
            Err(NoRequest::NoMemory) => {
                tell(errors, &"NoMemory");
                1
            }
        }
    }

    /// Does what the words ask for.
    fn run_request<R, W, E>(
        self,
        request: Request<'_>,
        input: R,
        output: &mut W,
        errors: &mut E,
    ) -> u8
    where
        R: Read + Drop + Send,
        W: Write + Send,
        E: Write + Send,
        ensures status { result ≤ 2 }
        ensures untouched { result ≡ 2 → Keeps (W.contents output.old) (W.contents output.new) }
        ensures well { result ≡ 0 → IsDone F.place_gives F.open_gives F.create_gives request.entry
            (R.remaining input) (W.contents output.old) (W.contents output.new) }
    {
        match request {
            Request::Filter(asked) => self.run_filter(asked, input, output, errors),
            Request::Replay => run_replay(self.alloc, input, output, errors),
            Request::Serve(asked) => self.run_serve(asked, input, output, errors),
        }
    }
}

/// Writes help that was asked for.
fn write_help<W: Write, E: Write>(text: &String, output: &mut W, errors: &mut E) -> u8
    ensures status { result ≤ 1 }
    ensures well { result ≡ 0
        → Appends (W.contents output.old) (W.contents output.new) (string_bytes text.now) }
{
    match output.write_all(text.as_bytes()) {
        Ok(()) => 0,
        Err(_) => {
            tell(errors, &"write");
            1
        }
    }
}

/// Runs the script of a reader, and writes to a writer that is lent.
fn replay_lent<'w, R: Read + Drop, W: Write, L: Loan>(
    alloc: Global,
    input: R,
    output: LentWriter<'w, W>,
) -> (LentWriter<'w, W>, Result<bool, ReplayFault>)
    requires name { output.writer.ghost_name ≡ L.name }
    ensures name { result.0.writer.ghost_name ≡ L.name }
    ensures replay { Replays (R.remaining input) (W.contents output.entry.writer.now)
        (W.contents result.0.writer.now) result.1 }
{
    let output: NamedWriter<'w, W, L> = NamedWriter::new(output);
    let (output, answer) = replay(alloc, OverRead::new(input), OverWrite::new(output));
    (output.into_inner().into_lent(), answer)
}

/// Runs the script of a reader, and writes to the writer itself.
fn replay_into<R: Read + Drop, W: Write>(
    alloc: Global,
    input: R,
    output: &mut W,
) -> Result<bool, ReplayFault>
    ensures { Replays (R.remaining input) (W.contents output.old) (W.contents output.new) result }
{
    let output = LentWriter::new(output);
    let (_, answer) = replay_lent::<R, W, Brand>(alloc, input, output);
    answer
}

/// Runs the script of the input.
fn run_replay<R: Read + Drop, W: Write, E: Write>(
    alloc: Global,
    input: R,
    output: &mut W,
    errors: &mut E,
) -> u8
    ensures status { result ≤ 1 }
    ensures replay { (answer : Result Bool ReplayFault) × ((result ≡ 0) ↔ answer ≡ Ok true)
        × Replays (R.remaining input) (W.contents output.old) (W.contents output.new) answer }
{
    match replay_into(alloc, input, output) {
        Ok(true) => 0,
        Ok(false) => 1,
        Err(fault) => {
            tell(errors, &fault);
            1
        }
    }
}
