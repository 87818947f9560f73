//! Scripts that are replayed: their commands are run in order, and each prints one line.
//!
//! A script is bytes, at most 1,048,576 of them, in lines that are ended by a line feed, which the last one
//! may lack. Lines are numbered from 1. An empty line and a line that begins with `#` do nothing. Any other
//! line is a command: words between single spaces. A number is 1 to 19 decimal digits. The first command
//! decides: `account` begins an account script, any other a session script.
//!
//! An account script moves the account of one server. Each command prints `budget C deadline D`, as the
//! account then stands:
//!
//! | Command | What happens to the account |
//! |---|---|
//! | `account Q T` | a new one, of maximum budget `Q` and period `T` |
//! | `idle R`, `R` at most 2^60 | a job arrives at the moment `R` and finds the server idle |
//! | `charge K` | `K` units of work were done |
//!
//! A session script first sets up streams and the workers that they share:
//!
//! | Command | What is set up | What it prints |
//! |---|---|---|
//! | `workers N`, `quantum K` | how many workers, and the most bands of a lease; at first 1 and 4 | `ok` |
//! | `band B` | for the streams that follow: the luma rows of a band; at first 16 | `ok` |
//! | `frames N` | for the streams that follow: the most frames; at first 16,777,216 | `ok` |
//! | `stream NAME Q T QUEUE OUTBOX OPS HEADER` | one more stream; `HEADER` is all that follows | `stream S` |
//! | `start` | the machine is made | `started` |
//!
//! From then on each command is an event of that machine, or shows a stream:
//!
//! | Command | What it prints |
//! |---|---|
//! | `arrive NAME HEX` | `accepted SEQ` |
//! | `lease W` | `leased NAME SEQ grant G` |
//! | `band W` | `stepped` |
//! | `settle W` | `returned` or `finished SEQ` |
//! | `tick N` | `ticked` |
//! | `close NAME` | `closing` |
//! | `collect NAME` | `image HEX` |
//! | `admit NAME Q T QUEUE OUTBOX OPS HEADER` | `admitted S` |
//! | `state NAME` | `budget C deadline D accepted A finished F collected K charged U` |
//!
//! What the machine refuses prints `refused N WORD`, and the script goes on. The first fault prints
//! `line N: WORD`, and nothing after it is run.
#![tactic(auto)]

ghost use Rattle.std.specs.Prelude.{◌≡◌, IfSome, IsErrOf, OnOk, true};
ghost use Rattle.std.specs.Io.KnownBytes.{Keeps};
ghost use Rattle.std.specs.Option.{option_map};
ghost use Rattle.std.specs.Result.{result_err};
ghost use Rattle.serve_script.specs.ScriptDevices.{OnTold, TakesScript, reads_told, writes_told};
ghost use Rattle.serve_script.specs.ScriptFault.{fault_told};
ghost use Rattle.serve_script.specs.ScriptInside.{IsWritten, Reports, stop_told};
ghost use Rattle.serve_script.specs.ScriptReplay.{IsReplay, answer_at, answer_of};
ghost use Rattle.serve_script.specs.ScriptReport.{IsKeptReport};

use self::fault::{ScriptFault, ScriptStop};
use self::input::read_front;
use self::output::write_report;
use self::run::run_lines;
use std::alloc::Global;
use y4m_stream::{Sink, Source};

mod account;
mod command;
mod fault;
mod input;
mod lines;
mod output;
mod print;
mod run;
mod session;

pub use self::fault::ReplayFault;
pub use self::session::line::{push_reply, push_state};

/// The longest script, in bytes.
pub const SCRIPT_LIMIT: usize = 1_048_576;

/// Where a script stops that couldn't be kept.
const UNKEPT: ScriptStop<'static> = ScriptStop {
    line: 0,
    fault: ScriptFault::NoMemory,
};

/// Runs a script and writes the lines that it prints. It answers whether every line was run: `false` where
/// the script has a fault, whose line is then the last one.
///
/// A script that is too long is not read past the byte that makes it so. `input` is dropped.
pub fn replay<R: Source + Drop, W: Sink>(
    alloc: Global,
    mut input: R,
    mut output: W,
) -> (W, Result<bool, ReplayFault>)
    ensures replay { IfSome (R.remaining input)
        (λ script. IsReplay script (W.contents output) (W.contents result.0) result.1) }
    ensures unread { IsErrOf result.1 ReplayFault.Read → Keeps (W.contents output) (W.contents result.0) }

    // As the source was when it was given up.
    ensures reads { (last : R) × (R.failures last ≡ reads_told result.1 (R.failures input))
        × OnOk result.1 (TakesScript (R.remaining input) (R.remaining last)) }
    ensures writes { W.failures result.0 ≡ writes_told result.1 (W.failures output) }
    ensures flushed { OnTold result.1 (W.is_flushed result.0 ≡ true) }
{
    let answer = replay_through(alloc, &mut input, &mut output);
    (output, answer)
}

/// Runs a script from an input that is lent, and writes its lines to an output that is lent.
fn replay_through<R: Source, W: Sink>(
    alloc: Global,
    input: &mut R,
    output: &mut W,
) -> Result<bool, ReplayFault>
    ensures replay { IfSome (R.remaining input.old)
        (λ script. IsReplay script (W.contents output.old) (W.contents output.new) result) }
    ensures unread { IsErrOf result ReplayFault.Read → Keeps (W.contents output.old) (W.contents output.new) }

    ensures reads { R.failures input.new ≡ reads_told result (R.failures input.old) }
    ensures taken { OnOk result (TakesScript (R.remaining input.old) (R.remaining input.new)) }
    ensures writes { W.failures output.new ≡ writes_told result (W.failures output.old) }
    ensures flushed { OnTold result (W.is_flushed output.new ≡ true) }
{
    let script = match read_front(alloc, input, SCRIPT_LIMIT + 1) {
        Ok(script) => script,
        Err(ReplayFault::NoMemory) => {
            return tell(output, b"".as_slice(), Some(UNKEPT));
        }
        Err(fault) => return Err(fault),
    };
    let mut printed = Vec::new(alloc);
    let stop = run_script(alloc, &script, &mut printed).err();
    tell(output, &printed, stop)
}

/// Writes a report: what was printed, and then the line of the stop, if there is one. It answers what a
/// replay answers then.
fn tell<W: Sink>(
    output: &mut W,
    printed: &[u8],
    stop: Option<ScriptStop<'_>>,
) -> Result<bool, ReplayFault>
    ensures written { IsWritten (W.contents output.old) (W.contents output.new)
        printed.now (option_map stop_told stop.entry) result }
    ensures writes { W.failures output.new ≡ writes_told result (W.failures output.old) }
    ensures flushed { OnTold result (W.is_flushed output.new ≡ true) }
{
    write_report(output, printed, stop)?;
    answer_of(stop)
}

/// What a replay answers once its report is written.
fn answer_of(stop: Option<ScriptStop<'_>>) -> Result<bool, ReplayFault>
    ensures { result ≡ answer_of (option_map stop_told stop.entry) }
{
    match stop {
        None => Ok(true),
        Some(stop) => answer_at(stop.fault),
    }
}

/// What a replay answers behind a stop for this fault.
fn answer_at(fault: ScriptFault<'_>) -> Result<bool, ReplayFault>
    ensures { result ≡ answer_at (fault_told fault.entry) }
{
    match fault {
        ScriptFault::NoMemory => Err(ReplayFault::NoMemory),
        _ => Ok(false),
    }
}

/// Runs a script's lines up to the first fault, and appends what its commands print.
fn run_script<'a>(
    alloc: Global,
    script: &'a [u8],
    printed: &mut Vec<u8>,
) -> Result<(), ScriptStop<'a>>
    ensures { Reports (IsKeptReport script.now) (result_err result) printed.old.items printed.new.items }
{
    if script.len() > SCRIPT_LIMIT {
        return Err(ScriptStop {
            line: 0,
            fault: ScriptFault::TooLong,
        });
    }
    run_lines(alloc, script, printed)
}
