//! The run of a script: its lines in order, up to the first fault.
ghost use Rattle.std.specs.Prelude.{◌≡◌, ◌≤◌, length};
ghost use Rattle.std.specs.Result.{result_err};
ghost use Rattle.serve_script.specs.LineEnds.{Ends, EndsFrom, RunLineGives};
ghost use Rattle.serve_script.specs.ScriptInside.{Reports, Stands};
ghost use Rattle.serve_script.specs.ScriptReport.{CommandGives, IsOfLines, SetupLineGives, begins_account};
ghost use Rattle.serve_script.specs.ScriptText.{script_lines};
ghost use Rattle.serve_script.specs.SessionCommand.{setup_told, stream_told};
ghost use Rattle.serve_script.specs.SessionInside.{IsAt};
ghost use Rattle.serve_script.specs.SessionSetup.{BandGives, SetupGives, StartGives, StreamGives, settled};

use super::SCRIPT_LIMIT;
use super::account::run_account_line;
use super::fault::{ScriptFault, ScriptStop};
use super::lines::{first_line, is_silent};
use super::session::line::push_stream;
use super::session::pieces::push_line;
use super::session::preparation::Preparation;
use super::session::run_command::parse_run;
use super::session::running::Session;
use super::session::setup_command::{SetupCommand, parse_setup};
use super::session::stream_command::StreamCommand;
use cbs_account::Account;
use std::alloc::Global;
use y4m_header::text::cut;

/// What the lines of a script so far have begun.
#[derive(Drop)]
pub enum Script<'a> {
    /// No line was a command.
    Fresh,
    /// An account script.
    Account(Account),
    /// A session script before its `start`.
    Preparation(Preparation<'a>),
    /// A session script after its `start`.
    Session(Session<'a>),
}

/// Runs the lines of a script in order, up to the first fault, and appends what each command prints. The line
/// of the stop isn't appended.
pub fn run_lines<'a>(
    alloc: Global,
    script: &'a [u8],
    printed: &mut Vec<u8>,
) -> Result<(), ScriptStop<'a>>
    requires { length script.now ≤ SCRIPT_LIMIT }
    ensures { Reports (IsOfLines (script_lines script.now))
        (result_err result) printed.old.items printed.new.items }
{
    let mut state = Script::Fresh;
    let mut rest = script;
    let mut number = 0u64;
    while !rest.is_empty() {
        number += 1;
        let (line, more) = first_line(rest);
        if !is_silent(line) {
            match run_line(alloc, state, line, printed) {
                Ok(next) => state = next,
                Err(fault) => return Err(ScriptStop {
                    line: number,
                    fault,
                }),
            }
        }
        rest = more;
    }
    Ok(())
}

/// Runs the command of a line and appends its answer. It answers what the command leaves.
fn run_line<'a>(
    alloc: Global,
    script: Script<'a>,
    line: &'a [u8],
    printed: &mut Vec<u8>,
) -> Result<Script<'a>, ScriptFault<'a>>
    ensures { EndsFrom (Stands script.entry) (λ state. CommandGives state line.now) result
        printed.old.items printed.new.items }
{
    match script {
        Script::Fresh => {
            if begins_account(line) {
                run_account_line(None, line, printed)
            } else {
                run_setup_line(alloc, Preparation::new(alloc), line, printed)
            }
        }
        Script::Account(account) => run_account_line(Some(account), line, printed),
        Script::Preparation(preparation) => run_setup_line(alloc, preparation, line, printed),
        Script::Session(session) => run_session_line(alloc, session, line, printed),
    }
}

/// Whether a script whose first command is this line is an account script.
fn begins_account(line: &[u8]) -> bool
    ensures { result ≡ begins_account line.now }
{
    let (word, _) = cut(b' ', line);
    word == b"account".as_slice()
}

/// Runs the command of a line behind `start`.
fn run_session_line<'a>(
    alloc: Global,
    session: Session<'a>,
    line: &'a [u8],
    printed: &mut Vec<u8>,
) -> Result<Script<'a>, ScriptFault<'a>>
    ensures { EndsFrom (IsAt session.entry) (RunLineGives line.now) result
        printed.old.items printed.new.items }
{
    let command = parse_run(line).ok_or(ScriptFault::BadLine)?;
    let mut session = session;
    session.run(alloc, command, printed)?;
    Ok(Script::Session(session))
}

/// Runs the command of a line before `start`.
fn run_setup_line<'a>(
    alloc: Global,
    preparation: Preparation<'a>,
    line: &'a [u8],
    printed: &mut Vec<u8>,
) -> Result<Script<'a>, ScriptFault<'a>>
    ensures { Ends (SetupLineGives preparation.entry line.now) result printed.old.items printed.new.items }
{
    let command = parse_setup(line).ok_or(ScriptFault::BadLine)?;
    run_setup(alloc, preparation, command, printed)
}

/// Runs a command before `start`.
fn run_setup<'a>(
    alloc: Global,
    preparation: Preparation<'a>,
    command: SetupCommand<'a>,
    printed: &mut Vec<u8>,
) -> Result<Script<'a>, ScriptFault<'a>>
    ensures { Ends (SetupGives preparation.entry (setup_told command.entry)) result
        printed.old.items printed.new.items }
{
    match command {
        SetupCommand::Workers { count } => after_setup_line(
            preparation.with_workers(count),
            printed,
        ),
        SetupCommand::Quantum { bands } => after_setup_line(
            preparation.with_quantum(bands),
            printed,
        ),
        SetupCommand::Band { rows } => run_band(preparation, rows, printed),
        SetupCommand::Frames { most } => after_setup_line(preparation.with_frames(most), printed),
        SetupCommand::Stream(stream) => run_stream(alloc, preparation, stream, printed),
        SetupCommand::Start => run_start(alloc, preparation, printed),
    }
}

/// Appends the answer of a setting.
fn after_setup_line<'a>(
    preparation: Preparation<'a>,
    printed: &mut Vec<u8>,
) -> Result<Script<'a>, ScriptFault<'a>>
    ensures { Ends (λ given. given ≡ settled preparation.entry) result printed.old.items printed.new.items }
{
    push_line(printed, b"ok".as_slice())?;
    Ok(Script::Preparation(preparation))
}

/// Runs `band`.
fn run_band<'a>(
    preparation: Preparation<'a>,
    rows: u64,
    printed: &mut Vec<u8>,
) -> Result<Script<'a>, ScriptFault<'a>>
    ensures { Ends (BandGives preparation.entry rows) result printed.old.items printed.new.items }
{
    let next = preparation.with_band(rows)?;
    after_setup_line(next, printed)
}

/// Runs `stream`.
fn run_stream<'a>(
    alloc: Global,
    preparation: Preparation<'a>,
    stream: StreamCommand<'a>,
    printed: &mut Vec<u8>,
) -> Result<Script<'a>, ScriptFault<'a>>
    ensures { Ends (StreamGives preparation.entry (stream_told stream.entry)) result
        printed.old.items printed.new.items }
{
    let number = preparation.count();
    let next = preparation.with_stream(alloc, stream)?;
    push_stream(printed, number)?;
    Ok(Script::Preparation(next))
}

/// Runs `start`.
fn run_start<'a>(
    alloc: Global,
    preparation: Preparation<'a>,
    printed: &mut Vec<u8>,
) -> Result<Script<'a>, ScriptFault<'a>>
    ensures { Ends (StartGives preparation.entry) result printed.old.items printed.new.items }
{
    let session = preparation.start(alloc)?;
    push_line(printed, b"started".as_slice())?;
    Ok(Script::Session(session))
}
