//! The command, its subcommands and their options.
ghost use Rattle.std.specs.Prelude.{◌≡◌, IfOk};
ghost use Rattle.clap.specs.Simple.{app_of};
ghost use Rattle.serve_words.specs.CommandLine as line;
ghost use Rattle.serve_words.specs.CommandLine.{IsArgument, IsCommand};

use crate::help;
use crate::request::{FEWEST_JOURNAL, MOST_MICROSECONDS};
use cbs_account::limits::{MOST_ENTRIES, MOST_QUANTUM, MOST_WORKERS};
use clap::builder::ValueParser;
use clap::{Arg, ArgAction, Command, value_parser};
use row_bands::{FEWEST_BAND_ROWS, MOST_BAND_ROWS};
use std::alloc::{AllocError, Global};

/// The program's version, and the kit and the logic that it is proved with.
const VERSION: &str = "0.1.0 (rattle-kit-13f logic dac8208d650f15bf)";

/// An option that takes a number.
fn number_option<'a>(
    alloc: Global,
    name: &'a str,
    value_name: &'a str,
    parser: ValueParser<'a>,
) -> Arg<'a>
    ensures { IsArgument (line.valued name.entry.now parser.entry) result }
{
    Arg::new(alloc, name)
        .long(name)
        .action(ArgAction::Set)
        .value_name(value_name)
        .value_parser(parser)
}

fn band_option<'a>(alloc: Global) -> Arg<'a>
    ensures { IsArgument line.band result }
{
    let rows = i64::from(FEWEST_BAND_ROWS)..=i64::from(MOST_BAND_ROWS);
    number_option(alloc, "band", "B", value_parser!(u32).range(rows))
        .default_value("16")
        .help(help::BAND)
        .long_help(help::BAND_LONG)
}

fn threads_option<'a>(alloc: Global) -> Arg<'a>
    ensures { IsArgument line.threads result }
{
    number_option(alloc, "threads", "N", value_parser!(u32).range(1..=2))
        .default_value("2")
        .help(help::THREADS)
        .long_help(help::THREADS_LONG)
}

fn workers_option<'a>(alloc: Global) -> Arg<'a>
    ensures { IsArgument line.workers result }
{
    number_option(
        alloc,
        "workers",
        "N",
        value_parser!(u32).range(1..=MOST_WORKERS as i64),
    )
    .default_value("2")
    .help(help::WORKERS)
    .long_help(help::WORKERS_LONG)
}

fn quantum_option<'a>(alloc: Global) -> Arg<'a>
    ensures { IsArgument line.quantum result }
{
    number_option(
        alloc,
        "quantum",
        "K",
        value_parser!(u32).range(1..=MOST_QUANTUM as i64),
    )
    .default_value("8")
    .help(help::QUANTUM)
    .long_help(help::QUANTUM_LONG)
}

fn journal_option<'a>(alloc: Global) -> Arg<'a>
    ensures { IsArgument line.journal result }
{
    number_option(
        alloc,
        "journal",
        "N",
        value_parser!(u32).range(FEWEST_JOURNAL as i64..=MOST_ENTRIES as i64),
    )
    .default_value("65536")
    .help(help::JOURNAL)
    .long_help(help::JOURNAL_LONG)
}

fn control_option<'a>(alloc: Global) -> Arg<'a>
    ensures { IsArgument line.control result }
{
    Arg::new(alloc, "control")
        .long("control")
        .action(ArgAction::Set)
        .value_name("FILE")
        .help(help::CONTROL)
        .long_help(help::CONTROL_LONG)
}

fn moment_option<'a>(alloc: Global) -> Arg<'a>
    ensures { IsArgument line.moment result }
{
    number_option(
        alloc,
        "moment",
        "US",
        value_parser!(u32).range(1..=MOST_MICROSECONDS as i64),
    )
    .help(help::MOMENT)
    .long_help(help::MOMENT_LONG)
}

fn trace_option<'a>(alloc: Global) -> Arg<'a>
    ensures { IsArgument line.trace result }
{
    Arg::new(alloc, "trace")
        .long("trace")
        .action(ArgAction::Set)
        .value_name("FILE")
        .help(help::TRACE)
        .long_help(help::TRACE_LONG)
}

fn quiet_flag<'a>(alloc: Global, help: &'a str) -> Arg<'a>
    ensures { IsArgument line.quiet result }
{
    Arg::new(alloc, "quiet")
        .short('q')
        .long("quiet")
        .action(ArgAction::SetTrue)
        .help(help)
}

fn operations_argument<'a>(alloc: Global) -> Arg<'a>
    ensures { IsArgument line.operations result }
{
    Arg::new(alloc, "OPS")
        .required(true)
        .action(ArgAction::Set)
        .help(help::OPERATIONS)
}

fn streams_argument<'a>(alloc: Global) -> Arg<'a>
    ensures { IsArgument line.streams result }
{
    Arg::new(alloc, "STREAM")
        .action(ArgAction::Append)
        .num_args(1..)
        .value_name("NAME:IN:OUT:Q:T:OPS")
        .help(help::STREAM)
        .long_help(help::STREAM_LONG)
}

fn filter_command<'a>(alloc: Global) -> Result<Command<'a>, AllocError>
    ensures { IfOk result (IsCommand line.filter) }
{
    Command::new(alloc, "filter")
        .about(help::FILTER)
        .long_about(help::FILTER_LONG)
        .after_long_help(help::FILTER_PAGE)
        .arg(operations_argument(alloc))?
        .arg(band_option(alloc))?
        .arg(threads_option(alloc))?
        .arg(quiet_flag(alloc, help::QUIET))
}

fn replay_command<'a>(alloc: Global) -> Command<'a>
    ensures { IsCommand line.replay result }
{
    Command::new(alloc, "replay")
        .about(help::REPLAY)
        .long_about(help::REPLAY_LONG)
        .after_long_help(help::REPLAY_PAGE)
}

fn serve_command<'a>(alloc: Global) -> Result<Command<'a>, AllocError>
    ensures { IfOk result (IsCommand line.serve) }
{
    Command::new(alloc, "serve")
        .about(help::SERVE)
        .long_about(help::SERVE_LONG)
        .after_long_help(help::SERVE_PAGE)
        .arg(workers_option(alloc))?
        .arg(band_option(alloc))?
        .arg(quantum_option(alloc))?
        .arg(journal_option(alloc))?
        .arg(control_option(alloc))?
        .arg(moment_option(alloc))?
        .arg(trace_option(alloc))?
        .arg(quiet_flag(alloc, help::SERVE_QUIET))?
        .arg(streams_argument(alloc))
}

/// The command that the program is.
pub fn command<'a>(alloc: Global) -> Result<Command<'a>, AllocError>
    ensures { IfOk result (λ command. app_of command ≡ line.y4mserve) }
{
    Command::new(alloc, "y4mserve")
        .version(VERSION)
        .about(help::ABOUT)
        .after_long_help(help::PAGE)
        .no_binary_name(true)
        .bin_name("y4mserve")?
        .subcommand_required(true)
        .subcommand(filter_command(alloc)?)?
        .subcommand(replay_command(alloc))?
        .subcommand(serve_command(alloc)?)
}
