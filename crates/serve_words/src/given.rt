//! What the words of the command line give for each option.
ghost use Rattle.std.specs.Prelude.{◌≡◌, IfOk, codes, option_map};
ghost use Rattle.clap.specs.Walk.{first_of};
ghost use Rattle.serve_words.specs.Options.{HasFilterOptions, HasServeOptions, IsFlagOf, IsNumberIn};
ghost use Rattle.serve_words.specs.Options.{IsNumberOf, found_in, text_of, texts_of};
ghost use Rattle.serve_words.specs.StreamWords.{words_asked};

use crate::request::{FEWEST_JOURNAL, FilterWords, ServeWords};
use cbs_account::limits::{MOST_ENTRIES, MOST_QUANTUM, MOST_WORKERS};
use clap::ArgMatches;
use std::alloc::{AllocError, Global};

/// The words that name the streams.
fn stream_words<'a>(alloc: Global, matches: &ArgMatches<'a>) -> Result<Vec<&'a str>, AllocError>
    ensures { IfOk result (λ streams.
        words_asked streams.items ≡ texts_of (found_in matches.now) (codes "STREAM")) }
{
    let mut streams = Vec::new(alloc);
    for word in matches.get_strs("STREAM").unwrap_or(&[]) {
        streams.push(*word)?;
    }
    Ok(streams)
}

/// The number of an option.
fn number_of(matches: &ArgMatches<'_>, name: &str, default: u32) -> u32
    ensures { IsNumberOf (found_in matches.now) name.now default result }
{
    matches.get_one::<u32>(name).unwrap_or(default)
}

/// The number of an option that the words may lack.
fn number_in(matches: &ArgMatches<'_>, name: &str) -> Option<u32>
    ensures { IsNumberIn (found_in matches.now) name.now result }
{
    matches.get_one::<u32>(name)
}

/// The file of a control.
fn control_of<'a>(matches: &ArgMatches<'a>) -> Option<&'a str>
    ensures { option_map (λ file. file.now) result ≡ first_of (codes "control") (found_in matches.now) }
{
    matches.get_str("control")
}

/// The file of a trace.
fn trace_of<'a>(matches: &ArgMatches<'a>) -> Option<&'a str>
    ensures { option_map (λ file. file.now) result ≡ first_of (codes "trace") (found_in matches.now) }
{
    matches.get_str("trace")
}

/// Whether a flag is raised.
fn flag_of(matches: &ArgMatches<'_>, name: &str) -> bool
    ensures { IsFlagOf (found_in matches.now) name.now result }
{
    matches.get_flag(name)
}

/// The operations.
fn operations_of<'a>(matches: &ArgMatches<'a>) -> &'a str
    ensures { result.now ≡ text_of (found_in matches.now) (codes "OPS") }
{
    matches.get_str("OPS").unwrap_or("")
}

/// What a stream is filtered by.
pub fn filter_words<'a>(matches: &ArgMatches<'a>) -> FilterWords<'a>
    ensures { HasFilterOptions (found_in matches.now) result }
{
    FilterWords {
        operations: operations_of(matches),
        band: number_of(matches, "band", 16),
        threads: number_of(matches, "threads", 2),
        is_quiet: flag_of(matches, "quiet"),
    }
}

/// The streams that are served, and by what.
pub fn serve_words<'a>(
    alloc: Global,
    matches: &ArgMatches<'a>,
) -> Result<ServeWords<'a>, AllocError>
    ensures { IfOk result (HasServeOptions (found_in matches.now)) }
{
    Ok(ServeWords {
        workers: number_of(matches, "workers", 2).clamp(1, MOST_WORKERS as u32),
        band: number_of(matches, "band", 16),
        quantum: number_of(matches, "quantum", 8).clamp(1, MOST_QUANTUM as u32),
        journal: number_of(matches, "journal", 65_536).clamp(
            FEWEST_JOURNAL as u32,
            MOST_ENTRIES as u32,
        ),
        is_quiet: flag_of(matches, "quiet"),
        control: control_of(matches),
        moment: number_in(matches, "moment"),
        trace: trace_of(matches),
        streams: stream_words(alloc, matches)?,
    })
}
