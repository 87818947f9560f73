//! What a line of a control asks for.
ghost use Rattle.std.specs.Prelude.{◌≡◌, ◌≤◌, None, Some, IfErr, IfOk, MatchResult, length};
ghost use Rattle.std.specs.Option.{option_map};
ghost use Rattle.cbs_account.specs.Balance.{IsBandwidth};
ghost use Rattle.filters.specs.declared.limits.TheConstants.{MOST_OPS};
ghost use Rattle.serve_script.specs.ScriptText.{is_silent};
ghost use Rattle.serve_report.specs.Control.{IsWrongBy, ask_told, name_to_close, fault_word, line_asks};
ghost use Rattle.serve_report.specs.Control.{text_asks};
ghost use Rattle.serve_words.specs.ServeChecks.{IsSaid};
ghost use Rattle.serve_words.specs.StreamWords.{stream_told};

use cbs_account::{Account, BadBandwidth};
use filters::{FilterError, parse_ops};
use serve_words::{Asked, StreamWord, parse_word_beside};
use std::alloc::Global;
use std::fmt;
use y4m_header::text::is_name;

/// What a line asks for.
#[derive(Clone, Copy)]
pub enum Ask<'a> {
    /// The line is empty or begins with `#`.
    Nothing,
    /// To serve a stream, whose operations and bandwidth aren't checked yet.
    Serve(StreamWord<'a>),
    /// To read no more of the stream of this name.
    Close(&'a str),
    /// To tell how the streams stand.
    State,
    /// To take no stream after it.
    End,
    /// To close all streams, and to take none after it.
    Stop,
}

/// What is wrong with a line.
#[derive(Clone, Copy)]
pub enum LineFault {
    /// The line is longer than 1,024 bytes.
    TooLong,
    /// The line has none of the forms, or the last one isn't ended.
    BadLine,
    /// A stream that hasn't ended has the name.
    BadName,
    /// A file of the stream is in use.
    BadFile,
    /// A part of the operations is none.
    BadOp,
    /// There are more than 8 operations.
    TooManyOps,
    /// The maximum budget and the period are not `1 <= Q <= T <= 1048576`.
    BadBandwidth,
    /// No stream has the name.
    NoStream,
    /// The stream was closed before.
    AlreadyClosed,
    /// No stream is asked for any more.
    Ended,
    /// There was no memory for it.
    NoMemory,
}

impl LineFault {
    /// The word that it is told by, its own name.
    pub fn word(&self) -> &'static str
        ensures { result.now ≡ fault_word self.now }
    {
        match self {
            LineFault::TooLong => "TooLong",
            LineFault::BadLine => "BadLine",
            LineFault::BadName => "BadName",
            LineFault::BadFile => "BadFile",
            LineFault::BadOp => "BadOp",
            LineFault::TooManyOps => "TooManyOps",
            LineFault::BadBandwidth => "BadBandwidth",
            LineFault::NoStream => "NoStream",
            LineFault::AlreadyClosed => "AlreadyClosed",
            LineFault::Ended => "Ended",
            LineFault::NoMemory => "NoMemory",
        }
    }
}

impl fmt::Display for LineFault {
    ghost use Rattle.std.specs.Prelude.{Some};
    ghost use Rattle.serve_report.specs.Control.{fault_word};

    ghost output = { λ fault. Some (fault_word fault) };

    fn fmt<W: fmt::Write>(&self, f: &mut fmt::Formatter<W>) -> fmt::Result {
        f.write_str(self.word())
    }
}

/// What a line asks for, by its form alone; a fault is `BadLine`. Where the control is standard input, that
/// is taken: no stream is read from it.
pub fn parse_line(line: &[u8], is_input_taken: bool) -> Result<Ask<'_>, LineFault>
    ensures { MatchResult result (λ ask. line_asks is_input_taken line.now ≡ Some (ask_told ask))
        (λ fault. (fault ≡ LineFault.BadLine) × (line_asks is_input_taken line.now ≡ None)) }
{
    if is_silent(line) {
        return Ok(Ask::Nothing);
    }
    let Ok(text) = str::from_utf8(line) else {
        return Err(LineFault::BadLine);
    };
    match ask_of(text, is_input_taken) {
        Some(ask) => Ok(ask),
        None => Err(LineFault::BadLine),
    }
}

/// Whether a line does nothing: it is empty, or begins with `#`.
fn is_silent(line: &[u8]) -> bool
    ensures { result ≡ is_silent line.now }
{
    match line.first() {
        Some(first) => *first == b'#',
        None => true,
    }
}

/// What a text asks for, if it does.
fn ask_of(text: &str, is_input_taken: bool) -> Option<Ask<'_>>
    ensures { option_map ask_told result ≡ text_asks is_input_taken text.now }
{
    if text == "state" {
        return Some(Ask::State);
    }
    if text == "end" {
        return Some(Ask::End);
    }
    if text == "stop" {
        return Some(Ask::Stop);
    }
    if let Some(name) = name_to_close(text) {
        return Some(Ask::Close(name));
    }
    let word = parse_word_beside(text, is_input_taken)?;
    Some(Ask::Serve(word))
}

/// The name in a line that closes a stream, if it is one.
fn name_to_close(text: &str) -> Option<&str>
    ensures { option_map (λ name. name.now) result ≡ name_to_close text.now }
{
    let (first, name) = text.split_once(' ')?;
    if first == "close" && is_name(name.as_bytes()) {
        Some(name)
    } else {
        None
    }
}

/// The stream that a line asks for, or what is wrong with its operations, or else with its bandwidth.
pub fn check_stream<'a>(alloc: Global, word: StreamWord<'a>) -> Result<Asked<'a>, LineFault>
    ensures stream { IfOk result (λ asked. asked.word ≡ word.entry) }
    ensures ops { IfOk result IsSaid }
    ensures few_ops { IfOk result (λ asked. length asked.ops.items ≤ MOST_OPS) }
    ensures bandwidth { IfOk result (λ asked. IsBandwidth word.entry.q word.entry.t) }
    ensures fault { IfErr result (IsWrongBy (stream_told word.entry)) }
{
    let ops = match parse_ops(alloc, word.operations.as_bytes()) {
        Ok(ops) => ops,
        Err(FilterError::NoMemory) => return Err(LineFault::NoMemory),
        Err(FilterError::TooManyOps) => return Err(LineFault::TooManyOps),
        Err(_) => return Err(LineFault::BadOp),
    };
    match Account::new(word.q, word.t) {
        Ok(_) => Ok(Asked { word, ops }),
        Err(BadBandwidth) => Err(LineFault::BadBandwidth),
    }
}
