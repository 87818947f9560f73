//! The commands of a session script after its `start`.
ghost use Rattle.std.specs.Prelude.{◌≡◌, IfSome};
ghost use Rattle.std.specs.Option.{option_map};
ghost use Rattle.serve_script.specs.SessionCommand.{HasHex, arrival_of, run_of, run_told, run_with};

use super::stream_command::{StreamCommand, parse_stream};
use super::word::{is_hex, parse_name, parse_worker};
use crate::command::parse_number;
use y4m_header::text::{cut, is_name};

/// A command that a session script may have after its `start`.
#[derive(Clone, Copy)]
pub enum RunCommand<'a> {
    /// `arrive NAME HEX`: a frame arrives, whose data are pairs of hexadecimal digits.
    Arrive { name: &'a [u8], hex: &'a [u8] },
    /// `lease W`: a worker asks for a lease.
    Lease { worker: u32 },
    /// `band W`: a worker does the next band of its lease.
    Step { worker: u32 },
    /// `settle W`: a worker gives its lease back.
    Settle { worker: u32 },
    /// `tick N`: the clock goes on to a moment.
    Tick { moment: u64 },
    /// `close NAME`: a stream gets no more frames.
    Close { name: &'a [u8] },
    /// `collect NAME`: the oldest image of a stream is asked for.
    Collect { name: &'a [u8] },
    /// `admit NAME ..`: one stream more is asked for.
    Admit(StreamCommand<'a>),
    /// `state NAME`: the account and the counts of a stream are asked for.
    State { name: &'a [u8] },
}

/// The command that a line after `start` writes. No stream may have the name, and no worker the number.
pub fn parse_run(line: &[u8]) -> Option<RunCommand<'_>>
    ensures command { option_map run_told result ≡ run_of line.now }
    ensures hex { IfSome result (λ command. HasHex (run_told command)) }
{
    let (word, rest) = cut(b' ', line);
    parse_with(word, rest?)
}

/// The command of this first word, with what stands behind it.
fn parse_with<'a>(word: &[u8], rest: &'a [u8]) -> Option<RunCommand<'a>>
    ensures command { option_map run_told result ≡ run_with word.now rest.now }
    ensures hex { IfSome result (λ command. HasHex (run_told command)) }
{
    if word == b"arrive".as_slice() {
        parse_arrival(rest)
    } else if word == b"lease".as_slice() {
        let worker = parse_worker(rest)?;
        Some(RunCommand::Lease { worker })
    } else if word == b"band".as_slice() {
        let worker = parse_worker(rest)?;
        Some(RunCommand::Step { worker })
    } else if word == b"settle".as_slice() {
        let worker = parse_worker(rest)?;
        Some(RunCommand::Settle { worker })
    } else if word == b"tick".as_slice() {
        let moment = parse_number(rest)?;
        Some(RunCommand::Tick { moment })
    } else if word == b"close".as_slice() {
        let name = parse_name(rest)?;
        Some(RunCommand::Close { name })
    } else if word == b"collect".as_slice() {
        let name = parse_name(rest)?;
        Some(RunCommand::Collect { name })
    } else if word == b"admit".as_slice() {
        let stream = parse_stream(rest)?;
        Some(RunCommand::Admit(stream))
    } else if word == b"state".as_slice() {
        let name = parse_name(rest)?;
        Some(RunCommand::State { name })
    } else {
        None
    }
}

/// The arrival that the text behind `arrive` asks for.
fn parse_arrival(text: &[u8]) -> Option<RunCommand<'_>>
    ensures command { option_map run_told result ≡ arrival_of text.now }
    ensures hex { IfSome result (λ command. HasHex (run_told command)) }
{
    let (name, rest) = cut(b' ', text);
    let hex = rest?;
    if is_name(name) && is_hex(hex) {
        Some(RunCommand::Arrive { name, hex })
    } else {
        None
    }
}
