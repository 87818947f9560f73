//! The commands of a session script before its `start`.
ghost use Rattle.std.specs.Prelude.{◌≡◌};
ghost use Rattle.std.specs.Option.{option_map};
ghost use Rattle.serve_script.specs.SessionCommand.{setup_of, setup_told, setup_with};

use super::stream_command::{StreamCommand, parse_stream};
use crate::command::parse_number;
use y4m_header::text::cut;

/// A command that a session script may have before its `start`.
#[derive(Clone, Copy)]
pub enum SetupCommand<'a> {
    /// `workers N`: there are so many workers.
    Workers { count: u64 },
    /// `quantum K`: a lease has at most so many bands.
    Quantum { bands: u64 },
    /// `band B`: bands of the streams that follow have so many luma rows.
    Band { rows: u64 },
    /// `frames N`: each stream that follows accepts at most so many frames.
    Frames { most: u64 },
    /// A line `stream NAME ..`.
    Stream(StreamCommand<'a>),
    /// `start`: the setup is done.
    Start,
}

/// The command that a line before `start` writes. A number isn't held against its limits, and a name may be
/// taken.
pub fn parse_setup(line: &[u8]) -> Option<SetupCommand<'_>>
    ensures { option_map setup_told result ≡ setup_of line.now }
{
    let (word, rest) = cut(b' ', line);
    match rest {
        None if word == b"start".as_slice() => Some(SetupCommand::Start),
        None => None,
        Some(rest) => parse_with(word, rest),
    }
}

/// The command of this first word, with what stands behind it.
fn parse_with<'a>(word: &[u8], rest: &'a [u8]) -> Option<SetupCommand<'a>>
    ensures { option_map setup_told result ≡ setup_with word.now rest.now }
{
    if word == b"workers".as_slice() {
        Some(SetupCommand::Workers {
            count: parse_number(rest)?,
        })
    } else if word == b"quantum".as_slice() {
        Some(SetupCommand::Quantum {
            bands: parse_number(rest)?,
        })
    } else if word == b"band".as_slice() {
        Some(SetupCommand::Band {
            rows: parse_number(rest)?,
        })
    } else if word == b"frames".as_slice() {
        Some(SetupCommand::Frames {
            most: parse_number(rest)?,
        })
    } else if word == b"stream".as_slice() {
        Some(SetupCommand::Stream(parse_stream(rest)?))
    } else {
        None
    }
}
