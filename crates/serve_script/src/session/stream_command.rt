//! The words of a stream, as they stand behind `stream` before the `start` of a session script and behind
//! `admit` after it.
ghost use Rattle.std.specs.Prelude.{◌≡◌, IfSome, IfNone};
ghost use Rattle.std.specs.Option.{option_map};
ghost use Rattle.serve_script.specs.SessionCommand.{parts_of, stream_of, stream_told};
ghost use Rattle.serve_script.specs.SessionWords.{cut_at_spaces};

use crate::command::parse_number;
use y4m_header::text::{cut, is_name};

/// `NAME Q T QUEUE OUTBOX OPS HEADER`: one more stream, of maximum budget `q` and period `t`.
///
/// The header is all that follows the space behind the operations. Neither of both is read yet.
#[derive(Clone, Copy)]
pub struct StreamCommand<'a> {
    pub name: &'a [u8],
    pub q: u64,
    pub t: u64,
    /// How many frames may be unfinished.
    pub queue: u64,
    /// How many images may wait for collection.
    pub outbox: u64,
    pub operations: &'a [u8],
    pub header: &'a [u8],
}

/// The words of a stream's line, before the numbers among them are read.
#[derive(Clone, Copy)]
struct StreamWords<'a> {
    name: &'a [u8],
    q: &'a [u8],
    t: &'a [u8],
    queue: &'a [u8],
    outbox: &'a [u8],
    operations: &'a [u8],
    header: &'a [u8],
}

/// The stream that the text behind `stream` or `admit` asks for.
pub fn parse_stream(text: &[u8]) -> Option<StreamCommand<'_>>
    ensures { option_map stream_told result ≡ stream_of text.now }
{
    let words = stream_words(text)?;
    if !is_name(words.name) || words.operations.is_empty() {
        return None;
    }
    Some(StreamCommand {
        name: words.name,
        q: parse_number(words.q)?,
        t: parse_number(words.t)?,
        queue: parse_number(words.queue)?,
        outbox: parse_number(words.outbox)?,
        operations: words.operations,
        header: words.header,
    })
}

/// The words of a stream's line, if there are so many.
fn stream_words(text: &[u8]) -> Option<StreamWords<'_>>
    ensures words { IfSome result (λ words. cut_at_spaces 6 text.now ≡ parts_of words) }
    ensures no_stream { IfNone result (stream_of text.now ≡ None) }
{
    let (name, rest) = cut(b' ', text);
    let (q, rest) = cut(b' ', rest?);
    let (t, rest) = cut(b' ', rest?);
    let (queue, rest) = cut(b' ', rest?);
    let (outbox, rest) = cut(b' ', rest?);
    let (operations, rest) = cut(b' ', rest?);
    let header = rest?;
    Some(StreamWords {
        name,
        q,
        t,
        queue,
        outbox,
        operations,
        header,
    })
}
