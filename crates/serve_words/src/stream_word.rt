//! The words that name a stream.
ghost use Rattle.std.specs.Prelude.{◌≡◌, None, Some, MatchOption};
ghost use Rattle.std.specs.List.{before_first};
ghost use Rattle.std.specs.Option.{option_map};
ghost use Rattle.std.specs.Prelude.{◌==◌};
ghost use Rattle.y4m_header.specs.Text.{text_after};
ghost use Rattle.serve_words.specs.StreamWords.{cut_at_colons, parts_of, stream_beside, stream_of};
ghost use Rattle.serve_words.specs.StreamWords.{stream_told};

use y4m_header::text::{MOST_DIGITS, decimal_number, is_name};

/// Where standard input is found.
const INPUT: &str = "/dev/stdin";

/// A stream as its word has it, `NAME:IN:OUT:Q:T:OPS`: `q` units of work in every `t` moments.
#[derive(Clone, Copy)]
pub struct StreamWord<'a> {
    pub name: &'a str,
    pub input: &'a str,
    pub output: &'a str,
    pub q: u64,
    pub t: u64,
    pub operations: &'a str,
}

/// The parts of a word, before its numbers are read.
#[derive(Clone, Copy)]
struct WordParts<'a> {
    name: &'a str,
    input: &'a str,
    output: &'a str,
    q: &'a str,
    t: &'a str,
    operations: &'a str,
}

/// The stream of a word, which is split at its first five colons, where each part has its form. The
/// operations, which may hold more colons, aren't read.
fn parse_stream_word(word: &str) -> Option<StreamWord<'_>>
    ensures { option_map stream_told result ≡ stream_of word.now }
{
    let parts = word_parts(word)?;
    let has_files = !parts.input.is_empty() && !parts.output.is_empty();
    if !is_name(parts.name.as_bytes()) || !has_files {
        return None;
    }
    Some(StreamWord {
        name: parts.name,
        input: parts.input,
        output: parts.output,
        q: decimal_number(MOST_DIGITS, parts.q.as_bytes())?,
        t: decimal_number(MOST_DIGITS, parts.t.as_bytes())?,
        operations: parts.operations,
    })
}

/// A word of a stream where standard input may be taken by something else: no stream is read from it then.
pub fn parse_word_beside(word: &str, is_input_taken: bool) -> Option<StreamWord<'_>>
    ensures { option_map stream_told result ≡ stream_beside is_input_taken word.now }
{
    let word = parse_stream_word(word)?;
    if is_input_taken && word.input == INPUT {
        return None;
    }
    Some(word)
}

/// The parts of a word, if there are so many.
fn word_parts(word: &str) -> Option<WordParts<'_>>
    ensures { MatchOption result (stream_of word.now ≡ None)
        (λ parts. cut_at_colons 5 word.now ≡ parts_of parts) }
{
    let (name, rest) = cut_at_colon(word)?;
    let (input, rest) = cut_at_colon(rest)?;
    let (output, rest) = cut_at_colon(rest)?;
    let (q, rest) = cut_at_colon(rest)?;
    let (t, operations) = cut_at_colon(rest)?;
    Some(WordParts {
        name,
        input,
        output,
        q,
        t,
        operations,
    })
}

/// What stands before and behind a text's first colon, if it has one.
fn cut_at_colon(text: &str) -> Option<(&str, &str)>
    ensures { MatchOption result (text_after 58 text.now ≡ None)
        (λ cut. (cut.0.now ≡ before_first (λ byte. byte == 58) text.now)
        × (text_after 58 text.now ≡ Some cut.1.now)) }
{
    text.split_once(':')
}
