//! The lines of entries: a word, and numbers behind single spaces.
//!
//! | Line | What it tells |
//! |---|---|
//! | `offer S N` | stream S accepted its frame N |
//! | `offer S N T` | the clock went on to T, and then stream S accepted its frame N |
//! | `close S`, `admit S` | stream S was closed, admitted |
//! | `collect S N` | the image of frame N of stream S was given away |
//! | `lease W S N G` | worker W got a lease of frame N of stream S, for G bands |
//! | `settle W K` | worker W gave its lease back, with K bands done |
//! | `finish W K` | so it did, and the frame was finished |
//!
//! A number has 1 to 19 digits; S, W, G and K are below 2^32.
ghost use Rattle.std.specs.Prelude.{◌≡◌};
ghost use Rattle.serve_audit.specs.EntryText.{entry_in, entry_of_four, entry_of_one, entry_of_three};
ghost use Rattle.serve_audit.specs.EntryText.{entry_of_two, number_in, small_in};

use serve_hub::{Act, Entry, Seat};
use std::fmt;
use y4m_header::text::{cut, decimal_number};

/// The line of an entry, without its line feed. That of an act that isn't its seat's is empty.
#[derive(Clone, Copy)]
pub struct EntryLine {
    pub entry: Entry,
}

impl fmt::Display for EntryLine {
    ghost use Rattle.std.specs.Prelude.{Some};
    ghost use Rattle.serve_audit.specs.EntryText.{entry_text};

    ghost output = { λ line. Some (entry_text line.entry) };

    fn fmt<W: fmt::Write>(&self, f: &mut fmt::Formatter<W>) -> fmt::Result {
        match self.entry.seat {
            Seat::Stream(s) => {
                let act = StreamAct {
                    s,
                    act: self.entry.act,
                };
                write!(f, "{act}")
            }
            Seat::Worker(w) => {
                let act = WorkAct {
                    w,
                    act: self.entry.act,
                };
                write!(f, "{act}")
            }
        }
    }
}

/// What a stream did.
#[derive(Clone, Copy)]
struct StreamAct {
    s: u32,
    act: Act,
}

impl fmt::Display for StreamAct {
    ghost use Rattle.std.specs.Prelude.{Some};
    ghost use Rattle.serve_hub.specs.declared.entry.Seat.TheVariants as seats;
    ghost use Rattle.serve_audit.specs.EntryText.{line_of, words_of};

    ghost output = { λ a. Some (line_of (words_of (seats.Stream a.s) a.act)) };

    fn fmt<W: fmt::Write>(&self, f: &mut fmt::Formatter<W>) -> fmt::Result {
        let s = self.s;
        match self.act {
            Act::Offered(None, n) => write!(f, "offer {s} {n}"),
            Act::Offered(Some(at), n) => write!(f, "offer {s} {n} {at}"),
            Act::Closed => write!(f, "close {s}"),
            Act::Collected(n) => write!(f, "collect {s} {n}"),
            Act::Admitted => write!(f, "admit {s}"),
            Act::Leased(_, _, _) => Ok(()),
            Act::Settled(_, _) => Ok(()),
        }
    }
}

/// What a worker did.
#[derive(Clone, Copy)]
struct WorkAct {
    w: u32,
    act: Act,
}

impl fmt::Display for WorkAct {
    ghost use Rattle.std.specs.Prelude.{Some};
    ghost use Rattle.serve_hub.specs.declared.entry.Seat.TheVariants as seats;
    ghost use Rattle.serve_audit.specs.EntryText.{line_of, words_of};

    ghost output = { λ a. Some (line_of (words_of (seats.Worker a.w) a.act)) };

    fn fmt<W: fmt::Write>(&self, f: &mut fmt::Formatter<W>) -> fmt::Result {
        let w = self.w;
        match self.act {
            Act::Leased(s, n, g) => write!(f, "lease {w} {s} {n} {g}"),
            Act::Settled(k, true) => write!(f, "finish {w} {k}"),
            Act::Settled(k, false) => write!(f, "settle {w} {k}"),
            Act::Offered(_, _) => Ok(()),
            Act::Closed => Ok(()),
            Act::Collected(_) => Ok(()),
            Act::Admitted => Ok(()),
        }
    }
}

/// The entry that a line writes, without its line feed, if it is one.
pub fn parse_entry(line: &[u8]) -> Option<Entry>
    ensures { result ≡ entry_in line.now }
{
    let (word, rest) = cut(b' ', line);
    let (first, rest) = cut(b' ', rest?);
    let Some(rest) = rest else {
        return entry_of_one(word, first);
    };
    let (second, rest) = cut(b' ', rest);
    let Some(rest) = rest else {
        return entry_of_two(word, first, second);
    };
    let (third, rest) = cut(b' ', rest);
    let Some(rest) = rest else {
        return entry_of_three(word, first, second, third);
    };
    let (fourth, rest) = cut(b' ', rest);
    match rest {
        None => entry_of_four(word, first, second, third, fourth),
        Some(_) => None,
    }
}

fn parse_number(text: &[u8]) -> Option<u64>
    ensures { result ≡ number_in text.now }
{
    decimal_number(19, text)
}

/// A number of 32 bits.
fn parse_small(text: &[u8]) -> Option<u32>
    ensures { result ≡ small_in text.now }
{
    let number = parse_number(text)?;
    if number < 1 << 32 {
        Some(number as u32)
    } else {
        None
    }
}

fn entry_of_one(word: &[u8], first: &[u8]) -> Option<Entry>
    ensures { result ≡ entry_of_one word.now first.now }
{
    if word == b"close".as_slice() {
        let seat = Seat::Stream(parse_small(first)?);
        let act = Act::Closed;
        Some(Entry { seat, act })
    } else if word == b"admit".as_slice() {
        let seat = Seat::Stream(parse_small(first)?);
        let act = Act::Admitted;
        Some(Entry { seat, act })
    } else {
        None
    }
}

fn entry_of_two(word: &[u8], first: &[u8], second: &[u8]) -> Option<Entry>
    ensures { result ≡ entry_of_two word.now first.now second.now }
{
    if word == b"offer".as_slice() {
        let seat = Seat::Stream(parse_small(first)?);
        let act = Act::Offered(None, parse_number(second)?);
        Some(Entry { seat, act })
    } else if word == b"collect".as_slice() {
        let seat = Seat::Stream(parse_small(first)?);
        let act = Act::Collected(parse_number(second)?);
        Some(Entry { seat, act })
    } else if word == b"settle".as_slice() {
        let seat = Seat::Worker(parse_small(first)?);
        let act = Act::Settled(parse_small(second)?, false);
        Some(Entry { seat, act })
    } else if word == b"finish".as_slice() {
        let seat = Seat::Worker(parse_small(first)?);
        let act = Act::Settled(parse_small(second)?, true);
        Some(Entry { seat, act })
    } else {
        None
    }
}

fn entry_of_three(word: &[u8], first: &[u8], second: &[u8], third: &[u8]) -> Option<Entry>
    ensures { result ≡ entry_of_three word.now first.now second.now third.now }
{
    if word == b"offer".as_slice() {
        let seat = Seat::Stream(parse_small(first)?);
        let number = parse_number(second)?;
        let moment = parse_number(third)?;
        let act = Act::Offered(Some(moment), number);
        Some(Entry { seat, act })
    } else {
        None
    }
}

fn entry_of_four(
    word: &[u8],
    first: &[u8],
    second: &[u8],
    third: &[u8],
    fourth: &[u8],
) -> Option<Entry>
    ensures { result ≡ entry_of_four word.now first.now second.now third.now fourth.now }
{
    if word == b"lease".as_slice() {
        let seat = Seat::Worker(parse_small(first)?);
        let stream = parse_small(second)?;
        let number = parse_number(third)?;
        let grant = parse_small(fourth)?;
        let act = Act::Leased(stream, number, grant);
        Some(Entry { seat, act })
    } else {
        None
    }
}
