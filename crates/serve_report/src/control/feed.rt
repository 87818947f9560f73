//! The lines of a control, out of a reader.
ghost use Rattle.std.specs.Prelude.{◌≡◌, ◌≤◌, ◌<◌, ◌+◌, ◌==◌, ◌↔◌, [], drop, take, length, position};
ghost use Rattle.std.specs.Prelude.{IfOk, IsTrue, OnOk, false, true};
ghost use Rattle.std.specs.Io.KnownBytes.{IsAtEnd, Keeps};
ghost use Rattle.y4m_stream.specs.Failures.{failures_after};
ghost use Rattle.serve_report.specs.Feeds.{CountsFailure, CountsLoss, Feeds, IsFound, LosesLine, numbered};
ghost use Rattle.serve_report.specs.Feeds.{rest_of};
ghost use Rattle.serve_report.specs.declared.control.quoted.TheConstants.{MOST_TOLD};

use super::line::LineFault;
use super::quoted::MOST_TOLD;
use std::io::{self, ErrorKind, Read};
use std::marker::Model;
use y4m_header::text::place_of;
use y4m_stream::{OverRead, Source};

/// The longest line, in bytes.
pub const LONGEST_LINE: usize = 1024;

/// The bytes of a line and of its line feed.
const ROOM: usize = LONGEST_LINE + 1;

/// What the last bytes are, where they are a line though it isn't ended.
const END: &[u8] = b"end";

/// What came of waiting for the next line.
#[derive(Clone, Copy)]
pub enum Feeding {
    /// A line came whole.
    Line,
    /// A line is too long, or it is the last and isn't ended.
    Fault(LineFault),
    /// No line is left.
    End,
    /// A read failed. What was read of a line that didn't come whole isn't taken for one.
    ReadFailed,
}

/// What stands before what is held and what is left of the reader.
#[derive(Clone, Copy)]
enum Found {
    /// A line feed at this place of what is held.
    Ended(usize),
    /// More bytes without one than a line may have.
    Long,
    /// Fewer, and then the end.
    Last,
}

/// A reader whose bytes are taken line by line. No memory is taken but that of a line.
#[derive(Drop)]
pub struct Feed<R: Read> {
    reader: OverRead<R>,
    room: [u8; ROOM],
    /// Where the last line begins and ends.
    line_from: usize,
    line_to: usize,
    /// Where the bytes that are held begin and end.
    from: usize,
    to: usize,
    number: u64,
    /// How the last line began that is too long or isn't ended.
    head: [u8; MOST_TOLD],
    head_to: usize,
}

impl<R: Read> Model for Feed<R> {
    ghost use Rattle.std.specs.Prelude.{◌≤◌, drop, take};
    ghost use Rattle.serve_report.specs.Feeds.{FeedState};
    ghost use Rattle.serve_report.specs.declared.control.feed.TheConstants.{ROOM};
    ghost use Rattle.serve_report.specs.declared.control.quoted.TheConstants.{MOST_TOLD};

    ghost Value = { FeedState };

    ghost view = { λ f. record {
      line = drop f.line_from (take f.line_to f.room);
      held = drop f.from (take f.to f.room);
      left = R.remaining f.reader.reader;
      number = f.number;
      head = take f.head_to f.head;
      failures = f.reader.failures;
    } };

    ghost invariant = { λ f. (f.from ≤ f.to) × (f.to ≤ ROOM)
        × (f.line_from ≤ f.line_to) × (f.line_to ≤ ROOM) × (f.head_to ≤ MOST_TOLD) };
}

impl<R: Read> Feed<R> {
    /// Nothing is read yet, and no line was given.
    pub fn new(reader: R) -> Feed<R>
        ensures { result ≡ record {
          line = [];
          held = [];
          left = R.remaining reader;
          number = 0;
          head = [];
          failures = 0;
        } }
    {
        Feed {
            reader: OverRead::new(reader),
            room: [0; ROOM],
            line_from: 0,
            line_to: 0,
            from: 0,
            to: 0,
            number: 0,
            head: [0; MOST_TOLD],
            head_to: 0,
        }
    }

    /// How many lines came, also those that are wrong: the number of the last one, where they are counted
    /// from 1. A number of 64 bits stays at its last value.
    pub fn number(&self) -> u64
        ensures { result ≡ self.now.number }
    {
        self.number
    }

    /// The last line, where it came whole, without its line feed.
    pub fn line(&self) -> &[u8]
        ensures { result.now ≡ self.now.line }
    {
        &self.room[self.line_from..self.line_to]
    }

    /// How the last line begins, where it is too long or isn't ended.
    pub fn head(&self) -> &[u8]
        ensures { result.now ≡ self.now.head }
    {
        &self.head[..self.head_to]
    }

    /// Waits for the next line.
    pub fn next(&mut self) -> Feeding
        ensures line { Feeds self.old result self.new }
        ensures number { self.new.number ≡ numbered result self.old.number }
        ensures failures { CountsFailure self.old result self.new }
    {
        let came = self.take_next();
        if matches!(came, Feeding::Line | Feeding::Fault(_)) {
            self.number = self.number.saturating_add(1);
        }
        came
    }

    /// The next line or fault, which isn't counted.
    fn take_next(&mut self) -> Feeding
        ensures line { Feeds self.old result self.new }
        ensures number { self.new.number ≡ self.old.number }
        ensures failures { CountsFailure self.old result self.new }
    {
        match self.find() {
            Ok(Found::Ended(place)) => {
                self.take_line(place);
                Feeding::Line
            }
            Ok(Found::Long) => {
                self.keep_head();
                match self.lose_line() {
                    Ok(()) => Feeding::Fault(LineFault::TooLong),
                    Err(_) => Feeding::ReadFailed,
                }
            }
            Ok(Found::Last) => self.take_last(),
            Err(_) => Feeding::ReadFailed,
        }
    }

    /// Reads until a line feed is held, or more bytes than a line may have, or all that there are.
    fn find(&mut self) -> io::Result<Found>
        ensures bytes { Keeps (rest_of self.old) (rest_of self.new) }
        ensures found { IfOk result (IsFound self.new) }
        ensures number { self.new.number ≡ self.old.number }
        ensures failures { self.new.failures ≡ failures_after result self.old.failures }
    {
        while !self.is_long() {
            if let Some(place) = self.line_end() {
                return Ok(Found::Ended(place));
            }
            if !self.read_more()? {
                return Ok(Found::Last);
            }
        }
        match self.line_end() {
            Some(place) => Ok(Found::Ended(place)),
            None => Ok(Found::Long),
        }
    }

    /// Whether more bytes are held than a line may have.
    fn is_long(&self) -> bool
        ensures long { IsTrue result ↔ (LONGEST_LINE < length self.now.held) }
        ensures most { length self.now.held ≤ ROOM }
    {
        self.bytes().len() > LONGEST_LINE
    }

    /// The bytes that are held.
    fn bytes(&self) -> &[u8]
        ensures value { result.now ≡ self.now.held }
        ensures most { length self.now.held ≤ ROOM }
    {
        &self.room[self.from..self.to]
    }

    /// The place of the first line feed that is held.
    fn line_end(&self) -> Option<usize>
        ensures { result ≡ position (λ byte. byte == 10) self.now.held }
    {
        place_of(b'\n', self.bytes())
    }

    /// Reads once, where there is room, and answers whether a byte came. The last line is lost.
    fn read_more(&mut self) -> io::Result<bool>
        requires { length self.old.held ≤ LONGEST_LINE }
        ensures bytes { Keeps (rest_of self.old) (rest_of self.new) }
        ensures holds_more { IfOk result
            (λ came. came ≡ true → length self.old.held < length self.new.held) }
        ensures none { IfOk result
            (λ came. came ≡ false → (self.new.held ≡ self.old.held) × IsAtEnd self.new.left) }
        ensures number { self.new.number ≡ self.old.number }
        ensures head { self.new.head ≡ self.old.head }
        ensures failures { self.new.failures ≡ failures_after result self.old.failures }
    {
        let held = self.to - self.from;
        self.room.copy_within(self.from..self.to, 0);
        self.line_from = 0;
        self.line_to = 0;
        self.from = 0;
        self.to = held;
        let count = self.reader.read(&mut self.room[held..])?;
        self.to += count;
        Ok(count > 0)
    }

    /// Takes the line before this place of what is held, where its line feed is.
    fn take_line(&mut self, place: usize)
        requires { place < length self.old.held }
        ensures { self.new ≡ record self.old {
          line = take place self.old.held;
          held = drop (place + 1) self.old.held;
        } }
    {
        self.line_from = self.from;
        self.line_to = self.from + place;
        self.from += place + 1;
    }

    /// Keeps how that begins which is held.
    fn keep_head(&mut self)
        ensures { self.new ≡ record self.old { head = take MOST_TOLD self.old.held } }
    {
        let (head, count) = head_of(self.bytes());
        self.head = head;
        self.head_to = count;
    }

    /// Loses all that is held.
    fn lose_held(&mut self)
        ensures { self.new ≡ record self.old { held = [] } }
    {
        self.from = self.to;
    }

    /// Loses a line with its line feed, or all that there is where there is none.
    fn lose_line(&mut self) -> io::Result<()>
        requires { LONGEST_LINE < length self.old.held }
        ensures line { OnOk result (LosesLine (rest_of self.old) (rest_of self.new)) }
        ensures number { self.new.number ≡ self.old.number }
        ensures head { self.new.head ≡ self.old.head }
        ensures failures { CountsLoss result self.old self.new }
    {
        for _losses in 0..u64::MAX {
            if let Some(place) = self.line_end() {
                self.take_line(place);
                return Ok(());
            }
            self.lose_held();
            if !self.read_more()? {
                return Ok(());
            }
        }
        Err(io::Error::from(ErrorKind::Other))
    }

    /// Takes the last bytes, which aren't ended.
    fn take_last(&mut self) -> Feeding
        requires { IsFound self.old Found.Last }
        ensures line { Feeds self.old result self.new }
        ensures number { self.new.number ≡ self.old.number }
        ensures failures { CountsFailure self.old result self.new }
    {
        if self.bytes().is_empty() {
            return Feeding::End;
        }
        if self.bytes() != END {
            self.keep_head();
            self.lose_held();
            return Feeding::Fault(LineFault::BadLine);
        }
        self.take_held();
        Feeding::Line
    }

    /// Takes all that is held for a line.
    fn take_held(&mut self)
        ensures { self.new ≡ record self.old { line = self.old.held; held = [] } }
    {
        self.line_from = self.from;
        self.line_to = self.to;
        self.from = self.to;
    }
}

/// The first bytes of these, and how many they are.
fn head_of(bytes: &[u8]) -> ([u8; MOST_TOLD], usize)
    ensures count { result.1 ≤ MOST_TOLD }
    ensures head { take result.1 result.0 ≡ take MOST_TOLD bytes.now }
{
    let mut head = [0; MOST_TOLD];
    let count = MOST_TOLD.min(bytes.len());
    head[..count].copy_from_slice(&bytes[..count]);
    (head, count)
}
