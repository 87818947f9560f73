//! Readers that give their texts one after the other, each when the answer to an earlier one is there.
use super::REFUSED;
use crate::compare::same_at;
use std::alloc::Global;
use std::io::{self, ErrorKind, Read, Write};
use std::process::Abort;
use std::sync::{Arc, Condvar, CondvarTimeouts, Mutex, Wait};
use std::time::{Clock, Duration};

/// For how many seconds it is waited for an answer at most.
const PATIENCE: u64 = 20;

/// What is waited for by who opens a file until it is held.
pub const HELD: &str = "(a file is held)";

/// What is waited for until more of a file is awaited than it gives at once.
pub const AWAITED: &str = "(a file is awaited)";

/// What is waited for by who lets a while pass.
pub const PAUSED: &str = "(a while passes)";

/// How many seconds that is.
const PAUSE: u64 = 4;

/// What was answered.
#[derive(Drop)]
struct Answered {
    text: Vec<u8>,
    /// How many bytes more are taken before a write fails.
    room: usize,
    /// Whether a file is held.
    is_held: bool,
    /// How many times it was tried to hold one.
    holds: u64,
    /// Whether more of a file is awaited.
    is_awaited: bool,
}

impl Answered {
    /// Whether what is waited for is there.
    fn has(&self, part: &str) -> bool {
        if part == HELD {
            return self.is_held;
        }
        if part == AWAITED {
            return self.is_awaited;
        }
        let part = part.as_bytes();
        part.is_empty() || self.text.windows(part.len()).any(|window| window == part)
    }
}

/// What was answered, for those who wait for it.
#[derive(Drop)]
pub struct Answers {
    answered: Mutex<Answered>,
    changed: Condvar,
}

impl Answers {
    /// Nothing yet, and room for so many bytes.
    pub fn new(alloc: Global, room: usize) -> Answers {
        Answers {
            answered: Mutex::new(Answered {
                text: Vec::new(alloc),
                room,
                is_held: false,
                holds: 0,
                is_awaited: false,
            }),
            changed: Condvar::new(),
        }
    }

    /// Waits until the answers have this part, for a while.
    pub fn expect<T: Wait + Clock>(&self, rt: &T, part: &str) {
        let _ = self.is_there(rt, part);
    }

    /// The same, and answers whether they have it.
    fn is_there<T: Wait + Clock>(&self, rt: &T, part: &str) -> bool {
        let answered = self.answered.lock(rt);
        let is_paused = part == PAUSED;
        let patience = Duration::from_secs(if is_paused { PAUSE } else { PATIENCE });
        let (answered, _) = self
            .changed
            .wait_timeout_while(rt, answered, patience, |answered| !answered.has(part));
        answered.has(part)
    }

    /// A file is held, but for so many times at first. Answers whether it is.
    pub fn hold<T: Wait>(&self, rt: &T, before: u64) -> bool {
        let mut answered = self.answered.lock(rt);
        let is_held = answered.holds >= before;
        answered.holds = answered.holds.saturating_add(1);
        answered.is_held = is_held;
        drop(answered);
        self.changed.notify_all();
        is_held
    }

    /// Whether more of a file is awaited.
    pub fn is_awaited<T: Wait>(&self, rt: &T) -> bool {
        self.answered.lock(rt).is_awaited
    }

    /// More of a file is awaited.
    pub fn wait<T: Wait>(&self, rt: &T) {
        self.answered.lock(rt).is_awaited = true;
        self.changed.notify_all();
    }

    /// Compares what was answered, in any order. No two lines that are wanted are the same.
    pub fn are_among<T: Abort + Wait>(&self, rt: &T, wanted: &str) {
        let answered = self.answered.lock(rt);
        let text = str::from_utf8(&answered.text).unwrap_or("no text");
        for line in wanted.lines() {
            let is_told = text.lines().any(|one| one == line);
            same_at(rt, is_told, true, format_args!("{line}: {REFUSED}"));
        }
        let counts = (text.lines().count(), wanted.lines().count());
        same_at(rt, counts.0, counts.1, format_args!("{text}: {REFUSED}"));
    }

    /// Compares what was answered, line by line, as [`is_as_wanted`] says.
    pub fn are<T: Abort + Wait>(&self, rt: &T, wanted: &str) {
        let answered = self.answered.lock(rt);
        let text = str::from_utf8(&answered.text).unwrap_or("no text");
        let mut lines = wanted.lines();
        for line in text.lines() {
            let is_told = is_as_wanted(line, lines.next().unwrap_or("no line"));
            same_at(rt, is_told, true, format_args!("{line}: {text}: {REFUSED}"));
        }
        let ends = (lines.next(), text.is_empty() || text.ends_with("\n"));
        same_at(rt, ends, (None, true), format_args!("{text}: {REFUSED}"));
    }
}

/// Whether a line is this one. Of a moment only its line is told, of the end of a share its first digits, and
/// anything may stand in place of `..`.
fn is_as_wanted(line: &str, wanted: &str) -> bool {
    if let Some((front, end)) = wanted.split_once("..") {
        return line.starts_with(front) && line.ends_with(end);
    }
    if wanted.contains(" until ") {
        return line.starts_with(wanted);
    }
    match wanted.strip_prefix("now ") {
        None => line == wanted,
        Some(streams) => line.starts_with("now ") && line.ends_with(streams),
    }
}

/// Writes answers.
#[derive(Drop)]
pub struct Answering<'a, T: Wait + Sync> {
    pub rt: &'a T,
    pub answers: &'a Answers,
    /// What the first write waits for. Where that doesn't come it fails.
    pub awaited: &'a str,
}

impl<T: Wait + Clock + Sync> Write for Answering<'_, T> {
    fn write(&mut self, buf: &[u8]) -> io::Result<usize> {
        if !self.answers.is_there(self.rt, self.awaited) {
            return Err(io::Error::from(ErrorKind::TimedOut));
        }
        self.awaited = "";
        let mut answered = self.answers.answered.lock(self.rt);
        if answered.room < buf.len() {
            return Err(io::Error::from(ErrorKind::BrokenPipe));
        }
        answered.room -= buf.len();
        if answered.text.extend_from_slice(buf).is_err() {
            return Err(io::Error::from(ErrorKind::OutOfMemory));
        }
        self.answers.changed.notify_all();
        Ok(buf.len())
    }

    fn flush(&mut self) -> io::Result<()> {
        Ok(())
    }
}

/// What is waited for, and what is said then.
pub type Turn<'a> = (&'a str, &'a [u8]);

/// Gives these texts, each when what it waits for was answered, in pieces of so many bytes.
#[derive(Drop)]
pub struct Asking<'a, T: Wait> {
    rt: &'a T,
    answers: &'a Answers,
    turns: &'a [Turn<'a>],
    step: usize,
    /// Whether it is a stream's, for whose turns others may wait.
    is_file: bool,
    begun: usize,
    /// How many bytes of the last turn that was begun were given.
    given: usize,
}

/// What is left of the last turn that was begun.
fn left_of<'a>(turns: &'a [Turn<'a>], begun: usize, given: usize) -> &'a [u8] {
    let Some(last) = begun.checked_sub(1) else {
        return b"";
    };
    match turns.get(last) {
        Some((_, text)) => text.get(given..).unwrap_or(b""),
        None => b"",
    }
}

impl<'a, T: Wait> Asking<'a, T> {
    /// It has given nothing yet.
    pub fn new(
        rt: &'a T,
        answers: &'a Answers,
        turns: &'a [Turn<'a>],
        step: usize,
    ) -> Asking<'a, T> {
        Asking {
            rt,
            answers,
            turns,
            step,
            is_file: false,
            begun: 0,
            given: 0,
        }
    }

    /// A stream's, by one byte at a time.
    pub fn of_file(rt: &'a T, answers: &'a Answers, turns: &'a [Turn<'a>]) -> Asking<'a, T> {
        Asking {
            is_file: true,
            ..Asking::new(rt, answers, turns, 1)
        }
    }
}

impl<T: Wait + Clock> Read for Asking<'_, T> {
    fn read(&mut self, buf: &mut [u8]) -> io::Result<usize> {
        if left_of(self.turns, self.begun, self.given).is_empty() {
            let Some((awaited, _)) = self.turns.get(self.begun) else {
                return Ok(0);
            };
            if self.is_file && !awaited.is_empty() {
                self.answers.wait(self.rt);
            }
            self.answers.expect(self.rt, awaited);
            self.begun = self.begun.saturating_add(1);
            self.given = 0;
        }
        let most = buf.len().min(self.step);
        let mut left = left_of(self.turns, self.begun, self.given);
        let taken = left.read(&mut buf[..most])?;
        self.given = self.given.saturating_add(taken);
        Ok(taken)
    }
}

/// The same, of a file whose reads may wait, and that a thread of its own reads.
#[derive(Drop)]
pub struct Late<T: Wait + Clock> {
    rt: T,
    answers: Arc<Answers, Global>,
    turns: &'static [Turn<'static>],
    begun: usize,
    given: usize,
}

impl<T: Wait + Clock + Copy> Late<T> {
    /// It has given nothing yet.
    pub fn new(
        rt: &T,
        answers: &Arc<Answers, Global>,
        turns: &'static [Turn<'static>],
    ) -> io::Result<Late<T>> {
        match Arc::try_clone(answers) {
            Ok(answers) => Ok(Late {
                rt: *rt,
                answers,
                turns,
                begun: 0,
                given: 0,
            }),
            Err(_) => Err(io::Error::from(ErrorKind::OutOfMemory)),
        }
    }
}

impl<T: Wait + Clock> Read for Late<T> {
    fn read(&mut self, buf: &mut [u8]) -> io::Result<usize> {
        if left_of(self.turns, self.begun, self.given).is_empty() {
            let Some((awaited, _)) = self.turns.get(self.begun) else {
                return Ok(0);
            };
            if !awaited.is_empty() {
                self.answers.wait(&self.rt);
            }
            self.answers.expect(&self.rt, awaited);
            self.begun = self.begun.saturating_add(1);
            self.given = 0;
        }
        let mut left = left_of(self.turns, self.begun, self.given);
        let taken = left.read(buf)?;
        self.given = self.given.saturating_add(taken);
        Ok(taken)
    }
}
