//! What is told of a run while it goes on.
ghost use Rattle.std.specs.Prelude.{◌≡◌, ◌≤◌, ◌&&◌, ◌||◌, false, not, true};
ghost use Rattle.serve_report.specs.ServeReport.{is_well};

use super::answer::{Said, say};
use super::backlog::Backlog;
use super::{StreamRow, StreamStop};
use crate::tell::tell;
use std::fmt::Display;
use std::io::{self, ErrorKind, Write};

/// Where answers and faults go, and what they come to. Once an answer couldn't be written none is.
#[derive(Drop)]
pub struct Voice<'o, W: Write, E: Write> {
    /// None while another thread writes answers.
    output: Option<&'o mut W>,
    /// Answers that it hasn't written yet, while it does. Else each is written where it is said.
    backlog: Option<Backlog>,
    /// None while a fault is being told.
    errors: Option<&'o mut E>,
    has_failed: bool,
    /// Whether a fault was told, or a stream of the words that came to a bad end.
    is_faulty: bool,
    /// The units that were done for the streams that were told.
    units: u64,
    /// How many times it was asked how the streams stand, and isn't told yet.
    states: u64,
    /// Whether nobody is served any more.
    is_over: bool,
}

impl<'o, W: Write, E: Write> Voice<'o, W, E> {
    /// Nothing is told yet.
    pub fn new(output: &'o mut W, errors: &'o mut E) -> Voice<'o, W, E> {
        Voice {
            output: Some(output),
            backlog: None,
            errors: Some(errors),
            has_failed: false,
            is_faulty: false,
            units: 0,
            states: 0,
            is_over: false,
        }
    }

    /// Lends the output to who writes answers from now on. They are held in this backlog until then.
    pub fn lend(&mut self, backlog: Backlog) -> Option<&'o mut W> {
        let output = self.output.take()?;
        self.backlog = Some(backlog);
        Some(output)
    }

    /// Takes the output back. Answers are written where they are said from now on.
    pub fn take_back(&mut self, output: &'o mut W) {
        self.backlog = None;
        self.output = Some(output);
    }

    /// Whether nothing is to be written by another thread, and something may be yet.
    pub fn is_silent(&self) -> bool {
        match &self.backlog {
            Some(backlog) => backlog.is_empty() && !self.is_over,
            None => false,
        }
    }

    /// Hands over the answers that are held, for an empty backlog.
    pub fn swap(&mut self, other: &mut Backlog) {
        if let Some(backlog) = &mut self.backlog {
            backlog.swap(other);
        }
    }

    /// Notes that an answer couldn't be written. Those that are held are lost, as are all others.
    pub fn fail(&mut self) {
        self.has_failed = true;
        if let Some(backlog) = &mut self.backlog {
            backlog.clear();
        }
    }

    /// Whether there is room for all that may come of a further line, or none is wanted.
    pub fn has_room(&self) -> bool {
        match &self.backlog {
            Some(backlog) => self.is_over || backlog.has_room(self.states),
            None => true,
        }
    }

    /// Notes that it was asked how the streams stand.
    pub fn ask(&mut self) {
        self.states = self.states.saturating_add(1);
    }

    /// Notes that it was told how the streams stand.
    pub fn end_show(&mut self) {
        self.states = self.states.saturating_sub(1);
    }

    /// Notes that nobody is served any more.
    pub fn end_serving(&mut self) {
        self.is_over = true;
    }

    /// Says an answer.
    pub fn say(&mut self, said: &Said<'_>)
        ensures { self.new.is_faulty ≡ self.old.is_faulty }
    {
        if !self.has_failed && self.try_say(said).is_err() {
            self.has_failed = true;
        }
    }

    /// Holds an answer while another thread writes them, or writes it.
    fn try_say(&mut self, said: &Said<'_>) -> io::Result<()>
        ensures { self.new.is_faulty ≡ self.old.is_faulty }
    {
        if let Some(backlog) = &mut self.backlog {
            return backlog.say(said);
        }
        match &mut self.output {
            Some(output) => say(*output, said),
            None => Err(io::Error::from(ErrorKind::Other)),
        }
    }

    /// Tells what a stream came to. A bad end counts for the status where the words asked for the stream.
    pub fn say_row(&mut self, row: StreamRow<'_>, is_of_words: bool)
        ensures { self.new.is_faulty
            ≡ (self.old.is_faulty || (is_of_words && not (is_well row.entry.stop))) }
    {
        self.units = self.units.saturating_add(row.charged);
        if is_of_words && !is_well(row.stop) {
            self.is_faulty = true;
        }
        self.say(&Said::Ended(row));
    }

    /// Tells that nothing was done for a stream.
    pub fn say_stopped(&mut self, name: &str, stop: StreamStop, is_of_words: bool)
        ensures { self.new.is_faulty ≡ (self.old.is_faulty || (is_of_words && not (is_well stop))) }
    {
        let row = StreamRow {
            name,
            accepted: 0,
            delivered: 0,
            charged: 0,
            stop,
        };
        self.say_row(row, is_of_words);
    }

    /// Whether a fault can be told, since no other one is being told.
    pub fn can_tell(&self) -> bool {
        self.errors.is_some()
    }

    /// Lends the error stream to who tells a fault of the run.
    pub fn lend_errors(&mut self) -> Option<&'o mut E> {
        self.is_faulty = true;
        self.errors.take()
    }

    /// Takes the error stream back.
    pub fn take_errors_back(&mut self, errors: &'o mut E) {
        self.errors = Some(errors);
    }

    /// Tells a fault of the run.
    pub fn tell_fault<D: Display>(&mut self, fault: &D)
        ensures { self.new.is_faulty ≡ true }
    {
        self.is_faulty = true;
        if let Some(errors) = &mut self.errors {
            tell(*errors, fault);
        }
    }

    /// Tells what all streams came to, and answers the program's status: 0 where no fault was told, and no
    /// stream of the words came to a bad end.
    pub fn end(&mut self) -> u8
        ensures status { result ≤ 1 }
        ensures well { result ≡ 0 → self.old.is_faulty ≡ false }
    {
        let units = self.units;
        self.say(&Said::Units(units));
        if self.has_failed {
            self.tell_fault(&"write");
        }
        u8::from(self.is_faulty)
    }
}

/// Whether a stream came to no bad end.
fn is_well(stop: StreamStop) -> bool
    ensures { result ≡ is_well stop }
{
    matches!(stop, StreamStop::Whole | StreamStop::Closed)
}
