//! What is done by the lines of a control.

use super::answer::Said;
use super::errand::{Bidding, Bids, Errand};
use super::feed::{Feed, Feeding};
use super::line::{Ask, LineFault, check_stream, parse_line};
use super::listener::Lines;
use super::lobby::Lobby;
use super::order::Order;
use super::{AdmitFault, StreamStop};
use crate::serve::{FileUse, errors_of};
use crate::session::Session;
use serve_files::{Files, Place};
use serve_words::{Asked, StreamWord};
use serve_work::Clock as Moments;
use std::alloc::{AllocError, Global};
use std::io::{Read, Write};
use std::sync::atomic::{AtomicBool, Ordering};
use std::sync::{Arc, Wait};
use y4m_stream::{Sink, Source};

/// Where the report goes.
const REPORT: &str = "/dev/stdout";

/// Who takes the lines of a control.
#[derive(Drop)]
pub struct Clerk<
    't,
    'k,
    'f,
    'l,
    'c,
    'o,
    F,
    R: Source,
    W: Sink,
    S: Drop,
    K: Moments,
    T,
    O: Write,
    E: Write,
> {
    rt: &'t T,
    alloc: Global,
    clock: &'k K,
    files: &'f F,
    lobby: &'l Lobby<'o, R, W, S, O, E>,
    /// Whether the control is standard input.
    is_input: bool,
    /// Where the report goes, where faults are told, and where the lines come from. No stream may have these.
    own: [FileUse<'c>; 3],
    /// How many streams were asked for.
    asked: u64,
    /// Whether no stream is taken any more.
    is_ended: bool,
    /// Whether the run is over.
    is_over: &'l AtomicBool,
}

impl<'t, 'k, 'f, 'l, 'c, 'o, F, R, W, S, K, T, O, E> Clerk<
    't,
    'k,
    'f,
    'l,
    'c,
    'o,
    F,
    R,
    W,
    S,
    K,
    T,
    O,
    E,
>
where
    F: Files<Slow = S>,
    R: Source + Drop,
    W: Sink + Drop,
    S: Drop + 'static,
    K: Moments,
    T: Wait,
    O: Write,
    E: Write,
{
    /// No stream was asked for yet.
    pub fn new<I: Read>(
        session: Session<'t, 'k, K, T>,
        files: &'f F,
        lobby: &'l Lobby<'o, R, W, S, O, E>,
        lines: &Lines<'c, I, S>,
        is_over: &'l AtomicBool,
    ) -> Clerk<'t, 'k, 'f, 'l, 'c, 'o, F, R, W, S, K, T, O, E> {
        let Session {
            rt,
            alloc,
            clock,
            ..
        } = session;
        let report = FileUse::output(REPORT, files.place(REPORT));
        let control = FileUse::output(lines.file, files.place(lines.file));
        Clerk {
            rt,
            alloc,
            clock,
            files,
            lobby,
            is_input: lines.is_input(),
            own: [report, errors_of(files), control],
            asked: 0,
            is_ended: false,
            is_over,
        }
    }

    /// Takes the streams of the words. Those that aren't taken are told.
    pub fn enter_all(&mut self, streams: Vec<Asked<'_>>) -> Result<Vec<Errand>, AllocError> {
        let mut errands = Vec::with_capacity(self.alloc, streams.len())?;
        for asked in streams {
            let input = self.files.place(asked.word.input);
            let output = self.files.place(asked.word.output);
            if let Bidding::Open(errand) = self.enter(asked, input, output, true) {
                errands.push(errand)?;
            }
        }
        Ok(errands)
    }

    /// Waits for the next line, and does what it asks for. None is read before there is room for its answer.
    /// One of which only a part was read when the run was over is none.
    pub fn take_next<I: Read>(&mut self, feed: &mut Feed<I>) -> Bidding {
        self.lobby.await_room(self.rt);
        match feed.next() {
            Feeding::Line => self.take(feed.number(), feed.line()),
            Feeding::Fault(_) if self.is_over.load(Ordering::SeqCst) => Bidding::End,
            Feeding::Fault(fault) => {
                self.refuse(feed.number(), fault, feed.head());
                Bidding::Done
            }
            Feeding::End => Bidding::End,
            Feeding::ReadFailed => {
                self.lobby.fail_reading(self.rt);
                Bidding::End
            }
        }
    }

    /// Does what the line of this number asks for, or tells what is wrong with it.
    pub fn take(&mut self, number: u64, line: &[u8]) -> Bidding {
        match self.follow_line(line) {
            Ok(bidding) => bidding,
            Err(fault) => {
                self.refuse(number, fault, line);
                Bidding::Done
            }
        }
    }

    /// Tells what is wrong with the line of this number, which begins with these bytes.
    pub fn refuse(&mut self, number: u64, fault: LineFault, line: &[u8]) {
        self.lobby.say(self.rt, &Said::Wrong(number, fault, line));
    }

    /// Does what a line asks for.
    fn follow_line(&mut self, line: &[u8]) -> Result<Bidding, LineFault> {
        match parse_line(line, self.is_input)? {
            Ask::Nothing => Ok(Bidding::Done),
            Ask::Serve(word) => self.take_stream(word),
            Ask::Close(name) => self.close(name),
            Ask::State => {
                self.ask();
                Ok(Bidding::Done)
            }
            Ask::End => {
                self.lobby.end(self.rt);
                Ok(self.end())
            }
            Ask::Stop => {
                self.lobby.stop(self.rt, self.files);
                Ok(self.end())
            }
        }
    }

    /// Takes no stream from here on. Of standard input no more lines are taken either, since a read of it
    /// can't be let go where the run is over.
    fn end(&mut self) -> Bidding {
        self.is_ended = true;
        if self.is_input {
            Bidding::End
        } else {
            Bidding::Done
        }
    }

    /// Asks how the streams stand.
    fn ask(&self) {
        self.lobby.voice.lock(self.rt).ask();
        let mut table = self.lobby.table.lock(self.rt);
        table.asked = table.asked.saturating_add(1);
        drop(table);
        self.lobby.changed.notify_all();
    }

    /// Closes the stream of this name. What is being opened for it is let go, also where it was closed
    /// before.
    fn close(&self, name: &str) -> Result<Bidding, LineFault> {
        let mut table = self.lobby.table.lock(self.rt);
        let Some(entry) = table.entry_named_mut(name) else {
            return Err(LineFault::NoStream);
        };
        let is_new = entry.order.close();
        entry.hold_open(self.files);
        if !is_new {
            return Err(LineFault::AlreadyClosed);
        }
        Ok(Bidding::Done)
    }

    /// Takes the stream that a line asks for.
    fn take_stream(&mut self, word: StreamWord<'_>) -> Result<Bidding, LineFault> {
        if self.is_ended {
            return Err(LineFault::Ended);
        }
        if self.lobby.table.lock(self.rt).has_name(word.name) {
            return Err(LineFault::BadName);
        }
        let input = self.files.place(word.input);
        let output = self.files.place(word.output);
        if self.has_clash(word, input, output) {
            return Err(LineFault::BadFile);
        }
        match check_stream(self.alloc, word) {
            Ok(asked) => Ok(self.enter(asked, input, output, false)),
            Err(LineFault::NoMemory) => Ok(self.refuse_stream(
                word.name,
                AdmitFault::NoMemory,
                false,
            )),
            Err(fault) => Err(fault),
        }
    }

    /// Takes a stream, if there is a place for it, and its share is left. It keeps that from here on.
    pub fn enter(
        &mut self,
        asked: Asked<'_>,
        input: Place,
        output: Place,
        is_of_words: bool,
    ) -> Bidding {
        let Asked { word, ops } = asked;
        let number = self.asked;
        self.asked = self.asked.saturating_add(1);
        let Some((order, table_order)) = order_of(self.alloc, number, word, is_of_words) else {
            return self.refuse_stream(word.name, AdmitFault::NoMemory, is_of_words);
        };
        if let Err(fault) = self.keep(table_order, input, output) {
            return self.refuse_stream(word.name, fault, is_of_words);
        }
        let may_wait = !matches!(input, Place::File(_));
        Bidding::Open(Errand {
            order,
            ops,
            may_wait,
            is_prompt: !may_wait && !matches!(output, Place::Pipe(_)),
            output_may_wait: may_wait || !matches!(output, Place::File(_)),
        })
    }

    /// Takes a stream into the table, if there is a place for it, and its share is left now.
    fn keep(
        &self,
        order: Arc<Order, Global>,
        input: Place,
        output: Place,
    ) -> Result<(), AdmitFault> {
        let moment = self.clock.moment();
        let mut table = self.lobby.table.lock(self.rt);
        table.enter(order, moment, input, output)
    }

    /// Tells that a stream isn't taken.
    fn refuse_stream(&self, name: &str, fault: AdmitFault, is_of_words: bool) -> Bidding {
        let mut voice = self.lobby.voice.lock(self.rt);
        voice.say_stopped(name, StreamStop::Admit(fault), is_of_words);
        self.lobby.told.notify_all();
        Bidding::Done
    }

    /// Whether a file of a stream is in use by another one, by the run itself or by both ways.
    fn has_clash(&self, word: StreamWord<'_>, input: Place, output: Place) -> bool {
        let input = FileUse::input(word.input, input);
        let output = FileUse::output(word.output, output);
        if input.clashes_with(&output) || self.is_own(&input) || self.is_own(&output) {
            return true;
        }
        let table = self.lobby.table.lock(self.rt);
        table.has_clash(None, &input) || table.has_clash(None, &output)
    }

    /// Whether the file is one of the run's own.
    fn is_own(&self, file: &FileUse<'_>) -> bool {
        for own in &self.own {
            if own.clashes_with(file) {
                return true;
            }
        }
        false
    }
}

/// A clerk, and the lines that it takes.
#[derive(Drop)]
pub struct Desk<
    't,
    'k,
    'f,
    'l,
    'c,
    'o,
    F,
    R: Source,
    W: Sink,
    S: Drop,
    K: Moments,
    T,
    O: Write,
    E: Write,
    I: Read,
> {
    pub clerk: Clerk<'t, 'k, 'f, 'l, 'c, 'o, F, R, W, S, K, T, O, E>,
    pub feed: Feed<I>,
}

impl<'t, 'k, 'f, 'l, 'c, 'o, F, R, W, S, K, T, O, E, I> Bids
    for Desk<'t, 'k, 'f, 'l, 'c, 'o, F, R, W, S, K, T, O, E, I>
where
    F: Files<Slow = S>,
    R: Source + Drop,
    W: Sink + Drop,
    S: Drop + 'static,
    K: Moments,
    T: Wait,
    O: Write,
    E: Write,
    I: Read,
{
    fn next(&mut self) -> Bidding {
        self.clerk.take_next(&mut self.feed)
    }
}

/// An order, for who opens its stream and for the table.
fn order_of(
    alloc: Global,
    number: u64,
    word: StreamWord<'_>,
    is_of_words: bool,
) -> Option<(Arc<Order, Global>, Arc<Order, Global>)> {
    let order = Order::new(alloc, number, word, is_of_words).ok()?;
    let order = Arc::new(alloc, order).ok()?;
    let table_order = Arc::try_clone(&order).ok()?;
    Some((order, table_order))
}
