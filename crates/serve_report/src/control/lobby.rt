//! What the threads share by whom streams are asked for, opened and served.
ghost use Rattle.std.specs.Prelude.{◌≤◌};
ghost use Rattle.cbs_account.specs.declared.limits.TheConstants.{MOST_WORKERS};

use super::answer::Said;
use super::backlog::Backlog;
use super::order::Order;
use super::table::Table;
use super::voice::Voice;
use super::{AdmitFault, StreamStop};
use crate::serve::{FileUse, Ready, RunFault};
use crate::tell::tell;
use serve_files::{Files, Place};
use serve_work::SessionFault;
use std::alloc::Global;
use std::fmt::Display;
use std::io::Write;
use std::sync::{Arc, Condvar, Mutex, Wait};
use y4m_stream::{Sink, Source};

/// The streams of a run that haven't ended, and where answers are told.
///
/// Who takes both locks takes that of the voice first. So a name is free, and a file, once it is told that
/// its stream ended, and no answer of another stream of the name comes before that.
#[derive(Drop)]
pub struct Lobby<'o, R: Source, W: Sink, S: Drop, O: Write, E: Write> {
    pub table: Mutex<Table<R, W, S>>,
    /// Something of the table has changed.
    pub changed: Condvar,
    pub voice: Mutex<Voice<'o, O, E>>,
    /// Something was said, or written.
    pub told: Condvar,
}

impl<'o, R: Source + Drop, W: Sink + Drop, S: Drop, O: Write, E: Write> Lobby<'o, R, W, S, O, E> {
    /// A lobby where nobody is yet. Where there is no memory for it the voice comes back.
    pub fn new(
        alloc: Global,
        workers: u64,
        voice: Voice<'o, O, E>,
    ) -> Result<Lobby<'o, R, W, S, O, E>, Voice<'o, O, E>>
        requires some_workers { 1 ≤ workers }
        requires most { workers ≤ MOST_WORKERS }
    {
        match Table::new(alloc, workers) {
            Ok(table) => Ok(Lobby {
                table: Mutex::new(table),
                changed: Condvar::new(),
                voice: Mutex::new(voice),
                told: Condvar::new(),
            }),
            Err(_) => Err(voice),
        }
    }

    /// Tells what a run came to, and answers the program's status. The streams that waited to be served where
    /// a run has failed are told as closed.
    pub fn close<T: Wait>(self, rt: &T) -> u8
        ensures { result ≤ 1 }
    {
        let mut voice = self.voice.lock(rt);
        let table = self.table.lock(rt);
        for entry in &table.entries {
            if entry.is_unserved() {
                let order = &entry.order;
                voice.say_stopped(&order.name, StreamStop::Closed, order.is_of_words);
            }
        }
        voice.end()
    }

    /// Takes a stream out that stopped before it was served, and tells why it did.
    pub fn tell_stop<T: Wait>(&self, rt: &T, order: &Order, stop: StreamStop) {
        let mut voice = self.voice.lock(rt);
        let entry = self.table.lock(rt).take(order.number);
        self.changed.notify_all();
        order.presence.end();
        voice.say_stopped(&order.name, stop, order.is_of_words);
        self.told.notify_all();
        drop(voice);
        drop(entry);
    }

    /// Notes where a stream's input stands, which was opened, unless another stream would lose by it. Answers
    /// whether none would.
    pub fn set_input<T: Wait>(&self, rt: &T, order: &Order, place: Place) -> bool {
        let mut table = self.table.lock(rt);
        let input = FileUse::input(&order.input, place);
        if table.has_clash(Some(order.number), &input) {
            return false;
        }
        if let Some(entry) = table.entry_mut(order.number) {
            entry.set_input(place);
        }
        true
    }

    /// Has a stream that was opened wait to be served.
    pub fn make_ready<T: Wait>(&self, rt: &T, order: &Order, ready: Ready<R, W>) {
        let mut table = self.table.lock(rt);
        if let Some(entry) = table.entry_mut(order.number) {
            entry.make_ready(ready);
        }
        drop(table);
        self.changed.notify_all();
    }

    /// Notes that a stream's header was read. Its output is made next.
    pub fn end_header<T: Wait>(&self, rt: &T, order: &Order) {
        if let Some(entry) = self.table.lock(rt).entry_mut(order.number) {
            entry.end_header();
        }
    }

    /// Notes where a stream's output stands, which was made, unless another stream loses by it. Answers
    /// whether none does.
    pub fn set_output<T: Wait>(&self, rt: &T, order: &Order, place: Place) -> bool {
        let mut table = self.table.lock(rt);
        let output = FileUse::output(&order.output, place);
        if table.has_clash(Some(order.number), &output) {
            return false;
        }
        if let Some(entry) = table.entry_mut(order.number) {
            entry.set_output(place);
        }
        true
    }

    /// Takes the stream of this number out and tells it stopped, since there is no thread to open it with.
    pub fn refuse<T: Wait>(&self, rt: &T, number: u64) {
        let mut voice = self.voice.lock(rt);
        let entry = self.table.lock(rt).take(number);
        self.changed.notify_all();
        if let Some(entry) = &entry {
            entry.order.close();
            entry.order.presence.end();
            let stop = StreamStop::Admit(AdmitFault::NoMemory);
            voice.say_stopped(&entry.order.name, stop, entry.order.is_of_words);
            self.told.notify_all();
        }
    }

    /// Tells why nobody can be served.
    pub fn fail<T: Wait>(&self, rt: &T, fault: SessionFault) {
        self.tell_fault(rt, &RunFault::Session(fault));
    }

    /// Closes the streams, since nobody is served any more. Those that are being opened come back, and are
    /// told as closed.
    pub fn give_up<T: Wait, F: Files<Slow = S>>(&self, rt: &T, files: &F)
    where
        S: 'static,
    {
        self.table.lock(rt).give_up(files);
        self.changed.notify_all();
    }

    /// Notes that no stream is asked for any more.
    pub fn end<T: Wait>(&self, rt: &T) {
        self.table.lock(rt).is_ended = true;
        self.changed.notify_all();
    }

    /// Closes the streams, and notes that no stream is asked for any more. Those that are being opened come
    /// back.
    pub fn stop<T: Wait, F: Files<Slow = S>>(&self, rt: &T, files: &F)
    where
        S: 'static,
    {
        let mut table = self.table.lock(rt);
        table.is_ended = true;
        table.close_all(files);
        drop(table);
        self.changed.notify_all();
    }

    /// Tells that nothing more can be read of the control, and notes that so no stream is asked for any more.
    pub fn fail_reading<T: Wait>(&self, rt: &T) {
        self.tell_fault(rt, &"control read");
        self.end(rt);
    }

    /// Tells a fault of the run. The voice's lock isn't held over its write.
    fn tell_fault<T: Wait, D: Display>(&self, rt: &T, fault: &D) {
        let mut voice = self
            .told
            .wait_while(rt, self.voice.lock(rt), |voice| !voice.can_tell());
        let Some(errors) = voice.lend_errors() else {
            return;
        };
        drop(voice);
        tell(errors, fault);
        self.voice.lock(rt).take_errors_back(errors);
        self.told.notify_all();
    }

    pub fn say<T: Wait>(&self, rt: &T, said: &Said<'_>) {
        self.voice.lock(rt).say(said);
        self.told.notify_all();
    }

    /// Waits until there is room for all that may come of a further line.
    pub fn await_room<T: Wait>(&self, rt: &T) {
        let voice = self
            .told
            .wait_while(rt, self.voice.lock(rt), |voice| !voice.has_room());
        drop(voice);
    }

    /// Notes that nobody is served any more.
    pub fn end_serving<T: Wait>(&self, rt: &T) {
        self.voice.lock(rt).end_serving();
        self.told.notify_all();
    }

    /// Writes the answers that are said, until nobody is served any more and none is held. No lock is held
    /// over a write. Where there is no memory for them, each is written where it is said.
    pub fn write_on<T: Wait>(&self, rt: &T, alloc: Global) {
        let (Ok(backlog), Ok(mut page)) = (Backlog::new(alloc), Backlog::new(alloc)) else {
            return;
        };
        let Some(output) = self.voice.lock(rt).lend(backlog) else {
            return;
        };
        for _ in rt.forever() {
            let mut voice = self
                .told
                .wait_while(rt, self.voice.lock(rt), |voice| voice.is_silent());
            voice.swap(&mut page);
            if page.is_empty() {
                voice.take_back(output);
                return;
            }
            drop(voice);
            self.told.notify_all();
            let written = page.write_to(output);
            page.clear();
            if written.is_err() {
                self.voice.lock(rt).fail();
                self.told.notify_all();
            }
        }
    }
}
