//! What a thread writes on the error stream beside those that serve: it draws, and writes what is told.
ghost use Rattle.std.specs.Prelude.{◌≤◌, IfSome, length};

use std::alloc::{AllocError, Global};
use std::mem;
use std::sync::atomic::{AtomicBool, Ordering};
use std::sync::{Condvar, CondvarTimeouts, Mutex, Wait};
use std::time::{Clock, Duration};

/// The milliseconds between two looks whether something is to be drawn.
const BETWEEN_LOOKS: u64 = 50;

/// Room for what is told and isn't written yet.
pub const ROOM: usize = 1 << 16;

/// Who writes on the error stream.
#[derive(Clone, Copy)]
enum Pen {
    /// Each thread for itself.
    Shared,
    /// A thread of its own.
    Held,
    /// That thread is to lay it down.
    Asked,
    /// Each thread for itself, until the end.
    Down,
}

impl Pen {
    fn is_held(self) -> bool {
        matches!(self, Pen::Held)
    }

    fn is_down(self) -> bool {
        matches!(self, Pen::Down)
    }
}

/// What is told and isn't written yet, and who writes it.
#[derive(Drop)]
struct Desk {
    pen: Pen,
    text: Vec<u8>,
}

impl Desk {
    /// Whether there is nothing to be done.
    fn is_idle(&self) -> bool {
        self.pen.is_held() && self.text.is_empty()
    }

    /// Whether who tells something is to wait.
    fn is_full(&self) -> bool {
        self.pen.is_held() && self.text.len() >= ROOM
    }

    /// Takes as much of a text as there is room for, and answers how much that is. None where there is none.
    fn take(&mut self, text: &[u8]) -> Option<usize>
        ensures { IfSome result (λ taken. taken ≤ length text.now) }
    {
        let room = ROOM.saturating_sub(self.text.len());
        let taken = text.len().min(room);
        self.text.extend_from_slice(&text[..taken]).ok()?;
        Some(taken)
    }
}

/// Between those who tell something and the thread that writes it. Nobody waits for a write but that thread,
/// those for whom there is no room, and the end of the run.
#[derive(Drop)]
pub struct Scribe {
    desk: Mutex<Desk>,
    changed: Condvar,
    is_writing: AtomicBool,
}

impl Scribe {
    /// No thread writes yet.
    pub fn new(alloc: Global) -> Result<Scribe, AllocError> {
        let desk = Desk {
            pen: Pen::Shared,
            text: Vec::with_capacity(alloc, ROOM)?,
        };
        Ok(Scribe {
            desk: Mutex::new(desk),
            changed: Condvar::new(),
            is_writing: AtomicBool::new(false),
        })
    }

    /// Whether a thread of its own writes.
    pub fn is_writing(&self) -> bool {
        self.is_writing.load(Ordering::SeqCst)
    }

    /// This thread writes from here on, and no other. False where the run is over already.
    pub fn begin<T: Wait>(&self, rt: &T) -> bool {
        let mut desk = self.desk.lock(rt);
        if desk.pen.is_down() {
            return false;
        }
        desk.pen = Pen::Held;
        self.is_writing.store(true, Ordering::SeqCst);
        true
    }

    /// Waits until something is told, or it is time to look, and puts what was told into this, which has
    /// room for as much. Answers whether the thread that writes is to go on.
    pub fn await_text<T: Wait + Clock>(&self, rt: &T, text: &mut Vec<u8>) -> bool {
        let (mut desk, _) = self.changed.wait_timeout_while(
            rt,
            self.desk.lock(rt),
            Duration::from_millis(BETWEEN_LOOKS),
            |desk| desk.is_idle(),
        );
        text.clear();
        mem::swap(&mut desk.text, text);
        let goes_on = desk.pen.is_held();
        drop(desk);
        self.changed.notify_all();
        goes_on
    }

    /// The thread that writes has ended.
    pub fn end<T: Wait>(&self, rt: &T) {
        self.is_writing.store(false, Ordering::SeqCst);
        self.desk.lock(rt).pen = Pen::Down;
        self.changed.notify_all();
    }

    /// Has the thread that writes write a text, or the first part of it, and answers how long that is. None
    /// where no thread of its own writes.
    pub fn tell<T: Wait>(&self, rt: &T, text: &[u8]) -> Option<usize>
        ensures { IfSome result (λ taken. taken ≤ length text.now) }
    {
        let desk = self.desk.lock(rt);
        let mut desk = self.changed.wait_while(rt, desk, |desk| desk.is_full());
        if !desk.pen.is_held() {
            return None;
        }
        let taken = desk.take(text);
        drop(desk);
        self.changed.notify_all();
        taken
    }

    /// Has the thread end that writes, and waits until it has written what was told.
    pub fn lay_down<T: Wait>(&self, rt: &T) {
        let mut desk = self.desk.lock(rt);
        if !desk.pen.is_held() {
            desk.pen = Pen::Down;
            return;
        }
        desk.pen = Pen::Asked;
        self.changed.notify_all();
        let desk = self
            .changed
            .wait_while(rt, desk, |desk| !desk.pen.is_down());
        drop(desk);
    }
}
