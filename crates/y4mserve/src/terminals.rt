//! The terminals that the program's streams may be, and what the error stream's shows of a run.
ghost use Rattle.std.specs.Prelude.{◌≤◌, IfSome, length};

use crate::scribe::{ROOM, Scribe};
use serve_files::Patient;
use serve_watch::{Board, Line, Presence, Watch};
use std::io::{IsTerminal, Lock, Write};
use std::sync::{OnceLock, Wait};
use std::time::{Clock, Instant};

/// The program's own streams. Where the error stream is a terminal, it shows how far a run has come.
#[derive(Drop)]
pub struct Terminals<'t, 's, T> {
    rt: &'t T,
    system: &'s HostRuntime,
    /// None where nothing is shown: the error stream is no terminal, or there is no clock.
    start: Option<Instant>,
    /// What is shown of a stream that is alone.
    line: Line,
    /// What is shown of streams that are served together.
    board: OnceLock<Board>,
    /// Who writes on the error stream where something is shown.
    scribe: Option<Scribe>,
}

impl<'t, 's, T: Wait + Clock> Terminals<'t, 's, T> {
    /// The terminals at the start of a run.
    pub fn new(rt: &'t T, system: &'s HostRuntime) -> Terminals<'t, 's, T> {
        let start = if system.stderr().is_terminal() {
            Instant::now(system).ok()
        } else {
            None
        };
        let scribe = match start {
            Some(_) => Scribe::new(system.alloc()).ok(),
            None => None,
        };
        Terminals {
            rt,
            system,
            start,
            line: Line::new(),
            board: OnceLock::new(),
            scribe,
        }
    }

    /// Whether a thread of its own is to write on the error stream.
    pub fn want_scribe(&self) -> bool {
        self.scribe.is_some()
    }

    /// The milliseconds since the start.
    fn time(&self) -> Option<u64> {
        let passed = self.start?.elapsed(self.system).ok()?;
        u64::try_from(passed.as_millis()).ok()
    }

    /// Draws what is shown, where that is due.
    fn draw(&self) {
        let Some(time) = self.time() else {
            return;
        };
        // As in `main`, `lock` of a standard stream holds no lock here.
        let mut errors = self.system.stderr().lock();
        match self.board.get() {
            Some(board) => board.draw(self.rt, &mut errors, time),
            None => self.line.draw(&mut errors, time),
        }
    }

    /// Draws what is shown, where that is due and no thread of its own does so.
    fn note_frame(&self) {
        let is_drawn = self
            .scribe
            .as_ref()
            .is_some_and(|scribe| scribe.is_writing());
        if !is_drawn {
            self.draw();
        }
    }

    /// Writes on the error stream by this thread and no other, what is told and what is shown, until the run
    /// ends. So a terminal that takes no more holds up no other thread.
    pub fn write_on(&self) {
        let Some(scribe) = &self.scribe else {
            return;
        };
        let Ok(mut text) = Vec::with_capacity(self.system.alloc(), ROOM) else {
            return;
        };
        if !scribe.begin(self.rt) {
            return;
        }
        for _ in self.rt.forever() {
            let goes_on = scribe.await_text(self.rt, &mut text);
            self.write_told(&text);
            if !goes_on {
                break;
            }
            self.draw();
        }
        scribe.end(self.rt);
    }

    /// Writes what was told, below what is shown.
    fn write_told(&self, text: &[u8]) {
        if text.is_empty() {
            return;
        }
        self.clear();
        let mut errors = Patient::new(self.system.stderr().lock(), *self.system);
        let _ = errors.write_all(text);
    }

    /// Clears what is shown, so that something else may be written in its place.
    pub fn clear(&self) {
        if let Some(board) = self.board.get() {
            board.clear(&mut self.system.stderr().lock());
        }
    }

    /// Has what is shown drawn anew from where the cursor stands, since something else was written.
    pub fn leave(&self) {
        if let Some(board) = self.board.get() {
            board.leave();
        }
    }

    /// Has the thread that writes on the error stream write a text, or its first part, and answers how long
    /// that is. None where there is none.
    pub fn tell(&self, text: &[u8]) -> Option<usize>
        ensures { IfSome result (λ taken. taken ≤ length text.now) }
    {
        self.scribe.as_ref()?.tell(self.rt, text)
    }

    /// Has the thread end that writes on the error stream, and waits until it has.
    pub fn end_writing(&self) {
        if let Some(scribe) = &self.scribe {
            scribe.lay_down(self.rt);
        }
    }
}

impl<T: Wait + Clock> Watch for Terminals<'_, '_, T> {
    fn input_is_terminal(&self) -> bool {
        self.system.stdin().is_terminal()
    }

    fn output_is_terminal(&self) -> bool {
        self.system.stdout().is_terminal()
    }

    fn follows_frames(&self) -> bool {
        self.start.is_some()
    }

    fn begins(&self, names: &[&str]) {
        let time = self.time().unwrap_or(0);
        if let Ok(board) = Board::new(self.system.alloc(), names, time) {
            let _ = self.board.try_set(board);
        }
    }

    fn awaits_stream(&self) {
        self.line.await_stream();
    }

    fn joins(&self, stream: usize, name: &str, presence: Presence) {
        if let (Some(board), Some(time)) = (self.board.get(), self.time()) {
            let _ = board.add(self.rt, stream, name, presence, time);
        }
    }

    fn opened(&self, stream: usize) {
        if let Some(board) = self.board.get() {
            board.set_open(self.rt, stream);
        }
    }

    fn frame_read(&self, stream: usize) {
        let Some(board) = self.board.get() else {
            self.line.begin();
            return;
        };
        board.add_read(self.rt, stream, 1);
        self.note_frame();
    }

    fn image_written(&self, stream: usize, bytes: u64) {
        match self.board.get() {
            Some(board) => board.add_written(self.rt, stream, 1),
            None => self.line.add_written(1, bytes),
        }
        self.note_frame();
    }

    fn ends(&self) {
        self.end_writing();
        let time = self.time();
        let mut errors = self.system.stderr().lock();
        match self.board.get() {
            Some(board) => board.draw_last(self.rt, &mut errors, time.unwrap_or(0)),
            None => self.line.draw_last(&mut errors, time),
        }
    }
}
