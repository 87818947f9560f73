//! The lines that show how far streams that are served together have come, one for each. Each drawing stands
//! over the one before. Times are milliseconds from the start of the run.
ghost use Rattle.std.specs.Prelude.{◌≤◌, ◌+◌, ◌↔◌, IsTrue, OnOk, unwrap_or};
ghost use Rattle.std.specs.Io.KnownBytes.{Appends};
ghost use Rattle.serve_watch.specs.Board.{clearing_text, drawing_text, line_drawn, lines_drawn, over};

use crate::due::has_passed;
use crate::presence::Presence;
use crate::row::{Row, StreamProgress, progress_of, rows_of};
use std::alloc::{AllocError, Global};
use std::io::{self, Write};
use std::sync::atomic::{AtomicBool, Ordering};
use std::sync::{Mutex, Wait};

/// The time between two drawings of the lines of streams.
const BETWEEN_DRAWINGS: u64 = 200;

/// Whether the lines of streams may be drawn at this time: at least a fifth of a second after they were last
/// drawn, or after the start.
fn is_due(drawn: Option<u64>, time: u64) -> bool
    ensures { IsTrue result ↔ (unwrap_or drawn 0 + BETWEEN_DRAWINGS ≤ time) }
{
    has_passed(BETWEEN_DRAWINGS, drawn, time)
}

/// Writes a line for each stream, over the lines that were drawn before. Meanwhile the terminal doesn't wrap,
/// so that each is one row of it, however narrow it is.
fn write_drawing<W: Write>(
    output: &mut W,
    before: usize,
    streams: &[StreamProgress<'_>],
) -> io::Result<()>
    ensures { OnOk result
        (Appends (W.contents output.old) (W.contents output.new) (drawing_text before streams.now)) }
{
    write!(output, "\x1B[?7l")?;
    write_over(output, before)?;
    write_lines(output, streams)?;
    write!(output, "\x1B[J\x1B[?7h")
}

/// Goes back over the lines that were drawn before.
fn write_over<W: Write>(output: &mut W, before: usize) -> io::Result<()>
    ensures { OnOk result (Appends (W.contents output.old) (W.contents output.new) (over before)) }
{
    if before > 0 {
        write!(output, "\x1B[{before}A")?;
    }
    Ok(())
}

/// Clears the lines that were drawn, so that something else may stand there.
fn write_clearing<W: Write>(output: &mut W, before: usize) -> io::Result<()>
    ensures { OnOk result
        (Appends (W.contents output.old) (W.contents output.new) (clearing_text before)) }
{
    write_over(output, before)?;
    write!(output, "\x1B[J")
}

/// Writes a line for each stream.
fn write_lines<W: Write>(output: &mut W, streams: &[StreamProgress<'_>]) -> io::Result<()>
    ensures { OnOk result
        (Appends (W.contents output.old) (W.contents output.new) (lines_drawn streams.now)) }
{
    for stream in streams {
        write_line(output, stream)?;
    }
    Ok(())
}

/// Writes the line of a stream.
fn write_line<W: Write>(output: &mut W, stream: &StreamProgress<'_>) -> io::Result<()>
    ensures { OnOk result
        (Appends (W.contents output.old) (W.contents output.new) (line_drawn stream.now)) }
{
    writeln!(output, "{stream}\x1B[K")
}

/// What was drawn, and when.
#[derive(Drop)]
struct Drawing {
    text: Vec<u8>,
    lines: usize,
}

/// What stands on a terminal.
#[derive(Drop)]
struct Shown {
    /// When the lines were last drawn, or would have been.
    time: Option<u64>,
    /// The latest drawing, over which the next one is drawn.
    latest: Option<Drawing>,
}

/// The streams of a run, and what was drawn of them. Any thread may count, also while another one draws: what
/// a count waits for isn't held over a write.
#[derive(Drop)]
pub struct Board {
    alloc: Global,
    rows: Mutex<Vec<Row>>,
    shown: Mutex<Shown>,
    /// Whether something else stands behind the latest drawing.
    is_left: AtomicBool,
}

impl Board {
    /// A board for streams of these names, which begin at this time, and have the numbers from 0 on.
    pub fn new(alloc: Global, names: &[&str], time: u64) -> Result<Board, AllocError> {
        Ok(Board {
            alloc,
            rows: Mutex::new(rows_of(alloc, names, time)?),
            shown: Mutex::new(Shown {
                time: None,
                latest: None,
            }),
            is_left: AtomicBool::new(false),
        })
    }

    /// Adds a stream, which begins at this time, and whose line stands as long as this says. Those of streams
    /// that are over go.
    pub fn add<T: Wait>(
        &self,
        rt: &T,
        stream: usize,
        name: &str,
        presence: Presence,
        time: u64,
    ) -> Result<(), AllocError> {
        let row = Row::new(self.alloc, stream, name, Some(presence), time)?;
        let mut rows = self.rows.lock(rt);
        rows.retain(|row| row.lasts());
        rows.push(row)?;
        Ok(())
    }

    /// The files of a stream are open, or it stopped before they were.
    pub fn set_open<T: Wait>(&self, rt: &T, stream: usize) {
        if let Some(row) = row_mut(&mut self.rows.lock(rt), stream) {
            row.is_open = true;
        }
    }

    /// So many frames more of a stream have been read whole.
    pub fn add_read<T: Wait>(&self, rt: &T, stream: usize, frames: u64) {
        if let Some(row) = row_mut(&mut self.rows.lock(rt), stream) {
            row.read = row.read.saturating_add(frames);
        }
    }

    /// So many images more of a stream have been written whole.
    pub fn add_written<T: Wait>(&self, rt: &T, stream: usize, frames: u64) {
        if let Some(row) = row_mut(&mut self.rows.lock(rt), stream) {
            row.written = row.written.saturating_add(frames);
        }
    }

    /// Draws the lines in one write, if they may be drawn at this time, differ from those that stand there,
    /// and no other thread is drawing them.
    pub fn draw<T: Wait, E: Write>(&self, rt: &T, errors: &mut E, time: u64) {
        let Some(mut shown) = self.shown.try_lock() else {
            return;
        };
        if is_due(shown.time, time) {
            shown.time = Some(time);
            let _ = self.show(rt, errors, &mut shown, time);
        }
    }

    /// Draws the lines a last time, where they were drawn before. They stay there.
    pub fn draw_last<T: Wait, E: Write>(&self, rt: &T, errors: &mut E, time: u64) {
        let Some(mut shown) = self.shown.try_lock() else {
            return;
        };
        if shown.latest.is_some() {
            let _ = self.show(rt, errors, &mut shown, time);
            shown.latest = None;
        }
    }

    /// Clears the lines that stand there, unless another thread is drawing them, so that something else may
    /// stand in their place.
    pub fn clear<E: Write>(&self, errors: &mut E) {
        let Some(mut shown) = self.shown.try_lock() else {
            return;
        };
        if self.is_left.load(Ordering::SeqCst) {
            return;
        }
        if let Some(drawing) = shown.latest.take() {
            let mut text = Vec::new(self.alloc);
            if write_clearing(&mut text, drawing.lines).is_ok() {
                let _ = errors.write_all(&text);
            }
        }
    }

    /// Something else was written, maybe behind the latest drawing, so that the next one stands over none.
    pub fn leave(&self) {
        self.is_left.store(true, Ordering::SeqCst);
    }

    /// Draws the lines, where they differ from those that stand there.
    fn show<T: Wait, E: Write>(
        &self,
        rt: &T,
        errors: &mut E,
        shown: &mut Shown,
        time: u64,
    ) -> io::Result<()> {
        if self.is_left.swap(false, Ordering::SeqCst) {
            shown.latest = None;
        }
        let before = match &shown.latest {
            Some(drawing) => drawing.lines,
            None => 0,
        };
        let drawing = self.drawing(rt, before, time)?;
        if before == 0 && drawing.lines == 0 {
            return Ok(());
        }
        let is_new = !shown
            .latest
            .as_ref()
            .is_some_and(|latest| latest.text == drawing.text);
        if is_new {
            errors.write_all(&drawing.text)?;
            shown.latest = Some(drawing);
        }
        Ok(())
    }

    /// The lines at a time, to be drawn over so many.
    fn drawing<T: Wait>(&self, rt: &T, before: usize, time: u64) -> io::Result<Drawing> {
        let mut rows = self.rows.lock(rt);
        rows.retain(|row| row.lasts());
        let streams = progress_of(self.alloc, &rows, time)?;
        let mut text = Vec::new(self.alloc);
        write_drawing(&mut text, before, &streams)?;
        Ok(Drawing {
            text,
            lines: streams.len(),
        })
    }
}

/// The row of the stream of this number.
fn row_mut(rows: &mut Vec<Row>, stream: usize) -> Option<&mut Row> {
    rows.iter_mut().find(|row| row.stream == stream)
}
