//! The line that shows how far a stream that is alone has come. Each drawing stands over the one before.
//! Times are milliseconds from the start of the run.
ghost use Rattle.std.specs.Prelude.{◌≡◌, ◌≤◌, ◌+◌, ◌-◌, ◌*◌, ◌/◌, ◌%◌, ◌^◌, ◌↔◌, IsTrue, max, min, unwrap_or};

use crate::due::has_passed;
use crate::row::PATIENCE;
use std::fmt;
use std::io::Write;
use std::sync::Mutex;
use std::sync::atomic::{AtomicBool, AtomicU64, Ordering};

/// The time between two lines of a stream that is alone.
const BETWEEN_LINES: u64 = 100;

/// Room for the longest line of a stream that is alone, with what it orders of the terminal.
const LONGEST: usize = 128;

/// The line while a stream is waited for.
const AWAITED: &[u8] = b"\x1B[?7l\rwaiting for a stream (.y4m) on standard input\x1B[K\x1B[?7h";

/// No line.
const NONE: &[u8] = b"\r\x1B[K";

/// What the line tells: the images, their rate in whole ones and a tenth, and the megabytes of each second.
#[derive(Clone, Copy)]
struct Rates {
    frames: u64,
    whole: u64,
    tenth: u64,
    megabytes: u64,
}

/// The line, over what stood there. Meanwhile the terminal doesn't wrap, so that it is one row of it, however
/// narrow it is.
impl fmt::Display for Rates {
    ghost use Rattle.std.specs.Prelude.{Some};
    ghost use Rattle.serve_watch.specs.Line.{line_drawn};

    ghost output = { λ rates. Some (line_drawn rates) };

    fn fmt<W: fmt::Write>(&self, f: &mut fmt::Formatter<W>) -> fmt::Result {
        let Rates {
            frames,
            whole,
            tenth,
            megabytes,
        } = *self;
        write!(
            f,
            "\x1B[?7l\r{frames} frames, {whole}.{tenth} frames/s, {megabytes} MB/s\x1B[K\x1B[?7h"
        )
    }
}

impl Rates {
    /// The rates of so many images and bytes in so many milliseconds. A number of 64 bits stays at its last
    /// value.
    fn of(frames: u64, bytes: u64, time: u64) -> Rates
        ensures frames { result.frames ≡ frames }
        ensures whole { result.whole ≡ min (frames * 10000) (2 ^ 64 - 1) / max time 1 / 10 }
        ensures tenth { result.tenth ≡ min (frames * 10000) (2 ^ 64 - 1) / max time 1 % 10 }
        ensures megabytes { result.megabytes ≡ bytes / 1000 / max time 1 }
    {
        let time = time.max(1);
        let tenths = frames.saturating_mul(10_000) / time;
        Rates {
            frames,
            whole: tenths / 10,
            tenth: tenths % 10,
            megabytes: bytes / 1_000 / time,
        }
    }
}

/// Whether the line of a stream that is alone may be drawn at this time: at least a tenth of a second after it
/// was last drawn, or after the start.
fn is_due(drawn: Option<u64>, time: u64) -> bool
    ensures { IsTrue result ↔ (unwrap_or drawn 0 + BETWEEN_LINES ≤ time) }
{
    has_passed(BETWEEN_LINES, drawn, time)
}

/// What a line tells.
#[derive(Clone, Copy)]
enum Tidings {
    /// A stream is waited for.
    Awaited,
    /// Images were written, and so many bytes.
    Written { frames: u64, bytes: u64 },
}

/// The line of a stream that is alone, or of all together where there was no memory for a board. Any thread
/// may count, also while another one draws.
#[derive(Drop)]
pub struct Line {
    is_awaited: AtomicBool,
    frames: AtomicU64,
    bytes: AtomicU64,
    /// When it was last drawn.
    drawn: Mutex<Option<u64>>,
}

impl Line {
    /// None of the stream's images was written yet, and nobody waits for it.
    pub fn new() -> Line {
        Line {
            is_awaited: AtomicBool::new(false),
            frames: AtomicU64::new(0),
            bytes: AtomicU64::new(0),
            drawn: Mutex::new(None),
        }
    }

    /// The stream is waited for.
    pub fn await_stream(&self) {
        self.is_awaited.store(true, Ordering::SeqCst);
    }

    /// The stream is no longer waited for.
    pub fn begin(&self) {
        self.is_awaited.store(false, Ordering::SeqCst);
    }

    /// So many images more have been written whole, and so many bytes.
    pub fn add_written(&self, frames: u64, bytes: u64) {
        self.frames.fetch_add(frames, Ordering::SeqCst);
        self.bytes.fetch_add(bytes, Ordering::SeqCst);
    }

    /// What the line tells, if it does.
    fn tidings(&self) -> Option<Tidings> {
        let frames = self.frames.load(Ordering::SeqCst);
        if frames > 0 {
            let bytes = self.bytes.load(Ordering::SeqCst);
            return Some(Tidings::Written { frames, bytes });
        }
        if self.is_awaited.load(Ordering::SeqCst) {
            Some(Tidings::Awaited)
        } else {
            None
        }
    }

    /// Draws the line, if it may be drawn at this time and no other thread is drawing it. That a stream is
    /// waited for is told a second after the start.
    pub fn draw<E: Write>(&self, errors: &mut E, time: u64) {
        let Some(mut drawn) = self.drawn.try_lock() else {
            return;
        };
        if !is_due(*drawn, time) {
            return;
        }
        match self.tidings() {
            Some(Tidings::Written { frames, bytes }) => show(
                errors,
                Rates::of(frames, bytes, time),
            ),
            Some(Tidings::Awaited) if drawn.is_none() && time >= PATIENCE => {
                let _ = errors.write_all(AWAITED);
            }
            _ => return,
        }
        *drawn = Some(time);
    }

    /// Draws the line a last time, where the time is known, and ends it, where it was drawn before and no other
    /// thread is drawing it. Where no image was written it goes.
    pub fn draw_last<E: Write>(&self, errors: &mut E, time: Option<u64>) {
        let Some(drawn) = self.drawn.try_lock() else {
            return;
        };
        if drawn.is_none() {
            return;
        }
        let Some(Tidings::Written { frames, bytes }) = self.tidings() else {
            let _ = errors.write_all(NONE);
            return;
        };
        if let Some(time) = time {
            show(errors, Rates::of(frames, bytes, time));
        }
        let _ = errors.write_all(b"\n");
    }
}

/// Shows the line, in one write.
fn show<E: Write>(errors: &mut E, rates: Rates) {
    let mut room = [0; LONGEST];
    let mut rest = room.as_mut_slice();
    let _ = write!(rest, "{rates}");
    let left = rest.len().min(LONGEST);
    let _ = errors.write_all(&room[..LONGEST - left]);
}
