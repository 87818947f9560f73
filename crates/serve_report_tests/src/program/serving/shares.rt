//! Streams that share one worker, and which of them is served first.
ghost use Rattle.std.specs.Prelude.{⊤};

use crate::compare::same_at;
use crate::program::{words_of, written};
use serve_files::{Files, Inlet, Outlet, Place};
use serve_report::main_on;
use std::alloc::Global;
use std::io::{self, Empty, ErrorKind, Read, Write};
use std::process::Abort;
use std::sync::Wait;
use std::sync::atomic::Ordering::SeqCst;
use std::sync::atomic::{AtomicBool, AtomicU64};
use std::thread::{self, Threads};
use std::time::Clock;

/// Its frames have four bands of 128 rows. Their work takes longer than a client that was woken waits for a
/// processor, so that frames wait for the worker.
const HEADER: &[u8] = b"YUV4MPEG2 W2048 H512 Cmono\n";

const LINE: &[u8] = b"FRAME\n";

/// The bytes of a frame with its line.
const FRAME: u64 = 6 + 2048 * 512;

/// How often a run is tried at most: other work may hold up a client, whose stream is then not served in its
/// turn.
const TRIES: u32 = 64;

/// In so many of these runs the streams are to be served in their turn.
const ENOUGH: u32 = 3;

/// How often an input that begins later looks whether it may.
const LOOKS: u32 = 20_000_000;

/// Two streams of a run: how many bytes of each were written, and what is to be seen of the second one.
#[derive(Drop)]
struct Pair {
    /// How many frames each has.
    frames: [u64; 2],
    /// The frames of the second come when so many images of the first were written.
    begins_at: u64,
    written: [AtomicU64; 2],
    /// How many images of the second were there when the first ended.
    seen: AtomicU64,
    /// The second began before it may.
    is_early: AtomicBool,
}

impl Pair {
    fn new(frames: [u64; 2], begins_at: u64) -> Pair {
        Pair {
            frames,
            begins_at,
            written: [AtomicU64::new(0), AtomicU64::new(0)],
            seen: AtomicU64::new(u64::MAX),
            is_early: AtomicBool::new(false),
        }
    }

    /// How many images of the stream were written whole.
    fn images(&self, stream: usize) -> u64 {
        match self.written.get(stream) {
            Some(bytes) => bytes.load(SeqCst).saturating_sub(HEADER.len() as u64) / FRAME,
            None => 0,
        }
    }

    /// Waits until the frames of the second may come, or for long.
    fn wait(&self) {
        for _ in 0..LOOKS {
            if self.images(0) >= self.begins_at || self.is_early.load(SeqCst) {
                return;
            }
            thread::yield_now();
        }
        self.is_early.store(true, SeqCst);
    }

    /// So many bytes more of the stream were written.
    fn add(&self, stream: usize, bytes: u64) {
        if let Some(written) = self.written.get(stream) {
            written.fetch_add(bytes, SeqCst);
        }
        if stream == 0 && self.images(0) >= self.frames[0] {
            let _ = self
                .seen
                .compare_exchange(u64::MAX, self.images(1), SeqCst, SeqCst);
        }
    }
}

/// Gives a stream whose samples are all the same.
#[derive(Drop)]
struct Input<'a> {
    pair: &'a Pair,
    stream: usize,
    /// How many bytes were given.
    given: u64,
}

impl Input<'_> {
    /// What is left of the piece at which it stands: of the header, of a frame's line or of its samples.
    fn piece(&self) -> (&'static [u8], u64) {
        let header = HEADER.len() as u64;
        if self.given < header {
            return (HEADER, self.given);
        }
        (LINE, (self.given - header) % FRAME)
    }
}

impl Read for Input<'_> {
    fn read(&mut self, buf: &mut [u8]) -> io::Result<usize> {
        let frames = self.pair.frames.get(self.stream).copied().unwrap_or(0);
        let header = HEADER.len() as u64;
        if self.given >= header.saturating_add(frames.saturating_mul(FRAME)) {
            return Ok(0);
        }
        if self.stream == 1 && self.given >= header {
            self.pair.wait();
        }
        let (text, at) = self.piece();
        let taken = match text.get(at as usize..) {
            Some(mut rest) if !rest.is_empty() => rest.read(buf)?,
            _ => buf.len().min((FRAME - at.min(FRAME)) as usize),
        };
        self.given = self.given.saturating_add(taken as u64);
        Ok(taken)
    }
}

/// Counts the bytes that are written.
#[derive(Drop)]
struct Output<'a> {
    pair: &'a Pair,
    stream: usize,
}

impl Write for Output<'_> {
    fn write(&mut self, buf: &[u8]) -> io::Result<usize> {
        self.pair.add(self.stream, buf.len() as u64);
        Ok(buf.len())
    }

    fn flush(&mut self) -> io::Result<()> {
        Ok(())
    }
}

/// The stream of a file, by its name.
fn stream_of(name: &str) -> io::Result<usize> {
    match name {
        "first" => Ok(0),
        "second" => Ok(1),
        _ => Err(io::Error::from(ErrorKind::NotFound)),
    }
}

/// The files of both streams.
#[derive(Clone, Copy)]
struct Both<'a>(&'a Pair);

impl<'a> Files for Both<'a> {
    type Reader = Input<'a>;

    type Slow = Empty;

    type Writer = Output<'a>;

    type SlowWriter = io::Sink;

    ghost place_gives = { λ _ _. ⊤ };

    ghost open_gives = { λ _ _. ⊤ };

    ghost create_gives = { λ _ _. ⊤ };

    fn place(&self, _name: &str) -> Place {
        Place::Shared
    }

    fn open(&self, name: &str) -> io::Result<Inlet<Input<'a>, Empty>> {
        Ok(Inlet::Prompt(Input {
            pair: self.0,
            stream: stream_of(name)?,
            given: 0,
        }))
    }

    fn create(&self, name: &str) -> io::Result<Outlet<Output<'a>, io::Sink>> {
        Ok(Outlet::Prompt(Output {
            pair: self.0,
            stream: stream_of(name)?,
        }))
    }

    fn hold(&self, _name: &str) -> io::Result<Empty> {
        Err(io::Error::from(ErrorKind::NotFound))
    }
}

/// Runs both streams, sees that they are whole, and answers how many images of the second were counted.
fn runs<T: Abort + Threads + Wait + Clock + Copy + Drop + Send + Sync + 'static>(
    rt: &T,
    alloc: Global,
    line: &str,
    pair: &Pair,
) -> u64 {
    let words = words_of(alloc, line).expect(rt, line);
    let (mut room, mut faults) = ([0; 256], [0; 64]);
    let (mut report, mut errors) = (room.as_mut_slice(), faults.as_mut_slice());
    let input = b"".as_slice();
    let status = main_on(
        rt,
        alloc,
        &words,
        input,
        &mut report,
        &mut errors,
        &Both(pair),
    );
    let left = report.len();
    same_at(rt, status, 0, "was a thread or its memory refused?");
    let rows = str::from_utf8(written(&room, left)).ok();
    let is_whole = rows.is_some_and(|rows| rows.contains("stop whole"));
    same_at(rt, is_whole, true, line);
    let is_early = pair.is_early.load(SeqCst);
    same_at(rt, is_early, false, "the first took too long");
    pair.seen.load(SeqCst)
}

/// Runs both streams again and again, and sees that often enough at most so many images of the second were
/// there when the first ended.
fn counts_at_most<T: Abort + Threads + Wait + Clock + Copy + Drop + Send + Sync + 'static>(
    rt: &T,
    alloc: Global,
    line: &str,
    frames: [u64; 2],
    begins_at: u64,
    most: u64,
) {
    let mut few = 0u32;
    for _ in 0..TRIES {
        let pair = Pair::new(frames, begins_at);
        let seen = runs(rt, alloc, line, &pair);
        few = few.saturating_add(u32::from(seen <= most));
        if few >= ENOUGH {
            break;
        }
    }
    let place = format_args!("{line}: runs with at most {most} images of the second");
    same_at(rt, few, ENOUGH, place);
}

/// Words of which the first stream has 24 times the share of the second, in either order. A frame costs 32.
const SHARES: &[&str] = &[
    "serve --workers 1 --band 128 a:first:first:24:25:blur:7 b:second:second:1:25:blur:7",
    "serve --workers 1 --band 128 b:second:second:1:25:blur:7 a:first:first:24:25:blur:7",
];

/// When the first ends, all of the second's images are there where their shares are equal, and two where each
/// always has a frame waiting; other work on the machine may make them more.
#[test]
fn who_has_the_greater_share_is_served_first(rt: HostRuntime) {
    for line in SHARES {
        counts_at_most(&rt, rt.alloc(), line, [48, 48], 0, 24);
    }
}

/// Words whose budgets last for all frames, while too few moments pass for an idle stream to begin anew: each
/// deadline is that of the first arrival. The period of the second stream is the shorter one by 10.
const PERIODS: &[&str] = &[
    "serve --workers 1 --band 128 a:first:first:790:1200:blur:7 b:second:second:400:1190:blur:7",
    "serve --workers 1 --band 128 b:second:second:400:1190:blur:7 a:first:first:790:1200:blur:7",
];

/// The second comes when 12 frames or more were offered. So its deadline is the later one, by two moments at
/// least, and it is served where the first has no frame waiting. Had no moment passed, it would go first.
#[test]
fn who_comes_later_has_the_later_deadline(rt: HostRuntime) {
    for line in PERIODS {
        counts_at_most(&rt, rt.alloc(), line, [24, 12], 12, 3);
    }
}
