//! What a watch is told of runs, and what comes of terminals.
use super::memory::NoFiles;
use super::{words_of, written};
use crate::compare::same_at;
use serve_report::Host;
use serve_watch::{Doing, Watch};
use std::alloc::Global;
use std::io::Read;
use std::process::Abort;
use std::sync::Wait;
use std::sync::atomic::AtomicU64;
use std::sync::atomic::Ordering::SeqCst;
use std::thread::Threads;
use std::time::Clock;
use test_tools::Tape;

/// What a watch was told of a stream.
#[derive(Drop)]
struct Counted {
    read: AtomicU64,
    written: AtomicU64,
    bytes: AtomicU64,
    writes: AtomicU64,
    begun: AtomicU64,
    done: AtomicU64,
}

impl Counted {
    fn new() -> Counted {
        Counted {
            read: AtomicU64::new(0),
            written: AtomicU64::new(0),
            bytes: AtomicU64::new(0),
            writes: AtomicU64::new(0),
            begun: AtomicU64::new(0),
            done: AtomicU64::new(0),
        }
    }
}

/// Tells of terminals, and keeps what it is told of up to two streams and how often it is asked.
#[derive(Drop)]
pub struct Told<'n> {
    input_is_terminal: bool,
    output_is_terminal: bool,
    follows_frames: bool,
    names: &'n [&'n str],
    asked: AtomicU64,
    begun: AtomicU64,
    streams: [Counted; 2],
    ended: AtomicU64,
}

impl<'n> Told<'n> {
    fn new(input_is_terminal: bool, output_is_terminal: bool) -> Told<'n> {
        Told {
            input_is_terminal,
            output_is_terminal,
            follows_frames: true,
            names: &[],
            asked: AtomicU64::new(0),
            begun: AtomicU64::new(0),
            streams: [Counted::new(), Counted::new()],
            ended: AtomicU64::new(0),
        }
    }

    /// With no terminal, for streams of these names.
    pub fn of_streams(names: &'n [&'n str]) -> Told<'n> {
        Told {
            names,
            ..Told::new(false, false)
        }
    }

    /// The same, where it follows no frames.
    pub fn of_none(names: &'n [&'n str]) -> Told<'n> {
        Told {
            follows_frames: false,
            ..Told::of_streams(names)
        }
    }

    /// The frames that were read and written of a stream, and the bytes that were written.
    pub fn frames(&self, stream: usize) -> (u64, u64, u64) {
        match self.streams.get(stream) {
            Some(counted) => (
                counted.read.load(SeqCst),
                counted.written.load(SeqCst),
                counted.bytes.load(SeqCst),
            ),
            None => (0, 0, 0),
        }
    }

    /// How often a stream's client was about to write, and whether it came back each time from what it did.
    pub fn writes(&self, stream: usize) -> (u64, bool) {
        match self.streams.get(stream) {
            Some(counted) => (
                counted.writes.load(SeqCst),
                counted.begun.load(SeqCst) == counted.done.load(SeqCst),
            ),
            None => (0, false),
        }
    }

    /// How often it was told that streams of its names begin.
    pub fn begun(&self) -> u64 {
        self.begun.load(SeqCst)
    }

    /// How often it was told that nothing more is read or written.
    pub fn ended(&self) -> u64 {
        self.ended.load(SeqCst)
    }

    /// How often it was asked about the output.
    fn asked(&self) -> u64 {
        self.asked.load(SeqCst)
    }
}

impl Watch for Told<'_> {
    fn input_is_terminal(&self) -> bool {
        self.input_is_terminal
    }

    fn output_is_terminal(&self) -> bool {
        self.asked.fetch_add(1, SeqCst);
        self.output_is_terminal
    }

    fn follows_frames(&self) -> bool {
        self.follows_frames
    }

    fn begins(&self, names: &[&str]) {
        if names == self.names {
            self.begun.fetch_add(1, SeqCst);
        }
    }

    fn frame_read(&self, stream: usize) {
        if let Some(counted) = self.streams.get(stream) {
            counted.read.fetch_add(1, SeqCst);
        }
    }

    fn image_written(&self, stream: usize, bytes: u64) {
        if let Some(counted) = self.streams.get(stream) {
            counted.written.fetch_add(1, SeqCst);
            counted.bytes.fetch_add(bytes, SeqCst);
        }
    }

    fn ends(&self) {
        self.ended.fetch_add(1, SeqCst);
    }

    fn begins_doing(&self, stream: usize, doing: Doing) {
        if let Some(counted) = self.streams.get(stream) {
            counted.begun.fetch_add(1, SeqCst);
            if doing == Doing::Writing {
                counted.writes.fetch_add(1, SeqCst);
            }
        }
    }

    fn ends_doing(&self, stream: usize, _has_failed: bool) {
        if let Some(counted) = self.streams.get(stream) {
            counted.done.fetch_add(1, SeqCst);
        }
    }
}

/// Runs the program under a watch, compares what it says, and answers how much it wrote.
fn watched<R: Read + Drop + Send>(
    rt: &(impl Abort + Threads + Wait + Clock + Copy + Drop + Send + Sync + 'static),
    alloc: Global,
    line: &str,
    input: R,
    watch: &Told<'_>,
    said: &str,
    status: u8,
) -> usize {
    let words = words_of(alloc, line).expect(rt, line);
    let mut faults = [0; 256];
    let mut rest = faults.as_mut_slice();
    let mut output = [0; 8192];
    let mut room = output.as_mut_slice();
    let host = Host {
        rt,
        alloc,
        files: &NoFiles,
        watch: Some(watch),
    };
    let answer = host.run(&words, input, &mut room, &mut rest);
    let left = rest.len();
    let told = str::from_utf8(written(&faults, left)).ok();
    same_at(rt, (told, answer), (Some(said), status), line);
    8192 - room.len().min(8192)
}

/// 3 frames of 6 bytes; a header of 16, and lines of 6, 9 and 6.
const THREE: &[u8] = b"YUV4MPEG2 W2 H2\nFRAME\n123456FRAME Ip\n\nFRAMEFRAME\nabcdef";

#[test]
fn a_terminal_is_no_output_of_filter(rt: HostRuntime) {
    let watch = Told::new(true, true);
    let mut input = Tape::by_steps(THREE, 99);
    let line = "filter invert";
    let said = "y4mserve: output is a terminal\n";
    let count = watched(&rt, rt.alloc(), line, &mut input, &watch, said, 2);
    same_at(&rt, (count, input.reads, watch.asked()), (0, 0, 1), line);
}

/// Words and an input, what is said, the status, and how much is written.
const BEFORE: &[(&str, &[u8], &str, u8, usize)] = &[
    ("filter blur:9", b"", "y4mserve: BadOp\n", 2, 0),
    ("filter --band 9 invert", b"", "y4mserve: bad band\n", 2, 0),
    ("replay", b"account 2 10", "", 0, 20),
];

#[test]
fn wrong_words_and_help_come_before_terminals(rt: HostRuntime) {
    let watch = Told::new(true, true);
    for (line, input, said, status, count) in BEFORE {
        let given = watched(&rt, rt.alloc(), line, *input, &watch, said, *status);
        same_at(&rt, given, *count, *line);
    }
    let empty = b"".as_slice();
    let line = "filter --help";
    let count = watched(&rt, rt.alloc(), line, empty, &watch, "", 0);
    same_at(&rt, (count.min(1), watch.asked()), (1, 0), line);
}

const AWAITED: &[(&str, &str)] = &[
    (
        "filter invert",
        "y4mserve: waiting for a stream (.y4m) on standard input; for help: filter -h\n",
    ),
    ("filter --quiet invert", ""),
];

#[test]
fn a_terminal_that_is_awaited_is_told_once(rt: HostRuntime) {
    let watch = Told::new(true, false);
    for (line, said) in AWAITED {
        let count = watched(&rt, rt.alloc(), line, THREE, &watch, said, 0);
        same_at(&rt, count, THREE.len(), *line);
    }
}

#[test]
fn each_frame_is_told_however_it_comes(rt: HostRuntime) {
    for most in [1, 5, 16, 22, 99] {
        let watch = Told::new(false, false);
        let input = Tape::by_steps(THREE, most);
        let count = watched(&rt, rt.alloc(), "filter vflip", input, &watch, "", 0);
        let told = (count, watch.asked(), watch.frames(0), watch.ended());
        let whole = THREE.len();
        same_at(&rt, told, (whole, 1, (3, 3, whole as u64), 1), most);
    }
}

/// A header and three images are written, by one write each at least.
#[test]
fn each_write_is_told(rt: HostRuntime) {
    let watch = Told::new(false, false);
    watched(&rt, rt.alloc(), "filter vflip", THREE, &watch, "", 0);
    let (writes, came_back) = watch.writes(0);
    same_at(&rt, (writes.min(4), came_back), (4, true), "the watch");
}

/// The same without its last byte.
const CUT: &[u8] = b"YUV4MPEG2 W2 H2\nFRAME\n123456FRAME Ip\n\nFRAMEFRAME\nabcde";

/// A header of 22 bytes, and 2 frames of 8 samples.
const WIDE: &[u8] = b"YUV4MPEG2 W4 H2 Cmono\nFRAME\n01234567FRAME\n89abcdef";

/// What is told of frames: how many were read and written, and the bytes that were written.
type Frames = (u64, u64, u64);

/// Words and an input, what is said, the status, how much is written, the frames, and how often all ends.
const FOLLOWED: &[(&str, &[u8], &str, u8, usize, Frames, u64)] = &[
    // Frames before a fault are told.
    (
        "filter invert",
        CUT,
        "y4mserve: read Truncated\n",
        1,
        16 + (6 + 6) + (9 + 6),
        (2, 2, 16 + (6 + 6) + (9 + 6)),
        1,
    ),
    // Images are counted by their own size.
    (
        "filter crop:1,0,2,1",
        WIDE,
        "",
        0,
        22 + 2 * (6 + 2),
        (2, 2, 38),
        1,
    ),
    // A quiet run tells no frames.
    (
        "filter -q invert",
        WIDE,
        "",
        0,
        22 + 2 * (6 + 8),
        (0, 0, 0),
        0,
    ),
];

#[test]
fn frames_are_told_as_they_are_written(rt: HostRuntime) {
    for (line, input, said, status, count, frames, ended) in FOLLOWED {
        let watch = Told::new(false, false);
        let given = watched(&rt, rt.alloc(), line, *input, &watch, said, *status);
        let told = (given, watch.asked(), watch.frames(0), watch.ended());
        same_at(&rt, told, (*count, 1, *frames, *ended), *line);
    }
}
