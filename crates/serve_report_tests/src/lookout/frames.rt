//! What is wanted of a reader is awaited whole, and nothing beyond it is read.
use super::{PATIENCE, TEXT, answers, read_by, shut, started};
use crate::compare::same_at;
use serve_files::Lookout;
use std::alloc::Global;
use std::io::{self, Read};
use std::process::Abort;
use std::sync::{Arc, Condvar, Mutex, Wait};
use std::thread::{self, Threads};
use std::time::Clock;
use test_tools::Tape;
use y4m_stream::Wanted;

/// The bytes of a frame's data, which are 100,000 with the shortest line: more than there is room for at
/// first.
const LONG: usize = 99_994;

/// For how many bytes there is room at first.
const ROOM: usize = 65_536;

/// The longest line has so many bytes, with its line feed.
const LINE: usize = 1024;

/// Gives its bytes, at most so many at a time.
#[derive(Drop)]
struct Pieces {
    bytes: Vec<u8>,
    at: usize,
    step: usize,
}

impl Read for Pieces {
    fn read(&mut self, buf: &mut [u8]) -> io::Result<usize> {
        let Some(left) = self.bytes.get(self.at..) else {
            return Ok(0);
        };
        let n = left.len().min(buf.len()).min(self.step);
        buf[..n].copy_from_slice(&left[..n]);
        self.at = self.at.saturating_add(n);
        Ok(n)
    }
}

/// A frame with such a line, whose data are so many bytes.
fn add_frame(rt: &impl Abort, text: &mut Vec<u8>, line: &[u8], data: usize) {
    text.extend_from_slice(line).expect(rt, "the line");
    for _ in 0..data {
        text.push(7).expect(rt, "the data");
    }
}

/// Some bytes come at once, and the others behind the door: what is there is told of, and what isn't is
/// awaited.
#[test]
fn what_is_wanted_is_awaited_whole(rt: HostRuntime) {
    let (door, reader) = shut(&rt, rt.alloc(), Tape::by_steps(TEXT, 2), 2);
    let Some(mut lookout) = started(&rt, rt.alloc(), reader) else {
        return;
    };
    answers(&rt, &lookout, Wanted::data(3), &[PATIENCE], true);
    answers(&rt, &lookout, Wanted::data(7), &[0, 20], false);
    door.open(&rt);
    answers(&rt, &lookout, Wanted::data(7), &[PATIENCE], true);
    let mut buf = [0; 16];
    same_at(&rt, read_by(&mut lookout, &mut buf), Ok(7), "seven bytes");
    same_at(&rt, &buf[..7], &TEXT[..7], "the front");
    answers(&rt, &lookout, Wanted::data(2), &[PATIENCE], true);
    same_at(&rt, read_by(&mut lookout, &mut buf), Ok(2), "two bytes");
    same_at(&rt, &buf[..2], &TEXT[7..], "the back");
    // the end comes where more is wanted
    answers(&rt, &lookout, Wanted::data(5), &[PATIENCE], true);
    same_at(&rt, read_by(&mut lookout, &mut buf), Ok(0), "the end");
}

/// A frame is there, and is read: at once, or where its memory was refused as much of it as there is room
/// for, and then the rest. Nothing behind it was read ahead.
fn takes_frame<R, T>(rt: &T, lookout: &mut Lookout<R, T>, buf: &mut [u8], whole: usize)
where
    R: Read + Drop + Send + 'static,
    T: Abort + Threads + Wait + Clock + Copy + Drop + Send + 'static,
{
    answers(rt, lookout, Wanted::line(LINE, LONG), &[PATIENCE], true);
    let first = read_by(lookout, buf).ok().unwrap_or(0);
    same_at(rt, first == whole || first == ROOM, true, first);
    if first == ROOM {
        let rest = whole.saturating_sub(ROOM).max(1).min(LONG);
        answers(rt, lookout, Wanted::data(rest), &[PATIENCE], true);
        let back = buf.get_mut(first..).expect(rt, "the buffer");
        same_at(rt, read_by(lookout, back), Ok(rest), "the rest");
    }
}

/// The lines of two frames.
const LINES: [&[u8]; 2] = [b"FRAME\n", b"FRAME Ip\n"];

/// The two frames, which come by so many bytes at a time.
fn two_frames(rt: &impl Abort, alloc: Global, step: usize) -> Pieces {
    let mut bytes = Vec::new(alloc);
    for line in LINES {
        add_frame(rt, &mut bytes, line, LONG);
    }
    Pieces { bytes, at: 0, step }
}

/// Two frames come by so many bytes at a time, and each is read.
fn frames_come<T>(rt: &T, alloc: Global, step: usize)
where
    T: Abort + Threads + Wait + Clock + Copy + Drop + Send + 'static,
{
    let frames = two_frames(rt, alloc, step);
    let Some(mut lookout) = started(rt, alloc, frames) else {
        return;
    };
    let mut buf = vec![in alloc; 0u8; 3 * LONG]
        .ok()
        .expect(rt, "memory to read into");
    for line in LINES {
        takes_frame(rt, &mut lookout, &mut buf, line.len().saturating_add(LONG));
        same_at(rt, buf.get(..line.len()), Some(line), step);
    }
    answers(rt, &lookout, Wanted::line(LINE, LONG), &[PATIENCE], true);
    same_at(rt, read_by(&mut lookout, &mut buf), Ok(0), "the end");
}

/// The first frame comes in 1,000 pieces at first, and at last both in one.
#[test]
fn a_frame_is_awaited_whole_and_no_further(rt: HostRuntime) {
    for step in [100, 1 << 12, ROOM, LONG + 6, usize::MAX] {
        frames_come(&rt, rt.alloc(), step);
    }
}

/// A line of 1,023 bytes comes in two, and its frame is awaited meanwhile.
#[test]
fn a_long_line_is_awaited_whole(rt: HostRuntime) {
    let mut bytes = Vec::new(rt.alloc());
    add_frame(&rt, &mut bytes, b"FRAME ", 1017);
    add_frame(&rt, &mut bytes, b"\n", 4);
    add_frame(&rt, &mut bytes, b"FRAME\n", 4);
    let step = usize::MAX;
    let (door, reader) = shut(&rt, rt.alloc(), Pieces { bytes, at: 0, step }, 9);
    let Some(mut lookout) = started(&rt, rt.alloc(), reader) else {
        return;
    };
    let wanted = Wanted::line(LINE, 4);
    answers(&rt, &lookout, wanted, &[0, 20], false);
    door.open(&rt);
    answers(&rt, &lookout, wanted, &[PATIENCE], true);
    let mut buf = [0; 2048];
    same_at(
        &rt,
        read_by(&mut lookout, &mut buf),
        Ok(1028),
        "a long frame",
    );
    same_at(
        &rt,
        buf.get(1023..1028),
        Some(b"\n\x07\x07\x07\x07".as_slice()),
        "its data",
    );
    answers(&rt, &lookout, wanted, &[PATIENCE], true);
    same_at(
        &rt,
        read_by(&mut lookout, &mut buf),
        Ok(10),
        "a short frame",
    );
}

/// Nothing is awaited behind a line that is no frame line, or that is too long.
#[test]
fn a_fault_of_a_line_is_there_at_once(rt: HostRuntime) {
    for (line, there) in [(b"FRAMES\n".as_slice(), 7), (&[b'F'; 1030], LINE)] {
        let mut bytes = Vec::new(rt.alloc());
        bytes.extend_from_slice(line).expect(&rt, "the line");
        let (_, reader) = shut(
            &rt,
            rt.alloc(),
            Pieces {
                bytes,
                at: 0,
                step: 1,
            },
            1024,
        );
        let Some(mut lookout) = started(&rt, rt.alloc(), reader) else {
            return;
        };
        answers(&rt, &lookout, Wanted::line(LINE, 4), &[PATIENCE], true);
        let mut buf = [0; 2048];
        same_at(&rt, read_by(&mut lookout, &mut buf), Ok(there), there);
    }
}

/// How much of a text was said.
#[derive(Drop)]
struct Said {
    most: Mutex<usize>,
    changed: Condvar,
}

impl Said {
    /// The talker says a frame of 1,000 bytes, byte by byte.
    fn say<T: Wait>(&self, rt: &T) {
        for most in 1..1001 {
            *self.most.lock(rt) = most;
            self.changed.notify_all();
        }
    }
}

/// A reader that waits for what is said.
#[derive(Drop)]
struct Hearing<T: Wait + Drop> {
    rt: T,
    said: Arc<Said>,
    pieces: Pieces,
}

impl<T: Wait + Drop> Read for Hearing<T> {
    fn read(&mut self, buf: &mut [u8]) -> io::Result<usize> {
        let at = self.pieces.at;
        let said = self.said.most.lock(&self.rt);
        let most = *self
            .said
            .changed
            .wait_while(&self.rt, said, |most| *most <= at);
        self.pieces.step = most.saturating_sub(at);
        self.pieces.read(buf)
    }
}

/// A text of which nothing is said yet, and its reader.
fn unsaid<T: Abort + Wait + Copy + Drop>(
    rt: &T,
    alloc: Global,
    bytes: Vec<u8>,
) -> (Arc<Said>, Hearing<T>) {
    let said = Said {
        most: Mutex::new(0),
        changed: Condvar::new(),
    };
    let said = Arc::new(alloc, said).expect(rt, "no text");
    let theirs = Arc::try_clone(&said).expect(rt, "no text");
    let pieces = Pieces {
        bytes,
        at: 0,
        step: 0,
    };
    let hearing = Hearing {
        rt: *rt,
        said: theirs,
        pieces,
    };
    (said, hearing)
}

#[test]
fn a_frame_is_awaited_while_it_is_said(rt: HostRuntime) {
    let mut bytes = Vec::new(rt.alloc());
    add_frame(&rt, &mut bytes, b"FRAME\n", 994);
    add_frame(&rt, &mut bytes, b"FRAME\n", 994);
    let (said, reader) = unsaid(&rt, rt.alloc(), bytes);
    let Some(mut lookout) = started(&rt, rt.alloc(), reader) else {
        return;
    };
    let hear = || {
        let mut buf = [0; 2048];
        let is_ready = lookout.is_ready(PATIENCE, Wanted::line(LINE, 994));
        (is_ready, lookout.read(&mut buf).ok())
    };
    // Where no thread is granted, all is said first.
    let (heard, _) = thread::join(&rt, hear, || said.say(&rt));
    same_at(&rt, heard, (true, Some(1000)), "a frame");
}
