//! A stream that is filtered by one thread, or by two.
use super::memory::NoFiles;
use super::words_of;
use crate::compare::same_at;
use serve_report::main_on;
use std::alloc::{AllocError, Global};
use std::io::{self, Read, Write};
use std::process::Abort;
use std::sync::Wait;
use std::sync::atomic::AtomicU64;
use std::sync::atomic::Ordering::SeqCst;
use std::thread::Threads;
use std::time::Clock;
use test_tools::{Parts, Tape};

/// A stream whose frames are enough for a second thread, and one whose frames aren't.
const LARGE: &[u8] = b"YUV4MPEG2 W1024 H512 Cmono\n";

const SMALL: &[u8] = b"YUV4MPEG2 W64 H64 Cmono\n";

/// The samples of a frame of each.
const LARGE_SAMPLES: usize = 1024 * 512;

const SMALL_SAMPLES: usize = 64 * 64;

fn two_frames(alloc: Global, header: &[u8], samples: usize) -> Result<Vec<u8>, AllocError> {
    let samples = vec![in alloc; 7u8; samples]?;
    let mut text = header.to_vec(alloc)?;
    for _ in 0..2 {
        text.extend_from_slice(b"FRAME\n")?;
        text.extend_from_slice(&samples)?;
    }
    Ok(text)
}

/// How far a stream was read, and whether its second frame is read beside the writing of its first image.
#[derive(Drop)]
struct Course {
    /// What stands before the samples of the second frame.
    before_second: u64,
    read: AtomicU64,
    /// How far the stream was read when its first image began to be written.
    read_before: AtomicU64,
    parts: Parts,
}

impl Course {
    fn new(before_second: u64) -> Course {
        Course {
            before_second,
            read: AtomicU64::new(0),
            read_before: AtomicU64::new(0),
            parts: Parts::new(),
        }
    }

    /// So many bytes more were read. With the second frame's samples it is held until the first image is
    /// being written, for a while.
    fn read(&self, taken: u64) {
        let before = self.read.fetch_add(taken, SeqCst);
        let is_second = before.saturating_add(taken) > self.before_second;
        if is_second && before <= self.before_second {
            self.parts.meet(0);
        }
    }

    /// The first image is being written, and is held until the second frame is being read, for a while.
    fn write(&self) {
        self.read_before.store(self.read.load(SeqCst), SeqCst);
        self.parts.meet(1);
    }

    /// Whether the second frame had been read when the first image began to be written.
    fn reads_first(&self) -> bool {
        self.read_before.load(SeqCst) > self.before_second
    }
}

/// A reader that tells how far it came, by small steps.
#[derive(Drop)]
struct Told<'a> {
    course: &'a Course,
    tape: Tape<'a>,
}

impl Read for Told<'_> {
    fn read(&mut self, buf: &mut [u8]) -> io::Result<usize> {
        let taken = self.tape.read(buf)?;
        self.course.read(taken as u64);
        Ok(taken)
    }
}

fn reader_of<'a>(course: &'a Course, text: &'a [u8]) -> Told<'a> {
    Told {
        course,
        tape: Tape::by_steps(text, 65_536),
    }
}

/// A writer that tells once that it came to the first byte behind the header.
#[derive(Drop)]
struct Waiting<'a> {
    course: &'a Course,
    header: usize,
    written: usize,
    has_waited: bool,
}

impl Write for Waiting<'_> {
    fn write(&mut self, buf: &[u8]) -> io::Result<usize> {
        if self.written >= self.header && !self.has_waited {
            self.has_waited = true;
            self.course.write();
        }
        self.written = self.written.saturating_add(buf.len());
        Ok(buf.len())
    }

    fn flush(&mut self) -> io::Result<()> {
        Ok(())
    }
}

/// How many of two parts met the other, the reading of the second frame and the writing of the first image,
/// and whether the reading was over when the writing began.
fn course_of<T: Abort + Threads + Wait + Clock + Copy + Drop + Send + Sync + 'static>(
    rt: &T,
    alloc: Global,
    line: &str,
    header: &[u8],
    samples: usize,
) -> (u32, bool) {
    let text = two_frames(alloc, header, samples).expect(rt, line);
    let words = words_of(alloc, line).expect(rt, line);
    let course = Course::new((text.len() as u64).saturating_sub(samples as u64));
    let input = reader_of(&course, &text);
    let mut output = Waiting {
        course: &course,
        header: header.len(),
        written: 0,
        has_waited: false,
    };
    let mut faults = [0; 64];
    let mut errors = faults.as_mut_slice();
    let status = main_on(rt, alloc, &words, input, &mut output, &mut errors, &NoFiles);
    same_at(rt, (status, output.written), (0, text.len()), "NoMemory?");
    (course.parts.met(), course.reads_first())
}

#[test]
fn one_thread_reads_a_frame_behind_an_image(rt: HostRuntime) {
    let line = "filter --threads 1 invert";
    let course = course_of(&rt, rt.alloc(), line, LARGE, LARGE_SAMPLES);
    same_at(&rt, course, (1, false), line);
}

#[test]
fn two_threads_read_a_frame_beside_an_image(rt: HostRuntime) {
    for line in ["filter --threads 2 invert", "filter invert"] {
        let (met, _) = course_of(&rt, rt.alloc(), line, LARGE, LARGE_SAMPLES);
        same_at(&rt, met, 2, "was a thread or its memory refused?");
    }
}

#[test]
fn two_threads_read_a_small_frame_behind_an_image(rt: HostRuntime) {
    for line in ["filter --threads 2 invert", "filter invert"] {
        let course = course_of(&rt, rt.alloc(), line, SMALL, SMALL_SAMPLES);
        same_at(&rt, course, (1, false), line);
    }
}
