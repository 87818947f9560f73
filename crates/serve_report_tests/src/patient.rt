//! A device whose calls are tried again where they would wait.
use crate::compare::same_at;
use serve_files::Patient;
use std::io::{self, ErrorKind, Read, Write};
use std::time::{Duration, Instant};

/// What is read: nine bytes.
const TEXT: &[u8] = b"YUV4MPEG2";

/// A device that would wait so many times before each call that it answers, and then fails if it is to.
#[derive(Drop)]
struct Slow {
    waits: u32,
    left: u32,
    calls: u32,
    fails: bool,
}

impl Slow {
    fn new(waits: u32, fails: bool) -> Slow {
        Slow {
            waits,
            left: waits,
            calls: 0,
            fails,
        }
    }

    /// Whether a call is answered.
    fn call(&mut self) -> io::Result<()> {
        self.calls = self.calls.saturating_add(1);
        if self.left > 0 {
            self.left = self.left.saturating_sub(1);
            return Err(io::Error::from(ErrorKind::WouldBlock));
        }
        self.left = self.waits;
        if self.fails {
            return Err(io::Error::from(ErrorKind::BrokenPipe));
        }
        Ok(())
    }
}

impl Read for Slow {
    fn read(&mut self, buf: &mut [u8]) -> io::Result<usize> {
        self.call()?;
        let count = buf.len().min(TEXT.len());
        buf[..count].copy_from_slice(&TEXT[..count]);
        Ok(count)
    }
}

impl Write for Slow {
    fn write(&mut self, buf: &[u8]) -> io::Result<usize> {
        self.call()?;
        Ok(buf.len().min(4))
    }

    fn flush(&mut self) -> io::Result<()> {
        self.call()
    }
}

/// An answer, without its error.
fn told(answer: io::Result<usize>) -> Result<usize, ErrorKind> {
    match answer {
        Ok(count) => Ok(count),
        Err(error) => Err(error.kind()),
    }
}

#[test]
fn a_read_that_would_wait_is_tried_again(rt: HostRuntime) {
    let mut device = Patient::new(Slow::new(3, false), rt);
    let mut buf = [0; 9];
    same_at(&rt, told(device.read(&mut buf)), Ok(9), "the first read");
    same_at(&rt, buf.as_slice(), TEXT, "its bytes");
    let mut few = [0; 5];
    same_at(&rt, told(device.read(&mut few)), Ok(5), "the second");
}

#[test]
fn a_write_that_would_wait_is_tried_again(rt: HostRuntime) {
    let mut device = Patient::new(Slow::new(2, false), rt);
    same_at(&rt, told(device.write(TEXT)), Ok(4), "the first write");
    same_at(&rt, told(device.write(&TEXT[4..])), Ok(4), "the second");
    same_at(&rt, told(device.write(&TEXT[8..])), Ok(1), "the last");
}

#[test]
fn another_fault_is_told_at_once(rt: HostRuntime) {
    let mut device = Patient::new(Slow::new(1, true), rt);
    let mut buf = [0; 12];
    let broken = Err(ErrorKind::BrokenPipe);
    same_at(&rt, told(device.read(&mut buf)), broken, "a read");
    same_at(&rt, told(device.write(TEXT)), broken, "a write");
}

#[test]
fn tries_are_20_milliseconds_apart_at_most(rt: HostRuntime) {
    let Ok(start) = Instant::now(&rt) else {
        return;
    };
    let mut device = Patient::new(Slow::new(10, false), rt);
    let answer = told(device.write(TEXT));
    let Ok(passed) = start.elapsed(&rt) else {
        return;
    };
    same_at(&rt, answer, Ok(4), "the write");
    // 1 + 2 + 4 + 8 + 16 and five times 20.
    same_at(
        &rt,
        passed >= Duration::from_millis(131),
        true,
        "the pauses",
    );
    same_at(
        &rt,
        passed < Duration::from_millis(20_000),
        true,
        "their sum",
    );
}
