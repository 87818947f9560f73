//! Sources that tell whether a read would wait.
ghost use Rattle.std.specs.Prelude.{Some};

use super::{STREAM, same, same_list};
use std::alloc::Global;
use std::cell::Cell;
use std::io;
use std::process::Abort;
use std::test::Fail;
use y4m_stream::{Source, StreamReader, Wanted};

/// Gives its bytes, so many at a time, and is ready each third time that it is asked. It keeps how often it
/// was asked, and the milliseconds of the last time and what was wanted then.
#[derive(Drop)]
struct Late {
    left: &'static [u8],
    step: usize,
    asked: Cell<u64>,
    milliseconds: Cell<u64>,
    wanted: Cell<Option<Wanted>>,
}

impl Late {
    fn new(left: &'static [u8], step: usize) -> Late {
        Late {
            left,
            step,
            asked: Cell::new(0),
            milliseconds: Cell::new(0),
            wanted: Cell::new(None),
        }
    }
}

impl Source for Late {
    ghost remaining = { λ s. Some s.left.now };

    ghost failures = { λ _. 0 };

    fn read(&mut self, buf: &mut [u8]) -> io::Result<usize> {
        let n = buf.len().min(self.step.max(1));
        Source::read(&mut self.left, &mut buf[..n])
    }

    fn is_ready(&self, milliseconds: u64, wanted: Wanted) -> bool {
        self.asked.set(self.asked.get().saturating_add(1));
        self.milliseconds.set(milliseconds);
        self.wanted.set(Some(wanted));
        self.asked.get() % 3 == 0
    }
}

/// Reads a frame with these data.
fn takes<S: Source + Drop>(
    rt: &impl Abort,
    alloc: Global,
    reader: &mut StreamReader<S>,
    data: &[u8],
) -> Result<(), Fail> {
    let Some(frame) = reader.next_frame(alloc)? else {
        return Err("no frame".into());
    };
    same_list(rt, frame.data(), data);
    Ok(())
}

/// Behind the header line and behind the first frame nothing is ahead, and behind the second one byte is.
#[test]
fn a_reader_asks_for_a_whole_frame(rt: HostRuntime) -> Result<(), Fail> {
    let mut source = Late::new(STREAM, 7);
    let mut reader = StreamReader::open(rt.alloc(), &mut source)?;
    same(&rt, reader.is_ready(40), false);
    same(&rt, reader.is_ready(50), false);
    same(&rt, reader.is_ready(60), true);
    takes(&rt, rt.alloc(), &mut reader, b"\x00\x01\xfe\xff")?;
    same(&rt, reader.is_ready(70), false);
    takes(&rt, rt.alloc(), &mut reader, b"\x10\x20\x30\x40")?;
    same(&rt, reader.is_ready(80), false);
    drop(reader);
    let last = (source.asked.get(), source.milliseconds.get());
    same(&rt, last, (5, 80));
    same(&rt, source.wanted.get(), Some(Wanted::line(1023, 4)));
    Ok(())
}

/// What a reader asks its source for behind the header line, which it reads by so many bytes at a time.
fn asked_behind_header(
    alloc: Global,
    stream: &'static [u8],
    step: usize,
) -> Result<Option<Wanted>, Fail> {
    let mut source = Late::new(stream, step);
    let reader = StreamReader::open(alloc, &mut source)?;
    let is_ready = reader.is_ready(0);
    drop(reader);
    if is_ready {
        return Ok(None);
    }
    Ok(source.wanted.get())
}

#[test]
fn a_reader_asks_for_what_it_lacks(rt: HostRuntime) -> Result<(), Fail> {
    let cases = [
        (28, Some(Wanted::line(1024, 4))),
        (29, Some(Wanted::line(1023, 4))),
        (33, Some(Wanted::line(1019, 4))),
        (34, Some(Wanted::data(4))),
        (37, Some(Wanted::data(1))),
        (38, None),
        (39, None),
        (61, None),
    ];
    for (step, wanted) in cases {
        let asked = asked_behind_header(rt.alloc(), STREAM, step)?;
        same(&rt, (step, asked), (step, wanted));
    }
    // no frame comes any more behind another line
    let other = b"YUV4MPEG2 W2 H2 F25:1 Cmono\nFRAMES\n";
    same(&rt, asked_behind_header(rt.alloc(), other, 99)?, None);
    Ok(())
}

/// What is wanted at least, where these bytes come first.
#[test]
fn no_more_is_wanted_than_comes_before_the_end_of_a_frame(rt: HostRuntime) {
    let whole = Wanted::line(1024, 4);
    same(&rt, whole.most(), 1028);
    let cases: [(&[u8], usize); 9] = [
        (b"", 10),
        (b"F", 10),
        (b"FRAME", 10),
        (b"FRAME\n", 10),
        (b"FRAME\n\x00\x01\n", 10),
        (b"FRAME ", 11),
        (b"FRAME Ip", 13),
        (b"FRAME Ip\n", 13),
        (b"FRAMES\nab", 7),
    ];
    for (front, least) in cases {
        same(&rt, (front.len(), whole.least(front)), (front.len(), least));
    }
    same(&rt, whole.least(&[b'F'; 1023]), 1028);
    same(&rt, whole.least(&[b'F'; 1024]), 1024);
    same(&rt, whole.least(&[b'F'; 1025]), 1024);
    let rest = Wanted::line(1021, 4);
    same(&rt, rest.least(b""), 7);
    same(&rt, rest.least(b"ME\n"), 7);
    same(&rt, Wanted::line(3, 4).least(b""), 5);
    same(&rt, Wanted::data(4).least(b"\n\n\n\n\n"), 4);
}

#[test]
fn a_source_that_cannot_tell_is_ready(rt: HostRuntime) -> Result<(), Fail> {
    same(&rt, Source::is_ready(&STREAM, 0, Wanted::data(1)), true);
    let reader = StreamReader::open(rt.alloc(), STREAM.get(..28).ok_or("a header line")?)?;
    same(&rt, reader.is_ready(0), true);
    Ok(())
}
