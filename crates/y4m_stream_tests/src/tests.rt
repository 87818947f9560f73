//! What the tests share: readers, writers and a stream of three frames.
use filters::parse_ops;
use row_bands::BandHeight;
use std::alloc::Global;
use std::fmt::Debug;
use std::io::{self, ErrorKind, Read, Write};
use std::process::Abort;
use std::test::Fail;
use y4m_header::Header;
use y4m_stream::{
    FilterFault, OverRead, OverWrite, ReadFault, StreamWriter, WriteFault, filter_stream,
};

mod devices;
mod hostile;
mod memory;
mod operations;
mod overlapped;
mod parts;
mod prefixes;
mod reader;
mod readiness;
mod sizes;
mod told;
mod writing;

/// Compares what a call gave with what is wanted.
fn same<T: PartialEq + Debug + Drop>(rt: &impl Abort, got: T, want: T) {
    assert_eq!(rt; got, want);
}

/// Compares what a call gave with what is wanted, where another answer may come for want of memory.
fn same_unless_refused<T: PartialEq + Debug + Drop>(rt: &impl Abort, got: T, want: T) {
    assert_eq!(rt; got, want, "unless memory was refused");
}

/// Compares a list with the one that is wanted.
fn same_list<T: PartialEq + Debug>(rt: &impl Abort, got: &[T], want: &[T]) {
    assert_eq!(rt; got, want);
}

/// Gives its bytes, at most `step` at a time, then answers the end `ends` times, and then fails.
#[derive(Drop)]
struct Pieces<'a> {
    left: &'a [u8],
    step: usize,
    ends: usize,
}

impl Read for Pieces<'_> {
    fn read(&mut self, buf: &mut [u8]) -> io::Result<usize> {
        if self.left.is_empty() {
            if self.ends == 0 {
                return Err(io::Error::from(ErrorKind::Other));
            }
            self.ends -= 1;
            return Ok(0);
        }
        let n = self.step.min(buf.len()).min(self.left.len());
        let (now, left) = self.left.split_at(n);
        buf[..n].copy_from_slice(now);
        self.left = left;
        Ok(n)
    }
}

/// Takes bytes, at most `step` at a time, until no room is left, and counts the calls. Where no room is left
/// after all, the flush fails.
#[derive(Drop)]
struct Room<'a> {
    left: &'a mut [u8],
    step: usize,
    calls: u64,
}

impl Write for Room<'_> {
    fn write(&mut self, buf: &[u8]) -> io::Result<usize> {
        let n = self.step.min(buf.len()).min(self.left.len());
        if n == 0 && !buf.is_empty() {
            return Err(io::Error::from(ErrorKind::Other));
        }
        self.calls = self.calls.saturating_add(1);
        self.left.write(&buf[..n])
    }

    fn flush(&mut self) -> io::Result<()> {
        if self.left.is_empty() {
            return Err(io::Error::from(ErrorKind::Other));
        }
        Ok(())
    }
}

/// Filters a stream by the operations of a text, in bands of 16 rows.
fn filter<R: Read + Drop, W: Write + Drop>(
    alloc: Global,
    ops: &str,
    input: R,
    output: W,
) -> Result<(W, Result<u64, FilterFault>), Fail> {
    let height = BandHeight::new(16).ok_or("height")?;
    let ops = parse_ops(alloc, ops.as_bytes())?;
    let (output, answer) = filter_stream(
        alloc,
        OverRead::new(input),
        OverWrite::new(output),
        ops,
        height,
    );
    Ok((output.into_inner(), answer))
}

/// Filters a stream as `filter` does, and tells how many bytes of the room are written.
fn filter_into<R: Read + Drop>(
    alloc: Global,
    ops: &str,
    input: R,
    room: &mut [u8; 64],
) -> Result<(usize, Result<u64, FilterFault>), Fail> {
    let (rest, answer) = filter(alloc, ops, input, room.as_mut_slice())?;
    Ok((64 - rest.len().min(64), answer))
}

/// Why no writer is opened.
fn open_fault<W: Write + Drop>(output: W, header: &Header) -> Option<WriteFault> {
    match StreamWriter::open(OverWrite::new(output), header) {
        Ok(_) => None,
        Err((_, fault)) => Some(fault),
    }
}

/// A stream of three frames. The last one's data look like text.
const STREAM: &[u8] =
    b"YUV4MPEG2 W2 H2 F25:1 Cmono\nFRAME\n\x00\x01\xfe\xffFRAME Ip\n\x10\x20\x30\x40FRAME\nFRAM";

/// That stream, each byte v of the data being 255 - v.
const INVERTED: &[u8] =
    b"YUV4MPEG2 W2 H2 F25:1 Cmono\nFRAME\n\xff\xfe\x01\x00FRAME Ip\n\xef\xdf\xcf\xbfFRAME\n\xb9\xad\xbe\xb2";

/// Where the header line ends, and each frame.
const ENDS: &[usize] = &[28, 38, 51, 61];

/// How many frames are whole in the first bytes of the stream, and where the last of them ends.
fn whole_part(len: usize) -> (u64, usize) {
    let mut part = (0, 0);
    for (frames, end) in (0u64..4).zip(ENDS) {
        if *end <= len {
            part = (frames, *end);
        }
    }
    part
}

/// What is answered of the first bytes of the stream.
fn answer_of_part(len: usize) -> Result<u64, FilterFault> {
    let (frames, end) = whole_part(len);
    if len == end && len > 0 {
        Ok(frames)
    } else {
        Err(FilterFault::Read(ReadFault::Truncated))
    }
}

/// Of the first bytes of the stream the images that are whole in them went out, and this was answered.
fn same_part(
    rt: &impl Abort,
    len: usize,
    room: &[u8; 64],
    got: (usize, Result<u64, FilterFault>),
    want: Result<u64, FilterFault>,
) {
    let (_, end) = whole_part(len);
    let (written, answer) = got;
    let got = (len, answer, room.get(..written));
    same(rt, got, (len, want, INVERTED.get(..end)));
}
