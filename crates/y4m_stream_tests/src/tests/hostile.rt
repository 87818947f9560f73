//! Streams whose bytes are at fault.
use super::reader::{next_are, opened};
use super::{filter, same, same_unless_refused};
use std::alloc::{AllocError, Global};
use std::process::Abort;
use std::test::Fail;
use y4m_header::HeaderError;
use y4m_stream::{FilterFault, ReadFault};

const FAULTS: &[(&[u8], ReadFault)] = &[
    (
        b"YUV4MPEG2 W16384 H4097 Cmono\nFRAME\n",
        ReadFault::Header(HeaderError::TooLarge),
    ),
    (
        b"YUV4MPEG2 W999999999 H999999999\n",
        ReadFault::Header(HeaderError::NotDivisible),
    ),
    (
        b"YUV4MPEG2 W999999999 H999999999 Cmono\n",
        ReadFault::Header(HeaderError::TooLarge),
    ),
    (
        b"YUV4MPEG2 W1000000000 H1 Cmono\n",
        ReadFault::Header(HeaderError::BadNumber),
    ),
    (&[0; 2000], ReadFault::LineTooLong),
];

#[test]
fn each_fault_of_a_size_is_named(rt: HostRuntime) -> Result<(), Fail> {
    for case in FAULTS {
        let (input, fault) = *case;
        let (_, result) = filter(rt.alloc(), "invert", input, Vec::new(rt.alloc()))?;
        same(&rt, (input, result), (input, Err(FilterFault::Read(fault))));
    }
    Ok(())
}

#[test]
fn the_largest_frame_that_is_not_there_is_cut_off(rt: HostRuntime) -> Result<(), Fail> {
    let input = b"YUV4MPEG2 W16384 H4096 Cmono\nFRAME\n".as_slice();
    let mut reader = opened(rt.alloc(), input)?;
    next_are(&rt, rt.alloc(), &mut reader, &[Err(ReadFault::Truncated)]);
    Ok(())
}

/// Appends a line that begins with these bytes and has `len` bytes, its line feed included.
fn append_line(text: &mut Vec<u8>, begin: &[u8], len: usize) -> Result<(), AllocError> {
    text.extend_from_slice(begin)?;
    for _ in begin.len() + 1..len {
        text.push(b'a')?;
    }
    text.push(b'\n')?;
    Ok(())
}

/// Filters a header line of `len` bytes into room for 1,024, and compares the answer, and that so many went
/// out.
fn serve_header_line(
    rt: &impl Abort,
    alloc: Global,
    len: usize,
    answer: Result<u64, FilterFault>,
    written: usize,
) -> Result<(), Fail> {
    let mut line = Vec::new(alloc);
    append_line(&mut line, b"YUV4MPEG2 W1 H1 Cmono X", len)?;
    let mut room = [0; 1024];
    let (rest, result) = filter(alloc, "invert", line.as_slice(), room.as_mut_slice())?;
    let got = (result, rest.len().checked_add(written));
    same(rt, got, (answer, Some(1024)));
    same(rt, room.get(..written), line.get(..written));
    Ok(())
}

#[test]
fn a_header_line_has_at_most_1024_bytes(rt: HostRuntime) -> Result<(), Fail> {
    serve_header_line(&rt, rt.alloc(), 1024, Ok(0), 1024)?;
    let long = Err(FilterFault::Read(ReadFault::LineTooLong));
    serve_header_line(&rt, rt.alloc(), 1025, long, 0)
}

/// A stream of one frame of a sample, whose line has `len` bytes.
fn stream_with_line(alloc: Global, len: usize) -> Result<Vec<u8>, AllocError> {
    let mut stream = b"YUV4MPEG2 W1 H1 Cmono\n".to_vec(alloc)?;
    append_line(&mut stream, b"FRAME X", len)?;
    stream.push(b'\x05')?;
    Ok(stream)
}

/// Filters a stream whose frame line has `len` bytes. Where the line is refused, the header line goes out
/// alone.
fn serve_frame_line(
    rt: &impl Abort,
    alloc: Global,
    len: usize,
    answer: Result<u64, FilterFault>,
) -> Result<(), Fail> {
    let input = stream_with_line(alloc, len)?;
    let (output, result) = filter(alloc, "vflip", input.as_slice(), Vec::new(alloc))?;
    same_unless_refused(rt, (len, result), (len, answer));
    let whole = if result.is_ok() { input.len() } else { 22 };
    same(rt, Some(output.as_slice()), input.get(..whole));
    Ok(())
}

#[test]
fn a_frame_line_has_at_most_1024_bytes(rt: HostRuntime) -> Result<(), Fail> {
    serve_frame_line(&rt, rt.alloc(), 1024, Ok(1))?;
    let long = Err(FilterFault::Read(ReadFault::LineTooLong));
    serve_frame_line(&rt, rt.alloc(), 1025, long)
}
