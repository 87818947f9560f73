//! Streams by `filter_overlapped`. Their frames are small, so that no thread is started.
use super::devices::{DEVICE, GIVEN, failing};
use super::{
    INVERTED, Pieces, Room, STREAM, answer_of_part, filter, same, same_part, same_unless_refused,
};
use filters::parse_ops;
use row_bands::BandHeight;
use std::alloc::{AllocError, Global};
use std::io::{self, ErrorKind, Read, Write};
use std::process::Abort;
use std::test::Fail;
use std::thread::Threads;
use y4m_stream::{FilterFault, OverRead, OverWrite, WriteFault, filter_overlapped};

/// Filters a stream by the operations of a text, in bands of 16 rows; by two threads where frames are large.
pub(super) fn overlap<T: Threads, R: Read + Drop + Send, W: Write + Drop>(
    rt: &T,
    alloc: Global,
    ops: &str,
    input: R,
    output: W,
) -> Result<(W, Result<u64, FilterFault>), Fail> {
    let height = BandHeight::new(16).ok_or("height")?;
    let ops = parse_ops(alloc, ops.as_bytes())?;
    let (output, answer) = filter_overlapped(
        rt,
        alloc,
        OverRead::new(input),
        OverWrite::new(output),
        ops,
        height,
    );
    Ok((output.into_inner(), answer))
}

/// Filters a stream as `overlap` does, and tells how many bytes of the room are written.
fn overlap_into<T: Threads, R: Read + Drop + Send>(
    rt: &T,
    alloc: Global,
    input: R,
    room: &mut [u8; 64],
) -> Result<(usize, Result<u64, FilterFault>), Fail> {
    let (rest, answer) = overlap(rt, alloc, "invert", input, room.as_mut_slice())?;
    Ok((64 - rest.len().min(64), answer))
}

/// A stream of frames of 4 by 2 samples, every second with a tag. Where it is to be the image by
/// `vflip+invert`, the rows are swapped and each sample v is 255 - v.
fn frames(alloc: Global, count: u8, is_image: bool) -> Result<Vec<u8>, AllocError> {
    let mut text = b"YUV4MPEG2 W4 H2 F25:1 Cmono\n".to_vec(alloc)?;
    for n in 0..count {
        append_frame(&mut text, n, is_image)?;
    }
    Ok(text)
}

/// Appends frame n, whose sample i is 31 n + i.
fn append_frame(text: &mut Vec<u8>, n: u8, is_image: bool) -> Result<(), AllocError> {
    let line: &[u8] = if n % 2 == 0 {
        b"FRAME\n"
    } else {
        b"FRAME Ip\n"
    };
    text.extend_from_slice(line)?;
    for i in 0..8u8 {
        let place = if is_image { (i + 4) % 8 } else { i };
        let sample = n.wrapping_mul(31).wrapping_add(place);
        text.push(if is_image { 255 - sample } else { sample })?;
    }
    Ok(())
}

/// `filter_overlapped` makes the image of a stream of so many frames.
fn overlapped_writes<T: Threads + Abort>(
    rt: &T,
    alloc: Global,
    count: u8,
    input: &[u8],
    image: &[u8],
) -> Result<(), Fail> {
    let pieces = Pieces {
        left: input,
        step: 7,
        ends: usize::MAX,
    };
    let (output, result) = overlap(rt, alloc, "vflip+invert", pieces, Vec::new(alloc))?;
    same_unless_refused(
        rt,
        (result, output.as_slice()),
        (Ok(u64::from(count)), image),
    );
    Ok(())
}

/// `filter_stream` makes the image of a stream of so many frames.
fn one_writes(
    rt: &impl Abort,
    alloc: Global,
    count: u8,
    input: &[u8],
    image: &[u8],
) -> Result<(), Fail> {
    let (output, result) = filter(alloc, "vflip+invert", input, Vec::new(alloc))?;
    same_unless_refused(
        rt,
        (result, output.as_slice()),
        (Ok(u64::from(count)), image),
    );
    Ok(())
}

/// How many frames a stream has.
const COUNTS: &[u8] = &[0, 1, 2, 5];

#[test]
fn frames_in_turn_are_written_as_by_filter_stream(rt: HostRuntime) -> Result<(), Fail> {
    for count in COUNTS {
        let input = frames(rt.alloc(), *count, false)?;
        let image = frames(rt.alloc(), *count, true)?;
        overlapped_writes(&rt, rt.alloc(), *count, &input, &image)?;
        one_writes(&rt, rt.alloc(), *count, &input, &image)?;
    }
    Ok(())
}

#[test]
fn images_before_a_failed_read_are_written(rt: HostRuntime) -> Result<(), Fail> {
    for (before, given) in (0..).zip(GIVEN) {
        let mut room = [0; 64];
        let got = overlap_into(&rt, rt.alloc(), failing(before), &mut room)?;
        same_part(&rt, *given, &room, got, DEVICE);
    }
    Ok(())
}

#[test]
fn images_before_a_cut_are_written(rt: HostRuntime) -> Result<(), Fail> {
    for len in 0..STREAM.len() {
        let input = STREAM.get(..len).ok_or("prefix")?;
        let mut room = [0; 64];
        let got = overlap_into(&rt, rt.alloc(), input, &mut room)?;
        same_part(&rt, len, &room, got, answer_of_part(len));
    }
    Ok(())
}

/// Gives its bytes, and then fails, and counts that.
#[derive(Drop)]
struct Broken<'a> {
    left: &'a [u8],
    failed: u64,
}

impl Read for Broken<'_> {
    fn read(&mut self, buf: &mut [u8]) -> io::Result<usize> {
        if self.left.is_empty() {
            self.failed = self.failed.saturating_add(1);
            return Err(io::Error::from(ErrorKind::Other));
        }
        self.left.read(buf)
    }
}

/// The reader fails at the end of a frame, and the writer after `len` bytes, which are fewer. Where memory
/// is refused, the reader doesn't come to fail.
pub(super) fn fail_both<T: Threads + Abort>(
    rt: &T,
    alloc: Global,
    ops: &str,
    left: &[u8],
    image: &[u8],
    len: usize,
) -> Result<(), Fail> {
    let mut input = Broken { left, failed: 0 };
    let mut text = vec![in alloc; 0; len]?;
    let output = Room {
        left: text.as_mut_slice(),
        step: 5,
        calls: 0,
    };
    let (_, result) = overlap(rt, alloc, ops, &mut input, output)?;
    let device = Err(FilterFault::Write(WriteFault::Device(len as u64)));
    same_unless_refused(rt, (len, result, input.failed), (len, device, 1));
    same(rt, (len, image.starts_with(&text)), (len, true));
    Ok(())
}

#[test]
fn the_writes_fault_is_answered_where_both_fail(rt: HostRuntime) -> Result<(), Fail> {
    for len in 28..61 {
        let end = match len {
            28..=37 => 38,
            38..=50 => 51,
            _ => 61,
        };
        let left = STREAM.get(..end).ok_or("frames")?;
        fail_both(&rt, rt.alloc(), "invert", left, INVERTED, len)?;
    }
    Ok(())
}
