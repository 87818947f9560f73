//! Frames on both sides of the size from which each is read on a thread of its own.
use super::overlapped::{fail_both, overlap};
use super::{Pieces, Room, filter, same, same_unless_refused};
use std::alloc::{AllocError, Global};
use std::process::Abort;
use std::test::Fail;
use std::thread::Threads;
use y4m_stream::{FilterFault, LEAST_OVERLAPPED, ReadFault, WriteFault};

/// Two frames of one plane, and the image of each by `vflip+invert`. The second frame has a tag.
///
/// The samples of row y of frame n are 31 n + y; in the image the rows are the other way round, and each
/// sample v is 255 - v.
#[derive(Drop)]
struct Streams {
    input: Vec<u8>,
    image: Vec<u8>,
}

/// The header line of such frames, their columns and rows; where each of the two frames ends; and of how many
/// bytes all that is whole in so many has.
pub(super) struct Size {
    header: &'static [u8],
    columns: u16,
    rows: u16,
    ends: (usize, usize),
    places: &'static [(usize, usize)],
}

/// The greatest frames that are read by the caller's thread: 511 * 513 samples are one fewer than 512 * 512.
const GREATEST_IN_TURN: Size = Size {
    header: b"YUV4MPEG2 W511 H513 F25:1 Cmono\n",
    columns: 511,
    rows: 513,
    ends: (262_181, 524_333),
    places: &[
        (0, 0),
        (31, 0),
        (32, 32),
        (38, 32),
        (131_110, 32),
        (262_180, 32),
        (262_181, 262_181),
        (262_190, 262_181),
        (524_332, 262_181),
        (524_333, 524_333),
    ],
};

/// The least frames that are read on a thread of their own.
pub(super) const LEAST_BESIDE: Size = Size {
    header: b"YUV4MPEG2 W512 H512 F25:1 Cmono\n",
    columns: 512,
    rows: 512,
    ends: (262_182, 524_335),
    places: &[
        (0, 0),
        (31, 0),
        (32, 32),
        (38, 32),
        (131_110, 32),
        (262_181, 32),
        (262_182, 262_182),
        (262_191, 262_182),
        (524_334, 262_182),
        (524_335, 524_335),
    ],
};

const SIZES: &[Size] = &[GREATEST_IN_TURN, LEAST_BESIDE];

#[test]
fn the_sizes_are_next_to_each_other(rt: HostRuntime) {
    same(
        &rt,
        (511 * 513, 512 * 512),
        (LEAST_OVERLAPPED - 1, LEAST_OVERLAPPED),
    );
}

/// Appends frame n, or its image.
fn append_frame(text: &mut Vec<u8>, size: &Size, n: u8, is_image: bool) -> Result<(), AllocError> {
    text.extend_from_slice(if n == 0 { b"FRAME\n" } else { b"FRAME Ip\n" })?;
    for y in 0..size.rows {
        let row = if is_image { size.rows - 1 - y } else { y };
        let sample = n.wrapping_mul(31).wrapping_add((row % 256) as u8);
        for _ in 0..size.columns {
            text.push(if is_image { 255 - sample } else { sample })?;
        }
    }
    Ok(())
}

pub(super) fn stream_of(alloc: Global, size: &Size, is_image: bool) -> Result<Vec<u8>, AllocError> {
    let mut text = size.header.to_vec(alloc)?;
    append_frame(&mut text, size, 0, is_image)?;
    append_frame(&mut text, size, 1, is_image)?;
    Ok(text)
}

fn streams_of(alloc: Global, size: &Size) -> Result<Streams, AllocError> {
    Ok(Streams {
        input: stream_of(alloc, size, false)?,
        image: stream_of(alloc, size, true)?,
    })
}

#[test]
fn two_threads_write_what_one_writes(rt: HostRuntime) -> Result<(), Fail> {
    for size in SIZES {
        let streams = streams_of(rt.alloc(), size)?;
        let input = streams.input.as_slice();
        let ops = "vflip+invert";
        let (two, by_two) = overlap(&rt, rt.alloc(), ops, input, Vec::new(rt.alloc()))?;
        same_unless_refused(&rt, (by_two, two == streams.image), (Ok(2), true));
        let (one, by_one) = filter(rt.alloc(), ops, input, Vec::new(rt.alloc()))?;
        same_unless_refused(&rt, (by_one, one == streams.image), (Ok(2), true));
    }
    Ok(())
}

/// The reader fails behind so many bytes: the images that are whole in them were written.
fn fail_to_read<T: Threads + Abort>(
    rt: &T,
    alloc: Global,
    streams: &Streams,
    place: (usize, usize),
) -> Result<(), Fail> {
    let (given, whole) = place;
    let input = Pieces {
        left: streams.input.get(..given).ok_or("a front")?,
        step: 100_000,
        ends: 0,
    };
    let (output, result) = overlap(rt, alloc, "vflip+invert", input, Vec::new(alloc))?;
    let got = (
        given,
        result,
        output.len(),
        streams.image.starts_with(&output),
    );
    let device = Err(FilterFault::Read(ReadFault::Device));
    same_unless_refused(rt, got, (given, device, whole, true));
    Ok(())
}

/// The writer fails once it has so many bytes: they are the front of the images.
fn fail_to_write<T: Threads + Abort>(
    rt: &T,
    alloc: Global,
    streams: &Streams,
    taken: usize,
) -> Result<(), Fail> {
    let mut text = vec![in alloc; 0; taken]?;
    let output = Room {
        left: text.as_mut_slice(),
        step: 100_000,
        calls: 0,
    };
    let (_, result) = overlap(rt, alloc, "vflip+invert", streams.input.as_slice(), output)?;
    let device = Err(FilterFault::Write(WriteFault::Device(taken as u64)));
    let got = (result, streams.image.starts_with(&text));
    same_unless_refused(rt, (taken, got), (taken, (device, true)));
    Ok(())
}

/// The writer fails in the image of each frame, and the reader behind that frame.
fn fail_to_do_either<T: Threads + Abort>(
    rt: &T,
    alloc: Global,
    streams: &Streams,
    ends: (usize, usize),
) -> Result<(), Fail> {
    let (first, second) = ends;
    let left = streams.input.get(..first).ok_or("a frame")?;
    fail_both(rt, alloc, "vflip+invert", left, &streams.image, 131_110)?;
    let left = streams.input.get(..second).ok_or("two frames")?;
    fail_both(rt, alloc, "vflip+invert", left, &streams.image, 300_000)
}

#[test]
fn each_place_of_a_fault_is_told_on_both_sides(rt: HostRuntime) -> Result<(), Fail> {
    for size in SIZES {
        let streams = streams_of(rt.alloc(), size)?;
        for place in size.places {
            fail_to_read(&rt, rt.alloc(), &streams, *place)?;
            fail_to_write(&rt, rt.alloc(), &streams, place.0)?;
        }
        fail_to_do_either(&rt, rt.alloc(), &streams, size.ends)?;
    }
    Ok(())
}
