//! Streams served by the operations of a text.
use super::{filter, filter_into, same, same_unless_refused};
use filters::{Crop, FilterError, Op};
use frame_view::Geometry;
use row_bands::BandHeight;
use std::alloc::{AllocError, Global};
use std::process::Abort;
use std::test::Fail;
use y4m_header::Header;
use y4m_stream::{FilterFault, OverRead, OverWrite, ReadFault, filter_stream};

/// Filters a stream, and compares what it gives.
fn serves(
    rt: &impl Abort,
    alloc: Global,
    ops: &str,
    input: &[u8],
    output: &[u8],
) -> Result<(), Fail> {
    let mut room = [0; 64];
    let (written, result) = filter_into(alloc, ops, input, &mut room)?;
    result?;
    same(rt, (ops, room.get(..written)), (ops, Some(output)));
    Ok(())
}

/// Operations, a stream, and the stream of its images.
const SERVED: &[(&str, &[u8], &[u8])] = &[
    (
        "invert",
        b"YUV4MPEG2 W2 H1 Cmono\n",
        b"YUV4MPEG2 W2 H1 Cmono\n",
    ),
    (
        "thresh:128",
        b"YUV4MPEG2 W2 H1 Cmono\nFRAME\n\x00\x80",
        b"YUV4MPEG2 W2 H1 Cmono\nFRAME\n\x00\xff",
    ),
    (
        "clamp:16,235",
        b"YUV4MPEG2 H1  W2 Cmono\nFRAME Ip\n\x05\xfa",
        b"YUV4MPEG2 H1  W2 Cmono\nFRAME Ip\n\x10\xeb",
    ),
    (
        "hflip",
        b"YUV4MPEG2 W002 H1 Cmono\nFRAME\n\x01\x02",
        b"YUV4MPEG2 W002 H1 Cmono\nFRAME\n\x02\x01",
    ),
    (
        "crop:0,0,2,1",
        b"YUV4MPEG2 W002 H1 Cmono\nFRAME\n\x01\x02",
        b"YUV4MPEG2 W2 H1 Cmono\nFRAME\n\x01\x02",
    ),
    (
        "blur:1",
        b"YUV4MPEG2 W3 H1 Cmono\nFRAME\n\x00\x5a\x00",
        b"YUV4MPEG2 W3 H1 Cmono\nFRAME\n\x1e\x1e\x1e",
    ),
    (
        "crop:1,0,3,1+crop:0,0,2,1",
        b"YUV4MPEG2 W4 H1 Cmono\nFRAME\n\x01\x02\x03\x04FRAME Ip\n\x05\x06\x07\x08",
        b"YUV4MPEG2 W2 H1 Cmono\nFRAME\n\x02\x03FRAME Ip\n\x06\x07",
    ),
    (
        "hflip+invert+hflip+vflip+hflip+hflip+vflip+invert",
        b"YUV4MPEG2 W2 H2 Cmono\nFRAME\n\x01\x02\x03\x04",
        b"YUV4MPEG2 W2 H2 Cmono\nFRAME\n\x01\x02\x03\x04",
    ),
    (
        "thresh:128+clamp:16,235",
        b"YUV4MPEG2 W2 H1 Cmono\nFRAME\n\x10\xf0",
        b"YUV4MPEG2 W2 H1 Cmono\nFRAME\n\x10\xeb",
    ),
    (
        "clamp:16,235+thresh:128",
        b"YUV4MPEG2 W2 H1 Cmono\nFRAME\n\x10\xf0",
        b"YUV4MPEG2 W2 H1 Cmono\nFRAME\n\x00\xff",
    ),
    (
        "invert",
        b"YUV4MPEG2 W1 H1 C444alpha\nFRAME\n\x00\x10\x20\x30",
        b"YUV4MPEG2 W1 H1 C444alpha\nFRAME\n\xff\xef\xdf\x30",
    ),
    (
        "thresh:3+vflip",
        b"YUV4MPEG2 W2 H2\nFRAME\n\x01\x02\x03\x04\x50\x60",
        b"YUV4MPEG2 W2 H2\nFRAME\n\xff\xff\x00\x00\x80\x80",
    ),
    (
        "crop:2,0,2,2",
        b"YUV4MPEG2 W4 H2 C422\nFRAME\n\x00\x01\x02\x03\x04\x05\x06\x07\x10\x11\x12\x13\x20\x21\x22\x23",
        b"YUV4MPEG2 W2 H2 C422\nFRAME\n\x02\x03\x06\x07\x11\x13\x21\x23",
    ),
    (
        "vflip",
        b"YUV4MPEG2 W2 H4 C420jpeg\nFRAME Xa\n\x00\x01\x02\x03\x04\x05\x06\x07\x20\x21\x30\x31",
        b"YUV4MPEG2 W2 H4 C420jpeg\nFRAME Xa\n\x06\x07\x04\x05\x02\x03\x00\x01\x21\x20\x31\x30",
    ),
];

#[test]
fn each_stream_is_served_by_its_operations(rt: HostRuntime) -> Result<(), Fail> {
    for case in SERVED {
        let (ops, input, output) = *case;
        serves(&rt, rt.alloc(), ops, input, output)?;
    }
    Ok(())
}

/// A header line and the data of one frame.
fn one_frame(alloc: Global, line: &[u8], bytes: usize) -> Result<Vec<u8>, AllocError> {
    let mut stream = line.to_vec(alloc)?;
    stream.extend_from_slice(b"\nFRAME\n")?;
    for k in 0..bytes {
        stream.push((k % 251) as u8)?;
    }
    Ok(stream)
}

/// The header line says that a frame has so many bytes.
fn has_frames_of(rt: &impl Abort, alloc: Global, line: &[u8], bytes: usize) -> Result<(), Fail> {
    let header = Header::parse(alloc, line)?;
    same(rt, (line, Geometry::of(&header).bytes()), (line, bytes));
    Ok(())
}

/// These operations leave a frame as it is.
const MIRRORED_TWICE: &str = "hflip+vflip+vflip+hflip";

/// A stream comes back whole where it is mirrored twice.
fn comes_back(rt: &impl Abort, alloc: Global, stream: &[u8]) -> Result<(), Fail> {
    let (image, result) = filter(alloc, MIRRORED_TWICE, stream, Vec::new(alloc))?;
    same_unless_refused(rt, (result, image.as_slice()), (Ok(1), stream));
    Ok(())
}

/// A stream whose frame lacks a byte comes back without the frame.
fn is_cut(rt: &impl Abort, alloc: Global, cut: &[u8], header: usize) -> Result<(), Fail> {
    let (image, result) = filter(alloc, MIRRORED_TWICE, cut, Vec::new(alloc))?;
    let truncated = Err(FilterFault::Read(ReadFault::Truncated));
    same_unless_refused(
        rt,
        (result, Some(image.as_slice())),
        (truncated, cut.get(..header)),
    );
    Ok(())
}

/// A header line, and the bytes of its frames.
const FRAMES: &[(&[u8], usize)] = &[
    (b"YUV4MPEG2 W66 H22", 66 * 22 + 2 * (33 * 11)),
    (b"YUV4MPEG2 W2 H34 C420mpeg2", 2 * 34 + 2 * 17),
    (b"YUV4MPEG2 W62 H5 C422", 62 * 5 + 2 * (31 * 5)),
    (b"YUV4MPEG2 W132 H9 C411", 132 * 9 + 2 * (33 * 9)),
    (b"YUV4MPEG2 W35 H13 C444", 3 * (35 * 13)),
    (b"YUV4MPEG2 W35 H33 C444alpha", 4 * (35 * 33)),
    (b"YUV4MPEG2 W31 H20 Cmono", 31 * 20),
    (b"YUV4MPEG2 W4099 H2 Cmono", 4099 * 2),
];

/// Mirrored twice, a frame is as it was.
#[test]
fn frames_have_the_bytes_of_their_header_line(rt: HostRuntime) -> Result<(), Fail> {
    let alloc = rt.alloc();
    for case in FRAMES {
        let (line, bytes) = *case;
        has_frames_of(&rt, alloc, line, bytes)?;
        comes_back(&rt, alloc, &one_frame(alloc, line, bytes)?)?;
        let cut = one_frame(alloc, line, bytes.saturating_sub(1))?;
        is_cut(&rt, alloc, &cut, line.len() + 1)?;
    }
    Ok(())
}

/// Operations, the rows of a band, a stream with which they make no chain, and why.
type NoChain = (&'static [Op], u32, &'static [u8], FilterError);

const NO_CHAINS: &[NoChain] = &[
    (
        &[Op::Crop(Crop {
            x: 1,
            y: 0,
            width: 2,
            height: 2,
        })],
        16,
        b"YUV4MPEG2 W4 H2 C422\nFRAME",
        FilterError::BadCrop,
    ),
    (
        &[Op::HFlip; 9],
        2,
        b"YUV4MPEG2 W4 H2 C422\nFRAME",
        FilterError::TooManyOps,
    ),
    (
        &[Op::HFlip; 5],
        2,
        b"YUV4MPEG2 W1 H16384 Cmono\n",
        FilterError::TooManySteps,
    ),
];

/// Nothing is written of a stream that makes no chain with these operations.
fn writes_nothing(rt: &impl Abort, alloc: Global, case: NoChain) -> Result<(), Fail> {
    let (ops, rows, input, fault) = case;
    let height = BandHeight::new(rows).ok_or("height")?;
    let ops = ops.to_vec(alloc)?;
    let output = OverWrite::new(Vec::new(alloc));
    let (output, result) = filter_stream(alloc, OverRead::new(input), output, ops, height);
    let written = output.into_inner().len();
    same(rt, (result, written), (Err(FilterFault::Ops(fault)), 0));
    Ok(())
}

#[test]
fn where_there_is_no_chain_nothing_is_written(rt: HostRuntime) -> Result<(), Fail> {
    for case in NO_CHAINS {
        writes_nothing(&rt, rt.alloc(), *case)?;
    }
    Ok(())
}
