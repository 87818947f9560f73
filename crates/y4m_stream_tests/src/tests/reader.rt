//! The reader's calls one by one.
ghost use Rattle.std.specs.Prelude.{◌≡◌};
ghost use Rattle.y4m_stream.specs.Reader.{IsOfHeader};

use super::{Pieces, STREAM, same, same_list};
use frame_view::{Frame, Geometry};
use std::alloc::Global;
use std::io::Read;
use std::process::Abort;
use std::test::Fail;
use y4m_stream::{OverRead, ReadFault, Source, StreamReader};

/// What the next call answers: the line and the data of a frame, or that none follows.
pub(super) type Next = Result<Option<(&'static [u8], &'static [u8])>, ReadFault>;

/// A reader of a stream whose header line is whole.
pub(super) fn opened<R: Read + Drop>(
    alloc: Global,
    input: R,
) -> Result<StreamReader<OverRead<R>>, Fail> {
    Ok(StreamReader::open(alloc, OverRead::new(input))?)
}

/// Reads so many times, and compares what is answered.
pub(super) fn next_are<S: Source + Drop>(
    rt: &impl Abort,
    alloc: Global,
    reader: &mut StreamReader<S>,
    answers: &[Next],
) {
    for want in answers {
        let next = reader.next_frame(alloc);
        let got = match &next {
            Ok(Some(frame)) => Ok(Some((frame.line(), frame.data()))),
            Ok(None) => Ok(None),
            Err(fault) => Err(*fault),
        };
        same(rt, got, *want);
    }
}

/// Reads into a frame, and compares what is answered.
fn reads<S: Source + Drop>(
    rt: &impl Abort,
    alloc: Global,
    reader: &mut StreamReader<S>,
    frame: &mut Frame,
    want: Result<bool, ReadFault>,
)
    requires { IsOfHeader reader.old.header frame.old.geometry }
    ensures header { reader.new.header ≡ reader.old.header }
    ensures geometry { frame.new.geometry ≡ frame.old.geometry }
{
    let got = reader.read_frame(alloc, frame);
    same(rt, got, want);
}

const FIRST: Next = Ok(Some((b"FRAME", b"\x00\x01\xfe\xff")));

const ALL: &[Next] = &[
    FIRST,
    Ok(Some((b"FRAME Ip", b"\x10\x20\x30\x40"))),
    Ok(Some((b"FRAME", b"FRAM"))),
    Err(ReadFault::Device),
    Err(ReadFault::Failed),
];

#[test]
fn a_call_reads_again_only_while_it_lacks_bytes(rt: HostRuntime) -> Result<(), Fail> {
    let input = Pieces {
        left: STREAM,
        step: 4096,
        ends: 0,
    };
    let mut reader = opened(rt.alloc(), input)?;
    same_list(&rt, reader.header().line(), b"YUV4MPEG2 W2 H2 F25:1 Cmono");
    next_are(&rt, rt.alloc(), &mut reader, ALL);
    Ok(())
}

#[test]
fn after_the_end_nothing_is_read(rt: HostRuntime) -> Result<(), Fail> {
    let alloc = rt.alloc();
    let input = Pieces {
        left: STREAM.get(..38).ok_or("one frame")?,
        step: 1,
        ends: 1,
    };
    let mut reader = opened(alloc, input)?;
    let mut frame = Frame::blank(alloc, Geometry::of(reader.header()), b"FRAME")?;
    reads(&rt, alloc, &mut reader, &mut frame, Ok(true));
    same_list(&rt, frame.data(), b"\x00\x01\xfe\xff");
    reads(&rt, alloc, &mut reader, &mut frame, Ok(false));
    reads(&rt, alloc, &mut reader, &mut frame, Ok(false));
    next_are(&rt, alloc, &mut reader, &[Ok(None)]);
    Ok(())
}

#[test]
fn a_reader_that_met_a_fault_has_failed(rt: HostRuntime) -> Result<(), Fail> {
    let alloc = rt.alloc();
    let mut reader = opened(alloc, STREAM.get(..60).ok_or("all but a byte")?)?;
    let mut frame = Frame::blank(alloc, Geometry::of(reader.header()), b"FRAME")?;
    reads(&rt, alloc, &mut reader, &mut frame, Ok(true));
    reads(&rt, alloc, &mut reader, &mut frame, Ok(true));
    let cut = Err(ReadFault::Truncated);
    reads(&rt, alloc, &mut reader, &mut frame, cut);
    let failed = Err(ReadFault::Failed);
    reads(&rt, alloc, &mut reader, &mut frame, failed);
    next_are(&rt, alloc, &mut reader, &[Err(ReadFault::Failed)]);
    Ok(())
}

const FIRST_AND_END: &[Next] = &[FIRST, Ok(None), Ok(None)];

#[test]
fn next_frame_answers_the_end_again_and_reads_nothing(rt: HostRuntime) -> Result<(), Fail> {
    let input = Pieces {
        left: STREAM.get(..38).ok_or("one frame")?,
        step: 7,
        ends: 1,
    };
    let mut reader = opened(rt.alloc(), input)?;
    next_are(&rt, rt.alloc(), &mut reader, FIRST_AND_END);
    Ok(())
}

const CUT_AND_FAILED: &[Next] = &[
    Err(ReadFault::Truncated),
    Err(ReadFault::Failed),
    Err(ReadFault::Failed),
];

#[test]
fn next_frame_has_failed_after_its_own_fault(rt: HostRuntime) -> Result<(), Fail> {
    let left = STREAM.get(..37).ok_or("all but a byte")?;
    let mut reader = opened(rt.alloc(), left)?;
    next_are(&rt, rt.alloc(), &mut reader, CUT_AND_FAILED);
    Ok(())
}
