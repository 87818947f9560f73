//! Images that are written by parts.
ghost use Rattle.std.specs.Prelude.{IfOk};
ghost use Rattle.y4m_stream.specs.Reader.{IsOfHeader};
ghost use Rattle.y4m_stream.specs.Writer.{IsOfSize};

use super::{Room, same};
use frame_view::{Frame, Geometry};
use std::alloc::Global;
use std::io;
use std::process::Abort;
use std::test::Fail;
use y4m_header::Header;
use y4m_stream::{OverWrite, Sink, StreamWriter, WriteFault};

/// A sink whose bytes are on their way still at nine of ten tries. It keeps how often it was tried, and how
/// long it was to wait at most.
#[derive(Drop)]
struct Slow<W> {
    sink: W,
    tries: u64,
    milliseconds: u64,
}

impl<W: Sink> Sink for Slow<W> {
    ghost contents = { λ s. W.contents s.sink };

    ghost failures = { λ s. W.failures s.sink };

    ghost is_flushed = { λ s. W.is_flushed s.sink };

    fn write(&mut self, buf: &[u8]) -> io::Result<usize> {
        self.sink.write(buf)
    }

    fn try_write(&mut self, buf: &[u8], milliseconds: u64) -> io::Result<Option<usize>> {
        self.tries = self.tries.saturating_add(1);
        self.milliseconds = milliseconds;
        if self.tries % 10 != 0 {
            return Ok(None);
        }
        self.sink.try_write(buf, milliseconds)
    }

    fn flush(&mut self) -> io::Result<()> {
        self.sink.flush()
    }
}

/// A slow sink with so much room, which takes such pieces.
fn slow_room(room: &mut [u8], step: usize) -> Slow<OverWrite<Room<'_>>> {
    let room = Room {
        left: room,
        step,
        calls: 0,
    };
    Slow {
        sink: OverWrite::new(room),
        tries: 0,
        milliseconds: 0,
    }
}

/// The header line of a stream.
const HEADER: &[u8] = b"YUV4MPEG2 W2 H2 C444";

/// The stream with two frames, the samples of whose planes are all 1, 2 and 3.
const TEXT: &[u8] = b"YUV4MPEG2 W2 H2 C444\n\
    FRAME\n\x01\x01\x01\x01\x02\x02\x02\x02\x03\x03\x03\x03\
    FRAME\n\x01\x01\x01\x01\x02\x02\x02\x02\x03\x03\x03\x03";

/// Such a frame.
fn frame_of(alloc: Global, header: &Header) -> Result<Frame, Fail>
    ensures { IfOk result (λ frame. IsOfHeader header.now frame.geometry) }
{
    let mut frame = Frame::blank(alloc, Geometry::of(header), b"FRAME")?;
    frame.fill([1, 2, 3, 4]);
    Ok(frame)
}

/// Writes on with a frame. It is whole in 18 bytes.
fn put_part<W: Sink>(
    writer: &mut StreamWriter<W>,
    frame: &Frame,
    patience: Option<u64>,
) -> Result<bool, WriteFault>
    requires { IsOfSize writer.old frame.now.geometry }
    ensures { IsOfSize writer.new frame.now.geometry }
{
    let len = frame.line().len() + 1 + frame.data().len();
    if len <= writer.part() || writer.frames() > 9 {
        return Err(WriteFault::Failed);
    }
    writer.put_on(frame, patience)
}

/// Writes on until the frame went out whole, or that fails.
fn put_by_parts<W: Sink>(writer: &mut StreamWriter<W>, frame: &Frame) -> Result<bool, WriteFault>
    requires { IsOfSize writer.old frame.now.geometry }
    ensures { IsOfSize writer.new frame.now.geometry }
{
    for _ in 0..1000 {
        match put_part(writer, frame, Some(7)) {
            Ok(false) => {}
            answer => return answer,
        }
    }
    Ok(false)
}

/// What came of two frames that were written by parts: the answers, and how many frames and bytes went out.
type Written = ([Result<bool, WriteFault>; 2], u64, u64);

fn put_two<W: Sink + Drop>(alloc: Global, sink: W) -> Result<Written, Fail> {
    let header = Header::parse(alloc, HEADER)?;
    let frame = frame_of(alloc, &header)?;
    let Ok(mut writer) = StreamWriter::open(sink, &header) else {
        return Err("not opened".into());
    };
    let first = put_by_parts(&mut writer, &frame);
    let second = put_by_parts(&mut writer, &frame);
    Ok(([first, second], writer.frames(), writer.bytes()))
}

/// Writes two frames by parts into a slow sink that takes such pieces. Each piece goes out at the tenth try.
fn two_go_out(rt: &impl Abort, alloc: Global, step: usize, tries: u64) -> Result<(), Fail> {
    let mut room = [0; 64];
    let mut sink = slow_room(&mut room, step);
    let written = put_two(alloc, &mut sink)?;
    let tried = (sink.tries, sink.milliseconds);
    drop(sink);
    same(rt, (step, written), (step, ([Ok(true), Ok(true)], 2, 57)));
    same(rt, (step, tried), (step, (tries, 7)));
    same(rt, room.get(..57), Some(TEXT));
    Ok(())
}

/// A frame is a line of 6 bytes with its line feed, and 12 bytes of data.
#[test]
fn images_go_out_by_parts(rt: HostRuntime) -> Result<(), Fail> {
    for (step, tries) in [(1, 360), (5, 100), (4096, 40)] {
        two_go_out(&rt, rt.alloc(), step, tries)?;
    }
    Ok(())
}

/// The sink fails behind so many bytes.
fn fault_is_told(rt: &impl Abort, alloc: Global, len: usize, step: usize) -> Result<(), Fail> {
    let mut room = [0; 64];
    let sink = slow_room(room.get_mut(..len).ok_or("room")?, step);
    let written = put_two(alloc, sink)?;
    let fault = Err(WriteFault::Device(len as u64));
    let answers = if len < 39 {
        ([fault, Err(WriteFault::Failed)], 0)
    } else {
        ([Ok(true), fault], 1)
    };
    same(
        rt,
        (step, written),
        (step, (answers.0, answers.1, len as u64)),
    );
    same(rt, room.get(..len), TEXT.get(..len));
    Ok(())
}

#[test]
fn a_part_that_fails_is_told_with_what_went_out(rt: HostRuntime) -> Result<(), Fail> {
    for len in 21..57 {
        fault_is_told(&rt, rt.alloc(), len, 1)?;
        fault_is_told(&rt, rt.alloc(), len, 5)?;
    }
    Ok(())
}

/// Writes on so often, and then writes what is left of the frame. The call that ends its line tries its data
/// too.
fn rest_goes_out(rt: &impl Abort, alloc: Global, calls: u64) -> Result<(), Fail> {
    let header = Header::parse(alloc, HEADER)?;
    let frame = frame_of(alloc, &header)?;
    let mut room = [0; 64];
    let Ok(mut writer) = StreamWriter::open(slow_room(&mut room, 1), &header) else {
        return Err("not opened".into());
    };
    for _ in 0..calls {
        same(rt, put_part(&mut writer, &frame, Some(0)), Ok(false));
    }
    let tries = if calls < 60 {
        calls
    } else {
        calls.saturating_add(1)
    };
    let part = tries / 10;
    let got = (writer.part() as u64, writer.bytes());
    same(rt, (calls, got), (calls, (part, 21 + part)));
    same(rt, put_part(&mut writer, &frame, None), Ok(true));
    let got = (writer.frames(), writer.part(), writer.bytes());
    same(rt, got, (1, 0, 39));
    drop(writer);
    same(rt, room.get(..39), TEXT.get(..39));
    Ok(())
}

#[test]
fn a_part_is_written_to_its_end(rt: HostRuntime) -> Result<(), Fail> {
    for calls in 0..179 {
        rest_goes_out(&rt, rt.alloc(), calls)?;
    }
    Ok(())
}

/// It takes five bytes at a time, of a line or of data, and isn't slow.
#[test]
fn a_sink_that_cannot_tell_is_written_at_once(rt: HostRuntime) -> Result<(), Fail> {
    let header = Header::parse(rt.alloc(), HEADER)?;
    let frame = frame_of(rt.alloc(), &header)?;
    let mut room = [0; 64];
    let output = Room {
        left: room.as_mut_slice(),
        step: 5,
        calls: 0,
    };
    let Ok(mut writer) = StreamWriter::open(OverWrite::new(output), &header) else {
        return Err("not opened".into());
    };
    for (whole, bytes) in [(false, 26), (false, 32), (false, 37), (true, 39)] {
        let answer = put_part(&mut writer, &frame, Some(0));
        same(&rt, (answer, writer.bytes()), (Ok(whole), bytes));
    }
    drop(writer);
    same(&rt, room.get(..39), TEXT.get(..39));
    Ok(())
}
