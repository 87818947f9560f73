//! Writers that fail, that take little at a time, and that count their calls.
use super::{INVERTED, Room, STREAM, filter, open_fault, same, same_list};
use frame_view::{Frame, Geometry};
use std::alloc::Global;
use std::process::Abort;
use std::test::Fail;
use y4m_header::Header;
use y4m_stream::{FilterFault, OverWrite, StreamWriter, WriteFault};

/// Inverts the stream into a writer with so much room that takes such pieces.
fn invert_into(rt: &impl Abort, alloc: Global, room: usize, step: usize) -> Result<(), Fail> {
    let mut taken = [0; 64];
    let left = taken.get_mut(..room).ok_or("room")?;
    let output = Room {
        left,
        step,
        calls: 0,
    };
    let (_, result) = filter(alloc, "invert", STREAM, output)?;
    let expected = if room > 61 {
        Ok(3)
    } else {
        Err(FilterFault::Write(WriteFault::Device(room as u64)))
    };
    let end = room.min(61);
    let got = (room, step, result, taken.get(..end));
    same(rt, got, (room, step, expected, INVERTED.get(..end)));
    Ok(())
}

/// Inverts the stream into each room that is too small, and into one that isn't.
fn invert_into_each(rt: &impl Abort, alloc: Global, step: usize) -> Result<(), Fail> {
    for room in 0..63 {
        invert_into(rt, alloc, room, step)?;
    }
    Ok(())
}

#[test]
fn a_failed_write_carries_what_went_out(rt: HostRuntime) -> Result<(), Fail> {
    for step in [1, 4096] {
        invert_into_each(&rt, rt.alloc(), step)?;
    }
    Ok(())
}

/// They are the header line, and a line and data for each frame.
#[test]
fn each_piece_of_text_is_one_write(rt: HostRuntime) -> Result<(), Fail> {
    let mut taken = [0; 64];
    let output = Room {
        left: taken.as_mut_slice(),
        step: 4096,
        calls: 0,
    };
    let (output, result) = filter(rt.alloc(), "invert", STREAM, output)?;
    same(&rt, (result, output.calls), (Ok(3), 7));
    Ok(())
}

#[test]
fn a_header_line_that_goes_out_in_part_is_counted(rt: HostRuntime) -> Result<(), Fail> {
    let header = Header::parse(rt.alloc(), b"YUV4MPEG2 W1 H1 Cmono")?;
    let mut taken = [0; 5];
    let output = Room {
        left: taken.as_mut_slice(),
        step: 4096,
        calls: 0,
    };
    let fault = open_fault(output, &header);
    same(&rt, fault, Some(WriteFault::Device(5)));
    same_list(&rt, &taken, b"YUV4M");
    Ok(())
}

#[test]
fn a_writer_counts_from_the_header_line_on(rt: HostRuntime) -> Result<(), Fail> {
    let header = Header::parse(rt.alloc(), b"YUV4MPEG2 W1 H1 Cmono")?;
    let frame = Frame::blank(rt.alloc(), Geometry::of(&header), b"FRAME")?;
    let mut taken = [0; 25];
    let output = Room {
        left: taken.as_mut_slice(),
        step: 4096,
        calls: 0,
    };
    let Ok(mut writer) = StreamWriter::open(OverWrite::new(output), &header) else {
        return Err("not opened".into());
    };
    same(&rt, writer.put(&frame), Err(WriteFault::Device(25)));
    same(&rt, writer.put(&frame), Err(WriteFault::Failed));
    let (_, finished) = writer.finish();
    same(&rt, finished, Err(WriteFault::Failed));
    same_list(&rt, &taken, b"YUV4MPEG2 W1 H1 Cmono\nFRA");
    Ok(())
}
