//! A stream, filtered from end to end, each frame read while the image before it is made and written.
ghost use Rattle.std.specs.Prelude.{◌≡◌, ◌⊎◌, IfErr, OnOk, true};
ghost use Rattle.y4m_stream.specs.Filtered.{CountsReads, CountsWrites, IsFilteredAhead, ends_of};
ghost use Rattle.y4m_stream.specs.Front.{IsFrameAhead};
ghost use Rattle.y4m_stream.specs.Inside.{CanBegin, CanPaint, CanReadBeside, HasImage, HasPassedAhead};
ghost use Rattle.y4m_stream.specs.Inside.{KeepsSizes};
ghost use Rattle.y4m_stream.specs.Reader.{AnswersOpen, answer_into, data_len_of, frame_text_of};
ghost use Rattle.y4m_stream.specs.Writer.{FlushesOrFails, PutsOpen};

use crate::device::{Sink, Source};
use crate::fault::{FilterFault, Filtered, ReadResult, WriteFault};
use crate::filter::{Filter, begin, close};
use crate::passing::pass_frames;
use crate::reader::StreamReader;
use crate::writer::StreamWriter;
use filters::Op;
use frame_view::Frame;
use row_bands::BandHeight;
use std::alloc::Global;
use std::mem::swap;
use std::thread::{Threads, join_mut};
use y4m_header::MOST_FRAMES;

/// The fewest bytes of a frame's data for which a thread is started.
///
/// `bench/invert sizes` measures two threads beside one. On four busy processors a thread cost 35
/// microseconds for each frame. Frames of 150,000 bytes just made good for that, and took half as much time
/// of the processors again; from 295,000 bytes on two threads took 0.6 to 0.9 of the time of one, by pipes
/// and from file to file.
pub const LEAST_OVERLAPPED: usize = 262_144;

type WriteResult = Result<(), WriteFault>;

/// Makes the image of the filter's frame, whose line was taken, and writes it.
fn paint_and_put<W: Sink>(writer: &mut StreamWriter<W>, filter: &mut Filter) -> WriteResult
    requires { CanPaint filter.old writer.old }
    ensures keeps_sizes { KeepsSizes filter.old filter.new }
    ensures put { HasImage filter.old.images.chain (frame_text_of filter.old.frame)
        (λ image. PutsOpen writer.old writer.new image result) }
{
    filter.images.paint(&mut filter.frame);
    writer.put(filter.images.image(&filter.frame))
}

/// Reads the next frame while the image of the filter's frame is made and written, each as alone. Where
/// frames are small the image goes out first, on this thread.
fn read_and_put<T: Threads, R: Source + Drop + Send, W: Sink>(
    rt: &T,
    alloc: Global,
    reader: &mut StreamReader<R>,
    writer: &mut StreamWriter<W>,
    next: &mut Frame,
    filter: &mut Filter,
) -> (ReadResult<bool>, WriteResult)
    requires ready { CanReadBeside filter.old reader.old writer.old next.old }
    ensures next { next.new.geometry ≡ next.old.geometry }
    ensures header { reader.new.header ≡ reader.old.header }
    ensures keeps_sizes { KeepsSizes filter.old filter.new }
    ensures read { AnswersOpen reader.old reader.new (answer_into next.new result.0) }
    ensures ahead { IfErr result.0 (λ _.
        IsFrameAhead (data_len_of reader.old.header) reader.old.rest reader.new.left) }
    ensures put { HasImage filter.old.images.chain (frame_text_of filter.old.frame)
        (λ image. PutsOpen writer.old writer.new image result.1) }
{
    if next.data().len() < LEAST_OVERLAPPED {
        let put = paint_and_put(writer, filter);
        return (reader.read_frame(alloc, next), put);
    }
    join_mut(
        rt,
        &mut || reader.read_frame(alloc, next),
        &mut || paint_and_put(writer, filter),
    )
}

/// Reads frames to the end and writes their images, each made and written while the next frame is read into
/// the memory of the other one. Where a write and the read beside it fail, the write's fault is answered.
fn pass_images<T: Threads, R: Source + Drop + Send, W: Sink>(
    rt: &T,
    alloc: Global,
    reader: &mut StreamReader<R>,
    writer: &mut StreamWriter<W>,
    next: &mut Frame,
    filter: &mut Filter,
) -> Filtered
    requires begin { CanBegin filter.old reader.old writer.old }
    requires next { next.old.geometry ≡ filter.old.images.chain.geometry }
    ensures { HasPassedAhead filter.old.images.chain reader.old reader.new writer.old writer.new result }
{
    let mut more = reader.read_frame(alloc, next)?;
    for count in 0..MOST_FRAMES {
        if !more {
            return Ok(count);
        }
        swap(&mut filter.frame, next);
        filter.images.take_line_of(alloc, &filter.frame)?;
        let (read, put) = read_and_put(rt, alloc, reader, writer, next, filter);
        put?;
        more = read?;
    }
    if more {
        return Err(FilterFault::TooManyFrames);
    }
    Ok(MOST_FRAMES)
}

/// Passes the frames on with a second frame of its own. Where its memory is refused, each frame is read once
/// the image before it is written.
fn pass_beside<T: Threads, R: Source + Drop + Send, W: Sink>(
    rt: &T,
    alloc: Global,
    reader: &mut StreamReader<R>,
    writer: &mut StreamWriter<W>,
    filter: &mut Filter,
) -> Filtered
    requires ready { CanBegin filter.old reader.old writer.old }
    ensures { HasPassedAhead filter.old.images.chain reader.old reader.new writer.old writer.new result }
{
    match Frame::blank(alloc, filter.frame.geometry(), b"FRAME") {
        Ok(mut next) => pass_images(rt, alloc, reader, writer, &mut next, filter),
        Err(_) => pass_frames(alloc, reader, writer, filter),
    }
}

/// As `filter_stream`, but that each frame is read on a thread of its own while the image of the one before
/// it is made and written, on the caller's. Where frames have fewer bytes than `LEAST_OVERLAPPED`, or no
/// thread is granted, the two come one after the other. It takes memory for a second frame; where that is
/// refused, frames are read as `filter_stream` reads them.
///
/// A fault that is met in reading is answered once the image before it is written. Where a write and the read
/// beside it both fail, the write's fault is answered. So where it is, one frame more may have been read than
/// images were begun, or its reading may have failed. In the first clause `last` is the source as it was
/// given up.
pub fn filter_overlapped<T: Threads, R: Source + Drop + Send, W: Sink>(
    rt: &T,
    alloc: Global,
    input: R,
    output: W,
    ops: Vec<Op>,
    height: BandHeight,
) -> (W, Result<u64, FilterFault>)
    ensures answer { (last : R) × CountsReads result.1 (R.failures input) (R.failures last)
        × IsFilteredAhead result.1 ops.items height
        (ends_of (R.remaining input) (R.remaining last) (W.contents output) (W.contents result.0)) }
    ensures writes { CountsWrites result.1 (W.failures output) (W.failures result.0) }
    ensures flushed { OnOk result.1 (W.is_flushed result.0 ≡ true) }
    ensures closed { (result.0 ≡ output)
        ⊎ FlushesOrFails (W.is_flushed result.0) (W.failures output) (W.failures result.0) }
{
    let mut reader = match StreamReader::open_or_return(alloc, input) {
        Ok(reader) => reader,
        Err((_, fault)) => return (output, Err(FilterFault::Read(fault))),
    };
    let (mut filter, mut writer) = match begin(alloc, reader.header(), output, ops, height) {
        Ok(begun) => begun,
        Err((output, fault)) => {
            drop(reader.into_source());
            return (output, Err(fault));
        }
    };
    let passed = pass_beside(rt, alloc, &mut reader, &mut writer, &mut filter);
    let (output, answer) = close(writer, passed);
    drop(reader.into_source());
    (output, answer)
}
