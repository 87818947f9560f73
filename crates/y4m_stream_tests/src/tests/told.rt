//! What sources and sinks are told of the frames of a stream.
ghost use Rattle.std.specs.Prelude.{◌≡◌};

use super::sizes::{LEAST_BESIDE, stream_of};
use super::{Pieces, Room, STREAM, same_unless_refused, whole_part};
use filters::parse_ops;
use row_bands::BandHeight;
use std::alloc::Global;
use std::io;
use std::process::Abort;
use std::test::Fail;
use std::thread::Threads;
use y4m_stream::{
    OverRead, OverWrite, Sink, Source, StreamReader, filter_overlapped, filter_stream,
};

/// A source or a sink that keeps how many frames it was told of, and how many bytes had gone through it then.
#[derive(Drop)]
struct Told<D> {
    device: D,
    bytes: usize,
    frames: u64,
    end: usize,
}

impl<D> Told<D> {
    fn over(device: D) -> Told<D> {
        Told {
            device,
            bytes: 0,
            frames: 0,
            end: 0,
        }
    }

    fn add(&mut self, passed: &io::Result<usize>)
        ensures { self.new.device ≡ self.old.device }
    {
        if let Ok(n) = passed {
            self.bytes = self.bytes.saturating_add(*n);
        }
    }

    fn end(&mut self)
        ensures { self.new.device ≡ self.old.device }
    {
        self.frames = self.frames.saturating_add(1);
        self.end = self.bytes;
    }
}

impl<S: Source> Source for Told<S> {
    ghost remaining = { λ s. S.remaining s.device };

    ghost failures = { λ s. S.failures s.device };

    fn read(&mut self, buf: &mut [u8]) -> io::Result<usize> {
        let answer = self.device.read(buf);
        self.add(&answer);
        answer
    }

    fn frame_ended(&mut self) {
        self.end();
    }
}

impl<W: Sink> Sink for Told<W> {
    ghost contents = { λ s. W.contents s.device };

    ghost failures = { λ s. W.failures s.device };

    ghost is_flushed = { λ s. W.is_flushed s.device };

    fn write(&mut self, buf: &[u8]) -> io::Result<usize> {
        let answer = self.device.write(buf);
        self.add(&answer);
        answer
    }

    fn flush(&mut self) -> io::Result<()> {
        self.device.flush()
    }

    fn image_ended(&mut self) {
        self.end();
    }
}

/// The first bytes of the stream, in pieces, as a source that is told of frames.
fn part(len: usize, step: usize) -> Result<Told<OverRead<Pieces<'static>>>, Fail> {
    let pieces = Pieces {
        left: STREAM.get(..len).ok_or("a front")?,
        step,
        ends: usize::MAX,
    };
    Ok(Told::over(OverRead::new(pieces)))
}

/// How many frames are told of where so many bytes go through, and where the last of them ends.
fn told_of_part(len: usize) -> (u64, usize) {
    match whole_part(len) {
        (0, _) => (0, 0),
        part => part,
    }
}

/// Asks for more frames than there are.
fn read_all<S: Source + Drop>(alloc: Global, source: S) {
    if let Ok(mut reader) = StreamReader::open(alloc, source) {
        for _ in 0..5 {
            let _ = reader.next_frame(alloc);
        }
    }
}

/// Byte by byte, so that nothing is read ahead.
#[test]
fn a_source_is_told_of_each_frame_at_its_end(rt: HostRuntime) -> Result<(), Fail> {
    for len in 0..62 {
        let mut source = part(len, 1)?;
        read_all(rt.alloc(), &mut source);
        let got = (len, (source.frames, source.end));
        same_unless_refused(&rt, got, (len, told_of_part(len)));
    }
    Ok(())
}

/// Filters between two devices, as `filter_overlapped` or as `filter_stream` does.
fn filter_told<T: Threads, S: Source + Drop + Send, W: Sink + Drop>(
    rt: &T,
    alloc: Global,
    is_overlapped: bool,
    source: S,
    sink: W,
) -> Result<(), Fail> {
    let height = BandHeight::new(16).ok_or("height")?;
    let ops = parse_ops(alloc, b"invert")?;
    let _ = if is_overlapped {
        filter_overlapped(rt, alloc, source, sink, ops, height)
    } else {
        filter_stream(alloc, source, sink, ops, height)
    };
    Ok(())
}

/// Of the first bytes of the stream, the frames that are whole are told of, and their images.
fn same_are_told<T: Threads + Abort>(
    rt: &T,
    alloc: Global,
    is_overlapped: bool,
    len: usize,
    step: usize,
) -> Result<(), Fail> {
    let mut source = part(len, step)?;
    let mut sink = Told::over(OverWrite::new(Vec::new(alloc)));
    filter_told(rt, alloc, is_overlapped, &mut source, &mut sink)?;
    let (frames, end) = told_of_part(len);
    let got = (source.frames, sink.frames, sink.end);
    same_unless_refused(rt, (len, step, got), (len, step, (frames, frames, end)));
    Ok(())
}

#[test]
fn each_frame_and_its_image_are_told_of_however_they_come(rt: HostRuntime) -> Result<(), Fail> {
    for len in 0..62 {
        for step in [1, 7, 4096] {
            same_are_told(&rt, rt.alloc(), false, len, step)?;
            same_are_told(&rt, rt.alloc(), true, len, step)?;
        }
    }
    Ok(())
}

/// The images that are whole in so many bytes are told of, each at its end.
fn written_are_told<T: Threads + Abort>(
    rt: &T,
    alloc: Global,
    is_overlapped: bool,
    room: usize,
) -> Result<(), Fail> {
    let mut taken = [0; 64];
    let output = Room {
        left: taken.get_mut(..room).ok_or("room")?,
        step: 5,
        calls: 0,
    };
    let mut sink = Told::over(OverWrite::new(output));
    filter_told(rt, alloc, is_overlapped, STREAM, &mut sink)?;
    let got = (room, (sink.frames, sink.end));
    same_unless_refused(rt, got, (room, told_of_part(room)));
    Ok(())
}

#[test]
fn a_sink_is_told_of_no_image_that_it_did_not_take_whole(rt: HostRuntime) -> Result<(), Fail> {
    for room in 0..64 {
        written_are_told(&rt, rt.alloc(), false, room)?;
        written_are_told(&rt, rt.alloc(), true, room)?;
    }
    Ok(())
}

/// They are read on a thread of their own.
#[test]
fn large_frames_and_their_images_are_told_of(rt: HostRuntime) -> Result<(), Fail> {
    let text = stream_of(rt.alloc(), &LEAST_BESIDE, false)?;
    let mut source = Told::over(text.as_slice());
    let mut sink = Told::over(OverWrite::new(Vec::new(rt.alloc())));
    filter_told(&rt, rt.alloc(), true, &mut source, &mut sink)?;
    let got = (source.frames, sink.frames, sink.end);
    same_unless_refused(&rt, got, (2, 2, 524_335));
    Ok(())
}
