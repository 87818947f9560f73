//! A writer of frames, which fails for good at its first fault.
ghost use Rattle.std.specs.Prelude.{◌≡◌, ◌≢◌, ◌<◌, ◌^◌, ◌↔◌, ◌⊎◌, [], ◌∷◌, ◌++◌, Ok, Err, IfOk, IfErr, IfNone};
ghost use Rattle.std.specs.Prelude.{OnOk, length, true, false};
ghost use Rattle.std.specs.Io.KnownBytes.{Keeps};
ghost use Rattle.y4m_stream.specs.Failures.{one_more};
ghost use Rattle.y4m_stream.specs.Reader.{frame_text_of};
ghost use Rattle.y4m_stream.specs.Writer.{CountsMore, CutsShort, FlushesOrFails, IsOfSize, IsOpenedFor};
ghost use Rattle.y4m_stream.specs.Writer.{IsWithin, Puts, PutsMore, WriterState};
ghost use Rattle.y4m_header.specs.declared.limits.TheConstants.{MOST_FRAMES};
ghost use Rattle.y4m_header.specs.StreamText.{text_of};
ghost use Rattle.y4m_stream.specs.Writer.{write_failures_told};

use crate::device::Sink;
use crate::fault::WriteFault;
use crate::put::{Way, put_frame, put_frame_on, put_line};
use frame_view::{Frame, Geometry};
use std::marker::Model;
use y4m_header::Header;

/// The frames of a stream, written one after another.
///
/// Each call but `put_on` writes all of its text, one piece for a line and one for a frame's data: nothing is
/// kept back between calls, and no memory is taken. No write or flush that failed is tried again: after its
/// first fault every call answers `Failed`, and `finish` gives the sink back. It tells its sink of each frame
/// that went out whole, and counts the frames and the bytes that went out.
#[derive(Drop)]
pub struct StreamWriter<W: Sink> {
    sink: W,
    geometry: Geometry,
    frames: u64,
    bytes: u64,
    /// How many of these are of an image that was begun and isn't whole yet.
    part: usize,
    failed: bool,
}

impl<W: Sink> Model for StreamWriter<W> {
    ghost use Rattle.std.specs.Prelude.{◌≡◌, ◌+◌, ◌*◌, ◌≤◌, ◌^◌, false};
    ghost use Rattle.y4m_stream.specs.declared.lookahead.TheConstants.{LINE_LIMIT};
    ghost use Rattle.y4m_header.specs.declared.limits.TheConstants.{MOST_FRAMES};
    ghost use Rattle.y4m_stream.specs.Writer.{WriterState};

    ghost Value = { WriterState };

    ghost view = { λ a. record {
      contents = W.contents a.sink;
      width = a.geometry.width;
      height = a.geometry.height;
      chroma = a.geometry.chroma;
      frames = a.frames;
      bytes = a.bytes;
      part = a.part;
      failed = a.failed;
      failures = W.failures a.sink;
    } };

    ghost invariant = { λ a. (a.failed ≡ false → a.bytes ≤ LINE_LIMIT + 2 ^ 27 * a.frames + a.part)
        × (a.frames ≤ MOST_FRAMES) × (a.part ≤ 2 ^ 27) };
}

impl<W: Sink> StreamWriter<W> {
    /// Writes the header line and its line feed. Where that fails, the sink comes back.
    pub fn open(mut sink: W, header: &Header) -> Result<StreamWriter<W>, (W, WriteFault)>
        ensures opened { IfOk result (IsOpenedFor header.now (W.contents sink) (W.failures sink)) }
        ensures cut { IfErr result (λ failed. CutsShort (W.contents sink) (W.contents failed.0)
            (header.now.line ++ 10 ∷ []) 0 failed.1) }
        ensures failures { IfErr result (λ failed. W.failures failed.0 ≡ one_more (W.failures sink)) }
    {
        match put_line(&mut sink, header.line()) {
            Ok(()) => Ok(StreamWriter {
                sink,
                geometry: Geometry::of(header),
                frames: 0,
                bytes: header.line().len() as u64 + 1,
                part: 0,
                failed: false,
            }),
            Err(n) => Err((sink, WriteFault::Device(n as u64))),
        }
    }

    /// Writes a frame: its line, a line feed and its samples.
    ///
    /// After a fault the stream may end inside a frame, so nothing more is written: each later call answers
    /// `WriteFault::Failed`.
    pub fn put(&mut self, frame: &Frame) -> Result<(), WriteFault>
        requires size { IsOfSize self.old frame.now.geometry }
        requires room_for_frame { self.old.frames < MOST_FRAMES }
        ensures { Puts self.old self.new (frame_text_of frame.now) result }
    {
        if self.failed {
            return Err(WriteFault::Failed);
        }
        match put_frame(&mut self.sink, frame.line(), frame.data()) {
            Ok(()) => {
                self.bytes += (frame.line().len() + 1 + frame.data().len()) as u64;
                self.frames += 1;
                Ok(())
            }
            Err(n) => {
                self.bytes += n as u64;
                self.failed = true;
                Err(WriteFault::Device(self.bytes))
            }
        }
    }

    /// Writes on with a frame, behind what went out of it before, if anything did: where it has a patience,
    /// in at most two writes, each of which waits at most so many milliseconds; else to its end. It answers
    /// whether the frame went out whole. Where it didn't, some of it went out, unless the sink deferred that.
    ///
    /// Until it has, each call is for the same frame. After a fault each later call answers
    /// `WriteFault::Failed`, as those of `put` do.
    pub fn put_on(&mut self, frame: &Frame, patience: Option<u64>) -> Result<bool, WriteFault>
        requires size { IsOfSize self.old frame.now.geometry }
        requires room_for_frame { self.old.frames < MOST_FRAMES }
        requires part { self.old.part < length (text_of (frame_text_of frame.now)) }
        ensures more { (before : WriterState) → IsWithin before self.old (frame_text_of frame.now)
            → PutsMore before self.new (frame_text_of frame.now) result }
        ensures counted { CountsMore self.old self.new (frame_text_of frame.now) result }
        ensures failed { self.old.failed ≡ true → (result ≡ Err WriteFault.Failed) × (self.new ≡ self.old) }
        ensures decided { IfNone patience (result ≢ Ok false) }
        ensures some { result ≡ Ok false → (self.old.part < self.new.part) ⊎ W.may_defer }
    {
        if self.failed {
            return Err(WriteFault::Failed);
        }
        let from = self.part;
        let put = put_frame_on(&mut self.sink, frame.line(), frame.data(), from, patience);
        self.bytes += (put.written - from) as u64;
        self.part = 0;
        match put.way {
            Way::Done => {
                self.frames += 1;
                Ok(true)
            }
            Way::More => {
                self.part = put.written;
                Ok(false)
            }
            Way::Fails => {
                self.failed = true;
                Err(WriteFault::Device(self.bytes))
            }
        }
    }

    /// How many bytes went out of a frame that was begun and isn't whole yet.
    pub fn part(&self) -> usize
        ensures { result ≡ self.now.part }
    {
        self.part
    }

    /// How many frames went out since the writer was opened.
    pub fn frames(&self) -> u64
        ensures { result ≡ self.now.frames }
    {
        self.frames
    }

    /// How many bytes went out since the writer was opened, those of the header line and of a frame that was
    /// cut off included.
    pub fn bytes(&self) -> u64
        ensures { result ≡ self.now.bytes }
    {
        self.bytes
    }

    /// Flushes, and gives the sink back. A writer that has failed flushes nothing.
    pub fn finish(self) -> (W, Result<(), WriteFault>)
        ensures keeps_contents { Keeps self.contents (W.contents result.0) }
        ensures flushed { OnOk result.1 (W.is_flushed result.0 ≡ true) }
        ensures closed { self.failed ≡ false
            → FlushesOrFails (W.is_flushed result.0) self.failures (W.failures result.0) }
        ensures failed { (result.1 ≡ Err WriteFault.Failed) ↔ (self.failed ≡ true) }
        ensures fault { self.failed ≡ false → IfErr result.1 (λ fault. fault ≡ WriteFault.Device self.bytes) }
        ensures failures { W.failures result.0 ≡ write_failures_told result.1 self.failures }
    {
        let StreamWriter {
            mut sink,
            bytes,
            failed,
            ..
        } = self;
        if failed {
            return (sink, Err(WriteFault::Failed));
        }
        match sink.flush() {
            Ok(()) => (sink, Ok(())),
            Err(_) => (sink, Err(WriteFault::Device(bytes))),
        }
    }
}
