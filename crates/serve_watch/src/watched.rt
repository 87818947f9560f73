//! A source and a sink that tell a watch of the frames of a stream.
ghost use Rattle.std.specs.Prelude.{◌≡◌};

use crate::trace::Doing;
use crate::watch::{Watch, tell_begin, tell_done};
use std::io;
use y4m_stream::{Sink, Source, Wanted};

/// A source whose frames a watch is told of, as those of the stream of this number.
#[derive(Drop)]
pub struct WatchedSource<'w, S: Source, V: Watch> {
    source: S,
    stream: usize,
    watch: Option<&'w V>,
}

/// A sink whose images a watch is told of, as those of the stream of this number.
#[derive(Drop)]
pub struct WatchedSink<'w, S: Sink, V: Watch> {
    sink: S,
    stream: usize,
    watch: Option<&'w V>,
    /// The bytes that were written since the watch was told.
    bytes: u64,
}

impl<'w, S: Source, V: Watch> WatchedSource<'w, S, V> {
    /// Nothing was told yet of this source. Where there is no watch nothing is told.
    pub fn new(source: S, stream: usize, watch: Option<&'w V>) -> WatchedSource<'w, S, V>
        ensures source { result.source ≡ source }
        ensures stream { result.stream ≡ stream }
    {
        WatchedSource {
            source,
            stream,
            watch,
        }
    }
}

impl<'w, S: Sink, V: Watch> WatchedSink<'w, S, V> {
    /// Nothing was told yet of this sink. Where there is no watch nothing is told.
    pub fn new(sink: S, stream: usize, watch: Option<&'w V>) -> WatchedSink<'w, S, V>
        ensures sink { result.sink ≡ sink }
        ensures stream { result.stream ≡ stream }
    {
        WatchedSink {
            sink,
            stream,
            watch,
            bytes: 0,
        }
    }

    /// Gives the sink back.
    pub fn into_inner(self) -> S
        ensures { result ≡ self.entry.sink }
    {
        self.sink
    }
}

impl<'w, S: Source, V: Watch> Source for WatchedSource<'w, S, V> {
    ghost remaining = { λ s. S.remaining s.source };

    ghost failures = { λ s. S.failures s.source };

    fn read(&mut self, buf: &mut [u8]) -> io::Result<usize> {
        tell_begin(self.watch, self.stream, Doing::Reading);
        let answer = self.source.read(buf);
        tell_done(self.watch, self.stream, answer.is_err());
        answer
    }

    fn is_ready(&self, milliseconds: u64, wanted: Wanted) -> bool {
        tell_begin(self.watch, self.stream, Doing::Reading);
        let answer = self.source.is_ready(milliseconds, wanted);
        tell_done(self.watch, self.stream, false);
        answer
    }

    fn frame_ended(&mut self) {
        self.source.frame_ended();
        if let Some(watch) = self.watch {
            watch.frame_read(self.stream);
        }
    }
}

impl<'w, S: Sink, V: Watch> Sink for WatchedSink<'w, S, V> {
    ghost contents = { λ s. S.contents s.sink };

    ghost failures = { λ s. S.failures s.sink };

    ghost is_flushed = { λ s. S.is_flushed s.sink };

    fn write(&mut self, buf: &[u8]) -> io::Result<usize> {
        tell_begin(self.watch, self.stream, Doing::Writing);
        let answer = self.sink.write(buf);
        if let Ok(taken) = &answer {
            self.bytes = self.bytes.saturating_add(*taken as u64);
        }
        tell_done(self.watch, self.stream, answer.is_err());
        answer
    }

    fn try_write(&mut self, buf: &[u8], milliseconds: u64) -> io::Result<Option<usize>> {
        tell_begin(self.watch, self.stream, Doing::Writing);
        let answer = self.sink.try_write(buf, milliseconds);
        if let Ok(Some(taken)) = &answer {
            self.bytes = self.bytes.saturating_add(*taken as u64);
        }
        tell_done(self.watch, self.stream, answer.is_err());
        answer
    }

    fn flush(&mut self) -> io::Result<()> {
        self.sink.flush()
    }

    fn image_ended(&mut self) {
        self.sink.image_ended();
        if let Some(watch) = self.watch {
            watch.image_written(self.stream, self.bytes);
        }
        self.bytes = 0;
    }
}
