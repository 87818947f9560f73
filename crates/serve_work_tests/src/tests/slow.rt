//! A sink that takes all that is written, or one byte at a time, and so many until more are allowed.
use std::io::{self, Write};
use std::sync::atomic::{AtomicU64, Ordering};
use test_tools::Room;
use y4m_stream::{OverWrite, Sink};

/// How many tries of a sink take a byte; or, where they are `u64::MAX`, each takes all bytes.
#[derive(Drop)]
pub(super) struct Tries {
    left: AtomicU64,
}

impl Tries {
    /// None does.
    pub(super) fn new() -> Tries {
        Tries {
            left: AtomicU64::new(0),
        }
    }

    /// So many do from now on.
    pub(super) fn allow(&self, left: u64) {
        self.left.store(left, Ordering::SeqCst);
    }

    /// All do from now on, and take all bytes.
    pub(super) fn open(&self) {
        self.allow(u64::MAX);
    }

    fn is_endless(&self) -> bool {
        self.left.load(Ordering::SeqCst) == u64::MAX
    }

    /// Whether the next one does.
    fn take(&self) -> bool {
        let left = self.left.load(Ordering::SeqCst);
        if left < u64::MAX {
            self.left.store(left.saturating_sub(1), Ordering::SeqCst);
        }
        left > 0
    }
}

/// Takes all bytes, or one at a time.
#[derive(Drop)]
pub(super) struct Narrow<'a> {
    pub(super) room: Room,
    tries: &'a Tries,
}

impl Write for Narrow<'_> {
    fn write(&mut self, buf: &[u8]) -> io::Result<usize> {
        let most = if self.tries.is_endless() {
            buf.len()
        } else {
            1
        };
        self.room.write(&buf[..buf.len().min(most)])
    }

    fn flush(&mut self) -> io::Result<()> {
        self.room.flush()
    }
}

/// A sink whose bytes are on their way once its tries are used up.
#[derive(Drop)]
pub(super) struct Slow<'a, S: Sink> {
    pub(super) sink: S,
    pub(super) tries: &'a Tries,
}

impl<'a, S: Sink> Sink for Slow<'a, S> {
    ghost contents = { λ s. S.contents s.sink };

    ghost failures = { λ s. S.failures s.sink };

    ghost is_flushed = { λ s. S.is_flushed s.sink };

    fn write(&mut self, buf: &[u8]) -> io::Result<usize> {
        self.sink.write(buf)
    }

    fn try_write(&mut self, buf: &[u8], milliseconds: u64) -> io::Result<Option<usize>> {
        if !self.tries.take() {
            return Ok(None);
        }
        self.sink.try_write(buf, milliseconds)
    }

    fn flush(&mut self) -> io::Result<()> {
        self.sink.flush()
    }
}

/// The sink of a stream.
pub(super) type Output<'a> = Slow<'a, OverWrite<Narrow<'a>>>;

/// A sink with so much room.
pub(super) fn output(room: Room, tries: &Tries) -> Output<'_> {
    Slow {
        sink: OverWrite::new(Narrow { room, tries }),
        tries,
    }
}
