//! A source that is silent until it is told to speak.
use std::io::{self, Read};
use std::sync::atomic::{AtomicBool, Ordering};
use test_tools::Tape;
use y4m_stream::{OverRead, Source, Wanted};

/// The bytes of a header line, and of a frame of four samples with its line.
const HEADER_BYTES: usize = 22;

const FRAME_BYTES: usize = 10;

/// Tells a source whether it may speak.
#[derive(Drop)]
pub(super) struct Bell {
    is_rung: AtomicBool,
}

impl Bell {
    /// It isn't rung.
    pub(super) fn new() -> Bell {
        Bell {
            is_rung: AtomicBool::new(false),
        }
    }

    /// Lets the source speak, or be silent.
    pub(super) fn ring(&self, is_rung: bool) {
        self.is_rung.store(is_rung, Ordering::SeqCst);
    }
}

/// Gives a header line, and then a frame at each read.
#[derive(Drop)]
pub(super) struct Framed<'a> {
    tape: Tape<'a>,
}

impl<'a> Framed<'a> {
    /// A source of these bytes.
    pub(super) fn over(bytes: &'a [u8]) -> OverRead<Framed<'a>> {
        OverRead::new(Framed {
            tape: Tape::by_steps(bytes, HEADER_BYTES),
        })
    }
}

impl Read for Framed<'_> {
    fn read(&mut self, buf: &mut [u8]) -> io::Result<usize> {
        let answer = self.tape.read(buf);
        self.tape.step = FRAME_BYTES;
        answer
    }
}

/// A source that is ready where its bell was rung, and doesn't wait for that.
#[derive(Drop)]
pub(super) struct Shy<'a, S: Source> {
    pub(super) source: S,
    pub(super) bell: &'a Bell,
}

impl<'a, S: Source> Source for Shy<'a, S> {
    ghost remaining = { λ s. S.remaining s.source };

    ghost failures = { λ s. S.failures s.source };

    fn read(&mut self, buf: &mut [u8]) -> io::Result<usize> {
        self.source.read(buf)
    }

    fn is_ready(&self, _milliseconds: u64, _wanted: Wanted) -> bool {
        self.bell.is_rung.load(Ordering::SeqCst)
    }
}
