//! Readers and writers over memory that come to their end, or fail.
use std::alloc::{AllocError, Global};
use std::io::{self, ErrorKind, Read, Write};

/// Gives its bytes, at most `step` at a time, and then the end, or a failure of this kind at each read.
#[derive(Drop)]
pub struct Tape<'a> {
    pub left: &'a [u8],
    pub step: usize,
    pub failure: Option<ErrorKind>,
    /// How often it was read.
    pub reads: u64,
}

impl<'a> Tape<'a> {
    /// It gives all that is asked for, and then comes to its end or fails.
    pub fn new(bytes: &'a [u8], fails: bool) -> Tape<'a> {
        Tape {
            left: bytes,
            step: usize::MAX,
            failure: if fails { Some(ErrorKind::Other) } else { None },
            reads: 0,
        }
    }

    /// At most so many bytes a read, and then the end.
    pub fn by_steps(bytes: &'a [u8], step: usize) -> Tape<'a> {
        Tape {
            step,
            ..Tape::new(bytes, false)
        }
    }

    /// All that is asked for, and then a failure of this kind.
    pub fn torn(bytes: &'a [u8], kind: ErrorKind) -> Tape<'a> {
        Tape {
            failure: Some(kind),
            ..Tape::new(bytes, true)
        }
    }
}

impl Read for Tape<'_> {
    fn read(&mut self, buf: &mut [u8]) -> io::Result<usize> {
        self.reads = self.reads.saturating_add(1);
        match self.failure {
            Some(kind) if self.left.is_empty() => Err(io::Error::from(kind)),
            _ => {
                let most = buf.len().min(self.step);
                self.left.read(&mut buf[..most])
            }
        }
    }
}

/// Keeps so many bytes more, and then fails.
#[derive(Drop)]
pub struct Room {
    pub taken: Vec<u8>,
    pub left: usize,
    /// How often it was written to.
    pub writes: u64,
}

impl Room {
    /// All memory for the bytes is taken here, so no write fails for want of it.
    pub fn new(alloc: Global, left: usize) -> Result<Room, AllocError> {
        Ok(Room {
            taken: Vec::with_capacity(alloc, left)?,
            left,
            writes: 0,
        })
    }

    /// It takes memory as it needs it, and fails only for want of that.
    pub fn endless(alloc: Global) -> Room {
        Room {
            taken: Vec::new(alloc),
            left: usize::MAX,
            writes: 0,
        }
    }
}

impl Write for Room {
    fn write(&mut self, buf: &[u8]) -> io::Result<usize> {
        self.writes = self.writes.saturating_add(1);
        let n = buf.len().min(self.left);
        if n == 0 && !buf.is_empty() {
            return Err(io::Error::from(ErrorKind::Other));
        }
        let n = self.taken.write(&buf[..n])?;
        self.left = self.left.saturating_sub(n);
        Ok(n)
    }

    fn flush(&mut self) -> io::Result<()> {
        Ok(())
    }
}

/// Takes so many bytes in all and keeps none, and then takes none, or fails so.
#[derive(Drop)]
pub struct Narrow {
    pub room: usize,
    pub failure: Option<ErrorKind>,
    /// How often it was written to.
    pub writes: u64,
}

impl Narrow {
    /// With room for so many bytes.
    pub fn new(room: usize, failure: Option<ErrorKind>) -> Narrow {
        Narrow {
            room,
            failure,
            writes: 0,
        }
    }
}

impl Write for Narrow {
    fn write(&mut self, buf: &[u8]) -> io::Result<usize> {
        self.writes = self.writes.saturating_add(1);
        let taken = buf.len().min(self.room);
        match self.failure {
            Some(kind) if taken == 0 => Err(io::Error::from(kind)),
            _ => {
                self.room -= taken;
                Ok(taken)
            }
        }
    }

    fn flush(&mut self) -> io::Result<()> {
        Ok(())
    }
}
