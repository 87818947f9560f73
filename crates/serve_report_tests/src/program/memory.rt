//! Files in memory, which a run opens and makes by name.
ghost use Rattle.std.specs.Prelude.{⊤};

use serve_files::{Files, Inlet, Outlet, Place};
use std::alloc::Global;
use std::io::{self, ErrorKind, Write};
use std::sync::{Mutex, Wait};
use test_tools::Tape;

/// A file that can be read.
#[derive(Clone, Copy)]
pub struct Given<'a> {
    pub name: &'a str,
    pub text: &'a [u8],
    /// Its reads fail behind the text.
    pub fails: bool,
}

/// A file that can be made.
#[derive(Drop)]
pub struct Made<'a> {
    pub name: &'a str,
    /// Its writes fail behind so many bytes.
    pub most: usize,
    pub is_made: Mutex<bool>,
    pub text: Mutex<Vec<u8>>,
}

impl<'a> Made<'a> {
    pub fn new(alloc: Global, name: &'a str, most: usize) -> Made<'a> {
        Made {
            name,
            most,
            is_made: Mutex::new(false),
            text: Mutex::new(Vec::new(alloc)),
        }
    }
}

/// The files of a run, and how often one was asked for.
#[derive(Drop)]
pub struct Memory<'a, T: Wait + Sync> {
    pub rt: &'a T,
    pub given: &'a [Given<'a>],
    /// Those whose reads may wait.
    pub slow: &'a [Given<'static>],
    pub made: &'a [Made<'a>],
    /// What stands behind some names; of the others nothing is known.
    pub places: &'a [(&'a str, Place)],
    pub asked: Mutex<u64>,
}

impl<'a, T: Wait + Sync> Memory<'a, T> {
    /// No read waits.
    pub fn new(rt: &'a T, given: &'a [Given<'a>], made: &'a [Made<'a>]) -> Memory<'a, T> {
        Memory {
            rt,
            given,
            slow: &[],
            made,
            places: &[],
            asked: Mutex::new(0),
        }
    }
}

/// One more file was asked for.
fn count<T: Wait>(rt: &T, asked: &Mutex<u64>) {
    let mut asked = asked.lock(rt);
    *asked = asked.saturating_add(1);
}

/// Writes to a file that was made.
#[derive(Drop)]
pub struct Output<'a, T: Wait + Sync> {
    rt: &'a T,
    file: &'a Made<'a>,
}

impl<T: Wait + Sync> Write for Output<'_, T> {
    fn write(&mut self, buf: &[u8]) -> io::Result<usize> {
        let mut text = self.file.text.lock(self.rt);
        let room = self.file.most.saturating_sub(text.len());
        let taken = room.min(buf.len());
        if taken == 0 && !buf.is_empty() {
            return Err(io::Error::from(ErrorKind::Other));
        }
        match text.extend_from_slice(&buf[..taken]) {
            Ok(()) => Ok(taken),
            Err(_) => Err(io::Error::from(ErrorKind::OutOfMemory)),
        }
    }

    fn flush(&mut self) -> io::Result<()> {
        Ok(())
    }
}

impl<'a, T: Wait + Sync> Files for Memory<'a, T> {
    type Reader = Tape<'a>;

    type Slow = Tape<'static>;

    type Writer = Output<'a, T>;

    type SlowWriter = io::Sink;

    ghost place_gives = { λ _ _. ⊤ };

    ghost open_gives = { λ _ _. ⊤ };

    ghost create_gives = { λ _ _. ⊤ };

    fn place(&self, name: &str) -> Place {
        for (known, place) in self.places {
            if *known == name {
                return *place;
            }
        }
        Place::Shared
    }

    fn open(&self, name: &str) -> io::Result<Inlet<Tape<'a>, Tape<'static>>> {
        count(self.rt, &self.asked);
        for file in self.given {
            if file.name == name {
                return Ok(Inlet::Prompt(Tape::new(file.text, file.fails)));
            }
        }
        for file in self.slow {
            if file.name == name {
                return Ok(Inlet::Slow(Tape::new(file.text, file.fails)));
            }
        }
        Err(io::Error::from(ErrorKind::NotFound))
    }

    fn create(&self, name: &str) -> io::Result<Outlet<Output<'a, T>, io::Sink>> {
        count(self.rt, &self.asked);
        for file in self.made {
            if file.name == name {
                *file.is_made.lock(self.rt) = true;
                return Ok(Outlet::Prompt(Output { rt: self.rt, file }));
            }
        }
        Err(io::Error::from(ErrorKind::PermissionDenied))
    }

    fn hold(&self, name: &str) -> io::Result<Tape<'static>> {
        for file in self.slow {
            if file.name == name {
                return Ok(Tape::new(file.text, file.fails));
            }
        }
        Err(io::Error::from(ErrorKind::NotFound))
    }
}

/// No file can be opened or made.
#[derive(Clone, Copy)]
pub struct NoFiles;

impl Files for NoFiles {
    type Reader = io::Empty;

    type Slow = io::Empty;

    type Writer = io::Sink;

    type SlowWriter = io::Sink;

    ghost place_gives = { λ _ _. ⊤ };

    ghost open_gives = { λ _ _. ⊤ };

    ghost create_gives = { λ _ _. ⊤ };

    fn place(&self, _name: &str) -> Place {
        Place::Missing
    }

    fn open(&self, _name: &str) -> io::Result<Inlet<io::Empty, io::Empty>> {
        Err(io::Error::from(ErrorKind::NotFound))
    }

    fn create(&self, _name: &str) -> io::Result<Outlet<io::Sink, io::Sink>> {
        Err(io::Error::from(ErrorKind::PermissionDenied))
    }

    fn hold(&self, _name: &str) -> io::Result<io::Empty> {
        Err(io::Error::from(ErrorKind::NotFound))
    }
}
