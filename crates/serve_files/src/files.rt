//! The files of a run, by name.
ghost use Rattle.std.specs.Prelude.{ℕ, ◌≡◌, List, None, Option, Some, IfErr, IfOk};
ghost use Rattle.y4m_stream.specs.Failures.{one_more};
ghost use Rattle.serve_files.specs.Inlets.{inlet_remaining};
ghost use Rattle.serve_files.specs.Outlets.{outlet_contents};
ghost use Rattle.serve_files.specs.declared.files.Place.{Place};

use crate::inlet::Inlet;
use crate::outlet::Outlet;
use std::io::{self, Read, Write};

/// A file among all those of its system.
#[derive(Clone, Copy, PartialEq, Eq)]
pub struct FileId {
    pub device: u64,
    pub inode: u64,
}

/// What stands behind a name.
#[derive(Clone, Copy)]
pub enum Place {
    /// Nothing does yet.
    Missing,
    /// What any number of streams may use, as a terminal, or something of which nothing is known.
    Shared,
    /// Bytes at rest, which any number of streams may read.
    File(FileId),
    /// A FIFO, which gives each of its bytes once.
    Pipe(FileId),
}

/// Where the files that the words name are opened and made.
pub trait Files {
    /// What is read from a file whose reads are answered at once.
    type Reader: Read + Drop;

    /// What is read from one that may wait. A thread of its own reads from it too.
    type Slow: Read + Drop;

    /// What is written to a file whose writes are answered at once.
    type Writer: Write + Drop;

    /// What is written to one whose writes may wait. A thread of its own writes to it.
    type SlowWriter: Write + Drop;

    /// Opening a file of this name came to one whose reads will give these bytes, where they are known, or to
    /// none.
    ghost open_gives: { (name : List ℕ) → (came : Option (Option (List ℕ))) → Type 0 };

    /// Making a file of this name came to one that holds these bytes, where they are known, or to none.
    ghost create_gives: { (name : List ℕ) → (came : Option (Option (List ℕ))) → Type 0 };

    /// This was told of what stands behind a name.
    ghost place_gives: { (name : List ℕ) → (place : Place) → Type 0 };

    /// What stands behind a name; no file is opened to see that. Of `/dev/stdout` it is asked too, as the
    /// place of the report.
    fn place(&self, name: &str) -> Place
        ensures { place_gives name.now result };

    /// Opens the file of this name for reading.
    fn open(&self, name: &str) -> io::Result<Inlet<Self::Reader, Self::Slow>>
        ensures file { IfOk result (λ inlet.
            open_gives name.now (Some (inlet_remaining Self.Reader.remaining inlet))) }
        ensures none { IfErr result (λ _. open_gives name.now None) };

    /// Makes the file of this name for writing, or empties the one that is there.
    fn create(&self, name: &str) -> io::Result<Outlet<Self::Writer, Self::SlowWriter>>
        ensures file { IfOk result (λ outlet.
            create_gives name.now (Some (outlet_contents Self.Writer.contents outlet))) }
        ensures none { IfErr result (λ _. create_gives name.now None) };

    /// Makes or empties a file that may have been made before in this run. Who asks for it sees to it that no
    /// two write to one. What was there before may stay until the first write.
    fn make(&self, name: &str) -> io::Result<Outlet<Self::Writer, Self::SlowWriter>>
        ensures file { IfOk result (λ outlet.
            create_gives name.now (Some (outlet_contents Self.Writer.contents outlet))) }
        ensures none { IfErr result (λ _. create_gives name.now None) }
    {
        self.create(name)
    }

    /// Opens the file of this name for reading, which doesn't wait for anything. A FIFO is opened for writing
    /// too: as long as it is held so, it has no end, and nobody waits who opens its other end.
    fn hold(&self, name: &str) -> io::Result<Self::Slow>;
}

/// The files of a run for one stream, with a count of those that were asked for, for contracts alone.
#[derive(Drop)]
pub struct StreamFiles<'f, F: Files> {
    files: &'f F,
    pub opened: u64,
    pub made: u64,
}

impl<'f, F: Files> StreamFiles<'f, F> {
    /// None was asked for yet.
    pub fn new(files: &'f F) -> StreamFiles<'f, F>
        ensures opened { result.opened ≡ 0 }
        ensures made { result.made ≡ 0 }
    {
        StreamFiles {
            files,
            opened: 0,
            made: 0,
        }
    }

    /// Opens a file, as `Files::open` does.
    pub fn open(&mut self, name: &str) -> io::Result<Inlet<F::Reader, F::Slow>>
        ensures opened { self.new.opened ≡ one_more self.old.opened }
        ensures made { self.new.made ≡ self.old.made }
        ensures file { IfOk result (λ inlet.
            F.open_gives name.now (Some (inlet_remaining F.Reader.remaining inlet))) }
        ensures none { IfErr result (λ _. F.open_gives name.now None) }
    {
        self.opened = self.opened.saturating_add(1);
        self.files.open(name)
    }

    /// Makes a file, as `Files::create` does.
    pub fn create(&mut self, name: &str) -> io::Result<Outlet<F::Writer, F::SlowWriter>>
        ensures opened { self.new.opened ≡ self.old.opened }
        ensures made { self.new.made ≡ one_more self.old.made }
        ensures file { IfOk result (λ outlet.
            F.create_gives name.now (Some (outlet_contents F.Writer.contents outlet))) }
        ensures none { IfErr result (λ _. F.create_gives name.now None) }
    {
        self.made = self.made.saturating_add(1);
        self.files.create(name)
    }
}
