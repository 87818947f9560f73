//! The files of the system.
ghost use Rattle.std.specs.Prelude.{⊤};

use serve_files::{FileId, Files, Inlet, Outlet, Place};
use std::array;
use std::fs::{self, File, Metadata, OpenOptions};
use std::io::{self, ErrorKind, IsTerminal, Write};
use std::os::fd::AsRawFd;
use std::os::unix::fs::{FileTypeExt, MetadataExt};
use std::sync::OnceLock;

/// The number of the last standard descriptor.
const LAST_STANDARD: i32 = 2;

/// The most files that are made in a run: one for each of its streams, and its trace.
const MOST_FILES: usize = 65;

/// The files of the system, by path.
///
/// Where the caller closed a standard descriptor, its number is kept from the files of streams, which would
/// else take it, so that a report would land in one of them. What is read from or written to it still fails.
///
/// `create` makes no file twice, by whatever names: two streams would write over each other, or over the
/// trace. It is seen before the file is emptied.
#[derive(Drop)]
pub struct HostFiles<'a> {
    rt: &'a HostRuntime,
    /// The folders that stand at the numbers of those that were closed.
    _kept: [Option<File>; 3],
    /// The files that were made, in the first of these places.
    made: [OnceLock<FileId>; MOST_FILES],
}

impl<'a> HostFiles<'a> {
    /// The files of the system, none of them made yet. From now on the number of each standard descriptor is
    /// taken that the caller closed.
    pub fn new(rt: &'a HostRuntime) -> HostFiles<'a> {
        HostFiles {
            rt,
            _kept: [keep(rt), keep(rt), keep(rt)],
            made: array::from_fn(|_| OnceLock::new()),
        }
    }

    /// Opens the file of this name for writing, or makes it. What was there before is kept yet.
    fn open_kept(&self, name: &str) -> io::Result<Output> {
        let file = OpenOptions::new()
            .write(true)
            .create(true)
            .open(self.rt, name)?;
        let is_kept = file.metadata()?.file_type().is_file();
        Ok(Output { file, is_kept })
    }

    /// Notes a file as made, or refuses one that was made before.
    fn note_made(&self, file: &File) -> io::Result<()> {
        let Place::File(id) = place_of(&file.metadata()?) else {
            return Ok(());
        };
        for place in &self.made {
            if place.try_set(id).is_ok() {
                return Ok(());
            }
            if place.get() == Some(&id) {
                return Err(io::Error::from(ErrorKind::AlreadyExists));
            }
        }
        Ok(())
    }
}

/// A file that is written.
#[derive(Drop)]
pub struct Output {
    file: File,
    /// Whether the bytes that were there before are there yet.
    is_kept: bool,
}

impl Output {
    /// Lets the bytes go that were there before.
    fn empty(&mut self) -> io::Result<()> {
        if self.is_kept {
            self.file.set_len(0)?;
            self.is_kept = false;
        }
        Ok(())
    }
}

impl Write for Output {
    fn write(&mut self, buf: &[u8]) -> io::Result<usize> {
        self.empty()?;
        self.file.write(buf)
    }

    fn flush(&mut self) -> io::Result<()> {
        self.file.flush()
    }
}

/// A file that is written, by whether a write may wait.
fn outlet_of(output: Output) -> Outlet<Output, Output> {
    if may_be_full(&output.file) {
        Outlet::Slow(output)
    } else {
        Outlet::Prompt(output)
    }
}

/// A folder at the lowest number that is free, if that is a standard descriptor's.
fn keep(rt: &HostRuntime) -> Option<File> {
    let folder = fs::open(rt, "/").ok()?;
    if folder.as_raw_fd() > LAST_STANDARD {
        return None;
    }
    Some(folder)
}

/// Whether a write to the file may wait for who reads: to a FIFO, a socket or a terminal. Other devices, as
/// `/dev/null`, aren't waited for.
fn may_be_full(file: &File) -> bool {
    match file.metadata() {
        Ok(metadata) => {
            let kind = metadata.file_type();
            kind.is_fifo() || kind.is_socket() || file.is_terminal()
        }
        Err(_) => true,
    }
}

/// Whether a read of the file may wait for what isn't there yet: of a FIFO, a socket or a character device,
/// be it a terminal or another.
fn may_wait(file: &File) -> bool {
    match file.metadata() {
        Ok(metadata) => {
            let kind = metadata.file_type();
            kind.is_fifo() || kind.is_socket() || kind.is_char_device()
        }
        Err(_) => true,
    }
}

/// Whether the file is a folder, which can be opened, but not read.
fn is_folder(file: &File) -> bool {
    match file.metadata() {
        Ok(metadata) => metadata.file_type().is_dir(),
        Err(_) => false,
    }
}

/// What stands behind a name that is there.
fn place_of(metadata: &Metadata) -> Place {
    let id = FileId {
        device: metadata.dev(),
        inode: metadata.ino(),
    };
    let kind = metadata.file_type();
    if kind.is_fifo() {
        Place::Pipe(id)
    } else if kind.is_file() || kind.is_block_device() {
        Place::File(id)
    } else {
        Place::Shared
    }
}

impl Files for HostFiles<'_> {
    type Reader = File;

    type Slow = File;

    type Writer = Output;

    type SlowWriter = Output;

    ghost place_gives = { λ _ _. ⊤ };

    ghost open_gives = { λ _ _. ⊤ };

    ghost create_gives = { λ _ _. ⊤ };

    fn place(&self, name: &str) -> Place {
        match fs::metadata(self.rt, name) {
            Ok(metadata) => place_of(&metadata),
            Err(error) if error.kind() == ErrorKind::NotFound => Place::Missing,
            Err(_) => Place::Shared,
        }
    }

    fn open(&self, name: &str) -> io::Result<Inlet<File, File>> {
        let file = fs::open(self.rt, name)?;
        if is_folder(&file) {
            return Err(io::Error::from(ErrorKind::IsADirectory));
        }
        if may_wait(&file) {
            Ok(Inlet::Slow(file))
        } else {
            Ok(Inlet::Prompt(file))
        }
    }

    fn create(&self, name: &str) -> io::Result<Outlet<Output, Output>> {
        let mut output = self.open_kept(name)?;
        self.note_made(&output.file)?;
        output.empty()?;
        Ok(outlet_of(output))
    }

    fn make(&self, name: &str) -> io::Result<Outlet<Output, Output>> {
        let output = self.open_kept(name)?;
        Ok(outlet_of(output))
    }

    fn hold(&self, name: &str) -> io::Result<File> {
        let kind = fs::metadata(self.rt, name)?.file_type();
        if kind.is_dir() {
            return Err(io::Error::from(ErrorKind::IsADirectory));
        }
        OpenOptions::new()
            .read(true)
            .write(kind.is_fifo())
            .open(self.rt, name)
    }
}
