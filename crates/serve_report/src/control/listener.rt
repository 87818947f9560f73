//! What the lines of a control are read from.
ghost use Rattle.std.specs.Io.{ReadsAtMost};

use super::pieces::{HEAD, Pieces, length_of};
use serve_files::{Files, Inflow, Inlet, inflow_of};
use std::alloc::Global;
use std::io::{self, Empty, Read};
use std::sync::Wait;
use std::sync::atomic::{AtomicBool, Ordering};
use std::thread::Threads;
use std::time::Clock;
use y4m_stream::Wanted;

/// For how many milliseconds it is waited for bytes before it is looked whether the run is over.
const PATIENCE: u64 = 50;

/// A control that is standard input.
const INPUT: &str = "-";

/// The file of standard input.
const STANDARD_INPUT: &str = "/dev/stdin";

/// A reader, or a file that was opened for lines.
#[derive(Drop)]
pub enum Origin<I: Read, S> {
    Input(I),
    File(S),
}

/// The file from which a control's lines come, and what they are read from.
#[derive(Drop)]
pub struct Lines<'c, I: Read, S> {
    pub file: &'c str,
    pub origin: Origin<I, S>,
}

impl<'c, I: Read, S> Lines<'c, I, S> {
    /// Whether the control is standard input.
    pub fn is_input(&self) -> bool {
        matches!(self.origin, Origin::Input(_))
    }
}

/// The file from which a control's lines come.
pub fn lines_file(control: &str) -> &str {
    if control == INPUT {
        STANDARD_INPUT
    } else {
        control
    }
}

/// The lines of a control, whose file is opened. The input is that of the program.
pub fn lines_of<'c, I: Read + Drop, F: Files>(
    control: &'c str,
    input: I,
    files: &F,
) -> io::Result<Lines<'c, I, F::Slow>> {
    let file = lines_file(control);
    if control == INPUT {
        let origin = Origin::Input(input);
        return Ok(Lines { file, origin });
    }
    let origin = Origin::File(files.hold(control)?);
    Ok(Lines { file, origin })
}

/// A file that is taken piece by piece.
#[derive(Drop)]
struct Taken<S: Read + Drop, T: Wait + Drop> {
    inflow: Inflow<Empty, Pieces<S>, T>,
    /// How many bytes of the last piece are left.
    left: usize,
}

impl<S: Read + Drop, T: Wait + Clock + Drop> Taken<S, T> {
    /// Waits until a piece is there, or the end or a fault. False where the run is over.
    fn awaits(&self, rt: &T, is_over: &AtomicBool) -> bool {
        for _ in rt.forever() {
            if is_over.load(Ordering::SeqCst) {
                return false;
            }
            if self.inflow.is_ready(PATIENCE, Wanted::data(HEAD)) {
                return true;
            }
        }
        unreachable!()
    }

    /// Takes the length of the next piece. No byte is left where none comes.
    fn begin_piece(&mut self) -> io::Result<()> {
        let mut told = [0; HEAD];
        if self.inflow.read(&mut told)? == HEAD {
            self.left = length_of(told);
        }
        Ok(())
    }

    /// Takes what is left of a piece, or a part of it.
    fn take(&mut self, buf: &mut [u8]) -> io::Result<usize>
        ensures { ReadsAtMost result buf.new }
    {
        let most = buf.len().min(self.left);
        let count = self.inflow.read(&mut buf[..most])?;
        self.left -= count;
        Ok(count)
    }
}

/// Where lines come from.
#[derive(Drop)]
enum Way<I: Read, S: Read + Drop, T: Wait + Drop> {
    Input(I),
    File(Taken<S, T>),
}

/// A reader that comes to its end where the run is over. Where it can't be told that a read would wait, that
/// is seen before the next read.
#[derive(Drop)]
pub struct Listener<'r, 'f, I: Read, S: Read + Drop, T: Wait + Clock + Drop> {
    rt: &'r T,
    way: Way<I, S, T>,
    is_over: &'f AtomicBool,
}

impl<'r, 'f, I, S, T> Listener<'r, 'f, I, S, T>
where
    I: Read,
    S: Read + Drop + Send + 'static,
    T: Threads + Wait + Clock + Copy + Drop + Send + 'static,
{
    /// Nothing is read yet.
    pub fn new(
        rt: &'r T,
        alloc: Global,
        origin: Origin<I, S>,
        is_over: &'f AtomicBool,
    ) -> Listener<'r, 'f, I, S, T> {
        let way = match origin {
            Origin::Input(input) => Way::Input(input),
            Origin::File(file) => Way::File(Taken {
                inflow: inflow_of(rt, alloc, Inlet::Slow(Pieces::new(file))),
                left: 0,
            }),
        };
        Listener { rt, way, is_over }
    }
}

impl<I: Read, S: Read + Drop, T: Wait + Clock + Drop> Read for Listener<'_, '_, I, S, T> {
    fn read(&mut self, buf: &mut [u8]) -> io::Result<usize> {
        match &mut self.way {
            Way::Input(_) if self.is_over.load(Ordering::SeqCst) => Ok(0),
            Way::Input(input) => input.read(buf),
            Way::File(file) => {
                if file.left == 0 {
                    if !file.awaits(self.rt, self.is_over) {
                        return Ok(0);
                    }
                    file.begin_piece()?;
                }
                file.take(buf)
            }
        }
    }
}
