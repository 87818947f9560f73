//! Outputs whose writes may wait.
ghost use Rattle.std.specs.Prelude.{⊤};

use super::given;
use crate::compare::same_at;
use crate::program::memory::{Given, Made, Memory, Output};
use crate::program::{words_of, written};
use serve_files::{Files, Inlet, Outlet, Place};
use serve_report::main_on;
use std::alloc::Global;
use std::io::{self, ErrorKind, Write};
use std::process::Abort;
use std::sync::{Arc, Mutex, Wait};
use std::thread::Threads;
use std::time::Clock;
use test_tools::streams::{THREE, THREE_INVERTED, numbered};
use test_tools::{Parts, Tape};

const REFUSED: &str = "was a thread or its memory refused?";

/// The length of a header line.
const HEADER: usize = 22;

/// What an output of which writes may wait came to.
#[derive(Drop)]
struct Kept {
    /// How many bytes a write takes, and how many all take.
    step: usize,
    most: usize,
    /// Whether its first image waits until another output is whole.
    waits: bool,
    parts: Parts,
    text: Mutex<Vec<u8>>,
}

impl Kept {
    fn new(alloc: Global, step: usize, most: usize, waits: bool) -> Kept {
        Kept {
            step,
            most,
            waits,
            parts: Parts::new(),
            text: Mutex::new(Vec::new(alloc)),
        }
    }
}

/// Writes to one that is kept.
#[derive(Drop)]
struct Late<T: Wait> {
    rt: T,
    kept: Arc<Kept>,
}

impl<T: Wait> Write for Late<T> {
    fn write(&mut self, buf: &[u8]) -> io::Result<usize> {
        let before = self.kept.text.lock(&self.rt).len();
        if self.kept.waits && before == HEADER {
            self.kept.parts.meet(0);
        }
        let left = self.kept.most.saturating_sub(before);
        let n = buf.len().min(self.kept.step).min(left);
        if n == 0 && !buf.is_empty() {
            return Err(io::Error::from(ErrorKind::Other));
        }
        self.kept.text.lock(&self.rt).write(&buf[..n])
    }

    fn flush(&mut self) -> io::Result<()> {
        Ok(())
    }
}

/// Writes to another one, which tells when it is whole.
#[derive(Drop)]
struct Whole<'a, T: Wait + Sync> {
    output: Output<'a, T>,
    left: usize,
    kept: &'a Arc<Kept>,
}

impl<T: Wait + Sync> Write for Whole<'_, T> {
    fn write(&mut self, buf: &[u8]) -> io::Result<usize> {
        let taken = self.output.write(buf)?;
        self.left = self.left.saturating_sub(taken);
        if self.left == 0 {
            self.kept.parts.meet(1);
        }
        Ok(taken)
    }

    fn flush(&mut self) -> io::Result<()> {
        self.output.flush()
    }
}

/// Files of which one's writes may wait, `a.out`, and the others have so many bytes once they are whole.
#[derive(Drop)]
struct Standing<'a, T: Wait + Sync> {
    rt: &'a T,
    files: Memory<'a, T>,
    whole: usize,
    kept: &'a Arc<Kept>,
}

impl<'a, T: Wait + Copy + Drop + Send + Sync + 'static> Files for Standing<'a, T> {
    type Reader = Tape<'a>;

    type Slow = Tape<'static>;

    type Writer = Whole<'a, T>;

    type SlowWriter = Late<T>;

    ghost place_gives = { λ _ _. ⊤ };

    ghost open_gives = { λ _ _. ⊤ };

    ghost create_gives = { λ _ _. ⊤ };

    fn place(&self, _name: &str) -> Place {
        Place::Shared
    }

    fn open(&self, name: &str) -> io::Result<Inlet<Tape<'a>, Tape<'static>>> {
        self.files.open(name)
    }

    fn create(&self, name: &str) -> io::Result<Outlet<Whole<'a, T>, Late<T>>> {
        if name == "a.out" {
            let Ok(kept) = Arc::try_clone(self.kept) else {
                return Err(io::Error::from(ErrorKind::OutOfMemory));
            };
            return Ok(Outlet::Slow(Late { rt: *self.rt, kept }));
        }
        match self.files.create(name)? {
            Outlet::Prompt(output) => Ok(Outlet::Prompt(Whole {
                output,
                left: self.whole,
                kept: self.kept,
            })),
            Outlet::Slow(_) => Err(io::Error::from(ErrorKind::Other)),
        }
    }

    fn hold(&self, name: &str) -> io::Result<Tape<'static>> {
        self.files.hold(name)
    }
}

/// Runs the program with these words, this standard input, and these inputs and outputs, and answers its
/// status and how much is left of the room for what it reports.
fn runs_late<T: Abort + Threads + Wait + Clock + Copy + Drop + Send + Sync + 'static>(
    rt: &T,
    alloc: Global,
    line: &str,
    lines: &[u8],
    inputs: &[Given<'_>],
    outputs: &[Made<'_>],
    whole: usize,
    kept: &Arc<Kept>,
    room: &mut [u8],
) -> (u8, usize) {
    let files = Standing {
        rt,
        files: Memory::new(rt, inputs, outputs),
        whole,
        kept,
    };
    let words = words_of(alloc, line).expect(rt, line);
    let mut faults = [0; 64];
    let mut errors = faults.as_mut_slice();
    let mut report = &mut *room;
    let status = main_on(rt, alloc, &words, lines, &mut report, &mut errors, &files);
    (status, report.len())
}

/// The same of words that ask for the streams, and compares its report.
fn serves_late<T: Abort + Threads + Wait + Clock + Copy + Drop + Send + Sync + 'static>(
    rt: &T,
    alloc: Global,
    line: &str,
    inputs: &[Given<'_>],
    outputs: &[Made<'_>],
    whole: usize,
    kept: &Arc<Kept>,
    expected: &str,
) {
    let mut room = [0; 256];
    let (_, left) = runs_late(
        rt, alloc, line, b"", inputs, outputs, whole, kept, &mut room,
    );
    let report = str::from_utf8(written(&room, left)).ok();
    same_at(rt, report, Some(expected), line);
}

/// The one whose writes may wait stands still within its first image until the other's last one is out, over
/// many epochs.
#[test]
fn an_output_that_stands_still_holds_up_no_other(rt: HostRuntime) {
    let (text, images) = numbered(rt.alloc(), 60).expect(&rt, REFUSED);
    let inputs = [given("a.y4m", THREE), given("b.y4m", &text)];
    let outputs = [Made::new(rt.alloc(), "b.out", 4096)];
    let kept = Kept::new(rt.alloc(), 99, 4096, true);
    let kept = Arc::new(rt.alloc(), kept).expect(&rt, REFUSED);
    serves_late(
        &rt,
        rt.alloc(),
        "serve --journal 66 a:a.y4m:a.out:1:2:invert b:b.y4m:b.out:1:2:invert",
        &inputs,
        &outputs,
        images.len(),
        &kept,
        "a accepted 3 delivered 3 charged 3 stop whole\n\
         b accepted 60 delivered 60 charged 60 stop whole\nunits 63\n",
    );
    same_at(&rt, kept.parts.met(), 2, REFUSED);
    same_at(
        &rt,
        outputs[0].text.lock(&rt).as_slice(),
        &images,
        "the other",
    );
    same_at(
        &rt,
        kept.text.lock(&rt).as_slice(),
        THREE_INVERTED,
        "the one",
    );
}

/// The same of streams that a control asks for.
#[test]
fn an_output_that_a_control_asks_for_holds_up_no_other(rt: HostRuntime) {
    let (text, images) = numbered(rt.alloc(), 60).expect(&rt, REFUSED);
    let inputs = [given("a.y4m", THREE), given("b.y4m", &text)];
    let outputs = [Made::new(rt.alloc(), "b.out", 4096)];
    let kept = Kept::new(rt.alloc(), 99, 4096, true);
    let kept = Arc::new(rt.alloc(), kept).expect(&rt, REFUSED);
    let mut room = [0; 512];
    let (status, _) = runs_late(
        &rt,
        rt.alloc(),
        "serve --control -",
        b"a:a.y4m:a.out:1:2:invert\nb:b.y4m:b.out:1:2:invert\nend\n",
        &inputs,
        &outputs,
        images.len(),
        &kept,
        &mut room,
    );
    same_at(&rt, (status, kept.parts.met()), (0, 2), REFUSED);
    same_at(
        &rt,
        outputs[0].text.lock(&rt).as_slice(),
        &images,
        "the other",
    );
    same_at(
        &rt,
        kept.text.lock(&rt).as_slice(),
        THREE_INVERTED,
        "the one",
    );
}

/// How many bytes a write takes, how many all take, and what is reported then.
const TAKEN: &[(usize, usize, &str)] = &[
    (
        1,
        4096,
        "a accepted 3 delivered 3 charged 3 stop whole\nunits 3\n",
    ),
    (
        5,
        4096,
        "a accepted 3 delivered 3 charged 3 stop whole\nunits 3\n",
    ),
    (
        99,
        22,
        "a accepted 3 delivered 0 charged 3 stop write 22\nunits 3\n",
    ),
    (
        1,
        37,
        "a accepted 3 delivered 1 charged 3 stop write 37\nunits 3\n",
    ),
    (
        3,
        51,
        "a accepted 3 delivered 2 charged 3 stop write 51\nunits 3\n",
    ),
];

/// What goes out of one whose writes may wait is what goes out of any, and so is what is told.
#[test]
fn an_output_that_may_wait_is_written_as_others_are(rt: HostRuntime) {
    for (step, most, report) in TAKEN {
        let kept = Kept::new(rt.alloc(), *step, *most, false);
        let kept = Arc::new(rt.alloc(), kept).expect(&rt, REFUSED);
        serves_late(
            &rt,
            rt.alloc(),
            "serve a:a.y4m:a.out:1:2:invert",
            &[given("a.y4m", THREE)],
            &[],
            0,
            &kept,
            report,
        );
        let end = THREE_INVERTED.len().min(*most);
        same_at(
            &rt,
            kept.text.lock(&rt).as_slice(),
            &THREE_INVERTED[..end],
            report,
        );
    }
}
