//! Streams that are opened side by side.
ghost use Rattle.std.specs.Prelude.{⊤};

use super::{A, A_INVERTED, B, B_TURNED, TWO, given, holds};
use crate::compare::same_at;
use crate::program::memory::{Made, Memory, Output};
use crate::program::{words_of, written};
use serve_files::{Files, Inlet, Outlet, Place};
use serve_report::main_on;
use std::io;
use std::sync::Wait;
use test_tools::{Parts, Tape};

/// Files of which each input is opened once the other's opening has begun.
#[derive(Drop)]
struct Meeting<'a, T: Wait + Sync> {
    files: Memory<'a, T>,
    parts: Parts,
}

impl<'a, T: Wait + Sync> Files for Meeting<'a, T> {
    type Reader = Tape<'a>;

    type Slow = Tape<'static>;

    type Writer = Output<'a, T>;

    type SlowWriter = io::Sink;

    ghost place_gives = { λ _ _. ⊤ };

    ghost open_gives = { λ _ _. ⊤ };

    ghost create_gives = { λ _ _. ⊤ };

    fn place(&self, _name: &str) -> Place {
        Place::Shared
    }

    fn open(&self, name: &str) -> io::Result<Inlet<Tape<'a>, Tape<'static>>> {
        self.parts.meet(if name == "a.y4m" { 0 } else { 1 });
        self.files.open(name)
    }

    fn create(&self, name: &str) -> io::Result<Outlet<Output<'a, T>, io::Sink>> {
        self.files.create(name)
    }

    fn hold(&self, name: &str) -> io::Result<Tape<'static>> {
        self.files.hold(name)
    }
}

const REFUSED: &str = "was a thread or its memory refused?";

/// The report has the words' order.
const REPORT: &str = "a accepted 3 delivered 3 charged 3 stop whole\n\
                      b accepted 3 delivered 3 charged 6 stop whole\nunits 9\n";

#[test]
fn streams_are_opened_side_by_side(rt: HostRuntime) {
    let words = words_of(rt.alloc(), TWO).expect(&rt, TWO);
    let inputs = [given("a.y4m", A), given("b.y4m", B)];
    let outputs = [
        Made::new(rt.alloc(), "a.out", 4096),
        Made::new(rt.alloc(), "b.out", 4096),
    ];
    let files = Meeting {
        files: Memory::new(&rt, &inputs, &outputs),
        parts: Parts::new(),
    };
    let (mut room, mut faults) = ([0; 256], [0; 64]);
    let (mut report, mut errors) = (room.as_mut_slice(), faults.as_mut_slice());
    let input = b"".as_slice();
    let status = main_on(
        &rt,
        rt.alloc(),
        &words,
        input,
        &mut report,
        &mut errors,
        &files,
    );
    let left = report.len();
    same_at(&rt, status, 0, REFUSED);
    let report = str::from_utf8(written(&room, left)).ok();
    same_at(&rt, report, Some(REPORT), "the report");
    holds(&rt, &outputs[0], A_INVERTED);
    holds(&rt, &outputs[1], B_TURNED);
    same_at(&rt, files.parts.met(), 2, REFUSED);
}
