//! Files that are opened or read on when the answer to a line is there.
ghost use Rattle.std.specs.Prelude.{⊤};

use super::script::{Answers, Asking, HELD, Late, Turn};
use super::{Talk, talks, text_by};
use crate::compare::same_at;
use crate::program::memory::{Made, Memory, Output};
use crate::program::serving::{A, A_INVERTED, holds};
use serve_files::{FileId, Files, Inlet, Outlet, Place};
use std::alloc::Global;
use std::io::{self, ErrorKind};
use std::process::Abort;
use std::sync::{Arc, Wait};
use std::thread::Threads;
use std::time::Clock;
use test_tools::streams::HEADER;

/// A file that is read by turns, one byte at a time, once this was answered.
pub type Later<'a> = (&'a str, &'a str, &'a [Turn<'a>]);

/// A file that is read by turns, of which a read may wait.
pub type Slow<'a> = (&'a str, &'static [Turn<'static>]);

/// A FIFO that isn't there before it is opened.
pub const MADE_LATER: &str = "later";

/// A FIFO that can be held the second time that it is tried.
pub const HELD_LATER: &str = "stubborn";

/// Files that are FIFOs. One that is held is opened too.
#[derive(Drop)]
pub struct Waiting<'a, T: Wait + Clock + Sync> {
    pub rt: &'a T,
    pub answers: &'a Arc<Answers, Global>,
    /// Those that are opened later.
    pub later: &'a [Later<'a>],
    /// Those of which a read may wait.
    pub slow: &'a [Slow<'a>],
    /// What is waited for by who opens any other, which isn't there.
    pub others: &'a str,
    pub made: Memory<'a, T>,
}

/// A number for each name.
fn number_of(name: &str) -> u64 {
    let mut number = 0u64;
    for byte in name.bytes() {
        number = number.wrapping_mul(257).wrapping_add(u64::from(byte));
    }
    number
}

impl<'a, T: Wait + Clock + Copy + Drop + Send + Sync + 'static> Files for Waiting<'a, T> {
    type Reader = Asking<'a, T>;

    type Slow = Late<T>;

    type Writer = Output<'a, T>;

    type SlowWriter = io::Sink;

    ghost place_gives = { λ _ _. ⊤ };

    ghost open_gives = { λ _ _. ⊤ };

    ghost create_gives = { λ _ _. ⊤ };

    /// What is written isn't there yet.
    fn place(&self, name: &str) -> Place {
        let is_unmade = name == MADE_LATER && !self.answers.is_awaited(self.rt);
        if name.ends_with(".out") || is_unmade {
            return Place::Missing;
        }
        Place::Pipe(FileId {
            device: 0,
            inode: number_of(name),
        })
    }

    fn open(&self, name: &str) -> io::Result<Inlet<Asking<'a, T>, Late<T>>> {
        if let Some((_, awaited, turns)) = self.later.iter().find(|file| file.0 == name) {
            self.answers.expect(self.rt, awaited);
            return Ok(Inlet::Prompt(Asking::of_file(self.rt, self.answers, turns)));
        }
        if let Some((_, turns)) = self.slow.iter().find(|file| file.0 == name) {
            return Ok(Inlet::Slow(Late::new(self.rt, self.answers, turns)?));
        }
        self.answers.wait(self.rt);
        self.answers.expect(self.rt, self.others);
        Err(io::Error::from(ErrorKind::NotFound))
    }

    /// A FIFO is made when it is held.
    fn create(&self, name: &str) -> io::Result<Outlet<Output<'a, T>, io::Sink>> {
        if !name.ends_with(".out") {
            self.answers.expect(self.rt, HELD);
        }
        self.made.create(name)
    }

    /// Who holds a file lets go those who wait for it.
    fn hold(&self, name: &str) -> io::Result<Late<T>> {
        let before = u64::from(name == HELD_LATER);
        if !self.answers.hold(self.rt, before) {
            return Err(io::Error::from(ErrorKind::PermissionDenied));
        }
        if let Some((_, turns)) = self.slow.iter().find(|file| file.0 == name) {
            return Late::new(self.rt, self.answers, turns);
        }
        Late::new(self.rt, self.answers, &[])
    }
}

/// Answers for those who share them.
pub fn shared_answers(rt: &impl Abort, alloc: Global, room: usize) -> Arc<Answers, Global> {
    Arc::new(alloc, Answers::new(alloc, room))
        .ok()
        .expect(rt, "was memory refused?")
}

/// Runs the program with a stream that is read by these turns once the answers have a part, and compares what
/// is written to it.
pub fn waits<R: Abort + Threads + Wait + Clock + Copy + Drop + Send + Sync + 'static>(
    rt: &R,
    alloc: Global,
    awaited: &str,
    turns: &[Turn<'_>],
    text: Option<&[u8]>,
    talk: Talk<'_>,
) {
    serves_fifos(
        rt,
        alloc,
        &[("a.in", awaited, turns), ("b.in", "", &[("", A)])],
        &[],
        text,
        talk,
    );
}

/// Runs the program with these FIFOs and outputs, and compares what it says and answers.
pub fn talks_of<'f, R: Abort + Threads + Wait + Clock + Copy + Drop + Send + Sync + 'static>(
    rt: &'f R,
    alloc: Global,
    answers: &'f Arc<Answers, Global>,
    later: &'f [Later<'f>],
    slow: &'f [Slow<'f>],
    others: &'f str,
    outputs: &'f [Made<'f>],
    talk: Talk<'_>,
) {
    let files = Waiting {
        rt,
        answers,
        later,
        slow,
        others,
        made: Memory::new(rt, &[], outputs),
    };
    talks(rt, alloc, &files, answers, talk);
}

/// Runs the program with these FIFOs, and compares what is written to the first stream's output.
pub fn serves_fifos<'f, R: Abort + Threads + Wait + Clock + Copy + Drop + Send + Sync + 'static>(
    rt: &'f R,
    alloc: Global,
    later: &'f [Later<'f>],
    slow: &'f [Slow<'f>],
    text: Option<&[u8]>,
    talk: Talk<'_>,
) {
    let answers = shared_answers(rt, alloc, talk.room);
    let outputs = [
        Made::new(alloc, "a.out", 32_768),
        Made::new(alloc, "b.out", 4096),
        Made::new(alloc, "a.to", 4096),
    ];
    talks_of(rt, alloc, &answers, later, slow, "", &outputs, talk);
    same_at(rt, *outputs[0].is_made.lock(rt), text.is_some(), talk.line);
    holds(rt, &outputs[0], text.unwrap_or(b""));
}

pub const ASK: Turn<'_> = ("", b"a:a.in:a.out:1:4:invert\n");

#[test]
fn one_that_waits_to_be_opened_holds_up_no_other(rt: HostRuntime) {
    let turns: [Turn<'_>; 3] = [
        ASK,
        ("", b"b:b.in:b.out:1:4:invert\n"),
        ("b accepted 3", b"end\n"),
    ];
    let answers = "b admitted\nb accepted 3 delivered 3 charged 3 stop whole\n\
                   a admitted\na accepted 3 delivered 3 charged 3 stop whole\nunits 6\n";
    let talk = Talk::new(&turns, answers);
    waits(
        &rt,
        rt.alloc(),
        "b accepted",
        &[("", A)],
        Some(A_INVERTED),
        talk,
    );
}

/// A header, and three frames when the moment is told.
const TOLD: &[Turn<'_>] = &[
    ("", HEADER),
    (
        "now ",
        b"FRAME\n\x00\x01\xFE\xFFFRAME\n\x10\x20\x30\x40FRAME\n\x7F\x80\x81\x82",
    ),
];

/// Before the first frame comes, a stream has its whole budget, and the deadline 0.
#[test]
fn it_is_told_how_a_stream_stands(rt: HostRuntime) {
    let turns: [Turn<'_>; 3] = [ASK, ("a admitted\n", b"state\n"), ("streams 1\n", b"end\n")];
    let answers = "a admitted\n\
                   a accepted 0 finished 0 collected 0 charged 0 budget 1 deadline 0\n\
                   shares 250000 of 2000000\nnow streams 1\n\
                   a accepted 3 delivered 3 charged 3 stop whole\nunits 3\n";
    let talk = Talk::new(&turns, answers);
    let slow: [Slow<'_>; 1] = [("a.in", TOLD)];
    serves_fifos(&rt, rt.alloc(), &[], &slow, Some(A_INVERTED), talk);
}

/// Both lines are answered. The stream gives no frame.
#[test]
fn it_is_told_twice_how_a_stream_stands(rt: HostRuntime) {
    let turns: [Turn<'_>; 3] = [
        ASK,
        ("a admitted\n", b"state\nstate\n"),
        ("streams 1\na accepted 0 finished 0", b"close a\nend\n"),
    ];
    let answers = "a admitted\n\
                   a accepted 0 finished 0 collected 0 charged 0 budget 1 deadline 0\n\
                   shares 250000 of 2000000\nnow streams 1\n\
                   a accepted 0 finished 0 collected 0 charged 0 budget 1 deadline 0\n\
                   shares 250000 of 2000000\nnow streams 1\n\
                   a accepted 0 delivered 0 charged 0 stop closed\nunits 0\n";
    let talk = Talk::new(&turns, answers);
    let slow: [Slow<'_>; 1] = [("a.in", &[("", HEADER), ("units ", b"")])];
    serves_fifos(&rt, rt.alloc(), &[], &slow, Some(HEADER), talk);
}

/// One that is being opened is told behind those that are served.
#[test]
fn it_is_told_which_streams_are_being_opened(rt: HostRuntime) {
    let turns: [Turn<'_>; 4] = [
        ("", b"b:b.in:b.out:1:4:invert\n"),
        ASK,
        ("a admitted\n", b"state\n"),
        ("streams 1\n", b"end\n"),
    ];
    let answers = "a admitted\n\
                   a accepted 0 finished 0 collected 0 charged 0 budget 1 deadline 0\nb opening\n\
                   shares 500000 of 2000000\nnow streams 1\na accepted 3 delivered 3 charged 3 stop whole\n\
                   b admitted\nb accepted 3 delivered 3 charged 3 stop whole\nunits 6\n";
    let talk = Talk::new(&turns, answers);
    let later: [Later<'_>; 1] = [("b.in", "a accepted 3", &[("", A)])];
    let slow: [Slow<'_>; 1] = [("a.in", TOLD)];
    serves_fifos(&rt, rt.alloc(), &later, &slow, Some(A_INVERTED), talk);
}

#[test]
fn the_end_waits_for_a_stream_that_is_being_opened(rt: HostRuntime) {
    let turns: [Turn<'_>; 2] = [ASK, ("", b"bad\nend\nbad\n")];
    let answers = "line 2: BadLine 'bad'\na admitted\n\
                   a accepted 3 delivered 3 charged 3 stop whole\nunits 3\n";
    let talk = Talk::new(&turns, answers);
    waits(
        &rt,
        rt.alloc(),
        "line 2",
        &[("", A)],
        Some(A_INVERTED),
        talk,
    );
}

/// The one that has all of the worker gives no frame. The other's output isn't made.
#[test]
fn a_stream_that_does_not_fit_is_told(rt: HostRuntime) {
    let turns: [Turn<'_>; 4] = [
        ("", b"b:b.in:b.out:1:1:invert\n"),
        ("b admitted\n", ASK.1),
        ("Overload\n", b"close b\n"),
        ("stop closed\n", b"end\n"),
    ];
    let answers = "b admitted\na accepted 0 delivered 0 charged 0 stop admit Overload\n\
                   b accepted 0 delivered 0 charged 0 stop closed\nunits 0\n";
    let talk = Talk {
        line: "serve --workers 1 --control -",
        ..Talk::new(&turns, answers)
    };
    let later: [Later<'_>; 1] = [("a.in", "", &[("", A)])];
    let slow: [Slow<'_>; 1] = [("b.in", &[("", HEADER), ("units ", b"")])];
    serves_fifos(&rt, rt.alloc(), &later, &slow, None, talk);
}

/// The lines of two writers, of which each writes parts of one. Behind the last they write nothing, and the
/// FIFO has no end.
const DOOR: &[Turn<'_>] = &[
    ("", b"close no"),
    ("", b"body\na:a.in:a.out:1:4:in"),
    ("NoStream", b"vert\n"),
    ("a accepted 3", b"e"),
    ("", b"nd\n"),
    ("units ", b""),
];

#[test]
fn a_control_may_be_a_fifo(rt: HostRuntime) {
    let answers = "line 1: NoStream 'close nobody'\na admitted\n\
                   a accepted 3 delivered 3 charged 3 stop whole\nunits 3\n";
    let talk = Talk {
        line: "serve --control door",
        ..Talk::new(&[], answers)
    };
    let later: [Later<'_>; 1] = [("a.in", "", &[("", A)])];
    let slow: [Slow<'_>; 1] = [("door", DOOR)];
    serves_fifos(&rt, rt.alloc(), &later, &slow, Some(A_INVERTED), talk);
}

/// How many bytes of answers are taken, and what was answered then.
const ROOMS: &[(usize, &str)] = &[(0, ""), (11, "a admitted\n"), (30, "a admitted\n")];

/// Behind the first line that can't be answered none is, and the stream is served to its end.
#[test]
fn streams_go_on_where_answers_fail(rt: HostRuntime) {
    let turns: [Turn<'_>; 2] = [ASK, ("", b"end\n")];
    for (room, answers) in ROOMS {
        let talk = Talk {
            room: *room,
            errors: "y4mserve: write\n",
            status: 1,
            ..Talk::new(&turns, answers)
        };
        waits(&rt, rt.alloc(), "", &[("", A)], Some(A_INVERTED), talk);
    }
}

/// Each is wrong by the first fault of its line while a stream waits to be opened, and changes nothing. The
/// fault is told with the line's first bytes.
const WRONG: &[(&str, &[u8])] = &[
    ("BadLine 'b:b.in:b.out:1:4'", b"b:b.in:b.out:1:4\n"),
    (
        "BadLine 'b:/dev/stdin:b.out:1:4:invert'",
        b"b:/dev/stdin:b.out:1:4:invert\n",
    ),
    ("BadLine 'close'", b"close\n"),
    ("BadLine '\\xFF\\x27\\x5C '", b"\xFF'\\ \n"),
    ("BadName 'a:a.in:a.out:0:4:bad'", b"a:a.in:a.out:0:4:bad\n"),
    ("BadFile 'b:a.in:b.out:0:4:bad'", b"b:a.in:b.out:0:4:bad\n"),
    ("BadFile 'b:b.in:a.out:0:4:bad'", b"b:b.in:a.out:0:4:bad\n"),
    ("BadFile 'b:b.in:a.in:0:4:bad'", b"b:b.in:a.in:0:4:bad\n"),
    ("BadFile 'b:b.in:b.in:0:4:bad'", b"b:b.in:b.in:0:4:bad\n"),
    (
        "BadFile 'b:b.in:/dev/stdout:0:4:bad'",
        b"b:b.in:/dev/stdout:0:4:bad\n",
    ),
    ("BadOp 'b:b.in:b.out:0:4:bad'", b"b:b.in:b.out:0:4:bad\n"),
    (
        "TooManyOps 'b:b.in:b.out:0:4:invert+invert+invert+invert+invert+invert+i'",
        b"b:b.in:b.out:0:4:invert+invert+invert+invert+invert+invert+invert+invert+invert\n",
    ),
    (
        "BadBandwidth 'b:b.in:b.out:0:4:invert'",
        b"b:b.in:b.out:0:4:invert\n",
    ),
    (
        "BadBandwidth 'b:b.in:b.out:5:4:invert'",
        b"b:b.in:b.out:5:4:invert\n",
    ),
    (
        "BadBandwidth 'b:b.in:b.out:1:1048577:invert'",
        b"b:b.in:b.out:1:1048577:invert\n",
    ),
    ("NoStream 'close b'", b"close b\n"),
    (
        "TooLong 'xxxxxxxxxxxxxxxxxxxxxxxxxxxxxxxxxxxxxxxxxxxxxxxxxxxxxxxxxxxx'",
        &[b'x'; 1025],
    ),
];

#[test]
fn a_wrong_line_changes_nothing(rt: HostRuntime) {
    for (fault, line) in WRONG {
        let turns: [Turn<'_>; 4] = [ASK, ("", *line), ("", b"\n"), ("line 2", b"end\n")];
        let mut room = [0; 256];
        let ends = "a admitted\na accepted 3 delivered 3 charged 3 stop whole\nunits 3\n";
        let answers = text_by(&rt, &mut room, format_args!("line 2: {fault}\n{ends}"));
        let talk = Talk::new(&turns, answers);
        waits(
            &rt,
            rt.alloc(),
            "line 2",
            &[("", A)],
            Some(A_INVERTED),
            talk,
        );
    }
}
