//! Shares of the workers, in the order of the lines, and who holds them.
use super::Talk;
use super::script::{HELD, PAUSED, Turn};
use super::waiting::{Later, Slow, shared_answers, talks_of};
use crate::program::memory::Made;
use crate::program::serving::{A, A_INVERTED, holds};
use std::alloc::Global;
use std::process::Abort;
use std::sync::Wait;
use std::thread::Threads;
use std::time::Clock;
use test_tools::streams::HEADER;

/// A stream that gives no frame.
const SILENT: &[Turn<'_>] = &[("", HEADER), ("units ", b"")];

/// Runs the program with a file that is there at once, one that is there late, and one that is silent, and
/// compares what it answers, and what is written at last.
fn shares<R: Abort + Threads + Wait + Clock + Copy + Drop + Send + Sync + 'static>(
    rt: &R,
    alloc: Global,
    awaited: &str,
    written: &[u8],
    talk: Talk<'_>,
) {
    let answers = shared_answers(rt, alloc, talk.room);
    let later: [Later<'_>; 2] = [("a.in", "", &[("", A)]), ("late.in", awaited, &[("", A)])];
    let slow: [Slow<'_>; 1] = [("silent.in", SILENT)];
    let outputs = [
        Made::new(alloc, "last.out", 4096),
        Made::new(alloc, "a.out", 4096),
        Made::new(alloc, "c.out", 4096),
    ];
    talks_of(rt, alloc, &answers, &later, &slow, "", &outputs, talk);
    holds(rt, &outputs[0], written);
}

/// A moment is a second, so shares are held for a thousand, from the first frame's on. Where no stream is
/// left none is.
#[test]
fn it_is_told_who_holds_shares(rt: HostRuntime) {
    let turns: [Turn<'_>; 6] = [
        ("", b"c:silent.in:c.out:10:1000:invert\n"),
        ("c admitted\n", b"a:a.in:a.out:450:1000:hflip+vflip\n"),
        (
            "charged 6 stop whole\n",
            b"a:a.in:last.out:440:1000:invert\n",
        ),
        ("charged 3 stop whole\n", b"state\n"),
        ("streams 1\n", b"close c\n"),
        ("stop closed\n", b"state\nend\n"),
    ];
    let answers = "c admitted\na admitted\na accepted 3 delivered 3 charged 6 stop whole\n\
                   a admitted\na accepted 3 delivered 3 charged 3 stop whole\n\
                   c accepted 0 finished 0 collected 0 charged 0 budget 10 deadline 0\n\
                   a held 450:1000 until 10\na held 440:1000 until 10\n\
                   shares 900000 of 1000000\nnow streams 1\n\
                   c accepted 0 delivered 0 charged 0 stop closed\n\
                   shares 0 of 1000000\nnow streams 0\nunits 9\n";
    let talk = Talk {
        line: "serve --workers 1 --moment 1000000 --control -",
        ..Talk::new(&turns, answers)
    };
    shares(&rt, rt.alloc(), "", A_INVERTED, talk);
}

/// A moment is 3 milliseconds, so the share of the first is held for 3 seconds. No file of the second is
/// opened: there is none.
#[test]
fn a_share_is_free_when_its_deadline_has_passed(rt: HostRuntime) {
    let turns: [Turn<'_>; 6] = [
        ("", b"c:silent.in:c.out:10:1000:invert\n"),
        ("c admitted\n", b"a:a.in:a.out:900:1000:hflip+vflip\n"),
        ("a accepted 3", b"b:none:none.out:900:1000:invert\n"),
        (PAUSED, b"a:a.in:last.out:900:1000:invert\n"),
        ("charged 3 stop whole\n", b"close c\n"),
        ("stop closed\n", b"end\n"),
    ];
    let answers = "c admitted\na admitted\na accepted 3 delivered 3 charged 6 stop whole\n\
                   b accepted 0 delivered 0 charged 0 stop admit Overload\n\
                   a admitted\na accepted 3 delivered 3 charged 3 stop whole\n\
                   c accepted 0 delivered 0 charged 0 stop closed\nunits 9\n";
    let talk = Talk {
        line: "serve --workers 1 --moment 3000 --control -",
        ..Talk::new(&turns, answers)
    };
    shares(&rt, rt.alloc(), "", A_INVERTED, talk);
}

/// The first one's FIFO is opened when the other was told, whose file is there.
#[test]
fn the_first_line_takes_the_share(rt: HostRuntime) {
    let turns: [Turn<'_>; 2] = [
        (
            "",
            b"a:late.in:last.out:600:1000:invert\nb:a.in:a.out:600:1000:invert\n",
        ),
        ("charged 3 stop whole\n", b"end\n"),
    ];
    let answers = "b accepted 0 delivered 0 charged 0 stop admit Overload\n\
                   a admitted\na accepted 3 delivered 3 charged 3 stop whole\nunits 3\n";
    let talk = Talk {
        line: "serve --workers 1 --control -",
        ..Talk::new(&turns, answers)
    };
    shares(&rt, rt.alloc(), "Overload\n", A_INVERTED, talk);
}

/// One that waited for its FIFO gives its share back when it is closed.
#[test]
fn a_closed_stream_keeps_no_share(rt: HostRuntime) {
    let turns: [Turn<'_>; 3] = [
        (
            "",
            b"b:late.in:b.out:1:1:invert\na:a.in:a.out:1:4:invert\nclose b\n",
        ),
        ("stop closed\n", b"a:a.in:last.out:1:1:invert\n"),
        ("charged 3 stop whole\n", b"end\n"),
    ];
    let answers = "a accepted 0 delivered 0 charged 0 stop admit Overload\n\
                   b accepted 0 delivered 0 charged 0 stop closed\n\
                   a admitted\na accepted 3 delivered 3 charged 3 stop whole\nunits 3\n";
    let talk = Talk {
        line: "serve --workers 1 --control -",
        ..Talk::new(&turns, answers)
    };
    shares(&rt, rt.alloc(), HELD, A_INVERTED, talk);
}
