//! A run that is ended or stopped.
use super::Talk;
use super::script::{HELD, Turn};
use super::waiting::{ASK, Slow, serves_fifos, shared_answers, talks_of};
use crate::program::memory::Made;
use crate::program::serving::holds;
use test_tools::streams::HEADER;

/// What is read of a stream that gives no frame.
const SILENT: Slow<'_> = ("a.in", &[("", HEADER), ("units ", b"")]);

/// One gives no frame, and nobody opens the other one's FIFO. Of standard input nothing is taken behind it.
#[test]
fn a_stop_closes_all_streams(rt: HostRuntime) {
    let turns: [Turn<'_>; 3] = [
        ("", b"b:fifo:b.out:1:4:invert\n"),
        ASK,
        ("a admitted\n", b"stop\nbad\n"),
    ];
    let wanted = "a admitted\na accepted 0 delivered 0 charged 0 stop closed\n\
                  b accepted 0 delivered 0 charged 0 stop closed\nunits 0\n";
    let answers = shared_answers(&rt, rt.alloc(), usize::MAX);
    let outputs = [Made::new(rt.alloc(), "a.out", 4096)];
    let slow: [Slow<'_>; 1] = [SILENT];
    let talk = Talk {
        is_ordered: false,
        ..Talk::new(&turns, wanted)
    };
    talks_of(&rt, rt.alloc(), &answers, &[], &slow, HELD, &outputs, talk);
    holds(&rt, &outputs[0], HEADER);
}

/// Lines behind an end, and behind a stop, which may be said again.
const DOOR: &[Turn<'_>] = &[
    ("", b"a:a.in:a.out:1:4:invert\n"),
    (
        "a admitted\n",
        b"end\nb:b.in:b.out:1:4:invert\nclose b\nstate\n",
    ),
    ("streams 1\n", b"end\nstop\nstop\n"),
    ("units ", b"bad\n"),
];

/// A FIFO's lines are taken until the last stream is over, but no stream is.
#[test]
fn lines_are_taken_behind_an_end(rt: HostRuntime) {
    let answers =
        "a admitted\nline 3: Ended 'b:b.in:b.out:1:4:invert'\nline 4: NoStream 'close b'\n\
                   a accepted 0 finished 0 collected 0 charged 0 budget 1 deadline 0\n\
                   shares 250000 of 2000000\nnow streams 1\n\
                   a accepted 0 delivered 0 charged 0 stop closed\nunits 0\n";
    let talk = Talk {
        line: "serve --control door",
        ..Talk::new(&[], answers)
    };
    let slow: [Slow<'_>; 2] = [SILENT, ("door", DOOR)];
    serves_fifos(&rt, rt.alloc(), &[], &slow, Some(HEADER), talk);
}

/// A line of which only a part comes before the run is over.
const PART: &[Turn<'_>] = &[
    ("", b"a:a.in:a.out:1:4:invert\n"),
    ("a admitted\n", b"stop\nclose "),
    ("units ", b"a\n"),
];

#[test]
fn a_part_of_a_line_is_none(rt: HostRuntime) {
    let talk = Talk {
        line: "serve --control door",
        ..Talk::new(
            &[],
            "a admitted\na accepted 0 delivered 0 charged 0 stop closed\nunits 0\n",
        )
    };
    let slow: [Slow<'_>; 2] = [SILENT, ("door", PART)];
    serves_fifos(&rt, rt.alloc(), &[], &slow, Some(HEADER), talk);
}
