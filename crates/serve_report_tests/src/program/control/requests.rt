//! Streams that are asked for.
use super::script::Turn;
use super::{Talk, talks_by};
use crate::compare::same_at;
use crate::program::memory::{Made, Memory};
use crate::program::serving::{A, A_INVERTED, B, B_TURNED, given, holds};

/// One stream after the other, of one name and one file.
const TURNS: &[Turn<'_>] = &[
    ("", b"# none yet\n\na:a.y4m:a.out:1:2:invert\n"),
    ("stop whole\n", b"a:b.y4m:b.out:1:2:hflip+vflip\n"),
    ("charged 6 stop whole\n", b"a:a.y4m:a.out:1:2:invert\n"),
    ("", b"end\n"),
];

const ANSWERS: &str = "a admitted\na accepted 3 delivered 3 charged 3 stop whole\n\
                       a admitted\na accepted 3 delivered 3 charged 6 stop whole\n\
                       a admitted\na accepted 3 delivered 3 charged 3 stop whole\nunits 12\n";

#[test]
fn streams_come_one_after_the_other(rt: HostRuntime) {
    // The lines come in pieces of these sizes.
    for step in [1, 7, 4096] {
        let inputs = [given("a.y4m", A), given("b.y4m", B)];
        let outputs = [
            Made::new(rt.alloc(), "a.out", 4096),
            Made::new(rt.alloc(), "b.out", 4096),
        ];
        let files = Memory::new(&rt, &inputs, &outputs);
        let talk = Talk {
            step,
            ..Talk::new(TURNS, ANSWERS)
        };
        talks_by(&rt, rt.alloc(), &files, talk);
        holds(&rt, &outputs[1], B_TURNED);
        let twice = outputs[0].text.lock(&rt);
        let (first, second) = twice.split_at(twice.len().min(A_INVERTED.len()));
        same_at(&rt, (first, second), (A_INVERTED, A_INVERTED), "a.out");
    }
}

#[test]
fn those_of_the_words_are_the_first(rt: HostRuntime) {
    let inputs = [given("a.y4m", A), given("b.y4m", B)];
    let outputs = [
        Made::new(rt.alloc(), "a.out", 4096),
        Made::new(rt.alloc(), "b.out", 4096),
    ];
    let files = Memory::new(&rt, &inputs, &outputs);
    let turns: [Turn<'_>; 2] = [
        ("stop whole\n", b"b:b.y4m:b.out:1:2:hflip+vflip\n"),
        ("charged 6 stop whole\n", b"end"),
    ];
    let answers = "a admitted\na accepted 3 delivered 3 charged 3 stop whole\n\
                   b admitted\nb accepted 3 delivered 3 charged 6 stop whole\nunits 9\n";
    let talk = Talk {
        line: "serve --control - a:a.y4m:a.out:1:2:invert",
        ..Talk::new(&turns, answers)
    };
    talks_by(&rt, rt.alloc(), &files, talk);
    holds(&rt, &outputs[0], A_INVERTED);
    holds(&rt, &outputs[1], B_TURNED);
}

/// A stream that isn't whole counts for the status where the words asked for it.
#[test]
fn what_lines_ask_for_does_not_count_for_the_status(rt: HostRuntime) {
    let answers = "a accepted 0 delivered 0 charged 0 stop open\nunits 0\n";
    let by_line: [Turn<'_>; 1] = [("", b"a:none:a.out:1:2:invert\nend\n")];
    let of_words = Talk {
        line: "serve --control - a:none:a.out:1:2:invert",
        ..Talk::new(&[("", b"end\n")], answers).with_status(1)
    };
    for talk in [Talk::new(&by_line, answers), of_words] {
        talks_by(&rt, rt.alloc(), &Memory::new(&rt, &[], &[]), talk);
    }
}

/// The end of what is read is the end of the requests. Last bytes that aren't ended are no line.
#[test]
fn the_end_of_a_control_ends_it(rt: HostRuntime) {
    let ends = [
        ("", "units 0\n"),
        ("end", "units 0\n"),
        ("end\nbad\n", "units 0\n"),
        ("# a", "line 1: BadLine '# a'\nunits 0\n"),
        ("\nstate", "line 2: BadLine 'state'\nunits 0\n"),
    ];
    for (said, answers) in ends {
        let files = Memory::new(&rt, &[], &[]);
        talks_by(
            &rt,
            rt.alloc(),
            &files,
            Talk::new(&[("", said.as_bytes())], answers),
        );
    }
}
