//! Streams that come, whatever growth is refused: `bench/growths` refuses each in turn.
use super::script::{Answering, Answers, Asking, HELD, Turn};
use super::waiting::{Later, Waiting, shared_answers};
use crate::compare::same_at;
use crate::program::memory::{Made, Memory};
use crate::program::serving::growths::{A_WHOLE, B_WHOLE, holds_front, is_whole, roomy};
use crate::program::serving::{A, B, given};
use crate::program::{words_of, written};
use serve_report::main_on;
use std::alloc::Global;
use std::process::Abort;
use std::sync::{Arc, Wait};
use std::thread::Threads;
use std::time::Clock;

const LINES: &[u8] = b"a:a.y4m:a.out:1:2:invert\nb:b.y4m:b.out:1:2:hflip+vflip\nend\n";

/// What may be said, where no stream need be told: the last also where there is no thread to take lines with.
const SAID: &[&str] = &["y4mserve: NoMemory\n", "y4mserve: session NoMemory\n"];

/// The line by which a stream ends.
fn end_of<'a>(answers: &'a str, front: &str) -> &'a str {
    for line in answers.lines() {
        if line.starts_with(front) {
            return line;
        }
    }
    ""
}

/// Each stream is told, and is whole or stops for want of memory, or there was no memory to serve with.
fn are_told<R: Abort + Wait>(rt: &R, answers: &str, said: &str, files: &[Made<'_>; 2], status: u8) {
    if !said.is_empty() {
        same_at(rt, (SAID.contains(&said), status), (true, 1), said);
        return;
    }
    // What lines asked for doesn't count for the status, however it ends.
    is_whole(rt, end_of(answers, A_WHOLE.front), &files[0], A_WHOLE);
    is_whole(rt, end_of(answers, B_WHOLE.front), &files[1], B_WHOLE);
    same_at(rt, status, 0, answers);
}

#[test]
fn a_refused_growth_is_told_of_its_stream(rt: HostRuntime) {
    let inputs = [given("a.y4m", A), given("b.y4m", B)];
    let outputs = [
        roomy(&rt, rt.alloc(), "a.out"),
        roomy(&rt, rt.alloc(), "b.out"),
    ];
    let files = Memory::new(&rt, &inputs, &outputs);
    let line = "serve --control -";
    let words = words_of(rt.alloc(), line).expect(&rt, line);
    let (mut room, mut faults) = ([0; 512], [0; 512]);
    let (mut output, mut errors) = (room.as_mut_slice(), faults.as_mut_slice());
    let status = main_on(
        &rt,
        rt.alloc(),
        &words,
        LINES,
        &mut output,
        &mut errors,
        &files,
    );
    let (left, unsaid) = (output.len(), errors.len());
    let answers = str::from_utf8(written(&room, left)).expect(&rt, "the answers are no text");
    let said = str::from_utf8(written(&faults, unsaid)).expect(&rt, "what is said is no text");
    holds_front(&rt, &outputs[0], A_WHOLE);
    holds_front(&rt, &outputs[1], B_WHOLE);
    are_told(&rt, answers, said, &outputs, status);
}

/// The first is never opened, and the other one is served; lines that ask for no other.
const WAITING: &[Turn<'_>] = &[
    ("", b"a:fifo:a.out:1:2:invert\nb:b.in:b.out:1:2:invert\n"),
    ("b accepted", b"close a\nend\n"),
];

/// Runs the program with such lines, and compares what is said, and its status.
fn ends<'f, R: Abort + Threads + Wait + Clock + Copy + Drop + Send + Sync + 'static>(
    rt: &'f R,
    alloc: Global,
    answers: &'f Arc<Answers, Global>,
    later: &'f [Later<'f>],
    outputs: &'f [Made<'f>],
) {
    let files = Waiting {
        rt,
        answers,
        later,
        slow: &[],
        others: HELD,
        made: Memory::new(rt, &[], outputs),
    };
    let line = "serve --control -";
    let words = words_of(alloc, line).expect(rt, line);
    let mut faults = [0; 512];
    let mut errors = faults.as_mut_slice();
    let input = Asking::new(rt, answers, WAITING, usize::MAX);
    let mut output = Answering {
        rt,
        answers,
        awaited: "",
    };
    let status = main_on(rt, alloc, &words, input, &mut output, &mut errors, &files);
    let unsaid = errors.len();
    let said = str::from_utf8(written(&faults, unsaid)).expect(rt, "what is said is no text");
    let is_known = said.is_empty() || SAID.contains(&said);
    same_at(rt, (is_known, status <= 1), (true, true), said);
}

/// Who waits to be opened holds up no run that fails.
#[test]
fn a_run_ends_whatever_growth_is_refused(rt: HostRuntime) {
    let answers = shared_answers(&rt, rt.alloc(), usize::MAX);
    let outputs = [roomy(&rt, rt.alloc(), "b.out")];
    let later: [Later<'_>; 1] = [("b.in", "", &[("", B)])];
    ends(&rt, rt.alloc(), &answers, &later, &outputs);
}
