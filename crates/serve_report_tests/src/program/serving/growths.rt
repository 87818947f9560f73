//! Two streams, whatever growth is refused: `bench/growths` refuses each in turn.
use super::{A, A_INVERTED, B, B_TURNED, TWO, given, holds, runs_in};
use crate::compare::same_at;
use crate::program::memory::{Made, Memory};
use crate::program::written;
use serve_watch::Unwatched;
use std::alloc::Global;
use std::process::Abort;
use std::sync::Wait;

/// What may be said in place of a report, where nothing was written.
const SAID: &[&str] = &["y4mserve: NoMemory\n", "y4mserve: session NoMemory\n"];

/// How the line of a stream ends for want of memory.
const WANTS: &[&str] = &[
    " stop read NoMemory",
    " stop read Header NoMemory",
    " stop ops NoMemory",
    " stop refused NoMemory",
    " stop admit NoMemory",
];

/// How the line of a stream begins, what it is where the stream is whole, and what is written then.
#[derive(Clone, Copy)]
pub struct Whole<'a> {
    pub front: &'a str,
    line: &'a str,
    text: &'a [u8],
}

/// The two streams.
pub const A_WHOLE: Whole<'_> = Whole {
    front: "a accepted ",
    line: "a accepted 3 delivered 3 charged 3 stop whole",
    text: A_INVERTED,
};

pub const B_WHOLE: Whole<'_> = Whole {
    front: "b accepted ",
    line: "b accepted 3 delivered 3 charged 6 stop whole",
    text: B_TURNED,
};

/// A file with room for all that is written to it.
pub fn roomy<'a>(rt: &(impl Abort + Wait), alloc: Global, name: &'a str) -> Made<'a> {
    let file = Made::new(alloc, name, 64);
    file.text.lock(rt).reserve(64).expect(rt, name);
    file
}

/// Whether the line of a stream is that of a whole one, whose text must then be so too. Any other is for want
/// of memory.
pub fn is_whole<R: Abort + Wait>(rt: &R, line: &str, file: &Made<'_>, whole: Whole<'_>) -> bool {
    if line == whole.line {
        holds(rt, file, whole.text);
        return true;
    }
    let wants = WANTS.iter().any(|want| line.ends_with(*want));
    same_at(
        rt,
        (wants, line.starts_with(whole.front)),
        (true, true),
        line,
    );
    false
}

/// Each stream has its line in the report, and then the units stand.
fn reports<R: Abort + Wait>(rt: &R, report: &str, files: &[Made<'_>; 2], status: u8) {
    let mut lines = report.lines();
    let a = is_whole(rt, lines.next().unwrap_or(""), &files[0], A_WHOLE);
    let b = is_whole(rt, lines.next().unwrap_or(""), &files[1], B_WHOLE);
    let units = lines.next().unwrap_or("");
    same_at(rt, units.starts_with("units "), true, report);
    let are_whole = a && b;
    same_at(rt, units == "units 9" || !are_whole, true, report);
    same_at(rt, lines.next(), None, report);
    same_at(rt, status == 0, are_whole, report);
}

/// What was written to a file is a front of the images.
pub fn holds_front<R: Abort + Wait>(rt: &R, file: &Made<'_>, whole: Whole<'_>) {
    let kept = file.text.lock(rt);
    let front = whole.text.get(..kept.len());
    same_at(rt, front, Some(kept.as_slice()), file.name);
}

/// Nothing was written to this file.
fn holds_nothing<R: Abort + Wait>(rt: &R, file: &Made<'_>) {
    let kept = file.text.lock(rt);
    same_at(rt, kept.len(), 0, file.name);
}

/// The streams are reported, or there was no memory for what comes before them.
fn are_told<R: Abort + Wait>(rt: &R, report: &str, said: &str, files: &[Made<'_>; 2], status: u8) {
    if said.is_empty() {
        reports(rt, report, files, status);
    } else {
        same_at(rt, SAID.contains(&said), true, said);
        same_at(rt, (report, status), ("", 1), said);
        holds_nothing(rt, &files[0]);
        holds_nothing(rt, &files[1]);
    }
}

#[test]
fn a_refused_growth_is_told(rt: HostRuntime) {
    let inputs = [given("a.y4m", A), given("b.y4m", B)];
    let outputs = [
        roomy(&rt, rt.alloc(), "a.out"),
        roomy(&rt, rt.alloc(), "b.out"),
    ];
    let files = Memory::new(&rt, &inputs, &outputs);
    let (mut lines, mut faults) = ([0; 512], [0; 512]);
    let (status, left, unsaid) = runs_in(
        &rt,
        rt.alloc(),
        TWO,
        &files,
        &Unwatched,
        &mut lines,
        &mut faults,
    );
    let report = str::from_utf8(written(&lines, left)).expect(&rt, "the report is no text");
    let said = str::from_utf8(written(&faults, unsaid)).expect(&rt, "what is said is no text");
    holds_front(&rt, &outputs[0], A_WHOLE);
    holds_front(&rt, &outputs[1], B_WHOLE);
    are_told(&rt, report, said, &outputs, status);
}
