//! Runs of `serve`.
use super::memory::{Given, Made, Memory};
use super::{words_of, written};
use crate::compare::same_at;
use serve_report::Host;
use serve_watch::{Unwatched, Watch};
use std::alloc::Global;
use std::process::Abort;
use std::sync::Wait;
use std::thread::Threads;
use std::time::Clock;

mod apart;
mod checks;
mod faults;
pub mod growths;
mod many;
mod openings;
mod shares;
mod slow;
mod standing;
mod traced;
mod watched;

/// Three frames of four samples, behind a header of 22 bytes.
pub const A: &[u8] =
    b"YUV4MPEG2 W2 H2 Cmono\nFRAME\n\x00\x01\xFE\xFFFRAME\n\x10\x20\x30\x40FRAME\n\x7F\x80\x81\x82";

/// The same by `invert`.
pub const A_INVERTED: &[u8] =
    b"YUV4MPEG2 W2 H2 Cmono\nFRAME\n\xFF\xFE\x01\x00FRAME\n\xEF\xDF\xCF\xBFFRAME\n\x80\x7F\x7E\x7D";

/// Three frames of four samples.
pub const B: &[u8] = b"YUV4MPEG2 W2 H2 Cmono\nFRAME\n1234FRAME\n5678FRAME\nabcd";

/// The same by `hflip+vflip`: half a turn.
pub const B_TURNED: &[u8] = b"YUV4MPEG2 W2 H2 Cmono\nFRAME\n4321FRAME\n8765FRAME\ndcba";

/// Two streams.
pub const TWO: &str = "serve --workers 2 a:a.y4m:a.out:1:2:invert b:b.y4m:b.out:1:2:hflip+vflip";

/// A file that gives this text, and then ends.
pub fn given<'a>(name: &'a str, text: &'a [u8]) -> Given<'a> {
    Given {
        name,
        text,
        fails: false,
    }
}

/// What a run is to come to.
#[derive(Clone, Copy)]
pub struct Expected<'a> {
    pub report: &'a str,
    pub errors: &'a str,
    pub status: u8,
}

/// Runs the program with these words and files under a watch, and answers its status and how much is left of
/// the rooms for what it reports and says.
fn runs_in<
    R: Abort + Threads + Wait + Clock + Copy + Drop + Send + Sync + 'static,
    V: Watch + Sync,
>(
    rt: &R,
    alloc: Global,
    line: &str,
    files: &Memory<'_, R>,
    watch: &V,
    report: &mut [u8],
    errors: &mut [u8],
) -> (u8, usize, usize) {
    let words = words_of(alloc, line).expect(rt, line);
    let mut room = report;
    let mut rest = errors;
    let host = Host {
        rt,
        alloc,
        files,
        watch: Some(watch),
    };
    let status = host.run(&words, b"".as_slice(), &mut room, &mut rest);
    (status, room.len(), rest.len())
}

/// Runs the program with these words and files, and compares what it reports and says, and its status.
pub fn serves<R: Abort + Threads + Wait + Clock + Copy + Drop + Send + Sync + 'static>(
    rt: &R,
    alloc: Global,
    line: &str,
    files: &Memory<'_, R>,
    expected: Expected<'_>,
) {
    serves_under(rt, alloc, line, files, &Unwatched, expected);
}

/// The same, under a watch.
pub fn serves_under<
    R: Abort + Threads + Wait + Clock + Copy + Drop + Send + Sync + 'static,
    V: Watch + Sync,
>(rt: &R, alloc: Global, line: &str, files: &Memory<'_, R>, watch: &V, expected: Expected<'_>) {
    let mut faults = [0; 512];
    let mut lines = [0; 8192];
    let (status, left, unsaid) = runs_in(rt, alloc, line, files, watch, &mut lines, &mut faults);
    let report = str::from_utf8(written(&lines, left)).ok();
    let said = str::from_utf8(written(&faults, unsaid)).ok();
    let wanted = (
        Some(expected.errors),
        Some(expected.report),
        expected.status,
    );
    same_at(rt, (said, report, status), wanted, line);
}

/// Compares what was written to a file.
pub fn holds<R: Abort + Wait>(rt: &R, file: &Made<'_>, text: &[u8]) {
    let kept = file.text.lock(rt);
    same_at(rt, kept.as_slice(), text, file.name);
}

/// Runs the two streams from these inputs; the writer of the first takes so many bytes.
pub fn serves_two<R: Abort + Threads + Wait + Clock + Copy + Drop + Send + Sync + 'static>(
    rt: &R,
    alloc: Global,
    a: Given<'_>,
    most: usize,
    a_text: &[u8],
    expected: Expected<'_>,
) {
    let inputs = [a, given("b.y4m", B)];
    let outputs = [
        Made::new(alloc, "a.out", most),
        Made::new(alloc, "b.out", 4096),
    ];
    let files = Memory::new(rt, &inputs, &outputs);
    serves(rt, alloc, TWO, &files, expected);
    holds(rt, &outputs[0], a_text);
    holds(rt, &outputs[1], B_TURNED);
}

const HEADER: &[u8] = b"YUV4MPEG2 W2 H2 F25:1 Ip A1:1 Cmono XA=b\n";

/// The first stream's text, what is written of it, and the report of both.
const SERVED: &[(&[u8], &[u8], &str)] = &[
    (
        A,
        A_INVERTED,
        "a accepted 3 delivered 3 charged 3 stop whole\n\
         b accepted 3 delivered 3 charged 6 stop whole\nunits 9\n",
    ),
    (
        HEADER,
        HEADER,
        "a accepted 0 delivered 0 charged 0 stop whole\n\
         b accepted 3 delivered 3 charged 6 stop whole\nunits 6\n",
    ),
];

#[test]
fn two_streams_are_served_at_once(rt: HostRuntime) {
    for (text, written, report) in SERVED {
        let expected = Expected {
            report,
            errors: "",
            status: 0,
        };
        let input = given("a.y4m", text);
        serves_two(&rt, rt.alloc(), input, 4096, written, expected);
    }
}

#[test]
fn a_crop_has_a_header_of_its_own_and_a_blur_costs_more(rt: HostRuntime) {
    let inputs = [given("a.y4m", A)];
    let outputs = [Made::new(rt.alloc(), "a.out", 4096)];
    let files = Memory::new(&rt, &inputs, &outputs);
    let report = "a accepted 3 delivered 3 charged 12 stop whole\nunits 12\n";
    let expected = Expected {
        report,
        errors: "",
        status: 0,
    };
    // A crop costs 1 and a blur of radius 2 costs 3.
    let line = "serve --band 2 --quantum 1 a:a.y4m:a.out:10:40:crop:0,0,1,1+blur:2";
    serves(&rt, rt.alloc(), line, &files, expected);
    let text = b"YUV4MPEG2 W1 H1 Cmono\nFRAME\n\x00FRAME\n\x10FRAME\n\x7F";
    holds(&rt, &outputs[0], text);
}

#[test]
fn a_stream_is_served_by_a_clock_of_time(rt: HostRuntime) {
    let inputs = [given("a.y4m", A)];
    let outputs = [Made::new(rt.alloc(), "a.out", 4096)];
    let files = Memory::new(&rt, &inputs, &outputs);
    let expected = Expected {
        report: "a accepted 3 delivered 3 charged 3 stop whole\nunits 3\n",
        errors: "",
        status: 0,
    };
    let line = "serve --moment 30 a:a.y4m:a.out:1:2:invert";
    serves(&rt, rt.alloc(), line, &files, expected);
    holds(&rt, &outputs[0], A_INVERTED);
}
