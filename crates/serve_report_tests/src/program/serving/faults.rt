//! Streams that stop, while another goes on.
use super::{A, A_INVERTED, B, B_TURNED, Expected, TWO, given, holds, runs_in, serves, serves_two};
use crate::compare::same_at;
use crate::program::memory::{Given, Made, Memory};
use crate::program::written;
use serve_watch::Unwatched;
use std::alloc::Global;
use std::process::Abort;
use std::sync::Wait;
use std::thread::Threads;
use std::time::Clock;
use test_tools::streams::{CUT, ONE, WIDER};

/// What is reported of the second stream.
const OTHER: &str = "\nb accepted 3 delivered 3 charged 6 stop whole\n";

/// A first stream that stops: its text, whether its reads fail behind that, how many bytes its writer takes,
/// how many bytes of its images are written, its line, and the units of all.
type Stopped<'a> = (&'a [u8], bool, usize, usize, &'a str, u64);

/// Where the first image of the first stream ends.
const ONE_IMAGE: usize = 32;

const STOPPED: &[Stopped<'_>] = &[
    (
        CUT,
        false,
        4096,
        ONE_IMAGE,
        "accepted 1 delivered 1 charged 1 stop read Truncated",
        7,
    ),
    (
        ONE,
        true,
        4096,
        ONE_IMAGE,
        "accepted 1 delivered 1 charged 1 stop read Device",
        7,
    ),
    (
        A,
        false,
        22,
        22,
        "accepted 3 delivered 0 charged 3 stop write 22",
        9,
    ),
    // Frames of another size are followed by no frame line.
    (
        WIDER,
        false,
        4096,
        ONE_IMAGE,
        "accepted 1 delivered 1 charged 1 stop read NotFrame",
        7,
    ),
];

#[test]
fn a_fault_stops_its_own_stream(rt: HostRuntime) {
    for (text, fails, most, end, row, units) in STOPPED {
        let input = Given {
            name: "a.y4m",
            text,
            fails: *fails,
        };
        let report = format!(in rt.alloc(); "a {row}{OTHER}units {units}\n").expect(&rt, row);
        let expected = Expected {
            report: report.as_str(),
            errors: "",
            status: 1,
        };
        let images = A_INVERTED.get(..*end).expect(&rt, row);
        serves_two(&rt, rt.alloc(), input, *most, images, expected);
    }
}

/// Runs two streams of which the first stops before the session; its output is not made.
fn stops_early<R: Abort + Threads + Wait + Clock + Copy + Drop + Send + Sync + 'static>(
    rt: &R,
    alloc: Global,
    word: &str,
    text: &[u8],
    stop: &str,
) {
    let line = format!(in alloc; "serve --band 2 {word} b:b.y4m:b.out:1:2:hflip+vflip");
    let line = line.expect(rt, word);
    let front = "a accepted 0 delivered 0 charged 0 stop";
    let report = format!(in alloc; "{front} {stop}{OTHER}units 6\n").expect(rt, word);
    let inputs = [given("a.y4m", text), given("b.y4m", B)];
    let outputs = [
        Made::new(alloc, "a.out", 4096),
        Made::new(alloc, "b.out", 4096),
    ];
    let files = Memory::new(rt, &inputs, &outputs);
    let expected = Expected {
        report: report.as_str(),
        errors: "",
        status: 1,
    };
    serves(rt, alloc, line.as_str(), &files, expected);
    let is_made = *outputs[0].is_made.lock(rt);
    same_at(rt, is_made, false, word);
    holds(rt, &outputs[1], B_TURNED);
}

const CROP: &str = "a:a.y4m:a.out:1:2:crop:0,0,4,4";

/// The word of the first stream, its text, and how it stops.
const EARLY: &[(&str, &[u8], &str)] = &[
    (CROP, b"", "read Truncated"),
    (
        CROP,
        b"YUV4MPEG2 W2 H2 C420p10\n",
        "read Header UnknownChroma",
    ),
    (CROP, b"YUV4MPEG2 W0 H2\n", "read Header BadNumber"),
    (CROP, A, "ops BadCrop"),
    // Five times 8,192 bands of 2 rows.
    (
        "a:a.y4m:a.out:1:2:hflip+hflip+hflip+hflip+hflip",
        b"YUV4MPEG2 W1 H16384 Cmono\n",
        "ops TooManySteps",
    ),
    ("a:none.y4m:a.out:1:2:invert", A, "open"),
    ("a:a.y4m:none/a.out:1:2:invert", A, "create"),
];

#[test]
fn a_stream_that_stops_before_its_output_makes_none(rt: HostRuntime) {
    for (word, text, stop) in EARLY {
        stops_early(&rt, rt.alloc(), word, text, stop);
    }
}

#[test]
fn no_stream_may_be_left(rt: HostRuntime) {
    let files = Memory::new(&rt, &[], &[]);
    let report = "a accepted 0 delivered 0 charged 0 stop open\n\
                  b accepted 0 delivered 0 charged 0 stop open\n\
                  units 0\n";
    let expected = Expected {
        report,
        errors: "",
        status: 1,
    };
    serves(&rt, rt.alloc(), TWO, &files, expected);
}

/// There is room for the first five bytes of the report. Both streams are whole by then.
#[test]
fn a_report_that_is_not_taken_is_told(rt: HostRuntime) {
    let inputs = [given("a.y4m", A), given("b.y4m", B)];
    let outputs = [
        Made::new(rt.alloc(), "a.out", 4096),
        Made::new(rt.alloc(), "b.out", 4096),
    ];
    let files = Memory::new(&rt, &inputs, &outputs);
    let (mut lines, mut faults) = ([0; 5], [0; 64]);
    let (status, left, unsaid) = runs_in(
        &rt,
        rt.alloc(),
        TWO,
        &files,
        &Unwatched,
        &mut lines,
        &mut faults,
    );
    let said = str::from_utf8(written(&faults, unsaid)).ok();
    same_at(&rt, (said, status), (Some("y4mserve: write\n"), 1), TWO);
    same_at(&rt, (lines, left), (*b"a acc", 0), "the report");
    was_given(&rt, &outputs[0], A_INVERTED);
    was_given(&rt, &outputs[1], B_TURNED);
}

/// The file was given this text, where no memory was refused: nothing else tells so here.
fn was_given<R: Abort + Wait>(rt: &R, file: &Made<'_>, text: &[u8]) {
    let kept = file.text.lock(rt);
    same_at(rt, kept.as_slice(), text, "was memory refused?");
}
