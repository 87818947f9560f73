//! Runs that are traced: a lane for each worker, one for each stream, and their counters.
use super::apart::asks_for;
use super::growths::roomy;
use super::{A, A_INVERTED, B, B_TURNED, Expected, given, holds, runs_in, serves};
use crate::compare::same_at;
use crate::program::memory::{Made, Memory};
use crate::program::written;
use serve_files::{FileId, Place};
use serve_watch::{Trace, Unwatched, Watch};
use std::alloc::{AllocError, Global};
use std::io;
use std::process::Abort;
use std::sync::Wait;

/// Two streams that are traced.
const TWO: &str =
    "serve --workers 2 --trace run.json a:a.y4m:a.out:1:2:invert b:b.y4m:b.out:1:2:hflip+vflip";

/// Their report.
const REPORT: &str = "a accepted 3 delivered 3 charged 3 stop whole\n\
     b accepted 3 delivered 3 charged 6 stop whole\nunits 9\n";

/// How a trace begins.
const HEAD: &str = "[\n\
     {\"name\":\"process_name\",\"ph\":\"M\",\"pid\":1,\"args\":{\"name\":\"workers\"}},\n\
     {\"name\":\"process_name\",\"ph\":\"M\",\"pid\":2,\"args\":{\"name\":\"streams\"}},\n";

/// The number behind a key of a record.
fn number(record: &str, key: &str) -> Option<u64> {
    let (_, behind) = record.split_once(key)?;
    let end = behind.find(',').or(behind.find('}'))?;
    let digits = behind[..end].trim_end_matches('}');
    digits.parse::<u64>().ok()
}

/// A slice of a worker.
#[derive(Clone, Copy)]
struct Slice {
    lane: u64,
    begin: u64,
    end: u64,
    units: u64,
    epoch: u64,
}

fn slice_of(record: &str) -> Option<Slice> {
    if !record.contains("\"ph\":\"X\",\"pid\":1,") {
        return None;
    }
    let begin = number(record, "\"ts\":")?;
    Some(Slice {
        lane: number(record, "\"tid\":")?,
        begin,
        end: begin.saturating_add(number(record, "\"dur\":")?),
        units: number(record, "\"units\":")?,
        epoch: number(record, "\"epoch\":")?,
    })
}

/// The slices of the workers.
fn slices_of(alloc: Global, trace: &str) -> Result<Vec<Slice>, AllocError> {
    let mut slices = Vec::new(alloc);
    for record in trace.lines() {
        if let Some(slice) = slice_of(record) {
            slices.push(slice)?;
        }
    }
    Ok(slices)
}

/// Whether two slices are of different lanes, or one after the other.
fn are_apart(one: &Slice, other: &Slice) -> bool {
    one.lane != other.lane || one.end <= other.begin || other.end <= one.begin
}

/// Whether a slice is apart from all of these.
fn is_apart(before: &[Slice], slice: &Slice) -> bool {
    before.iter().all(|one| are_apart(one, slice))
}

/// Slices of one worker don't overlap.
fn none_overlap(rt: &impl Abort, slices: &[Slice]) {
    for (k, slice) in slices.iter().enumerate() {
        same_at(
            rt,
            is_apart(&slices[..k], slice),
            true,
            "two slices overlap",
        );
    }
}

/// The units of all slices, and the last epoch.
fn sums(slices: &[Slice]) -> (u64, u64) {
    let (mut units, mut epoch) = (0u64, 0u64);
    for slice in slices {
        units = units.saturating_add(slice.units);
        epoch = epoch.max(slice.epoch);
    }
    (units, epoch)
}

/// A trace that is whole begins and ends as an array, and its slices are those of so many units and epochs.
fn is_trace<R: Abort + Wait>(rt: &R, alloc: Global, file: &Made<'_>, units: u64, epochs: u64) {
    let kept = file.text.lock(rt);
    let trace = str::from_utf8(kept.as_slice()).expect(rt, "the trace is no text");
    same_at(rt, trace.starts_with(HEAD), true, trace);
    same_at(rt, trace.ends_with("}\n]\n"), true, trace);
    let slices = slices_of(alloc, trace).expect(rt, "was memory refused?");
    same_at(rt, sums(&slices), (units, epochs), trace);
    none_overlap(rt, &slices);
}

#[test]
fn two_streams_are_traced(rt: HostRuntime) {
    let inputs = [given("a.y4m", A), given("b.y4m", B)];
    let outputs = [
        Made::new(rt.alloc(), "a.out", 4096),
        Made::new(rt.alloc(), "b.out", 4096),
        Made::new(rt.alloc(), "run.json", 1 << 16),
    ];
    let files = Memory::new(&rt, &inputs, &outputs);
    let expected = Expected {
        report: REPORT,
        errors: "",
        status: 0,
    };
    serves(&rt, rt.alloc(), TWO, &files, expected);
    holds(&rt, &outputs[0], A_INVERTED);
    holds(&rt, &outputs[1], B_TURNED);
    is_trace(&rt, rt.alloc(), &outputs[2], 9, 1);
}

#[test]
fn lanes_are_named_and_frames_are_counted(rt: HostRuntime) {
    let inputs = [given("a.y4m", A), given("b.y4m", B)];
    let outputs = [
        Made::new(rt.alloc(), "a.out", 4096),
        Made::new(rt.alloc(), "b.out", 4096),
        Made::new(rt.alloc(), "run.json", 1 << 16),
    ];
    let files = Memory::new(&rt, &inputs, &outputs);
    let expected = Expected {
        report: REPORT,
        errors: "",
        status: 0,
    };
    serves(&rt, rt.alloc(), TWO, &files, expected);
    let kept = outputs[2].text.lock(&rt);
    let trace = str::from_utf8(kept.as_slice()).expect(&rt, "the trace is no text");
    for part in [
        "{\"name\":\"thread_name\",\"ph\":\"M\",\"pid\":1,\"tid\":1,\"args\":{\"name\":\"worker 0\"}}",
        "{\"name\":\"thread_name\",\"ph\":\"M\",\"pid\":1,\"tid\":2,\"args\":{\"name\":\"worker 1\"}}",
        "{\"name\":\"thread_name\",\"ph\":\"M\",\"pid\":2,\"tid\":1,\"args\":{\"name\":\"a\"}}",
        "{\"name\":\"thread_name\",\"ph\":\"M\",\"pid\":2,\"tid\":2,\"args\":{\"name\":\"b\"}}",
        "{\"name\":\"a 0\",\"ph\":\"X\",\"pid\":1,",
        "{\"name\":\"b 2\",\"ph\":\"X\",\"pid\":1,",
        ",\"args\":{\"bands\":1,\"units\":1,\"epoch\":1}}",
        "{\"name\":\"a frames\",\"ph\":\"C\",\"pid\":2,\"ts\":",
        "\"args\":{\"unfinished\":0,\"waiting\":0}}",
        "{\"name\":\"b deadline\",\"ph\":\"C\",\"pid\":2,\"ts\":",
    ] {
        same_at(&rt, trace.contains(part), true, part);
    }
}

/// So many frames of a sample.
fn long_text(alloc: Global, frames: u32) -> Result<Vec<u8>, AllocError> {
    let mut text = Vec::new(alloc);
    text.extend_from_slice(b"YUV4MPEG2 W1 H1 Cmono\n")?;
    for _ in 0..frames {
        text.extend_from_slice(b"FRAME\n\x0F")?;
    }
    Ok(text)
}

#[test]
fn a_trace_goes_on_over_epochs(rt: HostRuntime) {
    let text = long_text(rt.alloc(), 40).expect(&rt, "the text");
    let inputs = [given("in.y4m", text.as_slice())];
    let outputs = [
        Made::new(rt.alloc(), "a.out", 4096),
        Made::new(rt.alloc(), "run.json", 1 << 16),
    ];
    let files = Memory::new(&rt, &inputs, &outputs);
    let expected = Expected {
        report: "a accepted 40 delivered 40 charged 40 stop whole\nunits 40\n",
        errors: "",
        status: 0,
    };
    // Each frame is offered, leased, settled and collected: 160 entries and a close, and at most 66 in an
    // epoch.
    let line = "serve --workers 1 --journal 66 --trace run.json a:in.y4m:a.out:1:2:invert";
    serves(&rt, rt.alloc(), line, &files, expected);
    is_trace(&rt, rt.alloc(), &outputs[1], 40, 3);
}

#[test]
fn a_trace_that_fails_is_told_and_the_run_goes_on(rt: HostRuntime) {
    for most in [0, 1, 100, 300, 700, 1_000] {
        let inputs = [given("a.y4m", A), given("b.y4m", B)];
        let outputs = [
            Made::new(rt.alloc(), "a.out", 4096),
            Made::new(rt.alloc(), "b.out", 4096),
            Made::new(rt.alloc(), "run.json", most),
        ];
        let files = Memory::new(&rt, &inputs, &outputs);
        let expected = Expected {
            report: REPORT,
            errors: "y4mserve: trace\n",
            status: 1,
        };
        serves(&rt, rt.alloc(), TWO, &files, expected);
        holds(&rt, &outputs[0], A_INVERTED);
        holds(&rt, &outputs[1], B_TURNED);
        same_at(
            &rt,
            outputs[2].text.lock(&rt).len(),
            most,
            "how much is written",
        );
    }
}

#[test]
fn a_trace_that_is_not_made_is_told(rt: HostRuntime) {
    let inputs = [given("a.y4m", A), given("b.y4m", B)];
    let outputs = [
        Made::new(rt.alloc(), "a.out", 4096),
        Made::new(rt.alloc(), "b.out", 4096),
    ];
    let files = Memory::new(&rt, &inputs, &outputs);
    let expected = Expected {
        report: REPORT,
        errors: "y4mserve: trace\n",
        status: 1,
    };
    serves(&rt, rt.alloc(), TWO, &files, expected);
    holds(&rt, &outputs[0], A_INVERTED);
}

/// The words that name the file of a trace twice, and what is said.
const CLASHES: &[(&str, &str)] = &[
    (
        "serve --trace a.y4m a:a.y4m:a.out:1:2:invert",
        "y4mserve: repeated file a.y4m\n",
    ),
    (
        "serve --trace a.out a:a.y4m:a.out:1:2:invert",
        "y4mserve: repeated file a.out\n",
    ),
    (
        "serve --trace /dev/stdout a:a.y4m:a.out:1:2:invert",
        "y4mserve: repeated file /dev/stdout\n",
    ),
    (
        "serve --trace a.json --control lines a:a.y4m:a.out:1:2:invert",
        "y4mserve: trace and control\n",
    ),
];

/// What stands behind the names.
const PLACES: &[(&str, Place)] = &[
    (
        "/dev/stdout",
        Place::File(FileId {
            device: 1,
            inode: 1,
        }),
    ),
    (
        "a.y4m",
        Place::File(FileId {
            device: 1,
            inode: 2,
        }),
    ),
    (
        "a.out",
        Place::File(FileId {
            device: 1,
            inode: 3,
        }),
    ),
    (
        "a.json",
        Place::File(FileId {
            device: 1,
            inode: 4,
        }),
    ),
];

#[test]
fn the_file_of_a_trace_stands_once(rt: HostRuntime) {
    for (line, errors) in CLASHES {
        let expected = Expected {
            report: "",
            errors,
            status: 2,
        };
        asks_for(&rt, rt.alloc(), line, PLACES, expected, 0);
    }
}

#[test]
fn a_trace_that_is_told_of_no_run_is_not_whole(rt: HostRuntime) {
    let inner: Option<&Unwatched> = None;
    let file = Some(io::sink());
    let names = Some(Vec::new(rt.alloc()));
    let trace = Trace::start(&rt, rt.alloc(), file, 1, names, inner);
    same_at(&rt, trace.end(), false, "nothing began");
    trace.begins(&[]);
    same_at(&rt, trace.end(), true, "was memory refused?");
}

/// Whatever growth is refused: where the trace lacks memory the run goes on, and that is told.
#[test]
fn a_refused_growth_of_a_trace_is_told(rt: HostRuntime) {
    let inputs = [given("a.y4m", A), given("b.y4m", B)];
    let trace = Made::new(rt.alloc(), "run.json", 1 << 16);
    trace
        .text
        .lock(&rt)
        .reserve(1 << 16)
        .expect(&rt, "the trace");
    let outputs = [
        roomy(&rt, rt.alloc(), "a.out"),
        roomy(&rt, rt.alloc(), "b.out"),
        trace,
    ];
    let files = Memory::new(&rt, &inputs, &outputs);
    let (mut lines, mut faults) = ([0; 512], [0; 512]);
    let (status, left, unsaid) = runs_in(
        &rt,
        rt.alloc(),
        TWO,
        &files,
        &Unwatched,
        &mut lines,
        &mut faults,
    );
    let report = written(&lines, left) == REPORT.as_bytes();
    let said = str::from_utf8(written(&faults, unsaid)).expect(&rt, "what is said is no text");
    // A run that is reported whole and says nothing has a whole trace.
    same_at(&rt, report || status == 1, true, said);
    same_at(&rt, status == 0, report && said.is_empty(), said);
    if status == 0 {
        is_trace(&rt, rt.alloc(), &outputs[2], 9, 1);
    }
}
