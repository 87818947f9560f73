//! What a watch is told of streams that are served at once.
use super::{A, Expected, TWO, given, serves_under};
use crate::compare::same_at;
use crate::program::memory::{Made, Memory};
use crate::program::watches::Told;
use std::alloc::Global;
use std::process::Abort;
use std::sync::Wait;
use std::thread::Threads;
use std::time::Clock;

/// One frame of four samples, behind a header of 22 bytes.
const ONE: &[u8] = b"YUV4MPEG2 W2 H2 Cmono\nFRAME\n1234";

/// What is reported where both streams are whole.
const BOTH: &str = "a accepted 3 delivered 3 charged 3 stop whole\n\
                    b accepted 1 delivered 1 charged 2 stop whole\nunits 5\n";

/// What a watch is told of a run: how often streams begin, the frames of both, and how often all ends.
type Said = (u64, (u64, u64, u64), (u64, u64, u64), u64);

fn said_to(watch: &Told<'_>) -> Said {
    (
        watch.begun(),
        watch.frames(0),
        watch.frames(1),
        watch.ended(),
    )
}

/// Serves two streams under a watch, the first from this file.
fn serves_two_under(
    rt: &(impl Abort + Threads + Wait + Clock + Copy + Drop + Send + Sync + 'static),
    alloc: Global,
    line: &str,
    first: &str,
    watch: &Told<'_>,
    report: &str,
    status: u8,
) {
    let inputs = [given(first, A), given("b.y4m", ONE)];
    let outputs = [
        Made::new(alloc, "a.out", 4096),
        Made::new(alloc, "b.out", 4096),
    ];
    let files = Memory::new(rt, &inputs, &outputs);
    let expected = Expected {
        report,
        errors: "",
        status,
    };
    serves_under(rt, alloc, line, &files, watch, expected);
}

#[test]
fn frames_are_told_as_those_of_their_stream(rt: HostRuntime) {
    let watch = Told::of_streams(&["a", "b"]);
    serves_two_under(&rt, rt.alloc(), TWO, "a.y4m", &watch, BOTH, 0);
    let wanted = (1, (3, 3, 22 + 3 * (6 + 4)), (1, 1, 22 + 6 + 4), 1);
    same_at(&rt, said_to(&watch), wanted, "the watch");
}

/// Images are written by tries, and the header before them by writes: three images and one.
#[test]
fn each_try_to_write_is_told(rt: HostRuntime) {
    let watch = Told::of_streams(&["a", "b"]);
    serves_two_under(&rt, rt.alloc(), TWO, "a.y4m", &watch, BOTH, 0);
    for (stream, images) in [(0, 3), (1, 1)] {
        let (writes, came_back) = watch.writes(stream);
        let least = images + 1;
        let told = (writes.min(least), came_back);
        same_at(&rt, told, (least, true), stream);
    }
}

#[test]
fn a_stream_keeps_its_number_where_one_before_it_stops(rt: HostRuntime) {
    let watch = Told::of_streams(&["a", "b"]);
    let report = "a accepted 0 delivered 0 charged 0 stop open\n\
                  b accepted 1 delivered 1 charged 2 stop whole\nunits 2\n";
    serves_two_under(&rt, rt.alloc(), TWO, "elsewhere", &watch, report, 1);
    let wanted = (1, (0, 0, 0), (1, 1, 32), 1);
    same_at(&rt, said_to(&watch), wanted, "the watch");
}

#[test]
fn nothing_is_told_of_a_quiet_run_or_to_a_watch_that_follows_none(rt: HostRuntime) {
    let quiet = "serve -q --workers 2 a:a.y4m:a.out:1:2:invert b:b.y4m:b.out:1:2:hflip+vflip";
    tells_nothing(&rt, rt.alloc(), quiet, &Told::of_streams(&["a", "b"]));
    tells_nothing(&rt, rt.alloc(), TWO, &Told::of_none(&["a", "b"]));
}

/// Serves two streams, and sees that the watch is told nothing.
fn tells_nothing(
    rt: &(impl Abort + Threads + Wait + Clock + Copy + Drop + Send + Sync + 'static),
    alloc: Global,
    line: &str,
    watch: &Told<'_>,
) {
    serves_two_under(rt, alloc, line, "a.y4m", watch, BOTH, 0);
    same_at(rt, said_to(watch), NOTHING, line);
}

/// What a watch is told that is told nothing.
const NOTHING: Said = (0, (0, 0, 0), (0, 0, 0), 0);

#[test]
fn no_stream_begins_where_the_words_are_wrong(rt: HostRuntime) {
    let watch = Told::of_streams(&["a", "b"]);
    let files = Memory::new(&rt, &[], &[]);
    let expected = Expected {
        report: "",
        errors: "y4mserve: BadOp a\n",
        status: 2,
    };
    let line = "serve a:a.y4m:a.out:1:2:blur:9";
    serves_under(&rt, rt.alloc(), line, &files, &watch, expected);
    same_at(&rt, said_to(&watch), NOTHING, line);
}
