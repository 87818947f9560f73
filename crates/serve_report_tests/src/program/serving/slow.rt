//! Streams whose reads may wait.
use super::{A_INVERTED, B, B_TURNED, Expected, SERVED, TWO, given, holds, serves};
use crate::program::memory::{Given, Made, Memory};
use std::alloc::Global;
use std::process::Abort;
use std::sync::Wait;
use std::thread::Threads;
use std::time::Clock;
use test_tools::streams::ONE;

/// Runs the two streams, both from inputs that may wait.
fn serves_two_slowly<R: Abort + Threads + Wait + Clock + Copy + Drop + Send + Sync + 'static>(
    rt: &R,
    alloc: Global,
    a: Given<'static>,
    a_text: &[u8],
    expected: Expected<'_>,
) {
    let inputs = [a, given("b.y4m", B)];
    let outputs = [
        Made::new(alloc, "a.out", 4096),
        Made::new(alloc, "b.out", 4096),
    ];
    let files = Memory {
        slow: &inputs,
        ..Memory::new(rt, &[], &outputs)
    };
    serves(rt, alloc, TWO, &files, expected);
    holds(rt, &outputs[0], a_text);
    holds(rt, &outputs[1], B_TURNED);
}

#[test]
fn inputs_that_may_wait_are_served_as_others_are(rt: HostRuntime) {
    for (text, written, report) in SERVED {
        let expected = Expected {
            report,
            errors: "",
            status: 0,
        };
        serves_two_slowly(&rt, rt.alloc(), given("a.y4m", text), written, expected);
    }
}

/// A looker reads ahead of the client, which has the frame before it has the fault.
#[test]
fn a_fault_of_an_input_that_may_wait_comes_behind_its_frames(rt: HostRuntime) {
    let input = Given {
        name: "a.y4m",
        text: ONE,
        fails: true,
    };
    let expected = Expected {
        report: "a accepted 1 delivered 1 charged 1 stop read Device\n\
                 b accepted 3 delivered 3 charged 6 stop whole\nunits 7\n",
        errors: "",
        status: 1,
    };
    let images = A_INVERTED.get(..32).expect(&rt, "the images");
    serves_two_slowly(&rt, rt.alloc(), input, images, expected);
}
