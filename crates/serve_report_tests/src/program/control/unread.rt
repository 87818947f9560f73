//! Answers that nobody takes.
use super::Talk;
use super::script::{AWAITED, Turn};
use super::waiting::{ASK, waits};
use crate::program::serving::{A, A_INVERTED};

/// None is taken until all frames of the stream were read.
#[test]
fn answers_that_are_not_taken_hold_up_no_stream(rt: HostRuntime) {
    let turns: [Turn<'_>; 2] = [ASK, ("a accepted 3", b"end\n")];
    let answers = "a admitted\na accepted 3 delivered 3 charged 3 stop whole\nunits 3\n";
    let came = [("", A), ("a admitted\n", b"".as_slice())];
    let talk = Talk {
        awaited: AWAITED,
        ..Talk::new(&turns, answers)
    };
    waits(&rt, rt.alloc(), "", &came, Some(A_INVERTED), talk);
}
