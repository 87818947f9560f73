//! A stream whose output goes.
use super::Talk;
use super::script::Turn;
use super::waiting::{ASK, Slow, shared_answers, talks_of};
use crate::program::memory::Made;
use crate::program::serving::holds;
use test_tools::streams::{ONE, ONE_INVERTED};

/// The image doesn't fit into the output. The input is silent then, until that is told, and how the stream
/// stands.
#[test]
fn a_lost_output_is_told_while_the_input_is_silent(rt: HostRuntime) {
    let turns: [Turn<'_>; 3] = [
        ASK,
        ("a lost its output\n", b"state\n"),
        ("streams 1\n", b"end\n"),
    ];
    let wanted = "a admitted\na lost its output\n\
                  a accepted 1 finished 1 collected 1 charged 1 budget 1 deadline .. lost its output\n\
                  shares 250000 of 2000000\nnow streams 1\n\
                  a accepted 1 delivered 0 charged 1 stop write 24\nunits 1\n";
    let outputs = [Made::new(rt.alloc(), "a.out", 24)];
    let answers = shared_answers(&rt, rt.alloc(), usize::MAX);
    let slow: [Slow<'_>; 1] = [("a.in", &[("", ONE), ("now ", b"")])];
    let talk = Talk::new(&turns, wanted);
    talks_of(&rt, rt.alloc(), &answers, &[], &slow, "", &outputs, talk);
    holds(&rt, &outputs[0], &ONE_INVERTED[..24]);
}
