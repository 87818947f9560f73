//! What the lines of a control ask for, and what is wrong with their streams.
use crate::compare::same_at;
use serve_report::control::line::{Ask, check_stream, parse_line};
use std::alloc::Global;

/// What a line asks for: a word for its kind, and the name that it has, if it has one.
fn asked(line: &[u8], is_input_taken: bool) -> (&str, &str) {
    match parse_line(line, is_input_taken) {
        Ok(Ask::Nothing) => ("nothing", ""),
        Ok(Ask::Serve(word)) => ("serve", word.name),
        Ok(Ask::Close(name)) => ("close", name),
        Ok(Ask::State) => ("state", ""),
        Ok(Ask::End) => ("end", ""),
        Ok(Ask::Stop) => ("stop", ""),
        Err(fault) => ("wrong", fault.word()),
    }
}

const BAD: (&str, &str) = ("wrong", "BadLine");

/// Lines, and what they ask for.
const LINES: &[(&[u8], (&str, &str))] = &[
    (b"", ("nothing", "")),
    (b"#", ("nothing", "")),
    (b"# close a", ("nothing", "")),
    // What stands behind a `#` may be no text.
    (b"#\xff", ("nothing", "")),
    (b"state", ("state", "")),
    (b"end", ("end", "")),
    (b"stop", ("stop", "")),
    (b"close cam-1_b", ("close", "cam-1_b")),
    (b"a:in:out:1:2:invert", ("serve", "a")),
    (b"a:in:out:1:2:clamp:16,235", ("serve", "a")),
    (b"a:/dev/stdin:out:1:2:invert", ("serve", "a")),
    // Files may have spaces, and a stream may have the name of a command.
    (b"a:in file:out file:1:2:invert", ("serve", "a")),
    (b"close:in:out:1:2:invert", ("serve", "close")),
    (b"state:in:out:1:2:invert", ("serve", "state")),
    // Operations and bandwidths aren't looked at.
    (b"a:in:out:9:2:nothing", ("serve", "a")),
    (b"close", BAD),
    (b"close ", BAD),
    (b"close  a", BAD),
    (b"close a b", BAD),
    (b"close a:b", BAD),
    (b"state ", BAD),
    (b" end", BAD),
    (b"END", BAD),
    (b"stop ", BAD),
    (b"stop a", BAD),
    (b"STOP", BAD),
    (b"end\r", BAD),
    (b"a", BAD),
    (b"a:in:out:1:2", BAD),
    (b"a:in:out:x:2:invert", BAD),
    (b"a::out:1:2:invert", BAD),
    (b"a b:in:out:1:2:invert", BAD),
    (b"a:\xff:out:1:2:invert", BAD),
];

#[test]
fn lines_ask_for_what_they_say(rt: HostRuntime) {
    for (at, (line, ask)) in LINES.iter().enumerate() {
        same_at(&rt, asked(line, false), *ask, at);
    }
}

#[test]
fn no_stream_is_read_from_the_input_of_a_control(rt: HostRuntime) {
    let read = asked(b"a:/dev/stdin:out:1:2:invert", true);
    same_at(&rt, read, BAD, "the input");
    let written = asked(b"a:in:/dev/stdin:1:2:invert", true);
    same_at(&rt, written, ("serve", "a"), "the output");
}

/// How many operations the stream of a line has, or what is wrong with it.
fn checked(alloc: Global, line: &[u8]) -> (usize, &str) {
    match parse_line(line, false) {
        Ok(Ask::Serve(word)) => match check_stream(alloc, word) {
            Ok(asked) => (asked.ops.len(), ""),
            Err(fault) => (0, fault.word()),
        },
        _ => (0, "no stream"),
    }
}

/// Streams, and how many operations they have or what is wrong with them.
const STREAMS: &[(&[u8], (usize, &str))] = &[
    (b"a:in:out:1:1:invert", (1, "")),
    (b"a:in:out:1:1048576:hflip+blur:2", (2, "")),
    (b"a:in:out:1:2:", (0, "BadOp")),
    (b"a:in:out:1:2:blur:9", (0, "BadOp")),
    (
        b"a:in:out:1:2:hflip+hflip+hflip+hflip+hflip+hflip+hflip+hflip+hflip",
        (0, "TooManyOps"),
    ),
    (b"a:in:out:0:2:invert", (0, "BadBandwidth")),
    (b"a:in:out:3:2:invert", (0, "BadBandwidth")),
    (b"a:in:out:1:1048577:invert", (0, "BadBandwidth")),
    // Operations come first.
    (b"a:in:out:3:2:blur:9", (0, "BadOp")),
];

#[test]
fn operations_come_before_the_bandwidth(rt: HostRuntime) {
    for (at, (line, wanted)) in STREAMS.iter().enumerate() {
        same_at(&rt, checked(rt.alloc(), line), *wanted, at);
    }
}
