//! How the lines of a control are taken from a reader.
use crate::compare::same_at;
use serve_report::control::feed::{Feed, Feeding};
use std::io::ErrorKind;
use std::process::Abort;
use test_tools::Tape;

/// What came of a line: its number, a word for what came where that is no line, and its text, or its first
/// bytes.
fn came<'f>(feed: &'f mut Feed<Tape<'_>>) -> Came<'f> {
    match feed.next() {
        Feeding::Line => (feed.number(), "", feed.line()),
        Feeding::Fault(fault) => (feed.number(), fault.word(), feed.head()),
        Feeding::End => (feed.number(), "no line", b""),
        Feeding::ReadFailed => (feed.number(), "failed", b""),
    }
}

type Came<'f> = (u64, &'f str, &'f [u8]);

/// Takes the lines of a reader, and compares what comes.
fn all_come(rt: &impl Abort, tape: Tape<'_>, lines: &[Came<'_>]) {
    let mut feed = Feed::new(tape);
    for line in lines {
        same_at(rt, came(&mut feed), *line, line.0);
    }
}

const TEXT: &[u8] = b"state\n\n# none\nclose a\nen";

const LINES: &[Came<'_>] = &[
    (1, "", b"state"),
    (2, "", b""),
    (3, "", b"# none"),
    (4, "", b"close a"),
    // The last bytes aren't ended.
    (5, "BadLine", b"en"),
    (5, "no line", b""),
    (5, "no line", b""),
];

#[test]
fn lines_come_one_by_one(rt: HostRuntime) {
    for step in [1, 2, 7, 1000] {
        all_come(&rt, Tape::by_steps(TEXT, step), LINES);
    }
}

#[test]
fn an_end_may_lack_its_line_feed(rt: HostRuntime) {
    for step in [1, 3, 1000] {
        let tape = Tape::by_steps(b"state\nend", step);
        let lines: [Came<'_>; 3] = [(1, "", b"state"), (2, "", b"end"), (2, "no line", b"")];
        all_come(&rt, tape, &lines);
    }
}

#[test]
fn a_failed_read_is_told(rt: HostRuntime) {
    let tape = Tape::torn(b"state\nend", ErrorKind::Other);
    all_come(&rt, tape, &[(1, "", b"state"), (1, "failed", b"")]);
}

/// A line of 1,024 bytes, one of 1,025, and a short one; behind these 1,030 bytes that aren't ended.
fn long_lines() -> [u8; 3086] {
    let mut text = [b'x'; 3086];
    text[1024] = b'\n';
    text[2050] = b'\n';
    text[2055] = b'\n';
    text
}

#[test]
fn a_line_has_1024_bytes(rt: HostRuntime) {
    let text = long_lines();
    for step in [1, 1000, 1025, 5000] {
        all_come(
            &rt,
            Tape::by_steps(&text, step),
            &[
                (1, "", &[b'x'; 1024]),
                (2, "TooLong", &[b'x'; 60]),
                (3, "", b"xxxx"),
                (4, "TooLong", &[b'x'; 60]),
                (4, "no line", b""),
            ],
        );
    }
}
