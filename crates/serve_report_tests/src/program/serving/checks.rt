//! What is checked of the words before any file is opened.
use super::{Expected, serves};
use crate::compare::same_at;
use crate::program::memory::Memory;
use std::alloc::{AllocError, Global};
use std::process::Abort;
use std::sync::Wait;
use std::thread::Threads;
use std::time::Clock;

/// Runs the program with words that are refused, and sees that no file was asked for.
fn refuses<R: Abort + Threads + Wait + Clock + Copy + Drop + Send + Sync + 'static>(
    rt: &R,
    alloc: Global,
    line: &str,
    errors: &str,
    status: u8,
) {
    let files = Memory::new(rt, &[], &[]);
    let expected = Expected {
        report: "",
        errors,
        status,
    };
    serves(rt, alloc, line, &files, expected);
    let asked = *files.asked.lock(rt);
    same_at(rt, asked, 0, line);
}

/// Words, what is said of them, and the status.
const REFUSED: &[(&str, &str, u8)] = &[
    // Each stands with a fault that is looked for later, in the same word or in one after it.
    ("serve --band 3 a:i:o:1", "y4mserve: bad band\n", 2),
    ("serve --band 3", "y4mserve: bad band\n", 2),
    // Streams may be none only where others may come.
    ("serve", "y4mserve: no streams\n", 2),
    ("serve --moment 40", "y4mserve: no streams\n", 2),
    // A control on standard input leaves it to no stream.
    (
        "serve --control - a:/dev/stdin:o:1:2:invert b:i:o:1:2:sepia",
        "y4mserve: bad stream a:/dev/stdin:o:1:2:invert\n",
        2,
    ),
    (
        "serve --control - a:i:/dev/stdin:1:2:invert b:/dev/stdin:o:1:2:sepia",
        "y4mserve: bad stream b:/dev/stdin:o:1:2:sepia\n",
        2,
    ),
    (
        "serve a:i:o:1:invert b:i:o:1:2:sepia",
        "y4mserve: bad stream a:i:o:1:invert\n",
        2,
    ),
    (
        "serve a:i:o:1:2:invert a:i:o:1:2:sepia",
        "y4mserve: repeated name a\n",
        2,
    ),
    (
        "serve a:i:o:1:2:sepia a:i:o:1:2:invert",
        "y4mserve: BadOp a\n",
        2,
    ),
    (
        "serve a:i:o:5:4:invert b:i:o:1:2:blur:9",
        "y4mserve: BadOp b\n",
        2,
    ),
    (
        "serve a:i:o:5:4:invert+invert+invert+invert+invert+invert+invert+invert+invert",
        "y4mserve: TooManyOps a\n",
        2,
    ),
    // Shares are given in order.
    (
        "serve --workers 1 a:i:o:1:3:invert b:i:o:1:3:invert c:i:o:1:3:invert",
        "y4mserve: Overload c\n",
        1,
    ),
    (
        "serve a:i:o:5:4:invert b:i:o:0:4:invert",
        "y4mserve: BadBandwidth a\n",
        1,
    ),
    (
        "serve a:i:o:1:1048577:invert",
        "y4mserve: BadBandwidth a\n",
        1,
    ),
    (
        "serve --workers 1 a:i:o:4:4:invert b:i:o:1:1048576:invert c:i:o:0:4:invert",
        "y4mserve: Overload b\n",
        1,
    ),
    // The parser tells the ranges.
    (
        "serve --workers 17 a:i:o:1:2:invert",
        "error: invalid value '17' for '--workers <N>': 17 is not in 1..=16\n\n\
             For more information, try '--help'.\n",
        2,
    ),
    (
        "serve --quantum 0 a:i:o:1:2:invert",
        "error: invalid value '0' for '--quantum <K>': 0 is not in 1..=64\n\n\
             For more information, try '--help'.\n",
        2,
    ),
    (
        "serve --moment 0 a:i:o:1:2:invert",
        "error: invalid value '0' for '--moment <US>': 0 is not in 1..=1000000\n\n\
             For more information, try '--help'.\n",
        2,
    ),
    (
        "serve --moment 1000001 a:i:o:1:2:invert",
        "error: invalid value '1000001' for '--moment <US>': 1000001 is not in 1..=1000000\n\n\
             For more information, try '--help'.\n",
        2,
    ),
    (
        "serve --band 130 a:i:o:1:2:invert",
        "error: invalid value '130' for '--band <B>': 130 is not in 2..=128\n\n\
             For more information, try '--help'.\n",
        2,
    ),
];

#[test]
fn words_are_checked_in_order(rt: HostRuntime) {
    for (line, said, status) in REFUSED {
        refuses(&rt, rt.alloc(), line, said, *status);
    }
}

const BAD_WORDS: &[&str] = &[
    "a",
    "a:i:o:1:2",
    ":i:o:1:2:invert",
    "a.b:i:o:1:2:invert",
    "abcdefghijklmnopqrstuvwxyz0123456:i:o:1:2:invert",
    "a::o:1:2:invert",
    "a:i::1:2:invert",
    "a:i:o::2:invert",
    "a:i:o:1::invert",
    "a:i:o:-1:2:invert",
    "a:i:o:1:2x:invert",
    "a:i:o:1:12345678901234567890:invert",
];

/// A word that is no stream is told whole.
fn refuses_word<R: Abort + Threads + Wait + Clock + Copy + Drop + Send + Sync + 'static>(
    rt: &R,
    alloc: Global,
    word: &str,
) {
    let line = format!(in alloc; "serve {word}").expect(rt, word);
    let said = format!(in alloc; "y4mserve: bad stream {word}\n").expect(rt, word);
    refuses(rt, alloc, line.as_str(), said.as_str(), 2);
}

#[test]
fn a_stream_word_has_six_parts(rt: HostRuntime) {
    for word in BAD_WORDS {
        refuses_word(&rt, rt.alloc(), word);
    }
    let long = "0123456789"
        .repeat(rt.alloc(), 20)
        .expect(&rt, "a long word");
    refuses_word(&rt, rt.alloc(), long.as_str());
}

/// Words for so many streams, none of which has a form.
fn formless(alloc: Global, front: &str, count: u64) -> Result<String, AllocError> {
    let mut line = String::from_str(alloc, front)?;
    for _ in 0..count {
        line.push_str(" x")?;
    }
    Ok(line)
}

/// Words before those of so many streams, and what is said of them.
const MANY: &[(&str, u64, &str)] = &[
    ("serve --band 3", 65, "y4mserve: bad band\n"),
    ("serve", 65, "y4mserve: too many streams\n"),
    ("serve", 64, "y4mserve: bad stream x\n"),
];

#[test]
fn there_are_at_most_64_streams(rt: HostRuntime) {
    for (front, count, said) in MANY {
        let line = formless(rt.alloc(), front, *count).expect(&rt, front);
        refuses(&rt, rt.alloc(), line.as_str(), said, 2);
    }
}
