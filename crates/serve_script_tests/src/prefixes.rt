//! Scripts that are cut short.
use crate::accounts::expect_lines;
use std::alloc::{AllocError, Global};
use std::process::Abort;

/// What a line prints.
#[derive(Clone, Copy)]
enum Told {
    /// So much, before the script goes on.
    Answer(&'static str),
    /// Its number and the word of its fault.
    Fault(&'static str),
}

/// What is told of a line that is cut short: up to this text, and from the text above it in the table on. All
/// others are bad lines.
type Cut<'a> = (&'a str, Told);

/// What a line prints that was cut to this.
fn told_of_cut(cuts: &[Cut<'_>], cut: &[u8]) -> Told {
    if cut.is_empty() || cut.starts_with(b"#".as_slice()) {
        return Told::Answer("");
    }
    for (text, told) in cuts {
        if text.as_bytes().starts_with(cut) {
            return *told;
        }
    }
    Told::Fault("BadLine")
}

/// Replays the lines before a line, which print this, with each front of the line that is cut short.
fn expect_cuts(
    rt: &impl Abort,
    alloc: Global,
    before: &[u8],
    printed: &str,
    number: usize,
    line: &str,
    cuts: &[Cut<'_>],
) -> Result<(), AllocError> {
    for length in 0..line.len() {
        let (cut, _) = line.as_bytes().split_at(length);
        let mut script = Vec::from_slice(alloc, before)?;
        script.extend_from_slice(cut)?;
        let (lines, whole) = match told_of_cut(cuts, cut) {
            Told::Answer(answer) => (format!(in alloc; "{printed}{answer}")?, true),
            Told::Fault(word) => (
                format!(in alloc; "{printed}line {number}: {word}\n")?,
                false,
            ),
        };
        expect_lines(rt, alloc, &script, lines.as_str(), whole);
    }
    Ok(())
}

/// Replays each prefix of a script of these lines, each with what it prints.
fn expect_prefixes(
    rt: &impl Abort,
    alloc: Global,
    lines: &[(&str, &str)],
    cuts: &[Cut<'_>],
) -> Result<(), AllocError> {
    let mut script = Vec::new(alloc);
    let mut printed = String::new(alloc);
    for (place, (line, told)) in lines.iter().enumerate() {
        expect_cuts(rt, alloc, &script, printed.as_str(), place + 1, line, cuts)?;
        script.extend_from_slice(line.as_bytes())?;
        printed.push_str(told)?;
        expect_lines(rt, alloc, &script, printed.as_str(), true);
        script.push(b'\n')?;
    }
    expect_lines(rt, alloc, &script, printed.as_str(), true);
    Ok(())
}

/// A line of a script, and what it prints.
type Line<'a> = (&'a str, &'a str);

const SESSION: &[Line<'_>] = &[
    ("# one stream, on one worker", ""),
    ("workers 1", "ok\n"),
    ("quantum 4", "ok\n"),
    ("band 16", "ok\n"),
    ("frames 16777216", "ok\n"),
    ("", ""),
    (
        "stream a 2 10 4 1 invert YUV4MPEG2 W1 H1 Cmono",
        "stream 0\n",
    ),
    ("start", "started\n"),
    ("arrive a 00", "accepted 0\n"),
    ("tick 7", "ticked\n"),
    ("arrive a 01", "accepted 1\n"),
    (
        "state a",
        "budget 2 deadline 10 accepted 2 finished 0 collected 0 charged 0\n",
    ),
    ("lease 0", "leased a 0 grant 1\n"),
    ("band 0", "stepped\n"),
    ("settle 0", "finished 0\n"),
    ("lease 0", "refused 9 NoneReady\n"),
    ("collect a", "image FF\n"),
    ("lease 0", "leased a 1 grant 1\n"),
    ("close a", "closing\n"),
    ("tick 11", "ticked\n"),
    (
        "admit b 1 4 1 1 vflip YUV4MPEG2 W1 H1 Cmono",
        "admitted 1\n",
    ),
    (
        "state b",
        "budget 1 deadline 0 accepted 0 finished 0 collected 0 charged 0\n",
    ),
];

const SESSION_CUTS: &[Cut<'_>] = &[
    ("band ", Told::Fault("BadLine")),
    ("band 1", Told::Fault("BadLimits")),
    ("frames ", Told::Fault("BadLine")),
    ("frames 1677721", Told::Answer("ok\n")),
    ("stream a 2 10 4 1 invert", Told::Fault("BadLine")),
    ("stream a 2 10 4 1 invert YUV4MPEG", Told::Fault("NotY4m")),
    (
        "stream a 2 10 4 1 invert YUV4MPEG2 ",
        Told::Fault("MissingSize"),
    ),
    (
        "stream a 2 10 4 1 invert YUV4MPEG2 W",
        Told::Fault("BadNumber"),
    ),
    (
        "stream a 2 10 4 1 invert YUV4MPEG2 W1 ",
        Told::Fault("MissingSize"),
    ),
    (
        "stream a 2 10 4 1 invert YUV4MPEG2 W1 H",
        Told::Fault("BadNumber"),
    ),
    (
        "stream a 2 10 4 1 invert YUV4MPEG2 W1 H1 ",
        Told::Fault("NotDivisible"),
    ),
    (
        "stream a 2 10 4 1 invert YUV4MPEG2 W1 H1 Cmon",
        Told::Fault("UnknownChroma"),
    ),
    ("tick ", Told::Fault("BadLine")),
    ("tick 1", Told::Answer("refused 12 Past\n")),
    ("admit b 1 4 1 1 vflip", Told::Fault("BadLine")),
    ("admit b 1 4 1 1 vflip YUV4MPEG", Told::Fault("NotY4m")),
    (
        "admit b 1 4 1 1 vflip YUV4MPEG2 ",
        Told::Fault("MissingSize"),
    ),
    (
        "admit b 1 4 1 1 vflip YUV4MPEG2 W",
        Told::Fault("BadNumber"),
    ),
    (
        "admit b 1 4 1 1 vflip YUV4MPEG2 W1 ",
        Told::Fault("MissingSize"),
    ),
    (
        "admit b 1 4 1 1 vflip YUV4MPEG2 W1 H",
        Told::Fault("BadNumber"),
    ),
    (
        "admit b 1 4 1 1 vflip YUV4MPEG2 W1 H1 ",
        Told::Fault("NotDivisible"),
    ),
    (
        "admit b 1 4 1 1 vflip YUV4MPEG2 W1 H1 Cmon",
        Told::Fault("UnknownChroma"),
    ),
];

const ACCOUNT: &[Line<'_>] = &[
    ("account 2 10", "budget 2 deadline 0\n"),
    ("idle 0", "budget 2 deadline 10\n"),
    ("charge 1", "budget 1 deadline 10\n"),
    ("charge 1", "budget 2 deadline 20\n"),
];

const ACCOUNT_CUTS: &[Cut<'_>] = &[
    ("account 2 ", Told::Fault("BadLine")),
    ("account 2 1", Told::Fault("BadBandwidth")),
];

#[test]
fn each_prefix_of_a_script_is_a_script(rt: HostRuntime) -> Result<(), AllocError> {
    expect_prefixes(&rt, rt.alloc(), SESSION, SESSION_CUTS)?;
    expect_prefixes(&rt, rt.alloc(), ACCOUNT, ACCOUNT_CUTS)
}
