//! Scripts up to their start, and the forms of their lines.
use crate::accounts::{Case, expect_each, expect_lines};
use std::alloc::{AllocError, Global};
use std::process::Abort;

const SCRIPTS: &[Case<'_>] = &[
    // Streams are admitted to their workers.
    (
        "stream a 1 3 4 4 invert YUV4MPEG2 W1 H1 Cmono\n\
         stream b 1 3 4 4 invert YUV4MPEG2 W1 H1 Cmono\n\
         stream c 1 3 4 4 invert YUV4MPEG2 W1 H1 Cmono\n\
         start\n",
        "stream 0\nstream 1\nstream 2\nline 4: Overload c\n",
        false,
    ),
    (
        "workers 2\n\
         stream a 1 3 4 4 invert YUV4MPEG2 W1 H1 Cmono\n\
         stream b 1 3 4 4 invert YUV4MPEG2 W1 H1 Cmono\n\
         stream c 1 3 4 4 invert YUV4MPEG2 W1 H1 Cmono\n\
         start\n",
        "ok\nstream 0\nstream 1\nstream 2\nstarted\n",
        true,
    ),
    (
        "stream a 4 4 4 4 invert YUV4MPEG2 W1 H1 Cmono\nstart\n",
        "stream 0\nstarted\n",
        true,
    ),
    // Settings are for the streams that follow.
    (
        "frames 1\n\
         stream a 1 4 4 4 invert YUV4MPEG2 W1 H1 Cmono\n\
         frames 2\n\
         stream b 1 4 4 4 invert YUV4MPEG2 W1 H1 Cmono\n\
         start\n\
         arrive a 00\n\
         arrive a 00\n\
         arrive b 00\n\
         arrive b 00\n\
         arrive b 00\n",
        "ok\n\
         stream 0\n\
         ok\n\
         stream 1\n\
         started\n\
         accepted 0\n\
         refused 4 TooManyFrames\n\
         accepted 0\n\
         accepted 1\n\
         refused 4 TooManyFrames\n",
        true,
    ),
    (
        "workers 2\n\
         band 2\n\
         stream a 2 10 4 4 invert YUV4MPEG2 W1 H4 Cmono\n\
         band 4\n\
         stream b 2 10 4 4 invert YUV4MPEG2 W1 H4 Cmono\n\
         start\n\
         arrive a 00010203\n\
         arrive b 00010203\n\
         lease 0\n\
         lease 1\n",
        "ok\n\
         ok\n\
         stream 0\n\
         ok\n\
         stream 1\n\
         started\n\
         accepted 0\n\
         accepted 0\n\
         leased a 0 grant 2\n\
         leased b 0 grant 1\n",
        true,
    ),
    // Lines have their place in a script.
    ("tick 1\n", "line 1: BadLine\n", false),
    ("lease 0\n", "line 1: BadLine\n", false),
    ("state a\n", "line 1: BadLine\n", false),
    (" start\n", "line 1: BadLine\n", false),
    ("workers 2\naccount 1 3\n", "ok\nline 2: BadLine\n", false),
    ("workers 2\ncharge 1\n", "ok\nline 2: BadLine\n", false),
    ("workers 2\nlease 0\n", "ok\nline 2: BadLine\n", false),
    // Numbers of a setup have limits.
    ("start\n", "line 1: BadLimits\n", false),
    ("band 3\n", "line 1: BadLimits\n", false),
    ("band 0\n", "line 1: BadLimits\n", false),
    ("band 128\nband 130\n", "ok\nline 2: BadLimits\n", false),
    ("band 4294967298\n", "line 1: BadLimits\n", false),
    (
        "workers 17\nstream a 1 4 4 4 invert YUV4MPEG2 W1 H1 Cmono\nstart\n",
        "ok\nstream 0\nline 3: BadLimits\n",
        false,
    ),
    (
        "quantum 65\nstream a 1 4 4 4 invert YUV4MPEG2 W1 H1 Cmono\nstart\n",
        "ok\nstream 0\nline 3: BadLimits\n",
        false,
    ),
    (
        "frames 16777217\nstream a 1 4 4 4 invert YUV4MPEG2 W1 H1 Cmono\nstart\n",
        "ok\nstream 0\nline 3: BadLimits\n",
        false,
    ),
    (
        "stream a 1 4 257 4 invert YUV4MPEG2 W1 H1 Cmono\nstart\n",
        "stream 0\nline 2: BadLimits\n",
        false,
    ),
    (
        "stream a 5 4 4 0 invert YUV4MPEG2 W1 H1 Cmono\nstart\n",
        "stream 0\nline 2: BadLimits\n",
        false,
    ),
    (
        "stream a 1 4 4 4 invert YUV4MPEG2 W1 H1 Cmono\n\
         stream b-2 5 4 4 4 invert YUV4MPEG2 W1 H1 Cmono\n\
         start\n",
        "stream 0\nstream 1\nline 3: BadBandwidth b-2\n",
        false,
    ),
];

#[test]
fn setups_print_their_lines(rt: HostRuntime) {
    expect_each(&rt, rt.alloc(), SCRIPTS);
}

/// A script of a stream `a`, up to its `start`.
const STARTED: &str = "stream a 1 4 4 4 invert YUV4MPEG2 W1 H1 Cmono\nstart\n";

/// Scripts that begin so and end with each of these lines, what they print, and whether they are run to their
/// ends.
const BEHIND: &[(&str, &[&str], &str, bool)] = &[
    // A setting is a word and a number.
    (
        "band 2\n",
        &["workers 2", "quantum 04", "band 16", "frames 16777216"],
        "ok\nok\n",
        true,
    ),
    (
        "band 2\n",
        &[
            "start ",
            " start",
            "starts",
            "workers",
            "workers ",
            "workers  2",
            "workers 2 ",
            "workers x",
            "workers 12345678901234567890",
            "stream a 1 3 4 5 invert",
            "stream a 1 3 4 5  YUV4MPEG2",
            "stream  1 3 4 5 invert x",
            "stream a/b 1 3 4 5 invert x",
        ],
        "ok\nline 2: BadLine\n",
        false,
    ),
    // An event is a word and what it names.
    (
        STARTED,
        &["lease 4294967295", "settle 1"],
        "stream 0\nstarted\nrefused 7 NoWorker\n",
        true,
    ),
    (
        STARTED,
        &["collect abcdefghijklmnopqrstuvwxyz_-0123"],
        "stream 0\nstarted\nrefused 1 NoStream\n",
        true,
    ),
    // Other lines are no events.
    (
        STARTED,
        &[
            "start",
            "workers 2",
            "quantum 2",
            "frames 2",
            "stream b 1 4 4 4 invert YUV4MPEG2 W1 H1 Cmono",
            "admit",
            "admit ",
            "admit b 1 4 4 4 invert",
            "admit b 1 4 4 4  YUV4MPEG2 W1 H1 Cmono",
            "admit  1 4 4 4 invert YUV4MPEG2 W1 H1 Cmono",
            "admit b/c 1 4 4 4 invert YUV4MPEG2 W1 H1 Cmono",
            "admit b 1 4 4 12345678901234567890 invert YUV4MPEG2 W1 H1 Cmono",
            " admit b 1 4 4 4 invert YUV4MPEG2 W1 H1 Cmono",
            "account 1 3",
            "idle 0",
            "charge 0",
            "band",
            "band 4294967296",
            "lease",
            "lease 1 ",
            "lease 4294967296",
            "arrive a 0",
            "arrive a 0g",
            "arrive a ",
            "arrive a",
            "arrive a 00 ",
            "arrive a 00 00",
            "close a ",
            "close a b",
            "state ",
            "collect a.b",
            "collect abcdefghijklmnopqrstuvwxyz_-01234",
        ],
        "stream 0\nstarted\nline 3: BadLine\n",
        false,
    ),
];

#[test]
fn lines_have_their_forms(rt: HostRuntime) -> Result<(), AllocError> {
    for (front, ends, lines, whole) in BEHIND {
        expect_behind(&rt, rt.alloc(), front, ends, lines, *whole)?;
    }
    Ok(())
}

/// Each of these lines ends a script that begins so, and the script prints these lines.
fn expect_behind(
    rt: &impl Abort,
    alloc: Global,
    front: &str,
    ends: &[&str],
    lines: &str,
    whole: bool,
) -> Result<(), AllocError> {
    for end in ends {
        let mut script = String::from_str(alloc, front)?;
        script.push_str(end)?;
        expect_lines(rt, alloc, script.as_bytes(), lines, whole);
    }
    Ok(())
}

/// A stream's name and numbers, its other words, and the word of their fault.
const STREAM_LINES: &[(&str, &str, &str)] = &[
    // A stream's line has one fault.
    ("b 1 4 4 4", "invert YUV4MPEG2W2 H2", "NotY4m"),
    ("b 1 4 4 4", "invert ", "NotY4m"),
    ("b 1 4 4 4", "invert YUV4MPEG2 W0 H2", "BadNumber"),
    ("b 1 4 4 4", "invert YUV4MPEG2 W2 W2 H2", "RepeatedTag"),
    ("b 1 4 4 4", "invert YUV4MPEG2", "MissingSize"),
    (
        "b 1 4 4 4",
        "invert YUV4MPEG2 W2 H2 C420p10",
        "UnknownChroma",
    ),
    ("b 1 4 4 4", "invert YUV4MPEG2 W3 H2 C420", "NotDivisible"),
    ("b 1 4 4 4", "invert YUV4MPEG2 W16385 H1 Cmono", "TooLarge"),
    ("b 1 4 4 4", "thresh:256 YUV4MPEG2 W2 H2", "BadOp"),
    ("b 1 4 4 4", "clamp:9,3 YUV4MPEG2 W2 H2", "BadOp"),
    ("b 1 4 4 4", "blur:0 YUV4MPEG2 W2 H2", "BadOp"),
    (
        "b 1 4 4 4",
        "hflip+hflip+hflip+hflip+hflip+hflip+hflip+hflip+hflip YUV4MPEG2 W2 H2",
        "TooManyOps",
    ),
    ("b 1 4 4 4", "crop:1,0,2,2 YUV4MPEG2 W4 H2 C422", "BadCrop"),
    (
        "b 1 4 4 4",
        "hflip+hflip+hflip+hflip+hflip YUV4MPEG2 W1 H16384 Cmono",
        "TooManySteps",
    ),
    // It is read from its front.
    ("a 1 4 4 x", "invert+ YUV4MPEG2 W3 H2", "BadLine"),
    ("a 1 4 4 4", "", "BadLine"),
    ("a 1 4 4 4", " YUV4MPEG2 W2 H2", "BadLine"),
    ("a.b 1 4 4 4", "invert YUV4MPEG2 W2 H2", "BadLine"),
    ("a 1 4 4 4", "invert+ YUV4MPEG2 W3 H2", "BadName"),
    ("a 1 4 4 4", "invert YUV4MPEG2 W2 H2", "BadName"),
    ("b 1 4 4 4", "invert+ YUV4MPEG2 W3 H2", "BadOp"),
    ("b 1 4 4 4", "crop:1,0,2,2 YUV4MPEG2 W3 H2", "NotDivisible"),
    ("b 5 4 4 4", "crop:1,0,2,2 YUV4MPEG2 W4 H2", "BadCrop"),
];

/// Where a second stream is asked for behind one of the name `a`: the lines before, the command, what they
/// print, and the number of its line. Its bands have 2 rows.
const SECOND: &[(&str, &str, &str, usize)] = &[
    (
        "stream a 1 4 4 4 invert YUV4MPEG2 W1 H1 Cmono\nband 2\n",
        "stream",
        "stream 0\nok\n",
        3,
    ),
    (
        "stream a 1 4 4 4 invert YUV4MPEG2 W1 H1 Cmono\nband 2\nstart\n",
        "admit",
        "stream 0\nok\nstarted\n",
        4,
    ),
];

#[test]
fn a_streams_line_has_one_fault_and_is_read_from_its_front(
    rt: HostRuntime,
) -> Result<(), AllocError> {
    let alloc = rt.alloc();
    for (front, command, lines, line) in SECOND {
        for (numbers, words, word) in STREAM_LINES {
            let script = format!(in alloc; "{front}{command} {numbers} {words}")?;
            let lines = format!(in alloc; "{lines}line {line}: {word}\n")?;
            expect_lines(&rt, alloc, script.as_bytes(), lines.as_str(), false);
        }
    }
    Ok(())
}
