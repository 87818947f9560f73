//! Streams that are admitted before the start or behind it.
use crate::accounts::{Case, expect_each, expect_lines};
use std::alloc::{AllocError, Global};

const SCRIPTS: &[Case<'_>] = &[
    // A share is held up to the deadline, here 4, and a refused name stays free.
    (
        "stream a 1 2 4 4 invert YUV4MPEG2 W1 H1 Cmono\n\
         stream b 1 2 4 4 invert YUV4MPEG2 W1 H1 Cmono\n\
         start\n\
         arrive a 00\n\
         lease 0\n\
         band 0\n\
         settle 0\n\
         close a\n\
         collect a\n\
         admit c 1 2 4 4 invert YUV4MPEG2 W1 H1 Cmono\n\
         tick 3\n\
         admit c 1 2 4 4 invert YUV4MPEG2 W1 H1 Cmono\n\
         tick 4\n\
         admit c 1 2 4 4 invert YUV4MPEG2 W1 H1 Cmono\n",
        "stream 0\n\
         stream 1\n\
         started\n\
         accepted 0\n\
         leased a 0 grant 1\n\
         stepped\n\
         finished 0\n\
         closing\n\
         image FF\n\
         refused 23 Overload\n\
         ticked\n\
         refused 23 Overload\n\
         ticked\n\
         admitted 2\n",
        true,
    ),
    // A stream without frames leaves its share at its close, and the next one has it.
    (
        "stream a 1 2 4 4 invert YUV4MPEG2 W1 H1 Cmono\n\
         stream b 1 2 4 4 invert YUV4MPEG2 W1 H1 Cmono\n\
         start\n\
         close a\n\
         admit c 1 2 4 4 invert YUV4MPEG2 W1 H1 Cmono\n\
         admit d 1 2 4 4 invert YUV4MPEG2 W1 H1 Cmono\n\
         tick 9\n\
         arrive c 01\n\
         arrive a 02\n\
         arrive d 03\n\
         lease 0\n\
         band 0\n\
         settle 0\n\
         collect c\n\
         state c\n\
         state a\n",
        "stream 0\n\
         stream 1\n\
         started\n\
         closing\n\
         admitted 2\n\
         refused 23 Overload\n\
         ticked\n\
         accepted 0\n\
         refused 2 Closed\n\
         refused 1 NoStream\n\
         leased c 0 grant 1\n\
         stepped\n\
         finished 0\n\
         image FE\n\
         budget 1 deadline 13 accepted 1 finished 1 collected 1 charged 1\n\
         budget 1 deadline 0 accepted 0 finished 0 collected 0 charged 0\n",
        true,
    ),
    // An admitted stream has the last bands and the last number of frames.
    (
        "band 2\n\
         frames 5\n\
         stream a 1 4 4 4 invert YUV4MPEG2 W1 H8 Cmono\n\
         band 8\n\
         frames 3\n\
         band 4\n\
         frames 1\n\
         start\n\
         admit c 4 8 4 4 invert YUV4MPEG2 W1 H8 Cmono\n\
         arrive c 00\n\
         arrive c 0001020304050607\n\
         arrive c 0001020304050607\n\
         lease 0\n\
         band 0\n\
         band 0\n\
         settle 0\n\
         collect c\n\
         state c\n",
        "ok\n\
         ok\n\
         stream 0\n\
         ok\n\
         ok\n\
         ok\n\
         ok\n\
         started\n\
         admitted 1\n\
         refused 3 WrongSize\n\
         accepted 0\n\
         refused 4 TooManyFrames\n\
         leased c 0 grant 2\n\
         stepped\n\
         stepped\n\
         finished 0\n\
         image FFFEFDFCFBFAF9F8\n\
         budget 2 deadline 8 accepted 1 finished 1 collected 1 charged 2\n",
        true,
    ),
    // Or the first ones.
    (
        "stream a 1 4 4 4 invert YUV4MPEG2 W1 H32 Cmono\n\
         start\n\
         admit c 2 4 4 4 invert+vflip YUV4MPEG2 W1 H2 Cmono\n\
         arrive c 0001\n\
         lease 0\n",
        "stream 0\nstarted\nadmitted 1\naccepted 0\nleased c 0 grant 2\n",
        true,
    ),
    // A refused stream leaves nothing behind.
    (
        "stream a 3 4 4 4 invert YUV4MPEG2 W1 H1 Cmono\n\
         start\n\
         admit c 1 2 4 4 invert YUV4MPEG2 W2 H1 Cmono\n\
         state c\n\
         arrive c 0001\n\
         admit b 1 8 4 4 hflip YUV4MPEG2 W2 H1 Cmono\n\
         admit c 1 8 4 4 invert YUV4MPEG2 W1 H1 Cmono\n\
         arrive b 0102\n\
         arrive c 03\n\
         lease 0\n",
        "stream 0\n\
         started\n\
         refused 23 Overload\n\
         refused 1 NoStream\n\
         refused 1 NoStream\n\
         admitted 1\n\
         admitted 2\n\
         accepted 0\n\
         accepted 0\n\
         leased b 0 grant 1\n",
        true,
    ),
    // A stream is refused for its first fault.
    (
        "stream a 1 2 4 4 invert YUV4MPEG2 W1 H1 Cmono\n\
         start\n\
         admit c 2 1 0 4 invert YUV4MPEG2 W1 H1 Cmono\n\
         admit c 2 1 4 257 invert YUV4MPEG2 W1 H1 Cmono\n\
         admit c 2 1 4 4 invert YUV4MPEG2 W1 H1 Cmono\n\
         admit c 0 1 4 4 invert YUV4MPEG2 W1 H1 Cmono\n\
         admit c 1 1048577 4 4 invert YUV4MPEG2 W1 H1 Cmono\n\
         admit c 1 1 4 4 invert YUV4MPEG2 W1 H1 Cmono\n\
         admit c 1 2 4 4 invert YUV4MPEG2 W1 H1 Cmono\n",
        "stream 0\n\
         started\n\
         refused 21 BadLimits\n\
         refused 21 BadLimits\n\
         refused 22 BadBandwidth\n\
         refused 22 BadBandwidth\n\
         refused 22 BadBandwidth\n\
         refused 23 Overload\n\
         admitted 1\n",
        true,
    ),
    (
        "stream a 1 2 4 4 invert YUV4MPEG2 W1 H1 Cmono\n\
         frames 16777217\n\
         start\n\
         admit c 1 2 4 4 invert YUV4MPEG2 W1 H1 Cmono\n",
        "stream 0\nok\nstarted\nrefused 21 BadLimits\n",
        true,
    ),
    // A name is one stream's, also where that was admitted or is drained.
    (
        "stream a 1 4 4 4 invert YUV4MPEG2 W1 H1 Cmono\n\
         start\n\
         admit c 1 4 4 4 invert YUV4MPEG2 W1 H1 Cmono\n\
         admit c 1 4 4 4 invert YUV4MPEG2 W1 H1 Cmono\n",
        "stream 0\nstarted\nadmitted 1\nline 4: BadName\n",
        false,
    ),
    (
        "stream a 1 4 4 4 invert YUV4MPEG2 W1 H1 Cmono\n\
         start\n\
         close a\n\
         admit a 1 4 4 4 invert YUV4MPEG2 W1 H1 Cmono\n\
         tick 1\n",
        "stream 0\nstarted\nclosing\nline 4: BadName\n",
        false,
    ),
    // Streams are admitted behind a start alone.
    (
        "admit a 1 4 4 4 invert YUV4MPEG2 W1 H1 Cmono\n",
        "line 1: BadLine\n",
        false,
    ),
    (
        "stream a 1 4 4 4 invert YUV4MPEG2 W1 H1 Cmono\n\
         admit c 1 4 4 4 invert YUV4MPEG2 W1 H1 Cmono\n",
        "stream 0\nline 2: BadLine\n",
        false,
    ),
    (
        "account 2 10\nadmit c 1 4 4 4 invert YUV4MPEG2 W1 H1 Cmono\n",
        "budget 2 deadline 0\nline 2: BadLine\n",
        false,
    ),
];

#[test]
fn admissions_print_their_lines(rt: HostRuntime) {
    expect_each(&rt, rt.alloc(), SCRIPTS);
}

/// What stands behind the name of a stream of a 64th part of a worker.
const SMALL: &str = "1 64 4 4 invert YUV4MPEG2 W1 H1 Cmono";

/// Numbers 64 streams, so many of them before the start, and asks for more. None is admitted, not even where
/// a share is left, and whatever it asks for.
fn numbers_all(alloc: Global, first: usize) -> Result<String, AllocError> {
    let mut script = String::new(alloc);
    for number in 0..first {
        writeln!(script, "stream s{number} {SMALL}")?;
    }
    script.push_str("start\n")?;
    for number in first..64 {
        writeln!(script, "admit s{number} {SMALL}")?;
    }
    writeln!(script, "admit z {SMALL}\nclose s0\nadmit z {SMALL}")?;
    script.push_str("admit z 2 1 0 4 invert YUV4MPEG2 W1 H1 Cmono\nclose s63\n")?;
    Ok(script)
}

/// What it prints.
fn all_numbered(alloc: Global, first: usize) -> Result<String, AllocError> {
    let mut lines = String::new(alloc);
    for number in 0..first {
        writeln!(lines, "stream {number}")?;
    }
    lines.push_str("started\n")?;
    for number in first..64 {
        writeln!(lines, "admitted {number}")?;
    }
    lines.push_str("refused 20 TooManyStreams\nclosing\n")?;
    lines.push_str("refused 20 TooManyStreams\nrefused 20 TooManyStreams\nclosing\n")?;
    Ok(lines)
}

#[test]
fn no_more_than_64_streams_are_numbered(rt: HostRuntime) -> Result<(), AllocError> {
    for first in [64, 63, 1] {
        let script = numbers_all(rt.alloc(), first)?;
        let lines = all_numbered(rt.alloc(), first)?;
        expect_lines(&rt, rt.alloc(), script.as_bytes(), lines.as_str(), true);
    }
    Ok(())
}
