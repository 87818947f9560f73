//! Runs of the program: what it writes and says, and its status.
use self::memory::NoFiles;
use crate::compare::same_at;
use serve_report::main_on;
use std::alloc::{AllocError, Global};
use std::io::Read;
use std::process::Abort;
use std::sync::Wait;
use std::thread::Threads;
use std::time::Clock;
use test_tools::Tape;

mod command_line;
mod control;
mod memory;
mod serving;
mod threads;
mod watches;

fn words_of(alloc: Global, line: &str) -> Result<Vec<String>, AllocError> {
    let mut words = Vec::new(alloc);
    for word in line.split(' ') {
        words.push(String::from_str(alloc, word)?)?;
    }
    Ok(words)
}

/// What was written into a room of which so much is left.
fn written(room: &[u8], left: usize) -> &[u8] {
    &room[..room.len() - left.min(room.len())]
}

/// A run of the program: its words, its input, what it writes and says, and its status.
type Run<'a> = (&'a str, &'a [u8], &'a [u8], &'a str, u8);

/// Runs the program with these words, compares what it says of faults and its status, and answers how much is
/// left of the room for its output.
fn says<R: Read + Drop + Send>(
    rt: &(impl Abort + Threads + Wait + Clock + Copy + Drop + Send + Sync + 'static),
    alloc: Global,
    line: &str,
    input: R,
    mut room: &mut [u8],
    errors: &str,
    status: u8,
) -> usize {
    let words = words_of(alloc, line).expect(rt, line);
    let mut faults = [0; 512];
    let mut rest = faults.as_mut_slice();
    let answer = main_on(rt, alloc, &words, input, &mut room, &mut rest, &NoFiles);
    let left = rest.len();
    let said = str::from_utf8(written(&faults, left)).ok();
    same_at(rt, (said, answer), (Some(errors), status), line);
    room.len()
}

/// Runs the program in each of these ways, and compares what it writes and says, and its status.
fn all_run(
    rt: &(impl Abort + Threads + Wait + Clock + Copy + Drop + Send + Sync + 'static),
    alloc: Global,
    runs: &[Run<'_>],
) {
    for (line, input, output, errors, status) in runs {
        let mut room = [0; 256];
        let left = says(rt, alloc, line, *input, &mut room, errors, *status);
        same_at(rt, written(&room, left), *output, *line);
    }
}

const STREAMS: &[Run<'_>] = &[
    // A header alone gives the header alone.
    (
        "filter invert",
        b"YUV4MPEG2 W2 H2 F25:1 Ip A1:1 Cmono XA=b\n",
        b"YUV4MPEG2 W2 H2 F25:1 Ip A1:1 Cmono XA=b\n",
        "",
        0,
    ),
    // A fault of the stream is one line.
    (
        "filter invert",
        b"YUV4MPEG2 W1 H1 Cmono\nFRAMES\n\x00",
        b"YUV4MPEG2 W1 H1 Cmono\n",
        "y4mserve: read NotFrame\n",
        1,
    ),
    (
        "filter invert",
        b"YUV4MPEG2 W1 H1 Cmono\nFRAME",
        b"YUV4MPEG2 W1 H1 Cmono\n",
        "y4mserve: read Truncated\n",
        1,
    ),
    ("filter invert", b"", b"", "y4mserve: read Truncated\n", 1),
    // A fault of the header is named.
    (
        "filter invert",
        b"YUV4MPEG2\n",
        b"",
        "y4mserve: read Header MissingSize\n",
        1,
    ),
    (
        "filter invert",
        b"YUV4MPEG2W2 H2\n",
        b"",
        "y4mserve: read Header NotY4m\n",
        1,
    ),
    (
        "filter invert",
        b"YUV4MPEG2 W2 W2 H2\n",
        b"",
        "y4mserve: read Header RepeatedTag\n",
        1,
    ),
    (
        "filter invert",
        b"YUV4MPEG2 W0 H2\n",
        b"",
        "y4mserve: read Header BadNumber\n",
        1,
    ),
    (
        "filter invert",
        b"YUV4MPEG2 W2 H2 C420p10\n",
        b"",
        "y4mserve: read Header UnknownChroma\n",
        1,
    ),
    (
        "filter invert",
        b"YUV4MPEG2 W16385 H1 Cmono\n",
        b"",
        "y4mserve: read Header TooLarge\n",
        1,
    ),
    // A crop gives its own header and samples.
    ("filter crop:2,0,2,2", WIDE, CROPPED, "", 0),
    ("filter --threads 1 crop:2,0,2,2", WIDE, CROPPED, "", 0),
    ("filter --threads 2 crop:2,0,2,2", WIDE, CROPPED, "", 0),
    // A crop that parts a chroma sample writes nothing.
    (
        "filter crop:1,0,2,2",
        WIDE,
        b"",
        "y4mserve: ops BadCrop\n",
        1,
    ),
    // A threshold is that of the words.
    (
        "filter thresh:128",
        b"YUV4MPEG2 W2 H1 Cmono\nFRAME\n\x00\x80",
        b"YUV4MPEG2 W2 H1 Cmono\nFRAME\n\x00\xFF",
        "",
        0,
    ),
    // Nine operations are refused.
    (
        "filter invert+invert+invert+invert+invert+invert+invert+invert+invert",
        b"",
        b"",
        "y4mserve: TooManyOps\n",
        2,
    ),
    // Where a band has 16 rows, four blurs cost a frame of 16,384 rows 1,024 times 32 units, which is the
    // most that it may cost. In bands of 14 rows it would be 1,171 times 32, and in bands of 18 rows one
    // operation more would be let in too: 911 times 33.
    ("filter blur:7+blur:7+blur:7+blur:7", TALL, TALL, "", 0),
    (
        "filter blur:7+blur:7+blur:7+blur:7+hflip",
        TALL,
        b"",
        "y4mserve: ops TooManySteps\n",
        1,
    ),
];

/// Two rows of luma 0 to 7, then Cb 16 to 19, then Cr 32 to 35.
const WIDE: &[u8] =
    b"YUV4MPEG2 W4 H2 C422\nFRAME\n\x00\x01\x02\x03\x04\x05\x06\x07\x10\x11\x12\x13\x20\x21\x22\x23";

/// Its columns 2 and 3.
const CROPPED: &[u8] = b"YUV4MPEG2 W2 H2 C422\nFRAME\n\x02\x03\x06\x07\x11\x13\x21\x23";

const TALL: &[u8] = b"YUV4MPEG2 W1 H16384 Cmono\n";

#[test]
fn streams_are_filtered(rt: HostRuntime) {
    all_run(&rt, rt.alloc(), STREAMS);
}

const READS: &[(&str, &str)] = &[
    ("filter invert", "y4mserve: read Device\n"),
    ("replay", "y4mserve: read\n"),
];

#[test]
fn a_failed_read_is_said(rt: HostRuntime) {
    for (line, said) in READS {
        let broken = Tape::new(b"", true);
        says(&rt, rt.alloc(), line, broken, &mut [0; 5], said, 1);
    }
}

#[test]
fn a_failed_write_is_said(rt: HostRuntime) {
    let mut room = [0; 5];
    let text = b"YUV4MPEG2 W2 H1 Cmono\n".as_slice();
    let said = "y4mserve: write 5\n";
    says(&rt, rt.alloc(), "filter invert", text, &mut room, said, 1);
    same_at(&rt, room, *b"YUV4M", "the front of the header");
}

#[test]
fn a_failed_write_of_a_script_is_said(rt: HostRuntime) {
    let mut room = [0; 5];
    let script = b"account 2 10\n".as_slice();
    let said = "y4mserve: write\n";
    says(&rt, rt.alloc(), "replay", script, &mut room, said, 1);
    // The front of the answer, or of the line that says that its growth was refused.
    let is_front = [*b"budge", *b"line "].contains(&room);
    same_at(
        &rt,
        (room, is_front),
        (room, true),
        "the front of the answer",
    );
}

const SCRIPTS: &[Run<'_>] = &[
    // A script prints its lines and tells a fault by its status.
    ("replay", b"account 5 4\n", b"line 1: BadBandwidth\n", "", 1),
    (
        "replay",
        b"account 2 10\ncharge 1099511627777\n",
        b"budget 2 deadline 0\nline 2: Range\n",
        "",
        1,
    ),
    (
        "replay",
        b"account 2 10\nidle 1152921504606846977\n",
        b"budget 2 deadline 0\nline 2: BadLine\n",
        "",
        1,
    ),
    (
        "replay",
        b"account 3 10\nidle 0\ncharge 7\n",
        b"budget 3 deadline 0\nbudget 3 deadline 10\nbudget 2 deadline 30\n",
        "",
        0,
    ),
    ("replay", b"", b"", "", 0),
    // Two units after an idle arrival recharge once.
    (
        "replay",
        b"account 2 10\nidle 0\ncharge 1\ncharge 1\n",
        b"budget 2 deadline 0\nbudget 2 deadline 10\nbudget 1 deadline 10\nbudget 2 deadline 20\n",
        "",
        0,
    ),
    // An idle arrival recharges at equality and not below.
    (
        "replay",
        b"account 2 10\nidle 0\ncharge 1\nidle 5\n",
        b"budget 2 deadline 0\nbudget 2 deadline 10\nbudget 1 deadline 10\nbudget 2 deadline 15\n",
        "",
        0,
    ),
    (
        "replay",
        b"account 2 10\nidle 0\ncharge 1\nidle 4\n",
        b"budget 2 deadline 0\nbudget 2 deadline 10\nbudget 1 deadline 10\nbudget 1 deadline 10\n",
        "",
        0,
    ),
    // An idle arrival after a long silence recharges.
    (
        "replay",
        b"account 2 10\nidle 0\ncharge 1\ncharge 1\nidle 30\n",
        b"budget 2 deadline 0\nbudget 2 deadline 10\nbudget 1 deadline 10\nbudget 2 deadline 20\n\
          budget 2 deadline 40\n",
        "",
        0,
    ),
];

#[test]
fn scripts_are_replayed(rt: HostRuntime) {
    all_run(&rt, rt.alloc(), SCRIPTS);
}
