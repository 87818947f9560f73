//! What is said of wrong words, and what help tells.
use super::memory::NoFiles;
use super::{Run, all_run, says, words_of, written};
use crate::compare::same_at;
use serve_report::main_on;
use std::alloc::Global;
use std::process::Abort;
use std::sync::Wait;
use std::thread::Threads;
use std::time::Clock;
use test_tools::Narrow;

/// Words, and what is said of them.
const WRONG_WORDS: &[(&str, &str)] = &[
    // The parser tells wrong words in its own.
    (
        "filter",
        "error: the following required arguments were not provided:\n  <OPS>\n\n\
         Usage: y4mserve filter <OPS>\n\nFor more information, try '--help'.\n",
    ),
    (
        "filer invert",
        "error: unrecognized subcommand 'filer'\n\n  tip: a similar subcommand exists: 'filter'\n\n\
         Usage: y4mserve <COMMAND>\n\nFor more information, try '--help'.\n",
    ),
    // What stands behind `help` is a subcommand too.
    (
        "help filer",
        "error: unrecognized subcommand 'filer'\n\n\
         Usage: y4mserve <COMMAND>\n\nFor more information, try '--help'.\n",
    ),
    (
        "filter invert hflip",
        "error: unexpected argument 'hflip' found\n\n\
         Usage: y4mserve filter [OPTIONS] <OPS>\n\nFor more information, try '--help'.\n",
    ),
    (
        "replay now",
        "error: unexpected argument 'now' found\n\n\
         Usage: y4mserve replay\n\nFor more information, try '--help'.\n",
    ),
    // It tells the range of a number.
    (
        "filter --band 130 invert",
        "error: invalid value '130' for '--band <B>': 130 is not in 2..=128\n\n\
         For more information, try '--help'.\n",
    ),
    (
        "filter --band 0 invert",
        "error: invalid value '0' for '--band <B>': 0 is not in 2..=128\n\n\
         For more information, try '--help'.\n",
    ),
    (
        "filter --band two invert",
        "error: invalid value 'two' for '--band <B>': invalid digit found in string\n\n\
         For more information, try '--help'.\n",
    ),
    (
        "filter --threads 3 invert",
        "error: invalid value '3' for '--threads <N>': 3 is not in 1..=2\n\n\
         For more information, try '--help'.\n",
    ),
    // Words that it takes are checked in order.
    ("filter --band 3 invert", "y4mserve: bad band\n"),
    ("filter --band 127 blur:9", "y4mserve: bad band\n"),
    ("filter blur:9", "y4mserve: BadOp\n"),
    ("filter --quiet blur:0", "y4mserve: BadOp\n"),
    ("filter thresh:256", "y4mserve: BadOp\n"),
    ("filter --band 2 clamp:9,3", "y4mserve: BadOp\n"),
    (
        "filter hflip+hflip+hflip+hflip+hflip+hflip+hflip+hflip+hflip",
        "y4mserve: TooManyOps\n",
    ),
];

#[test]
fn wrong_words_are_told(rt: HostRuntime) {
    for (line, said) in WRONG_WORDS {
        let empty = b"".as_slice();
        let left = says(&rt, rt.alloc(), line, empty, &mut [0; 256], said, 2);
        same_at(&rt, left, 256, *line);
    }
}

#[test]
fn no_words_are_wrong_words(rt: HostRuntime) {
    let mut errors = [0; 512];
    let mut rest = errors.as_mut_slice();
    let mut output = [0; 0];
    let mut room = output.as_mut_slice();
    let words = Vec::new(rt.alloc());
    let status = main_on(
        &rt,
        rt.alloc(),
        &words,
        b"".as_slice(),
        &mut room,
        &mut rest,
        &NoFiles,
    );
    let left = rest.len();
    same_at(&rt, status, 2, "the status");
    let front = b"error: 'y4mserve' requires a subcommand";
    let said = written(&errors, left).get(..front.len());
    same_at(&rt, said, Some(front.as_slice()), "what is said");
}

const TALL: &[u8] = b"YUV4MPEG2 W1 H16384 Cmono\n";

/// 4 times 8,192 bands of 2 rows are just within the limit of 32,768.
const RIGHT_WORDS: &[Run<'_>] = &[
    ("filter --band 2 hflip+hflip+hflip+hflip", TALL, TALL, "", 0),
    (
        "filter --band 2 hflip+hflip+hflip+hflip+hflip",
        TALL,
        b"",
        "y4mserve: ops TooManySteps\n",
        1,
    ),
    // The program tells its version.
    (
        "--version",
        b"",
        b"y4mserve 0.1.0 (rattle-kit-13f logic dac8208d650f15bf)\n",
        "",
        0,
    ),
    (
        "-V",
        b"",
        b"y4mserve 0.1.0 (rattle-kit-13f logic dac8208d650f15bf)\n",
        "",
        0,
    ),
];

#[test]
fn words_that_are_right_are_followed(rt: HostRuntime) {
    all_run(&rt, rt.alloc(), RIGHT_WORDS);
}

/// Asks for help, and compares the front of what comes.
fn helps(
    rt: &(impl Abort + Threads + Wait + Clock + Copy + Drop + Send + Sync + 'static),
    alloc: Global,
    line: &str,
    front: &str,
    words: &[&str],
) {
    let mut room = [0; 16384];
    let left = says(rt, alloc, line, b"".as_slice(), &mut room, "", 0);
    let text = str::from_utf8(written(&room, left)).expect(rt, line);
    same_at(rt, text.starts_with(front), true, line);
    for word in words {
        let place = format_args!("{line}: {word}");
        same_at(rt, text.contains(*word), true, place);
    }
}

/// The operations and the faults of a stream, of which the page of `filter` speaks.
const FILTER_WORDS: &[&str] = &[
    "Usage: y4mserve filter [OPTIONS] <OPS>\n",
    "--band <B>",
    "2 to 128",
    "[default: 16]",
    "-q, --quiet",
    "-h, --help",
    "invert",
    "thresh:T",
    "0 to 255",
    "clamp:LO,HI",
    "hflip",
    "vflip",
    "crop:X,Y,W,H",
    "blur:R",
    "1 to 8",
    "16384",
    "67108864",
    "16777216",
    "bad band",
    "BadOp",
    "TooManyOps",
    "output is a terminal",
    "read Header",
    "NotY4m",
    "BadNumber",
    "RepeatedTag",
    "MissingSize",
    "UnknownChroma",
    "NotDivisible",
    "TooLarge",
    "LineTooLong",
    "NotFrame",
    "Truncated",
    "ops BadCrop",
    "TooManySteps",
    "TooManyFrames",
    "NoMemory",
];

const REPLAY_WORDS: &[&str] = &[
    "Usage: y4mserve replay\n",
    "account Q T",
    "idle R",
    "charge K",
    "admit NAME Q T QUEUE OUTBOX OPS HEADER",
    "TooManyStreams",
    "Overload",
    "line N: WORD",
    "BadLine",
    "BadBandwidth",
    "Range",
    "TooLong",
    "NoMemory",
];

const SERVE_WORDS: &[&str] = &[
    "Usage: y4mserve serve [OPTIONS] [NAME:IN:OUT:Q:T:OPS]...\n",
    "-q, --quiet\n",
    "--workers <N>",
    "1 to 16",
    "[default: 2]",
    "--quantum <K>",
    "1 to 64",
    "[default: 8]",
    "--journal <N>",
    "66 to 1048576",
    "[default: 65536]",
    "--control <FILE>",
    "close NAME",
    "--moment <US>",
    "1 to 1000000",
    "--band <B>",
    "blur:R",
    "deadline",
    "units 816",
    "open",
    "ops E",
    "create",
    "write N",
    "TooManyFrames",
    "ClockEnd",
    "torn",
    "closed",
    "admit E",
    "AlreadyClosed",
    "no streams",
    "bad stream WORD",
    "repeated name NAME",
    "repeated file FILE",
    "BadBandwidth NAME",
    "Overload NAME",
    "session Mismatch",
];

const PROGRAM_WORDS: &[&str] = &[
    "Usage: y4mserve <COMMAND>\n",
    "filter",
    "replay",
    "serve",
    "help",
    "--version",
];

/// Words that ask for help, how what comes begins, and what stands in it.
const HELPS: &[(&str, &str, &[&str])] = &[
    ("filter --help", "Reads a YUV4MPEG2 stream", FILTER_WORDS),
    ("help filter", "Reads a YUV4MPEG2 stream", FILTER_WORDS),
    (
        "filter invert --help",
        "Reads a YUV4MPEG2 stream",
        FILTER_WORDS,
    ),
    (
        "filter -h",
        "Filters a stream from standard input to standard output\n\n\
         Usage: y4mserve filter [OPTIONS] <OPS>\n",
        &["--band <B>", "--threads <N>", "-q, --quiet"],
    ),
    ("replay --help", "Reads a script", REPLAY_WORDS),
    ("help replay", "Reads a script", REPLAY_WORDS),
    ("serve --help", "Filters many streams at once", SERVE_WORDS),
    ("help serve", "Filters many streams at once", SERVE_WORDS),
    ("--help", "Filters YUV4MPEG2 streams", PROGRAM_WORDS),
    ("-h", "Filters YUV4MPEG2 streams", PROGRAM_WORDS),
    ("help", "Filters YUV4MPEG2 streams", PROGRAM_WORDS),
];

#[test]
fn each_help_is_a_page_to_work_from(rt: HostRuntime) {
    for (line, front, words) in HELPS {
        helps(&rt, rt.alloc(), line, front, words);
    }
}

#[test]
fn help_that_is_not_taken_is_told(rt: HostRuntime) {
    let empty = b"".as_slice();
    let said = "y4mserve: write\n";
    says(&rt, rt.alloc(), "--version", empty, &mut [0; 5], said, 1);
}

/// Words, and in how many writes the program says what is wrong, and writes what it gives.
const LINES: &[(&str, (u64, u64))] = &[
    ("filter blur:9", (1, 0)),
    ("filter --band 5 invert", (1, 0)),
    ("filter invert", (1, 0)),
    ("filer", (1, 0)),
    ("--version", (0, 1)),
];

#[test]
fn what_is_said_goes_out_in_one_write(rt: HostRuntime) {
    for (line, lines) in LINES {
        let words = words_of(rt.alloc(), line).expect(&rt, line);
        let mut errors = Narrow::new(usize::MAX, None);
        let mut output = Narrow::new(usize::MAX, None);
        main_on(
            &rt,
            rt.alloc(),
            &words,
            b"".as_slice(),
            &mut output,
            &mut errors,
            &NoFiles,
        );
        same_at(&rt, (errors.writes, output.writes), *lines, *line);
    }
}
