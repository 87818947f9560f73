//! Replays of scripts, compared line by line.
use crate::compare::{same, same_at};
use serve_script::{ReplayFault, replay};
use std::alloc::{AllocError, Global};
use std::io::{ErrorKind, Read, Write};
use std::process::Abort;
use std::test::Fail;
use std::{io, str};
use test_tools::{Narrow, Tape};
use y4m_stream::{OverRead, OverWrite};

/// Replays what a reader gives into a writer.
fn replay_into<R: Read + Drop, W: Write>(
    alloc: Global,
    input: R,
    output: W,
) -> (W, Result<bool, ReplayFault>) {
    let (output, outcome) = replay(alloc, OverRead::new(input), OverWrite::new(output));
    (output.into_inner(), outcome)
}

/// Replays what a reader gives into memory, which refuses bytes for want of memory alone.
fn replay_into_memory<R: Read + Drop>(
    alloc: Global,
    input: R,
) -> (Vec<u8>, Result<bool, ReplayFault>) {
    let (printed, outcome) = replay_into(alloc, input, Vec::new(alloc));
    let outcome = match outcome {
        Err(ReplayFault::Write) => Err(ReplayFault::NoMemory),
        told => told,
    };
    (printed, outcome)
}

/// Replays what a reader gives, and compares what it prints and answers.
fn expect_replay<R: Read + Drop>(
    rt: &impl Abort,
    alloc: Global,
    script: R,
    lines: &str,
    whole: bool,
) {
    let (printed, outcome) = replay_into_memory(alloc, script);
    let told = (outcome, str::from_utf8(&printed));
    same(rt, told, (Ok(whole), Ok(lines)));
}

/// Replays a script that is held in memory, and compares what it prints and answers.
pub fn expect_lines(rt: &impl Abort, alloc: Global, script: &[u8], lines: &str, whole: bool) {
    expect_replay(rt, alloc, script, lines, whole);
}

/// A script, what it prints, and whether it is run to its end.
pub type Case<'a> = (&'a str, &'a str, bool);

/// Each of these scripts prints its lines, and is run to its end or has a fault.
pub fn expect_each(rt: &impl Abort, alloc: Global, cases: &[Case<'_>]) {
    for (script, lines, whole) in cases {
        let (printed, outcome) = replay_into_memory(alloc, script.as_bytes());
        let told = (*script, outcome, str::from_utf8(&printed));
        same(rt, told, (*script, Ok(*whole), Ok(*lines)));
    }
}

const BAD_LINE: &str = "line 1: BadLine\n";

const SCRIPTS: &[Case<'_>] = &[
    // Budgets and deadlines follow the published rules.
    (
        "account 2 10\nidle 0\ncharge 1\ncharge 1\n",
        "budget 2 deadline 0\nbudget 2 deadline 10\nbudget 1 deadline 10\nbudget 2 deadline 20\n",
        true,
    ),
    (
        "account 2 10\nidle 0\ncharge 1\nidle 5\n",
        "budget 2 deadline 0\nbudget 2 deadline 10\nbudget 1 deadline 10\nbudget 2 deadline 15\n",
        true,
    ),
    (
        "account 2 10\nidle 0\ncharge 1\nidle 4\n",
        "budget 2 deadline 0\nbudget 2 deadline 10\nbudget 1 deadline 10\nbudget 1 deadline 10\n",
        true,
    ),
    (
        "account 2 10\nidle 0\ncharge 1\ncharge 1\nidle 30\n",
        "budget 2 deadline 0\nbudget 2 deadline 10\nbudget 1 deadline 10\nbudget 2 deadline 20\n\
         budget 2 deadline 40\n",
        true,
    ),
    (
        "account 3 10\nidle 0\ncharge 7\n",
        "budget 3 deadline 0\nbudget 3 deadline 10\nbudget 2 deadline 30\n",
        true,
    ),
    (
        "account 2 10\ncharge 3\naccount 4 4\ncharge 0\n",
        "budget 2 deadline 0\nbudget 1 deadline 10\nbudget 4 deadline 0\nbudget 4 deadline 0\n",
        true,
    ),
    ("", "", true),
    // A fault is the last line.
    ("account 5 4", "line 1: BadBandwidth\n", false),
    ("account 0 4", "line 1: BadBandwidth\n", false),
    ("account 1 1048577", "line 1: BadBandwidth\n", false),
    (
        "account 2 10\ncharge 1099511627777\ncharge 1\n",
        "budget 2 deadline 0\nline 2: Range\n",
        false,
    ),
    (
        "account 2 10\nidle 1152921504606846977\nidle 1\n",
        "budget 2 deadline 0\nline 2: BadLine\n",
        false,
    ),
    ("idle 0\naccount 2 10\n", "line 1: BadLine\n", false),
    ("charge 1\n", "line 1: BadLine\n", false),
    (
        "account 2 10\nstart\n",
        "budget 2 deadline 0\nline 2: BadLine\n",
        false,
    ),
    ("account\n", "line 1: BadLine\n", false),
    // Numbers reach their limits.
    (
        "account 1 1048576\nidle 1152921504606846976\n",
        "budget 1 deadline 0\nbudget 1 deadline 1152921504607895552\n",
        true,
    ),
    (
        "account 1048576 1048576\ncharge 1099511627776\n",
        "budget 1048576 deadline 0\nbudget 1048576 deadline 1099511627776\n",
        true,
    ),
    (
        "account 0000000000000000002 0010\nidle 0000000000000000000\n",
        "budget 2 deadline 0\nbudget 2 deadline 10\n",
        true,
    ),
    // Each charge puts the deadline off by 2^60; the fourth would put it at 2^62.
    (
        "account 1 1048576\ncharge 1099511627776\ncharge 1099511627776\ncharge 1099511627776\n\
         charge 1099511627776\n",
        "budget 1 deadline 0\nbudget 1 deadline 1152921504606846976\n\
         budget 1 deadline 2305843009213693952\nbudget 1 deadline 3458764513820540928\n\
         line 5: Range\n",
        false,
    ),
    (
        "account 1 1\ncharge 9999999999999999999\n",
        "budget 1 deadline 0\nline 2: Range\n",
        false,
    ),
    (
        "account 1 1\nidle 9999999999999999999\n",
        "budget 1 deadline 0\nline 2: BadLine\n",
        false,
    ),
    (
        "account 00000000000000000002 10\n",
        "line 1: BadLine\n",
        false,
    ),
    (
        "account 2 18446744073709551616\n",
        "line 1: BadLine\n",
        false,
    ),
    // Comments and empty lines are counted.
    (
        "# a server\n\naccount 2 10\n#\n\n\ncharge 1\n\n#idle 3\nidle 2 2",
        "budget 2 deadline 0\nbudget 1 deadline 0\nline 10: BadLine\n",
        false,
    ),
    ("#\n\n# account 5 4", "", true),
    ("\n", "", true),
    // Words stand between single spaces.
    ("account 2 10", "budget 2 deadline 0\n", true),
    ("account  2 10", BAD_LINE, false),
    (" account 2 10", BAD_LINE, false),
    ("account 2 10 ", BAD_LINE, false),
    ("account 2 10\r", BAD_LINE, false),
    ("account 2 10 3", BAD_LINE, false),
    ("account 2", BAD_LINE, false),
    ("account 2\t10", BAD_LINE, false),
    ("Account 2 10", BAD_LINE, false),
    ("account +2 10", BAD_LINE, false),
    ("account 2 1O", BAD_LINE, false),
    ("accounts 2 10", BAD_LINE, false),
    (" ", BAD_LINE, false),
    (" # a comment", BAD_LINE, false),
];

#[test]
fn account_scripts_print_their_lines(rt: HostRuntime) {
    expect_each(&rt, rt.alloc(), SCRIPTS);
    expect_lines(&rt, rt.alloc(), b"\xff\x00 1", BAD_LINE, false);
}

/// Takes all, but its flush fails.
#[derive(Drop)]
struct Unflushed;

impl Write for Unflushed {
    fn write(&mut self, buf: &[u8]) -> io::Result<usize> {
        Ok(buf.len())
    }

    fn flush(&mut self) -> io::Result<()> {
        Err(io::Error::from(ErrorKind::StorageFull))
    }
}

#[test]
fn short_reads_make_no_difference(rt: HostRuntime) {
    let input = Tape::by_steps(b"account 2 10\nidle 0\ncharge 1", 1);
    let lines = "budget 2 deadline 0\nbudget 2 deadline 10\nbudget 1 deadline 10\n";
    expect_replay(&rt, rt.alloc(), input, lines, true);
}

#[test]
fn a_failed_read_prints_nothing(rt: HostRuntime) {
    let input = Tape::torn(b"account 2 10\ncharge 1\n", ErrorKind::Interrupted);
    let (printed, outcome) = replay_into_memory(rt.alloc(), input);
    same(&rt, outcome, Err(ReplayFault::Read));
    same(&rt, printed.as_slice(), b"".as_slice());
}

/// Its report has three lines, of 20, 20 and 16 bytes.
const THREE_LINES: &[u8] = b"account 2 10\ncharge 1\nstart\n";

/// Replays the script into outputs that take so many bytes, and then fail or take none.
fn cut_outputs_are_told(rt: &impl Abort, alloc: Global, failure: Option<ErrorKind>) {
    for room in 0..56 {
        let (_, outcome) = replay_into(alloc, THREE_LINES, Narrow::new(room, failure));
        same_at(rt, outcome, Err(ReplayFault::Write), room);
    }
}

#[test]
fn a_failed_write_of_each_byte_is_told(rt: HostRuntime) {
    cut_outputs_are_told(&rt, rt.alloc(), Some(ErrorKind::StorageFull));
}

#[test]
fn each_byte_that_is_not_taken_is_told(rt: HostRuntime) {
    cut_outputs_are_told(&rt, rt.alloc(), None);
}

#[test]
fn a_failed_flush_is_told(rt: HostRuntime) {
    let room = Narrow::new(56, Some(ErrorKind::StorageFull));
    let (_, outcome) = replay_into(rt.alloc(), THREE_LINES, room);
    same(&rt, outcome, Ok(false));
    let (_, outcome) = replay_into(rt.alloc(), THREE_LINES, Unflushed);
    same(&rt, outcome, Err(ReplayFault::Write));
}

/// So many empty lines, and then one `account`.
fn after_empty_lines(alloc: Global, count: usize) -> Result<Vec<u8>, AllocError> {
    let mut script = Vec::from_elem(alloc, b'\n', count)?;
    script.extend_from_slice(b"account 2 10")?;
    Ok(script)
}

#[test]
fn a_script_of_the_greatest_size_is_run(rt: HostRuntime) -> Result<(), AllocError> {
    let script = after_empty_lines(rt.alloc(), 1_048_576 - 12)?;
    same(&rt, script.len(), 1_048_576);
    expect_lines(&rt, rt.alloc(), &script, "budget 2 deadline 0\n", true);
    Ok(())
}

#[test]
fn a_longer_script_is_too_long_and_is_not_read_on(rt: HostRuntime) -> Result<(), AllocError> {
    let script = after_empty_lines(rt.alloc(), 1_048_577 - 12)?;
    expect_lines(&rt, rt.alloc(), &script, "line 0: TooLong\n", false);
    let longer = after_empty_lines(rt.alloc(), 1_100_000)?;
    let mut input = Tape::by_steps(&longer, 1);
    expect_replay(&rt, rt.alloc(), &mut input, "line 0: TooLong\n", false);
    let read = longer.len().checked_sub(input.left.len());
    same(&rt, read, Some(1_048_577));
    Ok(())
}

#[test]
fn a_long_script_of_great_charges_is_run_to_its_end(rt: HostRuntime) -> Result<(), AllocError> {
    let mut script = String::from_str(rt.alloc(), "account 1048576 1048576\n")?;
    let charges = "charge 1099511627776\n".repeat(rt.alloc(), 49_931)?;
    script.push_str(charges.as_str())?;
    same(&rt, script.len(), 1_048_575);
    let (printed, outcome) = replay_into_memory(rt.alloc(), script.as_bytes());
    same(&rt, outcome, Ok(true));
    // Each charge of 2^40 units puts the deadline off by 2^40.
    let end = b"\nbudget 1048576 deadline 54899715086483456\n".as_slice();
    same(&rt, printed.as_slice().ends_with(end), true);
    Ok(())
}

#[test]
fn a_refused_growth_is_told_in_the_last_line(rt: HostRuntime) -> Result<(), Fail> {
    let mut room = [0; 64];
    let script = b"account 2 10\ncharge 1\n".as_slice();
    let (rest, outcome) = replay_into(rt.alloc(), script, room.as_mut_slice());
    let left = rest.len();
    let printed = str::from_utf8(&room[..64 - left.min(64)])?;
    let told = match outcome {
        Err(ReplayFault::NoMemory) => {
            printed == "line 0: NoMemory\n"
                || printed == "line 1: NoMemory\n"
                || printed == "budget 2 deadline 0\nline 2: NoMemory\n"
        }
        _ => printed == "budget 2 deadline 0\nbudget 1 deadline 0\n" && outcome == Ok(true),
    };
    same_at(&rt, told, true, printed);
    Ok(())
}

#[test]
fn faults_have_their_words(rt: HostRuntime) -> Result<(), AllocError> {
    for (fault, word) in [
        (ReplayFault::Read, "read"),
        (ReplayFault::Write, "write"),
        (ReplayFault::NoMemory, "NoMemory"),
    ] {
        let shown = format!(in rt.alloc(); "{fault}")?;
        same(&rt, shown.as_str(), word);
    }
    Ok(())
}
