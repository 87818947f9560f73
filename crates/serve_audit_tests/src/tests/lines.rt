//! The lines of entries, and lines that are none.
use super::{same, same_at};
use serve_audit::AuditFault;
use serve_audit::text::{EntryLine, parse_entry};
use serve_hub::Act::{self, Admitted, Closed, Collected, Leased, Offered, Settled};
use serve_hub::Entry;
use serve_hub::Seat::{self, Stream, Worker};
use std::alloc::AllocError;

const LINES: &[(Seat, Act, &str)] = &[
    (Stream(3), Offered(None, 7), "offer 3 7"),
    (
        Stream(0),
        Offered(Some(1_152_921_504_606_846_976), 16_777_215),
        "offer 0 16777215 1152921504606846976",
    ),
    (Stream(63), Closed, "close 63"),
    (Stream(4_294_967_295), Admitted, "admit 4294967295"),
    (Stream(1), Collected(2), "collect 1 2"),
    (Worker(15), Leased(63, 5, 64), "lease 15 63 5 64"),
    (Worker(0), Settled(3, false), "settle 0 3"),
    (Worker(2), Settled(0, true), "finish 2 0"),
];

#[test]
fn each_entry_has_a_line(rt: HostRuntime) -> Result<(), AllocError> {
    for (seat, act, line) in LINES {
        let entry = Entry {
            seat: *seat,
            act: *act,
        };
        let text = format!(in rt.alloc(); "{}", EntryLine { entry })?;
        same(&rt, text.as_str(), line);
        same_at(&rt, parse_entry(line.as_bytes()), Some(entry), line);
    }
    Ok(())
}

/// An act that isn't its seat's has no word.
#[test]
fn an_act_of_another_seat_has_an_empty_line(rt: HostRuntime) -> Result<(), AllocError> {
    for (seat, act) in [
        (Stream(0), Leased(0, 0, 1)),
        (Stream(0), Settled(1, true)),
        (Worker(0), Offered(None, 0)),
        (Worker(0), Closed),
        (Worker(0), Collected(0)),
        (Worker(0), Admitted),
    ] {
        let entry = Entry { seat, act };
        let text = format!(in rt.alloc(); "{}", EntryLine { entry })?;
        same(&rt, text.as_str(), "");
    }
    Ok(())
}

#[test]
fn numbers_may_begin_with_zeros(rt: HostRuntime) {
    let entry = Entry {
        seat: Worker(1),
        act: Settled(2, false),
    };
    same(&rt, parse_entry(b"settle 001 02"), Some(entry));
}

const MALFORMED: &[&str] = &[
    "",
    " ",
    "offer",
    "offer ",
    "offer 0",
    "offer 0 0 0 0",
    "offer  0 0",
    " offer 0 0",
    "offer 0 0 ",
    "offer 0 0\n",
    "offer 0\t0",
    "Offer 0 0",
    "offers 0 0",
    "offer x 0",
    "offer -1 0",
    "offer +1 0",
    "offer 0 0x1",
    // Streams, workers, grants and bands have 32 bits, and no number has more than 19 digits.
    "offer 4294967296 0",
    "offer 0 10000000000000000000",
    "offer 0 0 10000000000000000000",
    "close",
    "close 0 0",
    "close 4294967296",
    "admit",
    "admit 0 0",
    "collect 0",
    "collect 0 0 0",
    "lease 0 0 0",
    "lease 0 0 0 1 2",
    "lease 0 4294967296 0 1",
    "lease 0 0 0 4294967296",
    "settle 0",
    "settle 0 1 1",
    "settle 0 4294967296",
    "finish 0",
    "finish 4294967296 1",
    "tick 5",
    "band 0",
];

#[test]
fn other_lines_write_no_entry(rt: HostRuntime) {
    for line in MALFORMED {
        same_at(&rt, parse_entry(line.as_bytes()), None, line);
    }
}

#[test]
fn faults_are_told_by_their_names(rt: HostRuntime) -> Result<(), AllocError> {
    for (fault, name) in [
        (AuditFault::Illegal(3), "Illegal"),
        (AuditFault::NoMemory, "NoMemory"),
    ] {
        let text = format!(in rt.alloc(); "{fault}")?;
        same(&rt, text.as_str(), name);
    }
    Ok(())
}
