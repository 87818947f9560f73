//! The lines that are printed for replies, refusals and states.
use crate::compare::same;
use serve_core::{Counts, Refusal, Reply};
use serve_script::{push_reply, push_state};
use std::alloc::{AllocError, Global};
use std::process::Abort;

/// Compares the line of a reply. A lease is of a stream `b`.
fn expect_line(rt: &impl Abort, alloc: Global, reply: &Reply, line: &str) {
    let mut printed = Vec::new(alloc);
    let pushed = push_reply(alloc, &mut printed, b"b".as_slice(), reply);
    same(rt, (pushed, printed.as_slice()), (Ok(()), line.as_bytes()));
}

#[test]
fn each_reply_has_its_line(rt: HostRuntime) {
    for (reply, line) in [
        (Reply::Accepted(0), "accepted 0\n"),
        (
            Reply::Leased(1, 16_777_215, 4),
            "leased b 16777215 grant 4\n",
        ),
        (Reply::Stepped, "stepped\n"),
        (Reply::Returned, "returned\n"),
        (Reply::Finished(7), "finished 7\n"),
        (Reply::Ticked, "ticked\n"),
        (Reply::Closing, "closing\n"),
        (Reply::Admitted(63), "admitted 63\n"),
    ] {
        expect_line(&rt, rt.alloc(), &reply, line);
    }
}

const REFUSALS: &[(Refusal, &str)] = &[
    (Refusal::NoStream, "refused 1 NoStream\n"),
    (Refusal::Closed, "refused 2 Closed\n"),
    (Refusal::WrongSize, "refused 3 WrongSize\n"),
    (Refusal::TooManyFrames, "refused 4 TooManyFrames\n"),
    (Refusal::Full, "refused 5 Full\n"),
    (Refusal::NoMemory, "refused 6 NoMemory\n"),
    (Refusal::NoWorker, "refused 7 NoWorker\n"),
    (Refusal::Busy, "refused 8 Busy\n"),
    (Refusal::NoneReady, "refused 9 NoneReady\n"),
    (Refusal::NoLease, "refused 10 NoLease\n"),
    (Refusal::GrantSpent, "refused 11 GrantSpent\n"),
    (Refusal::Past, "refused 12 Past\n"),
    (Refusal::ClockEnd, "refused 13 ClockEnd\n"),
    (Refusal::AlreadyClosed, "refused 14 AlreadyClosed\n"),
    (Refusal::Empty, "refused 15 Empty\n"),
    (Refusal::Drained, "refused 16 Drained\n"),
    (Refusal::TooManyStreams, "refused 20 TooManyStreams\n"),
    (Refusal::BadLimits, "refused 21 BadLimits\n"),
    (Refusal::BadBandwidth, "refused 22 BadBandwidth\n"),
    (Refusal::Overload, "refused 23 Overload\n"),
];

#[test]
fn each_refusal_has_its_number_and_its_word(rt: HostRuntime) {
    for (refusal, line) in REFUSALS {
        expect_line(&rt, rt.alloc(), &Reply::Refused(*refusal), line);
    }
}

#[test]
fn a_state_has_its_account_and_its_counts(rt: HostRuntime) -> Result<(), AllocError> {
    let mut printed = Vec::new(rt.alloc());
    let counts = Counts {
        accepted: 3,
        finished: 2,
        collected: 1,
        charged: 20,
    };
    push_state(&mut printed, (2, 10), counts)?;
    let line = "budget 2 deadline 10 accepted 3 finished 2 collected 1 charged 20\n";
    same(&rt, printed.as_slice(), line.as_bytes());
    Ok(())
}
