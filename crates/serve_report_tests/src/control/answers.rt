//! The lines that a control answers with.
use crate::compare::same_at;
use serve_report::control::answer::{Holding, Said, Standing, say};
use serve_report::control::line::LineFault;
use serve_report::control::{AdmitFault, StreamRow, StreamStop};
use std::io::ErrorKind;
use test_tools::{Narrow, Room};

/// What is reported of a stream that stopped so.
fn stopped(name: &str, stop: StreamStop) -> StreamRow<'_> {
    StreamRow {
        name,
        accepted: 3,
        delivered: 2,
        charged: 204,
        stop,
    }
}

const STANDING: Standing = Standing {
    accepted: 5,
    finished: 4,
    collected: 3,
    charged: 272,
    budget: 10,
    deadline: 1000,
};

const BIG: u64 = 18_446_744_073_709_551_615;

const FAR: Standing = Standing {
    accepted: BIG,
    finished: BIG,
    collected: BIG,
    charged: BIG,
    budget: BIG,
    deadline: BIG,
};

const HELD: Holding = Holding {
    q: 900,
    t: 1000,
    until: 1230,
};

const FAR_HELD: Holding = Holding {
    q: BIG,
    t: BIG,
    until: BIG,
};

#[test]
fn an_answer_is_one_line_in_one_write(rt: HostRuntime) {
    let answers = [
        (
            Said::Wrong(12, LineFault::BadName, b"a:in:out:1:2:invert"),
            "line 12: BadName 'a:in:out:1:2:invert'\n",
        ),
        (
            Said::Wrong(2, LineFault::BadLine, b""),
            "line 2: BadLine ''\n",
        ),
        // The first and the last of printable ASCII, and what stands beside them.
        (
            Said::Wrong(3, LineFault::BadLine, b"\x1f ~\x7f\x80\xff\0\n\t"),
            "line 3: BadLine '\\x1F ~\\x7F\\x80\\xFF\\x00\\x0A\\x09'\n",
        ),
        (
            Said::Wrong(4, LineFault::NoStream, b"close 'a\\b'"),
            "line 4: NoStream 'close \\x27a\\x5Cb\\x27'\n",
        ),
        // 61 bytes, of which 60 are told.
        (
            Said::Wrong(5, LineFault::TooLong, &[b'"'; 61]),
            "line 5: TooLong '\"\"\"\"\"\"\"\"\"\"\"\"\"\"\"\"\"\"\"\"\"\"\"\"\"\"\"\"\"\"\
             \"\"\"\"\"\"\"\"\"\"\"\"\"\"\"\"\"\"\"\"\"\"\"\"\"\"\"\"\"\"'\n",
        ),
        (Said::Admitted("a"), "a admitted\n"),
        (
            Said::Ended(stopped("a", StreamStop::Closed)),
            "a accepted 3 delivered 2 charged 204 stop closed\n",
        ),
        (
            Said::Ended(stopped("b", StreamStop::Admit(AdmitFault::Overload))),
            "b accepted 3 delivered 2 charged 204 stop admit Overload\n",
        ),
        (
            Said::Stands("a", STANDING),
            "a accepted 5 finished 4 collected 3 charged 272 budget 10 deadline 1000\n",
        ),
        (
            Said::Stands("camera-of-the-gate_0123456789abc", FAR),
            "camera-of-the-gate_0123456789abc accepted 18446744073709551615 \
             finished 18446744073709551615 collected 18446744073709551615 \
             charged 18446744073709551615 budget 18446744073709551615 \
             deadline 18446744073709551615\n",
        ),
        (
            Said::StandsLost("b", STANDING),
            "b accepted 5 finished 4 collected 3 charged 272 budget 10 deadline 1000 lost its output\n",
        ),
        (Said::LostOutput("b"), "b lost its output\n"),
        (Said::Opening("c"), "c opening\n"),
        (Said::Held("a", HELD), "a held 900:1000 until 1230\n"),
        (
            Said::Held("camera-of-the-gate_0123456789abc", FAR_HELD),
            "camera-of-the-gate_0123456789abc held 18446744073709551615:18446744073709551615 \
             until 18446744073709551615\n",
        ),
        (
            Said::Shares(910_000, 1_000_000),
            "shares 910000 of 1000000\n",
        ),
        (Said::Now(77, 2), "now 77 streams 2\n"),
        (Said::Units(476), "units 476\n"),
    ];
    for (said, text) in &answers {
        let mut room = Room::new(rt.alloc(), 512).expect(&rt, "no room");
        let is_said = say(&mut room, said).is_ok();
        let told = (is_said, room.writes, room.taken.as_slice());
        same_at(&rt, told, (true, 1, text.as_bytes()), *text);
    }
}

#[test]
fn an_output_that_fails_is_told(rt: HostRuntime) {
    for room in [0, 3] {
        let mut narrow = Narrow::new(room, Some(ErrorKind::Other));
        let is_said = say(&mut narrow, &Said::Units(1)).is_ok();
        same_at(&rt, is_said, false, room);
    }
}
