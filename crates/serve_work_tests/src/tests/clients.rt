//! Streams that one client serves: to their ends, and up to a fault.
use super::{PLAIN, Plan, same_at, served};
use serve_work::{Cause, Stop};
use std::alloc::Global;
use std::process::Abort;
use std::sync::Wait;
use std::thread::Threads;
use test_tools::streams::{CUT, HEADER, ONE_INVERTED, THREE, THREE_INVERTED, TWO, numbered};
use y4m_stream::{ReadFault, WriteFault};

/// A stream, and what it comes to: why the client stops, how many frames were accepted and how many images
/// delivered by then, and what was written.
#[derive(Drop)]
struct Case<'a> {
    name: &'a str,
    input: &'a [u8],
    plan: Plan<'static>,
    end: (Stop, u64, u64),
    written: &'a [u8],
}

/// Serves a stream, and compares what it comes to.
fn comes_to(rt: &(impl Abort + Threads + Wait + Sync), alloc: Global, case: &Case<'_>) {
    let told = served(rt, alloc, case.input, case.plan);
    let end = (told.stop, told.accepted, told.delivered);
    same_at(rt, end, case.end, case.name);
    same_at(rt, told.written.as_slice(), case.written, case.name);
}

const WHOLE: &[Case<'_>] = &[
    Case {
        name: "a header alone is written",
        input: HEADER,
        plan: PLAIN,
        end: (Stop::Whole, 0, 0),
        written: HEADER,
    },
    Case {
        name: "three frames are inverted",
        input: THREE,
        plan: PLAIN,
        end: (Stop::Whole, 3, 3),
        written: THREE_INVERTED,
    },
    Case {
        name: "frames are cut to a sample",
        input: THREE,
        plan: Plan {
            ops: "crop:0,0,1,1",
            ..PLAIN
        },
        end: (Stop::Whole, 3, 3),
        written: b"YUV4MPEG2 W1 H1 Cmono\nFRAME\n\x00FRAME\n\x10FRAME\nF",
    },
];

#[test]
fn streams_are_served_to_their_ends(rt: HostRuntime) {
    for case in WHOLE {
        comes_to(&rt, rt.alloc(), case);
    }
}

/// The first frame is offered at moment 5, each other one a moment later.
#[test]
fn each_frame_asks_the_clock_anew(rt: HostRuntime) {
    let plan = Plan { moment: 5, ..PLAIN };
    let told = served(&rt, rt.alloc(), THREE, plan);
    same_at(
        &rt,
        told.ticks.as_slice(),
        [5, 6, 7].as_slice(),
        "the moments",
    );
}

#[test]
fn twenty_frames_pass_a_queue_of_four(rt: HostRuntime) {
    let (input, images) = numbered(rt.alloc(), 20).expect(&rt, "twenty frames");
    let case = Case {
        name: "twenty frames",
        input: &input,
        plan: PLAIN,
        end: (Stop::Whole, 20, 20),
        written: &images,
    };
    comes_to(&rt, rt.alloc(), &case);
}

/// The two frames, and one more.
const NUMBERS: &[u8] =
    b"YUV4MPEG2 W2 H2 Cmono\nFRAME\n\x00\x01\xfe\xffFRAME\n\x10\x20\x30\x40FRAME\n\x11\x22\x33\x44";

const FAULTS: &[Case<'_>] = &[
    Case {
        name: "a cut frame is truncated",
        input: CUT,
        plan: PLAIN,
        end: (Stop::Read(ReadFault::Truncated), 1, 1),
        written: ONE_INVERTED,
    },
    Case {
        name: "a writer fails after the header",
        input: NUMBERS,
        plan: Plan { room: 22, ..PLAIN },
        end: (Stop::Write(WriteFault::Device(22)), 3, 0),
        written: HEADER,
    },
    Case {
        name: "a writer fails in the second image",
        input: NUMBERS,
        plan: Plan { room: 39, ..PLAIN },
        end: (Stop::Write(WriteFault::Device(39)), 3, 1),
        written: b"YUV4MPEG2 W2 H2 Cmono\nFRAME\n\xff\xfe\x01\x00FRAME\n\xef",
    },
    Case {
        name: "a writer fails in the header",
        input: NUMBERS,
        plan: Plan { room: 9, ..PLAIN },
        end: (Stop::Write(WriteFault::Device(9)), 0, 0),
        written: b"YUV4MPEG2",
    },
    Case {
        name: "a second frame is one too many",
        input: TWO,
        plan: Plan { frames: 1, ..PLAIN },
        end: (Stop::Refused(Cause::TooManyFrames), 1, 1),
        written: ONE_INVERTED,
    },
    Case {
        name: "the clock is past its end",
        input: TWO,
        plan: Plan {
            moment: (1 << 60) + 1,
            ..PLAIN
        },
        end: (Stop::Refused(Cause::ClockEnd), 0, 0),
        written: HEADER,
    },
];

#[test]
fn clients_stop_at_a_fault(rt: HostRuntime) {
    for case in FAULTS {
        comes_to(&rt, rt.alloc(), case);
    }
}
