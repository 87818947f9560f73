//! A client that pauses with an image in hand.
use super::steps::{After, Case, LOUD, Step, follow};
use super::{THREE_FRAMES, TWO_OFFERED};
use serve_work::Stop;
use y4m_stream::WriteFault;

/// Three are left: the frame in hand is offered, and of the first image three bytes go out.
const THREE_BYTES: Step = Step {
    finished: 2,
    busy: 7,
    takes: 3,
    after: After::Paused(3, 1, 0),
    ..LOUD
};

/// One is left, and the first image is in hand.
const IN_HAND: Step = Step {
    busy: 13,
    after: After::Paused(3, 1, 0),
    ..LOUD
};

/// One is left: of the last image three bytes go out. The stream is closed.
const LAST_BYTES: Step = Step {
    finished: 1,
    busy: 12,
    takes: 3,
    after: After::Paused(3, 3, 2),
    ..LOUD
};

const BY_PARTS: &[Case<'_>] = &[
    Case {
        name: "an image goes out over three epochs, and then frames are read on",
        steps: &[
            TWO_OFFERED,
            THREE_BYTES,
            Step {
                takes: 4,
                ..IN_HAND
            },
            Step {
                takes: 0,
                ..IN_HAND
            },
            Step {
                finished: 1,
                after: After::Ended(Stop::Whole, 3, 3),
                ..LOUD
            },
        ],
        ..THREE_FRAMES
    },
    Case {
        name: "an image goes out over three epochs behind the input's end",
        steps: &[
            TWO_OFFERED,
            // three are left: the frame in hand is offered, two images are written, and the input ends
            Step {
                finished: 2,
                busy: 7,
                after: After::Paused(3, 2, 2),
                ..LOUD
            },
            LAST_BYTES,
            Step {
                busy: 14,
                takes: 4,
                after: After::Paused(3, 3, 2),
                ..LOUD
            },
            Step {
                after: After::Ended(Stop::Whole, 3, 3),
                ..LOUD
            },
        ],
        ..THREE_FRAMES
    },
];

#[test]
fn an_image_goes_out_over_epochs(rt: HostRuntime) {
    for case in BY_PARTS {
        follow(&rt, rt.alloc(), case);
    }
}

const CUT_PARTS: &[Case<'_>] = &[
    Case {
        name: "the rest of an image fails, and frames are read on",
        room: 30,
        steps: &[
            TWO_OFFERED,
            THREE_BYTES,
            Step {
                takes: 4,
                ..IN_HAND
            },
            Step {
                finished: 1,
                after: After::Ended(Stop::Write(WriteFault::Device(30)), 3, 0),
                ..LOUD
            },
        ],
        written: b"YUV4MPEG2 W2 H2 Cmono\nFRAME\n\xff\xfe",
        ..THREE_FRAMES
    },
    Case {
        name: "the rest of an image fails, and the fault is held over an epoch",
        room: 25,
        steps: &[
            TWO_OFFERED,
            THREE_BYTES,
            Step {
                is_silent: true,
                ..IN_HAND
            },
            Step {
                finished: 1,
                after: After::Ended(Stop::Write(WriteFault::Device(25)), 3, 0),
                ..LOUD
            },
        ],
        written: b"YUV4MPEG2 W2 H2 Cmono\nFRA",
        ..THREE_FRAMES
    },
    Case {
        name: "the rest of an image fails behind the input's end",
        room: 49,
        steps: &[
            TWO_OFFERED,
            Step {
                finished: 2,
                busy: 7,
                after: After::Paused(3, 2, 2),
                ..LOUD
            },
            LAST_BYTES,
            Step {
                after: After::Ended(Stop::Write(WriteFault::Device(49)), 3, 2),
                ..LOUD
            },
        ],
        written: b"YUV4MPEG2 W2 H2 Cmono\nFRAME\n\xff\xfe\x01\x00FRAME\n\xef\xdf\xcf\xbfFRAME\n\xb9",
        ..THREE_FRAMES
    },
];

#[test]
fn a_part_that_fails_is_told(rt: HostRuntime) {
    for case in CUT_PARTS {
        follow(&rt, rt.alloc(), case);
    }
}
