//! Where a client pauses, one pause after another, without a thread.
//!
//! An epoch has sixteen entries, and one is kept for the close of each of two streams that isn't closed yet.
//! In each epoch a worker first finishes frames of the stream, at two entries each; then the other stream is
//! offered frames, at one entry each, and a frame of it is unfinished from then on; then the client has its
//! turn, in which each frame that is offered and each image that is collected has an entry.
mod parts;
mod shy;
mod steps;

use self::steps::{After, Case, LOUD, Step, follow, gives_back};
use super::{PLAIN, same_at};
use serve_work::{Cause, Stop};
use test_tools::streams::{CUT, HEADER, ONE_INVERTED, THREE, THREE_INVERTED, numbered};
use y4m_stream::{ReadFault, WriteFault};

/// Two frames, and a third one that is cut.
const CUT_LATE: &[u8] =
    b"YUV4MPEG2 W2 H2 Cmono\nFRAME\n\x00\x01\xfe\xffFRAME\n\x10\x20\x30\x40FRAME\nFR";

/// The writer takes the header line alone.
const BROKEN: Stop = Stop::Write(WriteFault::Device(22));

/// Three frames, whose images are written.
const THREE_FRAMES: Case<'_> = Case {
    name: "",
    input: THREE,
    room: PLAIN.room,
    frames: PLAIN.frames,
    steps: &[],
    written: THREE_INVERTED,
    torn: None,
};

/// Two entries are left: the third frame is in hand.
const TWO_OFFERED: Step = Step {
    busy: 12,
    after: After::Paused(2, 0, 0),
    ..LOUD
};

/// One entry is left: the second frame is in hand.
const ONE_OFFERED: Step = Step {
    busy: 13,
    after: After::Paused(1, 0, 0),
    ..LOUD
};

/// Two entries are left: the frame in hand is offered, and an image is collected.
const ONE_AND_ONE: Step = Step {
    finished: 1,
    busy: 10,
    ..LOUD
};

const FEEDING: &[Case<'_>] = &[
    Case {
        name: "with a frame in hand, and then draining",
        steps: &[
            TWO_OFFERED,
            // three are left: the frame in hand is offered, two images are written, and the input ends
            Step {
                finished: 2,
                busy: 7,
                after: After::Paused(3, 2, 2),
                ..LOUD
            },
            Step {
                finished: 1,
                after: After::Ended(Stop::Whole, 3, 3),
                ..LOUD
            },
        ],
        ..THREE_FRAMES
    },
    Case {
        name: "with none in hand, where an image can't be collected",
        steps: &[
            TWO_OFFERED,
            // one is left: the frame in hand is offered
            Step {
                finished: 2,
                busy: 9,
                after: After::Paused(3, 0, 0),
                ..LOUD
            },
            Step {
                finished: 1,
                after: After::Ended(Stop::Whole, 3, 3),
                ..LOUD
            },
        ],
        ..THREE_FRAMES
    },
    Case {
        name: "with none in hand, where the source is silent",
        steps: &[
            // one is left, but none is needed
            Step {
                busy: 13,
                is_silent: true,
                after: After::Paused(0, 0, 0),
                ..LOUD
            },
            // four are left: three frames are offered, and the input ends
            Step {
                busy: 10,
                after: After::Paused(3, 0, 0),
                ..LOUD
            },
            Step {
                finished: 3,
                after: After::Ended(Stop::Whole, 3, 3),
                ..LOUD
            },
        ],
        ..THREE_FRAMES
    },
    Case {
        name: "in each epoch, where the source is silent in some",
        steps: &[
            ONE_OFFERED,
            // two are left: the second frame is offered, and an image is written
            Step {
                is_silent: true,
                after: After::Paused(2, 1, 1),
                ..ONE_AND_ONE
            },
            // an image is written, and one entry is left
            Step {
                is_silent: true,
                after: After::Paused(2, 2, 2),
                ..ONE_AND_ONE
            },
            // two are left: the third frame is offered, and the input ends
            Step {
                busy: 12,
                after: After::Paused(3, 2, 2),
                ..LOUD
            },
            Step {
                finished: 1,
                after: After::Ended(Stop::Whole, 3, 3),
                ..LOUD
            },
        ],
        ..THREE_FRAMES
    },
];

#[test]
fn a_client_pauses_while_it_feeds_and_drains(rt: HostRuntime) {
    for case in FEEDING {
        follow(&rt, rt.alloc(), case);
    }
}

#[test]
fn a_stream_that_began_gives_no_reader_back(rt: HostRuntime) {
    let came = gives_back(&rt, rt.alloc(), TWO_OFFERED);
    same_at(&rt, came, false, "a stream that paused");
}

/// No image is written.
const NO_IMAGES: Case<'_> = Case {
    room: 22,
    written: HEADER,
    ..THREE_FRAMES
};

const HOLDING: &[Case<'_>] = &[
    Case {
        name: "a fault is held, with a frame in hand, and images are thrown away",
        steps: &[
            ONE_OFFERED,
            // the image isn't written, and the third frame is read
            Step {
                after: After::Paused(2, 1, 0),
                ..ONE_AND_ONE
            },
            // the third frame is offered, the input ends, and the second image is thrown away
            Step {
                after: After::Paused(3, 2, 0),
                ..ONE_AND_ONE
            },
            Step {
                finished: 1,
                after: After::Ended(BROKEN, 3, 0),
                ..LOUD
            },
        ],
        ..NO_IMAGES
    },
    Case {
        name: "a fault is held, with none in hand",
        steps: &[
            ONE_OFFERED,
            Step {
                is_silent: true,
                after: After::Paused(2, 1, 0),
                ..ONE_AND_ONE
            },
            Step {
                after: After::Paused(3, 2, 0),
                ..ONE_AND_ONE
            },
            Step {
                finished: 1,
                after: After::Ended(BROKEN, 3, 0),
                ..LOUD
            },
        ],
        ..NO_IMAGES
    },
    Case {
        name: "a fault is held, and the input is cut",
        input: CUT_LATE,
        steps: &[
            ONE_OFFERED,
            Step {
                after: After::Paused(2, 1, 0),
                ..ONE_AND_ONE
            },
            Step {
                finished: 1,
                after: After::Ended(BROKEN, 2, 0),
                ..LOUD
            },
        ],
        ..NO_IMAGES
    },
    Case {
        name: "a fault is held over an epoch, and then the input is cut",
        input: CUT_LATE,
        steps: &[
            ONE_OFFERED,
            Step {
                is_silent: true,
                after: After::Paused(2, 1, 0),
                ..ONE_AND_ONE
            },
            Step {
                finished: 1,
                after: After::Ended(BROKEN, 2, 0),
                ..LOUD
            },
        ],
        ..NO_IMAGES
    },
    Case {
        name: "an image fails where the client drains",
        steps: &[
            TWO_OFFERED,
            // one is left: the frame in hand is offered
            Step {
                busy: 13,
                after: After::Paused(3, 0, 0),
                ..LOUD
            },
            // one is left: the first image isn't written, and the second one isn't collected
            Step {
                finished: 2,
                busy: 10,
                after: After::Paused(3, 1, 0),
                ..LOUD
            },
            Step {
                finished: 1,
                after: After::Ended(BROKEN, 3, 0),
                ..LOUD
            },
        ],
        ..NO_IMAGES
    },
];

#[test]
fn a_client_pauses_while_it_holds_a_fault(rt: HostRuntime) {
    for case in HOLDING {
        follow(&rt, rt.alloc(), case);
    }
}

/// Two entries are left: the frame is offered, no more are accepted, and its image can't be collected.
const CLOSED: Step = Step {
    busy: 12,
    after: After::Paused(1, 0, 0),
    ..LOUD
};

/// The image isn't written, behind a fault that came before.
const SPOILT: &[Case<'_>] = &[
    Case {
        name: "the input is cut, and then an image fails",
        input: CUT,
        steps: &[
            CLOSED,
            Step {
                finished: 1,
                after: After::Ended(Stop::Read(ReadFault::Truncated), 1, 0),
                ..LOUD
            },
        ],
        ..NO_IMAGES
    },
    Case {
        name: "a frame is one too many, and then an image fails",
        frames: 1,
        steps: &[
            CLOSED,
            Step {
                finished: 1,
                after: After::Ended(Stop::Refused(Cause::TooManyFrames), 1, 0),
                ..LOUD
            },
        ],
        ..NO_IMAGES
    },
];

#[test]
fn a_fault_is_told_that_came_before_a_failed_image(rt: HostRuntime) {
    for case in SPOILT {
        follow(&rt, rt.alloc(), case);
    }
}

/// The queue has places for four frames.
#[test]
fn a_client_pauses_where_its_queue_is_full(rt: HostRuntime) {
    let (seven, images) = numbered(rt.alloc(), 7).expect(&rt, "seven frames");
    let case = Case {
        name: "seven frames",
        input: &seven,
        steps: SEVEN_FRAMES,
        written: &images,
        ..THREE_FRAMES
    };
    follow(&rt, rt.alloc(), &case);
}

const SEVEN_FRAMES: &[Step] = &[
    // five are left: the fifth frame finds the queue full, and no image can come
    Step {
        busy: 9,
        after: After::Paused(4, 0, 0),
        ..LOUD
    },
    // six are left: two frames are offered and four images written, and the seventh frame is in hand
    Step {
        finished: 4,
        after: After::Paused(6, 4, 4),
        ..LOUD
    },
    // two are left: a frame is offered, and an image is written
    Step {
        finished: 2,
        busy: 8,
        after: After::Paused(7, 5, 5),
        ..LOUD
    },
    Step {
        finished: 1,
        after: After::Ended(Stop::Whole, 7, 7),
        ..LOUD
    },
];

/// Frames are offered until four are unfinished, and then the fault is told.
#[test]
fn a_held_fault_is_told_where_the_queue_is_full(rt: HostRuntime) {
    let (seven, _) = numbered(rt.alloc(), 7).expect(&rt, "seven frames");
    let case = Case {
        name: "seven frames",
        input: &seven,
        steps: FIVE_FRAMES,
        ..NO_IMAGES
    };
    follow(&rt, rt.alloc(), &case);
}

const FIVE_FRAMES: &[Step] = &[
    ONE_OFFERED,
    // six are left: the second frame is offered, an image isn't written, and three more are offered
    Step {
        finished: 1,
        busy: 6,
        after: After::Paused(5, 1, 0),
        ..LOUD
    },
    Step {
        finished: 4,
        after: After::Ended(BROKEN, 5, 0),
        ..LOUD
    },
];

/// The image of another frame, and then what stands in the input.
const TORN: &[Case<'_>] = &[
    Case {
        name: "a torn image is told at the end of the input",
        steps: &[
            ONE_OFFERED,
            Step {
                is_forged: true,
                after: After::Paused(2, 1, 0),
                ..ONE_AND_ONE
            },
            Step {
                after: After::Paused(3, 2, 0),
                ..ONE_AND_ONE
            },
            Step {
                finished: 1,
                after: After::Ended(Stop::Torn, 3, 0),
                ..LOUD
            },
        ],
        torn: Some(0),
        ..NO_IMAGES
    },
    Case {
        name: "no image is written behind a torn one",
        steps: &[
            ONE_OFFERED,
            Step {
                after: After::Paused(2, 1, 1),
                ..ONE_AND_ONE
            },
            // two are left: the image of another frame comes, and the third frame is offered
            Step {
                is_forged: true,
                after: After::Paused(3, 2, 1),
                ..ONE_AND_ONE
            },
            Step {
                finished: 1,
                after: After::Ended(Stop::Torn, 3, 1),
                ..LOUD
            },
        ],
        written: ONE_INVERTED,
        torn: Some(1),
        ..THREE_FRAMES
    },
    Case {
        name: "the input is cut behind a torn image",
        input: CUT_LATE,
        steps: &[
            ONE_OFFERED,
            Step {
                is_forged: true,
                after: After::Paused(2, 1, 0),
                ..ONE_AND_ONE
            },
            Step {
                finished: 1,
                after: After::Ended(Stop::Torn, 2, 0),
                ..LOUD
            },
        ],
        torn: Some(0),
        ..NO_IMAGES
    },
];

#[test]
fn a_torn_image_is_held_as_a_fault(rt: HostRuntime) {
    for case in TORN {
        follow(&rt, rt.alloc(), case);
    }
}
