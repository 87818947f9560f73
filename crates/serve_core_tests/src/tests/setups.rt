//! Which setups there are.
use super::Size::Pair;
use super::{PLAIN, Served, geometry_of, same, same_at, spec_of, specs_of};
use serve_core::{Setup, SetupError, StreamSpec};
use std::alloc::Global;
use std::process::Abort;
use std::test::Fail;

const THIRD: Served<'_> = Served {
    account: (1, 3),
    ..PLAIN
};

const WHOLE: Served<'_> = Served {
    account: (4, 4),
    ..PLAIN
};

const EXCESS: Served<'_> = Served {
    account: (5, 4),
    ..PLAIN
};

const SMALL: Served<'_> = Served {
    account: (1, 64),
    ..PLAIN
};

/// What is set up: how many workers, which quantum, and the streams; and the first fault, if there is one.
type Case<'a> = (&'a str, u64, u64, &'a [Served<'a>], Option<SetupError>);

const BAD_LIMITS: Option<SetupError> = Some(SetupError::BadLimits);

/// The share of (1, 3) is 333,334 millionths of a worker.
const SHARES: &[Case<'_>] = &[
    ("two thirds", 1, 4, &[THIRD, THIRD], None),
    (
        "three thirds",
        1,
        4,
        &[THIRD, THIRD, THIRD],
        Some(SetupError::Overload(2)),
    ),
    ("three thirds of two", 2, 4, &[THIRD, THIRD, THIRD], None),
    ("a whole", 1, 4, &[WHOLE], None),
    (
        "an excess",
        1,
        4,
        &[EXCESS],
        Some(SetupError::BadBandwidth(0)),
    ),
    (
        "an excess behind a third",
        1,
        4,
        &[THIRD, EXCESS],
        Some(SetupError::BadBandwidth(1)),
    ),
    (
        "an excess behind an overload",
        1,
        4,
        &[WHOLE, THIRD, EXCESS],
        Some(SetupError::Overload(1)),
    ),
];

const LIMITS: &[Case<'_>] = &[
    ("no worker", 0, 4, &[PLAIN], BAD_LIMITS),
    ("1 worker", 1, 4, &[PLAIN], None),
    ("16 workers", 16, 4, &[PLAIN], None),
    ("17 workers", 17, 4, &[PLAIN], BAD_LIMITS),
    ("a quantum of 0", 1, 0, &[PLAIN], BAD_LIMITS),
    ("a quantum of 1", 1, 1, &[PLAIN], None),
    ("a quantum of 64", 1, 64, &[PLAIN], None),
    ("a quantum of 65", 1, 65, &[PLAIN], BAD_LIMITS),
    ("no stream", 1, 4, &[], BAD_LIMITS),
    ("64 streams", 1, 4, &[SMALL; 64], None),
    ("65 streams", 16, 4, &[SMALL; 65], BAD_LIMITS),
    (
        "one place each",
        1,
        4,
        &[Served {
            queue: 1,
            outbox: 1,
            frames: 1,
            ..PLAIN
        }],
        None,
    ),
    (
        "the most places",
        1,
        4,
        &[Served {
            queue: 256,
            outbox: 256,
            frames: 16_777_216,
            ..PLAIN
        }],
        None,
    ),
    (
        "no place in the queue",
        1,
        4,
        &[Served {
            queue: 0,
            outbox: 1,
            frames: 1,
            ..PLAIN
        }],
        BAD_LIMITS,
    ),
    (
        "257 places in the queue",
        1,
        4,
        &[Served {
            queue: 257,
            outbox: 1,
            frames: 1,
            ..PLAIN
        }],
        BAD_LIMITS,
    ),
    (
        "no place in the outbox",
        1,
        4,
        &[Served {
            queue: 1,
            outbox: 0,
            frames: 1,
            ..PLAIN
        }],
        BAD_LIMITS,
    ),
    (
        "257 places in the outbox",
        1,
        4,
        &[Served {
            queue: 1,
            outbox: 257,
            frames: 1,
            ..PLAIN
        }],
        BAD_LIMITS,
    ),
    (
        "no frame",
        1,
        4,
        &[Served {
            queue: 1,
            outbox: 1,
            frames: 0,
            ..PLAIN
        }],
        BAD_LIMITS,
    ),
    (
        "16,777,217 frames",
        1,
        4,
        &[Served {
            queue: 1,
            outbox: 1,
            frames: 16_777_217,
            ..PLAIN
        }],
        BAD_LIMITS,
    ),
    // They come before the bandwidth of an earlier stream.
    (
        "bad limits are told first",
        1,
        4,
        &[EXCESS, Served { queue: 0, ..PLAIN }],
        BAD_LIMITS,
    ),
];

/// Each differs from `PLAIN` in one of its words alone.
const OTHERS: &[Served<'_>] = &[
    Served {
        size: Pair,
        ..PLAIN
    },
    Served {
        ops: "hflip",
        ..PLAIN
    },
    Served { rows: 8, ..PLAIN },
    Served {
        account: (3, 10),
        ..PLAIN
    },
    Served {
        account: (2, 11),
        ..PLAIN
    },
    Served { queue: 5, ..PLAIN },
    Served { outbox: 5, ..PLAIN },
    Served { frames: 1, ..PLAIN },
];

/// Compares the first fault of each setup.
fn are_faulty(rt: &impl Abort, alloc: Global, cases: &[Case<'_>]) -> Result<(), Fail> {
    for (name, workers, quantum, streams, wanted) in cases {
        let fault = Setup::new(*workers, *quantum, specs_of(alloc, streams)?).err();
        same_at(rt, fault, *wanted, name);
    }
    Ok(())
}

#[test]
fn shares_are_given_stream_by_stream(rt: HostRuntime) -> Result<(), Fail> {
    are_faulty(&rt, rt.alloc(), SHARES)
}

#[test]
fn setups_have_limits(rt: HostRuntime) -> Result<(), Fail> {
    are_faulty(&rt, rt.alloc(), LIMITS)
}

#[test]
fn a_chain_is_made_for_the_frames_of_its_stream(rt: HostRuntime) -> Result<(), Fail> {
    let alloc = rt.alloc();
    let mut streams = Vec::new(alloc);
    let spec = spec_of(alloc, &PLAIN)?;
    streams.push(StreamSpec::new(geometry_of(Pair), spec.job().clone()?, 2, 10, 4, 4, 1))?;
    let fault = Setup::new(1, 4, streams).err();
    same(&rt, fault, Some(SetupError::BadLimits));
    Ok(())
}

#[test]
fn what_streams_are_served_with_is_compared(rt: HostRuntime) -> Result<(), Fail> {
    let alloc = rt.alloc();
    let spec = spec_of(alloc, &PLAIN)?;
    same(&rt, spec.is_same(&spec_of(alloc, &PLAIN)?), true);
    let sized = StreamSpec::new(geometry_of(Pair), spec.job().clone()?, 2, 10, 4, 4, 1 << 24);
    same(&rt, spec.is_same(&sized), false);
    for (place, other) in specs_of(alloc, OTHERS)?.iter().enumerate() {
        same_at(&rt, spec.is_same(other), false, place);
    }
    Ok(())
}

#[test]
fn what_a_stream_is_served_with_is_told(rt: HostRuntime) -> Result<(), Fail> {
    let served = Served {
        size: Pair,
        account: (3, 7),
        queue: 5,
        outbox: 6,
        frames: 9,
        ..PLAIN
    };
    let spec = spec_of(rt.alloc(), &served)?;
    same(&rt, spec.geometry(), geometry_of(Pair));
    same(&rt, (spec.maximum(), spec.period()), (3, 7));
    same(&rt, (spec.queue(), spec.outbox(), spec.frames()), (5, 6, 9));
    Ok(())
}

#[test]
fn what_a_machine_is_made_for_is_told(rt: HostRuntime) -> Result<(), Fail> {
    let setup = Setup::new(2, 5, specs_of(rt.alloc(), &[PLAIN, THIRD])?)?;
    let told = (setup.workers(), setup.quantum(), setup.streams().len());
    same(&rt, told, (2, 5, 2));
    Ok(())
}
