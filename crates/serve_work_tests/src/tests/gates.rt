//! Gates, and a clock, that hold a thread until others have come as far: what is done at once can't be told
//! from the images.
ghost use Rattle.std.specs.Prelude.{⊤};

use super::many::{AllServed, Hall, Stream, WIDE, serve_behind, serve_by};
use super::{PLAIN, Plan, same_at};
use serve_work::{Clock, Gate, Stop};
use std::process::Abort;
use std::sync::atomic::{AtomicU32, Ordering};
use std::thread;
use test_tools::Parts;
use test_tools::streams::{ONE, ONE_INVERTED};

/// The most turns for which one is held. Each turn lets other threads go on.
const TURNS: u32 = 1_000_000;

/// Holds each that comes until three have come, and counts those that met the others.
#[derive(Drop)]
struct Three {
    come: AtomicU32,
    met: AtomicU32,
}

impl Three {
    /// None has come.
    fn new() -> Three {
        Three {
            come: AtomicU32::new(0),
            met: AtomicU32::new(0),
        }
    }

    fn meet(&self) {
        self.come.fetch_add(1, Ordering::SeqCst);
        for _ in 0..TURNS {
            if self.come.load(Ordering::SeqCst) >= 3 {
                self.met.fetch_add(1, Ordering::SeqCst);
                return;
            }
            thread::yield_now();
        }
    }
}

/// Three workers meet before their bands.
impl Gate for Three {
    fn before_band(&self, _worker: u32, _stream: u32, _number: u64) {
        self.meet();
    }

    fn allows_halves(&self, _samples: usize) -> bool {
        false
    }

    fn before_half(&self, _worker: u32, _half: u32) {}
}

/// Three clients meet before their offers, which are all at moment 0.
impl Clock for Three {
    ghost gives = { λ _ _. ⊤ };

    fn moment(&self) -> u64 {
        self.meet();
        0
    }
}

/// The two halves of a band meet.
#[derive(Drop)]
struct Halves(Parts);

impl Gate for Halves {
    fn before_band(&self, _worker: u32, _stream: u32, _number: u64) {}

    fn allows_halves(&self, _samples: usize) -> bool {
        true
    }

    fn before_half(&self, _worker: u32, half: u32) {
        if half < 2 {
            self.0.meet(half);
        }
    }
}

/// Two different workers meet before their bands.
#[derive(Drop)]
struct Two(Parts);

impl Gate for Two {
    fn before_band(&self, worker: u32, _stream: u32, _number: u64) {
        if worker < 2 {
            self.0.meet(worker);
        }
    }

    fn allows_halves(&self, _samples: usize) -> bool {
        false
    }

    fn before_half(&self, _worker: u32, _half: u32) {}
}

/// Each stream was served whole, its one frame being written so.
fn each_gave(rt: &impl Abort, all: AllServed<'_>, streams: usize, image: &[u8]) {
    same_at(rt, all.len(), streams, "how many streams");
    for served in all {
        same_at(rt, served.stop, Stop::Whole, "why it stops");
        let written = served.writer.into_inner().taken;
        same_at(rt, written.as_slice(), image, "what is written");
    }
}

/// Some that were to meet others didn't.
const NOBODY_CAME: &str = "nobody came: was a thread or its memory refused?";

/// A stream of one frame.
const ONE_FRAME: Stream<'_> = Stream {
    input: ONE,
    breaks: false,
    plan: PLAIN,
};

const THREE_OF_ONE: &[Stream<'_>] = &[ONE_FRAME; 3];

#[test]
fn three_clients_and_three_workers_go_on_at_once(rt: HostRuntime) {
    let (workers, clients) = (Three::new(), Three::new());
    let hall = Hall { workers: 3, ..WIDE };
    let all = serve_by(&rt, rt.alloc(), THREE_OF_ONE, hall, &workers, &clients);
    each_gave(&rt, all.expect(&rt, "the session"), 3, ONE_INVERTED);
    let met = [&workers, &clients].map(|three| three.met.load(Ordering::SeqCst));
    same_at(&rt, met, [3, 3], NOBODY_CAME);
}

const TWO_OF_ONE: &[Stream<'_>] = &[ONE_FRAME; 2];

/// Each of the two frames is one band: one worker does it while the other does that of the other stream.
#[test]
fn two_workers_have_each_a_stream(rt: HostRuntime) {
    let gate = Two(Parts::new());
    let all = serve_behind(&rt, rt.alloc(), TWO_OF_ONE, WIDE, &gate);
    each_gave(&rt, all.expect(&rt, "the session"), 2, ONE_INVERTED);
    same_at(
        &rt,
        (gate.0.met(), gate.0.begun()),
        (2, (1, 1)),
        NOBODY_CAME,
    );
}

/// A stream of one frame of four rows, which are one band.
const FOUR_ROWS: &[Stream<'_>] = &[Stream {
    input: b"YUV4MPEG2 W1 H4 Cmono\nFRAME\n\x01\x02\x03\x04",
    breaks: false,
    plan: Plan { band: 4, ..PLAIN },
}];

#[test]
fn two_threads_write_the_halves_of_a_band(rt: HostRuntime) {
    let gate = Halves(Parts::new());
    let hall = Hall { workers: 1, ..WIDE };
    let all = serve_behind(&rt, rt.alloc(), FOUR_ROWS, hall, &gate);
    let image = b"YUV4MPEG2 W1 H4 Cmono\nFRAME\n\xfe\xfd\xfc\xfb";
    each_gave(&rt, all.expect(&rt, "the session"), 1, image);
    same_at(&rt, gate.0.met(), 2, NOBODY_CAME);
}
