//! Two parts of a work, each done by a thread where it can be had.
ghost use Rattle.std.specs.Prelude.{◌<◌};

use std::sync::atomic::{AtomicU32, Ordering};
use std::thread;

/// The most turns for which a part is held.
const TURNS: u32 = 1_000_000;

/// How often each of two parts was begun, and how many of them met the other.
#[derive(Drop)]
pub struct Parts {
    begun: [AtomicU32; 2],
    met: AtomicU32,
}

impl Parts {
    /// None is begun.
    pub fn new() -> Parts {
        Parts {
            begun: [AtomicU32::new(0), AtomicU32::new(0)],
            met: AtomicU32::new(0),
        }
    }

    /// This part begins.
    pub fn begin(&self, part: u32)
        requires { part < 2 }
    {
        self.begun[part as usize].fetch_add(1, Ordering::SeqCst);
    }

    /// How often each part was begun.
    pub fn begun(&self) -> (u32, u32) {
        let [first, second] = &self.begun;
        (first.load(Ordering::SeqCst), second.load(Ordering::SeqCst))
    }

    /// This part begins, and is held until the other is begun too, for so many turns at most. Each turn lets
    /// other threads go on.
    pub fn meet(&self, part: u32)
        requires { part < 2 }
    {
        self.begin(part);
        for _ in 0..TURNS {
            if self.begun[1 - part as usize].load(Ordering::SeqCst) >= 1 {
                self.met.fetch_add(1, Ordering::SeqCst);
                return;
            }
            thread::yield_now();
        }
    }

    /// How many parts met the other. One thread alone meets it at the second part only.
    pub fn met(&self) -> u32 {
        self.met.load(Ordering::SeqCst)
    }
}
