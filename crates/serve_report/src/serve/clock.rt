//! The clock of a run.
ghost use Rattle.std.specs.Prelude.{◌≡◌, ◌≤◌, ◌+◌, max, min};
ghost use Rattle.cbs_account.specs.declared.limits.TheConstants.{LAST_MOMENT};
ghost use Rattle.std.specs.Duration.{as_nanos};
ghost use Rattle.serve_report.specs.Moments.{IsMoment, moments_in};

use cbs_account::limits::LAST_MOMENT;
use serve_work::Clock;
use std::sync::{Mutex, Wait};
use std::time::{self, Duration, Instant};

/// A moment of a run.
#[derive(Drop)]
struct Moment {
    value: u64,
    ghost in_run: { IsMoment value },
}

impl Moment {
    fn first() -> Moment
        ensures { result.value ≡ 0 }
    {
        Moment { value: 0 }
    }

    /// Goes on to the moment after this one, and answers this one.
    fn pass(&mut self) -> u64
        ensures moment { result ≡ self.old.value }
        ensures next { self.new.value ≡ min (self.old.value + 1) LAST_MOMENT }
    {
        let moment = self.value;
        if moment < LAST_MOMENT {
            self.value = moment + 1;
        }
        moment
    }

    /// Goes on to another moment, where that is later, and answers the moment that it is.
    fn reach(&mut self, moment: u64) -> u64
        requires { IsMoment moment }
        ensures moment { result ≡ max self.old.value moment }
        ensures next { self.new.value ≡ result }
    {
        if moment > self.value {
            self.value = moment;
        }
        self.value
    }
}

/// A clock that counts how often it was asked, from 0: a moment passes with each offer of a frame. It has a
/// lock of its own. Once it has come to 2^60 it stays there.
#[derive(Drop)]
pub struct Counter<'a, T: Wait> {
    rt: &'a T,
    next: Mutex<Moment>,
}

impl<'a, T: Wait> Counter<'a, T> {
    pub fn new(rt: &'a T) -> Counter<'a, T> {
        Counter {
            rt,
            next: Mutex::new(Moment::first()),
        }
    }
}

impl<'a, T: Wait> Clock for Counter<'a, T> {
    ghost gives = { λ _ moment. IsMoment moment };

    fn moment(&self) -> u64 {
        self.next.lock(self.rt).pass()
    }
}

/// A clock of time: it tells how many moments of so many microseconds have passed since it was made. It has a
/// lock of its own, so that it never goes back. Once it has come to 2^60 it stays there. Where the machine's
/// clock can't be read it stands still.
#[derive(Drop)]
pub struct Timer<'a, T: Wait + time::Clock> {
    rt: &'a T,
    start: Option<Instant>,
    microseconds: u32,
    latest: Mutex<Moment>,
    ghost not_zero: { 1 ≤ microseconds },
}

impl<'a, T: Wait + time::Clock> Timer<'a, T> {
    /// A moment is so many microseconds, and one at least.
    pub fn new(rt: &'a T, microseconds: u32) -> Timer<'a, T>
        ensures { result.microseconds ≡ max microseconds 1 }
    {
        Timer {
            rt,
            start: Instant::now(rt).ok(),
            microseconds: microseconds.max(1),
            latest: Mutex::new(Moment::first()),
        }
    }

    /// How long the run has gone on, where that can be told.
    fn age(&self) -> Option<Duration> {
        self.start?.elapsed(self.rt).ok()
    }
}

impl<'a, T: Wait + time::Clock> Clock for Timer<'a, T> {
    ghost gives = { λ _ moment. IsMoment moment };

    fn moment(&self) -> u64 {
        let passed = match self.age() {
            Some(age) => moments_in(age, self.microseconds),
            None => 0,
        };
        self.latest.lock(self.rt).reach(passed)
    }
}

/// How many moments of so many microseconds there are in a time; no more than the last.
fn moments_in(time: Duration, microseconds: u32) -> u64
    requires { 1 ≤ microseconds }
    ensures { result ≡ moments_in (as_nanos time) microseconds }
{
    let moments = time.as_micros() / u128::from(microseconds);
    if moments < u128::from(LAST_MOMENT) {
        moments as u64
    } else {
        LAST_MOMENT
    }
}
