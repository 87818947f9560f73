//! The clock that a run is told to have.
ghost use Rattle.serve_report.specs.Moments.{IsMoment};
ghost use Rattle.serve_report.specs.RunClocks.{IsClockOf};

use super::clock::{Counter, Timer};
use serve_work::Clock;
use std::sync::Wait;
use std::time;

/// The clock of a run: offers are counted, or time passes.
#[derive(Drop)]
pub enum RunClock<'a, T: Wait + time::Clock> {
    Counted(Counter<'a, T>),
    Timed(Timer<'a, T>),
}

impl<'a, T: Wait + time::Clock> RunClock<'a, T> {
    /// A clock of time where the microseconds of a moment are told.
    pub fn new(rt: &'a T, microseconds: Option<u32>) -> RunClock<'a, T>
        ensures { IsClockOf microseconds result }
    {
        match microseconds {
            Some(microseconds) => RunClock::Timed(Timer::new(rt, microseconds)),
            None => RunClock::Counted(Counter::new(rt)),
        }
    }
}

impl<'a, T: Wait + time::Clock> Clock for RunClock<'a, T> {
    ghost gives = { λ _ moment. IsMoment moment };

    fn moment(&self) -> u64 {
        match self {
            RunClock::Counted(counter) => counter.moment(),
            RunClock::Timed(timer) => timer.moment(),
        }
    }
}
