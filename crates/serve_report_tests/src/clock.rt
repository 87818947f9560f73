//! The clock of a run.
use crate::compare::same_at;
use serve_report::{Counter, RunClock};
use serve_work::Clock;
use std::thread;
use std::time::Duration;

#[test]
fn moments_are_counted_from_0(rt: HostRuntime) {
    let clock = Counter::new(&rt);
    let moments = [clock.moment(), clock.moment(), clock.moment()];
    same_at(&rt, moments, [0, 1, 2], "the moments");
}

#[test]
fn offers_are_counted_unless_a_moment_is_told(rt: HostRuntime) {
    let clock = RunClock::new(&rt, None);
    let moments = [clock.moment(), clock.moment(), clock.moment()];
    same_at(&rt, moments, [0, 1, 2], "the moments");
}

#[test]
fn time_passes_where_a_moment_is_told(rt: HostRuntime) {
    let clock = RunClock::new(&rt, Some(1000));
    let first = clock.moment();
    thread::sleep(&rt, Duration::from_millis(30));
    let second = clock.moment();
    let third = clock.moment();
    same_at(&rt, second >= first.saturating_add(30), true, "a wait");
    same_at(&rt, third >= second, true, "the next moment");
    same_at(&rt, first < 60_000, true, "the first moment");
}

#[test]
fn a_longer_moment_passes_later(rt: HostRuntime) {
    let clock = RunClock::new(&rt, Some(1_000_000));
    let moments = [clock.moment(), clock.moment()];
    same_at(&rt, moments[0] <= moments[1], true, "the order");
    same_at(&rt, moments[1] < 60, true, "the second");
}
