//! Pools of ready streams, by what is set and which stream is then the earliest.
ghost use Rattle.std.specs.Prelude.{◌≡◌, length};

use crate::tests::{same, same_at};
use edf_pool::{Compares, Pool};
use std::alloc::AllocError;
use std::mem::size_of;

/// Sets stream `s` of a pool of so many streams, and answers the stream that is then the earliest.
fn set(pool: &mut Pool, streams: u32, s: u32, deadline: Option<u64>) -> Option<u32>
    requires { length pool.old ≡ streams }
    ensures { length pool.new ≡ streams }
{
    if s < streams {
        pool.set_ready(s, deadline, &mut Compares::new());
    }
    pool.earliest()
}

#[test]
fn equal_deadlines_go_by_number(rt: HostRuntime) -> Result<(), AllocError> {
    let mut pool = Pool::new(rt.alloc(), 64)?;
    for s in (0..64).rev() {
        same_at(&rt, set(&mut pool, 64, s, Some(7)), Some(s), s);
    }
    for s in 0..64 {
        let next = (s < 63).then_some(s + 1);
        same_at(&rt, set(&mut pool, 64, s, None), next, s);
    }
    Ok(())
}

/// A stream, its new deadline, and the stream that is the earliest behind it.
const SETS: &[(u32, Option<u64>, Option<u32>)] = &[
    (3, Some(30), Some(3)),
    (1, Some(40), Some(3)),
    (4, Some(30), Some(3)),
    (0, Some(30), Some(0)),
    (0, Some(31), Some(3)),
    (3, None, Some(4)),
    (2, Some(u64::MAX), Some(4)),
    (4, None, Some(0)),
    (1, Some(0), Some(1)),
    (0, None, Some(1)),
    (1, None, Some(2)),
    (2, None, None),
];

#[test]
fn the_earliest_deadline_goes_first(rt: HostRuntime) -> Result<(), AllocError> {
    let mut pool = Pool::new(rt.alloc(), 5)?;
    same(&rt, pool.earliest(), None);
    for (k, (s, deadline, earliest)) in SETS.iter().enumerate() {
        same_at(&rt, set(&mut pool, 5, *s, *deadline), *earliest, k);
    }
    Ok(())
}

#[test]
fn one_stream_is_a_pool(rt: HostRuntime) -> Result<(), AllocError> {
    let mut pool = Pool::new(rt.alloc(), 1)?;
    same(&rt, (pool.earliest(), pool.any_ready()), (None, false));
    same(&rt, set(&mut pool, 1, 0, Some(0)), Some(0));
    same(&rt, pool.any_ready(), true);
    Ok(())
}

#[test]
fn a_pool_grows_behind_its_streams(rt: HostRuntime) -> Result<(), AllocError> {
    let mut pool = Pool::new(rt.alloc(), 1)?;
    same(&rt, set(&mut pool, 1, 0, Some(5)), Some(0));
    pool.grow();
    same(&rt, pool.earliest(), Some(0));
    same(&rt, set(&mut pool, 2, 1, Some(4)), Some(1));
    Ok(())
}

#[test]
fn a_pool_tells_whether_a_stream_is_ready(rt: HostRuntime) -> Result<(), AllocError> {
    let mut pool = Pool::new(rt.alloc(), 2)?;
    same(&rt, pool.any_ready(), false);
    let earliest = set(&mut pool, 2, 1, Some(4));
    same(&rt, (earliest, pool.any_ready()), (Some(1), true));
    let earliest = set(&mut pool, 2, 1, None);
    same(&rt, (earliest, pool.any_ready()), (None, false));
    Ok(())
}

#[test]
fn the_count_takes_no_bytes(rt: HostRuntime) {
    same(&rt, size_of::<Compares>(), 0);
}
