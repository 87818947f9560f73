//! When what shows a run is drawn again.
ghost use Rattle.std.specs.Prelude.{◌≤◌, ◌+◌, ◌↔◌, IsTrue, unwrap_or};

/// Whether it is so long ago that something was drawn, or that the run began where nothing was.
pub(crate) fn has_passed(between: u64, drawn: Option<u64>, time: u64) -> bool
    ensures { IsTrue result ↔ (unwrap_or drawn 0 + between ≤ time) }
{
    let before = drawn.unwrap_or(0);
    time >= between && time - between >= before
}
