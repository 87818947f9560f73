//! What is seen of a run while it goes on: how far each stream has come, and the trace of what its workers
//! and clients do.
#![tactic(auto)]

mod board;
mod due;
mod line;
mod presence;
mod row;
mod trace;
mod watch;
mod watched;

pub use board::Board;
pub use line::Line;
pub use presence::Presence;
pub use trace::{Doing, Trace};
pub use watch::{Unwatched, Watch, watch_of_frames};
pub use watched::{WatchedSink, WatchedSource};
