//! The program over any readers and writers.
#![tactic(auto)]

mod bounds;
pub mod control;
mod filtering;
pub mod host;
mod lent;
pub mod program;
mod serve;
mod session;
mod tell;

pub use host::Host;
pub use program::main_on;
pub use serve::{Counter, RunClock};
pub use serve_script::{ReplayFault, replay};
