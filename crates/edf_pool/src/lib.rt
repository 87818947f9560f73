//! Which of several streams is served first: of the ready ones that with the earliest deadline (EDF), and
//! among equal deadlines that with the lowest number.
//!
//! A [`Pool`] is told when a stream becomes ready and when it no longer is. `specs/Earliest.antt` says what
//! it answers, and `specs/Tree.antt` what its tree keeps.
#![tactic(auto)]

pub mod node;
pub mod pool;

pub use node::Compares;
pub use pool::Pool;
