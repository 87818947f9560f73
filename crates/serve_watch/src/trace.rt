//! The trace of a run: what its workers and its streams' clients do, as records of the Trace Event Format.

mod client;
mod doings;
mod file;
mod lane;
mod record;
mod run;
mod spool;
mod stream;
mod worker;

pub use record::Doing;
pub use run::Trace;
