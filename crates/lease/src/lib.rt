//! A frame that is filtered step by step: its job, and the leases under which workers do the steps.
//!
//! Contracts see a [`Job`] as the `JobValue` of `specs/Job.antt`, whose frames are the source and what stands
//! in the canvas of each operation, and a [`Lease`] as the `LeaseValue` of `specs/Lease.antt`.
#![tactic(auto)]

mod halves;
pub mod job;
pub mod job_spec;
pub mod lease;
pub mod refused;
pub mod report;
pub mod scratch;
mod step;

pub use job::Job;
pub use job_spec::{JobSpec, is_same_spec};
pub use lease::{GrantSpent, Lease};
pub use refused::{JobRefused, OverRefused};
pub use report::LeaseReport;
pub use scratch::Scratch;
