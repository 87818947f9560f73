//! What a machine is made for.
ghost use Rattle.std.specs.Prelude.{◌≡◌, ◌≤◌, ◌↔◌, All, IsTrue, IsOk, IfOk, IfErr, OnOk, length};
ghost use Rattle.serve_core.specs.Admitted.{AreAdmitted, IsFault, IsRefusal};
ghost use Rattle.serve_core.specs.Setup.{HasLimits, IsSetup, IsWithinLimits, setup_of};

use crate::spec::StreamSpec;
use cbs_account::limits::{MOST_QUANTUM, MOST_STREAMS, MOST_WORKERS};
use cbs_account::{Admission, AdmissionError};
use std::marker::Model;
use thiserror::Error;

/// Why there is no setup. Streams are told by their number, from 0.
#[derive(Clone, Copy, Debug, PartialEq, Eq, Error)]
pub enum SetupError {
    /// A number is outside its limits, but for those of the streams' accounts, or a chain was made for
    /// another geometry than its stream's.
    #[error("BadLimits")]
    BadLimits,
    /// The stream's maximum budget and period are not `1 <= Q <= T <= 1048576`.
    #[error("BadBandwidth")]
    BadBandwidth(u32),
    /// The stream's share is more than the streams before it leave of the workers.
    #[error("Overload")]
    Overload(u32),
}

/// Workers, the most bands of one lease, and the streams: all within their limits, and the streams fit on the
/// workers. Contracts see it as the record of that name in `specs/Setup.antt`.
#[derive(Drop)]
pub struct Setup {
    pub(crate) workers: u64,
    pub(crate) quantum: u64,
    pub(crate) streams: Vec<StreamSpec>,
}

impl Model for Setup {
    ghost use Rattle.serve_core.specs.Setup as rules;

    ghost Value = { rules.Setup };

    ghost view = { λ a. rules.setup_of a.workers a.quantum a.streams.items };

    ghost invariant = { λ a. rules.IsSetup (rules.setup_of a.workers a.quantum a.streams.items) };
}

impl Setup {
    /// A setup, or its first fault: a number outside its limits, or a chain that isn't for its stream's
    /// frames; then, stream by stream, a bandwidth that no server may have, or a share that isn't left.
    pub fn new(workers: u64, quantum: u64, streams: Vec<StreamSpec>) -> Result<Setup, SetupError>
        ensures accepted { IsOk result ↔ IsSetup (setup_of workers quantum streams.items) }
        ensures setup { IfOk result (λ setup. setup ≡ setup_of workers quantum streams.items) }
        ensures refused { IfErr result (λ e. IsFault e (setup_of workers quantum streams.items)) }
    {
        if !has_limits(workers, quantum, &streams) {
            return Err(SetupError::BadLimits);
        }
        admit_all(workers, &streams)?;
        Ok(Setup {
            workers,
            quantum,
            streams,
        })
    }

    /// How many workers there are.
    pub fn workers(&self) -> u64
        ensures { result ≡ self.now.workers }
    {
        self.workers
    }

    /// How many bands a lease grants at most.
    pub fn quantum(&self) -> u64
        ensures { result ≡ self.now.quantum }
    {
        self.quantum
    }

    /// The streams, by number.
    pub fn streams(&self) -> &[StreamSpec]
        ensures { result.now ≡ self.now.streams }
    {
        &self.streams
    }

    /// What every setup keeps. It does nothing: the laws on transcripts of a setup ask for this.
    pub fn recall_limits(&self)
        ensures { IsSetup self.now }
    {
        let _workers = self.workers;
    }
}

/// Whether all numbers but those of the streams' accounts are within their limits, and each chain is for its
/// stream's frames.
fn has_limits(workers: u64, quantum: u64, streams: &[StreamSpec]) -> bool
    ensures { IsTrue result ↔ HasLimits (setup_of workers quantum streams.now) }
{
    if workers < 1 || workers > MOST_WORKERS {
        return false;
    }
    if quantum < 1 || quantum > MOST_QUANTUM {
        return false;
    }
    if streams.len() < 1 || streams.len() > MOST_STREAMS {
        return false;
    }
    are_within_limits(streams)
}

fn are_within_limits(streams: &[StreamSpec]) -> bool
    ensures { IsTrue result ↔ All IsWithinLimits streams.now }
{
    for stream in streams {
        if !stream.is_within_limits() {
            return false;
        }
    }
    true
}

/// Admits the streams, one after the other.
fn admit_all(workers: u64, streams: &[StreamSpec]) -> Result<(), SetupError>
    requires some_workers { 1 ≤ workers }
    requires most { workers ≤ MOST_WORKERS }
    requires few_streams { length streams.now ≤ MOST_STREAMS }
    ensures ok { OnOk result (AreAdmitted workers streams.now) }
    ensures err { IfErr result (λ e. IsRefusal e workers streams.now) }
{
    let mut admission = Admission::new(workers);
    for (s, stream) in streams.iter().enumerate() {
        match admission.admit(stream.maximum, stream.period) {
            Ok(()) => {}
            Err(AdmissionError::BadBandwidth) => return Err(SetupError::BadBandwidth(s as u32)),
            Err(AdmissionError::Overload) => return Err(SetupError::Overload(s as u32)),
        }
    }
    Ok(())
}
