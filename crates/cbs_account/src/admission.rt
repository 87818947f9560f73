//! The admission of servers to workers that have time for them.
ghost use Rattle.std.specs.Prelude.{◌≡◌, ◌≤◌, ◌↔◌, Err, IsOk, OnErr, OnOk};
ghost use Rattle.cbs_account.specs.Admission.{Fits, share, with_share};
ghost use Rattle.cbs_account.specs.Balance.{IsBandwidth};

use crate::account::is_bandwidth;
use crate::limits::{MOST_WORKERS, WHOLE};
use std::marker::Model;
use thiserror::Error;

/// Why a server is not admitted.
#[derive(Clone, Copy, Debug, PartialEq, Eq, Error)]
pub enum AdmissionError {
    /// A maximum budget and a period that no server may have: not `1 <= Q <= T <= 1048576`.
    #[error("BadBandwidth")]
    BadBandwidth,
    /// The server's share is more than the workers have left.
    #[error("Overload")]
    Overload,
}

/// The servers that some workers take on. Contracts see it as a `Load`: the number of workers, and the sum of
/// the shares that are held: those of the servers that were admitted and not released.
///
/// A server's share is its bandwidth, `Q / T` of one worker, in millionths and rounded up. No call takes
/// memory.
#[derive(Debug, Drop)]
pub struct Admission {
    workers: u64,
    shares: u64,
}

impl Model for Admission {
    ghost use Rattle.std.specs.Prelude.{◌*◌, ◌≤◌};
    ghost use Rattle.cbs_account.specs.declared.limits.TheConstants.{MOST_WORKERS, WHOLE};
    ghost use Rattle.cbs_account.specs.Admission.{Load};

    ghost Value = { Load };

    ghost view = { λ a. record { workers = a.workers; shares = a.shares } };

    ghost invariant = { λ a. (a.workers ≤ MOST_WORKERS) × (a.shares ≤ WHOLE * a.workers) };
}

impl Admission {
    /// No server yet, on so many workers.
    pub fn new(workers: u64) -> Admission
        requires some_workers { 1 ≤ workers }
        requires most { workers ≤ MOST_WORKERS }
        ensures { result ≡ record { workers = workers; shares = 0 } }
    {
        Admission { workers, shares: 0 }
    }

    /// Admits a server of maximum budget `q` and period `t`, where its share is left. A bandwidth that no
    /// server may have is refused as such, also where nothing is left.
    pub fn admit(&mut self, q: u64, t: u64) -> Result<(), AdmissionError>
        ensures accepted { IsOk result ↔ (IsBandwidth q t × Fits (with_share q t self.old)) }
        ensures ok { OnOk result (self.new ≡ with_share q t self.old) }

        ensures bad_bandwidth { (result ≡ Err AdmissionError.BadBandwidth) ↔ ¬ IsBandwidth q t }
        ensures overload { (result ≡ Err AdmissionError.Overload)
            ↔ (IsBandwidth q t × ¬ Fits (with_share q t self.old)) }
        ensures err { OnErr result (self.new ≡ self.old) }
    {
        if !is_bandwidth(q, t) {
            return Err(AdmissionError::BadBandwidth);
        }
        let share = share_of(q, t);
        if self.shares + share > WHOLE * self.workers {
            return Err(AdmissionError::Overload);
        }
        self.shares += share;
        Ok(())
    }

    /// Releases a server of maximum budget `q` and period `t` that was admitted: its share is left again.
    pub fn release(&mut self, q: u64, t: u64)
        requires bandwidth { IsBandwidth q t }
        requires held { share q t ≤ self.old.shares }
        ensures { self.old ≡ with_share q t self.new }
    {
        self.shares -= share_of(q, t);
    }
}

/// The part of one worker that a server of maximum budget `q` and period `t` takes, in millionths.
fn share_of(q: u64, t: u64) -> u64
    requires { IsBandwidth q t }
    ensures share { result ≡ share q t }
    ensures part { result ≤ WHOLE }
{
    (q * WHOLE).div_ceil(t)
}
