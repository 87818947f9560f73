//! Shares of the workers.
ghost use Rattle.std.specs.Prelude.{◌≡◌, ◌≤◌, ◌↔◌, ◌*◌, Err, IfOk, IsOk};
ghost use Rattle.cbs_account.specs.Admission.{Fits, load_of, share, with_share};
ghost use Rattle.cbs_account.specs.Balance.{IsBandwidth};
ghost use Rattle.cbs_account.specs.declared.limits.TheConstants.{MOST_WORKERS, WHOLE};
ghost use Rattle.serve_report.specs.Holdings.{loaded};

use cbs_account::limits::WHOLE;
use cbs_account::{Account, AdmissionError, BadBandwidth};

/// A share that is kept for a stream, in millionths of a worker, and since which moment it is.
#[derive(Clone, Copy)]
pub struct Share {
    pub parts: u64,
    pub since: u64,
}

/// What so many workers have, in millionths of one.
pub fn whole_of(workers: u64) -> u64
    requires { workers ≤ MOST_WORKERS }
    ensures { result ≡ WHOLE * workers }
{
    WHOLE * workers
}

/// The share of a stream of `q` units in every `t` moments, in millionths of a worker and rounded up, where
/// the workers have it left beside what is kept of them.
pub fn share_beside(kept: u64, workers: u64, q: u64, t: u64) -> Result<u64, AdmissionError>
    requires { workers ≤ MOST_WORKERS }
    ensures accepted { IsOk result ↔ (IsBandwidth q t × Fits (with_share q t (loaded workers kept))) }
    ensures share { IfOk result (λ parts. parts ≡ share q t) }
    ensures bad_bandwidth { (result ≡ Err AdmissionError.BadBandwidth) ↔ ¬ IsBandwidth q t }
{
    if let Err(BadBandwidth) = Account::new(q, t) {
        return Err(AdmissionError::BadBandwidth);
    }
    let parts = (q * WHOLE).div_ceil(t);
    let whole = whole_of(workers);
    if kept > whole || parts > whole - kept {
        return Err(AdmissionError::Overload);
    }
    Ok(parts)
}
