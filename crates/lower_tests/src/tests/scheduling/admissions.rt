//! Servers that ask, one after another, to be admitted. The share of (1, 3) is 333,334 millionths.
use super::prints;
use crate::tests::{same, same_at};
use cbs_account::{Admission, AdmissionError};
use std::alloc::AllocError;

const OVERLOAD: Result<(), AdmissionError> = Err(AdmissionError::Overload);

const BAD_BANDWIDTH: Result<(), AdmissionError> = Err(AdmissionError::BadBandwidth);

/// Servers that ask so many workers, with the answer to each.
struct Asked<'a> {
    name: &'a str,
    workers: u64,
    servers: &'a [(u64, u64, Result<(), AdmissionError>)],
}

const ASKED: &[Asked<'_>] = &[
    Asked {
        name: "shares are rounded up",
        workers: 1,
        servers: &[(1, 3, Ok(())), (1, 3, Ok(())), (1, 3, OVERLOAD)],
    },
    Asked {
        name: "shares are rounded up, and a second worker has room",
        workers: 2,
        servers: &[(1, 3, Ok(())), (1, 3, Ok(())), (1, 3, Ok(()))],
    },
    Asked {
        name: "a worker is taken whole",
        workers: 1,
        servers: &[(4, 4, Ok(())), (1, 1_048_576, OVERLOAD)],
    },
    Asked {
        name: "a server that is refused takes no share",
        workers: 1,
        servers: &[(1, 2, Ok(())), (3, 4, OVERLOAD), (1, 2, Ok(()))],
    },
    Asked {
        name: "bandwidths have limits also where nothing is left",
        workers: 1,
        servers: &[(5, 4, BAD_BANDWIDTH), (1, 1, Ok(())), (5, 4, BAD_BANDWIDTH)],
    },
];

#[test]
fn servers_are_admitted_by_their_shares(rt: HostRuntime) {
    for asked in ASKED {
        assert!(rt; 1 <= asked.workers && asked.workers <= 16);
        let mut admission = Admission::new(asked.workers);
        for (q, t, answer) in asked.servers {
            let got = (*q, *t, admission.admit(*q, *t));
            same_at(&rt, got, (*q, *t, *answer), asked.name);
        }
    }
}

#[test]
fn a_released_share_is_left_again(rt: HostRuntime) {
    let mut admission = Admission::new(1);
    assert!(rt; admission.admit(1, 1).is_ok());
    same(&rt, admission.admit(1, 2), OVERLOAD);
    admission.release(1, 1);
    same(&rt, admission.admit(1, 2), Ok(()));
}

#[test]
fn refusals_have_their_names(rt: HostRuntime) -> Result<(), AllocError> {
    prints(
        &rt,
        rt.alloc(),
        &AdmissionError::BadBandwidth,
        "BadBandwidth",
    )?;
    prints(&rt, rt.alloc(), &AdmissionError::Overload, "Overload")
}
