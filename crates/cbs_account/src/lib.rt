//! The account of one constant bandwidth server: a budget and a deadline, by the rules of Abeni and Buttazzo
//! (RTSS 1998), and the admission of such servers to workers that have time for them.
//!
//! A server's share is `Q` units in every period `T`: what it uses beyond that moves its deadline back. It
//! lives by its own events: a unit of its work is done, or a job arrives at a moment and finds it idle.
//! `specs/Rules.antt` is the fold of the rules over such a past; [`Account`] keeps the two numbers that the
//! fold gives, and [`laws`] says what the fold itself promises. `specs/Admission.antt` is the sum of the
//! servers' shares, which [`Admission`] keeps.
#![tactic(auto)]

pub mod account;
pub mod admission;
pub mod laws;
pub mod limits;

pub use account::{Account, BadBandwidth};
pub use admission::{Admission, AdmissionError};
pub use laws::{
    bandwidth, charge_limit, closed_form, deadline_bound, deadline_limit, total_bandwidth,
};
