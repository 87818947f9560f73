//! Streams of two by two samples that a worker and a client serve, with bytes that were worked out by hand.
mod clients;
mod clocks;
mod epochs;
mod gates;
mod given_up;
mod late;
mod library;
mod lists;
mod live;
mod many;
mod pauses;
mod returned;
mod sessions;
mod slow;
mod stops;
mod told;

use sessions::{Open, PLAIN, Plan, Still, served, stream_of, writer_of};
use std::fmt::{Debug, Display};
use std::process::Abort;

/// Compares what a call gave with what is wanted, and tells where. Beside a hub a branch is dear to prove: a
/// call of this is none, as a call of `expect` is, and `assert_eq!` and `?` are one each.
fn same_at<T: PartialEq + Debug + Drop, P: Display + Drop>(
    rt: &impl Abort,
    got: T,
    want: T,
    place: P,
) {
    assert_eq!(rt; got, want, "{place}");
}
