//! Comparisons, for the tests of each crate.
mod bands;
mod frames;
mod headers;
mod jobs;
mod operations;
mod scheduling;

use frame_view::Frame;
use std::fmt::{Debug, Display};
use std::process::Abort;

/// Compares what a call gave with what is wanted. A call of this is no branch, and `assert_eq!` is one:
/// beside a value of many parts that is dear to prove.
fn same<T: PartialEq + Debug + Drop>(rt: &impl Abort, got: T, want: T) {
    assert_eq!(rt; got, want);
}

/// Compares what a call gave with what is wanted, and tells where it was.
fn same_at<T: PartialEq + Debug + Drop, P: Display + Drop>(
    rt: &impl Abort,
    got: T,
    want: T,
    place: P,
) {
    assert_eq!(rt; got, want, "{place}");
}

/// It came to what it must not.
fn fails(rt: &impl Abort, why: &str) {
    assert!(rt; false, "{why}");
}

/// Compares a list with the one that is wanted.
fn same_list<T: PartialEq + Debug>(rt: &impl Abort, got: &[T], want: &[T]) {
    assert_eq!(rt; got, want);
}

/// Compares a frame with the line and the samples that are wanted.
fn same_frame(rt: &impl Abort, frame: &Frame, line: &[u8], samples: &[u8]) {
    same_list(rt, frame.line(), line);
    same_list(rt, frame.data(), samples);
}
