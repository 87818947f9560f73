//! Comparisons of what came with what is wanted.
use std::fmt::{Debug, Display};
use std::process::Abort;

/// Compares what a call gave with what is wanted.
pub fn same<T: PartialEq + Debug + Drop>(rt: &impl Abort, got: T, want: T) {
    assert_eq!(rt; got, want);
}

/// The same, and tells what it was of.
pub fn same_at<T: PartialEq + Debug + Drop, P: Display + Drop>(
    rt: &impl Abort,
    got: T,
    want: T,
    place: P,
) {
    assert_eq!(rt; got, want, "{place}");
}
