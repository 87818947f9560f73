//! Comparisons that tell where they fail.
use std::fmt::{Debug, Display};
use std::process::Abort;

/// Compares what a call gave with what is wanted, and tells where. Beside files or a watch a branch is dear
/// to prove: a call of this is none, as a call of `expect` is, and `assert_eq!` and `?` are one each.
pub fn same_at<T: PartialEq + Debug + Drop, P: Display + Drop>(
    rt: &impl Abort,
    got: T,
    want: T,
    place: P,
) {
    assert_eq!(rt; got, want, "{place}");
}
