//! What a worker holds.

/// A lease: the stream, the number of its frame, how many bands were granted, and how many of these the
/// schedule was told of as done.
#[derive(Clone, Copy, PartialEq, Eq)]
pub struct Held {
    pub stream: u32,
    pub number: u64,
    pub grant: u32,
    pub used: u32,
}
