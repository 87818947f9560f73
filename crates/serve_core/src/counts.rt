//! What is counted of a stream.

/// How many frames of a stream were accepted, finished and collected, and how many units it was charged.
#[derive(Clone, Copy, Debug, PartialEq, Eq)]
pub struct Counts {
    pub accepted: u64,
    pub finished: u64,
    pub collected: u64,
    pub charged: u64,
}
