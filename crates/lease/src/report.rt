//! What was done under a lease.

/// What was done under a lease: that of its frame, and whether the frame is finished by it.
#[derive(Clone, Copy, Debug, PartialEq, Eq)]
pub struct LeaseReport {
    pub stream: u32,
    /// The frame's number in its stream.
    pub number: u64,
    /// How many bands were done, and the units that they cost.
    pub bands: u32,
    pub units: u32,
    /// Whether all bands of the frame are done.
    pub is_finished: bool,
}
