//! What a session whose streams come and go is opened with.
ghost use Rattle.serve_work.specs.Live.{IsForm};

/// How many workers a session has, the most bands of one lease, and the most entries of an epoch's journal.
#[derive(Clone, Copy)]
pub(super) struct Form {
    pub(super) workers: u64,
    pub(super) quantum: u64,
    pub(super) limit: usize,
    ghost in_range: { IsForm workers quantum },
}
