//! What the words of the command line ask for.
ghost use Rattle.std.specs.Prelude.{◌+◌, ◌≡◌, ◌≤◌};
ghost use Rattle.cbs_account.specs.declared.limits.TheConstants.{MOST_ENTRIES, MOST_QUANTUM, MOST_STREAMS, MOST_WORKERS};
ghost use Rattle.serve_words.specs.declared.request.NoRequest.TheVariants.{NoMemory};

use cbs_account::limits::MOST_STREAMS;
use std::alloc::AllocError;

/// The fewest entries of a journal: one for each stream that may be served, and two.
pub const FEWEST_JOURNAL: usize = MOST_STREAMS + 2;

/// The most microseconds of a moment.
pub const MOST_MICROSECONDS: u32 = 1_000_000;

/// What the words ask for.
#[derive(Drop)]
pub enum Request<'a> {
    /// To filter a stream.
    Filter(FilterWords<'a>),
    /// To run a script.
    Replay,
    /// To serve streams.
    Serve(ServeWords<'a>),
}

/// What a stream is filtered by, as the words say it.
#[derive(Clone, Copy)]
pub struct FilterWords<'a> {
    pub operations: &'a str,
    /// The luma rows of a band.
    pub band: u32,
    /// 1 or 2: with 2, a frame is read while the image of the one before it is made and written.
    pub threads: u32,
    /// Nothing is shown of the run while it goes on.
    pub is_quiet: bool,
}

/// The streams that are served, and by what, as the words say it.
#[derive(Drop)]
pub struct ServeWords<'a> {
    pub workers: u32,
    /// The luma rows of a band.
    pub band: u32,
    /// The most bands of one lease.
    pub quantum: u32,
    /// The most entries of a journal.
    pub journal: u32,
    /// Nothing is shown of the run while it goes on.
    pub is_quiet: bool,
    /// The file whose lines ask for more streams, if one does; `-` is standard input.
    pub control: Option<&'a str>,
    /// The microseconds of a moment, where they are told.
    pub moment: Option<u32>,
    /// The file that the trace of the run is written to, if one is.
    pub trace: Option<&'a str>,
    /// The words that name the streams.
    pub streams: Vec<&'a str>,
    ghost in_range: { (1 ≤ workers) × (workers ≤ MOST_WORKERS) × (1 ≤ quantum) × (quantum ≤ MOST_QUANTUM)
        × (MOST_STREAMS + 2 ≤ journal) × (journal ≤ MOST_ENTRIES) },
}

/// Why the words ask for nothing that is run.
#[derive(Drop)]
pub enum NoRequest {
    /// They ask for this help.
    Help(String),
    /// They are wrong; this says how.
    Wrong(String),
    /// There was no memory for them.
    NoMemory,
}

impl From<AllocError> for NoRequest {
    ghost from_gives = { λ _ why. why ≡ NoMemory };

    fn from(_error: AllocError) -> NoRequest {
        NoRequest::NoMemory
    }
}
