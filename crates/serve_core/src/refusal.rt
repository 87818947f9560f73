//! Why an event is refused.
ghost use Rattle.std.specs.Prelude.{◌≡◌};

use std::fmt;
use thiserror::Error;

/// Why an event is refused. Each event has some of these, in an order of its own, and is refused by the first
/// that holds.
#[derive(Clone, Copy, Debug, PartialEq, Eq, Error)]
pub enum Refusal {
    /// No stream has this number.
    NoStream,
    /// The stream was closed before.
    Closed,
    /// The frame doesn't have the stream's size.
    WrongSize,
    /// The stream has accepted as many frames as it may at all.
    TooManyFrames,
    /// As many frames as the queue has places are unfinished.
    Full,
    /// The memory for the frame's job, or for a stream, was refused.
    NoMemory,
    /// No worker has this number.
    NoWorker,
    /// The worker holds a lease.
    Busy,
    /// No stream is ready.
    NoneReady,
    /// The worker holds no lease.
    NoLease,
    /// All bands of the lease are done.
    GrantSpent,
    /// The moment is before the clock.
    Past,
    /// The moment is past the end of the clock, 2^60.
    ClockEnd,
    /// The stream was closed before.
    AlreadyClosed,
    /// No image is there yet.
    Empty,
    /// No image will come: the stream is closed, and all its images were collected.
    Drained,
    /// As many streams as there can be at all have had a number.
    TooManyStreams,
    /// A number of the stream is outside its limits, but for those of its account, or its chain was made for
    /// another geometry.
    BadLimits,
    /// The stream's maximum budget and period are not `1 <= Q <= T <= 1048576`.
    BadBandwidth,
    /// The stream's share is more than is left of the workers.
    Overload,
}

impl Refusal {
    ghost use Rattle.serve_core.specs.Words.{refusal_code, refusal_word};

    /// The number that it is told by. Refusals of admissions begin at 20.
    pub fn code(&self) -> u32
        ensures { result ≡ refusal_code self.now }
    {
        match self {
            Refusal::NoStream => 1,
            Refusal::Closed => 2,
            Refusal::WrongSize => 3,
            Refusal::TooManyFrames => 4,
            Refusal::Full => 5,
            Refusal::NoMemory => 6,
            Refusal::NoWorker => 7,
            Refusal::Busy => 8,
            Refusal::NoneReady => 9,
            Refusal::NoLease => 10,
            Refusal::GrantSpent => 11,
            Refusal::Past => 12,
            Refusal::ClockEnd => 13,
            Refusal::AlreadyClosed => 14,
            Refusal::Empty => 15,
            Refusal::Drained => 16,
            Refusal::TooManyStreams => 20,
            Refusal::BadLimits => 21,
            Refusal::BadBandwidth => 22,
            Refusal::Overload => 23,
        }
    }

    /// The word that it is told by, its own name.
    pub fn word(&self) -> &'static str
        ensures { result.now ≡ refusal_word self.now }
    {
        match self {
            Refusal::NoStream => "NoStream",
            Refusal::Closed => "Closed",
            Refusal::WrongSize => "WrongSize",
            Refusal::TooManyFrames => "TooManyFrames",
            Refusal::Full => "Full",
            Refusal::NoMemory => "NoMemory",
            Refusal::NoWorker => "NoWorker",
            Refusal::Busy => "Busy",
            Refusal::NoneReady => "NoneReady",
            Refusal::NoLease => "NoLease",
            Refusal::GrantSpent => "GrantSpent",
            Refusal::Past => "Past",
            Refusal::ClockEnd => "ClockEnd",
            Refusal::AlreadyClosed => "AlreadyClosed",
            Refusal::Empty => "Empty",
            Refusal::Drained => "Drained",
            Refusal::TooManyStreams => "TooManyStreams",
            Refusal::BadLimits => "BadLimits",
            Refusal::BadBandwidth => "BadBandwidth",
            Refusal::Overload => "Overload",
        }
    }
}

impl fmt::Display for Refusal {
    ghost use Rattle.std.specs.Prelude.{Some};
    ghost use Rattle.serve_core.specs.Words.{refusal_word};

    ghost output = { λ refusal. Some (refusal_word refusal) };

    fn fmt<W: fmt::Write>(&self, f: &mut fmt::Formatter<W>) -> fmt::Result {
        f.write_str(self.word())
    }
}
