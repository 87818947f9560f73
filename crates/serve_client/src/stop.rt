//! Why a client stops.
ghost use Rattle.std.specs.Prelude.{◌≡◌, ◌↔◌, IsFalse};
ghost use Rattle.serve_client.specs.ClientInside.{IsFirst, IsUseful, halt_of, stop_of};

use serve_core::{Collected, Refusal as Core};
use serve_hub::Refusal;
use std::fmt;
use thiserror::Error;
use y4m_stream::{ReadFault, WriteFault};

/// Why a frame, or an image, is refused to a client.
#[derive(Clone, Copy, Debug, PartialEq, Eq, Error)]
pub enum Cause {
    /// The stream has accepted as many frames as it may.
    TooManyFrames,
    /// The moment of the offer was past 2^60.
    ClockEnd,
    /// Memory was refused for the frame, for its job, for the header of the images, or for the next epoch.
    NoMemory,
}

impl Cause {
    ghost use Rattle.serve_client.specs.Words.{cause_word};

    /// The word that it is told by, its own name.
    pub fn word(&self) -> &'static str
        ensures { result.now ≡ cause_word self.now }
    {
        match self {
            Cause::TooManyFrames => "TooManyFrames",
            Cause::ClockEnd => "ClockEnd",
            Cause::NoMemory => "NoMemory",
        }
    }
}

impl fmt::Display for Cause {
    ghost use Rattle.std.specs.Prelude.{Some};
    ghost use Rattle.serve_client.specs.Words.{cause_word};

    ghost output = { λ cause. Some (cause_word cause) };

    fn fmt<W: fmt::Write>(&self, f: &mut fmt::Formatter<W>) -> fmt::Result {
        f.write_str(self.word())
    }
}

/// Why a client stopped: the first fault, or none.
#[derive(Clone, Copy, Debug, PartialEq, Eq)]
pub enum Stop {
    /// The input was read to its end, and the images of all its frames were written.
    Whole,
    /// The reader failed.
    Read(ReadFault),
    /// The writer failed, after so many bytes.
    Write(WriteFault),
    /// The hub refused a frame or an image.
    Refused(Cause),
    /// What the hub answered contradicts the client's seat.
    Torn,
}

impl Stop {
    /// What a refusal of the hub is to a client whose journal isn't full: it has collected all, or it stops.
    /// A refusal that contradicts its seat is `Torn`.
    pub(crate) fn of(refusal: Refusal) -> Stop
        ensures { result ≡ stop_of refusal }
    {
        match refusal {
            Refusal::Core(Core::TooManyFrames) => Stop::Refused(Cause::TooManyFrames),
            Refusal::Core(Core::ClockEnd) => Stop::Refused(Cause::ClockEnd),
            Refusal::Core(Core::NoMemory) => Stop::Refused(Cause::NoMemory),
            Refusal::Core(Core::Drained) => Stop::Whole,
            _ => Stop::Torn,
        }
    }

    /// Whether nothing more is written after it.
    pub(crate) fn is_spoilt(self) -> bool
        ensures useful { IsFalse result ↔ IsUseful self }
    {
        matches!(self, Stop::Write(_) | Stop::Torn)
    }

    /// The first of two stops that is a fault.
    pub(crate) fn or(self, later: Stop) -> Stop
        ensures { IsFirst self later result }
    {
        if self == Stop::Whole { later } else { self }
    }
}

/// Why a client goes no further.
#[derive(Drop)]
pub(crate) enum Halt {
    /// The journal is full. The image in hand, if there is one, isn't written whole yet.
    Full(Option<Collected>),
    Stopped(Stop),
}

impl Halt {
    /// What a refusal of the hub is to a client.
    pub(crate) fn of(refusal: Refusal) -> Halt
        ensures { result ≡ halt_of refusal }
    {
        match refusal {
            Refusal::HistoryFull => Halt::Full(None),
            refusal => Halt::Stopped(Stop::of(refusal)),
        }
    }
}
