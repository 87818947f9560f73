//! What is wrong with a script or with its replay, and where a script stops.
ghost use Rattle.std.specs.Prelude.{◌≡◌};
ghost use Rattle.std.specs.Option.{option_copied};
ghost use Rattle.serve_script.specs.ScriptFault as told;
ghost use Rattle.serve_script.specs.ScriptFault.{fault_name, fault_told, fault_word, filter_fault};
ghost use Rattle.serve_script.specs.ScriptFault.{header_fault};
ghost use Rattle.serve_script.specs.declared.fault.ReplayFault.TheVariants as replay_faults;

use cbs_account::BadBandwidth;
use filters::FilterError;
use std::alloc::{AllocError, AllocFailed};
use thiserror::Error;
use y4m_header::HeaderError;

/// Why a script's run is not told whole. A fault of the script itself is no such fault.
#[derive(Clone, Copy, Debug, PartialEq, Error)]
pub enum ReplayFault {
    /// A read of the input failed. Nothing was run or written.
    #[error("read")]
    Read,
    /// A write of the output failed or took no byte, or its flush failed. The front of what the script prints
    /// went out, or of what is told where a growth was refused.
    #[error("write")]
    Write,
    /// A growth was refused. The answers of the lines before line N are written, none of which has a fault,
    /// and then the line `line N: NoMemory`. N is the line of the command that wants the memory, for what it
    /// does or for its answer, or 0 if the script itself couldn't be kept.
    #[error("NoMemory")]
    NoMemory,
}

impl From<AllocError> for ReplayFault {
    ghost from_gives = { λ _ fault. fault ≡ replay_faults.NoMemory };

    fn from(_error: AllocError) -> ReplayFault {
        ReplayFault::NoMemory
    }
}

/// What is wrong with a line of a script, or with the script as a whole. Names are the script's own bytes.
#[derive(Clone, Copy)]
pub enum ScriptFault<'a> {
    /// The line has no form that a script knows there.
    BadLine,
    /// A stream has the name.
    BadName,
    /// An account was opened with a maximum budget and a period that no server may have.
    BadBandwidth,
    /// More units than can be charged at once, or a deadline past the program's numbers.
    Range,
    /// A stream's header is refused.
    BadHeader(HeaderError),
    /// A stream's operations are none, or make no chain for its frames.
    BadChain(FilterError),
    /// A number of the setup is outside its limits.
    BadLimits,
    /// The stream of this name has a maximum budget and a period that no server may have.
    BadBandwidthOf(&'a [u8]),
    /// The stream of this name asks for more than the streams before it leave of the workers.
    OverloadOf(&'a [u8]),
    /// The script as a whole is longer than its limit.
    TooLong,
    /// A growth was refused.
    NoMemory,
}

impl<'a> ScriptFault<'a> {
    /// The word that is printed.
    pub fn word(self) -> &'static str
        ensures { result.now ≡ fault_word (fault_told self.entry) }
    {
        match self {
            ScriptFault::BadLine => "BadLine",
            ScriptFault::BadName => "BadName",
            ScriptFault::BadBandwidth => "BadBandwidth",
            ScriptFault::Range => "Range",
            ScriptFault::BadHeader(error) => error.word(),
            ScriptFault::BadChain(error) => error.word(),
            ScriptFault::BadLimits => "BadLimits",
            ScriptFault::BadBandwidthOf(_) => "BadBandwidth",
            ScriptFault::OverloadOf(_) => "Overload",
            ScriptFault::TooLong => "TooLong",
            ScriptFault::NoMemory => "NoMemory",
        }
    }

    /// The name of the stream whose fault it is, where it is one stream's.
    pub fn name(self) -> Option<&'a [u8]>
        ensures { option_copied result ≡ fault_name (fault_told self.entry) }
    {
        match self {
            ScriptFault::BadBandwidthOf(name) => Some(name),
            ScriptFault::OverloadOf(name) => Some(name),
            _ => None,
        }
    }
}

impl<'a> From<AllocError> for ScriptFault<'a> {
    ghost from_gives = { λ _ fault. fault_told fault ≡ told.NoMemory };

    fn from(_error: AllocError) -> ScriptFault<'a> {
        ScriptFault::NoMemory
    }
}

impl<'a, T: Drop> From<AllocFailed<T>> for ScriptFault<'a> {
    ghost from_gives = { λ _ fault. fault_told fault ≡ told.NoMemory };

    fn from(_error: AllocFailed<T>) -> ScriptFault<'a> {
        ScriptFault::NoMemory
    }
}

impl<'a> From<BadBandwidth> for ScriptFault<'a> {
    ghost from_gives = { λ _ fault. fault_told fault ≡ told.BadBandwidth };

    fn from(_error: BadBandwidth) -> ScriptFault<'a> {
        ScriptFault::BadBandwidth
    }
}

impl<'a> From<HeaderError> for ScriptFault<'a> {
    ghost from_gives = { λ error fault. fault_told fault ≡ header_fault error };

    fn from(error: HeaderError) -> ScriptFault<'a> {
        match error {
            HeaderError::NoMemory => ScriptFault::NoMemory,
            error => ScriptFault::BadHeader(error),
        }
    }
}

impl<'a> From<FilterError> for ScriptFault<'a> {
    ghost from_gives = { λ error fault. fault_told fault ≡ filter_fault error };

    fn from(error: FilterError) -> ScriptFault<'a> {
        match error {
            FilterError::NoMemory => ScriptFault::NoMemory,
            error => ScriptFault::BadChain(error),
        }
    }
}

/// The line at which a script stops, and its fault. Lines are numbered from 1; 0 stands for the script as a
/// whole.
#[derive(Clone, Copy)]
pub struct ScriptStop<'a> {
    pub line: u64,
    pub fault: ScriptFault<'a>,
}
