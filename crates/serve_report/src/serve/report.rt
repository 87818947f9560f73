//! What is reported of the streams of a run.
ghost use Rattle.std.specs.Prelude.{◌≡◌};
ghost use Rattle.serve_report.specs.ServeReport.{admit_word};

use filters::FilterError;
use serve_core::Refusal as Core;
use serve_hub::Refusal;
use serve_work::{Cause, Stop};
use std::fmt;
use y4m_stream::{ReadFault, WriteFault};

/// Why a stream isn't admitted to those that are served.
#[derive(Clone, Copy)]
pub enum AdmitFault {
    /// As many streams as can be are opened or served.
    TooManyStreams,
    /// A number of the stream is outside its limits.
    BadLimits,
    /// Its maximum budget and period are those of no stream.
    BadBandwidth,
    /// The streams that are served leave it less than its share.
    Overload,
    /// There was no memory, or no thread, for it.
    NoMemory,
}

/// Why a stream ended.
#[derive(Clone, Copy)]
pub enum StreamStop {
    /// The input was read to its end, and the images of all its frames were written.
    Whole,
    /// The input couldn't be opened, as a folder, or is a FIFO that another stream reads.
    Open,
    /// The input couldn't be read on.
    Read(ReadFault),
    /// The operations make no chain for the input's frames.
    Ops(FilterError),
    /// The output couldn't be made, or is another stream's file.
    Create,
    /// The output couldn't be written on.
    Write(WriteFault),
    /// A frame or an image was refused.
    Refused(Cause),
    /// What was answered contradicts what was asked.
    Torn,
    /// It was closed, and the images of all that was read were written; or the run failed before it was
    /// served.
    Closed,
    /// It wasn't admitted.
    Admit(AdmitFault),
}

impl AdmitFault {
    /// The word that it is told by, its own name.
    pub fn word(&self) -> &'static str
        ensures { result.now ≡ admit_word self.now }
    {
        match self {
            AdmitFault::TooManyStreams => "TooManyStreams",
            AdmitFault::BadLimits => "BadLimits",
            AdmitFault::BadBandwidth => "BadBandwidth",
            AdmitFault::Overload => "Overload",
            AdmitFault::NoMemory => "NoMemory",
        }
    }
}

impl fmt::Display for AdmitFault {
    ghost use Rattle.std.specs.Prelude.{Some};
    ghost use Rattle.serve_report.specs.ServeReport.{admit_word};

    ghost output = { λ fault. Some (admit_word fault) };

    fn fmt<W: fmt::Write>(&self, f: &mut fmt::Formatter<W>) -> fmt::Result {
        f.write_str(self.word())
    }
}

impl From<Refusal> for AdmitFault {
    ghost use Rattle.serve_report.specs.ServeReport.{admit_fault};

    ghost from_gives = { λ refusal fault. fault ≡ admit_fault refusal };

    fn from(refusal: Refusal) -> AdmitFault {
        match refusal {
            Refusal::Core(Core::TooManyStreams) => AdmitFault::TooManyStreams,
            Refusal::Core(Core::BadLimits) => AdmitFault::BadLimits,
            Refusal::Core(Core::BadBandwidth) => AdmitFault::BadBandwidth,
            Refusal::Core(Core::Overload) => AdmitFault::Overload,
            _ => AdmitFault::NoMemory,
        }
    }
}

impl From<Stop> for StreamStop {
    ghost use Rattle.serve_report.specs.ServeReport.{stop_told};

    ghost from_gives = { λ stop told. told ≡ stop_told stop };

    fn from(stop: Stop) -> StreamStop {
        match stop {
            Stop::Whole => StreamStop::Whole,
            Stop::Read(fault) => StreamStop::Read(fault),
            Stop::Write(fault) => StreamStop::Write(fault),
            Stop::Refused(cause) => StreamStop::Refused(cause),
            Stop::Torn => StreamStop::Torn,
        }
    }
}

impl fmt::Display for StreamStop {
    ghost use Rattle.std.specs.Prelude.{Some};
    ghost use Rattle.serve_report.specs.ServeReport.{stop_text};

    ghost output = { λ stop. Some (stop_text stop) };

    fn fmt<W: fmt::Write>(&self, f: &mut fmt::Formatter<W>) -> fmt::Result {
        match *self {
            StreamStop::Whole => write!(f, "whole"),
            StreamStop::Open => write!(f, "open"),
            StreamStop::Read(fault) => write!(f, "read {fault}"),
            StreamStop::Ops(error) => write!(f, "ops {error}"),
            StreamStop::Create => write!(f, "create"),
            StreamStop::Write(fault) => write!(f, "write {fault}"),
            StreamStop::Refused(cause) => write!(f, "refused {cause}"),
            StreamStop::Torn => write!(f, "torn"),
            StreamStop::Closed => write!(f, "closed"),
            StreamStop::Admit(fault) => write!(f, "admit {fault}"),
        }
    }
}

/// What is reported of one stream.
#[derive(Clone, Copy)]
pub struct StreamRow<'a> {
    pub name: &'a str,
    /// How many of its frames were accepted.
    pub accepted: u64,
    /// How many images were written whole.
    pub delivered: u64,
    /// The units that were done for it.
    pub charged: u64,
    pub stop: StreamStop,
}

impl fmt::Display for StreamRow<'_> {
    ghost use Rattle.std.specs.Prelude.{Some};
    ghost use Rattle.serve_report.specs.ServeReport.{row_text};

    ghost output = { λ row. Some (row_text row) };

    fn fmt<W: fmt::Write>(&self, f: &mut fmt::Formatter<W>) -> fmt::Result {
        let StreamRow {
            name,
            accepted,
            delivered,
            charged,
            stop,
        } = *self;
        write!(
            f,
            "{name} accepted {accepted} delivered {delivered} charged {charged} stop {stop}"
        )
    }
}
