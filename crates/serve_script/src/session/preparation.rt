//! A session script before its `start`.
ghost use Rattle.std.specs.Prelude.{◌≡◌, IfErr, IfOk, length};
ghost use Rattle.serve_script.specs.ScriptFault.{fault_told};
ghost use Rattle.serve_script.specs.ScriptState.{InSetup, MayFault, Prints, unprepared};
ghost use Rattle.serve_script.specs.SessionCommand.{stream_told};
ghost use Rattle.serve_script.specs.SessionInside.{IsAt};
ghost use Rattle.serve_script.specs.SessionSetup.{BandGives, StartGives, StreamGives, begun, settled};
ghost use Rattle.serve_script.specs.SessionSetup.{start_fault, started, stream_line, with_settings};

use super::running::Session;
use super::stream_command::StreamCommand;
use super::stream_settings::StreamSettings;
use super::streams::StreamTable;
use crate::fault::ScriptFault;
use serve_core::{Setup, SetupError, StreamSpec};
use std::alloc::Global;
use std::marker::Model;

/// What a session script has set up so far. Contracts see it as the record of that name in
/// `specs/ScriptState.antt`.
#[derive(Drop)]
pub struct Preparation<'a> {
    streams: StreamTable<'a>,
    /// What the streams are served with, by number.
    specs: Vec<StreamSpec>,
    workers: u64,
    quantum: u64,
    /// For the streams that follow.
    settings: StreamSettings,
}

impl<'a> Model for Preparation<'a> {
    ghost use Rattle.serve_script.specs.ScriptState.{Preparation as Prepared};
    ghost use Rattle.serve_script.specs.SessionInside.{IsTableOf, settings_told};

    ghost Value = { Prepared };

    ghost view = { λ a. record {
      workers = a.workers;
      quantum = a.quantum;
      settings = settings_told a.settings;
      names = a.streams.names;
      streams = a.specs.items;
    } };

    ghost invariant = { λ a. IsTableOf a.streams a.specs.items };
}

impl<'a> Preparation<'a> {
    /// Nothing is set up yet.
    pub fn new(alloc: Global) -> Preparation<'a>
        ensures { result ≡ unprepared }
    {
        Preparation {
            streams: StreamTable::new(alloc),
            specs: Vec::new(alloc),
            workers: 1,
            quantum: 4,
            settings: StreamSettings::new(),
        }
    }

    /// How many streams there are.
    pub fn count(&self) -> u64
        ensures { result ≡ length self.now.streams }
    {
        self.specs.len() as u64
    }

    pub fn with_workers(self, count: u64) -> Preparation<'a>
        ensures { result ≡ record self.entry { workers = count } }
    {
        let mut next = self;
        next.workers = count;
        next
    }

    pub fn with_quantum(self, bands: u64) -> Preparation<'a>
        ensures { result ≡ record self.entry { quantum = bands } }
    {
        let mut next = self;
        next.quantum = bands;
        next
    }

    pub fn with_frames(self, most: u64) -> Preparation<'a>
        ensures { result ≡ with_settings (record self.entry.settings { frames = most }) self.entry }
    {
        let mut next = self;
        next.settings = next.settings.with_frames(most);
        next
    }

    /// Bands of so many rows, for the streams that follow.
    pub fn with_band(self, rows: u64) -> Result<Preparation<'a>, ScriptFault<'a>>
        ensures ok { IfOk result (λ next. BandGives self.entry rows (settled next)) }
        ensures fault { IfErr result (λ fault. MayFault (BandGives self.entry rows) (fault_told fault)) }
    {
        let mut next = self;
        next.settings = next.settings.with_band(rows).ok_or(ScriptFault::BadLimits)?;
        Ok(next)
    }

    /// One stream more.
    pub fn with_stream(
        self,
        alloc: Global,
        stream: StreamCommand<'a>,
    ) -> Result<Preparation<'a>, ScriptFault<'a>>
        ensures ok { IfOk result (λ next. StreamGives self.entry (stream_told stream.entry)
            (Prints (stream_line (length self.entry.streams)) (InSetup next))) }
        ensures fault { IfErr result
            (λ fault. MayFault (StreamGives self.entry (stream_told stream.entry)) (fault_told fault)) }
    {
        let Preparation {
            mut streams,
            mut specs,
            workers,
            quantum,
            settings,
        } = self;
        let spec = streams.enter(alloc, settings, stream)?;
        specs.push(spec)?;
        Ok(Preparation {
            streams,
            specs,
            workers,
            quantum,
            settings,
        })
    }

    /// The session of this setup, before any event.
    pub fn start(self, alloc: Global) -> Result<Session<'a>, ScriptFault<'a>>
        ensures ok { IfOk result (λ kept. StartGives self.entry (started self.entry)) }
        ensures at_beginning { IfOk result (λ kept. IsAt kept (begun self.entry)) }
        ensures fault { IfErr result (λ fault. MayFault (StartGives self.entry) (fault_told fault)) }
    {
        let Preparation {
            streams,
            specs,
            workers,
            quantum,
            settings,
        } = self;
        match Setup::new(workers, quantum, specs) {
            Ok(setup) => Ok(Session::new(alloc, streams, settings, setup)?),
            Err(error) => Err(start_fault(&streams, error)),
        }
    }
}

/// The fault of a setup, with the name of the stream whose fault it is.
fn start_fault<'a>(streams: &StreamTable<'a>, error: SetupError) -> ScriptFault<'a>
    ensures { fault_told result ≡ start_fault streams.now.names error }
{
    match error {
        SetupError::BadLimits => ScriptFault::BadLimits,
        SetupError::BadBandwidth(s) => ScriptFault::BadBandwidthOf(streams.name_at(s)),
        SetupError::Overload(s) => ScriptFault::OverloadOf(streams.name_at(s)),
    }
}
