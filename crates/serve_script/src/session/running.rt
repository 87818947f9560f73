//! A session script after its `start`.
ghost use Rattle.std.specs.Prelude.{◌≡◌, ◌++◌, IfErr, IfOk, OnErr, OnOk, length, true};
ghost use Rattle.filters.specs.ChainImage.{FrameValue};
ghost use Rattle.serve_core.specs.Leads.{opening_state};
ghost use Rattle.serve_core.specs.Seen.{heard, seen};
ghost use Rattle.serve_script.specs.ScriptFault.{fault_told};
ghost use Rattle.serve_script.specs.ScriptReport.{line_text};
ghost use Rattle.serve_script.specs.ScriptState.{MayFault, Session as Begun};
ghost use Rattle.serve_script.specs.SessionCommand.{HasHex, run_told, stream_told};
ghost use Rattle.serve_script.specs.SessionInside.{AnswersIn, AsksForNone, IsArrivalEvent, IsAt};
ghost use Rattle.serve_script.specs.SessionInside.{settings_told};
ghost use Rattle.serve_script.specs.SessionRun.{AdmitGives, ArrivalGives, EventGives, RunGives, StateGives};
ghost use Rattle.serve_script.specs.SessionRun.{answer_in, leased_name, stream_named};
ghost use Rattle.serve_script.specs.SessionWords.{is_hex};

use super::arrival::frame_of;
use super::line::{push_refusal, push_reply, push_state};
use super::run_command::RunCommand;
use super::stream_command::StreamCommand;
use super::stream_settings::StreamSettings;
use super::streams::StreamTable;
use crate::fault::ScriptFault;
use serve_core::{Event, Machine, Refusal, Reply, Setup};
use std::alloc::{AllocError, Global};
use std::marker::Model;
use std::sync::Arc;

/// The streams' names, the settings of those that are admitted, and the machine. Contracts see it as the
/// `SessionValue` of `specs/SessionInside.antt`.
#[derive(Drop)]
pub struct Session<'a> {
    streams: StreamTable<'a>,
    settings: StreamSettings,
    machine: Machine,
}

impl<'a> Model for Session<'a> {
    ghost use Rattle.serve_script.specs.SessionInside.{IsRunning, SessionValue, settings_told};

    ghost Value = { SessionValue };

    ghost view = { λ a. record {
      streams = a.streams;
      settings = settings_told a.settings;
      machine = a.machine;
    } };

    ghost invariant = { λ a. IsRunning a.streams a.machine };
}

impl<'a> Session<'a> {
    /// A session before any event.
    pub fn new(
        alloc: Global,
        streams: StreamTable<'a>,
        settings: StreamSettings,
        setup: Setup,
    ) -> Result<Session<'a>, AllocError>
        requires { length streams.names ≡ length setup.streams }
        ensures streams { IfOk result (λ session. session.streams ≡ streams.entry) }
        ensures settings { IfOk result (λ session. session.settings ≡ settings_told settings) }
        ensures machine { IfOk result (λ session.
            session.machine ≡ opening_state FrameValue FrameValue setup) }
    {
        setup.recall_limits();
        let machine = Machine::new(alloc, setup)?;
        Ok(Session {
            streams,
            settings,
            machine,
        })
    }

    /// Runs a command and appends its answer.
    pub fn run(
        &mut self,
        alloc: Global,
        command: RunCommand<'a>,
        printed: &mut Vec<u8>,
    ) -> Result<(), ScriptFault<'a>>
        requires { HasHex (run_told command) }
        ensures ran { OnOk result ((session : Begun) → IsAt self.old session
            → AnswersIn (RunGives session (run_told command.entry)) self.new
            printed.old.items printed.new.items) }
        ensures fault { IfErr result (λ fault. (session : Begun) → IsAt self.old session
            → MayFault (RunGives session (run_told command.entry)) (fault_told fault)) }
        ensures keeps_printed { OnErr result (printed.new.items ≡ printed.old.items) }
    {
        let event = match command {
            RunCommand::Arrive { name, hex } => self.arrival(alloc, name, hex)?,
            RunCommand::Lease { worker } => Event::Lease(worker),
            RunCommand::Step { worker } => Event::Band(worker),
            RunCommand::Settle { worker } => Event::Settle(worker),
            RunCommand::Tick { moment } => Event::Tick(moment),
            RunCommand::Close { name } => Event::Close(self.number_of(name)),
            RunCommand::Collect { name } => Event::Collect(self.number_of(name)),
            RunCommand::Admit(stream) => return self.admit(alloc, stream, printed),
            RunCommand::State { name } => return Ok(self.print_state(name, printed)?),
        };
        Ok(self.run_event(alloc, event, printed)?)
    }

    /// The number of the stream of this name, or the number after the last one's.
    fn number_of(&self, name: &[u8]) -> u32
        ensures { result ≡ stream_named self.now.streams.names name.now }
    {
        self.streams.number_of(name) as u32
    }

    /// The arrival of a frame of hexadecimal digits.
    fn arrival(
        &self,
        alloc: Global,
        name: &'a [u8],
        hex: &'a [u8],
    ) -> Result<Event, ScriptFault<'a>>
        requires { is_hex hex.now ≡ true }
        ensures ok { IfOk result (λ event. (session : Begun) → IsAt self.now session
            → IsArrivalEvent session name.now hex.now (seen event)) }
        ensures fault { IfErr result (λ fault. (session : Begun) → IsAt self.now session
            → MayFault (ArrivalGives session name.now hex.now) (fault_told fault)) }
    {
        let number = self.number_of(name);
        let frame = frame_of(alloc, self.streams.geometry_at(number), hex)?;
        Ok(Event::Arrive(number, Arc::new(alloc, frame)?))
    }

    /// Runs an event that asks for no stream, and appends the line of its reply.
    fn run_event(
        &mut self,
        alloc: Global,
        event: Event,
        printed: &mut Vec<u8>,
    ) -> Result<(), AllocError>
        ensures ran { OnOk result ((session : Begun) → IsAt self.old session → AsksForNone (seen event)
            → AnswersIn (EventGives session (seen event)) self.new printed.old.items printed.new.items) }
        ensures keeps_printed { OnErr result (printed.new.items ≡ printed.old.items) }
    {
        let reply = self.machine.step(alloc, event);
        self.print_reply(alloc, &reply, printed)
    }

    /// Asks for one stream more, and appends the line of the answer.
    ///
    /// The name is put into the table first, since that may want memory, and is taken out again where the
    /// stream is refused.
    fn admit(
        &mut self,
        alloc: Global,
        stream: StreamCommand<'a>,
        printed: &mut Vec<u8>,
    ) -> Result<(), ScriptFault<'a>>
        ensures ran { OnOk result ((session : Begun) → IsAt self.old session
            → AnswersIn (AdmitGives session (stream_told stream.entry)) self.new
            printed.old.items printed.new.items) }
        ensures fault { IfErr result (λ fault. (session : Begun) → IsAt self.old session
            → MayFault (AdmitGives session (stream_told stream.entry)) (fault_told fault)) }
        ensures keeps_printed { OnErr result (printed.new.items ≡ printed.old.items) }
    {
        let count = self.streams.count();
        let spec = self.streams.enter(alloc, self.settings, stream)?;
        let reply = self.machine.step(alloc, Event::Admit(spec));
        self.streams.keep_admitted(count, &reply);
        Ok(self.print_reply(alloc, &reply, printed)?)
    }

    /// Appends the line of a reply.
    fn print_reply(
        &self,
        alloc: Global,
        reply: &Reply,
        printed: &mut Vec<u8>,
    ) -> Result<(), AllocError>
        ensures ok { OnOk result (printed.new.items ≡ printed.old.items
            ++ line_text (answer_in self.now.streams.names (heard reply.now))) }
        ensures err { OnErr result (printed.new.items ≡ printed.old.items) }
    {
        let name = self.leased_name(reply);
        push_reply(alloc, printed, name, reply)
    }

    /// The name of the stream that is leased, or nothing.
    fn leased_name(&self, reply: &Reply) -> &[u8]
        ensures { result.now ≡ leased_name self.now.streams.names (heard reply.now) }
    {
        match reply {
            Reply::Leased(stream, _, _) => self.streams.name_at(*stream),
            _ => b"".as_slice(),
        }
    }

    /// Appends the line of a stream's state.
    fn print_state(&self, name: &[u8], printed: &mut Vec<u8>) -> Result<(), AllocError>
        ensures ran { OnOk result ((session : Begun) → IsAt self.now session
            → AnswersIn (StateGives session name.now) self.now printed.old.items printed.new.items) }
        ensures keeps_printed { OnErr result (printed.new.items ≡ printed.old.items) }
    {
        let number = self.number_of(name);
        match (self.machine.account(number), self.machine.counts(number)) {
            (Some(account), Some(counts)) => push_state(printed, account, counts),
            _ => push_refusal(printed, Refusal::NoStream),
        }
    }
}
