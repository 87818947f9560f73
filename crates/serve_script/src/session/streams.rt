//! The streams of a session script by name.
ghost use Rattle.std.specs.Prelude.{◌≡◌, [], IfErr, IfOk, Ok, OnErr, OnOk, false, length, slice_get};
ghost use Rattle.std.specs.Prelude.{slice_index_or};
ghost use Rattle.serve_core.specs.Seen.{heard};
ghost use Rattle.serve_script.specs.ScriptFault.{fault_told};
ghost use Rattle.serve_script.specs.SessionCommand.{stream_told};
ghost use Rattle.serve_script.specs.SessionInside.{MayLack, admitted_streams, no_streams, settings_told};
ghost use Rattle.serve_script.specs.SessionInside.{with_named};
ghost use Rattle.serve_script.specs.SessionRun.{stream_named};
ghost use Rattle.serve_script.specs.StreamLine.{AsksFor, is_taken};

use super::stream_command::StreamCommand;
use super::stream_settings::StreamSettings;
use crate::fault::ScriptFault;
use frame_view::Geometry;
use indexmap::IndexMap;
use serve_core::{Reply, StreamSpec};
use std::alloc::{AllocError, Global};
use std::marker::Model;

/// The streams of a session: their names, which stand in the script, and the geometries of their frames, by
/// number.
#[derive(Drop)]
pub struct StreamTable<'a> {
    entries: IndexMap<&'a [u8], Geometry>,
}

impl<'a> Model for StreamTable<'a> {
    ghost use Rattle.std.specs.Prelude.{map};
    ghost use Rattle.serve_script.specs.SessionInside.{Streams};

    ghost Value = { Streams };

    ghost view = { λ a. record {
      names = map (λ entry. entry.0.now) a.entries.entries;
      geometries = map (λ entry. entry.1) a.entries.entries;
    } };
}

impl<'a> StreamTable<'a> {
    /// There is no stream yet.
    pub fn new(alloc: Global) -> StreamTable<'a>
        ensures { result ≡ no_streams }
    {
        StreamTable {
            entries: IndexMap::new(alloc),
        }
    }

    /// How many streams there are.
    pub fn count(&self) -> usize
        ensures names { result ≡ length self.now.names }
        ensures geometries { result ≡ length self.now.geometries }
    {
        self.entries.len()
    }

    /// Whether a stream has the name.
    pub fn has(&self, name: &[u8]) -> bool
        ensures { result ≡ is_taken name.now self.now.names }
    {
        self.entries.contains_key(&name)
    }

    /// The number of the stream of this name, or the number after the last one's.
    pub fn number_of(&self, name: &[u8]) -> usize
        ensures { result ≡ stream_named self.now.names name.now }
    {
        match self.entries.get_index_of(&name) {
            Some(number) => number,
            None => self.entries.len(),
        }
    }

    /// The name of a stream.
    pub fn name_at(&self, number: u32) -> &'a [u8]
        ensures { result.now ≡ slice_index_or self.now.names number [] }
    {
        match self.entries.get_index(number as usize) {
            Some((name, _)) => *name,
            None => b"".as_slice(),
        }
    }

    /// The geometry of a stream's frames.
    pub fn geometry_at(&self, number: u32) -> Option<Geometry>
        ensures { result ≡ slice_get self.now.geometries number }
    {
        let (_, geometry) = self.entries.get_index(number as usize)?;
        Some(*geometry)
    }

    /// Puts the stream of a line behind the others. It answers what the stream is served with.
    pub fn enter(
        &mut self,
        alloc: Global,
        settings: StreamSettings,
        stream: StreamCommand<'a>,
    ) -> Result<StreamSpec, ScriptFault<'a>>
        ensures asked { IfOk result
            (λ spec. AsksFor self.old.names (settings_told settings) (stream_told stream.entry) (Ok spec)) }
        ensures entered { IfOk result
            (λ spec. self.new ≡ with_named stream.entry.name.now spec.geometry self.old) }
        ensures fault { IfErr result (λ fault. MayLack
            (AsksFor self.old.names (settings_told settings) (stream_told stream.entry)) (fault_told fault)) }
        ensures keeps_streams { OnErr result (self.new ≡ self.old) }
    {
        if self.has(stream.name) {
            return Err(ScriptFault::BadName);
        }
        let spec = settings.spec_of(alloc, stream)?;
        self.push(stream.name, spec.job().chain().geometry())?;
        Ok(spec)
    }

    /// One stream more, or nothing.
    fn push(&mut self, name: &'a [u8], geometry: Geometry) -> Result<(), AllocError>
        requires { is_taken name.now self.old.names ≡ false }
        ensures ok { OnOk result (self.new ≡ with_named name.now geometry self.old) }
        ensures err { OnErr result (self.new ≡ self.old) }
    {
        let Ok(_) = self.entries.insert(name, geometry) else {
            return Err(AllocError);
        };
        Ok(())
    }

    /// Behind the machine's answer: keeps so many streams, the first ones, where it has admitted none.
    pub fn keep_admitted(&mut self, count: usize, reply: &Reply)
        ensures { self.new ≡ admitted_streams count (heard reply.now) self.old }
    {
        match reply {
            Reply::Admitted(_) => {}
            _ => self.entries.truncate(count),
        }
    }
}
