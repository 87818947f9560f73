//! How the streams of a session script are served where their own lines don't say it.
ghost use Rattle.std.specs.Prelude.{◌≡◌, IfErr, IfNone, IfOk, IfSome, Ok};
ghost use Rattle.row_bands.specs.Height.{IsBandHeight};
ghost use Rattle.serve_script.specs.ScriptFault.{fault_told};
ghost use Rattle.serve_script.specs.ScriptState.{first_settings};
ghost use Rattle.serve_script.specs.SessionCommand.{stream_told};
ghost use Rattle.serve_script.specs.SessionInside.{MayLack, settings_told};
ghost use Rattle.serve_script.specs.StreamLine.{AsksOfOps};

use super::stream_command::StreamCommand;
use crate::fault::ScriptFault;
use filters::{Chain, parse_ops};
use frame_view::Geometry;
use lease::JobSpec;
use row_bands::BandHeight;
use serve_core::StreamSpec;
use std::alloc::Global;
use std::sync::Arc;
use y4m_header::{Header, MOST_FRAMES};

/// What `band` and `frames` have set for the streams that follow.
#[derive(Clone, Copy)]
pub struct StreamSettings {
    height: BandHeight,
    /// The most frames of a stream.
    frames: u64,
}

impl StreamSettings {
    /// Bands of 16 rows, and as many frames as a stream may have.
    pub fn new() -> StreamSettings
        ensures { settings_told result ≡ first_settings }
    {
        StreamSettings {
            height: BandHeight::new(16).unwrap(),
            frames: MOST_FRAMES,
        }
    }

    /// Bands of so many rows, if bands can have them.
    pub fn with_band(self, rows: u64) -> Option<StreamSettings>
        ensures sets_band { IfSome result (λ next. IsBandHeight rows
            × (settings_told next ≡ record (settings_told self) { band = rows })) }
        ensures none { IfNone result (¬ IsBandHeight rows) }
    {
        let rows = u32::try_from(rows).ok()?;
        let height = BandHeight::new(rows)?;
        Some(StreamSettings { height, ..self })
    }

    pub fn with_frames(self, most: u64) -> StreamSettings
        ensures { settings_told result ≡ record (settings_told self) { frames = most } }
    {
        StreamSettings {
            frames: most,
            ..self
        }
    }

    /// What the stream of a line is served with, whatever its name.
    pub fn spec_of<'a>(
        self,
        alloc: Global,
        stream: StreamCommand<'a>,
    ) -> Result<StreamSpec, ScriptFault<'a>>
        ensures ok { IfOk result
            (λ spec. AsksOfOps (settings_told self) (stream_told stream.entry) (Ok spec)) }
        ensures fault { IfErr result (λ fault. MayLack
            (AsksOfOps (settings_told self) (stream_told stream.entry)) (fault_told fault)) }
    {
        let ops = parse_ops(alloc, stream.operations)?;
        let header = Header::parse(alloc, stream.header)?;
        let geometry = Geometry::of(&header);
        let chain = Chain::new(alloc, ops, geometry, self.height)?;
        let spec = Arc::new(alloc, JobSpec::new(chain))?;
        Ok(StreamSpec::new(
            geometry,
            spec,
            stream.q,
            stream.t,
            stream.queue,
            stream.outbox,
            self.frames,
        ))
    }
}
