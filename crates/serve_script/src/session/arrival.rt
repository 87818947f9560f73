//! The frames that arrive in a session script.
ghost use Rattle.std.specs.Prelude.{◌≡◌, ◌≤◌, ◌<◌, IfErr, IfNone, IfOk, IfSome, false, true};
ghost use Rattle.filters.specs.ChainImage.{value_of};
ghost use Rattle.frame_view.specs.Places.{frame_len};
ghost use Rattle.serve_script.specs.ScriptFault.{fault_told};
ghost use Rattle.serve_script.specs.SessionInside.{IsArriving, IsFrameOf, IsNoFrame, fills_geometry};
ghost use Rattle.serve_script.specs.SessionWords.{is_hex};

use super::digits::decode_digits;
use crate::fault::ScriptFault;
use frame_view::{Frame, Geometry};
use std::alloc::Global;
use y4m_header::{Chroma, LONGEST_SIDE, check_frame_line};

/// The frame of hexadecimal digits where frames have this geometry: of that, or where the samples don't fill
/// it a single row of luma.
pub fn frame_of<'a>(
    alloc: Global,
    geometry: Option<Geometry>,
    hex: &'a [u8],
) -> Result<Frame, ScriptFault<'a>>
    requires { is_hex hex.now ≡ true }
    ensures ok { IfOk result (λ frame. IsFrameOf geometry hex.now (value_of frame)) }
    ensures fault { IfErr result (λ fault. IsNoFrame geometry hex.now (fault_told fault)) }
{
    let Some(geometry) = geometry_of_arrival(geometry, hex.len() / 2) else {
        return Err(ScriptFault::BadLine);
    };
    let samples = decode_digits(alloc, hex)?;
    let line = b"FRAME".as_slice();
    check_frame_line(line)?;
    match Frame::new(geometry, line.to_vec(alloc)?, samples) {
        Ok(frame) => Ok(frame),
        Err(_) => Err(ScriptFault::BadLine),
    }
}

/// The geometry of a frame of so many samples that arrives where frames have this one.
fn geometry_of_arrival(geometry: Option<Geometry>, count: usize) -> Option<Geometry>
    requires { 1 ≤ count }
    ensures arriving { IfSome result (IsArriving geometry count) }
    ensures filled { IfSome result (λ g. frame_len g ≡ count) }
    ensures none { IfNone result ((fills_geometry geometry count ≡ false) × (LONGEST_SIDE < count)) }
{
    if let Some(geometry) = geometry
        && geometry.bytes() == count
    {
        return Some(geometry);
    }
    if count > LONGEST_SIDE as usize {
        return None;
    }
    Some(Geometry {
        width: count as u32,
        height: 1,
        chroma: Chroma::Mono,
    })
}
