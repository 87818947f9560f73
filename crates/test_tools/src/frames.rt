//! Frames of a few samples.
ghost use Rattle.std.specs.Prelude.{IfOk};
ghost use Rattle.frame_view.specs.Frame.{IsFrameWith};

use frame_view::{Frame, Geometry};
use std::alloc::Global;
use y4m_header::{Chroma, Header, HeaderError, check_frame_line};

/// Six rows of luma, and three of each chroma plane.
pub const TALL: Geometry = Geometry {
    width: 2,
    height: 6,
    chroma: Chroma::S420,
};

/// A sample of each of four planes.
pub const PIXEL: Geometry = Geometry {
    width: 1,
    height: 1,
    chroma: Chroma::S444Alpha,
};

/// The size that a header line says. A table's rows can say it so, as a constant can't lend a `Geometry`.
pub fn geometry_of(alloc: Global, line: &[u8]) -> Result<Geometry, HeaderError> {
    let header = Header::parse(alloc, line)?;
    Ok(Geometry::of(&header))
}

/// A frame of this line and these samples. Where they make none, `NotFrame` is answered.
pub fn frame_of(
    alloc: Global,
    geometry: Geometry,
    line: &[u8],
    samples: &[u8],
) -> Result<Frame, HeaderError>
    ensures { IfOk result (IsFrameWith geometry line.now samples.now) }
{
    check_frame_line(line)?;
    match Frame::new(geometry, line.to_vec(alloc)?, samples.to_vec(alloc)?) {
        Ok(frame) => Ok(frame),
        Err(_wrong) => Err(HeaderError::NotFrame),
    }
}
