//! Frames that are the same.
ghost use Rattle.std.specs.Prelude.{◌≡◌, ◌↔◌, IsTrue};
ghost use Rattle.frame_view.specs.Frame.{IsFrameWith, line_of, samples_of};

use crate::frame::Frame;

/// Whether two frames have the same geometry, line and samples.
pub fn is_same_frame(one: &Frame, other: &Frame) -> bool
    ensures { IsTrue result
        ↔ IsFrameWith other.now.geometry (line_of other.now) (samples_of other.now) one.now }
{
    one.geometry == other.geometry && one.line() == other.line() && one.data() == other.data()
}
