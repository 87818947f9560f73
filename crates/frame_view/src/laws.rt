//! What holds of the places of samples.
ghost use Rattle.frame_view.specs.Lending.{LentRowsLeaveTheOthers};
ghost use Rattle.frame_view.specs.Rows.{EachByteInOneRow, LentPlanesStandInTheirRows};

use crate::frame::Frame;
use crate::geometry::Geometry;

/// The rows of the planes part the bytes of a frame among them.
#[tactic(auto, using(crate::proofs::Parted::rows_part))]
pub fn rows_part_the_bytes(geometry: Geometry)
    ensures { EachByteInOneRow geometry }
{}

/// Planes that are lent at once come back to their own rows, whatever was written.
#[tactic(auto, using(crate::proofs::LentTogether::lent_planes))]
pub fn lent_planes_stand_in_their_rows(geometry: Geometry)
    ensures { LentPlanesStandInTheirRows geometry }
{}

/// Rows that `Frame::row_mut` or `Frame::rows_mut` lends come back as they were written; all other rows stay.
pub fn lent_rows_leave_the_others(frame: &Frame)
    ensures { LentRowsLeaveTheOthers frame.now }
{}
