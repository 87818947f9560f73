//! Frames, and their planes as lists of rows of one buffer.
#![tactic(auto)]

pub mod chroma_plane;
pub mod frame;
pub mod geometry;
pub mod laws;
pub mod plane;
pub mod planes_mut;
pub mod same;

pub use chroma_plane::is_chroma_plane;
pub use frame::{Frame, WrongLength};
pub use geometry::{Geometry, LentPlane, LentPlanes, PlaneSize};
pub use laws::{lent_planes_stand_in_their_rows, lent_rows_leave_the_others, rows_part_the_bytes};
pub use plane::Plane;
pub use planes_mut::{PlaneMut, split_rows};
pub use same::is_same_frame;
