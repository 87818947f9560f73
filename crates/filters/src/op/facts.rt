//! What holds of one operation: which frames it can be done on, the geometry of its images, what a band of it
//! costs, and of which kind it is.
ghost use Rattle.std.specs.Prelude.{◌≡◌, ◌≤◌, ◌<◌, ◌+◌, ◌%◌, ◌↔◌, IsTrue};
ghost use Rattle.filters.specs.declared.op.Op.{Op};
ghost use Rattle.filters.specs.Ops.{HasGoodRadius, IsDoable, IsRectangleOf, is_crop, is_table, op_cost};
ghost use Rattle.filters.specs.Chain.{IsImageGeometry};

use crate::limits::{MOST_BAND_COST, MOST_RADIUS};
use crate::op::{Crop, Op};
use frame_view::Geometry;

/// Whether the radius of a blur is 1 to 8.
pub fn has_good_radius(op: &Op) -> bool
    ensures { IsTrue result ↔ HasGoodRadius op.now }
{
    match op {
        Op::Blur(blur) => blur.radius >= 1 && blur.radius <= MOST_RADIUS,
        Op::Table(_) | Op::HFlip | Op::VFlip | Op::Crop(_) => true,
    }
}

/// Whether the pixels from `from` on, this many, are some pixels of a line and cut no chroma sample.
fn is_part(from: u32, count: u32, line: u32, divisor: u32) -> bool
    requires { 0 < divisor }
    ensures { IsTrue result
        ↔ ((1 ≤ count) × (from + count ≤ line) × (from % divisor ≡ 0) × (count % divisor ≡ 0)) }
{
    count >= 1
        && from as u64 + count as u64 <= line as u64
        && from % divisor == 0
        && count % divisor == 0
}

fn is_rectangle_of(crop: Crop, geometry: Geometry) -> bool
    ensures { IsTrue result ↔ IsRectangleOf crop geometry }
{
    let divisors = geometry.chroma.divisors();
    is_part(crop.x, crop.width, geometry.width, divisors.horizontal)
        && is_part(crop.y, crop.height, geometry.height, divisors.vertical)
}

/// Whether the operation can be done on frames of this geometry.
pub fn is_doable(op: Op, geometry: Geometry) -> bool
    ensures { IsTrue result ↔ IsDoable op geometry }
{
    match op {
        Op::Crop(crop) => is_rectangle_of(crop, geometry),
        Op::Table(_) | Op::HFlip | Op::VFlip | Op::Blur(_) => has_good_radius(&op),
    }
}

fn crop_geometry(crop: Crop, geometry: Geometry) -> Geometry
    requires { IsRectangleOf crop geometry }
    ensures { IsImageGeometry (Op.Crop crop) geometry result }
{
    Geometry {
        width: crop.width,
        height: crop.height,
        chroma: geometry.chroma,
    }
}

/// The geometry of what an operation makes of a frame.
pub fn output_of(op: Op, geometry: Geometry) -> Geometry
    requires { IsDoable op geometry }
    ensures { IsImageGeometry op geometry result }
{
    match op {
        Op::Crop(crop) => crop_geometry(crop, geometry),
        Op::Table(_) | Op::HFlip | Op::VFlip | Op::Blur(_) => geometry,
    }
}

impl Op {
    /// What one band of the operation costs, in units: 1, and for a blur its radius more.
    pub fn cost(self) -> u32
        requires { HasGoodRadius self }
        ensures value { result ≡ op_cost self }
        ensures positive { 1 ≤ result }
        ensures within_limit { result ≤ MOST_BAND_COST }
    {
        match self {
            Op::Blur(blur) => 1 + blur.radius,
            Op::Table(_) | Op::HFlip | Op::VFlip | Op::Crop(_) => 1,
        }
    }
}

/// Whether the operation is a table. Then a frame can be its own image.
pub fn is_table(op: &Op) -> bool
    ensures { result ≡ is_table op.now }
{
    match op {
        Op::Table(_) => true,
        Op::HFlip | Op::VFlip | Op::Crop(_) | Op::Blur(_) => false,
    }
}

/// Whether the operation is a crop. Only its images can have another size than their frames.
pub fn is_crop(op: &Op) -> bool
    ensures { result ≡ is_crop op.now }
{
    match op {
        Op::Crop(_) => true,
        Op::Table(_) | Op::HFlip | Op::VFlip | Op::Blur(_) => false,
    }
}
