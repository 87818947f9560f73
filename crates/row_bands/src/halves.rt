//! Writing the two parts of a band at the same time.
ghost use Rattle.std.specs.Prelude.{◌≡◌, ◌≤◌};
ghost use Rattle.row_bands.specs.Band.{band_geometry};
ghost use Rattle.row_bands.specs.Halves.{IsHalved, HalvesPartTheBand};
ghost use Rattle.row_bands.specs.Written.{IsPainted};

use crate::band::Band;
use crate::painter::Painter;
use crate::part::{Part, paint_parts};
use std::thread::Threads;

/// Writes the painter's rows into a band, perhaps by two threads: the caller's own writes the part above luma
/// row `row`, in all planes, and one that is started writes the part from that row on. `row` is counted in
/// the frame. Each calls `note` once before it writes, with 0 for the part above and 1 for the other.
///
/// Where no thread is granted, the caller's own writes both parts.
pub fn paint_halves<R: Threads, P: Painter + Sync, N: Fn(u32) + Sync>(
    rt: &R,
    painter: &P,
    band: &mut Band<'_>,
    row: usize,
    note: &N,
)
    requires callable { N.pre note.now 0 × N.pre note.now 1 }
    requires geometry { P.geometry painter.now ≡ band_geometry band.old }
    requires row { (band.old.from ≤ row) × (row ≤ band.old.to) }
    ensures same_reference { band.new.canvas.ghost_name ≡ band.old.canvas.ghost_name }
    ensures painted { IsPainted (P.picture painter.now) band.old band.new }
    ensures halved { IsHalved (P.paint_gives painter.now) row band.old band.new }
    ensures noted { N.post note.now 0 tt × N.post note.now 1 tt }
{
    let geometry = band.geometry();
    let (from, to) = band.luma_rows();
    let part = Part { geometry, from, to };
    paint_parts(rt, painter, part, row, band.canvas.data_mut(), note);
}

/// The parts above luma row `row` and from it on part the rows of the band among them, in every plane.
#[tactic(auto, using(crate::proofs::Bands::halves_part))]
pub fn halves_part_the_band(band: &Band<'_>, row: usize)
    requires { (band.now.from ≤ row) × (row ≤ band.now.to) }
    ensures { HalvesPartTheBand (band_geometry band.now) band.now.from row band.now.to }
{}
