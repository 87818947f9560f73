//! One band of a canvas, lent for writing.
ghost use Rattle.std.specs.Prelude.{◌≤◌};

use crate::band_plan::rows_above;
use crate::canvas::Canvas;
use frame_view::Geometry;

/// One band of a canvas, lent for writing: the luma rows from `from` on to `to`, which is left out, and the
/// rows of the other planes that go with them.
///
/// What is written stands in the canvas; every row outside the band stays.
#[derive(Drop)]
pub struct Band<'a> {
    pub(crate) from: usize,
    pub(crate) to: usize,
    pub(crate) canvas: &'a mut Canvas,
    pub ghost ordered: { from ≤ to },
    pub ghost inside: { to ≤ canvas.now.frame.geometry.height },
}

impl Band<'_> {
    ghost use Rattle.std.specs.Prelude.{◌≡◌, ◌<◌, ◌≤◌, ◌↔◌, length, IsSome, IfSome};
    ghost use Rattle.std.specs.Borrow.{sem};
    ghost use Rattle.y4m_header.specs.Chroma.{plane_count};
    ghost use Rattle.frame_view.specs.Places.{plane_width};
    ghost use Rattle.frame_view.specs.Rows.{row_of};
    ghost use Rattle.frame_view.specs.Frame.{samples_of};
    ghost use Rattle.row_bands.specs.Bands.{CanBeHalved, GoWith, Halves, IsInPart, plane_part};
    ghost use Rattle.row_bands.specs.Band.{band_frame, band_geometry};
    ghost use Rattle.row_bands.specs.Halves.{rows_of_band};
    ghost use Rattle.row_bands.specs.Lending.{LendsBandRows, LendsPlane};

    /// The geometry of the frame that the band is part of.
    pub fn geometry(&self) -> Geometry
        ensures { result ≡ band_geometry self.now }
    {
        self.canvas.frame().geometry()
    }

    /// The luma rows of the band, counted in the frame: the first one, and the one that follows the last.
    pub fn luma_rows(&self) -> (usize, usize)
        ensures rows { result ≡ (self.now.from, self.now.to) }
        ensures inside { (result.0 ≤ result.1) × (result.1 ≤ (band_geometry self.now).height) }
    {
        (self.from, self.to)
    }

    /// The luma row at which the band is halved, where no chroma row is cut; the lower half may have more
    /// rows. None where the upper one would have no rows.
    #[tactic(auto, using(crate::proofs::Bands::half_above_middle, crate::proofs::Bands::half_is_whole))]
    pub fn half(&self) -> Option<usize>
        ensures there { IsSome result ↔ CanBeHalved (band_geometry self.now) self.now.from self.now.to }
        ensures half { IfSome result (Halves (band_geometry self.now) self.now.from self.now.to) }
    {
        let step = self.geometry().chroma.divisors().vertical as usize;
        let middle = self.from + (self.to - self.from) / 2;
        let row = middle / step * step;
        (self.from < row).then_some(row)
    }

    /// The rows of plane `p` in the band: the first one, and the one that follows the last, counted in the
    /// plane.
    #[tactic(auto, using(crate::proofs::Bands::inside))]
    pub fn rows(&self, p: usize) -> (usize, usize)
        requires { p < plane_count (band_geometry self.now).chroma }
        ensures { GoWith (band_geometry self.now) p self.now.from self.now.to result.0 result.1 }
    {
        let geometry = self.geometry();
        (
            rows_above(geometry, p, self.from),
            rows_above(geometry, p, self.to),
        )
    }

    /// All rows of plane `p` in the band, one after another: as many samples as it has rows there, times the
    /// columns of the plane.
    pub fn rows_mut(&mut self, p: usize) -> &mut [u8]
        requires { p < plane_count (band_geometry self.old).chroma }
        ensures* writes_back { sem 𝓛 (LendsPlane self.entry p result) }
        ensures value { result.now ≡ rows_of_band self.old p }
        ensures len { length result.now ≡ plane_part (band_geometry self.old) p self.old.from self.old.to }
    {
        let (from, to) = self.rows(p);
        self.canvas.rows_mut(p, from, to)
    }

    /// Row `y` of plane `p`, as many samples as the plane has columns; `y` is counted in the plane, not in
    /// the band.
    #[tactic(auto, using(crate::proofs::Bands::inside))]
    pub fn row_mut(&mut self, p: usize, y: usize) -> &mut [u8]
        requires plane { p < plane_count (band_geometry self.old).chroma }
        requires row { IsInPart (band_geometry self.old) self.old.from self.old.to p y }
        ensures* writes_back { sem 𝓛 (LendsBandRows self.entry p y result) }
        ensures value { result.now ≡ row_of (band_geometry self.old) (samples_of (band_frame self.old)) p y }
        ensures len { length result.now ≡ plane_width (band_geometry self.old) p }
    {
        self.canvas.rows_mut(p, y, y + 1)
    }
}
