//! Which rows are in which band.
ghost use Rattle.std.specs.Prelude.{◌≡◌, ◌<◌, ◌≤◌, ◌+◌, ◌*◌, min};
ghost use Rattle.y4m_header.specs.Chroma.{plane_count};
ghost use Rattle.row_bands.specs.Bands.{band_count, rows_above, luma_from, luma_to, EachRowInOneBand, GoWith};

use crate::band_height::BandHeight;
use crate::limits::MOST_BANDS;
use frame_view::{Geometry, is_chroma_plane};

/// The bands of a frame, from the top: each has the rows of the same part of the picture in every plane.
#[derive(Clone, Copy)]
pub struct BandPlan {
    pub geometry: Geometry,
    pub height: BandHeight,
}

impl BandPlan {
    /// Parts frames of this geometry into bands of this height, counted in rows of luma; the last band has
    /// the rows that are left.
    pub fn new(geometry: Geometry, height: BandHeight) -> BandPlan
        ensures geometry { result.geometry ≡ geometry }
        ensures height { result.height ≡ height }
    {
        BandPlan { geometry, height }
    }

    /// How many bands there are, at least one.
    pub fn count(self) -> usize
        ensures value { result ≡ band_count self.geometry self.height.rows }
        ensures within { (1 ≤ result) × (result ≤ MOST_BANDS) }
    {
        (self.geometry.height as usize).div_ceil(self.height.rows())
    }

    /// The rows of plane `p` in band `k`: the first one, and the one that follows the last.
    ///
    /// Rows are counted in the plane itself.
    #[tactic(auto, using(crate::proofs::Bands::inside, crate::proofs::Bands::band_has_rows))]
    pub fn rows(self, k: usize, p: usize) -> (usize, usize)
        requires band { k < band_count self.geometry self.height.rows }
        requires plane { p < plane_count self.geometry.chroma }
        ensures rows { GoWith self.geometry p (luma_from self.height.rows k)
            (luma_to self.geometry self.height.rows k) result.0 result.1 }
        ensures some_rows { result.0 < result.1 }
    {
        let from = k * self.height.rows();
        let to = (from + self.height.rows()).min(self.geometry.height as usize);
        (
            rows_above(self.geometry, p, from),
            rows_above(self.geometry, p, to),
        )
    }
}

/// How many rows of plane `p` go with the luma rows above row `n`.
pub(crate) fn rows_above(geometry: Geometry, p: usize, n: usize) -> usize
    ensures { result ≡ rows_above geometry p n }
{
    if is_chroma_plane(p) {
        n / geometry.chroma.divisors().vertical as usize
    } else {
        n
    }
}

/// The bands part the rows among them.
#[tactic(auto, using(crate::proofs::Bands::each_row_in_one_band))]
pub fn bands_part_the_rows(geometry: Geometry, height: BandHeight)
    ensures { EachRowInOneBand geometry height.rows }
{}
