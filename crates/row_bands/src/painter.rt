//! Writing a band from a picture.
ghost use Rattle.std.specs.Prelude.{◌≡◌, ℕ, ◌<◌, ◌≤◌, ◌-◌, ◌*◌, List, length, ⊤};
ghost use Rattle.y4m_header.specs.Chroma.{plane_count};
ghost use Rattle.frame_view.specs.declared.geometry.Geometry.{Geometry};
ghost use Rattle.frame_view.specs.Places.{plane_width, plane_height};
ghost use Rattle.frame_view.specs.Written.{IsRows};
ghost use Rattle.row_bands.specs.Band.{band_geometry};
ghost use Rattle.row_bands.specs.Written.{IsPainted};

use crate::band::Band;

/// What can write any rows of its picture.
pub trait Painter {
    /// The sample at a plane, a row and a column.
    ghost picture: { Self → ℕ → ℕ → ℕ → ℕ };

    ghost geometry: { Self → Geometry };

    /// What one call may leave as the rows of a plane from one on to another.
    ghost paint_gives: { Self → ℕ → ℕ → ℕ → List ℕ → Type 0 } = { λ _ _ _ _ _. ⊤ };

    /// Writes the rows of plane `p` from `from` on to `to`, which is left out, one after another; they are
    /// all of `rows`, so its length is their number times the columns of the plane.
    fn paint(&self, p: usize, from: usize, to: usize, rows: &mut [u8])
        requires plane { p < plane_count (geometry self.now).chroma }
        requires order { from ≤ to }
        requires inside { to ≤ plane_height (geometry self.now) p }
        requires len { length rows.old ≡ (to - from) * plane_width (geometry self.now) p }
        ensures rows { IsRows (picture self.now) (geometry self.now) p from to rows.new }
        ensures gives { paint_gives self.now p from to rows.new };
}

/// Writes the painter's rows into a band, plane by plane.
pub fn paint_band<P: Painter>(painter: &P, band: &mut Band<'_>)
    requires { P.geometry painter.now ≡ band_geometry band.old }
    ensures same_reference { band.new.canvas.ghost_name ≡ band.old.canvas.ghost_name }
    ensures painted { IsPainted (P.picture painter.now) band.old band.new }
{
    for p in 0..band.geometry().planes() {
        let (from, to) = band.rows(p);
        painter.paint(p, from, to, band.rows_mut(p));
    }
}
