//! The rows that go with some luma rows, written plane by plane.
ghost use Rattle.std.specs.Prelude.{◌≡◌, ◌≤◌, length};
ghost use Rattle.frame_view.specs.Places.{frame_len};
ghost use Rattle.row_bands.specs.HalvesInside.{HasParts, GivesRows, HaveLensOfPart, HaveParts};

use crate::band_plan::rows_above;
use crate::painter::Painter;
use frame_view::{Geometry, LentPlane};
use std::ops::Range;
use std::thread::{Threads, join_mut};

/// The luma rows from `from` on to `to`, which is left out, and the rows of the other planes that go with
/// them.
#[derive(Clone, Copy)]
pub(crate) struct Part {
    pub(crate) geometry: Geometry,
    pub(crate) from: usize,
    pub(crate) to: usize,
    pub ghost ordered: { from ≤ to },
    pub ghost inside: { to ≤ geometry.height },
}

impl Part {
    ghost use Rattle.std.specs.Prelude.{◌≡◌, ◌<◌, length};
    ghost use Rattle.y4m_header.specs.Chroma.{plane_count};
    ghost use Rattle.frame_view.specs.Lent.{IsLent};
    ghost use Rattle.row_bands.specs.Bands.{rows_above};
    ghost use Rattle.row_bands.specs.HalvesInside.{HasPlanesOfPart, GivesRows, part_len};
    ghost use Rattle.row_bands.specs.HalvesInside.{AreSamplesOfPart, HaveLensOfPart};

    /// The rows above luma row `row`, and those from it on.
    fn split(self, row: usize) -> (Part, Part)
        requires { (self.from ≤ row) × (row ≤ self.to) }
        ensures top { (result.0.geometry ≡ self.geometry) × (result.0.from ≡ self.from)
            × (result.0.to ≡ row) }
        ensures bottom { (result.1.geometry ≡ self.geometry) × (result.1.from ≡ row)
            × (result.1.to ≡ self.to) }
    {
        let Part { geometry, from, to } = self;
        let top = Part {
            geometry,
            from,
            to: row,
        };
        let bottom = Part {
            geometry,
            from: row,
            to,
        };
        (top, bottom)
    }

    /// Calls `note`, and writes the part's rows of each plane; a plane that the frame hasn't has no samples.
    fn paint<P: Painter, N: Fn(u32)>(
        self,
        painter: &P,
        luma: &mut [u8],
        cb: &mut [u8],
        cr: &mut [u8],
        alpha: &mut [u8],
        number: u32,
        note: &N,
    )
        requires callable { N.pre note.now number }
        requires geometry { P.geometry painter.now ≡ self.geometry }
        requires lens { HaveLensOfPart self.geometry self.from self.to luma.old cb.old cr.old alpha.old }
        ensures noted { N.post note.now number tt }
        ensures rows { HasPlanesOfPart
            (GivesRows (P.picture painter.now) (P.paint_gives painter.now) self.geometry)
            self.from self.to self.geometry luma.new cb.new cr.new alpha.new }
    {
        note(number);
        self.paint_plane(painter, 0, luma);
        self.paint_plane(painter, 1, cb);
        self.paint_plane(painter, 2, cr);
        self.paint_plane(painter, 3, alpha);
    }

    #[tactic(auto, using(crate::proofs::Bands::inside))]
    fn paint_plane<P: Painter>(self, painter: &P, p: usize, rows: &mut [u8])
        requires geometry { P.geometry painter.now ≡ self.geometry }
        requires len { length rows.old ≡ part_len self.geometry p self.from self.to }
        ensures { p < plane_count self.geometry.chroma
            → GivesRows (P.picture painter.now) (P.paint_gives painter.now) self.geometry p
            (rows_above self.geometry p self.from) (rows_above self.geometry p self.to) rows.new }
    {
        if p < self.geometry.planes() {
            let from = rows_above(self.geometry, p, self.from);
            let to = rows_above(self.geometry, p, self.to);
            painter.paint(p, from, to, rows);
        }
    }

    /// How many samples of plane `p` the part has.
    fn len(self, p: usize, plane: LentPlane) -> usize
        requires { IsLent self.geometry p plane }
        ensures { result ≡ part_len self.geometry p self.from self.to }
    {
        let from = rows_above(self.geometry, p, self.from);
        let to = rows_above(self.geometry, p, self.to);
        (to - from) * plane.columns
    }

    /// The places of the part's samples in plane `p`.
    fn samples(self, p: usize, plane: LentPlane) -> Range<usize>
        requires { IsLent self.geometry p plane }
        ensures { AreSamplesOfPart self.geometry p self.from self.to result.start result.end }
    {
        let from = rows_above(self.geometry, p, self.from);
        let to = rows_above(self.geometry, p, self.to);
        from * plane.columns..to * plane.columns
    }
}

/// Writes the part's rows above luma row `row` and those from it on into the samples of a frame, each by a
/// thread.
pub(crate) fn paint_parts<R: Threads, P: Painter + Sync, N: Fn(u32) + Sync>(
    rt: &R,
    painter: &P,
    part: Part,
    row: usize,
    samples: &mut [u8],
    note: &N,
)
    requires callable { N.pre note.now 0 × N.pre note.now 1 }
    requires geometry { P.geometry painter.now ≡ part.geometry }
    requires row { (part.from ≤ row) × (row ≤ part.to) }
    requires len { length samples.old ≡ frame_len part.geometry }
    ensures noted { N.post note.now 0 tt × N.post note.now 1 tt }
    ensures parts { HasParts (GivesRows (P.picture painter.now) (P.paint_gives painter.now) part.geometry)
        part.from row part.to part.geometry samples.old samples.new }
{
    let lent = part.geometry.lent_planes();
    let (luma, rest) = samples.split_at_mut(lent.luma.len);
    let (cb, rest) = rest.split_at_mut(lent.cb.len);
    let (cr, alpha) = rest.split_at_mut(lent.cr.len);
    let of_luma = part.samples(0, lent.luma);
    let of_cb = part.samples(1, lent.cb);
    let of_cr = part.samples(2, lent.cr);
    let of_alpha = part.samples(3, lent.alpha);
    paint_runs(
        rt,
        painter,
        part,
        row,
        &mut luma[of_luma.start..of_luma.end],
        &mut cb[of_cb.start..of_cb.end],
        &mut cr[of_cr.start..of_cr.end],
        &mut alpha[of_alpha.start..of_alpha.end],
        note,
    );
}

/// Writes the part's rows into four slices, each the rows of one plane, by two threads.
#[tactic(auto, using(crate::proofs::PartRows::parts_meet))]
fn paint_runs<R: Threads, P: Painter + Sync, N: Fn(u32) + Sync>(
    rt: &R,
    painter: &P,
    part: Part,
    row: usize,
    luma: &mut [u8],
    cb: &mut [u8],
    cr: &mut [u8],
    alpha: &mut [u8],
    note: &N,
)
    requires callable { N.pre note.now 0 × N.pre note.now 1 }
    requires geometry { P.geometry painter.now ≡ part.geometry }
    requires row { (part.from ≤ row) × (row ≤ part.to) }
    requires lens { HaveLensOfPart part.geometry part.from part.to luma.old cb.old cr.old alpha.old }
    ensures noted { N.post note.now 0 tt × N.post note.now 1 tt }
    ensures parts { HaveParts (GivesRows (P.picture painter.now) (P.paint_gives painter.now) part.geometry)
        part.from row part.to part.geometry luma.new cb.new cr.new alpha.new }
{
    let lent = part.geometry.lent_planes();
    let (top, bottom) = part.split(row);
    let (luma_top, luma_bottom) = luma.split_at_mut(top.len(0, lent.luma));
    let (cb_top, cb_bottom) = cb.split_at_mut(top.len(1, lent.cb));
    let (cr_top, cr_bottom) = cr.split_at_mut(top.len(2, lent.cr));
    let (alpha_top, alpha_bottom) = alpha.split_at_mut(top.len(3, lent.alpha));
    join_mut(
        rt,
        &mut || bottom.paint(
            painter,
            luma_bottom,
            cb_bottom,
            cr_bottom,
            alpha_bottom,
            1,
            note,
        ),
        &mut || top.paint(painter, luma_top, cb_top, cr_top, alpha_top, 0, note),
    );
    use_again(luma_top, cb_top, cr_top, alpha_top);
    use_again(luma_bottom, cb_bottom, cr_bottom, alpha_bottom);
}

/// Does nothing: a use of references after what borrowed them.
fn use_again(luma: &mut [u8], cb: &mut [u8], cr: &mut [u8], alpha: &mut [u8])
    ensures { (luma.new ≡ luma.old) × (cb.new ≡ cb.old) × (cr.new ≡ cr.old) × (alpha.new ≡ alpha.old) }
{}
