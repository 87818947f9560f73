//! The geometry of a frame.
ghost use Rattle.std.specs.Prelude.{◌≡◌, ◌≤◌, ◌%◌};
ghost use Rattle.y4m_header.specs.Chroma.{horizontal_divisor, vertical_divisor, data_len};
ghost use Rattle.y4m_header.specs.declared.limits.TheConstants.{LONGEST_SIDE, LARGEST_DATA};

use crate::chroma_plane::is_chroma_plane;
use std::ops::Range;
use y4m_header::{Chroma, Header};

/// The size of a frame in pixels, and how its chroma planes are sampled.
///
/// It is always that of some header line: the chroma planes are whole, and the width, the height and the
/// bytes of a frame are within their limits. Each pixel has one sample of Y; a sample is one byte.
#[derive(Clone, Copy, Debug, PartialEq, Eq)]
pub struct Geometry {
    pub width: u32,
    pub height: u32,
    pub chroma: Chroma,
    pub ghost some_columns: { 1 ≤ width },
    pub ghost some_rows: { 1 ≤ height },
    pub ghost narrow: { width ≤ LONGEST_SIDE },
    pub ghost low: { height ≤ LONGEST_SIDE },
    pub ghost columns_divided: { width % horizontal_divisor chroma ≡ 0 },
    pub ghost rows_divided: { height % vertical_divisor chroma ≡ 0 },
    pub ghost small: { data_len width height chroma ≤ LARGEST_DATA },
}

/// The size of one plane, in samples: how many stand in a row, and how many rows there are.
#[derive(Clone, Copy, Debug, PartialEq, Eq)]
pub struct PlaneSize {
    pub columns: usize,
    pub rows: usize,
}

/// One of the four planes that a frame lends at once; a plane that it hasn't has no columns and no samples.
#[derive(Clone, Copy)]
pub struct LentPlane {
    pub columns: usize,
    /// The samples of all its rows.
    pub len: usize,
}

/// The four planes that a frame lends at once.
#[derive(Clone, Copy)]
pub struct LentPlanes {
    pub luma: LentPlane,
    pub cb: LentPlane,
    pub cr: LentPlane,
    pub alpha: LentPlane,
}

impl Geometry {
    ghost use Rattle.std.specs.Prelude.{◌≡◌, ◌<◌, ◌≤◌, ◌+◌, ◌-◌, ◌*◌};
    ghost use Rattle.y4m_header.specs.Chroma.{plane_count};
    ghost use Rattle.frame_view.specs.Lent.{IsLent};
    ghost use Rattle.frame_view.specs.Places.{plane_width, plane_height, plane_start, row_start, frame_len};

    /// That of the header's frames.
    pub fn of(header: &Header) -> Geometry
        ensures width { result.width ≡ header.now.width }
        ensures height { result.height ≡ header.now.height }
        ensures chroma { result.chroma ≡ header.now.chroma }
    {
        Geometry {
            width: header.width(),
            height: header.height(),
            chroma: header.chroma(),
        }
    }

    /// How many planes a frame has: 1, 3 or 4, in the order Y, Cb, Cr, A.
    pub fn planes(self) -> usize
        ensures { result ≡ plane_count self.chroma }
    {
        self.chroma.planes()
    }

    /// The size of plane `p`: that of the frame for Y and A, and the divided one for Cb and Cr.
    #[tactic(auto, using(crate::proofs::Places::some_columns, crate::proofs::Places::some_rows))]
    pub fn plane_size(self, p: usize) -> PlaneSize
        requires { p < plane_count self.chroma }
        ensures columns { result.columns ≡ plane_width self p }
        ensures rows { result.rows ≡ plane_height self p }
        ensures some_columns { 1 ≤ result.columns }
        ensures some_rows { 1 ≤ result.rows }
        ensures narrow { result.columns ≤ LONGEST_SIDE }
        ensures low { result.rows ≤ LONGEST_SIDE }
    {
        PlaneSize {
            columns: self.columns(p),
            rows: self.rows(p),
        }
    }

    /// The bytes of a frame's data, one for each sample.
    #[tactic(auto, using(crate::proofs::Places::planes_fill))]
    pub fn bytes(self) -> usize
        ensures value { result ≡ frame_len self }
        ensures planes_fill { plane_start self (plane_count self.chroma) ≡ result }
        ensures limit { result ≤ LARGEST_DATA }
    {
        self.plane_start(self.planes())
    }

    /// The planes that a frame lends at once, one after another in its data.
    #[tactic(auto, using(crate::proofs::Places::lent_fill))]
    pub fn lent_planes(self) -> LentPlanes
        ensures luma { IsLent self 0 result.luma }
        ensures cb { IsLent self 1 result.cb }
        ensures cr { IsLent self 2 result.cr }
        ensures alpha { IsLent self 3 result.alpha }
        ensures whole { result.luma.len + (result.cb.len + (result.cr.len + result.alpha.len))
            ≡ frame_len self }
    {
        LentPlanes {
            luma: self.lent_plane(0),
            cb: self.lent_plane(1),
            cr: self.lent_plane(2),
            alpha: self.lent_plane(3),
        }
    }

    fn lent_plane(self, p: usize) -> LentPlane
        ensures { IsLent self p result }
    {
        if p < self.planes() {
            let columns = self.columns(p);
            LentPlane {
                columns,
                len: columns * self.rows(p),
            }
        } else {
            LentPlane { columns: 0, len: 0 }
        }
    }

    #[tactic(auto, unfolding(crate::specs::Places::plane_width))]
    fn columns(self, p: usize) -> usize
        ensures value { result ≡ plane_width self p }
        ensures narrow { result ≤ LONGEST_SIDE }
    {
        if is_chroma_plane(p) {
            (self.width / self.chroma.divisors().horizontal) as usize
        } else {
            self.width as usize
        }
    }

    #[tactic(auto, unfolding(crate::specs::Places::plane_height))]
    fn rows(self, p: usize) -> usize
        ensures value { result ≡ plane_height self p }
        ensures low { result ≤ LONGEST_SIDE }
    {
        if is_chroma_plane(p) {
            (self.height / self.chroma.divisors().vertical) as usize
        } else {
            self.height as usize
        }
    }

    #[tactic(auto, unfolding(crate::specs::Places::plane_start))]
    pub(crate) fn plane_start(self, p: usize) -> usize
        requires { p ≤ 4 }
        ensures value { result ≡ plane_start self p }
        ensures bound { result ≤ 4 * (LONGEST_SIDE * LONGEST_SIDE) }
    {
        let full = self.columns(0) * self.rows(0);
        let divided = self.columns(1) * self.rows(1);
        match p {
            0 => 0,
            1 => full,
            2 => full + divided,
            3 => full + 2 * divided,
            _ => 2 * full + 2 * divided,
        }
    }

    /// The places of the rows of plane `p` from `from` on to `to`, which is left out.
    #[tactic(auto, using(crate::proofs::Places::row_in_frame, crate::proofs::Gaps::gap))]
    pub(crate) fn run(self, p: usize, from: usize, to: usize) -> Range<usize>
        requires plane { p < plane_count self.chroma }
        requires order { from ≤ to }
        requires rows { to ≤ plane_height self p }
        ensures start { result.start ≡ row_start self p from }
        ensures end { result.end ≡ row_start self p to }
        ensures len { result.end ≡ result.start + (to - from) * plane_width self p }
        ensures inside { result.end ≤ frame_len self }
    {
        let columns = self.columns(p);
        let start = self.plane_start(p);
        start + from * columns..start + to * columns
    }
}
