//! A frame.
ghost use Rattle.std.specs.Prelude.{◌≡◌, vec_len};
ghost use Rattle.y4m_header.specs.Chroma.{data_len};
ghost use Rattle.y4m_header.specs.FrameLine.{IsFrameLine};

use crate::geometry::Geometry;
use crate::lend_planes;
use crate::plane::Plane;
use std::alloc::{AllocError, Global};
use std::fmt;
use thiserror::Error;

/// One frame: its geometry, its frame line without the line feed, and the samples of its planes.
///
/// The planes stand one after another in a single buffer, each from its top row on, as a stream has them. A
/// sample is one byte. The frame owns its line and its buffer; what it lends borrows from it.
#[derive(Debug, Drop)]
pub struct Frame {
    pub(crate) geometry: Geometry,
    pub(crate) line: Vec<u8>,
    pub(crate) samples: Vec<u8>,
    pub ghost fits: { vec_len samples ≡ data_len geometry.width geometry.height geometry.chroma },
    pub ghost lined: { ∥ IsFrameLine line.items ∥₁ },
}

/// The data isn't as long as the geometry asks. The line and the data that were handed over come back.
#[derive(Debug, Drop, Error)]
pub struct WrongLength {
    pub line: Vec<u8>,
    pub samples: Vec<u8>,
}

impl fmt::Display for WrongLength {
    ghost use Rattle.std.specs.Prelude.{Some, codes};

    ghost output = { λ _. Some (codes "WrongLength") };

    fn fmt<W: fmt::Write>(&self, f: &mut fmt::Formatter<W>) -> fmt::Result {
        f.write_str("WrongLength")
    }
}

impl Frame {
    ghost use Rattle.std.specs.Prelude.{◌≡◌, ℕ, ◌+◌, ◌*◌, ◌-◌, ◌<◌, ◌≤◌, ◌↔◌, length, replicate, slice_index};
    ghost use Rattle.std.specs.Prelude.{IsOk, IfOk, IfErr, OnOk, OnErr};
    ghost use Rattle.std.specs.Borrow.{sem};
    ghost use Rattle.y4m_header.specs.Chroma.{plane_count};
    ghost use Rattle.frame_view.specs.Places.{plane_width, plane_height, frame_len};
    ghost use Rattle.frame_view.specs.Rows.{IsPlace, sample, row_of, run_of, rows_of, plane_rows, plane_run};
    ghost use Rattle.frame_view.specs.Frame.{line_of, samples_of, IsFrameWith};
    ghost use Rattle.frame_view.specs.Lending.{LendsSamples, LendsRows};
    ghost use Rattle.frame_view.specs.Written.{HasRows};

    /// A frame of this line and data; the line has no line feed. It takes both over, copies nothing and takes
    /// no memory.
    pub fn new(geometry: Geometry, line: Vec<u8>, samples: Vec<u8>) -> Result<Frame, WrongLength>
        requires { IsFrameLine line.items }
        ensures accepted { IsOk result ↔ (vec_len samples ≡ frame_len geometry) }
        ensures ok { IfOk result (IsFrameWith geometry line.items samples.items) }
        ensures err { IfErr result (λ e. (e.line ≡ line) × (e.samples ≡ samples)) }
    {
        if samples.len() != geometry.bytes() {
            return Err(WrongLength { line, samples });
        }
        Ok(Frame {
            geometry,
            line,
            samples,
        })
    }

    /// A frame whose samples are all 0, with its own copy of the line. It takes memory for the line and for
    /// the data; where that is refused, it answers the error and keeps none.
    pub fn blank(alloc: Global, geometry: Geometry, line: &[u8]) -> Result<Frame, AllocError>
        requires { IsFrameLine line.now }
        ensures { IfOk result (IsFrameWith geometry line.now (replicate (frame_len geometry) 0)) }
    {
        let line = line.to_vec(alloc)?;
        let samples = vec![in alloc; 0; geometry.bytes()]?;
        Ok(Frame {
            geometry,
            line,
            samples,
        })
    }

    /// Fills each plane with one sample: these are those of Y, Cb, Cr and A, and that of an absent plane goes
    /// unused.
    pub fn fill(&mut self, samples: [u8; 4])
        ensures geometry { self.new.geometry ≡ self.old.geometry }
        ensures line { line_of self.new ≡ line_of self.old }
        ensures filled { (p y x : ℕ) → IsPlace self.old.geometry p y x
            → sample self.old.geometry (samples_of self.new) p y x ≡ slice_index samples p }
    {
        lend_planes!(&mut *self => luma, cb, cr, alpha);
        luma.samples.fill(samples[0]);
        cb.samples.fill(samples[1]);
        cr.samples.fill(samples[2]);
        alpha.samples.fill(samples[3]);
    }

    /// Writes a copy of `row` over row `y` of plane `p`, the top one being 0; every other byte stays.
    pub fn put_row(&mut self, p: usize, y: usize, row: &[u8])
        requires plane { p < plane_count self.old.geometry.chroma }
        requires row { y < plane_height self.old.geometry p }
        requires columns { length row.now ≡ plane_width self.old.geometry p }
        ensures { HasRows (λ _ _ x. slice_index row.now x) p y (y + 1) self.old self.new }
    {
        self.row_mut(p, y).copy_from_slice(row);
    }

    /// Its size and the sampling of its chroma planes; they never change.
    pub fn geometry(&self) -> Geometry
        ensures { result ≡ self.now.geometry }
    {
        self.geometry
    }

    /// The frame line, without its line feed.
    pub fn line(&self) -> &[u8]
        ensures value { result.now ≡ line_of self.now }
        ensures is_line { ∥ IsFrameLine result.now ∥₁ }
    {
        &self.line
    }

    /// The samples of all planes, in the order Y, Cb, Cr, A; as many bytes as `Geometry::bytes` says.
    pub fn data(&self) -> &[u8]
        ensures value { result.now ≡ samples_of self.now }
        ensures len { length result.now ≡ frame_len self.now.geometry }
    {
        self.samples.as_slice()
    }

    /// The samples of all planes, as `data` has them, lent for writing.
    pub fn data_mut(&mut self) -> &mut [u8]
        ensures* writes_back { sem 𝓛 (LendsSamples self.entry result) }
        ensures value { result.now ≡ samples_of self.old }
        ensures len { length result.now ≡ frame_len self.old.geometry }
    {
        self.samples.as_mut_slice()
    }

    /// Puts a copy of this line in place of the frame's own; the samples stay.
    ///
    /// A line that the frame has already takes no memory. Where memory is refused, the frame keeps its old
    /// line.
    pub fn set_line(&mut self, alloc: Global, line: &[u8]) -> Result<(), AllocError>
        requires { IsFrameLine line.now }
        ensures geometry { self.new.geometry ≡ self.old.geometry }
        ensures samples { samples_of self.new ≡ samples_of self.old }
        ensures same { line_of self.old ≡ line.now → IsOk result }
        ensures ok { OnOk result (line_of self.new ≡ line.now) }
        ensures err { OnErr result (line_of self.new ≡ line_of self.old) }
    {
        if self.line.as_slice() != line {
            self.line = line.to_vec(alloc)?;
        }
        Ok(())
    }

    /// The line and the data, handed over without a copy.
    pub fn into_parts(self) -> (Vec<u8>, Vec<u8>)
        ensures line { result.0.items ≡ line_of self }
        ensures samples { result.1.items ≡ samples_of self }
    {
        let Frame { line, samples, .. } = self;
        (line, samples)
    }

    /// Plane `p`, to read: 0 is Y, 1 Cb, 2 Cr, 3 A.
    pub fn plane(&self, p: usize) -> Plane<'_>
        requires { p < plane_count self.now.geometry.chroma }
        ensures columns { result.columns ≡ plane_width self.now.geometry p }
        ensures rows { result.rows ≡ plane_height self.now.geometry p }
        ensures listed { plane_rows result ≡ rows_of self.now.geometry (samples_of self.now) p }
        ensures runs { (from to : ℕ) → from ≤ to → to ≤ result.rows
            → plane_run result from to ≡ run_of self.now.geometry (samples_of self.now) p from to }
    {
        let size = self.geometry.plane_size(p);
        let samples = self.rows(p, 0, size.rows);
        Plane {
            columns: size.columns,
            rows: size.rows,
            samples,
        }
    }

    /// Row `y` of plane `p`, the top one being 0; as many samples as the plane has columns.
    #[tactic(auto, using(crate::proofs::Places::next_row, crate::proofs::Places::few_rows))]
    pub fn row(&self, p: usize, y: usize) -> &[u8]
        requires plane { p < plane_count self.now.geometry.chroma }
        requires row { y < plane_height self.now.geometry p }
        ensures value { result.now ≡ row_of self.now.geometry (samples_of self.now) p y }
        ensures len { length result.now ≡ plane_width self.now.geometry p }
    {
        self.rows(p, y, y + 1)
    }

    /// The rows of plane `p` from `from` on to `to`, which is left out, one after another: `to - from` times
    /// as many samples as the plane has columns, and none where `from` is `to`.
    pub fn rows(&self, p: usize, from: usize, to: usize) -> &[u8]
        requires plane { p < plane_count self.now.geometry.chroma }
        requires order { from ≤ to }
        requires rows { to ≤ plane_height self.now.geometry p }
        ensures value { result.now ≡ run_of self.now.geometry (samples_of self.now) p from to }
        ensures len { length result.now ≡ (to - from) * plane_width self.now.geometry p }
    {
        let run = self.geometry.run(p, from, to);
        &self.samples[run.start..run.end]
    }

    /// Row `y` of plane `p`, as `row` has it, lent for writing.
    #[tactic(auto, using(crate::proofs::Places::next_row, crate::proofs::Places::few_rows))]
    pub fn row_mut(&mut self, p: usize, y: usize) -> &mut [u8]
        requires plane { p < plane_count self.old.geometry.chroma }
        requires row { y < plane_height self.old.geometry p }
        ensures* writes_back { sem 𝓛 (LendsRows self.entry p y result) }
        ensures value { result.now ≡ row_of self.old.geometry (samples_of self.old) p y }
        ensures len { length result.now ≡ plane_width self.old.geometry p }
    {
        self.rows_mut(p, y, y + 1)
    }

    /// The rows of plane `p` from `from` on to `to`, as `rows` has them, lent for writing as one slice.
    pub fn rows_mut(&mut self, p: usize, from: usize, to: usize) -> &mut [u8]
        requires plane { p < plane_count self.old.geometry.chroma }
        requires order { from ≤ to }
        requires rows { to ≤ plane_height self.old.geometry p }
        ensures* writes_back { sem 𝓛 (LendsRows self.entry p from result) }
        ensures value { result.now ≡ run_of self.old.geometry (samples_of self.old) p from to }
        ensures len { length result.now ≡ (to - from) * plane_width self.old.geometry p }
    {
        let run = self.geometry.run(p, from, to);
        self.samples.slice_mut(run.start..run.end)
    }
}
