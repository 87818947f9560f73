//! One plane of a frame.
ghost use Rattle.std.specs.Prelude.{◌≡◌, ◌*◌, length};

/// One plane of a frame, to read; it borrows the frame's samples.
///
/// It is a list of rows, from the top; each has as many samples as the plane has columns. A sample is one
/// byte.
#[derive(Clone, Copy)]
pub struct Plane<'a> {
    pub columns: usize,
    pub rows: usize,
    pub samples: &'a [u8],
    pub ghost whole: { length samples.now ≡ columns * rows },
}

impl<'a> Plane<'a> {
    ghost use Rattle.std.specs.Prelude.{◌≡◌, ◌<◌, ◌≤◌, ◌+◌, slice_get, Some};
    ghost use Rattle.frame_view.specs.Rows.{plane_run, plane_rows};

    /// Row `y`, the top one being 0; as many samples as the plane has columns.
    pub fn row(&self, y: usize) -> &'a [u8]
        requires { y < self.now.rows }
        ensures value { result.now ≡ plane_run self.now y (y + 1) }
        ensures listed { slice_get (plane_rows self.now) y ≡ Some result.now }
    {
        self.rows(y, y + 1)
    }

    /// The rows from `from` on to `to`, which is left out, one after another: `to - from` times as many
    /// samples as the plane has columns.
    pub fn rows(&self, from: usize, to: usize) -> &'a [u8]
        requires order { from ≤ to }
        requires rows { to ≤ self.now.rows }
        ensures { result.now ≡ plane_run self.now from to }
    {
        &self.samples[from * self.columns..to * self.columns]
    }
}
