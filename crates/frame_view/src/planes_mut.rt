//! All planes of a frame, lent for writing at once.
ghost use Rattle.std.specs.Prelude.{◌≡◌, ◌+◌, ◌*◌, ◌≤◌, length, take, drop};
ghost use Rattle.std.specs.Borrow.{sem};
ghost use Rattle.frame_view.specs.LentTogether.{LendsParts, put_row};

/// The rows of one plane, or some of them, lent for writing.
///
/// It is a list of rows, one after another in `samples`, each as long as there are columns. Several of them
/// lend disjoint rows, in any order of use.
#[derive(Drop)]
pub struct PlaneMut<'a> {
    pub columns: usize,
    pub samples: &'a mut [u8],
}

impl<'a> PlaneMut<'a> {
    /// These samples as rows of so many columns.
    pub fn over(columns: usize, samples: &'a mut [u8]) -> PlaneMut<'a>
        ensures same_reference { result.samples.ghost_name ≡ samples.entry.ghost_name }
        ensures samples { result.samples.now ≡ samples.old }
        ensures columns { result.columns ≡ columns }
    {
        PlaneMut { columns, samples }
    }

    /// Writes row `y`, counted from the first row that is lent.
    pub fn put_row(&mut self, y: usize, row: &[u8])
        requires columns { length row.now ≡ self.old.columns }
        requires inside { (y + 1) * self.old.columns ≤ length self.old.samples.now }
        ensures same_reference { self.new.samples.ghost_name ≡ self.old.samples.ghost_name }
        ensures samples { self.new.samples.now ≡ put_row self.old.samples.now self.old.columns y row.now }
        ensures columns { self.new.columns ≡ self.old.columns }
    {
        let start = y * self.columns;
        self.samples[start..start + self.columns].copy_from_slice(row);
    }
}

/// The rows above row `y`, and those from it on; each has so many columns.
pub fn split_rows(samples: &mut [u8], columns: usize, y: usize) -> (&mut [u8], &mut [u8])
    requires { y * columns ≤ length samples.old }
    ensures* writes_back { sem 𝓛 (LendsParts samples.entry result) }
    ensures top { result.0.now ≡ take (y * columns) samples.old }
    ensures bottom { result.1.now ≡ drop (y * columns) samples.old }
{
    let at = y * columns;
    samples.split_at_mut(at)
}

/// Binds the planes of a frame to four names, each a `PlaneMut`, for as long as they are used. A plane that
/// the frame hasn't has no samples.
///
/// `lend_planes!(&mut frame => luma, cb, cr, alpha);`
#[macro_export]
macro_rules! lend_planes {
    ($frame:expr => $luma:ident, $cb:ident, $cr:ident, $alpha:ident) => {
        let frame = $frame;
        let lent = frame.geometry().lent_planes();
        let samples = frame.data_mut();
        let (luma, rest) = samples.split_at_mut(lent.luma.len);
        let (cb, rest) = rest.split_at_mut(lent.cb.len);
        let (cr, alpha) = rest.split_at_mut(lent.cr.len);
        let mut $luma = $crate::PlaneMut::over(lent.luma.columns, luma);
        let mut $cb = $crate::PlaneMut::over(lent.cb.columns, cb);
        let mut $cr = $crate::PlaneMut::over(lent.cr.columns, cr);
        let mut $alpha = $crate::PlaneMut::over(lent.alpha.columns, alpha);
    };
}
