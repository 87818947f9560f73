//! The height of the bands.
ghost use Rattle.std.specs.Prelude.{◌≡◌, ◌≤◌, ◌%◌, ◌↔◌, IsSome, IfSome};
ghost use Rattle.row_bands.specs.declared.limits.TheConstants.{FEWEST_BAND_ROWS, MOST_BAND_ROWS};
ghost use Rattle.row_bands.specs.Height.{IsBandHeight};

use crate::limits::{FEWEST_BAND_ROWS, MOST_BAND_ROWS};

/// How many luma rows a band has: even, so that the chroma rows of each band are whole, and 2 to 128.
#[derive(Clone, Copy, Debug, PartialEq, Eq)]
pub struct BandHeight {
    pub(crate) rows: u32,
    pub ghost even: { rows % 2 ≡ 0 },
    pub ghost fewest: { FEWEST_BAND_ROWS ≤ rows },
    pub ghost most: { rows ≤ MOST_BAND_ROWS },
}

impl BandHeight {
    /// The height, if a band can have it.
    pub fn new(rows: u32) -> Option<BandHeight>
        ensures accepted { IsSome result ↔ IsBandHeight rows }
        ensures value { IfSome result (λ height. height.rows ≡ rows) }
    {
        if rows % 2 == 0 && (FEWEST_BAND_ROWS..=MOST_BAND_ROWS).contains(&rows) {
            Some(BandHeight { rows })
        } else {
            None
        }
    }

    /// The luma rows of a band, where it isn't cut off by the end of the frame.
    pub fn rows(self) -> usize
        ensures { result ≡ self.rows }
    {
        self.rows as usize
    }
}
