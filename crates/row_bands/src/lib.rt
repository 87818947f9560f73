//! Frames cut into bands of rows, and bands lent for writing.
#![tactic(auto)]

pub mod band;
pub mod band_height;
pub mod band_plan;
pub mod canvas;
pub mod halves;
pub mod limits;
pub mod painter;
mod part;

pub use band::Band;
pub use band_height::BandHeight;
pub use band_plan::{BandPlan, bands_part_the_rows};
pub use canvas::Canvas;
pub use halves::{halves_part_the_band, paint_halves};
pub use limits::{FEWEST_BAND_ROWS, MOST_BAND_ROWS, MOST_BANDS};
pub use painter::{Painter, paint_band};
