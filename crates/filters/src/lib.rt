//! The operations on frames.
#![tactic(auto)]

pub mod apply;
mod blur;
pub mod chain;
pub mod error;
mod flip;
pub mod in_place;
pub mod limits;
mod mapping;
mod number;
pub mod op;
pub mod ops_text;
pub mod painter;
mod part;
mod rows;
mod table;

pub use apply::{apply_at, apply_band, apply_op};
pub use chain::Chain;
pub use chain::canvases::Images;
pub use chain::steps::StepRun;
pub use error::FilterError;
pub use in_place::apply_in_place;
pub use limits::{MOST_BAND_COST, MOST_COST, MOST_OPS, MOST_RADIUS};
pub use op::{Blur, Crop, Op, Table};
pub use ops_text::parse_ops;
