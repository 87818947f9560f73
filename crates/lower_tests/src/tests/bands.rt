//! Bands of a canvas, written by painters and by hand.
ghost use Rattle.frame_view.specs.Frame.{samples_of};
ghost use Rattle.frame_view.specs.Rows.{sample};

use frame_view::Frame;
use row_bands::Painter;

mod copies;
mod halves;
mod plans;

/// Paints the rows of a frame as they are.
#[derive(Drop)]
struct Copied<'a> {
    source: &'a Frame,
}

impl Painter for Copied<'_> {
    ghost picture = { λ copied. sample copied.source.now.geometry (samples_of copied.source.now) };

    ghost geometry = { λ copied. copied.source.now.geometry };

    #[tactic(auto, using(frame_view::proofs::Written::shown_rows, frame_view::proofs::Places::row_in_frame))]
    fn paint(&self, p: usize, from: usize, to: usize, rows: &mut [u8]) {
        rows.copy_from_slice(self.source.rows(p, from, to));
    }
}
