//! Tables on a frame in its own place.
ghost use Rattle.std.specs.Prelude.{◌≡◌, map};
ghost use Rattle.frame_view.specs.Frame.{line_of};
ghost use Rattle.filters.specs.declared.op.Op.{Op};
ghost use Rattle.filters.specs.Pixel.{luma_entry, chroma_entry};
ghost use Rattle.filters.specs.ChainImage.{IsImage, value_of};

use crate::mapping::{AtLeast, Inverted, Within, map_in_place};
use crate::op::Table;
use frame_view::{Frame, lend_planes};

/// Makes a frame its own image by a table. It doesn't touch planes that the table keeps, and takes no memory.
pub fn apply_in_place(table: Table, frame: &mut Frame)
    ensures geometry { frame.new.geometry ≡ frame.old.geometry }
    ensures line { line_of frame.new ≡ line_of frame.old }
    ensures image { IsImage (Op.Table table) (value_of frame.old) (value_of frame.new) }
{
    lend_planes!(&mut *frame => luma, cb, cr, _alpha);
    change_luma(table, luma.samples);
    change_chroma(table, cb.samples);
    change_chroma(table, cr.samples);
}

fn change_luma(table: Table, samples: &mut [u8])
    ensures { samples.new ≡ map (luma_entry table) samples.old }
{
    match table {
        Table::Invert => map_in_place(Inverted, samples),
        Table::Threshold(limit) => map_in_place(AtLeast(limit), samples),
        Table::Clamp { low, high } => map_in_place(Within { low, high }, samples),
    }
}

fn change_chroma(table: Table, samples: &mut [u8])
    ensures { samples.new ≡ map (chroma_entry table) samples.old }
{
    match table {
        Table::Invert => map_in_place(Inverted, samples),
        Table::Threshold(_) => samples.fill(128),
        Table::Clamp { .. } => {}
    }
}
