//! Rows through a table.
ghost use Rattle.std.specs.Prelude.{◌≡◌, length, map};
ghost use Rattle.filters.specs.Pixel.{entry, luma_entry, chroma_entry};

use crate::mapping::{AtLeast, Inverted, Within, map_row};
use crate::op::Table;
use frame_view::is_chroma_plane;

/// What a table makes of a row of plane `p`.
pub fn table_row(table: Table, p: usize, source: &[u8], target: &mut [u8])
    requires { length source.now ≡ length target.old }
    ensures { target.new ≡ map (entry table p) source.now }
{
    if p == 0 {
        luma_row(table, source, target);
    } else if is_chroma_plane(p) {
        chroma_row(table, source, target);
    } else {
        target.copy_from_slice(source);
    }
}

fn luma_row(table: Table, source: &[u8], target: &mut [u8])
    requires { length source.now ≡ length target.old }
    ensures { target.new ≡ map (luma_entry table) source.now }
{
    match table {
        Table::Invert => map_row(Inverted, source, target),
        Table::Threshold(limit) => map_row(AtLeast(limit), source, target),
        Table::Clamp { low, high } => map_row(Within { low, high }, source, target),
    }
}

fn chroma_row(table: Table, source: &[u8], target: &mut [u8])
    requires { length source.now ≡ length target.old }
    ensures { target.new ≡ map (chroma_entry table) source.now }
{
    match table {
        Table::Invert => map_row(Inverted, source, target),
        Table::Threshold(_) => target.fill(128),
        Table::Clamp { .. } => target.copy_from_slice(source),
    }
}
