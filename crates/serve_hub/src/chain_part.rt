//! In what the chain of a stream differs from that of its seat.
ghost use Rattle.std.specs.Prelude.{◌≡◌, IfNone, IfSome};
ghost use Rattle.serve_hub.specs.Calls.{HasOp, HasPart, IsOtherOp, IsOtherPart};

use filters::Op;
use lease::JobSpec;
use y4m_header::Chroma;

/// A part of a chain that another one doesn't have.
#[derive(Clone, Copy, Debug, PartialEq, Eq)]
pub enum ChainPart {
    /// Its frames have this width, this height and this chroma form.
    Format(u32, u32, Chroma),
    /// Its bands have so many luma rows.
    BandRows(usize),
    /// It has so many operations.
    Count(usize),
    /// Its operation with this number, from 0.
    Op(usize, Op),
}

/// The first part of a chain that another one doesn't have, if they differ.
pub(crate) fn other_part(found: &JobSpec, own: &JobSpec) -> Option<ChainPart>
    ensures same { IfNone result (found.now ≡ own.now) }
    ensures found { IfSome result (HasPart found.now) }
    ensures other { IfSome result (IsOtherPart own.now) }
{
    let geometry = found.chain().geometry();
    if !own.fits(geometry) {
        return Some(ChainPart::Format(geometry.width, geometry.height, geometry.chroma));
    }
    let rows = found.chain().band_height().rows();
    if rows != own.chain().band_height().rows() {
        return Some(ChainPart::BandRows(rows));
    }
    other_op(found.chain().ops(), own.chain().ops())
}

/// The first of the operations that the other ones don't have, if they differ.
fn other_op(found: &[Op], own: &[Op]) -> Option<ChainPart>
    ensures same { IfNone result (found.now ≡ own.now) }
    ensures found { IfSome result (HasOp found.now) }
    ensures other { IfSome result (IsOtherOp own.now) }
{
    if found.len() != own.len() {
        return Some(ChainPart::Count(found.len()));
    }
    for i in 0..own.len() {
        if found[i] != own[i] {
            return Some(ChainPart::Op(i, found[i]));
        }
    }
    None
}
