//! One operation's text.
ghost use Rattle.std.specs.Prelude.{◌≡◌, option_and_then};
ghost use Rattle.filters.specs.OpsText.{numbers, plain_op, numbered_op, op_of_part};
ghost use Rattle.filters.specs.OpsText.{threshold_of, clamp_of, crop_of, blur_of};

use crate::limits::MOST_RADIUS;
use crate::number::{four_numbers, one_number, two_numbers};
use crate::op::{Blur, Crop, Op, Table};
use y4m_header::text::cut;

fn threshold_of(text: &[u8]) -> Option<Op>
    ensures { result ≡ option_and_then threshold_of (numbers text.now) }
{
    let limit = one_number(text)?;
    if limit <= 255 {
        Some(Op::Table(Table::Threshold(limit as u8)))
    } else {
        None
    }
}

fn clamp_of(text: &[u8]) -> Option<Op>
    ensures { result ≡ option_and_then clamp_of (numbers text.now) }
{
    let (low, high) = two_numbers(text)?;
    if low <= high && high <= 255 {
        Some(Op::Table(Table::Clamp {
            low: low as u8,
            high: high as u8,
        }))
    } else {
        None
    }
}

fn crop_of(text: &[u8]) -> Option<Op>
    ensures { result ≡ option_and_then crop_of (numbers text.now) }
{
    let (x, y, width, height) = four_numbers(text)?;
    Some(Op::Crop(Crop {
        x,
        y,
        width,
        height,
    }))
}

fn blur_of(text: &[u8]) -> Option<Op>
    ensures { result ≡ option_and_then blur_of (numbers text.now) }
{
    let radius = one_number(text)?;
    if radius >= 1 && radius <= MOST_RADIUS {
        Some(Op::Blur(Blur { radius }))
    } else {
        None
    }
}

/// The operation that a name says by itself.
fn plain_op(name: &[u8]) -> Option<Op>
    ensures { result ≡ plain_op name.now }
{
    if name == b"invert".as_slice() {
        Some(Op::Table(Table::Invert))
    } else if name == b"hflip".as_slice() {
        Some(Op::HFlip)
    } else if name == b"vflip".as_slice() {
        Some(Op::VFlip)
    } else {
        None
    }
}

/// The operation that a name says with the numbers behind it.
fn numbered_op(name: &[u8], text: &[u8]) -> Option<Op>
    ensures { result ≡ numbered_op name.now (numbers text.now) }
{
    if name == b"thresh".as_slice() {
        threshold_of(text)
    } else if name == b"clamp".as_slice() {
        clamp_of(text)
    } else if name == b"crop".as_slice() {
        crop_of(text)
    } else if name == b"blur".as_slice() {
        blur_of(text)
    } else {
        None
    }
}

/// The operation that a part of a text says.
pub fn op_of_part(part: &[u8]) -> Option<Op>
    ensures { result ≡ op_of_part part.now }
{
    match cut(b':', part) {
        (name, Some(text)) => numbered_op(name, text),
        (name, None) => plain_op(name),
    }
}
