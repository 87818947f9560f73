//! A header line with another size.
ghost use Rattle.std.specs.Prelude.{◌≡◌, ◌∷◌, ◌++◌, IfOk, OnOk, decimal};
ghost use Rattle.y4m_header.specs.Resized.{resized_line, resized_piece};

use crate::text::cut;
use itoa::Buffer;
use std::alloc::{AllocError, Global};

fn push_size(out: &mut Vec<u8>, letter: u8, size: u32) -> Result<(), AllocError>
    ensures { OnOk result (out.new.items ≡ out.old.items ++ letter ∷ decimal size) }
{
    let mut buffer = Buffer::new();
    out.push(letter)?;
    out.extend_from_slice(buffer.format(size).as_bytes())?;
    Ok(())
}

fn push_piece(out: &mut Vec<u8>, piece: &[u8], width: u32, height: u32) -> Result<(), AllocError>
    ensures { OnOk result (out.new.items ≡ out.old.items ++ resized_piece width height piece.now) }
{
    match piece.first() {
        Some(b'W') => push_size(out, b'W', width),
        Some(b'H') => push_size(out, b'H', height),
        _ => out.extend_from_slice(piece),
    }
}

/// The line with these sizes in its tags W and H.
pub fn resized_line(
    alloc: Global,
    line: &[u8],
    width: u32,
    height: u32,
) -> Result<Vec<u8>, AllocError>
    ensures { IfOk result (λ text. text.items ≡ resized_line line.now width height) }
{
    let (word, mut rest) = cut(b' ', line);
    let mut out = Vec::from_slice(alloc, word)?;
    while let Some(text) = rest {
        let (piece, more) = cut(b' ', text);
        out.push(b' ')?;
        push_piece(&mut out, piece, width, height)?;
        rest = more;
    }
    Ok(out)
}
