//! Lines that are appended piece by piece.
ghost use Rattle.std.specs.Prelude.{◌≡◌, ◌++◌, OnErr, OnOk, take, vec_len};
ghost use Rattle.std.specs.List.{flat_map};
ghost use Rattle.serve_script.specs.ScriptReport.{line_text};

use std::alloc::AllocError;

/// Appends pieces of a text, one after another, or nothing.
pub fn push_pieces(printed: &mut Vec<u8>, pieces: &[&[u8]]) -> Result<(), AllocError>
    ensures ok { OnOk result
        (printed.new.items ≡ printed.old.items ++ flat_map (λ piece. piece.now) pieces.now) }
    ensures err { OnErr result (printed.new.items ≡ printed.old.items) }
{
    let kept = printed.len();
    let pushed = push_each(printed, pieces);
    if pushed.is_err() {
        printed.truncate(kept);
    }
    pushed
}

/// Appends each of the pieces. Where a growth is refused, some of them may be left.
#[tactic(auto, using(crate::proofs::SessionParts::front_kept))]
fn push_each(printed: &mut Vec<u8>, pieces: &[&[u8]]) -> Result<(), AllocError>
    ensures ok { OnOk result
        (printed.new.items ≡ printed.old.items ++ flat_map (λ piece. piece.now) pieces.now) }
    ensures err { OnErr result (take (vec_len printed.old) printed.new.items ≡ printed.old.items) }
{
    for piece in pieces {
        printed.extend_from_slice(piece)?;
    }
    Ok(())
}

/// Appends a line and its line feed, or nothing.
pub fn push_line(printed: &mut Vec<u8>, line: &[u8]) -> Result<(), AllocError>
    ensures ok { OnOk result (printed.new.items ≡ printed.old.items ++ line_text line.now) }
    ensures err { OnErr result (printed.new.items ≡ printed.old.items) }
{
    push_pieces(printed, &[line, b"\n".as_slice()])
}
