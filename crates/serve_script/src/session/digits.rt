//! Frames in hexadecimal digits.
ghost use Rattle.std.specs.Prelude.{◌≡◌, IfOk, Ok, true};
ghost use Rattle.hex.specs.Hex.{decode_of};
ghost use Rattle.serve_script.specs.SessionWords.{is_hex};

use std::alloc::{AllocError, Global};

/// The bytes that pairs of digits write, the high half of each first.
pub fn decode_digits(alloc: Global, digits: &[u8]) -> Result<Vec<u8>, AllocError>
    requires { is_hex digits.now ≡ true }
    ensures { IfOk result (λ bytes. decode_of digits.now ≡ Ok bytes.items) }
{
    match hex::decode(alloc, digits) {
        Ok(bytes) => Ok(bytes),
        Err(_) => Err(AllocError),
    }
}
