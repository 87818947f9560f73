//! Rows mirrored left to right.
ghost use Rattle.std.specs.Prelude.{◌≡◌, ◌-◌, ◌<◌, ℕ, length, slice_index};

/// The row from right to left.
pub fn mirror_row(source: &[u8], target: &mut [u8])
    requires { length source.now ≡ length target.old }
    ensures { (x : ℕ) → x < length source.now →
        slice_index target.new x ≡ slice_index source.now (length source.now - 1 - x) }
{
    let width = source.len();
    for x in 0..width {
        target[x] = source[width - 1 - x];
    }
}
