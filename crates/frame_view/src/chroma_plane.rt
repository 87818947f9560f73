//! Which planes are chroma planes.
ghost use Rattle.std.specs.Prelude.{◌≡◌};
ghost use Rattle.frame_view.specs.Places.{is_chroma_plane};

/// Whether plane `p` is Cb or Cr, the planes of the divided size.
pub fn is_chroma_plane(p: usize) -> bool
    ensures { result ≡ is_chroma_plane p }
{
    p == 1 || p == 2
}
