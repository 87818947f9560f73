//! Which streams are admitted while a machine runs, and which are released.
ghost use Rattle.serve_core.specs.Bare.{measures_any, is_any_image};
ghost use Rattle.serve_core.specs.Frames.{measures, is_image};
ghost use Rattle.serve_core.specs.Laws.{FitsFromLaw, FitsLaw, ReleasedLaw};
ghost use Rattle.serve_core.specs.Retired.{NumberLaw, RetireLaw, RetiredLaw};

/// After each legal transcript the shares of the streams that aren't released are at most the whole of the
/// workers.
pub fn fits_law()
    ensures of_frames { FitsLaw measures is_image }
    ensures bare { FitsLaw measures_any is_any_image }
{}

/// A legal transcript leads from a sound state in which these shares fit to one in which they fit.
pub fn fits_from_law()
    ensures of_frames { FitsFromLaw measures is_image }
    ensures bare { FitsFromLaw measures_any is_any_image }
{}

/// A stream that is released stays so.
pub fn released_law()
    ensures of_frames { ReleasedLaw measures is_image }
    ensures bare { ReleasedLaw measures_any is_any_image }
{}

/// Where no worker holds a lease after a legal transcript, and a stream isn't released, there is a legal
/// transcript of a setup of the streams alone that aren't: it leads to the same state without the others, to
/// each of these streams the very same happened, and it gave the same images. So what is reached is reached
/// without the released streams; and a stream that stays is found under its new number.
pub fn retire_law()
    ensures of_frames { RetiredLaw measures is_image }
    ensures bare { RetiredLaw measures_any is_any_image }
    ensures reached { RetireLaw measures_any is_any_image }
    ensures numbers { NumberLaw }
{}
