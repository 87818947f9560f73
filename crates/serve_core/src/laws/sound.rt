//! What holds in each state that a legal transcript leads to.
ghost use Rattle.serve_core.specs.Bare.{measures_any, is_any_image};
ghost use Rattle.serve_core.specs.Frames.{measures, is_image};
ghost use Rattle.serve_core.specs.Laws.{HolderLaw, SoundLaw, SoundStepLaw};
ghost use Rattle.serve_core.specs.Leads.{SoundFromLaw};

/// A right reply to any event keeps a sound state sound.
pub fn sound_step_law()
    ensures of_frames { SoundStepLaw measures is_image }
    ensures bare { SoundStepLaw measures_any is_any_image }
{}

/// Each legal transcript of a setup within its limits leads to a sound state.
pub fn sound_law()
    ensures of_frames { SoundLaw measures is_image }
    ensures bare { SoundLaw measures_any is_any_image }
{}

/// A legal transcript leads from a sound state to a sound one.
pub fn sound_from_law()
    ensures of_frames { SoundFromLaw measures is_image }
    ensures bare { SoundFromLaw measures_any is_any_image }
{}

/// A worker has a stream's frame exactly where the worker's lease is of that stream.
pub fn holder_law()
    ensures of_frames { HolderLaw measures is_image }
    ensures bare { HolderLaw measures_any is_any_image }
{}
