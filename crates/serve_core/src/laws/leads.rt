//! How transcripts lead from one state to another.
ghost use Rattle.filters.specs.ChainImage.{FrameValue};
ghost use Rattle.serve_core.specs.Bare.{BareFromLaw, BareLaw, Blank, measures_any, is_any_image};
ghost use Rattle.serve_core.specs.Frames.{measures, is_image};
ghost use Rattle.serve_core.specs.Leads.{GoingOnLaw, JoinLaw, OpeningLaw, StepLaw, UnchangedLaw};
ghost use Rattle.serve_core.specs.Reached.{FewLaw, OverJoinLaw, OverLaw, ReachedLaw};

/// One more event with a right reply leads a legal transcript on to another, whose state is what the event
/// makes of the state before.
pub fn step_law()
    ensures of_frames { StepLaw measures is_image }
    ensures bare { StepLaw measures_any is_any_image }
{}

/// The legal transcripts of a setup are those from its opening state, the state before any event, and they
/// lead from there to where the setup says.
pub fn opening_law()
    ensures of_frames { OpeningLaw measures is_image }
    ensures bare { OpeningLaw measures_any is_any_image }
{}

/// What leads on from the state of a legal transcript gives, behind it, a legal transcript again.
pub fn going_on_law()
    ensures of_frames { GoingOnLaw measures is_image }
    ensures bare { GoingOnLaw measures_any is_any_image }
{}

/// Where one transcript leads from a state to a second, and another from there to a third, one after the
/// other leads from the first to the third.
pub fn join_law()
    ensures of_frames { JoinLaw measures is_image }
    ensures bare { JoinLaw measures_any is_any_image }
{}

/// No transcript changes the quantum, or how many workers there are.
pub fn unchanged_law()
    ensures of_frames { UnchangedLaw FrameValue FrameValue }
    ensures bare { UnchangedLaw Blank Blank }
{}

/// A legal transcript without its frames is a legal bare transcript, which leads to the state without its
/// frames, from the setup or from any opening state.
pub fn bare_law()
    ensures of_setup { BareLaw measures is_image }
    ensures from { BareFromLaw measures is_image }
{}

/// From a state that a legal transcript of a setup leads to, a transcript leads to another exactly where
/// behind each such transcript it is legal and leads there. Then that state is reached too, and what leads on
/// from it is joined.
pub fn reached_law()
    ensures over { OverLaw measures_any is_any_image }
    ensures reached { ReachedLaw measures_any is_any_image }
    ensures joined { OverJoinLaw measures_any is_any_image }
    ensures within_limits { FewLaw measures_any is_any_image }
{}
