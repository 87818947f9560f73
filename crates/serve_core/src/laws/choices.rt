//! Which replies are right.
ghost use Rattle.serve_core.specs.Frames.{measures, is_image};
ghost use Rattle.filters.specs.ChainImage.{FrameValue};
ghost use Rattle.serve_core.specs.Bare.{Blank};
ghost use Rattle.serve_core.specs.Laws.{AnswerAfterLaw, AnswerLaw, AreDetermined, OneChoiceLaw, RefusedLaw};
ghost use Rattle.serve_core.specs.Laws.{SizedLaw};

/// The rules leave one choice: whether a frame or a stream that can be accepted is refused for want of
/// memory. All other replies are determined, since a frame has one size and one image.
pub fn one_choice_law()
    ensures determined { AreDetermined measures is_image }
    ensures one_choice { OneChoiceLaw measures is_image }
{}

/// Every event has a right reply, in a sound state where each frame that is there has an image, and after a
/// legal transcript where each frame of a stream's size has one.
pub fn answer_law()
    ensures in_state { AnswerLaw measures is_image }
    ensures after { AnswerAfterLaw measures is_image }
{}

/// Each frame that a stream keeps has the stream's size.
pub fn sized_law()
    ensures { SizedLaw measures is_image }
{}

/// A refusal leaves everything as it was.
pub fn refused_law()
    ensures of_frames { RefusedLaw FrameValue FrameValue }
    ensures bare { RefusedLaw Blank Blank }
{}
