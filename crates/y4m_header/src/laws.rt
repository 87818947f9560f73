//! What follows from the definitions alone.
ghost use Rattle.y4m_header.specs.HeaderLine.{FormatIsDetermined};
ghost use Rattle.y4m_header.specs.StreamText.{FramesAreDetermined};

/// A header line states one size and one chroma form.
pub fn one_format()
    ensures { FormatIsDetermined }
{}

/// For each number of frames, at most one prefix of a text is a stream text of that many, and it is one in
/// one way.
pub fn one_reading()
    ensures { FramesAreDetermined }
{}
