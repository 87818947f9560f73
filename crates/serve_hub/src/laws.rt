//! What follows of journals and books alone.
ghost use Rattle.serve_hub.specs.Books.{SpecsLaw};
ghost use Rattle.serve_hub.specs.Journal.{JoinedLaw};

/// Where one journal leads from a state to a second, and another from there to a third, with perhaps more
/// streams, the first and then the second are one journal, which leads from the first state to the third.
pub fn joined_law()
    ensures { JoinedLaw }
{}

/// The streams that a book opened with keep their numbers and specs; those that were admitted since come
/// behind them.
pub fn specs_law()
    ensures { SpecsLaw }
{}
