//! What an audit says of the book of a hub, from the definitions alone.
ghost use Rattle.serve_audit.specs.EntryText.{TextLaw};
ghost use Rattle.serve_audit.specs.Laws.{BookLaw, EndLaw, RetireLaw, SameLaw};

/// The journal of a book is a legal history from where the book opened, so an audit from there never finds a
/// wrong entry. It ends where the book's desk is, where each stream has the account and the counts that the
/// end of a hub tells.
pub fn book_law()
    ensures history { BookLaw }
    ensures end { EndLaw }
    ensures same { SameLaw }
{}

/// A tally whose released streams are taken out is where the next hub opens, if its end had them taken out.
pub fn retire_law()
    ensures { RetireLaw }
{}

/// What the line of an entry writes is the entry, where its numbers fit. So the lines of a journal tell it.
pub fn text_law()
    ensures { TextLaw }
{}
