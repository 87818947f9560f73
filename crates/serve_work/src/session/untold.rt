//! A chronicle that keeps nothing.
ghost use Rattle.std.specs.Prelude.{⊤};
ghost use Rattle.serve_work.specs.History.{Terms, terms_of};

use crate::chronicle::Chronicle;
use serve_hub::Ended;
use std::marker::{Brand, PhantomData};

/// What a session serves by, for contracts alone.
pub(super) trait HasTerms {
    ghost terms: { Terms };
}

impl HasTerms for Brand {
    ghost terms = { terms_of 0 0 0 };
}

/// A chronicle that keeps nothing of what it is told.
#[derive(Drop)]
pub(super) struct Untold<L> {
    terms: PhantomData<L>,
}

impl<L> Untold<L> {
    pub(super) fn new() -> Untold<L> {
        Untold { terms: PhantomData }
    }
}

impl<L: HasTerms> Chronicle for Untold<L> {
    ghost terms = { L.terms };

    ghost times = { λ _. ⊤ };

    ghost stands = { λ _ _ _. ⊤ };

    fn epoch_ended(&mut self, _ended: &Ended, _tickets: &[Option<u64>]) {}

    fn goes_on(&mut self, _at: u64) {}

    fn gives_up(&mut self) {}

    fn retired(&mut self) {}
}
