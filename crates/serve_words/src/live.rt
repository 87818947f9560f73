//! What the words say of streams that come and go.
ghost use Rattle.std.specs.Prelude.{◌≡◌};
ghost use Rattle.serve_words.specs.Options.{microseconds_of, takes_input};

use crate::request::ServeWords;

/// The microseconds of a moment where streams come and go, unless others are told.
const MICROSECONDS: u32 = 30;

/// A control that is standard input.
const INPUT: &str = "-";

impl ServeWords<'_> {
    /// The microseconds of a moment, where it is time that passes and not offers that are counted.
    pub fn microseconds(&self) -> Option<u32>
        ensures { result ≡ microseconds_of self.now }
    {
        match (self.moment, self.control) {
            (Some(told), _) => Some(told),
            (None, Some(_)) => Some(MICROSECONDS),
            (None, None) => None,
        }
    }

    /// Whether standard input is taken by the control: no stream is read from it then.
    pub fn takes_input(&self) -> bool
        ensures { result ≡ takes_input self.now }
    {
        match self.control {
            Some(control) => control == INPUT,
            None => false,
        }
    }
}
