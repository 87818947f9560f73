//! When the frames of a seat were offered.
ghost use Rattle.std.specs.Prelude.{◌≡◌};
ghost use Rattle.serve_hub.specs.Seats.{moments_with};

/// The moments at which the first and the latest of a seat's accepted frames were offered. They are those
/// that were given for the offers, also where the clock was later.
#[derive(Clone, Copy, Debug, PartialEq, Eq)]
pub struct Moments {
    pub first: u64,
    pub latest: u64,
}

impl Moments {
    /// Those of the offers before, if there were any, with one more.
    pub(crate) fn with(before: Option<Moments>, at: u64) -> Moments
        ensures { result ≡ moments_with before at }
    {
        match before {
            None => Moments {
                first: at,
                latest: at,
            },
            Some(before) => Moments {
                first: before.first,
                latest: at,
            },
        }
    }
}
