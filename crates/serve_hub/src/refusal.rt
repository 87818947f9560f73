//! Why a call on a book is refused.
ghost use Rattle.std.specs.Prelude.{◌≡◌};
ghost use Rattle.serve_hub.specs.Answers as answers;

use crate::chain_part::ChainPart;
use thiserror::Error;

/// What a book answered that contradicts a seat.
#[derive(Clone, Copy, Debug, PartialEq, Eq)]
pub enum Came {
    /// The call was accepted with this number, which isn't the seat's next one, or not the lease's.
    Number(u64),
    /// The call was refused so.
    Refused(serve_core::Refusal),
    /// The image was of another frame than the oldest that the seat keeps.
    Source,
    /// The journal has this limit, which isn't the seat's.
    Limit(usize),
    /// The stream's chain has this part, which the seat's doesn't have.
    Chain(ChainPart),
    /// The book would accept a frame for which the seat has no place.
    NoPlace,
    /// An admission found another limit than it was made for.
    Other,
}

/// Why a call on a book or a hub is refused.
#[derive(Clone, Copy, Debug, PartialEq, Eq, Error)]
pub enum Refusal {
    /// As the desk refuses it.
    #[error("{0}")]
    Core(serve_core::Refusal),
    /// The journal has no place for the entry beside those that are reserved.
    #[error("HistoryFull")]
    HistoryFull,
    /// The lease isn't the one that the worker got.
    #[error("StrayLease")]
    StrayLease,
    /// What the book answered contradicts the seat. Only a hub answers so.
    #[error("Torn")]
    Torn(Came),
}

/// As the desk refuses a call, or where it would accept it, as a full journal does.
pub(crate) fn or_full(refusal: Option<serve_core::Refusal>) -> Refusal
    ensures { result ≡ answers.or_full refusal }
{
    match refusal {
        Some(refusal) => Refusal::Core(refusal),
        None => Refusal::HistoryFull,
    }
}

impl From<serve_core::Refusal> for Refusal {
    ghost use Rattle.serve_hub.specs.declared.refusal.Refusal.{Refusal};

    ghost from_gives = { λ e refusal. refusal ≡ Refusal.Core e };

    fn from(refusal: serve_core::Refusal) -> Refusal {
        Refusal::Core(refusal)
    }
}
