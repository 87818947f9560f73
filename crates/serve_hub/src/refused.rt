//! What comes back with a refusal of a hub.

use crate::offer::Offer;
use crate::refusal::Refusal;
use lease::Lease;
use serve_core::{Collected, StreamSpec};

/// An offer was refused, and comes back. There is none where its frame was accepted after all, with a number
/// that contradicts the seat. It may have the memory of an image where none was given; that of any image may
/// have the frame's line.
#[derive(Debug, Drop)]
pub struct OfferRefused {
    pub refusal: Refusal,
    pub offer: Option<Offer>,
}

/// A stream wasn't admitted, and its spec comes back.
#[derive(Drop)]
pub struct AdmitRefused {
    pub refusal: Refusal,
    pub spec: StreamSpec,
}

/// A collection gave no image of the oldest frame that the seat keeps. There is a pair where it gave another.
#[derive(Debug, Drop)]
pub struct CollectRefused {
    pub refusal: Refusal,
    pub pair: Option<Collected>,
}

/// A settlement was refused, and the lease comes back. There is none where it was settled after all, with a
/// number that contradicts the lease. A lease has to be spent, so this can't be let go.
pub struct LeaseRefused {
    pub refusal: Refusal,
    pub lease: Option<Lease>,
}
