//! What is done to each frame of a stream.
ghost use Rattle.std.specs.Prelude.{◌≡◌, ◌↔◌, IsTrue};

use filters::{Chain, Op};
use frame_view::Geometry;
use std::marker::Model;

/// What is done to each frame of a stream: a chain of operations.
#[derive(Debug, Drop)]
pub struct JobSpec {
    chain: Chain,
}

impl Model for JobSpec {
    ghost use Rattle.filters.specs.Chain.{ChainValue};

    ghost Value = { ChainValue };

    ghost view = { λ spec. spec.chain };
}

impl JobSpec {
    ghost use Rattle.std.specs.Prelude.{◌≡◌, ◌↔◌, IsTrue};

    /// To each frame is done what this chain does.
    pub fn new(chain: Chain) -> JobSpec
        ensures { result ≡ chain }
    {
        JobSpec { chain }
    }

    /// The chain that is applied to the frame.
    pub fn chain(&self) -> &Chain
        ensures { result.now ≡ self.now }
    {
        &self.chain
    }

    /// Whether the chain was made for frames of this geometry.
    pub fn fits(&self, geometry: Geometry) -> bool
        ensures { IsTrue result ↔ (geometry ≡ self.now.geometry) }
    {
        geometry == self.chain.geometry()
    }
}

/// Whether the same is done to the frames: the same operations, on frames of the same geometry, in bands of
/// the same height.
pub fn is_same_spec(one: &JobSpec, other: &JobSpec) -> bool
    ensures { IsTrue result ↔ (one.now ≡ other.now) }
{
    are_same_ops(one.chain.ops(), other.chain.ops())
        && one.fits(other.chain.geometry())
        && one.chain.band_height() == other.chain.band_height()
}

fn are_same_ops(one: &[Op], other: &[Op]) -> bool
    ensures { IsTrue result ↔ (one.now ≡ other.now) }
{
    if one.len() != other.len() {
        return false;
    }
    for i in 0..one.len() {
        if one[i] != other[i] {
            return false;
        }
    }
    true
}
