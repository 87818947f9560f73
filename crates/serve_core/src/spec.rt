//! What a stream is served with.
ghost use Rattle.std.specs.Prelude.{◌≡◌, ◌<◌, ◌↔◌, IfOk, IsTrue};
ghost use Rattle.std.specs.Arc.{arc_value};
ghost use Rattle.serve_core.specs.Setup as rules;
ghost use Rattle.serve_core.specs.Grants.{cost_of_band};
ghost use Rattle.serve_core.specs.Setup.{IsWithinLimits, costs, steps};

use filters::MOST_COST;
use frame_view::Geometry;
use lease::{JobSpec, is_same_spec};
use std::alloc::AllocError;
use std::marker::Model;
use std::sync::Arc;
use stream_queue::limits::MOST_PLACES;
use y4m_header::MOST_FRAMES;

/// What a stream is served with: its frames' geometry, its chain, its account, and how many frames it may
/// have. Contracts see it as the record of that name in `specs/Setup.antt`.
#[derive(Drop)]
pub struct StreamSpec {
    pub(crate) geometry: Geometry,
    pub(crate) job: Arc<JobSpec>,
    pub(crate) maximum: u64,
    pub(crate) period: u64,
    pub(crate) queue: u64,
    pub(crate) outbox: u64,
    pub(crate) frames: u64,
}

impl Model for StreamSpec {
    ghost use Rattle.std.specs.Arc.{arc_value};
    ghost use Rattle.serve_core.specs.Setup as rules;

    ghost Value = { rules.StreamSpec };

    ghost view = { λ a. record {
      geometry = a.geometry;
      chain = arc_value a.job;
      maximum = a.maximum;
      period = a.period;
      queue = a.queue;
      outbox = a.outbox;
      frames = a.frames;
    } };
}

impl StreamSpec {
    /// A stream of frames of this geometry, filtered by this chain, that may use `q` units in every `t`
    /// moments.
    ///
    /// At most `queue` of its frames may be unfinished and `outbox` finished ones uncollected, and `frames`
    /// may be accepted at all. Nothing is checked before a setup is made of it or it asks to be admitted.
    pub fn new(
        geometry: Geometry,
        job: Arc<JobSpec>,
        q: u64,
        t: u64,
        queue: u64,
        outbox: u64,
        frames: u64,
    ) -> StreamSpec
        ensures { result ≡ record {
          geometry = geometry;
          chain = arc_value job;
          maximum = q;
          period = t;
          queue = queue;
          outbox = outbox;
          frames = frames;
        } }
    {
        StreamSpec {
            geometry,
            job,
            maximum: q,
            period: t,
            queue,
            outbox,
            frames,
        }
    }

    /// A copy of the spec, with another handle on the chain.
    pub fn try_clone(&self) -> Result<StreamSpec, AllocError>
        ensures { IfOk result (λ spec. spec ≡ self.now) }
    {
        Ok(StreamSpec {
            geometry: self.geometry,
            job: Arc::try_clone(&self.job)?,
            maximum: self.maximum,
            period: self.period,
            queue: self.queue,
            outbox: self.outbox,
            frames: self.frames,
        })
    }

    /// Whether the other is the same: in each number, and in what is done to the frames.
    pub fn is_same(&self, other: &StreamSpec) -> bool
        ensures { IsTrue result ↔ (self.now ≡ other.now) }
    {
        let is_sized = self.geometry == other.geometry;
        if !is_sized {
            return false;
        }
        if !is_same_spec(&self.job, &other.job) {
            return false;
        }
        if self.maximum != other.maximum {
            return false;
        }
        if self.period != other.period {
            return false;
        }
        if self.queue != other.queue {
            return false;
        }
        if self.outbox != other.outbox {
            return false;
        }
        if self.frames != other.frames {
            return false;
        }
        true
    }

    /// The size of its frames.
    pub fn geometry(&self) -> Geometry
        ensures { result ≡ self.now.geometry }
    {
        self.geometry
    }

    /// What is done to each frame.
    pub fn job(&self) -> &Arc<JobSpec>
        ensures { arc_value result.now ≡ self.now.chain }
    {
        &self.job
    }

    /// How many units it may use in every period: the Q of its account.
    pub fn maximum(&self) -> u64
        ensures { result ≡ self.now.maximum }
    {
        self.maximum
    }

    /// How many moments a period of its account has: T.
    pub fn period(&self) -> u64
        ensures { result ≡ self.now.period }
    {
        self.period
    }

    /// How many of its frames may be unfinished.
    pub fn queue(&self) -> u64
        ensures { result ≡ self.now.queue }
    {
        self.queue
    }

    /// How many finished frames may be uncollected.
    pub fn outbox(&self) -> u64
        ensures { result ≡ self.now.outbox }
    {
        self.outbox
    }

    /// How many frames it may accept at all.
    pub fn frames(&self) -> u64
        ensures { result ≡ self.now.frames }
    {
        self.frames
    }

    /// What band `k` of a frame costs.
    #[tactic(auto, using(crate::proofs::Schedules::Jobs::band_cost))]
    pub(crate) fn cost_of_band(&self, k: u32) -> u64
        requires { k < steps self.now }
        ensures { result ≡ cost_of_band k (costs self.now) }
    {
        let chain = self.job.chain();
        prove!(k < chain.steps());
        chain.cost_of_step(k) as u64
    }

    /// Whether each number but those of the account is within its limits, and the chain was made for the
    /// geometry.
    pub(crate) fn is_within_limits(&self) -> bool
        ensures { IsTrue result ↔ IsWithinLimits self.now }
    {
        let chain = self.job.chain();
        prove!(1 <= chain.steps());
        prove!(chain.cost() <= MOST_COST);
        if !self.job.fits(self.geometry) {
            return false;
        }
        if self.queue < 1 || self.queue > MOST_PLACES {
            return false;
        }
        if self.outbox < 1 || self.outbox > MOST_PLACES {
            return false;
        }
        1 <= self.frames && self.frames <= MOST_FRAMES
    }
}
