//! What the seat of a stream leaves.
ghost use Rattle.std.specs.Prelude.{◌≡◌, IfOk};
ghost use Rattle.serve_core.specs.Setup.{IsWithinLimits};
ghost use Rattle.serve_hub.specs.Seats.{opened_rest};

use frame_view::Frame;
use serve_core::StreamSpec;
use std::alloc::{AllocError, Global};
use std::collections::VecDeque;
use std::marker::Model;
use std::sync::Arc;

/// What there is of a stream beside the book, from one epoch to the next: the frames that its seat keeps, and
/// what the seat tells. It has no name of a ledger. Contracts see the `StreamRest` of `specs/Seats.antt`.
#[derive(Drop)]
pub(crate) struct SeatRest {
    pub(crate) number: u32,
    pub(crate) spec: StreamSpec,
    pub(crate) accepted: u64,
    pub(crate) collected: u64,
    pub(crate) is_closed: bool,
    pub(crate) kept: VecDeque<Arc<Frame>>,
    pub(crate) torn: Option<u64>,
}

impl Model for SeatRest {
    ghost use Rattle.y4m_header.specs.declared.limits.TheConstants.{MOST_FRAMES};
    ghost use Rattle.std.specs.Prelude.{◌≡◌, ◌≤◌};
    ghost use Rattle.std.specs.VecDeque.{deque_capacity};
    ghost use Rattle.serve_hub.specs.Seats.{AreSized, StreamRest, kept_in};

    ghost Value = { StreamRest };

    ghost view = { λ a. record {
      number = a.number;
      chain = a.spec.chain;
      maximum = a.spec.maximum;
      period = a.spec.period;
      queue = a.spec.queue;
      outbox = a.spec.outbox;
      frames = a.spec.frames;
      accepted = a.accepted;
      collected = a.collected;
      is_closed = a.is_closed;
      kept = kept_in a.kept.items;
      places = deque_capacity a.kept;
      torn = a.torn;
    } };

    ghost invariant = { λ a. AreSized a.spec.chain.geometry (kept_in a.kept.items)
        × (a.spec.frames ≤ MOST_FRAMES) × (a.collected ≤ MOST_FRAMES)
        × (a.spec.geometry ≡ a.spec.chain.geometry) };
}

impl SeatRest {
    /// What there is of a stream before its first epoch.
    pub(crate) fn new(
        alloc: Global,
        number: u32,
        stream: &StreamSpec,
    ) -> Result<SeatRest, AllocError>
        requires { IsWithinLimits stream.now }
        ensures { IfOk result (λ rest. rest ≡ opened_rest number stream.now) }
    {
        let places = stream.queue() + stream.outbox();
        Ok(SeatRest {
            number,
            spec: stream.try_clone()?,
            accepted: 0,
            collected: 0,
            is_closed: false,
            kept: VecDeque::with_capacity(alloc, places as usize)?,
            torn: None,
        })
    }

    /// Gives it another number.
    pub(crate) fn renumber(&mut self, number: u32)
        ensures { self.new ≡ record self.old { number = number } }
    {
        self.number = number;
    }
}
