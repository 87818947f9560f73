//! The seat of a stream.
ghost use Rattle.std.specs.Prelude.{ℕ, ◌≡◌, ◌≢◌, ◌+◌, ◌≤◌, ◌↔◌, length, slice_get, IfNone, IfSome, IsSomeAnd};
ghost use Rattle.std.specs.Prelude.{IsTrue, Some};
ghost use Rattle.y4m_header.specs.declared.limits.TheConstants.{MOST_FRAMES};
ghost use Rattle.frame_view.specs.declared.geometry.Geometry.{Geometry};
ghost use Rattle.serve_core.specs.Schedule.{HasStream};
ghost use Rattle.serve_hub.specs.declared.refusal.Came.TheVariants.{NoPlace};
ghost use Rattle.serve_hub.specs.declared.refusal.Refusal.TheVariants.{Torn};
ghost use Rattle.serve_hub.specs.Calls.{IsCloseTold, IsCollectTold, IsOfferTold, noted};
ghost use Rattle.serve_hub.specs.Ends.{IsStreamOf};
ghost use Rattle.serve_hub.specs.Seats.{collected_by, left_by, no_calls, seat_over, spec_told, torn_at};
ghost use Rattle.serve_hub.specs.Seats.{with_call};

mod images;
mod offers;

use crate::book::Book;
use crate::calls::Calls;
use crate::chain_part::other_part;
use crate::entry::Act;
use crate::epoch::Epoch;
use crate::moments::Moments;
use crate::refusal::{Came, Refusal};
use crate::rest::SeatRest;
use crate::shared::Shared;
use lease::JobSpec;
pub(crate) use offers::Entrant;
use serve_core::StreamSpec;
use std::marker::Model;
use std::sync::ledger::{Book as Total, Share};

/// Who offers the frames of one stream of a hub, closes it, and collects its images.
///
/// The seat keeps each frame until its image is collected, and its calls that were accepted. It is a seat of
/// the hub whose ledger has the name `L`. Contracts see the `StreamSeatValue` of `specs/Seats.antt`.
#[derive(Drop)]
pub struct StreamSeat<L: Epoch> {
    // Its `collected` counts the images of the earlier epochs alone, until the seat leaves it.
    rest: SeatRest,
    calls: Calls<L>,
    moments: Option<Moments>,
}

impl<L: Epoch> Model for StreamSeat<L> {
    ghost use Rattle.serve_hub.specs.Seats.{StreamSeatValue, seat_over};

    ghost Value = { StreamSeatValue };

    ghost view = { λ a. record (seat_over a.calls.limit a.rest) { calls = a.calls; moments = a.moments } };
}

impl<L: Epoch> StreamSeat<L> {
    /// The seat of a stream without calls, over what the stream's last one left.
    pub(crate) fn over(rest: SeatRest, calls: Calls<L>) -> StreamSeat<L>
        requires { calls ≡ no_calls calls.limit }
        ensures { result ≡ seat_over calls.limit rest }
    {
        StreamSeat {
            rest,
            calls,
            moments: None,
        }
    }

    /// The seat of a stream whose admission is the book's latest entry, which the total doesn't count yet.
    pub(crate) fn of_newcomer(
        rest: SeatRest,
        calls: Calls<L>,
        book: &Book,
        total: &mut Total<L>,
    ) -> StreamSeat<L>
        requires none { calls ≡ no_calls calls.limit }
        requires behind { total.old.total + 1 ≡ length book.now.past }
        requires fits { length book.now.past ≤ calls.limit }
        ensures total { total.new.total ≡ length book.now.past }
        ensures number { result.number ≡ rest.number }
        ensures seat { IsSomeAnd (slice_get book.now.past 0) (λ e.
            result ≡ record (seat_over calls.limit rest) { calls = with_call e.act calls }) }
    {
        let mut seat = StreamSeat::over(rest, calls);
        seat.calls.count(book, total);
        seat
    }

    /// What it leaves, and the part of the ledger that counted its calls.
    pub(crate) fn leave(self) -> (Share<L>, SeatRest)
        requires { collected_by self ≤ MOST_FRAMES }
        ensures parts { result.0.parts ≡ 1 }
        ensures amount { result.0.amount ≡ length self.calls.list }
        ensures rest { result.1 ≡ left_by self }
    {
        let collected = self.collected();
        let StreamSeat {
            mut rest,
            calls,
            ..
        } = self;
        rest.collected = collected;
        (calls.into_share(), rest)
    }

    /// The stream's number.
    pub fn number(&self) -> u32
        ensures { result ≡ self.now.number }
    {
        self.rest.number
    }

    /// What is done to each of its frames.
    pub fn spec(&self) -> &JobSpec
        ensures { result.now ≡ self.now.chain }
    {
        self.rest.spec.job()
    }

    /// What its stream is served with.
    #[tactic(auto, using(crate::proofs::Specs::of_its_chain))]
    pub fn stream_spec(&self) -> &StreamSpec
        ensures { result.now ≡ spec_told self.now }
    {
        &self.rest.spec
    }

    /// How many frames were accepted.
    pub fn accepted(&self) -> u64
        ensures { result ≡ self.now.accepted }
    {
        self.rest.accepted
    }

    /// When the first and the latest frame were offered that were accepted since this seat is there.
    pub fn moments(&self) -> Option<Moments>
        ensures { result ≡ self.now.moments }
    {
        self.moments
    }

    /// How many images of its stream were collected before this seat was there.
    pub fn before(&self) -> u64
        ensures { result ≡ self.now.before }
    {
        self.rest.collected
    }

    /// How many images of its stream were collected.
    fn collected(&self) -> u64
        ensures { result ≡ collected_by self.now }
    {
        self.calls.collections() + self.rest.collected
    }

    /// How many images of its stream had been collected when its stream's seat was first told `Torn`, in this
    /// epoch or in an earlier one, if it was.
    pub fn torn(&self) -> Option<u64>
        ensures { result ≡ self.now.torn }
    {
        self.rest.torn
    }

    /// Notes a refusal that is told as Torn, unless one was noted before.
    pub(crate) fn note(&mut self, refusal: Refusal)
        ensures { self.new ≡ noted refusal self.old }
    {
        if let Refusal::Torn(_) = refusal {
            self.tear(self.collected());
        }
    }

    /// Notes a Torn behind so many images, unless one was noted before.
    fn tear(&mut self, collected: u64)
        ensures { self.new ≡ torn_at collected self.old }
    {
        if self.rest.torn.is_none() {
            self.rest.torn = Some(collected);
        }
    }

    /// Whether the stream was closed, by this seat or by its seat in an earlier epoch.
    pub fn is_closed(&self) -> bool
        ensures { result ≡ self.now.is_closed }
    {
        self.rest.is_closed
    }

    /// How many frames it keeps: they were accepted and aren't collected.
    pub fn kept(&self) -> usize
        ensures { result ≡ length self.now.kept }
    {
        self.rest.kept.len()
    }

    /// How many frames it can keep.
    pub fn places(&self) -> usize
        ensures { result ≡ self.now.places }
    {
        self.rest.kept.capacity()
    }

    /// How many frames it may have accepted: at most 16,777,216.
    pub fn frames(&self) -> u64
        ensures value { result ≡ self.now.frames }
        ensures most { result ≤ MOST_FRAMES }
    {
        self.rest.spec.frames()
    }

    /// Its calls that were accepted, the oldest first.
    pub fn calls(&self) -> &[Act]
        ensures { result.now ≡ self.now.calls.list }
    {
        &self.calls.list
    }

    /// Whether the book has its stream, served with what the seat tells, and as many frames accepted and
    /// collected as the seat tells.
    #[tactic(auto, using(crate::proofs::Specs::of_its_chain))]
    pub(crate) fn has_its_stream(&self, book: &Book) -> bool
        ensures { IsTrue result ↔ HasStream book.now.desk self.now.number (IsStreamOf self.now) }
    {
        let desk = book.desk();
        let (Some(spec), Some(counts)) = (
            desk.stream_spec(self.rest.number),
            desk.counts(self.rest.number),
        ) else {
            return false;
        };
        counts.accepted == self.rest.accepted
            && self.rest.collected <= counts.collected
            && counts.collected - self.rest.collected == self.calls.collections()
            && spec.is_same(&self.rest.spec)
    }

    /// What contradicts the seat whatever it calls, if anything does: the book has no such stream, or another
    /// chain for it, or a journal of another limit.
    fn contradiction(&self, shared: &Shared<L>) -> Option<Came>
        ensures limit { IfNone result (self.now.calls.limit ≡ shared.now.book.limit) }
        ensures chain { IfNone result (HasStream shared.now.book.desk self.now.number (λ stream.
            stream.state.spec.chain ≡ self.now.chain)) }
        ensures never_no_place { result ≢ Some NoPlace }
        ensures offer { (at : ℕ) (geometry : Geometry)
            → IfSome result (λ came. IsOfferTold self.now at geometry (Torn came)) }
        ensures close { IfSome result (λ came. IsCloseTold self.now (Torn came)) }
        ensures collect { IfSome result (λ came. IsCollectTold self.now (Torn came)) }
    {
        let Some(spec) = shared.book.spec(self.rest.number) else {
            return Some(Came::Refused(serve_core::Refusal::NoStream));
        };
        if self.calls.limit != shared.limit {
            return Some(Came::Limit(shared.limit));
        }
        other_part(spec, self.rest.spec.job()).map(Came::Chain)
    }
}
