//! Images on their way from a seat to a writer.
ghost use Rattle.std.specs.Prelude.{◌≡◌, [], IfErr, IfOk, IfSome, IsFalse, false};
ghost use Rattle.serve_client.specs.declared.stop.Halt.TheVariants as halts;
ghost use Rattle.serve_client.specs.declared.stop.Stop.TheVariants as stops;
ghost use Rattle.serve_client.specs.Clients.{IsDrained};
ghost use Rattle.serve_hub.specs.Calls.{Gives, IsCollectRefused};
ghost use Rattle.serve_client.specs.ClientInside.{AreBuffersFor, GivesUp, HaltsWith, IsLeft, IsOfCollection};
ghost use Rattle.serve_client.specs.ClientInside.{IsOfDelivery, MovesOrHalts, Tallies, TalliesSeat, image_in};
ghost use Rattle.serve_client.specs.Hands.{IsPairOf, counted_with, image_at};
ghost use Rattle.serve_client.specs.Rests.{CanDrain};

use crate::hand::finish;
use crate::input::{most_ahead, most_kept};
use crate::pipeline::Pipeline;
use crate::stop::Halt;
use serve_core::{Collected, Refusal as Core};
use serve_hub::{CollectRefused, Epoch, Hub, Refusal, StreamSeat};
use std::sync::Wait;
use y4m_stream::{Sink, Source, StreamWriter};

/// Collects an image and writes it. It stops at `Whole` where nothing is left to collect. Where the journal
/// is full before all of the image went out, that is in hand.
pub(crate) fn deliver<L: Epoch, W: Sink, T: Wait>(
    rt: &T,
    hub: &Hub<L>,
    seat: &mut StreamSeat<L>,
    writer: &mut StreamWriter<W>,
) -> Result<Collected, Halt>
    requires can { CanDrain seat.old writer.old }
    ensures answer { MovesOrHalts result seat.old seat.new writer.old writer.new [] }
    ensures pair { IfOk result (IsPairOf seat.old.chain) }
    ensures drained { IfErr result (λ halt. halt ≡ halts.Stopped stops.Whole
        → IsDrained seat.old × (seat.new ≡ seat.old)) }
    ensures own { IfErr result IsOfCollection }
    ensures left { IfErr result (IsLeft seat.old.chain writer.new) }
    ensures tally { Tallies seat.old seat.new writer.old
        (counted_with (image_at image_in result) writer.new) }
    ensures stays { GivesUp seat.old seat.new }
{
    match hub.collect(rt, seat) {
        Ok(pair) => finish(rt, hub, writer, pair),
        Err(refused) => Err(Halt::of(refused.refusal)),
    }
}

/// Collects an image that is there, or one that comes soon. A client that reads ahead waits for none while it
/// keeps fewer frames than it may ([`most_ahead`]).
fn collect_early<L: Epoch, T: Wait>(
    rt: &T,
    hub: &Hub<L>,
    seat: &mut StreamSeat<L>,
    reads_ahead: bool,
) -> Result<Collected, CollectRefused>
    ensures given { IfOk result (λ pair. Gives pair seat.old seat.new) }
    ensures refused { IfErr result (λ e. IsCollectRefused e seat.old seat.new) }
{
    let kept = seat.kept();
    if kept > 0 && kept >= most_kept(rt, hub, seat) {
        hub.collect(rt, seat)
    } else if reads_ahead && kept < most_ahead(seat) {
        hub.try_collect(rt, seat)
    } else {
        hub.collect_soon(rt, seat)
    }
}

/// Collects an image that is there or comes soon, and writes it, where there is one.
fn deliver_early<L: Epoch, W: Sink, T: Wait>(
    rt: &T,
    hub: &Hub<L>,
    seat: &mut StreamSeat<L>,
    writer: &mut StreamWriter<W>,
    reads_ahead: bool,
) -> Result<Option<Collected>, Halt>
    requires can { CanDrain seat.old writer.old }
    requires open { seat.old.is_closed ≡ false }
    ensures answer { MovesOrHalts result seat.old seat.new writer.old writer.new [] }
    ensures pair { IfOk result (λ next. IfSome next (IsPairOf seat.old.chain)) }
    ensures own { IfErr result IsOfDelivery }
    ensures left { IfErr result (IsLeft seat.old.chain writer.new) }
    ensures tally { Tallies seat.old seat.new writer.old
        (counted_with (image_at image_in result) writer.new) }
    ensures stays { GivesUp seat.old seat.new }
{
    match collect_early(rt, hub, seat, reads_ahead) {
        Ok(pair) => match finish(rt, hub, writer, pair) {
            Ok(pair) => Ok(Some(pair)),
            Err(halt) => Err(halt),
        },
        Err(refused) => match refused.refusal {
            Refusal::Core(Core::Empty) => Ok(None),
            refusal => Err(Halt::of(refusal)),
        },
    }
}

impl<L: Epoch, R: Source, W: Sink> Pipeline<L, R, W> {
    /// Collects and writes the images that are there or come soon, and keeps their memory.
    pub(crate) fn deliver_ready<T: Wait>(
        &mut self,
        rt: &T,
        hub: &Hub<L>,
        reads_ahead: bool,
    ) -> Result<(), Halt>
        requires can { CanDrain self.old.seat self.old.writer }
        requires open { self.old.seat.is_closed ≡ false }
        requires buffers { AreBuffersFor self.old.seat.chain self.old.buffers }
        ensures answer { MovesOrHalts result self.old.seat self.new.seat self.old.writer self.new.writer [] }
        ensures own { IfErr result IsOfDelivery }
        ensures left { IfErr result (IsLeft self.old.seat.chain self.new.writer) }
        ensures tally { Tallies self.old.seat self.new.seat self.old.writer
            (counted_with (image_at image_in result) self.new.writer) }
        ensures stays { GivesUp self.old.seat self.new.seat }
        ensures buffers { AreBuffersFor self.old.seat.chain self.new.buffers }
        ensures reader { self.new.reader ≡ self.old.reader }
    {
        for _ in 0..self.seat.kept() {
            match deliver_early(rt, hub, &mut self.seat, &mut self.writer, reads_ahead) {
                Ok(Some(pair)) => self.buffers.keep(pair),
                Ok(None) => return Ok(()),
                Err(halt) => return Err(halt),
            }
        }
        Ok(())
    }
}

/// Collects and writes until nothing is left, or that fails.
pub(crate) fn drain<L: Epoch, W: Sink, T: Wait>(
    rt: &T,
    hub: &Hub<L>,
    seat: &mut StreamSeat<L>,
    writer: &mut StreamWriter<W>,
) -> Halt
    requires can { CanDrain seat.old writer.old }
    ensures answer { HaltsWith result seat.old seat.new writer.old writer.new [] }
    ensures drained { result ≡ halts.Stopped stops.Whole → IsDrained seat.new }
    ensures own { IsOfCollection result }
    ensures left { IsLeft seat.old.chain writer.new result }
    ensures tally { Tallies seat.old seat.new writer.old (counted_with (image_in result) writer.new) }
    ensures stays { GivesUp seat.old seat.new }
{
    for _ in rt.forever() {
        match deliver(rt, hub, seat, writer) {
            Ok(_) => {}
            Err(halt) => return halt,
        }
    }
    unreachable!()
}

/// Collects and throws away where no image is to be written any more, until the journal is full, or nothing
/// is left. It answers whether the journal is full.
pub(crate) fn discard<L: Epoch, T: Wait>(rt: &T, hub: &Hub<L>, seat: &mut StreamSeat<L>) -> bool
    ensures none { IsFalse result → seat.new.kept ≡ [] }
    ensures tally { TalliesSeat seat.old seat.new }
    ensures stays { GivesUp seat.old seat.new }
{
    for _ in rt.forever() {
        match hub.collect(rt, seat) {
            Ok(_) => {}
            Err(refused) => {
                if refused.refusal == Refusal::HistoryFull {
                    return true;
                }
                if seat.kept() == 0 {
                    return false;
                }
            }
        }
    }
    unreachable!()
}
