//! What stands under the lock of a hub.
ghost use Rattle.std.specs.Prelude.{◌≡◌, ◌+◌, ◌-◌, ◌<◌, ◌≤◌, ◌↔◌, ◌⊎◌, [], All, IfErr, IfNone, IfOk, IfSome};
ghost use Rattle.std.specs.Prelude.{IsFalse, IsTrue, length, map, sum_by, vec_len};
ghost use Rattle.std.specs.Vec.{vec_capacity};
ghost use Rattle.y4m_header.specs.declared.limits.TheConstants.{MOST_FRAMES};
ghost use Rattle.serve_core.specs.declared.refusal.Refusal.TheVariants.{Drained, Empty};
ghost use Rattle.serve_core.specs.Schedule.{HasStream};
ghost use Rattle.serve_core.specs.Streams.{IsOver};
ghost use Rattle.serve_hub.specs.declared.refusal.Refusal.TheVariants.{Core, HistoryFull};
ghost use Rattle.serve_hub.specs.declared.entry.Act.TheVariants.{Admitted};
ghost use Rattle.serve_hub.specs.declared.entry.Seat.TheVariants.{Stream};
ghost use Rattle.serve_hub.specs.Books.{Appends, IsBook, room};
ghost use Rattle.serve_hub.specs.Calls.{Admits, IsAdmitRefused};
ghost use Rattle.serve_hub.specs.Ends.{Agree, IsOpening, calls_in};
ghost use Rattle.serve_hub.specs.Seats.{collected_by, left_by, opened_rest};

use crate::agree::{
    all_streams_have_seats, all_workers_have_seats, clocks_agree, have_their_streams,
    streams_agree, workers_agree,
};
use crate::book::Book;
use crate::calls::Calls;
use crate::ended::Ended;
use crate::entry::Act;
use crate::epoch::Epoch;
use crate::limits::MOST_SEATS;
use crate::refusal::{Came, Refusal};
use crate::refused::AdmitRefused;
use crate::rest::SeatRest;
use crate::stream_seat::StreamSeat;
use crate::work_seat::WorkSeat;
use cbs_account::limits::MOST_STREAMS;
use serve_core::Newcomer;
use std::marker::Model;
use std::sync::ledger::{Book as Total, Share};

/// The book, its limit and the clock at its opening, the total of the ledger that counts its entries, and
/// the parts that have no seat, of so many streams and workers. Each stream of the book has a seat, and there
/// is room for what the seats of the streams leave.
#[derive(Drop)]
pub(crate) struct Shared<L: Epoch> {
    pub(crate) book: Book,
    pub(crate) limit: usize,
    opened_at: u64,
    pub(crate) total: Total<L>,
    spare: Share<L>,
    streams: usize,
    workers: usize,
    rests: Vec<SeatRest>,
}

impl<L: Epoch> Model for Shared<L> {
    ghost use Rattle.std.specs.Prelude.{◌≡◌, ◌+◌, ◌≤◌, [], length, vec_capacity};
    ghost use Rattle.cbs_account.specs.declared.limits.TheConstants.{MOST_STREAMS};
    ghost use Rattle.serve_hub.specs.declared.limits.TheConstants.{MOST_SEATS};
    ghost use Rattle.serve_hub.specs.Ends.{IsOpening};
    ghost use Rattle.serve_hub.specs.Seats.{SharedValue};

    ghost Value = { SharedValue };

    ghost view = { λ a. record { book = a.book; streams = a.streams; workers = a.workers } };

    ghost invariant = { λ a. (a.total.total ≡ length a.book.past) × (a.limit ≡ a.book.limit)
        × (a.spare.parts + a.streams + a.workers ≡ L.parts) × (a.spare.amount ≡ 0)
        × IsOpening L.opening a.book.opening a.workers
        × (a.rests.items ≡ []) × (MOST_STREAMS ≤ vec_capacity a.rests) × (L.parts ≡ MOST_SEATS)
        × (a.opened_at ≡ L.opening.clock) × (a.streams ≡ length a.book.desk.streams) };
}

impl<L: Epoch> Shared<L> {
    pub(crate) fn new(
        book: Book,
        total: Total<L>,
        spare: Share<L>,
        rests: Vec<SeatRest>,
    ) -> Shared<L>
        requires entries { total.total ≡ length book.past }
        requires parts { spare.parts + length book.desk.streams + length book.desk.workers ≡ L.parts }
        requires amount { spare.amount ≡ 0 }
        requires opened { IsOpening L.opening book.opening (length book.desk.workers) }
        requires unmoved { book.desk ≡ book.opening }
        requires none { rests.items ≡ [] }
        requires room { MOST_STREAMS ≤ vec_capacity rests }
        requires enough { L.parts ≡ MOST_SEATS }
    {
        Shared {
            limit: book.limit(),
            opened_at: book.desk().clock(),
            streams: book.streams(),
            workers: book.workers(),
            book,
            total,
            spare,
            rests,
        }
    }

    /// One stream more, with its seat, in this memory. The spec of a refused newcomer comes back.
    pub(crate) fn admit(
        &mut self,
        newcomer: Newcomer,
        rest: SeatRest,
        list: Vec<Act>,
    ) -> Result<StreamSeat<L>, AdmitRefused>
        requires rest { rest ≡ opened_rest rest.number newcomer }
        requires list { list.items ≡ [] }
        ensures seat { IfOk result (Admits newcomer) }
        ensures entry { IfOk result (λ seat.
            Appends (Stream seat.number) Admitted self.old.book self.new.book) }
        ensures behind { IfOk result (λ seat. length L.opening.streams ≤ seat.number) }
        ensures number_in_range { IfOk result (λ seat. seat.number < MOST_STREAMS) }
        ensures refused { IfErr result (IsAdmitRefused newcomer) }
    {
        if list.capacity() < self.limit {
            return Err(AdmitRefused {
                refusal: Refusal::Torn(Came::Other),
                spec: newcomer.into_spec(),
            });
        }
        match self.book.admit_newcomer(newcomer) {
            Err((refusal, newcomer)) => Err(AdmitRefused {
                refusal,
                spec: newcomer.into_spec(),
            }),
            Ok(number) => {
                let mut rest = rest;
                rest.number = number;
                let calls = Calls::over(list, self.limit, self.spare.split_off(1, 0));
                self.streams += 1;
                Ok(StreamSeat::of_newcomer(rest, calls, &self.book, &mut self.total))
            }
        }
    }

    /// How many streams there are, those that were admitted too.
    #[tactic(auto, using(crate::proofs::Opened::more_streams))]
    pub(crate) fn all_streams(&self) -> usize
        ensures count { result ≡ length self.now.book.desk.streams }
        ensures seats { result ≡ self.now.streams }
        ensures more { length L.opening.streams ≤ result }
        ensures book { IsBook self.now.book }
        ensures opened { IsOpening L.opening self.now.book.opening self.now.workers }
    {
        self.book.streams()
    }

    /// Whether the journal has no place for another lease and its settlement.
    pub(crate) fn is_full(&self) -> bool
        ensures { IsTrue result ↔ (room self.now.book < 2) }
    {
        self.book.room() < 2
    }

    /// Why a worker that finds no stream ready need not wait for one.
    pub(crate) fn end_of_work(&self) -> Option<Refusal>
        ensures refused { IfSome result (λ e. (e ≡ Core Drained) × All IsOver self.now.book.desk.streams
            ⊎ (e ≡ HistoryFull) × (room self.now.book < 2)) }
        ensures none { IfNone result (2 ≤ room self.now.book) }
    {
        if self.book.desk().is_over() {
            return Some(Refusal::Core(serve_core::Refusal::Drained));
        }
        if self.is_full() {
            return Some(Refusal::HistoryFull);
        }
        None
    }

    /// Why a client that finds no image of its stream need not wait for one, or for one that comes soon.
    pub(crate) fn end_of_wait(&self, stream: u32, only_soon: bool) -> Option<Refusal>
        ensures long { IsFalse only_soon → IfSome result (λ e. e ≡ HistoryFull) }
        ensures soon { IsTrue only_soon → IfSome result (λ e. e ≡ Core Empty) }
    {
        if only_soon {
            (!self.comes_soon(stream)).then_some(Refusal::Core(serve_core::Refusal::Empty))
        } else {
            self.is_stuck(stream).then_some(Refusal::HistoryFull)
        }
    }

    /// Whether no image of a stream can come: no lease can be given any more, and none of it is out.
    fn is_stuck(&self, stream: u32) -> bool {
        self.is_full() && !self.book.desk().is_out(stream)
    }

    /// Whether a stream's next image is made without a pause: a lease can be given, the stream has a frame
    /// for it, and no more streams have frames than there are workers.
    fn comes_soon(&self, stream: u32) -> bool {
        !self.is_full() && self.has_work(stream) && self.streams_with_work() <= self.workers
    }

    /// How many streams have frames that aren't finished.
    fn streams_with_work(&self) -> usize {
        (0..self.streams as u32)
            .filter(|stream| self.has_work(*stream))
            .count()
    }

    /// Whether a stream has a frame that isn't finished.
    pub(crate) fn has_work(&self, stream: u32) -> bool {
        self.book
            .desk()
            .counts(stream)
            .is_some_and(|counts| counts.finished < counts.accepted)
    }

    /// Whether a stream has a frame that isn't finished, and as many images that wait to be collected as its
    /// outbox holds. Then none of its frames is out, and the next collection makes it ready.
    pub(crate) fn waits_for_room(&self, stream: u32) -> bool
        ensures { IsTrue result ↔ HasStream self.now.book.desk stream (λ stream.
            (stream.state.finished < stream.state.accepted)
            × (stream.state.spec.outbox ≤ stream.state.finished - stream.state.collected)) }
    {
        let desk = self.book.desk();
        let (Some(counts), Some(spec)) = (desk.counts(stream), desk.stream_spec(stream)) else {
            return false;
        };
        counts.finished < counts.accepted
            && counts.finished.saturating_sub(counts.collected) >= spec.outbox()
    }

    /// Whether the book has this limit, the seats are all there, their lists are the journal's, what they
    /// tell of their streams is what the book has, and no frame of theirs was accepted before the clock had
    /// come to the moment of its seat's first.
    pub(crate) fn agrees(
        &self,
        limit: usize,
        streams: &[StreamSeat<L>],
        workers: &[WorkSeat<L>],
    ) -> bool
        ensures { IsTrue result ↔ Agree (length streams.now) (length workers.now) limit self.now.book
            streams.now workers.now }
    {
        let journal = self.book.journal();
        self.limit == limit
            && streams.len() == self.streams
            && workers.len() == self.workers
            && streams_agree(journal, streams)
            && workers_agree(journal, workers)
            && all_streams_have_seats(self.streams, streams)
            && all_workers_have_seats(self.workers, workers)
            && have_their_streams(&self.book, streams)
            && clocks_agree(&self.book, self.opened_at, streams)
            && self.book.is_free()
    }

    /// The book, with what the seats leave. It has as many entries as they made calls.
    pub(crate) fn into_ended(self, streams: Vec<StreamSeat<L>>, workers: Vec<WorkSeat<L>>) -> Ended
        requires is_book { IsBook self.book }
        requires agree { Agree self.streams self.workers self.book.limit self.book streams.items
            workers.items }
        ensures book { result.book ≡ self.book }
        ensures counted { length result.book.past ≡ calls_in streams.items workers.items }
        ensures left { result.streams ≡ map left_by streams.items }
    {
        let Shared {
            book,
            mut total,
            mut spare,
            mut rests,
            ..
        } = self;
        merge_streams(&mut spare, &mut rests, streams);
        merge_workers(&mut spare, workers);
        total.audit(&mut spare);
        Ended::new(book, rests)
    }
}

/// Gives the parts of the seats of streams back, with their amounts, and takes what else they leave.
fn merge_streams<L: Epoch>(all: &mut Share<L>, rests: &mut Vec<SeatRest>, seats: Vec<StreamSeat<L>>)
    requires none { rests.old.items ≡ [] }
    requires room { vec_len seats ≤ vec_capacity rests.old }
    requires collected_in_range { All (λ s. collected_by s ≤ MOST_FRAMES) seats.items }
    ensures parts { all.new.parts ≡ all.old.parts + vec_len seats }
    ensures amount { all.new.amount ≡ all.old.amount + sum_by (λ s. length s.calls.list) seats.items }
    ensures left { rests.new.items ≡ map left_by seats.items }
{
    for seat in seats {
        let (share, rest) = seat.leave();
        all.merge(share);
        rests.push_reserved(rest);
    }
}

/// Gives the parts of the seats of workers back, with their amounts.
fn merge_workers<L: Epoch>(all: &mut Share<L>, seats: Vec<WorkSeat<L>>)
    ensures parts { all.new.parts ≡ all.old.parts + vec_len seats }
    ensures amount { all.new.amount ≡ all.old.amount + sum_by (λ s. length s.calls.list) seats.items }
{
    for seat in seats {
        all.merge(seat.calls.into_share());
    }
}
