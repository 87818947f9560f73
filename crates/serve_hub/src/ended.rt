//! What is left of a hub.
ghost use Rattle.std.specs.Prelude.{◌≡◌, ◌<◌, ◌≤◌, ◌↔◌, [], IfErr, IfOk, IfSome, IsTrue, length, reverse};
ghost use Rattle.std.specs.Prelude.{filter, option_copied, slice_get};
ghost use Rattle.std.specs.Option.{option_map};
ghost use Rattle.std.specs.Vec.{vec_capacity};
ghost use Rattle.serve_core.specs.Bare.{measures_any, is_any_image};
ghost use Rattle.serve_core.specs.Desk.{desk_state};
ghost use Rattle.serve_core.specs.Reached.{IsReached};
ghost use Rattle.serve_core.specs.Retired.{staying, stays};
ghost use Rattle.serve_core.specs.Schedule.{account_of, counts_of};
ghost use Rattle.serve_hub.specs.Books.{IsBook, IsLimit, book_transcript, entries_left};
ghost use Rattle.serve_hub.specs.Books.{opened_book, opening_of, room};
ghost use Rattle.serve_hub.specs.Ends.{AreFree, IsOpening};
ghost use Rattle.serve_hub.specs.Journal.{bands_of, units_from};
ghost use Rattle.serve_hub.specs.Retired.{rests_kept, retired_end};
ghost use Rattle.serve_hub.specs.Ticked.{ticked_end};

use crate::book::Book;
use crate::entry::Entry;
use crate::epoch::Epoch;
use crate::rest::SeatRest;
use crate::stream_seat::StreamSeat;
use crate::unlocked::Unlocked;
use crate::work_seat::WorkSeat;
use cbs_account::limits::{LAST_MOMENT, MOST_STREAMS, MOST_WORKERS};
use serve_core::{Counts, Desk, StreamSpec};
use std::alloc::Global;
use std::marker::Model;

/// The journal of a hub whose seats are all back, with what the streams and the workers had, and the frames
/// that the seats of the streams keep. The next epoch can open from it. Contracts see the `EndedValue` of
/// `specs/Ends.antt`.
#[derive(Drop)]
pub struct Ended {
    pub(crate) book: Book,
    pub(crate) streams: Vec<SeatRest>,
}

impl Model for Ended {
    ghost use Rattle.serve_hub.specs.Ends.{EndedValue, IsEnded};

    ghost Value = { EndedValue };

    ghost view = { λ a. record { book = a.book; streams = a.streams.items } };

    ghost invariant = { λ a. let ended : EndedValue = record { book = a.book; streams = a.streams.items } in
        IsEnded ended };
}

impl Ended {
    pub(crate) fn new(book: Book, streams: Vec<SeatRest>) -> Ended
        requires free { AreFree book.desk.workers }
        requires each_stream { length streams.items ≡ length book.desk.streams }
        requires reached { IsReached measures_any is_any_image (desk_state book.desk) }
        ensures book { result.book ≡ book }
        ensures streams { result.streams ≡ streams.items }
    {
        Ended { book, streams }
    }

    /// How many streams and workers there are.
    pub(crate) fn seats(&self) -> (usize, usize)
        ensures streams { result.0 ≡ length self.now.streams }
        ensures workers { result.1 ≡ length self.now.book.desk.workers }
        ensures few_streams { result.0 ≤ MOST_STREAMS }
        ensures few_workers { result.1 ≤ MOST_WORKERS }
    {
        (self.streams.len(), self.book.workers())
    }

    /// A book of the same desk with this journal, which is empty, what the seats of the streams left, and
    /// what was accepted until then, the oldest first.
    pub(crate) fn into_book(
        self,
        journal: Vec<Entry>,
        limit: usize,
    ) -> (Book, Vec<SeatRest>, Vec<Entry>)
        requires empty { journal.items ≡ [] }
        requires capacity { limit ≤ vec_capacity journal }
        requires limit { IsLimit (length self.streams) limit }
        ensures book { result.0 ≡ opened_book self.book.desk limit }
        ensures opening { IsOpening self.book.desk self.book.desk (length self.book.desk.workers) }
        ensures streams { result.1.items ≡ self.streams }
        ensures past { reverse result.2.items ≡ self.book.past }
    {
        let Ended { book, streams } = self;
        let (book, past) = book.reopen(journal, limit);
        (book, streams, past)
    }

    /// Lets the clock go on to a moment, unless it is past that, and drops the journal. Nothing else of the
    /// streams changes. So a stream that is over is released, and its share free, when its deadline has passed,
    /// whether or not a frame was offered since. The end that comes back has no entries, so each worker's bands
    /// and units are counted anew from 0. It is refused, and all stays as it is, where the moment is past the
    /// end of the clock.
    pub fn tick(self, at: u64) -> Result<Ended, Ended>
        ensures ended { IfOk result (λ ended. ended ≡ ticked_end at self) }
        ensures within { IfOk result (λ _. at ≤ LAST_MOMENT) }
        ensures refused { IfErr result (λ _. LAST_MOMENT < at) }
        ensures returns_ended { IfErr result (λ ended. ended ≡ self) }
    {
        if at <= LAST_MOMENT {
            let Ended { book, streams } = self;
            Ok(Ended::new(book.tick(at), streams))
        } else {
            Err(self)
        }
    }

    /// Takes the released streams out, with the journal, so that the next epoch opens with the others alone.
    /// These are numbered anew, in their order, as their seats will be; nothing else of them changes. The end
    /// that comes back has no entries, so each worker's bands and units are counted anew from 0. It is
    /// refused, and all stays as it is, where no stream would stay, where the seats weren't those of the
    /// streams, one each, or where the memory for an empty journal is refused.
    pub fn retire(self, alloc: Global) -> Result<Retired, Ended>
        ensures ended { IfOk result (λ r. r.ended ≡ retired_end self) }
        ensures journal { IfOk result (λ r. reverse r.journal.items ≡ self.book.past) }
        ensures returns_ended { IfErr result (λ ended. ended ≡ self) }
    {
        if !self.can_retire() {
            return Err(self);
        }
        match Vec::with_capacity(alloc, self.book.limit()) {
            Ok(journal) => Ok(self.retire_over(journal)),
            Err(_) => Err(self),
        }
    }

    /// Whether stream `s` is there and isn't released: then [`Ended::retire`] leaves it.
    pub fn stays(&self, s: u32) -> bool
        ensures { result ≡ stays self.now.book.desk s }
    {
        self.book.desk().stays(s)
    }

    /// Whether a stream stays, and each that does has its seat's part here.
    fn can_retire(&self) -> bool
        ensures some_stay { IsTrue result → 1 ≤ length (staying self.now.book.desk) }
        ensures each_stream { IsTrue result → length (rests_kept self.now.book.desk self.now.streams)
            ≡ length (staying self.now.book.desk) }
    {
        let desk = self.book.desk();
        let staying_count = desk.new_number(self.streams.len() as u32);
        staying_count >= 1 && count_staying(desk, &self.streams) == staying_count as usize
    }

    /// What is left without the released streams, with this journal, which is empty.
    fn retire_over(self, journal: Vec<Entry>) -> Retired
        requires empty { journal.items ≡ [] }
        requires capacity { self.book.limit ≤ vec_capacity journal }
        requires some_stay { 1 ≤ length (staying self.book.desk) }
        requires each_stream { length (rests_kept self.book.desk self.streams)
            ≡ length (staying self.book.desk) }
        ensures ended { result.ended ≡ retired_end self }
        ensures journal { reverse result.journal.items ≡ self.book.past }
    {
        let Ended { book, mut streams } = self;
        keep_staying(book.desk(), &mut streams);
        let (book, journal) = book.retire(journal);
        let ended = Ended::new(book, streams);
        Retired { ended, journal }
    }

    /// What was accepted, the oldest first.
    pub fn journal(&self) -> &[Entry]
        ensures past { reverse result.now ≡ self.now.book.past }
        ensures book { IsBook self.now.book }
    {
        self.book.journal()
    }

    /// The most entries that the journal could have.
    pub fn limit(&self) -> usize
        ensures { result ≡ self.now.book.limit }
    {
        self.book.limit()
    }

    /// How many entries the journal has left, beside those that are reserved.
    pub fn left(&self) -> usize
        ensures { result ≡ entries_left self.now.book }
    {
        self.book.left()
    }

    /// Whether the journal had no place for another lease and its settlement, or the epoch was ended before.
    pub fn is_full(&self) -> bool
        ensures { IsTrue result ↔ (room self.now.book < 2) }
    {
        self.book.room() < 2
    }

    /// The moment at the end.
    pub fn clock(&self) -> u64
        ensures { result ≡ self.now.book.desk.clock }
    {
        self.book.desk().clock()
    }

    /// The budget and the deadline of stream `s`.
    pub fn account(&self, s: u32) -> Option<(u64, u64)>
        ensures { result
            ≡ option_map (λ stream. account_of stream.state) (slice_get self.now.book.desk.streams s) }
    {
        self.book.desk().account(s)
    }

    /// The number of the stream whose seat was handed over at this place.
    pub fn number(&self, place: usize) -> Option<u32>
        ensures { result ≡ option_map (λ rest. rest.number) (slice_get self.now.streams place) }
    {
        self.streams.get(place).map(|rest| rest.number)
    }

    /// How many frames of stream `s` were accepted, finished and collected, and what it was charged.
    pub fn counts(&self, s: u32) -> Option<Counts>
        ensures { result
            ≡ option_map (λ stream. counts_of stream.state) (slice_get self.now.book.desk.streams s) }
    {
        self.book.desk().counts(s)
    }

    /// What stream `s` is served with. With the streams of the opening and these of the admitted ones, the
    /// journal can be replayed.
    pub fn spec(&self, s: u32) -> Option<&StreamSpec>
        ensures { option_copied result
            ≡ option_map (λ stream. stream.state.spec) (slice_get self.now.book.desk.streams s) }
    {
        self.book.desk().stream_spec(s)
    }

    /// How many bands worker `w` settled.
    pub fn bands(&self, w: u32) -> u64
        ensures { result ≡ bands_of w self.now.book.past }
    {
        self.book.bands(w)
    }

    /// How many units the bands cost that worker `w` settled.
    pub fn units(&self, w: u32) -> Option<u64>
        ensures value { result ≡ slice_get self.now.book.units w }
        ensures units { IfSome result (λ n.
            n ≡ units_from (opening_of self.now.book) w (book_transcript self.now.book)) }
    {
        self.book.units(w)
    }
}

/// What is left of a hub without its released streams, and the journal of the epoch that ended, the oldest
/// entry first.
#[derive(Drop)]
pub struct Retired {
    pub ended: Ended,
    pub journal: Vec<Entry>,
}

/// How many seats' parts are of streams that stay.
fn count_staying(desk: &Desk, rests: &[SeatRest]) -> usize
    ensures { result ≡ length (rests_kept desk.now rests.now) }
{
    let mut count = 0;
    for rest in rests {
        if desk.stays(rest.number) {
            count += 1;
        }
    }
    count
}

/// Drops the seats' parts of the streams that don't stay.
fn drop_released(desk: &Desk, rests: &mut Vec<SeatRest>)
    ensures { rests.new.items ≡ filter (λ rest. stays desk.now rest.number) rests.old.items }
{
    rests.retain(|rest| desk.stays(rest.number));
}

/// Keeps the seats' parts of the streams that stay, under their new numbers.
fn keep_staying(desk: &Desk, rests: &mut Vec<SeatRest>)
    ensures { rests.new.items ≡ rests_kept desk.now rests.old.items }
{
    drop_released(desk, rests);
    for i in 0..rests.len() {
        let number = desk.new_number(rests[i].number);
        rests[i].renumber(number);
    }
}

/// Why a hub isn't ended.
#[derive(Clone, Copy, Debug, PartialEq, Eq)]
pub enum Fault {
    /// Not all seats are there.
    SeatMissing,
    /// A worker holds a lease.
    LeaseOut,
    /// What a seat keeps of its calls, or of its stream, isn't what the book has, or a frame of it was
    /// accepted before the clock had come to the moment of the seat's first; or the book has another limit,
    /// or another number of workers, than the hub.
    Differs,
}

/// A hub that isn't ended, without its lock, and the seats that were handed over. [`Unlocked::lock`] makes it
/// a hub again, for the same seats.
#[derive(Drop)]
pub struct Mismatch<L: Epoch> {
    pub fault: Fault,
    pub unlocked: Unlocked<L>,
    pub streams: Vec<StreamSeat<L>>,
    pub workers: Vec<WorkSeat<L>>,
}
