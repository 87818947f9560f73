//! A desk with the journal of what it accepted.
ghost use Rattle.std.specs.Prelude.{◌≡◌, ◌<◌, ◌≤◌, ◌^◌, ◌↔◌, [], IfOk, IfSome, IsErrOf, IsTrue};
ghost use Rattle.std.specs.Prelude.{length, option_copied, reverse, slice_get};
ghost use Rattle.std.specs.Vec.{vec_capacity, vec_len};
ghost use Rattle.std.specs.Option.{option_map};
ghost use Rattle.serve_core.specs.Bare.{measures_any, is_any_image};
ghost use Rattle.serve_core.specs.Desk.{desk_state};
ghost use Rattle.serve_core.specs.Reached.{IsReached};
ghost use Rattle.serve_core.specs.Retired.{retired_schedule, staying};
ghost use Rattle.serve_core.specs.Schedule.{opened_schedule};
ghost use Rattle.serve_core.specs.Sound.{Sound};
ghost use Rattle.serve_core.specs.Ticked.{at_moment};
ghost use Rattle.serve_hub.specs.Books.{IsBook, IsLimit, being_ended, book_transcript, opened_book};
ghost use Rattle.serve_hub.specs.Books.{opening_of, reserved};
ghost use Rattle.serve_hub.specs.Books as rules;
ghost use Rattle.serve_hub.specs.Ends.{AreFree};
ghost use Rattle.serve_hub.specs.Journal.{act_bands, bands_of, units_from};

mod admissions;
mod leases;
mod offers;

use crate::entry::{Act, Entry, Seat};
use crate::error::HubError;
use crate::limits::is_limit;
use cbs_account::limits::{LAST_MOMENT, MOST_ENTRIES};
use lease::JobSpec;
use serve_core::{Desk, Setup};
use std::alloc::Global;
use std::marker::Model;
use std::snapshot::Snapshot;

/// A desk, and the journal of what it accepted: an entry for each accepted call, and none for a refused one.
///
/// The journal has a limit. An entry is reserved for the settlement of each lease that is out and for the
/// close of each stream that isn't closed, so these are never refused for it. Where the epoch is being ended
/// all else is refused as by a full journal. The memory for the journal is taken when the book is made, so
/// only `new`, `offer`, `admit` and `admit_newcomer` take any.
///
/// Contracts see the `BookValue` of `specs/Books.antt`: the journal leads from the desk as it was when the
/// book was opened to the desk as it is.
#[derive(Drop)]
pub struct Book {
    opening: Snapshot<Desk>,
    desk: Desk,
    journal: Vec<Entry>,
    limit: usize,
    taken: usize,
    units: Vec<u64>,
    is_ending: bool,
}

impl Model for Book {
    ghost use Rattle.serve_hub.specs.Books.{BookValue};

    ghost Value = { BookValue };

    ghost use Rattle.serve_hub.specs.BookInside.{IsKept, book};

    ghost view = { book };

    ghost invariant = { IsKept };
}

impl Book {
    /// A book without entries, over a desk before any event, for at most `limit` entries.
    pub fn new(alloc: Global, setup: Setup, limit: usize) -> Result<Book, HubError>
        ensures book { IfOk result (λ b. b ≡ opened_book (opened_schedule setup) limit) }
        ensures limit { IfOk result (λ _. IsLimit (length setup.streams) limit) }
        ensures bad_limit { IsErrOf result HubError.BadLimit ↔ ¬ IsLimit (length setup.streams) limit }
    {
        setup.recall_limits();
        let streams = setup.streams().len();
        let workers = setup.workers();
        if !is_limit(streams, limit) {
            return Err(HubError::BadLimit);
        }
        let desk = Desk::new(alloc, setup)?;
        let journal = Vec::with_capacity(alloc, limit)?;
        let units = vec![in alloc; 0; workers as usize]?;
        Ok(Book {
            opening: Snapshot::of(&desk),
            desk,
            journal,
            limit,
            taken: streams,
            units,
            is_ending: false,
        })
    }

    /// A book of the same desk with this journal, which is empty, and what was accepted until then, the
    /// oldest first.
    pub(crate) fn reopen(self, journal: Vec<Entry>, limit: usize) -> (Book, Vec<Entry>)
        requires empty { journal.items ≡ [] }
        requires capacity { limit ≤ vec_capacity journal }
        requires most { limit ≤ MOST_ENTRIES }
        requires fits { reserved self.desk ≤ limit }
        ensures book { result.0 ≡ opened_book self.desk limit }
        ensures past { reverse result.1.items ≡ self.past }
    {
        let Book {
            desk,
            journal: past,
            taken,
            units,
            ..
        } = self;
        let book = book_over(desk, journal, limit, taken - past.len(), units);
        (book, past)
    }

    /// A book of the desk without its released streams, with this journal, which is empty, and what was
    /// accepted until then, the oldest first.
    pub(crate) fn retire(self, journal: Vec<Entry>) -> (Book, Vec<Entry>)
        requires empty { journal.items ≡ [] }
        requires capacity { self.limit ≤ vec_capacity journal }
        requires free { AreFree self.desk.workers }
        requires some_stay { 1 ≤ length (staying self.desk) }
        requires reached { IsReached measures_any is_any_image (desk_state self.desk) }
        ensures book { result.0 ≡ opened_book (retired_schedule self.desk) self.limit }
        ensures reached { IsReached measures_any is_any_image (desk_state result.0.desk) }
        ensures past { reverse result.1.items ≡ self.past }
    {
        let Book {
            mut desk,
            journal: past,
            limit,
            taken,
            units,
            ..
        } = self;
        desk.retire();
        let book = book_over(desk, journal, limit, taken - past.len(), units);
        (book, past)
    }

    /// A book of the same desk, whose clock went on to a moment, unless it was past that. The book has no
    /// entries.
    pub(crate) fn tick(self, at: u64) -> Book
        requires moment { at ≤ LAST_MOMENT }
        requires reached { IsReached measures_any is_any_image (desk_state self.desk) }
        ensures book { result ≡ opened_book (at_moment at self.desk) self.limit }
        ensures reached { IsReached measures_any is_any_image (desk_state result.desk) }
    {
        let Book {
            mut desk,
            mut journal,
            limit,
            taken,
            units,
            ..
        } = self;
        let taken = taken - journal.len();
        journal.clear();
        desk.tick(at);
        book_over(desk, journal, limit, taken, units)
    }

    /// What was accepted, the oldest first.
    pub fn journal(&self) -> &[Entry]
        ensures past { reverse result.now ≡ self.now.past }
        ensures book { IsBook self.now }
    {
        &self.journal
    }

    /// The entry of the latest call that was accepted.
    pub fn latest(&self) -> Option<Entry>
        ensures { result ≡ slice_get self.now.past 0 }
    {
        self.journal.last().copied()
    }

    /// The most entries.
    pub(crate) fn limit(&self) -> usize
        ensures { result ≡ self.now.limit }
    {
        self.limit
    }

    /// How many entries the journal has left, beside those that are reserved.
    pub fn left(&self) -> usize
        ensures { result ≡ rules.entries_left self.now }
    {
        self.limit - self.taken
    }

    /// How many entries may be added beside those that are reserved: none where the epoch is being ended.
    pub fn room(&self) -> usize
        ensures { result ≡ rules.room self.now }
    {
        if self.is_ending { 0 } else { self.left() }
    }

    /// Ends the epoch: from now on a call that needs an entry which isn't reserved is answered `HistoryFull`
    /// where it would be accepted.
    pub fn end_epoch(&mut self)
        ensures { self.new ≡ being_ended self.old }
    {
        self.is_ending = true;
    }

    /// Whether the epoch is being ended.
    pub(crate) fn is_ending(&self) -> bool
        ensures { result ≡ self.now.is_ending }
    {
        self.is_ending
    }

    /// The desk, which has at least the streams that the book opened with.
    pub fn desk(&self) -> &Desk
        ensures desk { result.now ≡ self.now.desk }
        ensures more { length self.now.opening.streams ≤ length result.now.streams }
    {
        &self.desk
    }

    /// What is done to the frames of stream `s`.
    pub fn spec(&self, s: u32) -> Option<&JobSpec>
        ensures { option_copied result
            ≡ option_map (λ stream. stream.state.spec.chain) (slice_get self.now.desk.streams s) }
    {
        self.desk.spec(s)
    }

    /// How many streams there are, those that were admitted too.
    pub(crate) fn streams(&self) -> usize
        ensures count { result ≡ length self.now.desk.streams }
        ensures book { IsBook self.now }
    {
        self.desk.streams()
    }

    /// How many workers there are.
    pub(crate) fn workers(&self) -> usize
        ensures { result ≡ length self.now.desk.workers }
    {
        self.units.len()
    }

    /// Whether no worker holds a lease.
    pub(crate) fn is_free(&self) -> bool
        ensures { IsTrue result ↔ AreFree self.now.desk.workers }
    {
        let Ok(workers) = u32::try_from(self.units.len()) else {
            return false;
        };
        for w in 0..workers {
            if self.desk.lease_of_worker(w).is_ok() {
                return false;
            }
        }
        true
    }

    /// How many units the bands cost that worker `w` settled since the book was opened.
    pub fn units(&self, w: u32) -> Option<u64>
        ensures value { result ≡ slice_get self.now.units w }
        ensures units { IfSome result (λ n.
            n ≡ units_from (opening_of self.now) w (book_transcript self.now)) }
    {
        self.units.get(w as usize).copied()
    }

    /// How many bands worker `w` settled since the book was opened.
    pub fn bands(&self, w: u32) -> u64
        ensures { result ≡ bands_of w self.now.past }
    {
        let mut sum = 0;
        for entry in &self.journal {
            sum += bands_in(w, entry);
        }
        sum
    }
}

/// A book over this desk with this journal, which is empty, and places for the units of its workers.
fn book_over(
    desk: Desk,
    journal: Vec<Entry>,
    limit: usize,
    taken: usize,
    mut units: Vec<u64>,
) -> Book
    requires sound { Sound (desk_state desk) }
    requires empty { journal.items ≡ [] }
    requires capacity { limit ≤ vec_capacity journal }
    requires most { limit ≤ MOST_ENTRIES }
    requires fits { reserved desk ≤ limit }
    requires taken { taken ≡ reserved desk }
    requires units { vec_len units ≡ length desk.workers }
    ensures { result ≡ opened_book desk limit }
{
    units.fill(0);
    Book {
        opening: Snapshot::of(&desk),
        desk,
        journal,
        limit,
        taken,
        units,
        is_ending: false,
    }
}

/// The bands that an entry tells of worker `w`.
fn bands_in(w: u32, entry: &Entry) -> u64
    ensures value { result ≡ act_bands w entry.now.seat entry.now.act }
    ensures fits_u32 { result < 2 ^ 32 }
{
    match (entry.seat, entry.act) {
        (Seat::Worker(worker), Act::Settled(bands, _)) if worker == w => bands as u64,
        _ => 0,
    }
}
