//! A judge of journals: whether what they tell is legal by the rules of `serve_core`. It needs no frames.
//!
//! A journal of `serve_hub` tells the accepted calls, by an [`Entry`] each. The judge is a [`Tally`] of the
//! setup, with the specs of the streams: [`check`] says of one entry whether it is right, and [`check_all`]
//! of a list whether all of them are, and else which is the first that isn't. [`text`] has the lines of
//! entries, and [`laws`] what follows for the journal of a book.
//!
//! What is accepted:
//!
//! - an offer of the next number, at a stream that isn't closed and has room, with a moment only where that
//!   is later than the clock;
//! - a lease, by a worker that holds none, of the ready stream with the earliest deadline, of equal ones that
//!   with the lowest number: its first unfinished frame, for exactly as many bands as quantum and budget
//!   grant;
//! - a settlement of at most these bands, as the end of the frame exactly where all its bands are done;
//! - a close of a stream that isn't closed, and a collection of its oldest image, by its number;
//! - an admission of the next stream, where its share fits beside those that are held.
//!
//! Whether moments, bands or images were real, no journal shows.
#![tactic(auto)]

ghost use Rattle.std.specs.Prelude.{ℕ, ◌≡◌, IfErr, IfOk, List, OnErr, OnOk, reverse};
ghost use Rattle.std.specs.List.{Any};
ghost use Rattle.serve_core.specs.Setup.{StreamSpec as Spec};
ghost use Rattle.serve_hub.specs.declared.entry.Act.TheVariants as acts;
ghost use Rattle.serve_hub.specs.declared.entry.Seat.TheVariants as seats;
ghost use Rattle.serve_hub.specs.Journal.{IsJournal, entry_of};
ghost use Rattle.serve_audit.specs.Audit.{Checked, IsHistory, IsFirstWrong};
ghost use Rattle.serve_audit.specs.declared.AuditFault.TheVariants as faults;

mod calls;
pub mod laws;
pub mod text;

use serve_core::{StreamSpec, Tally};
use serve_hub::{Act, Entry, Seat};
use std::alloc::AllocError;
use thiserror::Error;

/// Why a history isn't accepted.
#[derive(Clone, Copy, Debug, PartialEq, Eq, Error)]
pub enum AuditFault {
    /// The entry at this place, counted from 0, isn't right. All before it are.
    #[error("Illegal")]
    Illegal(usize),
    /// There was no memory for a stream that is admitted. Nothing is said of the history.
    #[error("NoMemory")]
    NoMemory,
}

/// Whether an entry is right in the tally's state, where the streams have these specs, also those that are
/// admitted later. Where it is, the tally goes on. Where it isn't, nothing is said of the tally: some bands
/// of a settlement may be done. Only an admission takes memory, and without it the tally stays as it is.
pub fn check(tally: &mut Tally, specs: &[StreamSpec], entry: Entry) -> Result<bool, AllocError>
    ensures checked { IfOk result (λ answer. Checked specs.now tally.old entry answer tally.new) }
    ensures memory { OnErr result (entry.act ≡ acts.Admitted) }
    ensures same { OnErr result (tally.new ≡ tally.old) }
{
    match entry.seat {
        Seat::Stream(s) => check_stream(tally, specs, s, entry.act),
        Seat::Worker(w) => Ok(check_worker(tally, w, entry.act)),
    }
}

/// Whether an act of stream `s` is right.
fn check_stream(
    tally: &mut Tally,
    specs: &[StreamSpec],
    s: u32,
    act: Act,
) -> Result<bool, AllocError>
    ensures checked { IfOk result (λ answer.
        Checked specs.now tally.old (entry_of (seats.Stream s) act) answer tally.new) }
    ensures memory { OnErr result (act ≡ acts.Admitted) }
    ensures same { OnErr result (tally.new ≡ tally.old) }
{
    match act {
        Act::Offered(tick, number) => Ok(calls::offer(tally, s, tick, number)),
        Act::Closed => Ok(tally.close(s)),
        Act::Collected(number) => Ok(calls::collect(tally, s, number)),
        Act::Admitted => calls::admit(tally, specs, s),
        Act::Leased(_, _, _) => Ok(false),
        Act::Settled(_, _) => Ok(false),
    }
}

/// Whether an act of worker `w` is right.
fn check_worker(tally: &mut Tally, w: u32, act: Act) -> bool
    ensures { (specs : List Spec) → Checked specs tally.old (entry_of (seats.Worker w) act) result tally.new }
{
    match act {
        Act::Leased(s, number, grant) => tally.lease(w, s, number, grant),
        Act::Settled(bands, is_finished) => calls::settle(tally, w, bands, is_finished),
        Act::Offered(_, _) => false,
        Act::Closed => false,
        Act::Collected(_) => false,
        Act::Admitted => false,
    }
}

/// Whether a list of entries, the oldest first, is a legal history from the tally's state on, where the
/// streams have these specs, also those that are admitted later. The tally ends where that leads.
pub fn check_all(
    tally: &mut Tally,
    specs: &[StreamSpec],
    entries: &[Entry],
) -> Result<(), AuditFault>
    ensures legal { OnOk result (IsJournal specs.now tally.old (reverse entries.now) tally.new) }
    ensures wrong { IfErr result (λ e. (i : ℕ) → e ≡ faults.Illegal i
        → IsFirstWrong specs.now tally.old entries.now i) }
    ensures exact { IfErr result (λ e. (i : ℕ) → e ≡ faults.Illegal i
        → ¬ IsHistory specs.now tally.old entries.now) }
    ensures memory { IfErr result (λ e. e ≡ faults.NoMemory
        → Any (λ entry. entry.act ≡ acts.Admitted) entries.now) }
{
    for i in 0..entries.len() {
        match check(tally, specs, entries[i]) {
            Err(_) => return Err(AuditFault::NoMemory),
            Ok(false) => return Err(AuditFault::Illegal(i)),
            Ok(true) => {}
        }
    }
    Ok(())
}
