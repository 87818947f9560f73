//! What the streams of an epoch hold of the workers where it ended.
ghost use Rattle.std.specs.Prelude.{ℕ, ◌≡◌, ◌<◌, All, MatchOption, None, Some, replicate, slice_get};
ghost use Rattle.std.specs.Option.{option_map};
ghost use Rattle.cbs_account.specs.declared.limits.TheConstants.{MOST_STREAMS};
ghost use Rattle.serve_report.specs.Holdings.{IsNotUnder, holding_in, noted_at};

use super::answer::Holding;
use cbs_account::limits::MOST_STREAMS;
use serve_hub::Ended;

/// A ticket, and what its stream holds.
type Noted = Option<(u64, Holding)>;

/// What streams hold, by their numbers, with their tickets.
#[derive(Drop)]
pub struct Holdings {
    noted: [Noted; MOST_STREAMS],
}

impl Holdings {
    /// Of no stream.
    pub fn new() -> Holdings
        ensures { result.noted ≡ replicate MOST_STREAMS None }
    {
        Holdings {
            noted: [None; MOST_STREAMS],
        }
    }

    /// Of the streams of an epoch that ended, whose tickets are told by their numbers.
    pub fn of(ended: &Ended, tickets: &[Option<u64>]) -> Holdings
        ensures { (number : ℕ) → number < MOST_STREAMS → slice_get result.noted number
            ≡ Some (noted_at (slice_get tickets.now number) (slice_get ended.now.book.desk.streams number)) }
    {
        let mut noted = [None; MOST_STREAMS];
        for number in 0..MOST_STREAMS {
            noted[number] = noted_of(ended, tickets, number);
        }
        Holdings { noted }
    }

    /// What the stream of a ticket holds.
    pub fn under(&self, ticket: u64) -> Option<Holding>
        ensures { MatchOption result (All (IsNotUnder ticket) self.now.noted)
            (λ holding. (number : ℕ) × (slice_get self.now.noted number ≡ Some (Some (ticket, holding)))) }
    {
        for noted in &self.noted {
            if let Some(holding) = holding_under(noted, ticket) {
                return Some(holding);
            }
        }
        None
    }
}

/// What is noted, if that is under this ticket.
fn holding_under(noted: &Noted, ticket: u64) -> Option<Holding>
    ensures { MatchOption result (IsNotUnder ticket noted.now)
        (λ holding. noted.now ≡ Some (ticket, holding)) }
{
    match *noted {
        Some((one, holding)) if one == ticket => Some(holding),
        _ => None,
    }
}

/// What is noted of the stream of this number.
fn noted_of(ended: &Ended, tickets: &[Option<u64>], number: usize) -> Noted
    requires { number < MOST_STREAMS }
    ensures { result ≡ noted_at (slice_get tickets.now number)
        (slice_get ended.now.book.desk.streams number) }
{
    let Some(Some(ticket)) = tickets.get(number) else {
        return None;
    };
    let holding = holding_of(ended, number as u32)?;
    Some((*ticket, holding))
}

/// What the stream of this number holds where its epoch ended.
fn holding_of(ended: &Ended, number: u32) -> Option<Holding>
    ensures { result ≡ option_map holding_in (slice_get ended.now.book.desk.streams number) }
{
    let spec = ended.spec(number)?;
    let (_, until) = ended.account(number)?;
    Some(Holding {
        q: spec.maximum(),
        t: spec.period(),
        until,
    })
}
