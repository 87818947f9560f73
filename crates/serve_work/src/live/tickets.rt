//! Whose stream each number of an epoch was.
ghost use Rattle.std.specs.Prelude.{◌≡◌, ◌<◌, All, None, replicate, slice_get};
ghost use Rattle.serve_work.specs.LiveInside.{with_ticket_of, with_tickets};

use crate::live::guests::Guest;
use cbs_account::limits::MOST_STREAMS;
use serve_hub::Ended;
use y4m_stream::{Sink, Source};

/// The tickets of the requests by the numbers of their streams. There is none of a stream that was told.
pub(super) fn tickets_of<R: Source, W: Sink>(
    ended: &Ended,
    guests: &Vec<Option<Guest<R, W>>>,
) -> [Option<u64>; MOST_STREAMS]
    requires within { All (λ rest. rest.number < MOST_STREAMS) ended.now.streams }
    ensures { result ≡ with_tickets ended.now.streams guests.now.items (replicate MOST_STREAMS None) }
{
    let mut tickets = [None; MOST_STREAMS];
    for place in 0..guests.len() {
        put_ticket(&mut tickets, ended, place, &guests[place]);
    }
    tickets
}

/// Puts the ticket of the stream whose seat was handed over at this place, unless it was told, to its number.
fn put_ticket<R: Source, W: Sink>(
    tickets: &mut [Option<u64>; MOST_STREAMS],
    ended: &Ended,
    place: usize,
    guest: &Option<Guest<R, W>>,
)
    requires within { All (λ rest. rest.number < MOST_STREAMS) ended.now.streams }
    ensures { tickets.new ≡ with_ticket_of (slice_get ended.now.streams place) guest.now tickets.old }
{
    let Some(guest) = guest else {
        return;
    };
    if let Some(number) = ended.number(place) {
        tickets[number as usize] = Some(guest.ticket);
    }
}
