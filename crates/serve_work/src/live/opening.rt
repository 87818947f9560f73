//! How a session begins with its first stream, and what an epoch begins with.
ghost use Rattle.std.specs.Prelude.{◌≡◌, ◌+◌, ◌<◌, ◌≤◌, ◌++◌, List, [], ◌∷◌, IfErr, IfNone, IfOk, IfSome};
ghost use Rattle.std.specs.Prelude.{Some, length, map, vec_len};
ghost use Rattle.std.specs.List.{AllByRecursion};
ghost use Rattle.serve_work.specs.Live.{AllowsRefusal, waiting_of};
ghost use Rattle.serve_core.specs.Setup as setups;
ghost use Rattle.serve_work.specs.History.{EpochValue};
ghost use Rattle.serve_work.specs.Intervals.{HasNoCalls};
ghost use Rattle.serve_work.specs.LiveInside as rules;
ghost use Rattle.serve_work.specs.LiveInside.{HasPlaces, TakesSeat, helds_of, tickets_of};
ghost use Rattle.serve_work.specs.SessionInside.{IsReady, held_at};

use crate::door::Door;
use crate::live::form::Form;
use crate::live::guests::Guest;
use crate::request::{Answer, Request};
use crate::session::room::Room;
use crate::session::turn::{Stream, Turn};
use cbs_account::limits::MOST_STREAMS;
use serve_core::{Refusal as Core, Setup, SetupError, StreamSpec};
use serve_hub::{Epoch, Hub, Refusal, StreamSeat, WorkSeat};
use std::alloc::{AllocError, Global};
use y4m_stream::{Sink, Source, StreamReader};

/// The first stream of a hub that isn't open yet.
#[derive(Drop)]
pub(super) struct FirstStream<R: Source, W: Sink> {
    pub(super) setup: Setup,
    pub(super) ticket: u64,
    pub(super) reader: StreamReader<R>,
    pub(super) writer: W,
}

/// A list of this spec alone.
fn list_of(alloc: Global, spec: StreamSpec) -> Result<Vec<StreamSpec>, AllocError>
    ensures { IfOk result (λ specs. specs.items ≡ spec ∷ []) }
{
    let mut specs = Vec::new(alloc);
    specs.push(spec)?;
    Ok(specs)
}

/// A setup of one stream.
fn setup_of(alloc: Global, form: Form, spec: StreamSpec) -> Result<Setup, Refusal>
    ensures setup { IfOk result (λ setup.
        setup ≡ setups.setup_of form.workers form.quantum (spec ∷ [])) }
    ensures is_setup { IfOk result setups.IsSetup }
    ensures refused { IfErr result (AllowsRefusal spec) }
{
    let Ok(specs) = list_of(alloc, spec) else {
        return Err(Refusal::Core(Core::NoMemory));
    };
    match Setup::new(form.workers, form.quantum, specs) {
        Ok(setup) => Ok(setup),
        Err(fault) => Err(refusal_of(fault)),
    }
}

/// What the fault of a setup is to its only stream.
fn refusal_of(fault: SetupError) -> Refusal
    ensures { result ≡ rules.refusal_of fault }
{
    match fault {
        SetupError::BadLimits => Refusal::Core(Core::BadLimits),
        SetupError::BadBandwidth(_) => Refusal::Core(Core::BadBandwidth),
        SetupError::Overload(_) => Refusal::Core(Core::Overload),
    }
}

/// The setup of a request's stream. A request is answered that is refused.
pub(super) fn set_up<R: Source + Drop, W: Sink + Drop, D: Door<R, W>>(
    alloc: Global,
    form: Form,
    request: Request<R, W>,
    door: &mut D,
) -> Option<FirstStream<R, W>>
    requires waits { (es : List EpochValue)
        × D.stands door.old es (waiting_of W.contents W.failures (length es) request ∷ []) }
    ensures stream { IfSome result (λ stream.
        (stream.setup ≡ setups.setup_of form.workers form.quantum (request.spec ∷ []))
        × (stream.ticket ≡ request.ticket)
        × (stream.reader ≡ request.reader)
        × (stream.writer ≡ request.writer)) }
    ensures is_setup { IfSome result (λ stream. setups.IsSetup stream.setup) }
    ensures waits { IfSome result (λ _. door.new ≡ door.old) }
    ensures answered { IfNone result ((es : List EpochValue)
        → D.stands door.old es (waiting_of W.contents W.failures (length es) request ∷ [])
        → D.stands door.new es []) }
{
    let Request {
        ticket,
        spec,
        reader,
        writer,
    } = request;
    match setup_of(alloc, form, spec) {
        Ok(setup) => Some(FirstStream {
            setup,
            ticket,
            reader,
            writer,
        }),
        Err(refusal) => {
            door.tell(ticket, &mut Some(Answer::Refused(refusal, reader, writer)));
            None
        }
    }
}

/// The memory that an epoch takes beside its hub, for as many streams as there can be.
#[derive(Drop)]
pub(super) struct Hall<L: Epoch, R: Source, W: Sink> {
    pub(super) room: Room<L, R, W>,
    pub(super) tickets: Vec<u64>,
    /// The seats whose streams were told.
    pub(super) idle: Vec<StreamSeat<L>>,
    /// The places for the streams at the epoch's end.
    pub(super) guests: Vec<Option<Guest<R, W>>>,
}

impl<L: Epoch, R: Source + Drop, W: Sink + Drop> Hall<L, R, W> {
    pub(super) fn new(alloc: Global, workers: usize) -> Result<Hall<L, R, W>, AllocError>
        ensures places { IfOk result HasPlaces }
        ensures empty { IfOk result (λ hall. (hall.room.turns.items ≡ []) × (hall.tickets.items ≡ [])
            × (hall.idle.items ≡ [])) }
    {
        Ok(Hall {
            room: Room::new(alloc, MOST_STREAMS, workers)?,
            tickets: Vec::with_capacity(alloc, MOST_STREAMS)?,
            idle: Vec::with_capacity(alloc, MOST_STREAMS)?,
            guests: Vec::with_capacity(alloc, MOST_STREAMS)?,
        })
    }

    /// Seats one stream more.
    pub(super) fn seat(&mut self, seat: StreamSeat<L>, ticket: u64, stream: Stream<R, W>)
        requires places { HasPlaces self.old }
        requires room_for_stream { vec_len self.old.room.turns + vec_len self.old.idle < MOST_STREAMS }
        requires tickets_fit { vec_len self.old.tickets ≤ vec_len self.old.room.turns }
        requires ready { IsReady (held_at seat stream) }
        ensures { TakesSeat ticket (held_at seat stream) self.old self.new }
    {
        self.room.turns.push_reserved(Turn::new(seat, stream));
        self.tickets.push_reserved(ticket);
    }

    /// Seats the stream of a seat, or puts a seat without one to the idle ones.
    fn seat_one(&mut self, seat: StreamSeat<L>, guest: Option<Guest<R, W>>)
        requires places { HasPlaces self.old }
        requires room_for_stream { vec_len self.old.room.turns + vec_len self.old.idle < MOST_STREAMS }
        requires tickets_fit { vec_len self.old.tickets ≤ vec_len self.old.room.turns }
        requires ready { AllByRecursion IsReady (helds_of (seat ∷ []) (guest ∷ [])) }
        requires idle { AllByRecursion HasNoCalls self.old.idle.items }
        requires no_calls { HasNoCalls seat }
        ensures places { HasPlaces self.new }
        ensures turns { self.new.room.turns.items ≡ self.old.room.turns.items
            ++ map Some (helds_of (seat ∷ []) (guest ∷ [])) }
        ensures tickets { self.new.tickets.items ≡ self.old.tickets.items
            ++ tickets_of (seat ∷ []) (guest ∷ []) }
        ensures one_more { vec_len self.new.room.turns + vec_len self.new.idle
            ≤ vec_len self.old.room.turns + vec_len self.old.idle + 1 }
        ensures tickets_fit { vec_len self.new.tickets ≤ vec_len self.new.room.turns }
        ensures idle { AllByRecursion HasNoCalls self.new.idle.items }
    {
        match guest {
            Some(guest) => {
                let Guest { ticket, stream } = guest;
                self.seat(seat, ticket, stream);
            }
            None => self.idle.push_reserved(seat),
        }
    }

    /// Seats the streams in their seats of this epoch. A seat without one is idle.
    pub(super) fn seat_all(&mut self, seats: Vec<StreamSeat<L>>, guests: Vec<Option<Guest<R, W>>>)
        requires places { HasPlaces self.old }
        requires empty { (self.old.room.turns.items ≡ []) × (self.old.tickets.items ≡ [])
            × (self.old.idle.items ≡ []) }
        requires few_seats { vec_len seats ≤ MOST_STREAMS }
        requires ready { AllByRecursion IsReady (helds_of seats.items guests.items) }
        requires no_calls { AllByRecursion HasNoCalls seats.items }
        ensures places { HasPlaces self.new }
        ensures turns { self.new.room.turns.items ≡ map Some (helds_of seats.items guests.items) }
        ensures tickets { self.new.tickets.items ≡ tickets_of seats.items guests.items }
        ensures turns_within { vec_len self.new.room.turns + vec_len self.new.idle ≤ vec_len seats }
        ensures idle { AllByRecursion HasNoCalls self.new.idle.items }
    {
        for (seat, guest) in seats.into_iter().zip(guests) {
            self.seat_one(seat, guest);
        }
    }
}

/// An open hub with the streams that are served in its epoch.
#[derive(Drop)]
pub(super) struct Opening<L: Epoch, R: Source, W: Sink> {
    pub(super) hub: Hub<L>,
    pub(super) work_seats: Vec<WorkSeat<L>>,
    pub(super) hall: Hall<L, R, W>,
}
