//! What an epoch begins with.
ghost use Rattle.std.specs.Prelude.{◌≡◌, ◌≤◌, ◌↔◌, List, [], IfErr, IfOk, IsErrOf, IsFalse, IsTrue, OnOk};
ghost use Rattle.std.specs.Prelude.{length, map, vec_capacity};
ghost use Rattle.serve_core.specs.Schedule.{opened_schedule};
ghost use Rattle.serve_hub.specs.Books.{IsLimit};
ghost use Rattle.serve_hub.specs.Seats.{hub_of, opened_streams};
ghost use Rattle.serve_work.specs.History.{EpochValue};
ghost use Rattle.serve_work.specs.Intervals.{Beginning, CanBegin, CanName, IsBetween, IsRoomFor};
ghost use Rattle.serve_work.specs.Intervals.{beginning_of};
ghost use Rattle.serve_work.specs.Sessions.{AreInputs, GivesBack, fault_of, unread};

use super::SessionFault;
use super::interval::Interval;
use super::room::Room;
use super::turn::{Stream, streams_of};
use super::unended::Unended;
use serve_client::Served;
use serve_core::Setup;
use serve_hub::{Epoch, Hub, Opened};
use std::alloc::Global;
use std::sync::ledger::Blank;
use y4m_stream::{Sink, Source, StreamReader};

/// An open hub, the streams that go on in its epoch, and the memory for all that comes of it.
#[derive(Drop)]
pub(super) struct Opening<L: Epoch, R: Source, W: Sink> {
    pub(super) opened: Opened<L>,
    pub(super) room: Room<L, R, W>,
    pub(super) streams: Vec<Stream<R, W>>,
    pub(super) served: Vec<Served<R, W>>,
}

/// The hub of a session's first epoch, and the lists of so many streams.
type Lists<L, R, W> = (Opened<L>, Room<L, R, W>, Vec<Served<R, W>>);

/// Takes the memory of a session's first epoch, but for the streams.
fn lists<L: Epoch, R: Source + Drop, W: Sink + Drop>(
    alloc: Global,
    blank: Blank,
    setup: Setup,
    streams: usize,
    limit: usize,
) -> Result<Lists<L, R, W>, SessionFault>
    requires blank { CanName blank.name blank.parts (opened_schedule setup) L.name L.parts L.opening }
    ensures hub { IfOk result (λ made.
        made.0.0 ≡ hub_of (length setup.streams) setup.workers limit) }
    ensures seats { IfOk result (λ made. made.0.1.items ≡ opened_streams limit 0 setup.streams) }
    ensures room { IfOk result (λ made. IsRoomFor streams made.1) }
    ensures untold { IfOk result (λ made. made.2.items ≡ []) }
    ensures places { IfOk result (λ made. streams ≤ vec_capacity made.2) }
    ensures limit { OnOk result (IsLimit (length setup.streams) limit) }
    ensures bad_limit { IsErrOf result SessionFault.BadLimit ↔ ¬ IsLimit (length setup.streams) limit }
{
    let opened = Hub::<L>::new(alloc, blank, setup, limit)?;
    let served = Vec::with_capacity(alloc, streams)?;
    let room = Room::<L, R, W>::new(alloc, streams, opened.2.len())?;
    Ok((opened, room, served))
}

/// Opens the first epoch of a session, or gives the inputs back.
pub(super) fn open_first<L: Epoch, R: Source + Drop, W: Sink + Drop>(
    alloc: Global,
    blank: Blank,
    setup: Setup,
    inputs: Vec<(StreamReader<R>, W)>,
    limit: usize,
) -> Result<Opening<L, R, W>, Unended<R, W>>
    requires blank { CanName blank.name blank.parts (opened_schedule setup) L.name L.parts L.opening }
    requires inputs { AreInputs setup.streams inputs.items }
    ensures can_begin { IfOk result (CanBegin
        (beginning_of W.contents W.failures setup limit inputs.items) [] L.opening) }
    ensures unread { IfOk result (λ opening.
        opening.streams.items ≡ map (unread W.contents W.failures) inputs.items) }
    ensures limit { OnOk result (IsLimit (length setup.streams) limit) }
    ensures bad_limit { IfErr result (λ e.
        (fault_of e ≡ SessionFault.BadLimit) ↔ ¬ IsLimit (length setup.streams) limit) }
    ensures returns_inputs { IfErr result (GivesBack W.contents W.failures inputs.items) }
{
    let (opened, room, served) = match lists(alloc, blank, setup, inputs.len(), limit) {
        Ok(lists) => lists,
        Err(fault) => return Err(Unended::Unopened(fault, inputs)),
    };
    match streams_of(alloc, inputs) {
        Err(inputs) => Err(Unended::Unopened(SessionFault::NoMemory, inputs)),
        Ok(streams) => Ok(Opening {
            opened,
            room,
            streams,
            served,
        }),
    }
}

/// Opens the next epoch of a session, whose journal has the limit of the last one's. Where none can be
/// opened, the session comes back, and is cut.
pub(super) fn open_next<L: Epoch, R: Source + Drop, W: Sink + Drop>(
    alloc: Global,
    blank: Blank,
    interval: Interval<R, W>,
) -> Result<Opening<L, R, W>, Interval<R, W>>
    requires blank { CanName blank.name blank.parts interval.ended.book.desk L.name L.parts L.opening }
    requires waits { IsTrue interval.waits }
    requires goes_on { IsFalse interval.is_cut }
    ensures can_begin { (b : Beginning) (epochs : List EpochValue) → IsBetween b epochs interval
        → IfOk result (CanBegin b epochs L.opening) }
    ensures still_between { (b : Beginning) (epochs : List EpochValue) → IsBetween b epochs interval
        → IfErr result (IsBetween b epochs) }
    ensures streams { IfOk result (λ opening. opening.streams ≡ interval.streams) }
    ensures same { IfErr result (λ back. back.streams ≡ interval.streams) }
    ensures waits { IfErr result (λ back. back.waits ≡ interval.waits) }
    ensures cut { IfErr result (λ back. IsTrue back.is_cut) }
{
    let Interval {
        ended,
        streams,
        served,
        workers,
        waits,
        ..
    } = interval;
    let Ok(room) = Room::<L, R, W>::new(alloc, streams.len(), workers) else {
        return Err(Interval {
            ended,
            streams,
            served,
            workers,
            waits,
            is_cut: true,
        });
    };
    let limit = ended.limit();
    match Hub::<L>::reopen(alloc, blank, ended, limit) {
        Err(refused) => Err(Interval {
            ended: refused.ended,
            streams,
            served,
            workers,
            waits,
            is_cut: true,
        }),
        Ok(next) => Ok(Opening {
            opened: (next.hub, next.streams, next.workers),
            room,
            streams,
            served,
        }),
    }
}
