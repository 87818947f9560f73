//! A session: streams that clients serve, each by a thread, and workers beside them.
ghost use Rattle.std.specs.Prelude.{ℕ, ◌≡◌, ◌↔◌, List, [], IfErr, IfOk, IsErrOf, OnErr};
ghost use Rattle.std.specs.Prelude.{OnOk, length};
ghost use Rattle.serve_hub.specs.Books.{IsLimit};
ghost use Rattle.serve_hub.specs.Seats.{opened_streams};
ghost use Rattle.serve_work.specs.History.{EpochValue, terms_with};
ghost use Rattle.serve_work.specs.Sessions.{AreInputs, AreServed, GivesBack, IsSession, IsSessionOf};
ghost use Rattle.serve_work.specs.Sessions.{IsToldAtEnds, fault_of, starts_of};

mod epochs;
mod interval;
mod opening;
pub(crate) mod places;
pub(crate) mod room;
pub(crate) mod threads;
pub(crate) mod turn;
mod unended;
mod untold;

use crate::chronicle::Chronicle;
use crate::setting::Setting;
use epochs::{begin, go_on};
use interval::report;
use serve_client::{Clock, Gate, Served};
use serve_core::Setup;
use serve_hub::HubError;
use serve_hub::limits::MOST_SEATS;
use std::alloc::{AllocError, Global};
use std::marker::Brand;
use std::sync::Wait;
use std::sync::ledger::Blank;
use std::thread::Threads;
use thiserror::Error;
pub use turn::Stream;
pub use unended::Unended;
use untold::{HasTerms, Untold};
use y4m_stream::{Sink, Source, StreamReader};

/// Why a session tells nothing of its streams.
#[derive(Clone, Copy, Debug, PartialEq, Eq, Error)]
pub enum SessionFault {
    /// The journal's limit isn't 16, or where streams come and go 130, to 1,048,576, or not at least the
    /// number of streams and 2. No frame was offered.
    #[error("BadLimit")]
    BadLimit,
    /// Memory was refused, or a worker's thread, in the first epoch. No frame was offered. A session whose
    /// streams come and go never ends so: it tells a stream for which there is no memory.
    #[error("NoMemory")]
    NoMemory,
    /// The journal isn't what the seats and the hub tell, isn't full where a stream waits, or has a lease
    /// that wasn't settled with its whole grant; or a stream that came isn't served with what its request
    /// asked for.
    #[error("Mismatch")]
    Mismatch,
}

impl From<AllocError> for SessionFault {
    ghost use Rattle.serve_work.specs.declared.session.SessionFault.{SessionFault};

    ghost from_gives = { λ _ e. e ≡ SessionFault.NoMemory };

    fn from(_: AllocError) -> SessionFault {
        SessionFault::NoMemory
    }
}

impl From<HubError> for SessionFault {
    ghost use Rattle.serve_hub.specs.declared.error.HubError.{HubError};
    ghost use Rattle.serve_work.specs.declared.session.SessionFault.{SessionFault};

    ghost from_gives = { λ refused e. (e ≡ SessionFault.BadLimit) ↔ (refused ≡ HubError.BadLimit) };

    fn from(refused: HubError) -> SessionFault {
        match refused {
            HubError::BadLimit => SessionFault::BadLimit,
            HubError::NoMemory => SessionFault::NoMemory,
        }
    }
}

/// Serves each stream of the setup from its reader to its writer, and tells what became of each, in order.
///
/// The session goes from epoch to epoch, each with a journal of at most `limit` entries; an epoch ends
/// where all streams are over, or where its journal is full. The workers start first. Each client has a
/// thread, or runs on the one that asked for it where it is refused. In the first epoch all that may be
/// refused is taken before a frame is offered, but for what the clients take themselves. In a later one a
/// worker whose thread is refused doesn't work. Where there is no memory for a further epoch, or no worker
/// starts in it, the session is cut, and each stream that isn't over is given up. It stops for the fault that
/// it keeps, else for that of its image in hand, which is written to its end, and else for want of memory.
pub fn serve_session<
    R: Source + Drop + Send,
    W: Sink + Drop + Send,
    G: Gate + Sync,
    K: Clock + Sync,
    T: Threads + Wait + Sync,
>(
    rt: &T,
    alloc: Global,
    setup: Setup,
    inputs: Vec<(StreamReader<R>, W)>,
    limit: usize,
    gate: &G,
    clock: &K,
) -> Result<Vec<Served<R, W>>, SessionFault>
    requires inputs { AreInputs setup.streams inputs.items }
    ensures streams { IfOk result (λ served. AreServed
        (starts_of W.contents W.failures (opened_streams limit 0 setup.streams) inputs.items)
        served.items) }
    ensures session { IfOk result (λ served. IsSession (K.gives clock.now) setup limit
        (starts_of W.contents W.failures (opened_streams limit 0 setup.streams) inputs.items)
        served.items) }
    ensures bad_limit { IsErrOf result SessionFault.BadLimit ↔ ¬ IsLimit (length setup.streams) limit }
{
    match serve_session_or_return(rt, alloc, setup, inputs, limit, gate, clock) {
        Ok(served) => Ok(served),
        Err(unended) => Err(unended.fault()),
    }
}

/// Serves as [`serve_session`] does. Where no frame was offered, since the limit is none, or memory or a
/// worker's thread was refused in the first epoch, the inputs come back as they were.
pub fn serve_session_or_return<
    R: Source + Drop + Send,
    W: Sink + Drop + Send,
    G: Gate + Sync,
    K: Clock + Sync,
    T: Threads + Wait + Sync,
>(
    rt: &T,
    alloc: Global,
    setup: Setup,
    inputs: Vec<(StreamReader<R>, W)>,
    limit: usize,
    gate: &G,
    clock: &K,
) -> Result<Vec<Served<R, W>>, Unended<R, W>>
    requires inputs { AreInputs setup.streams inputs.items }
    ensures streams { IfOk result (λ served. AreServed
        (starts_of W.contents W.failures (opened_streams limit 0 setup.streams) inputs.items)
        served.items) }
    ensures session { IfOk result (λ served. IsSession (K.gives clock.now) setup limit
        (starts_of W.contents W.failures (opened_streams limit 0 setup.streams) inputs.items)
        served.items) }
    ensures limit { OnOk result (IsLimit (length setup.streams) limit) }
    ensures bad_limit { IfErr result (λ unended.
        (fault_of unended ≡ SessionFault.BadLimit) ↔ ¬ IsLimit (length setup.streams) limit) }
    ensures returns_inputs { IfErr result (GivesBack W.contents W.failures inputs.items) }
{
    serve_untold::<R, W, G, K, T, Brand>(rt, alloc, setup, inputs, limit, gate, clock)
}

/// The same, by a chronicle that keeps nothing, whose type tells what is served by.
fn serve_untold<
    R: Source + Drop + Send,
    W: Sink + Drop + Send,
    G: Gate + Sync,
    K: Clock + Sync,
    T: Threads + Wait + Sync,
    L: HasTerms,
>(
    rt: &T,
    alloc: Global,
    setup: Setup,
    inputs: Vec<(StreamReader<R>, W)>,
    limit: usize,
    gate: &G,
    clock: &K,
) -> Result<Vec<Served<R, W>>, Unended<R, W>>
    requires inputs { AreInputs setup.streams inputs.items }
    requires terms { terms_with setup limit ≡ L.terms }
    ensures streams { IfOk result (λ served. AreServed
        (starts_of W.contents W.failures (opened_streams limit 0 setup.streams) inputs.items)
        served.items) }
    ensures session { IfOk result (λ served. IsSession (K.gives clock.now) setup limit
        (starts_of W.contents W.failures (opened_streams limit 0 setup.streams) inputs.items)
        served.items) }
    ensures limit { OnOk result (IsLimit (length setup.streams) limit) }
    ensures bad_limit { IfErr result (λ unended.
        (fault_of unended ≡ SessionFault.BadLimit) ↔ ¬ IsLimit (length setup.streams) limit) }
    ensures returns_inputs { IfErr result (GivesBack W.contents W.failures inputs.items) }
{
    let mut untold: Untold<L> = Untold::new();
    serve_session_told(rt, alloc, setup, inputs, limit, &mut untold, gate, clock)
}

/// Serves as [`serve_session_or_return`] does, and tells the chronicle of each epoch where it ends. No stream of
/// it has a ticket. The clock stays between two epochs, and no stream is taken out.
pub fn serve_session_told<
    R: Source + Drop + Send,
    W: Sink + Drop + Send,
    C: Chronicle,
    G: Gate + Sync,
    K: Clock + Sync,
    T: Threads + Wait + Sync,
>(
    rt: &T,
    alloc: Global,
    setup: Setup,
    inputs: Vec<(StreamReader<R>, W)>,
    limit: usize,
    chronicle: &mut C,
    gate: &G,
    clock: &K,
) -> Result<Vec<Served<R, W>>, Unended<R, W>>
    requires inputs { AreInputs setup.streams inputs.items }
    requires terms { terms_with setup limit ≡ C.terms }
    requires times { (at : ℕ) → K.gives clock.now at → C.times at }
    requires untold { C.stands chronicle.old [] [] }
    ensures streams { IfOk result (λ served. AreServed
        (starts_of W.contents W.failures (opened_streams limit 0 setup.streams) inputs.items)
        served.items) }
    ensures session { IfOk result (λ served. (epochs : List EpochValue) × C.stands chronicle.new epochs []
        × IsSessionOf (K.gives clock.now) setup limit epochs
        (starts_of W.contents W.failures (opened_streams limit 0 setup.streams) inputs.items)
        served.items) }
    ensures limit { OnOk result (IsLimit (length setup.streams) limit) }
    ensures bad_limit { IfErr result (λ unended.
        (fault_of unended ≡ SessionFault.BadLimit) ↔ ¬ IsLimit (length setup.streams) limit) }
    ensures returns_inputs { IfErr result (GivesBack W.contents W.failures inputs.items) }
    ensures told { OnErr result (IsToldAtEnds (C.stands chronicle.new)) }
{
    setup.recall_limits();
    let blank = Blank::new(MOST_SEATS);
    let setting = Setting {
        rt,
        alloc,
        gate,
        clock,
    };
    let interval = begin::<Brand, R, W, C, G, K, T>(
        setting, blank, setup, inputs, limit, chronicle,
    )?;
    match go_on(setting, interval, chronicle) {
        Ok(interval) => Ok(report(interval)),
        Err(_) => Err(Unended::Mismatch),
    }
}
