//! Hubs that threads call at once.
ghost use Rattle.std.specs.Prelude.{◌≡◌};
ghost use Rattle.serve_core.specs.Schedule.{opened_schedule};
ghost use Rattle.std.specs.Thread.{IsSend, IsSync};

use super::clients::{Client, Frames};
use super::ends::reopened_of;
use super::seated::{Seated, seated_of};
use super::{PLAIN, Served, same, same_at, setup_of, stepped};
use serve_core::Setup;
use serve_hub::{Ended, Epoch, Hub, LeaseRefused, Refusal, StreamSeat, WorkSeat};
use std::alloc::Global;
use std::marker::Brand;
use std::process::Abort;
use std::sync::Wait;
use std::sync::ledger::Blank;
use std::test::Fail;
use std::thread;
use std::thread::Threads;

/// What threads do with a hub.
#[derive(Clone, Copy)]
pub(super) struct Plan {
    pub(super) streams: u32,
    pub(super) workers: u64,
    /// How many frames each stream has.
    pub(super) frames: u64,
    /// After how many settlements the first worker stops.
    pub(super) stop: u64,
    /// The most entries of the journal.
    pub(super) limit: usize,
    /// Whether clients collect what comes soon before they offer a frame.
    pub(super) is_soon: bool,
    /// The most frames that a stream may have under way.
    pub(super) most: usize,
    /// How each client is to end, and how many images it is to have then, where that is known.
    pub(super) outcome: Result<(), Refusal>,
    pub(super) delivered: Option<u64>,
}

/// A sixteenth of a worker.
const LIGHT: Served<'static> = Served {
    account: (1, 16),
    ..PLAIN
};

impl Plan {
    /// All frames are served, and the journal doesn't fill.
    pub(super) fn whole(streams: u32, workers: u64, frames: u64) -> Plan {
        Plan {
            streams,
            workers,
            frames,
            stop: u64::MAX,
            limit: 10_000,
            is_soon: false,
            most: usize::MAX,
            outcome: Ok(()),
            delivered: Some(frames),
        }
    }

    fn setup(self, alloc: Global) -> Result<Setup, Fail> {
        setup_of(
            alloc,
            self.workers,
            &vec![in alloc; LIGHT; self.streams as usize]?,
        )
    }
}

/// As many frames as a client offers before it collects: it passes also where no thread is granted.
#[test]
fn two_streams_and_two_workers(rt: HostRuntime) -> Result<(), Fail> {
    serve_whole(&rt, rt.alloc(), Plan::whole(2, 2, 4))
}

/// 2,000 frames.
#[test]
fn sixteen_streams_and_eight_workers(rt: HostRuntime) -> Result<(), Fail> {
    serve_whole(&rt, rt.alloc(), Plan::whole(16, 8, 125))
}

/// 2,000 frames each time. The other workers do what the first leaves.
#[test]
fn a_worker_stops_early(rt: HostRuntime) -> Result<(), Fail> {
    for stop in 0..21 {
        let plan = Plan {
            stop,
            ..Plan::whole(16, 8, 125)
        };
        serve_whole(&rt, rt.alloc(), plan)?;
    }
    Ok(())
}

/// No worker leases in the first epoch, whose journal is full of offers and closes. The second serves them.
#[test]
fn sixteen_streams_go_on_in_another_epoch(rt: HostRuntime) -> Result<(), Fail> {
    let alloc = rt.alloc();
    let plan = Plan {
        limit: 80,
        delivered: Some(0),
        ..Plan::whole(16, 1, 4)
    };
    let setup = plan.setup(alloc)?;
    let frames = Frames::of_streams(alloc, 16)?;
    let ended = offered_all::<Brand, _>(&rt, alloc, Blank::new(80), setup, frames, plan)?;
    let frames = Frames::of_streams(alloc, 16)?;
    let plan = Plan {
        limit: 192,
        ..Plan::whole(16, 1, 4)
    };
    let ended = go_on::<Brand, _>(&rt, alloc, Blank::new(80), ended, frames, plan)?;
    same(&rt, (ended.journal().len(), ended.bands(0)), (192, 64));
    Ok(())
}

/// An epoch in which all frames are offered, and nobody waits for an image.
fn offered_all<L: Epoch + Send + Sync, R: Threads + Wait + Abort + Sync>(
    rt: &R,
    alloc: Global,
    blank: Blank,
    setup: Setup,
    frames: Vec<Frames>,
    plan: Plan,
) -> Result<Ended, Fail>
    requires name { blank.name ≡ L.name }
    requires parts { blank.parts ≡ L.parts }
    requires enough { blank.parts ≡ 80 }
    requires opening { opened_schedule setup ≡ L.opening }
{
    let Seated {
        owner,
        streams,
        workers,
    } = seated_of::<L>(alloc, blank, setup, plan.limit)?;
    let clients = clients_of(rt, alloc, streams, frames, plan);
    let clients = feed_each(rt, owner.hub(), clients, plan.frames);
    let streams = seats_of(rt, alloc, clients, plan);
    Ok(Seated {
        owner,
        streams,
        workers,
    }
    .ended(rt))
}

/// The next epoch, in which each frame is leased, settled and collected.
fn go_on<L: Epoch + Send + Sync, R: Threads + Wait + Abort + Sync>(
    rt: &R,
    alloc: Global,
    blank: Blank,
    ended: Ended,
    frames: Vec<Frames>,
    plan: Plan,
) -> Result<Ended, Fail>
    requires name { blank.name ≡ L.name }
    requires parts { blank.parts ≡ L.parts }
    requires enough { blank.parts ≡ 80 }
    requires opening { ended.book.desk ≡ L.opening }
{
    let reopened = reopened_of::<L>(alloc, blank, ended, plan.limit)?;
    same(rt, reopened.journal.len(), 80);
    let seated = served(rt, alloc, Seated::again(reopened), frames, plan);
    Ok(seated.ended(rt))
}

/// Serves the frames of all streams by threads, and compares the end.
pub(super) fn serve_whole<R: Threads + Wait + Abort + Sync>(
    rt: &R,
    alloc: Global,
    plan: Plan,
) -> Result<(), Fail> {
    let ended = serve(rt, alloc, plan)?;
    check(rt, &ended, plan);
    Ok(())
}

/// The end of a hub whose streams were served by threads.
pub(super) fn serve<R: Threads + Wait + Abort + Sync>(
    rt: &R,
    alloc: Global,
    plan: Plan,
) -> Result<Ended, Fail> {
    let setup = plan.setup(alloc)?;
    let frames = Frames::of_streams(alloc, plan.streams)?;
    session::<Brand, R>(rt, alloc, Blank::new(80), setup, frames, plan)
}

fn session<L: Epoch + Send + Sync, R: Threads + Wait + Abort + Sync>(
    rt: &R,
    alloc: Global,
    blank: Blank,
    setup: Setup,
    frames: Vec<Frames>,
    plan: Plan,
) -> Result<Ended, Fail>
    requires name { blank.name ≡ L.name }
    requires parts { blank.parts ≡ L.parts }
    requires enough { blank.parts ≡ 80 }
    requires opening { opened_schedule setup ≡ L.opening }
{
    let seated = seated_of::<L>(alloc, blank, setup, plan.limit)?;
    let seated = served(rt, alloc, seated, frames, plan);
    same(rt, seated.owner.hub().is_full(rt), plan.outcome.is_err());
    Ok(seated.ended(rt))
}

/// Serves the frames of all streams by threads.
fn served<L: Epoch + Send + Sync, R: Threads + Wait + Abort + Sync>(
    rt: &R,
    alloc: Global,
    seated: Seated<L>,
    frames: Vec<Frames>,
    plan: Plan,
) -> Seated<L> {
    let Seated {
        owner,
        streams,
        workers,
    } = seated;
    let clients = clients_of(rt, alloc, streams, frames, plan);
    let (workers, clients) = run(rt, owner.hub(), workers, clients, plan);
    let streams = seats_of(rt, alloc, clients, plan);
    Seated {
        owner,
        streams,
        workers,
    }
}

/// A client for each seat, with the frames of its stream.
fn clients_of<L: Epoch>(
    rt: &impl Abort,
    alloc: Global,
    seats: Vec<StreamSeat<L>>,
    frames: Vec<Frames>,
    plan: Plan,
) -> Vec<Client<L>> {
    let mut clients = Vec::new(alloc);
    let mut frames = frames.into_iter();
    for seat in seats {
        let frames = frames.next().expect(rt, "frames");
        let client = Client::new(alloc, seat, frames, plan.is_soon);
        clients
            .push(client)
            .expect(rt, "was the memory of a client refused?");
    }
    clients
}

/// The seats of clients who ended as planned.
fn seats_of<L: Epoch>(
    rt: &impl Abort,
    alloc: Global,
    clients: Vec<Client<L>>,
    plan: Plan,
) -> Vec<StreamSeat<L>> {
    let mut seats = Vec::new(alloc);
    for client in clients {
        let delivered = plan.delivered.unwrap_or(client.delivered);
        let want = (plan.outcome, delivered);
        same(rt, (client.outcome, client.delivered), want);
        same_at(rt, client.most <= plan.most, true, client.most);
        seats
            .push(client.seat)
            .expect(rt, "was the memory of a seat refused?");
    }
    seats
}

/// What the end of a session tells: each frame is four calls, and one band.
fn check(rt: &impl Abort, ended: &Ended, plan: Plan) {
    let streams = u64::from(plan.streams);
    let calls = streams.saturating_mul(plan.frames.saturating_mul(4).saturating_add(1));
    same(rt, ended.journal().len() as u64, calls);
    for s in 0..plan.streams {
        let counts = ended.counts(s).expect(rt, "counts");
        same(
            rt,
            (counts.accepted, counts.collected, counts.charged),
            (plan.frames, plan.frames, plan.frames),
        );
    }
    same_at(rt, ended.bands(0) <= plan.stop, true, ended.bands(0));
    same(
        rt,
        bands(rt, ended, plan.workers),
        streams.saturating_mul(plan.frames),
    );
}

/// How many bands the workers settled, each of which is a unit.
fn bands(rt: &impl Abort, ended: &Ended, workers: u64) -> u64 {
    let mut sum = 0u64;
    for w in 0..workers.min(16) {
        let bands = ended.bands(w as u32);
        same(rt, ended.units(w as u32), Some(bands));
        sum = sum.saturating_add(bands);
    }
    sum
}

/// The workers work in a thread of their own while the clients are served. Where it isn't granted, all that
/// the clients can offer is worked before they collect.
fn run<L: Epoch + Send + Sync, R: Threads + Wait + Abort + Sync>(
    rt: &R,
    hub: &Hub<L>,
    workers: Vec<WorkSeat<L>>,
    clients: Vec<Client<L>>,
    plan: Plan,
) -> (Vec<WorkSeat<L>>, Vec<Client<L>>) {
    let (count, stop) = (plan.frames, plan.stop);
    thread::scope(
        thread::scope_env(),
        rt,
        |scope|
            requires { IsSync R.row × IsSync L.row × IsSend L.row }
        {
            match scope.spawn(move || work_all(rt, hub, workers, stop)) {
                Ok(working) => {
                    let clients = serve_all(rt, hub, clients, count);
                    (working.join(rt), clients)
                }
                Err(refused) => {
                    let mut clients = clients;
                    feed_all(rt, hub, &mut clients, count);
                    let workers = (refused.value)();
                    drain_all(rt, hub, &mut clients);
                    (workers, clients)
                }
            }
        },
    )
}

/// Offers all frames before a worker is there, which are no more than a client offers before it collects.
fn feed_all<L: Epoch, R: Wait + Abort>(
    rt: &R,
    hub: &Hub<L>,
    clients: &mut Vec<Client<L>>,
    count: u64,
) {
    same_at(rt, count <= 4, true, "was a thread or its memory refused?");
    for client in clients {
        client.feed(rt, hub, count);
    }
}

fn drain_all<L: Epoch, R: Wait>(rt: &R, hub: &Hub<L>, clients: &mut Vec<Client<L>>) {
    for client in clients {
        client.drain(rt, hub);
    }
}

/// As [`serve_all`], but that no image is collected.
fn feed_each<L: Epoch + Send + Sync, R: Threads + Wait + Sync>(
    rt: &R,
    hub: &Hub<L>,
    clients: Vec<Client<L>>,
    count: u64,
) -> Vec<Client<L>> {
    let mut clients = clients;
    thread::for_each_mut(
        rt,
        &mut clients,
        16,
        &|_, client: &mut Client<L>| {
            client.feed(rt, hub, count);
        },
    );
    clients
}

/// A thread for each client, or one for some where others are refused.
fn serve_all<L: Epoch + Send + Sync, R: Threads + Wait + Sync>(
    rt: &R,
    hub: &Hub<L>,
    clients: Vec<Client<L>>,
    count: u64,
) -> Vec<Client<L>> {
    let mut clients = clients;
    thread::for_each_mut(
        rt,
        &mut clients,
        16,
        &|_, client: &mut Client<L>| {
            client.feed(rt, hub, count);
            client.drain(rt, hub);
        },
    );
    clients
}

/// A thread for each worker, or one for some where others are refused.
pub(super) fn work_all<L: Epoch + Send + Sync, R: Threads + Wait + Sync>(
    rt: &R,
    hub: &Hub<L>,
    workers: Vec<WorkSeat<L>>,
    stop: u64,
) -> Vec<WorkSeat<L>> {
    let mut workers = workers;
    thread::for_each_mut(
        rt,
        &mut workers,
        8,
        &|_, seat: &mut WorkSeat<L>| {
            work(rt, hub, seat, stop);
        },
    );
    workers
}

/// Leases and settles until it is refused, or the first worker has settled so many.
fn work<L: Epoch, R: Wait>(rt: &R, hub: &Hub<L>, seat: &mut WorkSeat<L>, stop: u64) {
    let most = if seat.worker() == 0 { stop } else { u64::MAX };
    for _ in 0..most {
        let Ok(lease) = hub.lease(rt, seat) else {
            return;
        };
        let granted = lease.granted();
        if let Err(refused) = hub.settle(rt, seat, stepped(lease, granted)) {
            give_up(refused);
            return;
        }
    }
}

fn give_up(refused: LeaseRefused) {
    let LeaseRefused { refusal: _, lease } = refused;
    if let Some(lease) = lease {
        let _job = lease.into_job();
    }
}
