//! Streams that threads admit beside each other's offers.
ghost use Rattle.std.specs.Prelude.{◌≡◌};
ghost use Rattle.serve_core.specs.Schedule.{opened_schedule};
ghost use Rattle.std.specs.Thread.{IsSend, IsSync};

use super::clients::{Client, Frames};
use super::seated::{Seated, seated_of};
use super::threads::work_all;
use super::{PLAIN, same, setup_of, stream_spec_of};
use serve_core::{Setup, StreamSpec};
use serve_hub::{Ended, Epoch, Hub, StreamSeat, WorkSeat};
use std::alloc::Global;
use std::marker::Brand;
use std::process::Abort;
use std::sync::Wait;
use std::sync::ledger::Blank;
use std::test::Fail;
use std::thread;
use std::thread::Threads;

/// How many frames each stream has.
const FRAMES: u64 = 4;

/// What is told where there is no memory for a seat's place.
const NO_PLACE: &str = "was the memory of a seat refused?";

/// The first sample of each stream that is admitted.
const FIRST: u32 = 8;

/// How many streams there are at first.
const STREAMS: u32 = 8;

/// The frames of a stream, and what another one is admitted with, and its frames.
#[derive(Drop)]
struct Entrant {
    frames: Frames,
    spec: StreamSpec,
    second: Frames,
}

fn entrants_of(alloc: Global) -> Result<Vec<Entrant>, Fail> {
    let mut entrants = Vec::new(alloc);
    for s in 0..STREAMS {
        entrants.push(Entrant {
            frames: Frames::new(alloc, s)?,
            spec: stream_spec_of(alloc, &PLAIN)?,
            second: Frames::new(alloc, FIRST)?,
        })?;
    }
    Ok(entrants)
}

/// A client, and one whose stream it admits.
#[derive(Drop)]
struct Pair<L: Epoch> {
    alloc: Global,
    first: Client<L>,
    entrant: Option<(StreamSpec, Frames)>,
    second: Option<Client<L>>,
}

impl<L: Epoch> Pair<L> {
    /// Admits a stream, and then offers so many frames of both, closes them, and collects their images. One
    /// of both is open until all frames are offered, so the workers are there.
    fn serve<R: Wait>(&mut self, rt: &R, hub: &Hub<L>, count: u64) {
        self.second = self.admitted(rt, hub);
        self.first.feed(rt, hub, count);
        if let Some(second) = &mut self.second {
            second.feed(rt, hub, count);
            second.drain(rt, hub);
        }
        self.first.drain(rt, hub);
    }

    fn admitted<R: Wait>(&mut self, rt: &R, hub: &Hub<L>) -> Option<Client<L>> {
        let (spec, frames) = self.entrant.take()?;
        let seat = hub.admit(rt, self.alloc, spec).ok()?;
        Some(Client::new(self.alloc, seat, frames, false))
    }
}

fn pairs_of<L: Epoch>(
    rt: &impl Abort,
    alloc: Global,
    seats: Vec<StreamSeat<L>>,
    entrants: Vec<Entrant>,
) -> Vec<Pair<L>> {
    let mut pairs = Vec::new(alloc);
    let mut entrants = entrants.into_iter();
    for seat in seats {
        let pair = pair_of(alloc, seat, entrants.next().expect(rt, "an entrant"));
        pairs
            .push(pair)
            .expect(rt, "was the memory of a pair refused?");
    }
    pairs
}

fn pair_of<L: Epoch>(alloc: Global, seat: StreamSeat<L>, entrant: Entrant) -> Pair<L> {
    let Entrant {
        frames,
        spec,
        second,
    } = entrant;
    Pair {
        alloc,
        first: Client::new(alloc, seat, frames, false),
        entrant: Some((spec, second)),
        second: None,
    }
}

/// A thread for each pair, or one for some where others are refused.
fn serve_pairs<L: Epoch + Send + Sync, R: Threads + Wait + Sync>(
    rt: &R,
    hub: &Hub<L>,
    pairs: Vec<Pair<L>>,
    count: u64,
) -> Vec<Pair<L>> {
    let mut pairs = pairs;
    thread::for_each_mut(
        rt,
        &mut pairs,
        8,
        &|_, pair: &mut Pair<L>| pair.serve(rt, hub, count),
    );
    pairs
}

/// The workers work in a thread of their own while the pairs are served.
fn run<L: Epoch + Send + Sync, R: Threads + Wait + Abort + Sync>(
    rt: &R,
    hub: &Hub<L>,
    workers: Vec<WorkSeat<L>>,
    pairs: Vec<Pair<L>>,
) -> (Vec<WorkSeat<L>>, Vec<Pair<L>>) {
    thread::scope(
        thread::scope_env(),
        rt,
        |scope|
            requires { IsSync R.row × IsSync L.row × IsSend L.row }
        {
            match scope.spawn(move || work_all(rt, hub, workers, u64::MAX)) {
                Ok(working) => {
                    let pairs = serve_pairs(rt, hub, pairs, FRAMES);
                    (working.join(rt), pairs)
                }
                Err(_) => panic!(rt; "was a thread or its memory refused?"),
            }
        },
    )
}

/// The seats of clients who got all their images.
fn seats_of<L: Epoch>(rt: &impl Abort, alloc: Global, pairs: Vec<Pair<L>>) -> Vec<StreamSeat<L>> {
    let mut seats = Vec::new(alloc);
    for pair in pairs {
        let Pair { first, second, .. } = pair;
        let second = second.expect(rt, "was the memory of a stream refused?");
        same(rt, (first.outcome, first.delivered), (Ok(()), FRAMES));
        same(rt, (second.outcome, second.delivered), (Ok(()), FRAMES));
        seats.push(first.seat).expect(rt, NO_PLACE);
        seats.push(second.seat).expect(rt, NO_PLACE);
    }
    seats
}

/// Each frame is four calls, and each stream is closed. Half of the streams are admitted.
fn session<L: Epoch + Send + Sync, R: Threads + Wait + Abort + Sync>(
    rt: &R,
    alloc: Global,
    blank: Blank,
    setup: Setup,
    entrants: Vec<Entrant>,
) -> Result<Ended, Fail>
    requires name { blank.name ≡ L.name }
    requires parts { blank.parts ≡ L.parts }
    requires enough { blank.parts ≡ 80 }
    requires opening { opened_schedule setup ≡ L.opening }
{
    let seated = seated_of::<L>(alloc, blank, setup, 300)?;
    Ok(served(rt, alloc, seated, entrants).ended(rt))
}

fn served<L: Epoch + Send + Sync, R: Threads + Wait + Abort + Sync>(
    rt: &R,
    alloc: Global,
    seated: Seated<L>,
    entrants: Vec<Entrant>,
) -> Seated<L> {
    let Seated {
        owner,
        streams,
        workers,
    } = seated;
    let pairs = pairs_of(rt, alloc, streams, entrants);
    let (workers, pairs) = run(rt, owner.hub(), workers, pairs);
    let streams = seats_of(rt, alloc, pairs);
    Seated {
        owner,
        streams,
        workers,
    }
}

#[test]
fn eight_threads_admit_a_stream_each(rt: HostRuntime) -> Result<(), Fail> {
    let alloc = rt.alloc();
    let setup = setup_of(alloc, 4, &[PLAIN; STREAMS as usize])?;
    let entrants = entrants_of(alloc)?;
    let ended = session::<Brand, _>(&rt, alloc, Blank::new(80), setup, entrants)?;
    same(&rt, ended.journal().len(), 16 * 17 + 8);
    Ok(())
}
