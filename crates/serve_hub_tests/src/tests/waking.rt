//! A worker that waits, beside one that gives its frame back and asks for no more, or beside a full outbox.
ghost use Rattle.std.specs.Prelude.{◌≡◌};
ghost use Rattle.serve_core.specs.Schedule.{opened_schedule};
ghost use Rattle.std.specs.Thread.{IsSend, IsSync};

use super::leases::{TALL, TALL_FRAME};
use super::seated::{Seated, seated_after};
use super::steps::{Answer, Call, Step};
use super::{PLAIN, Served, same, setup_of, stepped};
use lease::Lease;
use serve_core::{Collected, Setup};
use serve_hub::{
    CollectRefused, Ended, Epoch, Hub, LeaseRefused, Refusal, Settled, StreamSeat, WorkSeat,
};
use std::alloc::Global;
use std::marker::Brand;
use std::process::Abort;
use std::rt::Clock;
use std::sync::Wait;
use std::sync::ledger::Blank;
use std::test::Fail;
use std::thread;
use std::thread::Threads;
use std::time::Duration;

/// For how many milliseconds the first worker keeps its lease, so that the other one waits, and a client
/// pauses before it looks for its image again, or before it collects, so that the worker waits.
const PAUSE: u64 = 5;

/// How often a client looks for its image.
const LOOKS: u32 = 1_000;

/// A frame of two bands. Nobody offers or collects after it came back.
#[test]
fn a_frame_that_came_back_wakes_a_worker(rt: HostRuntime) -> Result<(), Fail> {
    for _ in 0..20 {
        let setup = setup_of(rt.alloc(), 2, &[TALL])?;
        let ended = handed_over::<Brand, _>(&rt, rt.alloc(), Blank::new(80), setup)?;
        same(&rt, (ended.bands(0), ended.bands(1)), (0, 2));
    }
    Ok(())
}

/// What a hub leaves whose first worker leased the frame and gave it back, and whose second one finished it.
fn handed_over<L: Epoch + Send + Sync, R: Threads + Wait + Abort + Clock + Sync>(
    rt: &R,
    alloc: Global,
    blank: Blank,
    setup: Setup,
) -> Result<Ended, Fail>
    requires name { blank.name ≡ L.name }
    requires parts { blank.parts ≡ L.parts }
    requires enough { blank.parts ≡ 80 }
    requires opening { opened_schedule setup ≡ L.opening }
{
    let Seated {
        owner,
        mut streams,
        mut workers,
    } = seated_after::<L, R>(rt, alloc, blank, setup, TALL_FRAME)?;
    let stream = streams.pop().expect(rt, "a stream");
    let second = workers.pop().expect(rt, "a worker");
    let first = workers.pop().expect(rt, "a worker");
    let (stream, first, second) = helped(rt, owner.hub(), stream, first, second);
    streams.push(stream).expect(rt, "a place");
    workers.push(first).expect(rt, "a place");
    workers.push(second).expect(rt, "a place");
    let seated = Seated {
        owner,
        streams,
        workers,
    };
    Ok(seated.ended(rt))
}

/// The first worker gives its lease back while the second one waits for one.
fn helped<L: Epoch + Send + Sync, R: Threads + Wait + Abort + Clock + Sync>(
    rt: &R,
    hub: &Hub<L>,
    stream: StreamSeat<L>,
    first: WorkSeat<L>,
    second: WorkSeat<L>,
) -> (StreamSeat<L>, WorkSeat<L>, WorkSeat<L>) {
    thread::scope(
        thread::scope_env(),
        rt,
        |scope|
            requires { IsSync R.row × IsSync L.row × IsSend L.row }
        {
            let (mut stream, mut first) = (stream, first);
            let lease = hub.try_lease(rt, &mut first);
            let working = scope.spawn(move || work(rt, hub, second));
            pause(rt);
            let done = given_back(rt, hub, &mut first, lease);
            let came = image_in_time(rt, hub, &mut stream);
            let _closed = hub.close(rt, &mut stream);
            same(rt, (done, came), (Ok(Settled::Returned), Some(254)));
            match working {
                Ok(working) => (stream, first, working.join(rt)),
                Err(_) => panic!(rt; "was a thread or its memory refused?"),
            }
        },
    )
}

/// A stream whose outbox holds one image.
const NARROW: Served<'static> = Served { outbox: 1, ..PLAIN };

/// Its frames, which are all offered before a worker leases.
const THREE_FRAMES: &[Step] = &[
    (Call::Offer(0, 7), Answer::Accepted(0)),
    (Call::Offer(0, 9), Answer::Accepted(1)),
    (Call::Offer(0, 11), Answer::Accepted(2)),
];

/// The worker waits twice, since the outbox is full. A call that waits collects the first image, and one that
/// doesn't the second one.
#[test]
fn a_collection_from_a_full_outbox_wakes_a_worker(rt: HostRuntime) -> Result<(), Fail> {
    for _ in 0..20 {
        let setup = setup_of(rt.alloc(), 1, &[NARROW])?;
        let ended = narrow_end::<Brand, _>(&rt, rt.alloc(), Blank::new(80), setup)?;
        same(&rt, ended.bands(0), 3);
    }
    Ok(())
}

/// What a hub leaves whose worker finished three frames, while a client collected their images.
fn narrow_end<L: Epoch + Send + Sync, R: Threads + Wait + Abort + Clock + Sync>(
    rt: &R,
    alloc: Global,
    blank: Blank,
    setup: Setup,
) -> Result<Ended, Fail>
    requires name { blank.name ≡ L.name }
    requires parts { blank.parts ≡ L.parts }
    requires enough { blank.parts ≡ 80 }
    requires opening { opened_schedule setup ≡ L.opening }
{
    let Seated {
        owner,
        mut streams,
        mut workers,
    } = seated_after::<L, R>(rt, alloc, blank, setup, THREE_FRAMES)?;
    let stream = streams.pop().expect(rt, "a stream");
    let worker = workers.pop().expect(rt, "a worker");
    let (stream, worker) = serve_three(rt, owner.hub(), stream, worker);
    streams.push(stream).expect(rt, "a place");
    workers.push(worker).expect(rt, "a place");
    let seated = Seated {
        owner,
        streams,
        workers,
    };
    Ok(seated.ended(rt))
}

/// The worker has a thread of its own.
fn serve_three<L: Epoch + Send + Sync, R: Threads + Wait + Abort + Clock + Sync>(
    rt: &R,
    hub: &Hub<L>,
    stream: StreamSeat<L>,
    worker: WorkSeat<L>,
) -> (StreamSeat<L>, WorkSeat<L>) {
    thread::scope(
        thread::scope_env(),
        rt,
        |scope|
            requires { IsSync R.row × IsSync L.row × IsSend L.row }
        {
            match scope.spawn(move || work(rt, hub, worker)) {
                Ok(working) => {
                    let stream = collect_three(rt, hub, stream);
                    (stream, working.join(rt))
                }
                Err(_) => panic!(rt; "was a thread or its memory refused?"),
            }
        },
    )
}

/// Collects the images of the three frames, and closes the stream.
fn collect_three<L: Epoch, R: Wait + Abort + Clock>(
    rt: &R,
    hub: &Hub<L>,
    stream: StreamSeat<L>,
) -> StreamSeat<L> {
    let mut stream = stream;
    pause(rt);
    let first = sample_of(hub.collect(rt, &mut stream));
    pause(rt);
    let second = image_in_time(rt, hub, &mut stream);
    let third = image_in_time(rt, hub, &mut stream);
    let _closed = hub.close(rt, &mut stream);
    let images = [first, second, third];
    same(rt, images, [Some(255 - 7), Some(255 - 9), Some(255 - 11)]);
    stream
}

/// The first sample of the image that was collected.
fn sample_of(answer: Result<Collected, CollectRefused>) -> Option<u8> {
    match answer {
        Ok(pair) => pair.image.data().first().copied(),
        Err(_) => None,
    }
}

/// Leases, does what is granted and settles, until nothing is left.
fn work<L: Epoch, R: Wait>(rt: &R, hub: &Hub<L>, seat: WorkSeat<L>) -> WorkSeat<L> {
    let mut seat = seat;
    for _ in rt.forever() {
        let Ok(lease) = hub.lease(rt, &mut seat) else {
            return seat;
        };
        let granted = lease.granted();
        if settled(rt, hub, &mut seat, stepped(lease, granted)).is_err() {
            return seat;
        }
    }
    unreachable!()
}

/// Settles a lease that was given.
fn given_back<L: Epoch>(
    rt: &impl Wait,
    hub: &Hub<L>,
    seat: &mut WorkSeat<L>,
    lease: Result<Lease, Refusal>,
) -> Result<Settled, Refusal> {
    match lease {
        Ok(lease) => settled(rt, hub, seat, lease),
        Err(refusal) => Err(refusal),
    }
}

/// Settles a lease. A refused one ends.
fn settled<L: Epoch>(
    rt: &impl Wait,
    hub: &Hub<L>,
    seat: &mut WorkSeat<L>,
    lease: Lease,
) -> Result<Settled, Refusal> {
    match hub.settle(rt, seat, lease) {
        Ok(done) => Ok(done),
        Err(refused) => {
            let LeaseRefused { refusal, lease } = refused;
            if let Some(lease) = lease {
                let _job = lease.into_job();
            }
            Err(refusal)
        }
    }
}

/// The first sample of the next image, if it comes in time.
fn image_in_time<L: Epoch, R: Wait + Clock>(
    rt: &R,
    hub: &Hub<L>,
    stream: &mut StreamSeat<L>,
) -> Option<u8> {
    for _ in 0..LOOKS {
        if let Ok(pair) = hub.try_collect(rt, stream) {
            return pair.image.data().first().copied();
        }
        pause(rt);
    }
    None
}

fn pause(clock: &impl Clock) {
    thread::sleep(clock, Duration::from_millis(PAUSE));
}
