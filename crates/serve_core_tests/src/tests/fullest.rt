//! Streams that have all the places that a stream can have, and frames with the longest line.
use super::Size::Dot;
use super::{PLAIN, Plan, Served, geometry_of, same, same_at, setup_of};
use frame_view::Frame;
use serve_core::{Desk, Event, Machine, Refusal, Reply};
use std::alloc::Global;
use std::process::Abort;
use std::sync::Arc;
use std::test::Fail;
use y4m_header::check_frame_line;

/// The most frames that may be unfinished, and the most images that may wait.
const PLACES: u64 = 256;

const FULLEST: Served<'static> = Served {
    account: (1, 2),
    queue: PLACES,
    outbox: PLACES,
    ..PLAIN
};

const TWO: Plan<'static> = Plan {
    workers: 1,
    quantum: 4,
    streams: &[FULLEST, FULLEST],
};

/// Why there is no answer of the kind that was asked for. No refusal: it was of another kind.
type Not = Option<Refusal>;

/// What the machine and the desk do alike, the desk at moment 0.
trait Serves {
    /// A frame arrives at stream `s`, and gets a number.
    fn arrive(&mut self, alloc: Global, s: u32, frame: Arc<Frame>) -> Result<u64, Not>;

    /// The only worker does the one band of the frame that is next.
    fn work(&mut self, alloc: Global) -> Result<u64, Not>;

    /// The oldest image of stream `s`.
    fn image(&mut self, alloc: Global, s: u32) -> Result<Frame, Not>;
}

impl Serves for Machine {
    fn arrive(&mut self, alloc: Global, s: u32, frame: Arc<Frame>) -> Result<u64, Not> {
        match self.step(alloc, Event::Arrive(s, frame)) {
            Reply::Accepted(number) => Ok(number),
            Reply::GivenBack(refusal, _) => Err(Some(refusal)),
            _ => Err(None),
        }
    }

    fn work(&mut self, alloc: Global) -> Result<u64, Not> {
        match self.step(alloc, Event::Lease(0)) {
            Reply::Leased(_, _, 1) => {}
            Reply::Refused(refusal) => return Err(Some(refusal)),
            _ => return Err(None),
        }
        let _stepped = self.step(alloc, Event::Band(0));
        match self.step(alloc, Event::Settle(0)) {
            Reply::Finished(number) => Ok(number),
            _ => Err(None),
        }
    }

    fn image(&mut self, alloc: Global, s: u32) -> Result<Frame, Not> {
        match self.step(alloc, Event::Collect(s)) {
            Reply::Image(image) => Ok(image),
            Reply::Refused(refusal) => Err(Some(refusal)),
            _ => Err(None),
        }
    }
}

impl Serves for Desk {
    fn arrive(&mut self, alloc: Global, s: u32, frame: Arc<Frame>) -> Result<u64, Not> {
        match self.offer(alloc, s, 0, frame) {
            Ok(number) => Ok(number),
            Err((refusal, _)) => Err(Some(refusal)),
        }
    }

    fn work(&mut self, _alloc: Global) -> Result<u64, Not> {
        work_at(self)
    }

    fn image(&mut self, _alloc: Global, s: u32) -> Result<Frame, Not> {
        match self.collect(s) {
            Ok(pair) => Ok(pair.image),
            Err(refusal) => Err(Some(refusal)),
        }
    }
}

/// The only worker of a desk does the one band of the frame that is next.
fn work_at(desk: &mut Desk) -> Result<u64, Not> {
    let mut lease = match desk.lease(0) {
        Ok(lease) => lease,
        Err(refusal) => return Err(Some(refusal)),
    };
    let _stepped = lease.step();
    match desk.settle(0, lease) {
        Ok(Some(number)) => Ok(number),
        Ok(None) => Err(None),
        Err((refusal, lease)) => {
            let _job = lease.into_job();
            Err(Some(refusal))
        }
    }
}

/// A frame of one sample, whose line has 1,023 bytes.
fn long_frame(alloc: Global, n: u64) -> Result<Arc<Frame>, Fail> {
    let mut line = b"FRAME I".to_vec(alloc)?;
    line.resize(1_023, b'x')?;
    check_frame_line(&line)?;
    let frame = Frame::new(geometry_of(Dot), line, [(n % 256) as u8].to_vec(alloc)?)?;
    Ok(Arc::new(alloc, frame)?)
}

/// Fills stream `s`, whose 257th frame is refused.
fn fill<S: Serves>(rt: &impl Abort, alloc: Global, server: &mut S, s: u32) -> Result<(), Fail> {
    for n in 0..PLACES {
        let answer = server.arrive(alloc, s, long_frame(alloc, n)?);
        same_at(rt, answer, Ok(n), s);
    }
    let answer = server.arrive(alloc, s, long_frame(alloc, PLACES)?);
    same_at(rt, answer, Err(Some(Refusal::Full)), s);
    Ok(())
}

/// Works on all frames, the two streams taking turns. Their images then fill both outboxes.
fn work<S: Serves>(rt: &impl Abort, alloc: Global, server: &mut S) {
    for n in 0..2 * PLACES {
        same(rt, server.work(alloc), Ok(n / 2));
    }
    same(rt, server.work(alloc), Err(Some(Refusal::NoneReady)));
}

/// Collects the images of stream `s`, and none after them.
fn collect<S: Serves>(rt: &impl Abort, alloc: Global, server: &mut S, s: u32) {
    for n in 0..PLACES {
        match server.image(alloc, s) {
            Ok(image) => {
                let wanted = (1_023, Some(&(255 - n as u8)));
                same(rt, (image.line().len(), image.data().first()), wanted);
            }
            Err(_) => panic!(rt; "no image {n} of {s}"),
        }
    }
    same(
        rt,
        matches!(server.image(alloc, s), Err(Some(Refusal::Empty))),
        true,
    );
}

/// Two streams are filled, worked and collected.
fn serve<S: Serves>(rt: &impl Abort, alloc: Global, server: &mut S) -> Result<(), Fail> {
    fill(rt, alloc, server, 0)?;
    fill(rt, alloc, server, 1)?;
    work(rt, alloc, server);
    collect(rt, alloc, server, 0);
    collect(rt, alloc, server, 1);
    Ok(())
}

#[test]
fn a_machine_is_filled_and_collected(rt: HostRuntime) -> Result<(), Fail> {
    let alloc = rt.alloc();
    let mut machine = Machine::new(alloc, setup_of(alloc, &TWO)?)?;
    serve(&rt, alloc, &mut machine)
}

#[test]
fn a_desk_is_filled_and_collected(rt: HostRuntime) -> Result<(), Fail> {
    let alloc = rt.alloc();
    let mut desk = Desk::new(alloc, setup_of(alloc, &TWO)?)?;
    serve(&rt, alloc, &mut desk)
}
