//! A stream that goes on from epoch to epoch, by the calls of one thread.
ghost use Rattle.std.specs.Prelude.{◌≡◌, [], ◌∷◌, map};
ghost use Rattle.y4m_stream.specs.Reader.{IsOfHeader};
ghost use Rattle.serve_core.specs.Schedule.{opened_schedule};
ghost use Rattle.serve_core.specs.Setup as rules;
ghost use Rattle.serve_hub.specs.Seats.{left_by, seat_over};
ghost use Rattle.serve_client.specs.Rests.{IsRest, reader_in};

use super::shy::{Bell, Framed, Shy};
use crate::tests::lists::{both, one_of, sole, two_of};
use crate::tests::sessions::{hub_of, setup_over};
use crate::tests::slow::{Output, Tries, output};
use crate::tests::{PLAIN, Plan, Still, same_at, stream_of};
use frame_view::{Frame, Geometry};
use lease::{Job, Lease, Scratch};
use serve_core::{Setup, StreamSpec};
use serve_hub::{
    Ended, Epoch, Hub, LeaseRefused, Offer, OfferRefused, Refusal, Reopened, Settled, StreamSeat,
    WorkSeat,
};
use serve_work::{ClientRest, ClientTurn, Stop, client};
use std::alloc::Global;
use std::marker::{Brand, Model};
use std::process::Abort;
use std::sync::ledger::Blank;
use std::sync::{Arc, Wait};
use test_tools::streams::THREE;
use test_tools::{Room, frame_of};
use y4m_header::Header;
use y4m_stream::reader::Phase;
use y4m_stream::{Source, StreamReader};

/// What is done in an epoch, and what the client comes to in its turn.
#[derive(Clone, Copy)]
pub(super) struct Step {
    /// How many frames of the stream are finished, the oldest first.
    pub(super) finished: u64,
    /// Whether the first of these is finished by a lease of another frame, which the hub can't tell from its
    /// own.
    pub(super) is_forged: bool,
    /// How many frames are offered to the other stream.
    pub(super) busy: u64,
    /// Whether the source isn't ready.
    pub(super) is_silent: bool,
    /// How many bytes the sink takes of images at once. Those behind them are on their way.
    pub(super) takes: u64,
    pub(super) after: After,
}

/// Nothing is done, and the source and the sink are ready.
pub(super) const LOUD: Step = Step {
    finished: 0,
    is_forged: false,
    busy: 0,
    is_silent: false,
    takes: u64::MAX,
    after: After::Paused(0, 0, 0),
};

/// What a client comes to in an epoch.
#[derive(Clone, Copy, Debug, PartialEq, Eq)]
pub(super) enum After {
    /// It pauses, with so many frames accepted, and images collected and delivered.
    Paused(u64, u64, u64),
    /// It stops for this reason, with so many frames accepted, and images delivered.
    Ended(Stop, u64, u64),
}

/// A stream, how many bytes its writer takes, its epochs, what is written, and how many images had been
/// collected when its seat was first told Torn, if it was.
#[derive(Drop)]
pub(super) struct Case<'a> {
    pub(super) name: &'a str,
    pub(super) input: &'a [u8],
    pub(super) room: usize,
    /// How many frames the stream may accept.
    pub(super) frames: u64,
    pub(super) steps: &'a [Step],
    pub(super) written: &'a [u8],
    pub(super) torn: Option<u64>,
}

/// A hub that ended, and what is left to do of its first stream.
#[derive(Drop)]
struct Paused<'a, R: Source> {
    ended: Ended,
    rest: ClientRest<R, Output<'a>>,
}

impl<'a, R: Source> Model for Paused<'a, R> {
    ghost use Rattle.std.specs.Prelude.{◌≡◌, [], ◌∷◌};
    ghost use Rattle.y4m_stream.specs.Reader.{IsOfHeader};
    ghost use Rattle.serve_hub.specs.Ends.{EndedValue};
    ghost use Rattle.serve_hub.specs.Seats.{StreamSeatValue, left_by};
    ghost use Rattle.serve_client.specs.Rests.{IsRest, RestValue, reader_in};

    ghost Value = { EndedValue × RestValue };

    ghost view = { λ a. (a.ended, a.rest) };

    ghost invariant = { λ a. (seat : StreamSeatValue) × (other : StreamSeatValue)
        × (a.ended.streams ≡ left_by seat ∷ left_by other ∷ []) × IsRest seat a.rest
        × IsOfHeader (reader_in a.rest).header seat.chain.geometry };
}

/// What a stream came to.
#[derive(Drop)]
enum Came<'a, R: Source> {
    Paused(Paused<'a, R>),
    /// It stopped for this reason, with so many frames accepted and images delivered, its seat notes this of
    /// a Torn, and this was written.
    Ended(Stop, u64, u64, Option<u64>, Vec<u8>),
}

impl<'a, R: Source + Drop> Came<'a, R> {
    fn after(&self) -> After {
        match self {
            Came::Paused(Paused { rest, .. }) => {
                After::Paused(rest.accepted(), rest.collected(), rest.delivered())
            }
            Came::Ended(stop, accepted, delivered, _, _) => {
                After::Ended(*stop, *accepted, *delivered)
            }
        }
    }

    /// It came to this.
    fn is_after(&self, rt: &impl Abort, after: After, name: &str) {
        same_at(rt, self.after(), after, name);
    }

    /// What its seat notes of a Torn, and what was written, where it ended.
    fn end(self, rt: &impl Abort) -> (Option<u64>, Vec<u8>) {
        match self {
            Came::Paused(_) => panic!(rt; "it didn't end"),
            Came::Ended(_, _, _, torn, written) => (torn, written),
        }
    }
}

/// A stream of the same frames, of which many may be unfinished. Any other stream is leased first.
fn other_of(rt: &impl Abort, alloc: Global, header: &Header) -> StreamSpec {
    let stream = stream_of(rt, alloc, header, PLAIN);
    let spec = Arc::try_clone(stream.job()).expect(rt, "no spec");
    StreamSpec::new(Geometry::of(header), spec, 1, 64, 64, 4, 1 << 24)
}

/// A setup of one worker and two streams, whose frames are of this header. The first may accept so many.
fn pair_of(rt: &impl Abort, alloc: Global, header: &Header, frames: u64) -> Setup
    ensures { (stream : rules.StreamSpec) × (other : rules.StreamSpec)
        × (result.streams ≡ stream ∷ other ∷ []) × IsOfHeader header.now stream.chain.geometry }
{
    let stream = stream_of(rt, alloc, header, Plan { frames, ..PLAIN });
    let other = other_of(rt, alloc, header);
    setup_over(rt, 1, two_of(rt, alloc, stream, other))
}

/// A frame that isn't in the stream.
fn strange(rt: &impl Abort, alloc: Global, header: &Header) -> Arc<Frame> {
    let frame = frame_of(alloc, Geometry::of(header), b"FRAME", b"mute").expect(rt, "no frame");
    Arc::new(alloc, frame).expect(rt, "no frame")
}

/// The header of the streams.
fn header_of(rt: &impl Abort, alloc: Global) -> Header {
    Header::parse(alloc, b"YUV4MPEG2 W2 H2 Cmono").expect(rt, "no header")
}

/// A lease with this number and grant, over another frame.
fn forged(rt: &impl Abort, alloc: Global, number: u64, grant: u32) -> Lease {
    let header = header_of(rt, alloc);
    let stream = stream_of(rt, alloc, &header, PLAIN);
    let spec = Arc::try_clone(stream.job()).expect(rt, "no spec");
    let scratch = Scratch::new(alloc, &spec).expect(rt, "no scratch");
    let mut job = Job::new(alloc, spec, strange(rt, alloc, &header)).expect(rt, "no job");
    job.start(scratch);
    assert!(rt; (1..=job.steps()).contains(&grant), "a grant of {grant}");
    Lease::new(job, 0, number, grant)
}

/// The lease, or a forged one in place of it.
fn exchanged(rt: &impl Abort, alloc: Global, lease: Lease, is_forged: bool) -> Lease {
    if !is_forged {
        return lease;
    }
    let (number, grant) = (lease.number(), lease.granted());
    let _job = lease.into_job();
    forged(rt, alloc, number, grant)
}

/// Whether a settlement finished the frame, or why it was refused.
fn is_finished(settled: Result<Settled, LeaseRefused>) -> Result<bool, Refusal> {
    match settled {
        Ok(Settled::Finished(_)) => Ok(true),
        Ok(_) => Ok(false),
        Err(LeaseRefused { refusal, lease }) => {
            if let Some(lease) = lease {
                let _job = lease.into_job();
            }
            Err(refusal)
        }
    }
}

/// Finishes the oldest frame of the stream that is leased first.
fn finish_one<L: Epoch>(
    rt: &(impl Abort + Wait),
    alloc: Global,
    hub: &Hub<L>,
    worker: &mut WorkSeat<L>,
    is_forged: bool,
) {
    let lease = hub.try_lease(rt, worker).expect(rt, "no lease");
    let mut lease = exchanged(rt, alloc, lease, is_forged);
    for _ in 0..lease.granted() {
        let _ = lease.step();
    }
    let settled = is_finished(hub.settle(rt, worker, lease));
    same_at(rt, settled, Ok(true), "a settlement");
}

/// Why a frame was refused, if it was.
fn refusal_of(offered: Result<u64, OfferRefused>) -> Option<Refusal> {
    match offered {
        Ok(_) => None,
        Err(refused) => Some(refused.refusal),
    }
}

/// Offers so many frames to a stream.
fn offer<L: Epoch>(
    rt: &(impl Abort + Wait),
    alloc: Global,
    hub: &Hub<L>,
    seat: &mut StreamSeat<L>,
    count: u64,
) {
    let header = header_of(rt, alloc);
    for n in 0..count {
        let offer = Offer {
            at: 0,
            frame: strange(rt, alloc, &header),
            memory: None,
        };
        let refusal = refusal_of(hub.offer(rt, alloc, seat, offer));
        same_at(rt, refusal, None, n);
    }
}

/// Finishes frames of the stream, and offers frames to the other one.
fn prepare<L: Epoch>(
    rt: &(impl Abort + Wait),
    alloc: Global,
    hub: &Hub<L>,
    worker: &mut WorkSeat<L>,
    other: &mut StreamSeat<L>,
    step: Step,
) {
    for n in 0..step.finished {
        finish_one(rt, alloc, hub, worker, step.is_forged && n == 0);
    }
    offer(rt, alloc, hub, other, step.busy);
}

/// The end of a hub with these seats.
fn finished<L: Epoch>(
    rt: &impl Abort,
    hub: Hub<L>,
    streams: Vec<StreamSeat<L>>,
    workers: Vec<WorkSeat<L>>,
) -> Ended
    ensures { result.streams ≡ map left_by streams.items }
{
    match hub.finish(streams, workers) {
        Ok(ended) => ended,
        Err(mismatch) => panic!(rt; "{:?}", mismatch.fault),
    }
}

/// The end of an epoch in which the client paused.
fn end_epoch<L: Epoch>(
    rt: &impl Abort,
    alloc: Global,
    hub: Hub<L>,
    seat: StreamSeat<L>,
    other: StreamSeat<L>,
    worker: WorkSeat<L>,
) -> Ended
    ensures { result.streams ≡ left_by seat ∷ left_by other ∷ [] }
{
    let seats = two_of(rt, alloc, seat, other);
    finished(rt, hub, seats, one_of(rt, alloc, worker))
}

/// An epoch, in which the client has its turn.
fn epoch<'a, L: Epoch, R: Source + Drop, T: Abort + Wait>(
    rt: &T,
    alloc: Global,
    hub: Hub<L>,
    seat: StreamSeat<L>,
    other: StreamSeat<L>,
    worker: WorkSeat<L>,
    rest: ClientRest<R, Output<'a>>,
    step: Step,
) -> Came<'a, R>
    requires header { IsOfHeader (reader_in rest).header seat.chain.geometry }
    requires rest { IsRest seat rest }
{
    let (mut other, mut worker) = (other, worker);
    prepare(rt, alloc, &hub, &mut worker, &mut other, step);
    match client(rt, alloc, &hub, seat, rest, &Still(0)) {
        ClientTurn::Ended(end) => {
            let torn = end.seat.torn();
            let written = end.writer.sink.into_inner().room.taken;
            Came::Ended(end.stop, end.accepted, end.delivered, torn, written)
        }
        ClientTurn::Paused(seat, rest, _) => {
            let ended = end_epoch(rt, alloc, hub, seat, other, worker);
            Came::Paused(Paused { ended, rest })
        }
    }
}

/// The first epoch of a stream.
fn first_epoch<'a, L: Epoch, R: Source + Drop, T: Abort + Wait>(
    rt: &T,
    alloc: Global,
    blank: Blank,
    setup: Setup,
    reader: StreamReader<R>,
    sink: Output<'a>,
    step: Step,
) -> Came<'a, R>
    requires name { blank.name ≡ L.name }
    requires parts { blank.parts ≡ L.parts }
    requires enough { blank.parts ≡ 80 }
    requires opening { opened_schedule setup ≡ L.opening }
    requires streams { (stream : rules.StreamSpec) × (other : rules.StreamSpec)
        × (setup.streams ≡ stream ∷ other ∷ []) × IsOfHeader reader.header stream.chain.geometry }
    requires open { reader.phase ≡ Phase.Open }
{
    let rest = ClientRest::new(reader, sink);
    let (hub, streams, workers) = hub_of::<L>(rt, alloc, blank, setup, 16);
    let (seat, other) = both(rt, streams);
    epoch(rt, alloc, hub, seat, other, sole(rt, workers), rest, step)
}

/// The next epoch of a hub that ended, for at most 16 entries.
fn reopened<L: Epoch>(rt: &impl Abort, alloc: Global, blank: Blank, ended: Ended) -> Reopened<L>
    requires name { blank.name ≡ L.name }
    requires parts { blank.parts ≡ L.parts }
    requires enough { blank.parts ≡ 80 }
    requires opening { ended.book.desk ≡ L.opening }
    ensures { result.streams.items ≡ map (seat_over 16) ended.streams }
{
    match Hub::<L>::reopen(alloc, blank, ended, 16) {
        Ok(next) => next,
        Err(refused) => panic!(rt; "{:?}", refused.refusal),
    }
}

/// The next epoch of a stream.
fn next_epoch<'a, L: Epoch, R: Source + Drop, T: Abort + Wait>(
    rt: &T,
    alloc: Global,
    blank: Blank,
    paused: Paused<'a, R>,
    step: Step,
) -> Came<'a, R>
    requires name { blank.name ≡ L.name }
    requires parts { blank.parts ≡ L.parts }
    requires enough { blank.parts ≡ 80 }
    requires opening { paused.0.book.desk ≡ L.opening }
{
    let Paused { ended, rest } = paused;
    let next = reopened::<L>(rt, alloc, blank, ended);
    let (seat, other) = both(rt, next.streams);
    epoch(
        rt,
        alloc,
        next.hub,
        seat,
        other,
        sole(rt, next.workers),
        rest,
        step,
    )
}

/// The first epoch of the stream of this source, which may accept so many frames.
fn begin<'a, R: Source + Drop, T: Abort + Wait>(
    rt: &T,
    alloc: Global,
    source: R,
    frames: u64,
    sink: Output<'a>,
    step: Step,
) -> Came<'a, R> {
    let reader = StreamReader::open(alloc, source).expect(rt, "no reader");
    let setup = pair_of(rt, alloc, reader.header(), frames);
    first_epoch::<Brand, _, _>(rt, alloc, Blank::new(80), setup, reader, sink, step)
}

/// The epoch after one in which the client paused.
fn resume<'a, R: Source + Drop, T: Abort + Wait>(
    rt: &T,
    alloc: Global,
    came: Came<'a, R>,
    step: Step,
) -> Came<'a, R> {
    match came {
        Came::Paused(paused) => {
            next_epoch::<Brand, _, _>(rt, alloc, Blank::new(80), paused, step)
        }
        Came::Ended(_, _, _, _, _) => panic!(rt; "it ended early"),
    }
}

/// Goes on from epoch to epoch, and compares what each comes to. It tells what the seat notes of a Torn in
/// the end, and what was written.
fn go_on<R: Source + Drop, T: Abort + Wait>(
    rt: &T,
    alloc: Global,
    first: Came<'_, R>,
    bell: &Bell,
    tries: &Tries,
    later: &[Step],
    name: &str,
) -> (Option<u64>, Vec<u8>) {
    let mut came = first;
    for step in later {
        bell.ring(!step.is_silent);
        tries.allow(step.takes);
        came = resume(rt, alloc, came, *step);
        came.is_after(rt, step.after, name);
    }
    came.end(rt)
}

/// Serves the stream of a case, epoch by epoch.
pub(super) fn follow<T: Abort + Wait>(rt: &T, alloc: Global, case: &Case<'_>) {
    let (bell, tries) = (Bell::new(), Tries::new());
    let source = Shy {
        source: Framed::over(case.input),
        bell: &bell,
    };
    let (first, later) = case.steps.split_first().expect(rt, "no epoch");
    bell.ring(!first.is_silent);
    tries.allow(first.takes);
    let room = Room::new(alloc, case.room).expect(rt, "no room");
    let sink = output(room, &tries);
    let came = begin(rt, alloc, source, case.frames, sink, *first);
    came.is_after(rt, first.after, case.name);
    let (torn, written) = go_on(rt, alloc, came, &bell, &tries, later, case.name);
    same_at(rt, torn, case.torn, case.name);
    same_at(rt, written.as_slice(), case.written, case.name);
}

/// Whether a stream of three frames gives its reader back behind its first epoch, in which it paused.
pub(super) fn gives_back<T: Abort + Wait>(rt: &T, alloc: Global, step: Step) -> bool {
    let (bell, tries) = (Bell::new(), Tries::new());
    let source = Shy {
        source: Framed::over(THREE),
        bell: &bell,
    };
    bell.ring(!step.is_silent);
    tries.allow(step.takes);
    let room = Room::new(alloc, PLAIN.room).expect(rt, "no room");
    let sink = output(room, &tries);
    match begin(rt, alloc, source, PLAIN.frames, sink, step) {
        Came::Paused(paused) => paused.rest.into_unread().is_some(),
        Came::Ended(_, _, _, _, _) => panic!(rt; "it ended early"),
    }
}
