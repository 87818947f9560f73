//! One stream, which one worker and one client serve.
ghost use Rattle.std.specs.Prelude.{◌≡◌, ⊤, [], ◌∷◌};
ghost use Rattle.std.specs.Thread.{IsSend, IsSync};
ghost use Rattle.y4m_stream.specs.Reader.{IsOfHeader};
ghost use Rattle.serve_core.specs.Schedule.{opened_schedule};
ghost use Rattle.serve_core.specs.Setup as rules;
ghost use Rattle.serve_hub.specs.Seats.{opened_streams};
ghost use Rattle.serve_client.specs.Clients.{IsNewSeat};

use super::lists::{one_of, put, sole};
use super::same_at;
use filters::{Chain, parse_ops};
use frame_view::Geometry;
use lease::JobSpec;
use row_bands::BandHeight;
use serve_core::{Refusal as Core, Setup, StreamSpec};
use serve_hub::{Act, Epoch, Hub, Opened, Refusal, StreamSeat, WorkSeat};
use serve_work::{ClientEnd, ClientRest, ClientTurn, Clock, Gate, Stop, client, work};
use std::alloc::Global;
use std::marker::Brand;
use std::process::Abort;
use std::sync::atomic::{AtomicU64, Ordering};
use std::sync::ledger::Blank;
use std::sync::{Arc, Wait};
use std::thread;
use std::thread::Threads;
use test_tools::Room;
use y4m_header::Header;
use y4m_stream::reader::Phase;
use y4m_stream::{OverRead, OverWrite, Source, StreamReader};

/// What a stream is served with: its operations, how many rows a band has, how many bytes its writer takes,
/// how many frames it may accept, and the moment of its first offer.
#[derive(Clone, Copy)]
pub(super) struct Plan<'a> {
    pub(super) ops: &'a str,
    pub(super) band: u32,
    pub(super) room: usize,
    pub(super) frames: u64,
    pub(super) moment: u64,
}

/// Samples are inverted, and nothing is refused.
pub(super) const PLAIN: Plan<'static> = Plan {
    ops: "invert",
    band: 16,
    room: 1 << 16,
    frames: 1 << 24,
    moment: 0,
};

/// What came of a stream: what was written, the moments to which its frames moved the clock, how many frames
/// were accepted and how many images written whole, and why the client stopped.
#[derive(Drop)]
pub(super) struct Told {
    pub(super) written: Vec<u8>,
    pub(super) ticks: Vec<u64>,
    pub(super) accepted: u64,
    pub(super) delivered: u64,
    pub(super) stop: Stop,
}

/// Bands are done at once, and whole.
#[derive(Drop)]
pub(super) struct Open;

impl Gate for Open {
    fn before_band(&self, _worker: u32, _stream: u32, _number: u64) {}

    fn allows_halves(&self, _samples: usize) -> bool {
        false
    }

    fn before_half(&self, _worker: u32, _half: u32) {}
}

/// Always the same moment.
#[derive(Drop)]
pub(super) struct Still(pub(super) u64);

impl Clock for Still {
    ghost gives = { λ _ _. ⊤ };

    fn moment(&self) -> u64 {
        self.0
    }
}

/// Each time that it is asked, the moment after the last one.
#[derive(Drop)]
pub(super) struct Counting(pub(super) AtomicU64);

impl Clock for Counting {
    ghost gives = { λ _ _. ⊤ };

    fn moment(&self) -> u64 {
        self.0.fetch_add(1, Ordering::SeqCst)
    }
}

/// A hub of one stream and one worker, with their seats.
type Seated<L> = (Hub<L>, StreamSeat<L>, WorkSeat<L>);

/// A writer that takes so many bytes.
pub(super) fn writer_of(rt: &impl Abort, alloc: Global, room: usize) -> OverWrite<Room> {
    OverWrite::new(Room::new(alloc, room).expect(rt, "a room"))
}

/// A stream of frames of this header.
pub(super) fn stream_of(
    rt: &impl Abort,
    alloc: Global,
    header: &Header,
    plan: Plan<'_>,
) -> StreamSpec
    ensures { IsOfHeader header.now result.chain.geometry }
{
    let band_height = BandHeight::new(plan.band).expect(rt, "no height");
    let ops = parse_ops(alloc, plan.ops.as_bytes()).expect(rt, "no operations");
    let geometry = Geometry::of(header);
    let chain = Chain::new(alloc, ops, geometry, band_height).expect(rt, "no chain");
    let spec = Arc::new(alloc, JobSpec::new(chain)).expect(rt, "no spec");
    StreamSpec::new(geometry, spec, 1, 2, 4, 4, plan.frames)
}

/// A setup of so many workers and these streams.
pub(super) fn setup_over(rt: &impl Abort, workers: u64, streams: Vec<StreamSpec>) -> Setup
    ensures { result.streams ≡ streams.items }
{
    Setup::new(workers, 4, streams).expect(rt, "no setup")
}

/// A setup of one worker and one stream, whose frames are of this header.
fn setup_of(rt: &impl Abort, alloc: Global, header: &Header, plan: Plan<'_>) -> Setup
    ensures { (stream : rules.StreamSpec) × (result.streams ≡ stream ∷ [])
        × IsOfHeader header.now stream.chain.geometry }
{
    let stream = stream_of(rt, alloc, header, plan);
    setup_over(rt, 1, one_of(rt, alloc, stream))
}

/// The hub of this setup, for at most so many entries, with its seats.
pub(super) fn hub_of<L: Epoch>(
    rt: &impl Abort,
    alloc: Global,
    blank: Blank,
    setup: Setup,
    limit: usize,
) -> Opened<L>
    requires name { blank.name ≡ L.name }
    requires parts { blank.parts ≡ L.parts }
    requires enough { blank.parts ≡ 80 }
    requires opening { opened_schedule setup ≡ L.opening }
    ensures { result.1.items ≡ opened_streams limit 0 setup.streams }
{
    Hub::<L>::new(alloc, blank, setup, limit).expect(rt, "no hub")
}

fn seated_of<L: Epoch>(rt: &impl Abort, alloc: Global, blank: Blank, setup: Setup) -> Seated<L>
    requires name { blank.name ≡ L.name }
    requires parts { blank.parts ≡ L.parts }
    requires enough { blank.parts ≡ 80 }
    requires opening { opened_schedule setup ≡ L.opening }
    requires one { (stream : rules.StreamSpec) × (setup.streams ≡ stream ∷ []) }
    ensures chain { (stream : rules.StreamSpec) → setup.streams ≡ stream ∷ []
        → result.1.chain ≡ stream.chain }
    ensures fresh { IsNewSeat result.1 }
{
    let (hub, streams, workers) = hub_of::<L>(rt, alloc, blank, setup, 1000);
    (hub, sole(rt, streams), sole(rt, workers))
}

/// A thread works while the client is served here. The worker ends where all is done.
fn run<L: Epoch + Send + Sync, R: Source + Drop, T: Abort + Threads + Wait + Sync>(
    rt: &T,
    alloc: Global,
    hub: &Hub<L>,
    worker: WorkSeat<L>,
    seat: StreamSeat<L>,
    reader: StreamReader<R>,
    writer: OverWrite<Room>,
    clock: &Counting,
) -> (ClientTurn<L, R, OverWrite<Room>>, Refusal)
    requires header { IsOfHeader reader.header seat.chain.geometry }
    requires fresh { IsNewSeat seat }
    requires open { reader.phase ≡ Phase.Open }
{
    thread::scope(
        thread::scope_env(),
        rt,
        |scope|
            requires { IsSync T.row × IsSync L.row × IsSend L.row
                × IsOfHeader reader.header seat.chain.geometry × IsNewSeat seat
                × (reader.phase ≡ Phase.Open) }
        {
            let working = scope
                .spawn(move || work(rt, hub, worker, &Open).1)
                .ok()
                .expect(rt, "was a thread or its memory refused?");
            let rest = ClientRest::new(reader, writer);
            let turn = client(rt, alloc, hub, seat, rest, clock);
            (turn, working.join(rt))
        },
    )
}

/// The end of a client. It didn't pause.
fn end_of<L: Epoch, R: Source + Drop>(
    rt: &impl Abort,
    turn: ClientTurn<L, R, OverWrite<Room>>,
) -> ClientEnd<L, R, OverWrite<Room>> {
    match turn {
        ClientTurn::Ended(end) => end,
        ClientTurn::Paused(_, _, _) => panic!(rt; "the client pauses"),
    }
}

/// Serves the stream of this input by one worker and one client.
pub(super) fn served<T: Abort + Threads + Wait + Sync>(
    rt: &T,
    alloc: Global,
    input: &[u8],
    plan: Plan<'_>,
) -> Told {
    let reader = StreamReader::open(alloc, OverRead::new(input)).expect(rt, "no reader");
    let setup = setup_of(rt, alloc, reader.header(), plan);
    served_by::<Brand, _, _>(rt, alloc, Blank::new(80), setup, reader, plan)
}

/// The moments that these calls tell.
fn ticks_in(rt: &impl Abort, alloc: Global, calls: &[Act]) -> Vec<u64> {
    let mut ticks = Vec::new(alloc);
    for call in calls {
        if let Act::Offered(Some(tick), _) = call {
            put(rt, &mut ticks, *tick);
        }
    }
    ticks
}

/// What came of a stream whose client ended so.
fn told_of<L: Epoch, R: Source + Drop>(
    rt: &impl Abort,
    alloc: Global,
    end: ClientEnd<L, R, OverWrite<Room>>,
) -> Told {
    Told {
        ticks: ticks_in(rt, alloc, end.seat.calls()),
        written: end.writer.into_inner().taken,
        accepted: end.accepted,
        delivered: end.delivered,
        stop: end.stop,
    }
}

/// The same, with the ledger's name.
fn served_by<L: Epoch + Send + Sync, R: Source + Drop, T: Abort + Threads + Wait + Sync>(
    rt: &T,
    alloc: Global,
    blank: Blank,
    setup: Setup,
    reader: StreamReader<R>,
    plan: Plan<'_>,
) -> Told
    requires name { blank.name ≡ L.name }
    requires parts { blank.parts ≡ L.parts }
    requires enough { blank.parts ≡ 80 }
    requires opening { opened_schedule setup ≡ L.opening }
    requires stream { (stream : rules.StreamSpec) × (setup.streams ≡ stream ∷ [])
        × IsOfHeader reader.header stream.chain.geometry }
    requires open { reader.phase ≡ Phase.Open }
{
    let writer = writer_of(rt, alloc, plan.room);
    let clock = Counting(AtomicU64::new(plan.moment));
    let (hub, seat, worker) = seated_of::<L>(rt, alloc, blank, setup);
    let (turn, refusal) = run(rt, alloc, &hub, worker, seat, reader, writer, &clock);
    same_at(
        rt,
        refusal,
        Refusal::Core(Core::Drained),
        "how the worker ends",
    );
    told_of(rt, alloc, end_of(rt, turn))
}
