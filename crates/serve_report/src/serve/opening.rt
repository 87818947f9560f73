//! Opening the streams of a run, side by side.
ghost use Rattle.std.specs.Prelude.{ℕ, ◌≡◌, ◌<◌, ◌++◌, ◌∷◌, [], IfErr, IfOk, OnOk, length, map};
ghost use Rattle.std.specs.Prelude.{slice_index_or, vec_len};
ghost use Rattle.std.specs.Arc.{arc_value};
ghost use Rattle.std.specs.List.{AllZip};
ghost use Rattle.filters.specs.Chain.{chain_of};
ghost use Rattle.filters.specs.Refusal.{IsChainRefusedAs};
ghost use Rattle.y4m_stream.specs.Failures.{one_more};
ghost use Rattle.y4m_stream.specs.Reader.{IsOpened};
ghost use Rattle.serve_work.specs.Sessions.{AreInputs};
ghost use Rattle.serve_report.specs.Entrants.{entered, stopped};
ghost use Rattle.serve_files.specs.Inlets.{inlet_remaining};
ghost use Rattle.serve_report.specs.Openings.{HasNoEntry, HasNoHeader, IsEntry, IsOpening, entrant_of};
ghost use Rattle.serve_report.specs.Openings.{entry_of, input_of, inputs_in, made_after, opening_of};
ghost use Rattle.serve_report.specs.Openings.{openings_of, specs_in};

use super::ready::{Input, Ready};
use super::report::StreamStop;
use crate::host::Host;
use filters::{Chain, FilterError, Op};
use frame_view::Geometry;
use lease::JobSpec;
use row_bands::BandHeight;
use serve_core::StreamSpec;
use serve_files::{Files, Inlet, OverInflow, OverOutflow, StreamFiles, inflow_of, outflow_of};
use serve_watch::{Watch, WatchedSink, WatchedSource};
use serve_words::Asked;
use std::alloc::{AllocError, Global};
use std::io::Read;
use std::sync::{Arc, Wait};
use std::thread::{self, Threads};
use std::time::Clock;
use y4m_header::MOST_FRAMES;
use y4m_stream::{ReadFault, Sink, Source, StreamReader};

/// The most frames of a stream that may be unfinished.
const QUEUE: u64 = 4;

/// The most images of a stream that may wait to be written.
const OUTBOX: u64 = 4;

/// A stream of a run: its name, and why it takes no part in the session, if it doesn't.
#[derive(Clone, Copy)]
pub struct Entrant<'a> {
    pub name: &'a str,
    pub stop: Option<StreamStop>,
}

/// What the streams of a run are read from.
pub type Inflows<'w, F, V, T> = WatchedSource<
    'w,
    OverInflow<<F as Files>::Reader, <F as Files>::Slow, T>,
    V,
>;

/// What the images of a run's streams are written to.
pub type Outflows<'w, F, V, T> = WatchedSink<
    'w,
    OverOutflow<<F as Files>::Writer, <F as Files>::SlowWriter, T>,
    V,
>;

/// The streams of a run, and of those that take part in the session what they are served with, and their
/// files.
#[derive(Drop)]
pub struct Opened<'a, R: Source, W: Sink> {
    pub entrants: Vec<Entrant<'a>>,
    pub specs: Vec<StreamSpec>,
    pub inputs: Vec<Input<R, W>>,
}

/// A stream that is to be opened, and its place among all of them.
#[derive(Drop)]
struct Placed<'a> {
    stream: usize,
    asked: Asked<'a>,
}

/// What came of opening a stream.
#[derive(Drop)]
pub struct Tried<'a, R: Source, W: Sink> {
    name: &'a str,
    /// How many files were opened for it.
    opened: u64,
    /// How many were made.
    made: u64,
    ready: Result<Ready<R, W>, StreamStop>,
}

impl<'a, R: Source, W: Sink> Opened<'a, R, W> {
    /// A stream of which nothing was opened, or which stopped there.
    fn add_stopped(&mut self, name: &'a str, stop: StreamStop) -> Result<(), AllocError>
        ensures entrants { OnOk result
            (self.new.entrants.items ≡ self.old.entrants.items ++ stopped name.entry stop ∷ []) }
        ensures others { (self.new.specs ≡ self.old.specs) × (self.new.inputs ≡ self.old.inputs) }
    {
        let stop = Some(stop);
        self.entrants.push(Entrant { name, stop })?;
        Ok(())
    }

    /// A stream that takes part.
    fn add_open(&mut self, name: &'a str, ready: Ready<R, W>) -> Result<(), AllocError>
    where
        R: Drop,
        W: Drop,
        ensures entrants { OnOk result
            (self.new.entrants.items ≡ self.old.entrants.items ++ entered name.entry ∷ []) }
        ensures specs { OnOk result (self.new.specs.items ≡ self.old.specs.items ++ ready.spec ∷ []) }
        ensures inputs { OnOk result (self.new.inputs.items ≡ self.old.inputs.items ++ ready.input ∷ []) }
    {
        let Ready { spec, input } = ready;
        self.specs.push(spec)?;
        self.inputs.push(input)?;
        self.entrants.push(Entrant { name, stop: None })?;
        Ok(())
    }
}

impl<'t, 'f, 'w, F, V, T> Host<'t, 'f, 'w, F, V, T>
where
    F: Files + Sync,
    F::Reader: Send,
    F::Slow: Send + 'static,
    F::Writer: Send,
    F::SlowWriter: Send + 'static,
    V: Watch + Sync,
    T: Threads + Wait + Clock + Copy + Drop + Send + Sync + 'static,
{
    /// Opens the streams side by side, each in a thread of its own, or in turn where threads are refused. One
    /// that stops here leaves the others as they are. The watch is told of their frames by their places among
    /// all of them.
    pub fn open_all<'a>(
        self,
        streams: Vec<Asked<'a>>,
        height: BandHeight,
    ) -> Result<Vec<Tried<'a, Inflows<'w, F, V, T>, Outflows<'w, F, V, T>>>, AllocError>
        ensures { IfOk result (λ tried. AllZip (IsOpening F.open_gives F.create_gives height)
            streams.entry.items (openings_of tried.items)) }
    {
        let placed = place_all(self.alloc, streams)?;
        let tried = self.try_all(placed, height)?;
        Ok(tried)
    }

    /// Opens each stream.
    fn try_all<'a>(
        self,
        placed: Vec<Placed<'a>>,
        height: BandHeight,
    ) -> Result<Vec<Tried<'a, Inflows<'w, F, V, T>, Outflows<'w, F, V, T>>>, AllocError>
        ensures count { IfOk result (λ tried. vec_len tried ≡ vec_len placed.entry) }
        ensures each { IfOk result (λ tried. (i : ℕ) (job : _) (given : _) → i < length placed.entry.items
            → IsOpening F.open_gives F.create_gives height (slice_index_or placed.entry.items i job).asked
            (opening_of (slice_index_or tried.items i given))) }
    {
        let open = move |placed|
            ensures { IsOpening F.open_gives F.create_gives height placed.entry.asked (opening_of result) }
        { self.try_stream(placed, height) };
        let tried = thread::map_vec(self.rt, placed, &open)?;
        Ok(tried)
    }

    /// Opens a stream.
    fn try_stream<'a>(
        self,
        placed: Placed<'a>,
        height: BandHeight,
    ) -> Tried<'a, Inflows<'w, F, V, T>, Outflows<'w, F, V, T>>
        ensures { IsOpening F.open_gives F.create_gives height placed.entry.asked (opening_of result) }
    {
        let Placed { stream, asked } = placed;
        let name = asked.word.name;
        let mut files = StreamFiles::new(self.files);
        let ready = self.open_stream(asked, height, &mut files, stream);
        if let Some(watch) = self.watch {
            watch.opened(stream);
        }
        Tried {
            name,
            opened: files.opened,
            made: files.made,
            ready,
        }
    }

    /// Opens the input, reads its header, makes the chain, and makes the output.
    fn open_stream(
        self,
        asked: Asked<'_>,
        height: BandHeight,
        files: &mut StreamFiles<'_, F>,
        stream: usize,
    ) -> Result<Ready<Inflows<'w, F, V, T>, Outflows<'w, F, V, T>>, StreamStop>
        ensures opened { files.new.opened ≡ one_more files.old.opened }
        ensures made { files.new.made ≡ made_after result files.old.made }
        ensures ready { IfOk result (λ ready. IsEntry F.open_gives F.create_gives height asked.entry
            (entry_of ready)) }
        ensures stop { IfErr result (HasNoEntry F.open_gives F.create_gives height asked.entry) }
        ensures stream { IfOk result (λ ready. ready.input.1.stream ≡ stream) }
    {
        let word = asked.word;
        let inlet = match files.open(word.input) {
            Ok(inlet) => inlet,
            Err(_) => return Err(StreamStop::Open),
        };
        let reader = match open_reader(self.rt, self.alloc, inlet, stream, self.watch) {
            Ok(reader) => reader,
            Err(fault) => return Err(StreamStop::Read(fault)),
        };
        let geometry = Geometry::of(reader.header());
        let job_spec = match job_of(self.alloc, asked.ops, geometry, height) {
            Ok(job_spec) => job_spec,
            Err(error) => return Err(StreamStop::Ops(error)),
        };
        let outlet = match files.create(word.output) {
            Ok(outlet) => outlet,
            Err(_) => return Err(StreamStop::Create),
        };
        let spec = spec_of(word.q, word.t, geometry, job_spec);
        let inner_sink = OverOutflow::new(outflow_of(self.rt, self.alloc, outlet));
        let sink = WatchedSink::new(inner_sink, stream, self.watch);
        let input = (reader, sink);
        Ok(Ready { spec, input })
    }
}

/// The streams with their places, which begin at 0.
fn place_all<'a>(alloc: Global, streams: Vec<Asked<'a>>) -> Result<Vec<Placed<'a>>, AllocError>
    ensures { IfOk result (λ placed. map (λ placed. placed.asked) placed.items ≡ streams.entry.items) }
{
    let mut placed = Vec::new(alloc);
    for asked in streams {
        let stream = placed.len();
        placed.push(Placed { stream, asked })?;
    }
    Ok(placed)
}

/// The streams, by what came of opening them.
pub fn gather_opened<'a, R: Source + Drop, W: Sink + Drop>(
    alloc: Global,
    tried: Vec<Tried<'a, R, W>>,
) -> Result<Opened<'a, R, W>, AllocError>
    ensures valid { IfOk result (λ opened. AreInputs opened.specs.items opened.inputs.items) }
    ensures entrants { IfOk result (λ opened. opened.entrants.items
        ≡ map entrant_of (openings_of tried.entry.items)) }
    ensures specs { IfOk result (λ opened. opened.specs.items
        ≡ specs_in (openings_of tried.entry.items)) }
    ensures inputs { IfOk result (λ opened. map (input_of W.contents W.failures) opened.inputs.items
        ≡ inputs_in (openings_of tried.entry.items)) }
{
    let mut opened = Opened {
        entrants: Vec::new(alloc),
        specs: Vec::new(alloc),
        inputs: Vec::new(alloc),
    };
    for stream in tried {
        let name = stream.name;
        match stream.ready {
            Ok(ready) => opened.add_open(name, ready)?,
            Err(stop) => opened.add_stopped(name, stop)?,
        }
    }
    Ok(opened)
}

/// Reads the header of an input.
fn open_reader<'w, R, S, V, T>(
    rt: &T,
    alloc: Global,
    inlet: Inlet<R, S>,
    stream: usize,
    watch: Option<&'w V>,
) -> Result<StreamReader<WatchedSource<'w, OverInflow<R, S, T>, V>>, ReadFault>
where
    R: Read + Drop,
    S: Read + Drop + Send + 'static,
    V: Watch,
    T: Threads + Wait + Clock + Copy + Drop + Send + 'static,
    ensures reader { IfOk result (IsOpened (inlet_remaining R.remaining inlet) 0) }
    ensures fault { IfErr result (HasNoHeader (inlet_remaining R.remaining inlet)) }
{
    let inner_source = OverInflow::new(inflow_of(rt, alloc, inlet));
    let source = WatchedSource::new(inner_source, stream, watch);
    let reader = StreamReader::open(alloc, source)?;
    Ok(reader)
}

/// What a stream of this share is served with.
pub fn spec_of(q: u64, t: u64, geometry: Geometry, job_spec: Arc<JobSpec>) -> StreamSpec
    ensures share { (result.maximum ≡ q) × (result.period ≡ t) }
    ensures places { (result.queue ≡ 4) × (result.outbox ≡ 4) × (result.frames ≡ MOST_FRAMES) }
    ensures chain { (result.geometry ≡ geometry) × (result.chain ≡ arc_value job_spec) }
{
    StreamSpec::new(geometry, job_spec, q, t, QUEUE, OUTBOX, MOST_FRAMES)
}

/// What is done to each frame of this geometry.
pub fn job_of(
    alloc: Global,
    ops: Vec<Op>,
    geometry: Geometry,
    height: BandHeight,
) -> Result<Arc<JobSpec>, FilterError>
    ensures spec { IfOk result (λ spec. arc_value spec ≡ chain_of ops.items geometry height) }
    ensures refused { IfErr result (λ error. IsChainRefusedAs error (chain_of ops.items geometry height)) }
{
    let chain = Chain::new(alloc, ops, geometry, height)?;
    let spec = Arc::new(alloc, JobSpec::new(chain))?;
    Ok(spec)
}
