//! Opening a stream beside the others.
ghost use Rattle.std.specs.Prelude.{ℕ, ◌≡◌, IfOk, List, Option, Some};
ghost use Rattle.serve_files.specs.Inlets.{inflow_remaining};
ghost use Rattle.serve_files.specs.Outlets.{outflow_contents};
ghost use Rattle.serve_report.specs.Openings.{IsEntry, entry_of};
ghost use Rattle.y4m_stream.specs.Reader.{IsOpened};

use super::StreamStop;
use super::closable::Closable;
use super::crew::{Crew, Helpers};
use super::errand::Errand;
use super::lobby::Lobby;
use super::losable::Losable;
use super::order::Order;
use crate::host::Host;
use crate::serve::{Ready, job_of, spec_of};
use frame_view::Geometry;
use row_bands::BandHeight;
use serve_files::{Carrier, Files, Inflow, Looker, OverOutflow, inflow_by, outflow_by};
use serve_watch::{Watch, WatchedSink, WatchedSource};
use serve_words::Asked;
use std::alloc::Global;
use std::io::Write;
use std::sync::{Arc, Wait};
use std::time::Clock;
use y4m_stream::{ReadFault, Sink, Source, StreamReader, Wanted};

/// For how many milliseconds it is waited for a header before it is looked whether its stream was closed.
const PATIENCE: u64 = 20;

/// The most bytes of a header line, with its line feed.
const HEADER_LINE: usize = 1024;

/// What the streams of a run are read from.
pub type Inflows<'w, F, V, T> = WatchedSource<
    'w,
    Closable<<F as Files>::Reader, <F as Files>::Slow, T>,
    V,
>;

/// What the images of a run's streams are written to.
pub type Outflows<'w, F, V, T> = WatchedSink<
    'w,
    Losable<OverOutflow<<F as Files>::Writer, <F as Files>::SlowWriter, T>>,
    V,
>;

/// What the threads of a run share.
pub type Shared<'w, 'o, F, V, T, O, E> = Lobby<
    'o,
    Inflows<'w, F, V, T>,
    Outflows<'w, F, V, T>,
    <F as Files>::Slow,
    O,
    E,
>;

/// What opens the streams of a run for a lobby: what the run stands on, the rows of a band, and the crew of
/// which some read and write for a stream whose files may wait.
#[derive(Drop)]
pub struct Opener<'t, 'f, 'w, 'l, 'c, F: Files, V, T: Wait + Drop, L> {
    pub host: Host<'t, 'f, 'w, F, V, T>,
    pub height: BandHeight,
    pub lobby: &'l L,
    pub crew: &'c Crew<F::Slow, F::SlowWriter, T>,
}

impl<'t, 'f, 'w, 'l, 'o, 'c, F, V, T, O, E> Opener<
    't,
    'f,
    'w,
    'l,
    'c,
    F,
    V,
    T,
    Shared<'w, 'o, F, V, T, O, E>,
>
where
    F: Files,
    V: Watch,
    T: Wait + Clock + Drop,
    O: Write,
    E: Write,
{
    /// Opens a stream: it waits to be served then, or it is told why it doesn't.
    pub fn open_errand(&self, errand: Errand) {
        let Errand { order, ops, .. } = errand;
        let rt = self.host.rt;
        let stream = order.number as usize;
        self.show(&order, stream);
        let helpers = self.crew.take(rt, order.number);
        let asked = Asked {
            word: order.word(),
            ops,
        };
        let ready = self.open_files(&order, asked, helpers, stream);
        if let Some(watch) = self.host.watch {
            watch.opened(stream);
        }
        match ready {
            Ok(ready) => self.lobby.make_ready(rt, &order, ready),
            Err(stop) => self.lobby.tell_stop(rt, &order, stop_of(&order, stop)),
        }
    }

    /// Has the watch show a stream, until it is told what the stream came to.
    fn show(&self, order: &Order, stream: usize) {
        if let (Some(watch), Some(presence)) = (self.host.watch, order.presence.for_another()) {
            watch.joins(stream, &order.name, presence);
        }
    }

    /// Opens the input, reads its header, makes the chain, and makes the output.
    fn open_files(
        &self,
        order: &Arc<Order, Global>,
        asked: Asked<'_>,
        helpers: Helpers<F::Slow, F::SlowWriter, T>,
        stream: usize,
    ) -> Result<Ready<Inflows<'w, F, V, T>, Outflows<'w, F, V, T>>, StreamStop>
        ensures { IfOk result (λ ready. IsEntry F.open_gives F.create_gives self.now.height asked.entry
            (entry_of ready)) }
    {
        let Asked { word, ops } = asked;
        let Helpers { looker, carrier } = helpers;
        let rt = self.host.rt;
        let reader = self.open_input(order, word.input, looker, stream)?;
        let geometry = Geometry::of(reader.header());
        let job_spec = match job_of(self.host.alloc, ops, geometry, self.height) {
            Ok(job_spec) => job_spec,
            Err(error) => return Err(StreamStop::Ops(error)),
        };
        self.lobby.end_header(rt, order);
        let sink = self.open_output(order, word.output, carrier, stream)?;
        let place = self.host.files.place(word.output);
        if !self.lobby.set_output(rt, order, place) {
            return Err(StreamStop::Create);
        }
        let spec = spec_of(word.q, word.t, geometry, job_spec);
        let input = (reader, sink);
        Ok(Ready { spec, input })
    }

    /// Opens the input and reads its header, unless the stream was closed, or another one reads the same
    /// FIFO.
    fn open_input(
        &self,
        order: &Arc<Order, Global>,
        name: &str,
        looker: Option<Looker<F::Slow, T>>,
        stream: usize,
    ) -> Result<StreamReader<Inflows<'w, F, V, T>>, StreamStop>
        ensures { IfOk result (λ reader. (bytes : Option (List ℕ)) × F.open_gives name.now (Some bytes)
            × IsOpened bytes 0 reader) }
    {
        if order.is_closed() {
            return Err(StreamStop::Closed);
        }
        let files = self.host.files;
        let Ok(inlet) = files.open(name) else {
            return Err(StreamStop::Open);
        };
        if !self.lobby.set_input(self.host.rt, order, files.place(name)) {
            return Err(StreamStop::Open);
        }
        let inflow = inflow_by(self.host.alloc, inlet, looker);
        match self.open_reader(order, inflow, stream) {
            Ok(reader) => Ok(reader),
            Err(fault) => Err(StreamStop::Read(fault)),
        }
    }

    /// Reads the header of an input, once something is there or the stream is closed.
    fn open_reader(
        &self,
        order: &Arc<Order, Global>,
        inflow: Inflow<F::Reader, F::Slow, T>,
        stream: usize,
    ) -> Result<StreamReader<Inflows<'w, F, V, T>>, ReadFault>
        ensures { IfOk result
            (IsOpened (inflow_remaining F.Reader.remaining F.Slow.remaining inflow) 0) }
    {
        let Ok(source_order) = Arc::try_clone(order) else {
            return Err(ReadFault::NoMemory);
        };
        let inner_source = Closable::new(inflow, source_order);
        await_input(self.host.rt, &inner_source);
        let source = WatchedSource::new(inner_source, stream, self.host.watch);
        let reader = StreamReader::open(self.host.alloc, source)?;
        Ok(reader)
    }

    /// Makes the output, unless the stream was closed, or is meanwhile: a FIFO is held open then, and may
    /// have no reader.
    fn open_output(
        &self,
        order: &Arc<Order, Global>,
        name: &str,
        carrier: Option<Carrier<F::SlowWriter, T>>,
        stream: usize,
    ) -> Result<Outflows<'w, F, V, T>, StreamStop>
        ensures output { IfOk result (λ sink.
            F.create_gives name.now (Some (outflow_contents F.Writer.contents sink.sink.sink.outflow))) }
        ensures no_failure { IfOk result (λ sink. sink.sink.sink.failures ≡ 0) }
    {
        if order.is_closed() {
            return Err(StreamStop::Closed);
        }
        let Ok(outlet) = self.host.files.make(name) else {
            return Err(StreamStop::Create);
        };
        if order.is_closed() {
            return Err(StreamStop::Closed);
        }
        let Ok(sink_order) = Arc::try_clone(order) else {
            return Err(StreamStop::Create);
        };
        let inner_sink = OverOutflow::new(outflow_by(outlet, carrier));
        let losable_sink = Losable::new(inner_sink, sink_order);
        Ok(WatchedSink::new(losable_sink, stream, self.host.watch))
    }
}

/// What is told of a stream that stopped so: where it was closed, that it was.
fn stop_of(order: &Order, stop: StreamStop) -> StreamStop {
    if order.is_closed() {
        return StreamStop::Closed;
    }
    stop
}

/// Waits until a source has its header line, the end or a fault, or is closed.
fn await_input<S: Source, T: Wait>(rt: &T, source: &S) {
    for _ in rt.forever() {
        if source.is_ready(PATIENCE, Wanted::line(HEADER_LINE, 0)) {
            return;
        }
    }
    unreachable!()
}
