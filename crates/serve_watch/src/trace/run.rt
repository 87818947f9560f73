//! The trace of a run.

use super::lane::Lane;
use super::record::Doing;
use super::spool::Spool;
use super::stream::StreamLane;
use super::worker::WorkerLane;
use crate::presence::Presence;
use crate::watch::Watch;
use lease::LeaseReport;
use std::alloc::{AllocError, Global};
use std::io::Write;
use std::sync::atomic::{AtomicBool, AtomicU64, Ordering};
use std::sync::{Mutex, Wait};
use std::time::Clock;

/// A watch that tells another one what it is told, and writes the trace of the run: a lane for each worker,
/// with its leases, and one for each stream, with what its client does.
///
/// The memory of a lane is reserved at the start. Where it is full its records are written, whole. Each lane
/// has a lock, which only its worker or its client takes; while it is held that of the file may be taken, and
/// no other is held then.
#[derive(Drop)]
pub struct Trace<'t, 'n, 'w, W: Write, V: Watch, T: Wait + Clock> {
    spool: Spool<'t, W, T>,
    inner: Option<&'w V>,
    workers: Vec<Mutex<WorkerLane>>,
    streams: Vec<StreamLane<'n>>,
    epochs: AtomicU64,
    /// It was told that the run begins. Else nothing of the run is told to it.
    has_begun: AtomicBool,
}

impl<'t, 'n, 'w, W: Write + Drop, V: Watch, T: Wait + Clock> Trace<'t, 'n, 'w, W, V, T> {
    /// Begins the trace of so many workers and of streams of these names, where there was memory for them, in
    /// a file that was made, or in none.
    pub fn start(
        rt: &'t T,
        alloc: Global,
        output: Option<W>,
        workers: u64,
        names: Option<Vec<&'n str>>,
        inner: Option<&'w V>,
    ) -> Trace<'t, 'n, 'w, W, V, T> {
        let mut trace = Trace {
            spool: Spool::new(rt, output),
            inner,
            workers: Vec::new(alloc),
            streams: Vec::new(alloc),
            epochs: AtomicU64::new(0),
            has_begun: AtomicBool::new(false),
        };
        if trace.add_lanes(alloc, workers, names).is_err() {
            trace.spool.lose();
        }
        trace
    }

    /// Adds the lanes, and tells their names.
    fn add_lanes(
        &mut self,
        alloc: Global,
        workers: u64,
        names: Option<Vec<&'n str>>,
    ) -> Result<(), AllocError> {
        for worker in 0..workers {
            let lane = self.lane(alloc);
            let mut added = WorkerLane::new(worker, lane);
            added.tell_name(&self.spool);
            self.workers.push(Mutex::new(added))?;
        }
        let Some(names) = names else {
            self.spool.lose();
            return Ok(());
        };
        self.add_streams(alloc, names)
    }

    fn add_streams(&mut self, alloc: Global, names: Vec<&'n str>) -> Result<(), AllocError> {
        for name in names {
            let lane = self.lane(alloc);
            let number = self.streams.len() as u64 + 1;
            let added = StreamLane::new(name, number, lane);
            added.tell_name(&self.spool);
            self.streams.push(added)?;
        }
        Ok(())
    }

    /// The memory of a lane. Where there is none, what would stand there is lost.
    fn lane(&self, alloc: Global) -> Option<Lane> {
        let lane = Lane::new(alloc).ok();
        if lane.is_none() {
            self.spool.lose();
        }
        lane
    }

    /// Writes what is left of each lane, and answers whether nothing of the trace was lost.
    pub fn end(&self) -> bool {
        for worker in &self.workers {
            worker.lock(self.spool.rt()).write_out(&self.spool);
        }
        self.end_streams();
        let is_whole = self.spool.end();
        is_whole && self.has_begun.load(Ordering::SeqCst)
    }

    fn end_streams(&self) {
        for stream in &self.streams {
            stream.end(&self.spool);
        }
    }
}

impl<'t, 'n, 'w, W: Write + Drop, V: Watch, T: Wait + Clock> Watch for Trace<'t, 'n, 'w, W, V, T> {
    fn begins(&self, names: &[&str]) {
        self.has_begun.store(true, Ordering::SeqCst);
        if let Some(inner) = self.inner {
            inner.begins(names);
        }
    }

    fn awaits_stream(&self) {
        if let Some(inner) = self.inner {
            inner.awaits_stream();
        }
    }

    fn joins(&self, stream: usize, name: &str, presence: Presence) {
        if let Some(inner) = self.inner {
            inner.joins(stream, name, presence);
        }
    }

    fn opened(&self, stream: usize) {
        if let Some(inner) = self.inner {
            inner.opened(stream);
        }
    }

    fn frame_read(&self, stream: usize) {
        if let (Some(lane), Some(now)) = (self.streams.get(stream), self.spool.now()) {
            lane.frame_read(&self.spool, now);
        }
        if let Some(inner) = self.inner {
            inner.frame_read(stream);
        }
    }

    fn image_written(&self, stream: usize, bytes: u64) {
        if let (Some(lane), Some(now)) = (self.streams.get(stream), self.spool.now()) {
            lane.image_written(&self.spool, now);
        }
        if let Some(inner) = self.inner {
            inner.image_written(stream, bytes);
        }
    }

    fn ends(&self) {
        if let Some(inner) = self.inner {
            inner.ends();
        }
    }

    fn begins_doing(&self, stream: usize, doing: Doing) {
        if let (Some(lane), Some(now)) = (self.streams.get(stream), self.spool.now()) {
            lane.begin(&self.spool, doing, now);
        }
    }

    fn ends_doing(&self, stream: usize, has_failed: bool) {
        if let (Some(lane), Some(now)) = (self.streams.get(stream), self.spool.now()) {
            lane.come_back(self.spool.rt(), has_failed, now);
        }
    }

    fn epoch_begins(&self) {
        self.epochs.fetch_add(1, Ordering::SeqCst);
    }

    fn follows_leases(&self) -> bool {
        true
    }

    fn lease_begins(&self, worker: u32) {
        if let (Some(lane), Some(now)) = (self.workers.get(worker as usize), self.spool.now()) {
            lane.lock(self.spool.rt()).begin(now);
        }
    }

    fn lease_ends(
        &self,
        worker: u32,
        stream: usize,
        report: LeaseReport,
        deadline: Option<(u64, u64)>,
    ) {
        let (Some(lane), Some(stream)) = (
            self.workers.get(worker as usize),
            self.streams.get(stream),
        ) else {
            return;
        };
        let Some(now) = self.spool.now() else {
            return;
        };
        let epoch = self.epochs.load(Ordering::SeqCst);
        lane.lock(self.spool.rt())
            .end(&self.spool, stream, report, deadline, epoch, now);
    }
}
