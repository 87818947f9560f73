//! The lane of a worker.

use super::lane::Lane;
use super::record::{Frames, Lead, Leads, Leased, WorkerName};
use super::spool::Spool;
use super::stream::StreamLane;
use lease::LeaseReport;
use std::fmt::Display;
use std::io::Write;
use std::sync::Wait;
use std::time::Clock;

/// The lane of a worker, unless there was no memory for it, and when its latest lease began.
#[derive(Drop)]
pub struct WorkerLane {
    worker: u64,
    lane: Option<Lane>,
    since: u64,
}

impl WorkerLane {
    /// The lane of this worker.
    pub fn new(worker: u64, lane: Option<Lane>) -> WorkerLane {
        WorkerLane {
            worker,
            lane,
            since: 0,
        }
    }

    /// The number of its lane.
    fn lane_number(&self) -> u64 {
        self.worker.saturating_add(1)
    }

    /// Tells its name.
    pub fn tell_name<W: Write + Drop, T: Wait + Clock>(&mut self, spool: &Spool<'_, W, T>) {
        let name = WorkerName {
            lane: self.lane_number(),
            number: self.worker,
        };
        self.add(spool, &name);
    }

    /// A lease begins.
    pub fn begin(&mut self, now: u64) {
        self.since = now;
    }

    /// A lease of a frame of this stream ends, by which so much was done. Where the frame is finished, or the
    /// deadline is known, that is told too.
    pub fn end<W: Write + Drop, T: Wait + Clock>(
        &mut self,
        spool: &Spool<'_, W, T>,
        stream: &StreamLane<'_>,
        report: LeaseReport,
        deadline: Option<(u64, u64)>,
        epoch: u64,
        now: u64,
    ) {
        let leased = Leased {
            lane: self.lane_number(),
            name: stream.name(),
            number: report.number,
            begin: self.since,
            time: now.saturating_sub(self.since),
            bands: report.bands,
            units: report.units,
            epoch,
        };
        self.add(spool, &leased);
        if report.is_finished {
            stream.finish();
            self.tell_frames(spool, stream.frames(now));
        }
        if let Some((deadline, clock)) = deadline {
            let leads = Leads {
                name: stream.name(),
                at: now,
                lead: Lead { deadline, clock },
            };
            self.add(spool, &leads);
        }
    }

    fn tell_frames<W: Write + Drop, T: Wait + Clock>(
        &mut self,
        spool: &Spool<'_, W, T>,
        frames: Option<Frames<'_>>,
    ) {
        if let Some(frames) = frames {
            self.add(spool, &frames);
        }
    }

    fn add<W: Write + Drop, T: Wait + Clock, D: Display>(
        &mut self,
        spool: &Spool<'_, W, T>,
        event: &D,
    ) {
        if let Some(lane) = &mut self.lane {
            spool.add(lane, event);
        }
    }

    /// Writes what it holds.
    pub fn write_out<W: Write + Drop, T: Wait + Clock>(&mut self, spool: &Spool<'_, W, T>) {
        if let Some(lane) = &mut self.lane {
            spool.write_out(lane);
        }
    }
}
