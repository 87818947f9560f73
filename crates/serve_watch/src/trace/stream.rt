//! The lane of a stream, and the counts of its frames.

use super::client::ClientLane;
use super::lane::Lane;
use super::record::{Doing, Frames};
use super::spool::Spool;
use std::io::Write;
use std::sync::atomic::{AtomicBool, AtomicU64, Ordering};
use std::sync::{Mutex, Wait};
use std::time::Clock;

/// The lane of a stream, and how many of its frames were accepted, finished and collected. After a fault of a
/// write no image is collected to be written: the counts aren't told then.
#[derive(Drop)]
pub struct StreamLane<'a> {
    name: &'a str,
    client: Mutex<ClientLane>,
    accepted: AtomicU64,
    finished: AtomicU64,
    collected: AtomicU64,
    is_torn: AtomicBool,
}

impl<'a> StreamLane<'a> {
    /// The lane of this number, of the stream of this name.
    pub fn new(name: &'a str, number: u64, lane: Option<Lane>) -> StreamLane<'a> {
        StreamLane {
            name,
            client: Mutex::new(ClientLane::new(number, lane)),
            accepted: AtomicU64::new(0),
            finished: AtomicU64::new(0),
            collected: AtomicU64::new(0),
            is_torn: AtomicBool::new(false),
        }
    }

    /// The name of the stream.
    pub fn name(&self) -> &'a str {
        self.name
    }

    /// One more of its frames is finished.
    pub fn finish(&self) {
        self.finished.fetch_add(1, Ordering::SeqCst);
    }

    /// How many of its frames are where now.
    pub fn frames(&self, now: u64) -> Option<Frames<'a>> {
        if self.is_torn.load(Ordering::SeqCst) {
            return None;
        }
        let accepted = self.accepted.load(Ordering::SeqCst);
        let finished = self.finished.load(Ordering::SeqCst);
        let collected = self.collected.load(Ordering::SeqCst);
        Some(Frames {
            name: self.name,
            at: now,
            unfinished: accepted.saturating_sub(finished),
            waiting: finished.saturating_sub(collected),
        })
    }

    /// Tells the name of the lane.
    pub fn tell_name<W: Write + Drop, T: Wait + Clock>(&self, spool: &Spool<'_, W, T>) {
        self.client.lock(spool.rt()).tell_name(spool, self.name);
    }

    /// Its client begins to do this.
    pub fn begin<W: Write + Drop, T: Wait + Clock>(
        &self,
        spool: &Spool<'_, W, T>,
        doing: Doing,
        now: u64,
    ) {
        let mut client = self.client.lock(spool.rt());
        client.begin(spool, doing, now);
        let (is_counted, count) = if doing == Doing::Reading {
            (client.ask(), &self.accepted)
        } else {
            (client.put(), &self.collected)
        };
        if is_counted {
            count.fetch_add(1, Ordering::SeqCst);
            client.tell_frames(spool, self.frames(now));
        }
    }

    /// It has come back from that.
    pub fn come_back<T: Wait>(&self, rt: &T, has_failed: bool, now: u64) {
        let mut client = self.client.lock(rt);
        client.come_back(now);
        if client.is_doing(Doing::Writing) {
            self.is_torn.store(has_failed, Ordering::SeqCst);
        }
    }

    /// A frame has been read whole.
    pub fn frame_read<W: Write + Drop, T: Wait + Clock>(&self, spool: &Spool<'_, W, T>, now: u64) {
        self.client.lock(spool.rt()).frame_read(spool, now);
    }

    /// An image has been written whole.
    pub fn image_written<W: Write + Drop, T: Wait + Clock>(
        &self,
        spool: &Spool<'_, W, T>,
        now: u64,
    ) {
        self.client.lock(spool.rt()).image_written(spool, now);
    }

    /// The run is over. All is written.
    pub fn end<W: Write + Drop, T: Wait + Clock>(&self, spool: &Spool<'_, W, T>) {
        self.client.lock(spool.rt()).end(spool);
    }
}
