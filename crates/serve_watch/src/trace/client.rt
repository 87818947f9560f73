//! What the client of a stream does, as it is told.

use super::doings::{Doings, Stretch};
use super::lane::Lane;
use super::record::{Client, Doing, Frames, StreamName};
use super::spool::Spool;
use std::fmt::Display;
use std::io::Write;
use std::sync::Wait;
use std::time::Clock;

/// The lane of a stream, unless there was no memory for it, and what its client does.
///
/// A client asks for a frame once the one before it was accepted, and it collects an image just before it
/// writes it. So its frames and images are counted by its reads and writes.
#[derive(Drop)]
pub struct ClientLane {
    number: u64,
    lane: Option<Lane>,
    doings: Doings,
    /// A frame was read, and no other was asked for yet.
    holds_frame: bool,
    /// A frame was read. What is written before that is a header.
    has_frames: bool,
    /// An image is being written.
    holds_image: bool,
}

impl ClientLane {
    /// It waits, from the start of the run on.
    pub fn new(number: u64, lane: Option<Lane>) -> ClientLane {
        ClientLane {
            number,
            lane,
            doings: Doings::new(0),
            holds_frame: false,
            has_frames: false,
            holds_image: false,
        }
    }

    /// Tells its name.
    pub fn tell_name<W: Write + Drop, T: Wait + Clock>(
        &mut self,
        spool: &Spool<'_, W, T>,
        name: &str,
    ) {
        let lane = self.number;
        self.add(spool, &StreamName { lane, name });
    }

    /// It begins to do this.
    pub fn begin<W: Write + Drop, T: Wait + Clock>(
        &mut self,
        spool: &Spool<'_, W, T>,
        doing: Doing,
        now: u64,
    ) {
        if let Some((before, between)) = self.doings.begin(doing, now) {
            self.tell(spool, before);
            self.tell(spool, between);
        }
    }

    /// It has come back.
    pub fn come_back(&mut self, now: u64) {
        self.doings.come_back(now);
    }

    /// Whether this is what it does.
    pub fn is_doing(&self, doing: Doing) -> bool {
        self.doings.doing() == doing
    }

    /// A frame is asked for. Answers whether one was accepted before.
    pub fn ask(&mut self) -> bool {
        let was_accepted = self.holds_frame;
        self.holds_frame = false;
        was_accepted
    }

    /// Something is written. Answers whether it is the begin of an image, which was collected then.
    pub fn put(&mut self) -> bool {
        let is_new = self.has_frames && !self.holds_image;
        if is_new {
            self.holds_image = true;
        }
        is_new
    }

    /// A frame has been read.
    pub fn frame_read<W: Write + Drop, T: Wait + Clock>(
        &mut self,
        spool: &Spool<'_, W, T>,
        now: u64,
    ) {
        self.holds_frame = true;
        self.has_frames = true;
        let done = self.doings.end(now);
        self.tell(spool, done);
    }

    /// An image has been written.
    pub fn image_written<W: Write + Drop, T: Wait + Clock>(
        &mut self,
        spool: &Spool<'_, W, T>,
        now: u64,
    ) {
        self.holds_image = false;
        let done = self.doings.end(now);
        self.tell(spool, done);
    }

    /// Its last doing ends, unless it waits. All is written.
    pub fn end<W: Write + Drop, T: Wait + Clock>(&mut self, spool: &Spool<'_, W, T>) {
        if let Some((last, _)) = self.doings.begin(Doing::Waiting, 0) {
            self.tell(spool, last);
        }
        if let Some(lane) = &mut self.lane {
            spool.write_out(lane);
        }
    }

    /// Tells how many of its frames are where.
    pub fn tell_frames<W: Write + Drop, T: Wait + Clock>(
        &mut self,
        spool: &Spool<'_, W, T>,
        frames: Option<Frames<'_>>,
    ) {
        if let Some(frames) = frames {
            self.add(spool, &frames);
        }
    }

    fn tell<W: Write + Drop, T: Wait + Clock>(&mut self, spool: &Spool<'_, W, T>, done: Stretch) {
        let time = done.end.saturating_sub(done.begin);
        if time > 0 {
            let client = Client {
                lane: self.number,
                doing: done.doing,
                begin: done.begin,
                time,
            };
            self.add(spool, &client);
        }
    }

    fn add<W: Write + Drop, T: Wait + Clock, D: Display>(
        &mut self,
        spool: &Spool<'_, W, T>,
        event: &D,
    ) {
        if let Some(lane) = &mut self.lane {
            spool.add(lane, event);
        }
    }
}
