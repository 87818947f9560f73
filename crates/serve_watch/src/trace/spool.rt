//! Where the records of a trace are written, and the time that they tell.
ghost use Rattle.std.specs.Prelude.{◌≡◌, ◌-◌, ◌^◌, ◌/◌, min};
ghost use Rattle.std.specs.Duration.{as_nanos};

use super::file::TraceFile;
use super::lane::Lane;
use std::fmt::Display;
use std::io::Write;
use std::sync::{Mutex, Wait};
use std::time::{Clock, Duration, Instant};

/// The first records, behind the bracket that opens the array: the names of the processes.
const HEAD: &str = r#"[
{"name":"process_name","ph":"M","pid":1,"args":{"name":"workers"}},
{"name":"process_name","ph":"M","pid":2,"args":{"name":"streams"}}"#;

/// What stands behind the last record.
const END: &str = "\n]\n";

/// The file of a trace, under a lock, and the machine's clock, as it stood when the trace began.
#[derive(Drop)]
pub struct Spool<'t, W: Write, T: Wait + Clock> {
    rt: &'t T,
    start: Option<Instant>,
    file: Mutex<TraceFile<W>>,
}

impl<'t, W: Write + Drop, T: Wait + Clock> Spool<'t, W, T> {
    /// Begins a trace in a file that was made, or in none.
    pub fn new(rt: &'t T, output: Option<W>) -> Spool<'t, W, T> {
        let mut file = TraceFile::new(output);
        file.write(HEAD.as_bytes());
        Spool {
            rt,
            start: Instant::now(rt).ok(),
            file: Mutex::new(file),
        }
    }

    /// What it waits with.
    pub fn rt(&self) -> &'t T {
        self.rt
    }

    /// The microseconds since the trace began. Where the machine's clock can't be read, something is lost.
    pub fn now(&self) -> Option<u64> {
        match self.age() {
            Some(age) => Some(microseconds_in(age)),
            None => {
                self.lose();
                None
            }
        }
    }

    fn age(&self) -> Option<Duration> {
        self.start?.elapsed(self.rt).ok()
    }

    /// Something of the trace is lost.
    pub fn lose(&self) {
        self.file.lock(self.rt).lose();
    }

    /// Adds a record to those of a lane. Where there may be no room for it, these are written before.
    pub fn add<D: Display>(&self, lane: &mut Lane, event: &D) {
        if lane.is_full() {
            self.write_out(lane);
        }
        if lane.add(event).is_err() {
            self.lose();
        }
    }

    /// Writes the records of a lane, all of them under the lock.
    pub fn write_out(&self, lane: &mut Lane) {
        self.file.lock(self.rt).write(lane.text());
        lane.clear();
    }

    /// Ends the array, and answers whether the trace is whole.
    pub fn end(&self) -> bool {
        let mut file = self.file.lock(self.rt);
        file.write(END.as_bytes());
        file.is_whole()
    }
}

/// How many microseconds there are in a time. A number of 64 bits stays at its last value.
fn microseconds_in(time: Duration) -> u64
    ensures { result ≡ min (as_nanos time / 1000) (2 ^ 64 - 1) }
{
    time.as_micros().min(u128::from(u64::MAX)) as u64
}
