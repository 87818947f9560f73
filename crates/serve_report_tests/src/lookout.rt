//! A reader that is asked whether reads would wait.
mod frames;

use crate::compare::same_at;
use serve_files::{Inflow, Inlet, Looker, Lookout, Reading, inflow_of};
use std::alloc::Global;
use std::io::{self, ErrorKind, Read};
use std::process::Abort;
use std::sync::{Arc, Condvar, CondvarTimeouts, Mutex, Wait};
use std::thread::{self, Threads};
use std::time::{Clock, Duration};
use test_tools::Tape;
use y4m_stream::Wanted;

/// More milliseconds than anything here takes.
const PATIENCE: u64 = 600_000;

/// What is read: nine bytes.
const TEXT: &[u8] = b"YUV4MPEG2";

/// Whether the reads of a reader go on.
#[derive(Drop)]
struct Door {
    is_open: Mutex<bool>,
    changed: Condvar,
}

impl Door {
    fn open<T: Wait>(&self, rt: &T) {
        *self.is_open.lock(rt) = true;
        self.changed.notify_all();
    }
}

/// A reader whose reads wait until a door is open, but for so many at first.
#[derive(Drop)]
struct Behind<T: Wait + Drop, R: Read> {
    rt: T,
    door: Arc<Door>,
    before: u64,
    reader: R,
}

impl<T: Wait + Drop, R: Read> Read for Behind<T, R> {
    fn read(&mut self, buf: &mut [u8]) -> io::Result<usize> {
        if self.before > 0 {
            self.before -= 1;
            return self.reader.read(buf);
        }
        let is_open = self.door.is_open.lock(&self.rt);
        drop(
            self.door
                .changed
                .wait_while(&self.rt, is_open, |is_open| !*is_open),
        );
        self.reader.read(buf)
    }
}

/// A door that is shut, and a reader of which all reads but so many at first are behind it. The test's thread
/// is the other one that holds the door.
fn shut<T: Abort + Wait + Copy + Drop, R: Read>(
    rt: &T,
    alloc: Global,
    reader: R,
    before: u64,
) -> (Arc<Door>, Behind<T, R>) {
    let shut = Door {
        is_open: Mutex::new(false),
        changed: Condvar::new(),
    };
    let door = Arc::new(alloc, shut).expect(rt, "no door");
    let theirs = Arc::try_clone(&door).expect(rt, "no door");
    let behind = Behind {
        rt: *rt,
        door: theirs,
        before,
        reader,
    };
    (door, behind)
}

/// Where no thread can be had, the reader comes back, and there is nothing to try.
fn started<R, T>(rt: &T, alloc: Global, reader: R) -> Option<Lookout<R, T>>
where
    R: Read + Drop + Send + 'static,
    T: Threads + Wait + Copy + Drop + Send + 'static,
{
    Lookout::start(rt, alloc, reader).ok()
}

/// The lookout is ready, where it is asked.
fn is_asked<R, T>(rt: &T, lookout: &Lookout<R, T>, asks: bool)
where
    R: Read + Drop + Send + 'static,
    T: Abort + Threads + Wait + Clock + Copy + Drop + Send + 'static,
{
    let is_ready = !asks || lookout.is_ready(PATIENCE, Wanted::data(1));
    same_at(rt, is_ready, true, "before a read");
}

/// Reads the text by pieces of so many bytes, asking before each read or not.
fn text_by<R, T>(
    rt: &T,
    alloc: Global,
    lookout: &mut Lookout<R, T>,
    piece: usize,
    asks: bool,
) -> Vec<u8>
where
    R: Read + Drop + Send + 'static,
    T: Abort + Threads + Wait + Clock + Copy + Drop + Send + 'static,
{
    let mut text = Vec::new(alloc);
    let mut buf = [0; 16];
    for _ in 0..TEXT.len() {
        is_asked(rt, lookout, asks);
        let most = piece.min(buf.len());
        let taken = lookout
            .read(&mut buf[..most])
            .ok()
            .expect(rt, "a read failed");
        text.extend_from_slice(&buf[..taken]).expect(rt, "the text");
        if text.len() == TEXT.len() {
            break;
        }
    }
    text
}

/// How many bytes a read takes, or how it fails.
fn read_by<R, T>(lookout: &mut Lookout<R, T>, buf: &mut [u8]) -> Result<usize, ErrorKind>
where
    R: Read + Drop + Send + 'static,
    T: Threads + Wait + Clock + Copy + Drop + Send + 'static,
{
    match lookout.read(buf) {
        Ok(taken) => Ok(taken),
        Err(error) => Err(error.kind()),
    }
}

/// Reads by pieces of so many bytes, asking before each read or not, and compares what comes up to the end or
/// the failure, which stays.
fn reads<T>(rt: &T, alloc: Global, tape: Tape<'static>, piece: usize, asks: bool)
where
    T: Abort + Threads + Wait + Clock + Copy + Drop + Send + 'static,
{
    let end = match tape.failure {
        Some(kind) => Err(kind),
        None => Ok(0),
    };
    let Some(mut lookout) = started(rt, alloc, tape) else {
        return;
    };
    let text = text_by(rt, alloc, &mut lookout, piece, asks);
    same_at(rt, text.as_slice(), TEXT, piece);
    let mut buf = [0; 16];
    for _ in 0..2 {
        is_asked(rt, &lookout, asks);
        same_at(rt, read_by(&mut lookout, &mut []), Ok(0), piece);
        same_at(rt, read_by(&mut lookout, &mut buf), end, piece);
    }
}

/// Reads each tape by pieces of so many bytes.
fn reads_each<T>(rt: &T, alloc: Global, piece: usize, asks: bool)
where
    T: Abort + Threads + Wait + Clock + Copy + Drop + Send + 'static,
{
    reads(rt, alloc, Tape::new(TEXT, false), piece, asks);
    reads(rt, alloc, Tape::by_steps(TEXT, 2), piece, asks);
    reads(rt, alloc, Tape::new(TEXT, true), piece, asks);
    let torn = Tape::torn(TEXT, ErrorKind::Interrupted);
    reads(rt, alloc, torn, piece, asks);
}

#[test]
fn what_is_read_ahead_is_read_once_and_in_order(rt: HostRuntime) {
    for piece in [1, 2, 4, 16] {
        for asks in [false, true] {
            reads_each(&rt, rt.alloc(), piece, asks);
        }
    }
}

/// The lookout answers so of what is wanted, however long it may wait.
fn answers<R, T>(
    rt: &T,
    lookout: &Lookout<R, T>,
    wanted: Wanted,
    milliseconds: &[u64],
    is_ready: bool,
)
where
    R: Read + Drop + Send + 'static,
    T: Abort + Threads + Wait + Clock + Copy + Drop + Send + 'static,
{
    for most in milliseconds {
        same_at(rt, lookout.is_ready(*most, wanted), is_ready, *most);
    }
}

#[test]
fn a_read_that_waits_is_told_of(rt: HostRuntime) {
    let (door, reader) = shut(&rt, rt.alloc(), Tape::new(TEXT, false), 0);
    let Some(mut lookout) = started(&rt, rt.alloc(), reader) else {
        return;
    };
    let wanted = Wanted::data(TEXT.len());
    answers(&rt, &lookout, wanted, &[0, 1, 20], false);
    door.open(&rt);
    answers(&rt, &lookout, wanted, &[PATIENCE, PATIENCE], true);
    let mut buf = [0; 16];
    same_at(
        &rt,
        lookout.read(&mut buf).ok(),
        Some(TEXT.len()),
        "the bytes",
    );
    same_at(&rt, buf.get(..TEXT.len()), Some(TEXT), "the text");
}

#[test]
fn a_read_waits_for_the_one_that_was_begun(rt: HostRuntime) {
    let (door, reader) = shut(&rt, rt.alloc(), Tape::new(TEXT, false), 0);
    let Some(mut lookout) = started(&rt, rt.alloc(), reader) else {
        return;
    };
    answers(&rt, &lookout, Wanted::data(TEXT.len()), &[20], false);
    let read = || {
        let mut buf = [0; 16];
        (lookout.read(&mut buf).ok(), buf)
    };
    // Where no thread is granted, the door is opened first.
    let ((taken, buf), _) = thread::join(&rt, read, || door.open(&rt));
    same_at(&rt, taken, Some(TEXT.len()), "the bytes");
    same_at(&rt, buf.get(..TEXT.len()), Some(TEXT), "the text");
}

#[test]
fn a_client_may_go_while_its_looker_reads(rt: HostRuntime) {
    let (door, reader) = shut(&rt, rt.alloc(), Tape::new(TEXT, false), 0);
    let Some(lookout) = started(&rt, rt.alloc(), reader) else {
        return;
    };
    answers(&rt, &lookout, Wanted::data(TEXT.len()), &[20], false);
    drop(lookout);
    door.open(&rt);
}

/// Waits until it is so whether a reader is being read.
fn comes<T: Wait + Clock>(rt: &T, reading: &Reading, is_on: bool) -> bool {
    let (silence, changed) = (Mutex::new(()), Condvar::new());
    for _ in 0..PATIENCE {
        if reading.is_on() == is_on {
            return true;
        }
        let millisecond = Duration::from_millis(1);
        let guard = silence.lock(rt);
        drop(changed.wait_timeout_while(rt, guard, millisecond, |_| true));
    }
    false
}

#[test]
fn a_read_is_told_to_others_until_it_comes_back(rt: HostRuntime) {
    let (door, reader) = shut(&rt, rt.alloc(), Tape::new(TEXT, false), 0);
    let reading = Reading::new(rt.alloc()).expect(&rt, "was memory refused?");
    let Some(looker) = Looker::start(&rt, rt.alloc(), reading.for_another()) else {
        return;
    };
    let Ok(lookout) = looker.look_out(rt.alloc(), reader) else {
        return;
    };
    same_at(&rt, reading.is_on(), false, "nothing is wanted");
    answers(&rt, &lookout, Wanted::data(TEXT.len()), &[0], false);
    same_at(&rt, comes(&rt, &reading, true), true, "a read waits");
    drop(lookout);
    same_at(&rt, reading.is_on(), true, "the client is gone");
    door.open(&rt);
    same_at(&rt, comes(&rt, &reading, false), true, "the read came back");
}

#[test]
fn a_call_ends_a_wait_that_is_no_glance(rt: HostRuntime) {
    let (door, reader) = shut(&rt, rt.alloc(), Tape::new(TEXT, false), 0);
    let reading = Reading::new(rt.alloc()).expect(&rt, "was memory refused?");
    let Some(looker) = Looker::start(&rt, rt.alloc(), reading.for_another()) else {
        return;
    };
    let Ok(lookout) = looker.look_out(rt.alloc(), reader) else {
        return;
    };
    reading.call();
    let wanted = Wanted::data(TEXT.len());
    answers(&rt, &lookout, wanted, &[0, 1, PATIENCE], false);
    door.open(&rt);
    answers(&rt, &lookout, wanted, &[PATIENCE], true);
}

/// What is looked out at an input with, which waits or doesn't.
fn inflow<T>(rt: &T, alloc: Global, waits: bool) -> Inflow<&'static [u8], Tape<'static>, T>
where
    T: Threads + Wait + Clock + Copy + Drop + Send + 'static,
{
    let inlet = if waits {
        Inlet::Slow(Tape::new(TEXT, false))
    } else {
        Inlet::Prompt(TEXT)
    };
    inflow_of(rt, alloc, inlet)
}

/// How it is looked out at an input.
fn kind_of<R: Read, S: Read + Drop, T: Wait + Drop>(input: &Inflow<R, S, T>) -> &'static str {
    match input {
        Inflow::Prompt(_) => "prompt",
        Inflow::Slow(_) => "slow",
        Inflow::Watched(_) => "watched",
    }
}

/// It is looked out so at an input that waits or doesn't, which gives the text.
fn gives_text<T>(rt: &T, alloc: Global, waits: bool, kind: &str)
where
    T: Abort + Threads + Wait + Clock + Copy + Drop + Send + 'static,
{
    let mut input = inflow(rt, alloc, waits);
    same_at(
        rt,
        kind_of(&input),
        kind,
        "was a thread or its memory refused?",
    );
    let mut buf = [0; 16];
    same_at(rt, input.read(&mut buf).ok(), Some(TEXT.len()), "the bytes");
    same_at(rt, &buf[..TEXT.len()], TEXT, "the text");
}

#[test]
fn an_input_that_may_wait_gets_a_looker(rt: HostRuntime) {
    if started(&rt, rt.alloc(), Tape::new(TEXT, false)).is_none() {
        return;
    }
    gives_text(&rt, rt.alloc(), true, "watched");
    gives_text(&rt, rt.alloc(), false, "prompt");
}
