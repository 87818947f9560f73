//! A stream that is given up between epochs, behind a write that failed, or with an image in hand.
ghost use Rattle.serve_work.specs.Sessions.{IsInput};

use super::lists::two_of;
use super::slow::{Output, Tries, output};
use super::{Open, PLAIN, Still, same_at, stream_of};
use serve_core::{Setup, StreamSpec};
use serve_work::{Cause, Served, SessionFault, Stop, serve_session};
use std::alloc::Global;
use std::io;
use std::process::Abort;
use std::sync::Wait;
use std::sync::atomic::{AtomicU64, Ordering};
use std::test::Fail;
use std::thread::Threads;
use test_tools::streams::{HEADER, ONE, ONE_INVERTED, numbered};
use test_tools::{Room, Tape};
use y4m_stream::{OverRead, Sink, Source, StreamReader, Wanted, WriteFault};

/// How often a source is asked at most whether it is ready. Then it says so.
const PATIENCE: u64 = 10_000_000;

/// How many bytes the sink of the twenty images takes.
const ALL: u64 = 222;

/// How many bytes a sink took, and how many of its writes failed.
#[derive(Drop)]
struct Counts {
    taken: AtomicU64,
    failed: AtomicU64,
}

impl Counts {
    fn new() -> Counts {
        Counts {
            taken: AtomicU64::new(0),
            failed: AtomicU64::new(0),
        }
    }
}

/// A source that is ready once a sink has taken so many bytes.
#[derive(Drop)]
struct Silent<'a, S: Source> {
    source: S,
    heard: &'a Counts,
    least: u64,
    asked: AtomicU64,
}

impl<'a, S: Source> Source for Silent<'a, S> {
    ghost remaining = { λ s. S.remaining s.source };

    ghost failures = { λ s. S.failures s.source };

    fn read(&mut self, buf: &mut [u8]) -> io::Result<usize> {
        self.source.read(buf)
    }

    fn is_ready(&self, _milliseconds: u64, _wanted: Wanted) -> bool {
        self.heard.taken.load(Ordering::SeqCst) >= self.least
            || self.asked.fetch_add(1, Ordering::SeqCst) > PATIENCE
    }
}

/// A sink whose writes are counted, and behind so many bytes of which another one is opened.
#[derive(Drop)]
struct Counted<'a, S: Sink> {
    sink: S,
    counts: &'a Counts,
    opens: &'a Tries,
}

impl<'a, S: Sink> Counted<'a, S> {
    fn count(&self, n: usize) {
        let before = self.counts.taken.fetch_add(n as u64, Ordering::SeqCst);
        if before.saturating_add(n as u64) >= ALL {
            self.opens.open();
        }
    }
}

impl<'a, S: Sink> Sink for Counted<'a, S> {
    ghost contents = { λ s. S.contents s.sink };

    ghost failures = { λ s. S.failures s.sink };

    ghost is_flushed = { λ s. S.is_flushed s.sink };

    fn write(&mut self, buf: &[u8]) -> io::Result<usize> {
        let answer = self.sink.write(buf);
        match &answer {
            Ok(n) => self.count(*n),
            Err(_) => {
                self.counts.failed.fetch_add(1, Ordering::SeqCst);
            }
        };
        answer
    }

    fn try_write(&mut self, buf: &[u8], milliseconds: u64) -> io::Result<Option<usize>> {
        let answer = self.sink.try_write(buf, milliseconds);
        match &answer {
            Ok(None) => {}
            Ok(Some(n)) => self.count(*n),
            Err(_) => {
                self.counts.failed.fetch_add(1, Ordering::SeqCst);
            }
        };
        answer
    }

    fn flush(&mut self) -> io::Result<()> {
        self.sink.flush()
    }
}

/// A stream: its bytes, how many another one's sink takes before the rest of them come, how many its own sink
/// takes, where these are counted, how many tries of it take a byte, and whose tries it opens.
#[derive(Clone, Copy)]
struct Side<'a> {
    input: &'a [u8],
    heard: &'a Counts,
    least: u64,
    room: usize,
    counts: &'a Counts,
    tries: &'a Tries,
    opens: &'a Tries,
}

type Reader<'a> = Silent<'a, OverRead<Tape<'a>>>;

type Writer<'a> = Counted<'a, Output<'a>>;

type OneServed<'a> = Served<Reader<'a>, Writer<'a>>;

fn opened<'a>(
    rt: &impl Abort,
    alloc: Global,
    side: Side<'a>,
) -> (StreamSpec, (StreamReader<Reader<'a>>, Writer<'a>))
    ensures { IsInput result.0 result.1 }
{
    let source = Silent {
        source: OverRead::new(Tape::new(side.input, false)),
        heard: side.heard,
        least: side.least,
        asked: AtomicU64::new(0),
    };
    let room = Room::new(alloc, side.room).expect(rt, "a room");
    let sink = output(room, side.tries);
    let reader = StreamReader::open(alloc, source).expect(rt, "no reader");
    let spec = stream_of(rt, alloc, reader.header(), PLAIN);
    let Side { counts, opens, .. } = side;
    (
        spec,
        (
            reader,
            Counted {
                sink,
                counts,
                opens,
            },
        ),
    )
}

/// Serves two streams by two workers, with room for sixteen entries an epoch.
fn served_beside<'a, T: Abort + Threads + Wait + Sync>(
    rt: &T,
    alloc: Global,
    first: Side<'a>,
    second: Side<'a>,
) -> Result<Vec<OneServed<'a>>, SessionFault> {
    let (first, input) = opened(rt, alloc, first);
    let (second, other) = opened(rt, alloc, second);
    let specs = two_of(rt, alloc, first, second);
    let inputs = two_of(rt, alloc, input, other);
    let setup = Setup::new(2, 4, specs).expect(rt, "no setup");
    serve_session(rt, alloc, setup, inputs, 16, &Open, &Still(0))
}

/// The one frame's image isn't taken behind the header line, and that is told.
fn tells_its_fault(rt: &impl Abort, served: OneServed<'_>) {
    let stop = served.stop;
    let is_told = stop == Stop::Write(WriteFault::Device(22));
    same_at(rt, (stop, is_told), (stop, true), "the fault that was held");
    let counts = (served.accepted, served.delivered, served.charged);
    same_at(rt, counts, (1, 0, 1), "what was done");
    let written = served.writer.sink.sink.into_inner().room.taken;
    same_at(rt, written.as_slice(), HEADER, "what was written");
}

/// A stream of one frame whose sink takes the header line alone, and whose end comes once another one's
/// images are all written, in a dozen epochs. Where the next of these epochs finds no memory, the fault of
/// the write is told all the same.
///
/// It holds whichever growth is refused: `bench/growths` refuses each in turn.
#[test]
fn a_held_fault_is_told_where_no_epoch_comes(rt: HostRuntime) -> Result<(), Fail> {
    let alloc = rt.alloc();
    let (frames, _) = numbered(alloc, 20)?;
    let (heard, counts, tries) = (Counts::new(), Counts::new(), Tries::new());
    tries.open();
    let talker = Side {
        input: &frames,
        heard: &heard,
        least: 0,
        room: 1 << 16,
        counts: &heard,
        tries: &tries,
        opens: &tries,
    };
    let narrow = Side {
        input: ONE,
        least: ALL,
        room: 22,
        counts: &counts,
        ..talker
    };
    let mut all = served_beside(&rt, alloc, talker, narrow)?;
    let served = all.pop().ok_or("no stream")?;
    if counts.failed.load(Ordering::SeqCst) == 0 {
        return Err("NoMemory before the image was written".into());
    }
    tells_its_fault(&rt, served);
    Ok(())
}

/// The one frame's image went out whole, whether the stream was given up or not.
fn goes_out_whole(rt: &impl Abort, served: OneServed<'_>) {
    let stop = served.stop;
    let is_well = matches!(stop, Stop::Whole | Stop::Refused(Cause::NoMemory));
    same_at(rt, (stop, is_well), (stop, true), "the stop");
    let counts = (served.accepted, served.delivered);
    same_at(rt, counts, (1, 1), "what was done");
    let written = served.writer.sink.sink.into_inner().room.taken;
    same_at(rt, written.as_slice(), ONE_INVERTED, "what was written");
}

/// A stream of one frame whose sink takes three bytes of its image, and the rest once another one's images
/// are all written, in a dozen epochs. Where the next of these epochs finds no memory, the image goes out
/// whole all the same.
///
/// It holds whichever growth is refused: `bench/growths` refuses each in turn.
#[test]
fn an_image_in_hand_goes_out_where_no_epoch_comes(rt: HostRuntime) -> Result<(), Fail> {
    let alloc = rt.alloc();
    let (frames, _) = numbered(alloc, 20)?;
    let (heard, counts) = (Counts::new(), Counts::new());
    let (fast, slow) = (Tries::new(), Tries::new());
    fast.open();
    slow.allow(3);
    let talker = Side {
        input: &frames,
        heard: &heard,
        least: 0,
        room: 1 << 16,
        counts: &heard,
        tries: &fast,
        opens: &slow,
    };
    let waiter = Side {
        input: ONE,
        counts: &counts,
        tries: &slow,
        opens: &fast,
        ..talker
    };
    let mut all = served_beside(&rt, alloc, talker, waiter)?;
    let served = all.pop().ok_or("no stream")?;
    if counts.taken.load(Ordering::SeqCst) <= HEADER.len() as u64 {
        return Err("NoMemory before the image was begun".into());
    }
    goes_out_whole(&rt, served);
    Ok(())
}
