//! What comes back of a session that couldn't begin, and a session that is begun with it again.
ghost use Rattle.std.specs.Prelude.{◌≡◌, IfErr, [], ◌∷◌};
ghost use Rattle.y4m_stream.specs.Reader.{ReaderState};
ghost use Rattle.serve_work.specs.Sessions.{GivesBack, IsInput, unread};

use super::lists::{both, two_of};
use super::many::{Stream, opened};
use super::stops::{PLAIN_THREE, TURNED_THREE, WHOLE, WHOLE_TURNED, were_served};
use super::{Open, PLAIN, Plan, Still, same_at, stream_of, writer_of};
use serve_core::{Setup, StreamSpec};
use serve_work::{ClientRest, Served, Unended, serve_session_or_return};
use std::alloc::Global;
use std::process::Abort;
use std::sync::Wait;
use std::thread::Threads;
use test_tools::Tape;
use test_tools::streams::TWO;
use y4m_stream::reader::Phase;
use y4m_stream::{OverRead, Sink, StreamReader};

/// Where a stream is read from.
type Taped<'a> = OverRead<Tape<'a>>;

/// A stream with its input.
type Opened<'a, W> = (StreamSpec, (StreamReader<Taped<'a>>, W));

/// A session of two streams.
fn session_of<'a, W: Sink + Drop + Send>(
    rt: &(impl Abort + Threads + Wait + Sync),
    alloc: Global,
    one: Opened<'a, W>,
    other: Opened<'a, W>,
) -> Result<Vec<Served<Taped<'a>, W>>, Unended<Taped<'a>, W>>
    requires one { IsInput one.0 one.1 }
    requires other { IsInput other.0 other.1 }
    ensures { IfErr result (GivesBack W.contents W.failures (one.entry.1 ∷ other.entry.1 ∷ [])) }
{
    let specs = two_of(rt, alloc, one.0, other.0);
    let inputs = two_of(rt, alloc, one.1, other.1);
    let setup = Setup::new(2, 4, specs).expect(rt, "no setup");
    serve_session_or_return(rt, alloc, setup, inputs, 1000, &Open, &Still(0))
}

/// A stream of which nothing was done, with its input, which is taken out.
fn opened_again<'a, W: Sink + Drop>(
    rt: &impl Abort,
    alloc: Global,
    stream: serve_work::Stream<Taped<'a>, W>,
    plan: Plan<'_>,
) -> Opened<'a, W>
    requires unread { (input : ReaderState × W) × (stream ≡ unread W.contents W.failures input)
        × (input.0.phase ≡ Phase.Open) }
    ensures { IsInput result.0 result.1 }
{
    let (reader, writer) = stream.into_input().expect(rt, "no input comes back");
    let spec = stream_of(rt, alloc, reader.header(), plan);
    (spec, (reader, writer))
}

/// A session of two streams, which begins again with what comes back where a worker's thread is refused.
fn session_in_the_end<'a, W: Sink + Drop + Send>(
    rt: &(impl Abort + Threads + Wait + Sync),
    alloc: Global,
    one: Opened<'a, W>,
    other: Opened<'a, W>,
    plans: (Plan<'_>, Plan<'_>),
) -> Vec<Served<Taped<'a>, W>>
    requires one { IsInput one.0 one.1 }
    requires other { IsInput other.0 other.1 }
{
    let again = match session_of(rt, alloc, one, other) {
        Ok(served) => return served,
        Err(Unended::Unbegun(streams)) => both(rt, streams),
        Err(unended) => panic!(rt; "{:?}", unended.fault()),
    };
    let one = opened_again(rt, alloc, again.0, plans.0);
    let other = opened_again(rt, alloc, again.1, plans.1);
    match session_of(rt, alloc, one, other) {
        Ok(served) => served,
        Err(unended) => panic!(rt; "{:?}", unended.fault()),
    }
}

/// It holds whichever thread is refused: `bench/threads` refuses each in turn.
#[test]
fn a_session_whose_thread_is_refused_begins_again(rt: HostRuntime) {
    let one = opened(&rt, rt.alloc(), &PLAIN_THREE);
    let other = opened(&rt, rt.alloc(), &TURNED_THREE);
    let plans = (PLAIN_THREE.plan, TURNED_THREE.plan);
    let served = session_in_the_end(&rt, rt.alloc(), one, other, plans);
    were_served(&rt, served, &[WHOLE, WHOLE_TURNED], "two streams");
}

/// The samples of the next frame of a stream of which nothing was done, and how many bytes its writer has,
/// where its input was taken out.
fn taken_out(rt: &impl Abort, alloc: Global, input: &[u8]) -> (Vec<u8>, usize) {
    let reader = StreamReader::open(alloc, OverRead::new(input)).expect(rt, "no reader");
    let rest = ClientRest::new(reader, writer_of(rt, alloc, PLAIN.room));
    let (mut reader, writer) = rest.into_unread().expect(rt, "no input comes back");
    let read = reader.next_frame(alloc).expect(rt, "no frame is read");
    let frame = read.expect(rt, "no frame is left");
    let samples = frame.data().to_vec(alloc).expect(rt, "no samples");
    (samples, writer.into_inner().taken.len())
}

#[test]
fn a_stream_of_which_nothing_was_done_keeps_its_frames(rt: HostRuntime) {
    let (samples, written) = taken_out(&rt, rt.alloc(), TWO);
    let first = [0, 1, 254, 255];
    same_at(&rt, samples.as_slice(), first.as_slice(), "the first frame");
    same_at(&rt, written, 0, "how many bytes were written");
}
