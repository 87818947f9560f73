//! Streams that come and go.
ghost use Rattle.std.specs.Prelude.{⊤, ◌≡◌};
ghost use Rattle.serve_work.specs.History.{Terms, terms_of};
ghost use Rattle.serve_work.specs.Live.{IsForm};
ghost use Rattle.serve_work.specs.Sessions.{IsInput};

use super::late::{Late, Pace, Paced, Side, Writer, end_of, opened, twenty};
use super::sessions::Counting;
use super::{Open, PLAIN, Still};
use serve_core::Refusal as Core;
use serve_hub::{Ended, Refusal};
use serve_work::{Answer, Bell, Chronicle, Clock, Door, Request, Standing, Stop, serve_live};
use std::alloc::Global;
use std::collections::VecDeque;
use std::marker::{Brand, Model, PhantomData};
use std::process::Abort;
use std::sync::Wait;
use std::sync::atomic::{AtomicU64, Ordering};
use std::test::Fail;
use std::thread::Threads;
use test_tools::streams::{ONE, ONE_INVERTED, THREE, THREE_INVERTED};
use y4m_stream::{OverRead, Sink, Source};

/// When a request comes: where so many bytes were written, and so much was told.
#[derive(Clone, Copy)]
pub(super) struct Due<'a> {
    pub(super) written: &'a AtomicU64,
    pub(super) least: u64,
    pub(super) told: usize,
}

impl Due<'_> {
    fn has_come(self, told: usize) -> bool {
        told >= self.told && self.written.load(Ordering::SeqCst) >= self.least
    }
}

pub(super) type TheReader<'a> = Late<'a, OverRead<Paced<'a>>>;

/// What was told of a request, or shown.
#[derive(Drop)]
pub(super) enum Line<R: Source, W: Sink> {
    Told(u64, Answer<R, W>),
    Stands(u64, Standing),
    Shown(Option<u64>),
}

/// A request, and when it comes. Nothing was read of its frames.
#[derive(Drop)]
pub(super) struct Wanted<'a, R: Source, W: Sink> {
    due: Due<'a>,
    request: Request<R, W>,
}

impl<'a, R: Source, W: Sink> Model for Wanted<'a, R, W> {
    ghost use Rattle.std.specs.Prelude.{ℕ};
    ghost use Rattle.serve_work.specs.Sessions.{IsInput};

    ghost Value = { ℕ };

    ghost view = { λ a. a.request.ticket };

    ghost invariant = { λ a. IsInput a.request.spec (a.request.reader, a.request.writer) };
}

impl<'a, R: Source, W: Sink> Wanted<'a, R, W> {
    fn into_request(self) -> Request<R, W>
        ensures { IsInput result.spec (result.reader, result.writer) }
    {
        self.request
    }
}

/// What a session serves by, for contracts alone.
pub(super) trait HasTerms {
    ghost terms: { Terms };
}

impl HasTerms for Brand {
    ghost terms = { terms_of 0 0 0 };
}

/// What was told of the epochs: whose the first two numbers were where one ended, to which moment the clock
/// went on, that all were given up, that streams were taken out, and who was admitted.
#[derive(Clone, Copy, Debug, PartialEq, Eq)]
pub(super) enum Note {
    Ended(Option<u64>, Option<u64>),
    GoesOn(u64),
    GivesUp,
    Retired,
    Admitted(u64),
}

/// Requests and questions that come one after the other, what was told and shown, and what of the epochs.
#[derive(Drop)]
struct Sheet<'a, R: Source, W: Sink, L> {
    requests: VecDeque<Wanted<'a, R, W>>,
    questions: VecDeque<Due<'a>>,
    told: VecDeque<Line<R, W>>,
    notes: VecDeque<Note>,
    terms: PhantomData<L>,
}

impl<'a, R: Source, W: Sink, L> Sheet<'a, R, W, L> {
    fn has_come(&self) -> bool {
        match self.requests.front() {
            Some(wanted) => wanted.due.has_come(self.told.len()),
            None => false,
        }
    }

    fn is_asked(&self) -> bool {
        match self.questions.front() {
            Some(due) => due.has_come(self.told.len()),
            None => false,
        }
    }
}

impl<'a, R: Source, W: Sink, L> Bell for Sheet<'a, R, W, L> {
    ghost is_over = { λ _. ⊤ };

    fn wait(&self) -> bool {
        self.is_asked() || self.has_come()
    }

    fn is_there(&self, _patience: u64) -> bool {
        self.is_asked() || self.has_come()
    }
}

fn ticket_at(tickets: &[Option<u64>], number: usize) -> Option<u64> {
    match tickets.get(number) {
        Some(ticket) => *ticket,
        None => None,
    }
}

impl<'a, R: Source, W: Sink, L: HasTerms> Chronicle for Sheet<'a, R, W, L> {
    ghost terms = { L.terms };

    ghost times = { λ _. ⊤ };

    ghost stands = { λ _ _ _. ⊤ };

    fn epoch_ended(&mut self, _ended: &Ended, tickets: &[Option<u64>]) {
        let note = Note::Ended(ticket_at(tickets, 0), ticket_at(tickets, 1));
        let _ = self.notes.push_back(note);
    }

    fn goes_on(&mut self, at: u64) {
        let _ = self.notes.push_back(Note::GoesOn(at));
    }

    fn gives_up(&mut self) {
        let _ = self.notes.push_back(Note::GivesUp);
    }

    fn retired(&mut self) {
        let _ = self.notes.push_back(Note::Retired);
    }
}

impl<'a, R: Source + Drop, W: Sink + Drop, L: HasTerms> Door<R, W> for Sheet<'a, R, W, L> {
    fn next(&mut self) -> Option<Request<R, W>> {
        if !self.has_come() {
            return None;
        }
        match self.requests.pop_front() {
            None => None,
            Some(wanted) => Some(wanted.into_request()),
        }
    }

    fn admitted(&mut self, ticket: u64) {
        let _ = self.notes.push_back(Note::Admitted(ticket));
    }

    fn tell(&mut self, ticket: u64, answer: &mut Option<Answer<R, W>>) {
        if let Some(answer) = answer.take() {
            let _ = self.told.push_back(Line::Told(ticket, answer));
        }
    }

    fn asks(&self) -> bool {
        self.is_asked()
    }

    fn show(&mut self, ticket: u64, standing: Standing) {
        let _ = self.told.push_back(Line::Stands(ticket, standing));
    }

    fn end_show(&mut self, moment: Option<u64>) {
        let _ = self.told.push_back(Line::Shown(moment));
        let _ = self.questions.pop_front();
    }
}

/// A line of what was told of the tests' streams.
pub(super) type TheLine<'a> = Line<TheReader<'a>, Writer<'a>>;

pub(super) type TheWanted<'a> = Wanted<'a, TheReader<'a>, Writer<'a>>;

/// A request of this number.
pub(super) fn wants<'a>(
    rt: &impl Abort,
    alloc: Global,
    due: Due<'a>,
    ticket: u64,
    side: Side<'a>,
) -> TheWanted<'a> {
    let (spec, (reader, writer)) = opened(rt, alloc, side);
    let request = Request {
        ticket,
        spec,
        reader,
        writer,
    };
    Wanted { due, request }
}

/// A stream whose bytes are all there.
pub(super) fn side<'a>(input: &'a [u8], written: &'a AtomicU64) -> Side<'a> {
    Side {
        input,
        pace: Pace {
            first: usize::MAX,
            written,
            least: 0,
            each: 0,
        },
        plan: PLAIN,
        written,
    }
}

fn is_refused(rt: &impl Abort, line: Option<TheLine<'_>>, ticket: u64, refusal: Core) {
    match line {
        Some(Line::Told(of, Answer::Refused(told, _, _))) => {
            assert_eq!(rt; (of, told), (ticket, Refusal::Core(refusal)));
        }
        _ => assert!(rt; false, "{ticket} isn't refused"),
    }
}

pub(super) fn is_whole(
    rt: &impl Abort,
    line: Option<TheLine<'_>>,
    ticket: u64,
    frames: u64,
    images: &[u8],
) {
    match line {
        Some(Line::Told(of, Answer::Ended(served))) => {
            let came = end_of(served);
            assert_eq!(rt;
                (of, came.end),
                (ticket, (Stop::Whole, frames, frames, frames))
            );
            assert_eq!(rt; came.written.as_slice(), images);
        }
        _ => assert!(rt; false, "{ticket} isn't over"),
    }
}

fn is_shown(rt: &impl Abort, line: Option<TheLine<'_>>, moment: Option<u64>) {
    match line {
        Some(Line::Shown(now)) => assert_eq!(rt; now, moment),
        _ => assert!(rt; false, "{moment:?} isn't shown"),
    }
}

fn stands(rt: &impl Abort, line: Option<TheLine<'_>>, ticket: u64, wanted: Standing) {
    match line {
        Some(Line::Stands(of, standing)) => assert_eq!(rt; (of, standing), (ticket, wanted)),
        _ => assert!(rt; false, "{ticket} isn't shown"),
    }
}

/// Serves these by so many workers.
fn serves<'a, K: Clock + Sync, T: Threads + Wait + Sync>(
    rt: &T,
    alloc: Global,
    workers: u64,
    clock: &K,
    requests: VecDeque<TheWanted<'a>>,
    questions: VecDeque<Due<'a>>,
) -> Result<VecDeque<TheLine<'a>>, Fail>
    requires { IsForm workers 4 }
{
    let (told, _) = serves_by::<K, T, Brand>(rt, alloc, workers, clock, requests, questions)?;
    Ok(told)
}

/// What was told of the requests, and of the epochs.
pub(super) type Kept<'a> = (VecDeque<TheLine<'a>>, VecDeque<Note>);

pub(super) fn serves_by<'a, K: Clock + Sync, T: Threads + Wait + Sync, L: HasTerms + Sync>(
    rt: &T,
    alloc: Global,
    workers: u64,
    clock: &K,
    requests: VecDeque<TheWanted<'a>>,
    questions: VecDeque<Due<'a>>,
) -> Result<Kept<'a>, Fail>
    requires form { IsForm workers 4 }
    requires terms { terms_of workers 4 256 ≡ L.terms }
{
    let mut sheet: Sheet<'a, TheReader<'a>, Writer<'a>, L> = Sheet {
        requests,
        questions,
        told: VecDeque::new(alloc),
        notes: VecDeque::new(alloc),
        terms: PhantomData,
    };
    serve_live(rt, alloc, workers, 4, 256, &mut sheet, &Open, clock)?;
    let Sheet { told, notes, .. } = sheet;
    Ok((told, notes))
}

/// A stream of twenty frames, of which five come first, and the others where so many bytes of the other
/// streams were written.
pub(super) fn long<'a>(
    frames: &'a [u8],
    first: &'a AtomicU64,
    other: &'a AtomicU64,
    least: u64,
) -> Side<'a> {
    Side {
        input: frames,
        pace: Pace {
            first: 72,
            written: other,
            least,
            each: 0,
        },
        plan: PLAIN,
        written: first,
    }
}

pub(super) fn when<'a>(written: &'a AtomicU64, least: u64) -> Due<'a> {
    let told = 0;
    Due {
        written,
        least,
        told,
    }
}

/// The second stream comes when two images of the first were written, and all of it was written before the
/// sixth frame of the first comes. The third comes with it, and would be too much. The fourth comes when no
/// stream is left.
#[test]
fn a_stream_joins_another(rt: HostRuntime) -> Result<(), Fail> {
    let alloc = rt.alloc();
    let (frames, images) = twenty(alloc)?;
    let first = AtomicU64::new(0);
    let second = AtomicU64::new(0);
    let none = AtomicU64::new(0);
    let slow = long(&frames, &first, &second, 52);
    let mut requests = VecDeque::new(alloc);
    requests.push_back(wants(&rt, alloc, when(&first, 0), 7, slow))?;
    requests.push_back(wants(&rt, alloc, when(&first, 42), 8, side(THREE, &second)))?;
    requests.push_back(wants(&rt, alloc, when(&first, 42), 9, side(ONE, &none)))?;
    requests.push_back(wants(&rt, alloc, when(&first, 222), 10, side(ONE, &none)))?;
    let mut told = serves(&rt, alloc, 1, &Still(0), requests, VecDeque::new(alloc))?;
    is_refused(&rt, told.pop_front(), 9, Core::Overload);
    is_whole(&rt, told.pop_front(), 8, 3, THREE_INVERTED);
    is_whole(&rt, told.pop_front(), 7, 20, &images);
    is_whole(&rt, told.pop_front(), 10, 1, ONE_INVERTED);
    assert!(&rt; told.pop_front().is_none());
    Ok(())
}

/// It is asked before a stream is served, and where all images of the first five frames of one were written.
/// Each costs a unit, and the stream has one for each two moments: its sixth would be done by moment 12. The
/// others come when the second stream was written, which comes with the question.
#[test]
fn it_is_shown_how_streams_stand(rt: HostRuntime) -> Result<(), Fail> {
    let alloc = rt.alloc();
    let (frames, images) = twenty(alloc)?;
    let first = AtomicU64::new(0);
    let second = AtomicU64::new(0);
    let slow = long(&frames, &first, &second, 52);
    let mut requests = VecDeque::new(alloc);
    requests.push_back(wants(&rt, alloc, when(&first, 0), 7, slow))?;
    requests.push_back(wants(&rt, alloc, when(&first, 72), 8, side(THREE, &second)))?;
    let mut questions = VecDeque::new(alloc);
    questions.push_back(when(&first, 0))?;
    questions.push_back(when(&first, 72))?;
    let mut told = serves(&rt, alloc, 1, &Still(0), requests, questions)?;
    is_shown(&rt, told.pop_front(), None);
    let standing = Standing {
        accepted: 5,
        finished: 5,
        collected: 5,
        charged: 5,
        budget: 1,
        deadline: 12,
    };
    stands(&rt, told.pop_front(), 7, standing);
    is_shown(&rt, told.pop_front(), Some(0));
    is_whole(&rt, told.pop_front(), 8, 3, THREE_INVERTED);
    is_whole(&rt, told.pop_front(), 7, 20, &images);
    assert!(&rt; told.pop_front().is_none());
    Ok(())
}

/// How many of these tell that a stream is whole: of the long one twenty frames, and of each other one.
fn wholes(rt: &impl Abort, told: VecDeque<TheLine<'_>>, images: &[u8]) -> u64 {
    let mut count = 0u64;
    for line in told {
        let Line::Told(ticket, answer) = line else {
            continue;
        };
        let Answer::Ended(served) = answer else {
            continue;
        };
        let came = end_of(served);
        let (frames, written) = if ticket == 0 {
            (20, images)
        } else {
            (1, ONE_INVERTED)
        };
        assert_eq!(rt; came.end, (Stop::Whole, frames, frames, frames), "{ticket}");
        assert_eq!(rt; came.written.as_slice(), written, "{ticket}");
        count = count.saturating_add(1);
    }
    count
}

/// Two hundred streams of one frame come one after the other beside a stream that goes on, and each is served
/// by the same hub, which has the numbers of 64 at once.
#[test]
fn two_hundred_streams_pass_another(rt: HostRuntime) -> Result<(), Fail> {
    let alloc = rt.alloc();
    let (frames, images) = twenty(alloc)?;
    let first = AtomicU64::new(0);
    let short = AtomicU64::new(0);
    let slow = long(&frames, &first, &short, 6400);
    let mut requests = VecDeque::new(alloc);
    requests.push_back(wants(&rt, alloc, when(&first, 0), 0, slow))?;
    for n in 0..200u64 {
        requests.push_back(wants(&rt, alloc, when(&short, 32 * n), n + 1, side(ONE, &short)))?;
    }
    let clock = Counting(AtomicU64::new(0));
    let told = serves(&rt, alloc, 4, &clock, requests, VecDeque::new(alloc))?;
    assert_eq!(&rt; told.len(), 201);
    assert_eq!(&rt; wholes(&rt, told, &images), 201);
    Ok(())
}
