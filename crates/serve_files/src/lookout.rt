//! A reader that can be asked whether reads would wait.
ghost use Rattle.std.specs.Prelude.{◌≡◌, not, IfErr, IfOk};
ghost use Rattle.std.specs.Io.{ReadsAtMost};
ghost use Rattle.serve_files.specs.Lookers.{Asks, IsLooked, Lends, Reads, ReadsOrRests, Settles};
ghost use Rattle.serve_files.specs.Lookers.{WasAsked, has_task, is_looking, is_unknown};
ghost use Rattle.serve_files.specs.Calls.{HasRead, LooksOut};

use crate::ahead::Ahead;
use crate::reading::Reading;
use std::alloc::Global;
use std::io::{self, ErrorKind, Read};
use std::mem;
use std::snapshot::Snapshot;
use std::sync::{Arc, Condvar, Mutex, MutexGuard, Wait};
use std::thread::{self, Threads};
use std::time::{Clock, Duration};
use y4m_stream::Wanted;

/// A wait of so many milliseconds is for what a thread that has to wake first may find there. Where it was
/// looked for before, it isn't there for want of bytes.
const GLANCE: u64 = 1;

/// Who has the reader, and what is asked of the looker.
#[derive(Drop)]
enum State<R: Read> {
    /// There is no reader yet.
    Idle,
    /// The looker rests. What it found is held, until it is taken.
    Resting(Ahead<R>),
    /// The looker is to read of what is wanted.
    Asked(Ahead<R>, Wanted),
    /// The looker reads of it.
    Looking(Wanted),
    /// The client is gone, and the looker is to end.
    Over,
}

impl<R: Read + Drop> State<R> {
    /// Nothing is read yet. Where there is no memory the reader comes back.
    fn begun(alloc: Global, reader: R) -> Result<State<R>, R>
        ensures ok { IfOk result (λ state. LooksOut (R.remaining reader) state) }
        ensures err { IfErr result (λ back. back ≡ reader) }
    {
        let ahead = Ahead::new(alloc, reader)?;
        Ok(State::Resting(ahead))
    }

    /// Whether it isn't known yet if reads would wait.
    fn is_unknown(&self) -> bool
        ensures { result ≡ is_unknown self.now }
    {
        matches!(self, State::Asked(_, _) | State::Looking(_))
    }

    fn is_looking(&self) -> bool
        ensures { result ≡ is_looking self.now }
    {
        matches!(self, State::Looking(_))
    }

    /// Whether the looker has something to do.
    fn has_task(&self) -> bool
        ensures { result ≡ has_task self.now }
    {
        matches!(self, State::Asked(_, _) | State::Over)
    }

    /// The looker is to read, where what is wanted isn't held. It answers whether that is new.
    fn ask(&mut self, wanted: Wanted) -> bool
        ensures { Asks wanted result self.old self.new }
    {
        match mem::replace(self, State::Looking(wanted)) {
            State::Resting(ahead) => {
                *self = State::of_ask(ahead, wanted);
                matches!(self, State::Asked(_, _))
            }
            other => {
                *self = other;
                false
            }
        }
    }

    fn of_ask(ahead: Ahead<R>, wanted: Wanted) -> State<R>
        ensures { ReadsOrRests wanted ahead result }
    {
        if ahead.has(wanted) {
            State::Resting(ahead)
        } else {
            State::Asked(ahead, wanted)
        }
    }

    /// The reader for the looker, where it is to read, and what is wanted.
    fn lend(&mut self) -> Option<Lent<R>>
        ensures { Lends result self.old self.new }
    {
        match mem::replace(self, State::Over) {
            State::Asked(ahead, wanted) => {
                *self = State::Looking(wanted);
                let before = Snapshot::of(&ahead);
                Some(Lent {
                    ahead,
                    wanted,
                    before,
                })
            }
            other => {
                *self = other;
                None
            }
        }
    }

    /// The looker has read once: it is to read on, where what is wanted isn't held yet. Where the client is
    /// gone the reader is given up. It answers whether the client is to be told.
    fn settle(&mut self, lent: Lent<R>) -> bool
        requires { IsLooked lent.wanted lent.before.value lent.ahead }
        ensures state { Settles lent.ahead self.old self.new }
        ensures told { result ≡ not (is_unknown self.new) }
    {
        if let State::Looking(wanted) = *self {
            *self = State::of_ask(lent.ahead, wanted);
        }
        !self.is_unknown()
    }

    /// Reads for the client. What was wanted isn't any more. It fails where the reader isn't here.
    fn read(&mut self, buf: &mut [u8]) -> io::Result<usize>
        ensures bound { ReadsAtMost result buf.new }
        ensures bytes { Reads self.old self.new result buf.new }
    {
        match mem::replace(self, State::Over) {
            State::Asked(ahead, _) => *self = State::Resting(ahead),
            other => *self = other,
        }
        match self {
            State::Resting(ahead) => ahead.read(buf),
            _ => Err(io::Error::from(ErrorKind::Other)),
        }
    }
}

/// A reader that is lent to a looker, what is wanted of it, and how it was then.
#[derive(Drop)]
struct Lent<R: Read> {
    ahead: Ahead<R>,
    wanted: Wanted,
    before: Snapshot<Ahead<R>>,
}

/// What a client and its looker share.
#[derive(Drop)]
struct Post<R: Read> {
    state: Mutex<State<R>>,
    changed: Condvar,
    /// Whether the looker reads, for others than the client.
    reading: Option<Reading>,
}

impl<R: Read> Post<R> {
    /// Tells others than the client whether the looker reads. Who tells it has the state's lock.
    fn tell(&self, is_reading: bool) {
        if let Some(reading) = &self.reading {
            reading.set(is_reading);
        }
    }

    /// What client and looker wait by.
    fn changed(&self) -> &Condvar {
        match &self.reading {
            Some(reading) => reading.changed(),
            None => &self.changed,
        }
    }

    /// Answers a call of the client, and tells whether there was one.
    fn end_call(&self) -> bool {
        match &self.reading {
            Some(reading) => reading.end_call(),
            None => false,
        }
    }
}

impl<R: Read + Drop> Post<R> {
    /// Waits for at most so many milliseconds, unless it is known whether reads would wait. Where that is more
    /// than a glance, the wait ends too where the client is called.
    fn await_news<'p, T: Wait>(
        &'p self,
        rt: &T,
        state: MutexGuard<'p, State<R>>,
        milliseconds: u64,
    ) -> MutexGuard<'p, State<R>> {
        let changed = self.changed();
        // Before it is looked whether the client is called, so that no call is missed.
        let seen = changed.notifications();
        let is_called = milliseconds > GLANCE && self.end_call();
        if is_called || !state.is_unknown() {
            return state;
        }
        drop(state);
        changed.sleep(rt, seen, Duration::from_millis(milliseconds));
        if milliseconds > GLANCE {
            self.end_call();
        }
        self.state.lock(rt)
    }
}

impl<R: Read + Drop> Post<R> {
    /// Reads for the client, behind a read of the looker's. It shows the state as it came back, and as it was
    /// left.
    fn read<T: Wait>(
        &self,
        rt: &T,
        buf: &mut [u8],
    ) -> (io::Result<usize>, Snapshot<State<R>>, Snapshot<State<R>>)
        ensures bound { ReadsAtMost result.0 buf.new }
        ensures read { HasRead result.0 buf.new result.1.value result.2.value }
    {
        let mut state = self
            .changed()
            .wait_while(rt, self.state.lock(rt), |state| state.is_looking());
        let came = Snapshot::of(&*state);
        let answer = state.read(buf);
        let left = Snapshot::of(&*state);
        (answer, came, left)
    }
}

/// Reads of what the client wants, once and again, until the client is gone. It shows the state then.
fn look_out<R: Read + Drop, T: Wait>(rt: &T, post: &Post<R>) -> Snapshot<State<R>>
    ensures { result.value ≡ State.Over }
{
    for _ in rt.forever() {
        let mut state = post
            .changed()
            .wait_while(rt, post.state.lock(rt), |state| !state.has_task());
        let Some(mut lent) = state.lend() else {
            return Snapshot::of(&*state);
        };
        post.tell(true);
        drop(state);
        lent.ahead.look(lent.wanted);
        let mut state = post.state.lock(rt);
        let is_to_tell = state.settle(lent);
        post.tell(false);
        drop(state);
        if is_to_tell {
            post.changed().notify_all();
        }
    }
    unreachable!()
}

/// A reader that can be asked whether reads would wait.
///
/// A thread, the looker, reads ahead of the client, until what it was asked for is held, and no further. It
/// ends once the client is gone; where it is in a read then, that read is the last.
pub struct Lookout<R: Read + Drop, T: Wait + Drop> {
    rt: T,
    post: Arc<Post<R>>,
}

impl<R: Read + Drop, T: Wait + Drop> Drop for Lookout<R, T> {
    fn drop(self) {
        let Self { rt, post } = self;
        *post.state.lock(&rt) = State::Over;
        post.changed().notify_all();
    }
}

impl<R: Read + Drop, T: Wait + Drop> Lookout<R, T> {
    /// Nothing is read yet. Where there is no thread or no memory the reader comes back.
    pub fn start(rt: &T, alloc: Global, reader: R) -> Result<Lookout<R, T>, R>
    where
        R: Send + 'static,
        T: Threads + Copy + Send + 'static,
    {
        match Looker::start(rt, alloc, None) {
            Some(looker) => looker.look_out(alloc, reader),
            None => Err(reader),
        }
    }

    /// Whether reads of what is wanted would be answered at once, as [`Lookout::outlook`] tells.
    pub fn is_ready(&self, milliseconds: u64, wanted: Wanted) -> bool
    where
        T: Clock,
    {
        self.outlook(milliseconds, wanted).is_ready
    }

    /// Tells whether reads of what is wanted would be answered at once: with bytes, with the end, or with a
    /// fault. It waits for that at most so many milliseconds, but for a glance only where that wasn't asked
    /// before, and no longer once the client is called ([`Reading::call`]).
    pub fn outlook(&self, milliseconds: u64, wanted: Wanted) -> Outlook<R>
    where
        T: Clock,
        ensures asked { WasAsked wanted result.found.value result.asked.value }
        ensures ready { result.is_ready ≡ not (is_unknown result.left.value) }
    {
        let mut state = self.post.state.lock(&self.rt);
        let found = Snapshot::of(&*state);
        let is_new = state.ask(wanted);
        let asked = Snapshot::of(&*state);
        if is_new {
            self.post.changed().notify_all();
        } else if milliseconds <= GLANCE {
            return Outlook::new(found, asked, &*state);
        }
        let state = self.post.await_news(&self.rt, state, milliseconds);
        Outlook::new(found, asked, &*state)
    }
}

/// Whether reads would be answered at once.
#[derive(Drop)]
pub struct Outlook<R: Read> {
    pub is_ready: bool,
    /// How the state was found, asked and left. No byte of these is kept.
    found: Snapshot<State<R>>,
    asked: Snapshot<State<R>>,
    left: Snapshot<State<R>>,
}

impl<R: Read + Drop> Outlook<R> {
    fn new(found: Snapshot<State<R>>, asked: Snapshot<State<R>>, state: &State<R>) -> Outlook<R>
        ensures found { result.found ≡ found }
        ensures asked { result.asked ≡ asked }
        ensures left { result.left.value ≡ state.now }
        ensures ready { result.is_ready ≡ not (is_unknown state.now) }
    {
        Outlook {
            is_ready: !state.is_unknown(),
            found,
            asked,
            left: Snapshot::of(state),
        }
    }
}

/// A looker that rests until it is given a reader.
#[derive(Drop)]
pub struct Looker<R: Read + Drop, T: Wait + Drop> {
    lookout: Lookout<R, T>,
}

impl<R: Read + Drop, T: Wait + Drop> Looker<R, T> {
    /// Starts a looker. None where there is no thread or no memory. Others than the client may be told
    /// whether it reads.
    pub fn start(rt: &T, alloc: Global, reading: Option<Reading>) -> Option<Looker<R, T>>
    where
        R: Send + 'static,
        T: Threads + Copy + Send + 'static,
    {
        let rt = *rt;
        let state = State::Idle;
        let post = Post {
            state: Mutex::new(state),
            changed: Condvar::new(),
            reading,
        };
        let post = Arc::new(alloc, post).ok()?;
        let looker_post = Arc::try_clone(&post).ok()?;
        let looks = move || {
            look_out(&rt, &looker_post);
        };
        if thread::spawn(&rt, looks).is_err() {
            return None;
        }
        let lookout = Lookout { rt, post };
        Some(Looker { lookout })
    }

    /// Gives the looker its reader. Nothing is read yet. Where there is no memory the reader comes back.
    pub fn look_out(self, alloc: Global, reader: R) -> Result<Lookout<R, T>, R>
        ensures { IfErr result (λ back. back ≡ reader) }
    {
        let state = State::begun(alloc, reader)?;
        let Self { lookout } = self;
        *lookout.post.state.lock(&lookout.rt) = state;
        Ok(lookout)
    }
}

impl<R: Read + Drop, T: Wait + Drop> Read for Lookout<R, T> {
    fn read(&mut self, buf: &mut [u8]) -> io::Result<usize> {
        self.post.read(&self.rt, buf).0
    }
}
