//! A writer whose writes can be waited for a while.
ghost use Rattle.std.specs.Prelude.{◌≡◌, ◌≤◌, length, IfOk, IfSome};
ghost use Rattle.std.specs.Io.{WritesAtMost};
ghost use Rattle.serve_files.specs.Carriers.{Answers, Asks, Flushes, IsCarried, Lends, Settles, WritesOrRests};
ghost use Rattle.serve_files.specs.Carriers.{WereAsked, has_task, is_busy};
ghost use Rattle.serve_files.specs.Calls.{Carries, Flushed, Tried, Wrote};

use crate::load::{Load, Room};
use std::alloc::Global;
use std::io::{self, ErrorKind, Write};
use std::mem;
use std::snapshot::Snapshot;
use std::sync::{Arc, Condvar, CondvarTimeouts, Mutex, MutexGuard, Wait};
use std::thread::{self, Threads};
use std::time::{Clock, Duration};

/// Who has the writer, and what is asked of the carrier.
#[derive(Drop)]
enum State<W: Write> {
    /// There is no writer yet.
    Idle,
    /// The carrier rests. What its write answered is held, until it is told.
    Resting(Load<W>),
    /// The carrier is to write.
    Asked(Load<W>),
    /// The carrier writes.
    Carrying,
    /// The client is gone, and the carrier is to end.
    Over,
}

impl<W: Write + Drop> State<W> {
    /// Nothing is handed over yet.
    fn begun(writer: W, room: Room) -> State<W>
        ensures { Carries (W.contents writer) result }
    {
        State::Resting(Load::new(writer, room))
    }

    /// Whether bytes are on their way.
    fn is_busy(&self) -> bool
        ensures { result ≡ is_busy self.now }
    {
        matches!(self, State::Asked(_) | State::Carrying)
    }

    /// Whether the carrier has something to do.
    fn has_task(&self) -> bool
        ensures { result ≡ has_task self.now }
    {
        matches!(self, State::Asked(_) | State::Over)
    }

    /// Hands these bytes over, unless others are on their way or are still to be told of. It answers whether
    /// it did.
    fn ask(&mut self, buf: &[u8]) -> bool
        ensures { Asks buf.now result self.old self.new }
    {
        match mem::replace(self, State::Carrying) {
            State::Resting(load) => {
                *self = State::of_ask(load, buf);
                matches!(self, State::Asked(_))
            }
            other => {
                *self = other;
                false
            }
        }
    }

    fn of_ask(load: Load<W>, buf: &[u8]) -> State<W>
        ensures { WritesOrRests buf.now load result }
    {
        let mut load = load;
        if load.is_answered() {
            return State::Resting(load);
        }
        load.take(buf);
        State::Asked(load)
    }

    /// The writer for the carrier, where it is to write.
    fn lend(&mut self) -> Option<Lent<W>>
        ensures { Lends result self.old self.new }
    {
        match mem::replace(self, State::Over) {
            State::Asked(load) => {
                *self = State::Carrying;
                let before = Snapshot::of(&load);
                Some(Lent { load, before })
            }
            other => {
                *self = other;
                None
            }
        }
    }

    /// The carrier has written once.
    fn settle(&mut self, lent: Lent<W>)
        requires { IsCarried lent.before.value lent.load }
        ensures { Settles lent.load self.old self.new }
    {
        if let State::Carrying = *self {
            *self = State::Resting(lent.load);
        }
    }

    /// What the write of a front of these bytes answered, unless they are on their way. It fails where there
    /// is no writer.
    fn answer_to(&mut self, buf: &[u8]) -> Option<io::Result<usize>>
        ensures bound { IfSome result (λ answer. WritesAtMost answer buf.now) }
        ensures told { Answers buf.now result self.old self.new }
    {
        match self {
            State::Resting(load) => load.answer_to(buf),
            State::Asked(_) | State::Carrying => None,
            State::Idle | State::Over => Some(Err(io::Error::from(ErrorKind::Other))),
        }
    }

    /// Flushes the writer. It fails where the writer isn't here.
    fn flush(&mut self) -> io::Result<()>
        ensures { Flushes result self.old self.new }
    {
        match self {
            State::Resting(load) => load.flush(),
            _ => Err(io::Error::from(ErrorKind::Other)),
        }
    }
}

/// A writer that is lent to a carrier, and how it was then.
#[derive(Drop)]
struct Lent<W: Write> {
    load: Load<W>,
    before: Snapshot<Load<W>>,
}

/// What a write answers, and the state as it was found, as it was asked, as it came back, and as it was left.
#[derive(Drop)]
struct Call<W: Write, A> {
    answer: A,
    found: Snapshot<State<W>>,
    asked: Snapshot<State<W>>,
    came: Snapshot<State<W>>,
    left: Snapshot<State<W>>,
}

/// What a client and its carrier share.
#[derive(Drop)]
struct Post<W: Write> {
    state: Mutex<State<W>>,
    changed: Condvar,
}

impl<W: Write + Drop> Post<W> {
    /// Takes the lock, and hands these bytes over, unless others are on their way or are still to be told of.
    /// It shows the state as it was found, and as it was left.
    fn ask<'p, T: Wait>(
        &'p self,
        rt: &T,
        buf: &[u8],
    ) -> (
        MutexGuard<'p, State<W>>,
        Snapshot<State<W>>,
        Snapshot<State<W>>,
    )
        ensures { WereAsked buf.now result.1.value result.2.value }
    {
        let mut state = self.state.lock(rt);
        let found = Snapshot::of(&*state);
        if state.ask(buf) {
            self.changed.notify_all();
        }
        let asked = Snapshot::of(&*state);
        (state, found, asked)
    }

    /// Writes as [`Relay::try_write`] does.
    fn try_write<T: Wait + Clock>(
        &self,
        rt: &T,
        buf: &[u8],
        milliseconds: u64,
    ) -> Call<W, io::Result<Option<usize>>>
        ensures bound { IfOk result.answer (λ told. IfSome told (λ n. n ≤ length buf.now)) }
        ensures tried { Tried buf.now result }
    {
        let (state, found, asked) = self.ask(rt, buf);
        let patience = Duration::from_millis(milliseconds);
        let (mut state, _) = self
            .changed
            .wait_timeout_while(rt, state, patience, |state| state.is_busy());
        let came = Snapshot::of(&*state);
        let told = state.answer_to(buf);
        let left = Snapshot::of(&*state);
        Call {
            answer: told.transpose(),
            found,
            asked,
            came,
            left,
        }
    }

    /// Writes, and waits until that is done.
    fn write<T: Wait>(&self, rt: &T, buf: &[u8]) -> Call<W, io::Result<usize>>
        ensures bound { WritesAtMost result.answer buf.now }
        ensures wrote { Wrote buf.now result }
    {
        let (state, found, asked) = self.ask(rt, buf);
        let mut state = self.changed.wait_while(rt, state, |state| state.is_busy());
        let came = Snapshot::of(&*state);
        let answer = state.answer_to(buf);
        let left = Snapshot::of(&*state);
        let answer = match answer {
            Some(answer) => answer,
            None => Err(io::Error::from(ErrorKind::Other)),
        };
        Call {
            answer,
            found,
            asked,
            came,
            left,
        }
    }

    /// Flushes behind what is on its way. It shows the state as it came back, and as it was left.
    fn flush<T: Wait>(&self, rt: &T) -> (io::Result<()>, Snapshot<State<W>>, Snapshot<State<W>>)
        ensures { Flushed result.0 result.1.value result.2.value }
    {
        let mut state = self
            .changed
            .wait_while(rt, self.state.lock(rt), |state| state.is_busy());
        let came = Snapshot::of(&*state);
        let answer = state.flush();
        let left = Snapshot::of(&*state);
        (answer, came, left)
    }
}

/// Writes what the client hands over, once and again, until the client is gone. It shows the state then.
fn carry_on<W: Write + Drop, T: Wait>(rt: &T, post: &Post<W>) -> Snapshot<State<W>>
    ensures { result.value ≡ State.Over }
{
    for _ in rt.forever() {
        let mut state = post
            .changed
            .wait_while(rt, post.state.lock(rt), |state| !state.has_task());
        let Some(mut lent) = state.lend() else {
            return Snapshot::of(&*state);
        };
        drop(state);
        lent.load.carry();
        post.state.lock(rt).settle(lent);
        post.changed.notify_all();
    }
    unreachable!()
}

/// A writer whose writes can be waited for a while.
///
/// A thread, the carrier, writes what it was handed: a copy of at most 1 MiB at a time. It holds no lock
/// while it writes. Who lets the relay go waits until what was handed over is written, or that failed.
pub struct Relay<W: Write + Drop, T: Wait + Drop> {
    rt: T,
    post: Arc<Post<W>>,
}

impl<W: Write + Drop, T: Wait + Drop> Drop for Relay<W, T> {
    fn drop(self) {
        let Self { rt, post } = self;
        let mut state = post
            .changed
            .wait_while(&rt, post.state.lock(&rt), |state| state.is_busy());
        *state = State::Over;
        drop(state);
        post.changed.notify_all();
    }
}

impl<W: Write + Drop, T: Wait + Drop> Relay<W, T> {
    /// Writes a front of these bytes, as `Write::write` does, but waits for that at most so many
    /// milliseconds. It answers none where they are on their way: the next write has to begin with the same
    /// bytes, and tells of them.
    pub fn try_write(&mut self, buf: &[u8], milliseconds: u64) -> io::Result<Option<usize>>
    where
        T: Clock,
        ensures { IfOk result (λ told. IfSome told (λ n. n ≤ length buf.now)) }
    {
        self.post.try_write(&self.rt, buf, milliseconds).answer
    }
}

impl<W: Write + Drop, T: Wait + Drop> Write for Relay<W, T> {
    fn write(&mut self, buf: &[u8]) -> io::Result<usize> {
        self.post.write(&self.rt, buf).answer
    }

    fn flush(&mut self) -> io::Result<()> {
        self.post.flush(&self.rt).0
    }
}

/// A carrier that rests until it is given a writer, with its room.
#[derive(Drop)]
pub struct Carrier<W: Write + Drop, T: Wait + Drop> {
    relay: Relay<W, T>,
    room: Room,
}

impl<W: Write + Drop, T: Wait + Drop> Carrier<W, T> {
    /// Starts a carrier. None where there is no thread or no memory.
    pub fn start(rt: &T, alloc: Global) -> Option<Carrier<W, T>>
    where
        W: Send + 'static,
        T: Threads + Copy + Send + 'static,
    {
        let rt = *rt;
        let room = Room::new(alloc).ok()?;
        let state = State::Idle;
        let post = Post {
            state: Mutex::new(state),
            changed: Condvar::new(),
        };
        let post = Arc::new(alloc, post).ok()?;
        let carrier_post = Arc::try_clone(&post).ok()?;
        let carries = move || {
            carry_on(&rt, &carrier_post);
        };
        if thread::spawn(&rt, carries).is_err() {
            return None;
        }
        let relay = Relay { rt, post };
        Some(Carrier { relay, room })
    }

    /// Gives the carrier its writer. Nothing is written yet.
    pub fn carry(self, writer: W) -> Relay<W, T> {
        let Self { relay, room } = self;
        *relay.post.state.lock(&relay.rt) = State::begun(writer, room);
        relay
    }
}
