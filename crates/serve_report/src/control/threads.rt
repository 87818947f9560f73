//! The threads of a run whose streams come and go: the first serves, one takes the lines of its control, and
//! each stream is opened on one of its own.
ghost use Rattle.std.specs.Prelude.{ℕ, ◌≡◌};
ghost use Rattle.std.specs.Thread.{IsSend, IsSync};
ghost use Rattle.serve_report.specs.Moments.{IsMoment};
ghost use Rattle.serve_work.specs.History.{terms_of};
ghost use Rattle.serve_work.specs.Live.{IsForm};

use super::crew::Wants;
use super::door::{Doorway, HasTerms};
use super::errand::{Bidding, Bids, Errand};
use super::lobby::Lobby;
use crate::serve::{PlainGate, RunClock};
use crate::session::{Form, Session};
use serve_work::{Clock as Moments, SessionFault, serve_live};
use std::io::Write;
use std::marker::Brand;
use std::sync::atomic::{AtomicBool, Ordering};
use std::sync::{Mutex, Wait};
use std::thread::{self, Threads};
use std::time::Clock;
use y4m_stream::{Sink, Source};

/// What is done for streams that are to be opened.
#[derive(Drop)]
pub struct Openers<L, P, D, G> {
    /// Starts those whom a stream wants.
    pub prepares: L,
    /// Opens a stream. It may wait.
    pub opens: P,
    /// Lets those go who were started for the stream of this number, which isn't opened.
    pub dismisses: D,
    /// Lets those come back who open a stream, where nobody is served any more.
    pub gives_up: G,
}

/// What is heard in a run: the streams that are opened first, what says what is to be done then, and whether
/// the run is over.
#[derive(Drop)]
pub struct Hearing<'h, B> {
    pub first: Vec<Errand>,
    pub bids: B,
    pub is_over: &'h AtomicBool,
}

impl<'o, R, W, S, O, E> Lobby<'o, R, W, S, O, E>
where
    R: Source + Drop + Send,
    W: Sink + Drop + Send,
    S: Drop + Send,
    O: Write + Send,
    E: Write + Send,
{
    /// Takes the lines of a control while those are served who come to the lobby, until no more come. Then no
    /// line is read any more. Where there is no thread for the lines none is, nor is a stream opened of which
    /// a file may be waited for. Where there is none for the answers, each is written where it is said.
    pub fn serve_beside<T, B, L, P, D, G>(
        &self,
        session: Session<'_, '_, RunClock<'_, T>, T>,
        hearing: Hearing<'_, B>,
        openers: &Openers<L, P, D, G>,
    )
    where
        T: Threads + Wait + Clock + Sync,
        B: Bids + Drop + Send,
        L: Fn(Wants) + Sync,
        P: Fn(Errand) + Sync,
        D: Fn(u64) + Sync,
        G: Fn() + Sync,
        requires form { IsForm session.form.workers session.form.quantum }
        requires prepares { L.IsAlwaysCallable openers.now.prepares }
        requires opens { P.IsAlwaysCallable openers.now.opens }
        requires dismisses { D.IsAlwaysCallable openers.now.dismisses }
        requires gives_up { G.IsAlwaysCallable openers.now.gives_up }
    {
        let Session { rt, alloc, .. } = session;
        let is_over = hearing.is_over;
        let bids = hearing.bids;
        let first = &Mutex::new(Some(hearing.first));
        thread::scope(
            thread::scope_env(),
            rt,
            |scope|
                requires { IsForm session.form.workers session.form.quantum × IsSync T.row × IsSync L.row
                    × IsSync P.row × IsSync D.row × IsSync G.row × IsSend B.row × IsSend R.row
                    × IsSend W.row × IsSend S.row × IsSend O.row × IsSend E.row
                    × L.IsAlwaysCallable openers.now.prepares × P.IsAlwaysCallable openers.now.opens
                    × D.IsAlwaysCallable openers.now.dismisses × G.IsAlwaysCallable openers.now.gives_up }
            {
                let _is_written = scope.spawn(move || self.write_on(rt, alloc)).is_ok();
                let listening = scope.spawn(
                    move ||
                        requires { L.IsAlwaysCallable openers.now.prepares
                            × P.IsAlwaysCallable openers.now.opens
                            × D.IsAlwaysCallable openers.now.dismisses }
                    {
                        let first = first.lock(rt).take().unwrap_or(Vec::new(alloc));
                        self.listen(rt, first, bids, openers);
                    },
                );
                let is_heard = listening.is_ok();
                if !is_heard {
                    self.open_prompt(rt, first, &openers.opens);
                    self.end(rt);
                }
                self.attend(session, is_heard, is_over, &openers.gives_up);
            },
        );
    }

    /// Serves those who come, until no more come. Then no line is read any more. Where that failed, or there
    /// was no thread for the lines, that is told, and those come back who open a stream.
    fn attend<T, G>(
        &self,
        session: Session<'_, '_, RunClock<'_, T>, T>,
        is_heard: bool,
        is_over: &AtomicBool,
        gives_up: &G,
    )
    where
        T: Threads + Wait + Clock + Sync,
        G: Fn(),
        requires form { IsForm session.form.workers session.form.quantum }
        requires gives_up { G.IsAlwaysCallable gives_up.now }
    {
        let served = serve_lobby(session, self);
        is_over.store(true, Ordering::SeqCst);
        self.end_serving(session.rt);
        if let Err(fault) = serving_of(served, is_heard) {
            self.fail(session.rt, fault);
            gives_up();
        }
    }
}

impl<'o, R, W, S, O, E> Lobby<'o, R, W, S, O, E>
where
    R: Source + Drop,
    W: Sink + Drop,
    S: Drop,
    O: Write,
    E: Write,
{
    /// Opens those of the first streams one after the other for which nobody is waited for, and refuses the
    /// others.
    fn open_prompt<T: Wait, P: Fn(Errand)>(
        &self,
        rt: &T,
        first: &Mutex<Option<Vec<Errand>>>,
        opens: &P,
    )
        requires { P.IsAlwaysCallable opens.now }
    {
        let Some(errands) = first.lock(rt).take() else {
            return;
        };
        for errand in errands {
            if errand.is_prompt {
                opens(errand);
            } else {
                self.refuse(rt, errand.order.number);
            }
        }
    }

    /// Opens the first streams, and takes the lines of a control until no more are taken. It ends when each
    /// stream that was asked for is opened or stopped.
    fn listen<T, B, L, P, D, G>(
        &self,
        rt: &T,
        first: Vec<Errand>,
        bids: B,
        openers: &Openers<L, P, D, G>,
    )
    where
        T: Threads + Wait,
        B: Bids + Drop,
        L: Fn(Wants),
        P: Fn(Errand) + Sync,
        D: Fn(u64),
        requires prepares { L.IsAlwaysCallable openers.now.prepares }
        requires opens { P.IsAlwaysCallable openers.now.opens }
        requires dismisses { D.IsAlwaysCallable openers.now.dismisses }
    {
        let Openers {
            prepares,
            opens,
            dismisses,
            ..
        } = openers;
        let mut first = first.into_iter();
        let mut bids = bids;
        thread::scope(
            thread::scope_env(),
            rt,
            |scope|
                requires { IsSync P.row × L.IsAlwaysCallable prepares.now × P.IsAlwaysCallable opens.now
                    × D.IsAlwaysCallable dismisses.now }
            {
                for _ in rt.forever() {
                    let bidding = match first.next() {
                        Some(errand) => Bidding::Open(errand),
                        None => bids.next(),
                    };
                    let errand = match bidding {
                        Bidding::Done => continue,
                        Bidding::Open(errand) => errand,
                        Bidding::End => break,
                    };
                    let number = errand.order.number;
                    prepare(prepares, &errand);
                    let opening = scope.spawn(
                        move ||
                            requires { P.IsAlwaysCallable opens.now }
                        { opens(errand) },
                    );
                    if opening.is_err() {
                        dismisses(number);
                        self.refuse(rt, number);
                    }
                }
                self.end(rt);
            },
        );
    }
}

/// Starts those whom a stream wants.
fn prepare<L: Fn(Wants)>(prepares: &L, errand: &Errand)
    requires { L.IsAlwaysCallable prepares.now }
{
    if let Some(wants) = errand.wants() {
        prepares(wants);
    }
}

/// What serving came to, where there was a thread for the lines, and else that there was none.
fn serving_of(served: Result<(), SessionFault>, is_heard: bool) -> Result<(), SessionFault> {
    served?;
    if is_heard {
        Ok(())
    } else {
        Err(SessionFault::NoMemory)
    }
}

/// Serves those who come to a lobby, until no more come.
fn serve_lobby<R, W, S, O, E, T>(
    session: Session<'_, '_, RunClock<'_, T>, T>,
    lobby: &Lobby<'_, R, W, S, O, E>,
) -> Result<(), SessionFault>
where
    R: Source + Drop + Send,
    W: Sink + Drop + Send,
    S: Drop + Send,
    O: Write + Send,
    E: Write + Send,
    T: Threads + Wait + Clock + Sync,
    requires { IsForm session.form.workers session.form.quantum }
{
    serve_door::<R, W, S, O, E, RunClock<'_, T>, T, Brand>(session, lobby)
}

/// Serves those who come, by a door whose type tells what is served by.
fn serve_door<R, W, S, O, E, K, T, L>(
    session: Session<'_, '_, K, T>,
    lobby: &Lobby<'_, R, W, S, O, E>,
) -> Result<(), SessionFault>
where
    R: Source + Drop + Send,
    W: Sink + Drop + Send,
    S: Drop + Send,
    O: Write + Send,
    E: Write + Send,
    K: Moments + Sync,
    T: Threads + Wait + Clock + Sync,
    L: HasTerms + Sync,
    requires form { IsForm session.form.workers session.form.quantum }
    requires terms { terms_of session.form.workers session.form.quantum session.form.journal ≡ L.terms }
    requires times { (at : ℕ) → K.gives session.clock.now at → IsMoment at }
{
    let Session {
        rt,
        alloc,
        form,
        clock,
    } = session;
    let Form {
        workers,
        quantum,
        journal,
    } = form;
    let mut door: Doorway<'_, '_, R, W, S, O, E, K, T, L> = Doorway::new(rt, alloc, lobby, clock)?;
    serve_live(
        rt, alloc, workers, quantum, journal, &mut door, &PlainGate, clock,
    )
}
