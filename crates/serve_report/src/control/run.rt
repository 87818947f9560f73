//! A run whose streams come and go.
ghost use Rattle.std.specs.Prelude.{◌≡◌, ◌≤◌};
ghost use Rattle.serve_work.specs.Live.{IsForm};

use super::clerk::{Clerk, Desk};
use super::crew::{Crew, Wants};
use super::errand::Errand;
use super::feed::Feed;
use super::listener::{Lines, Listener};
use super::lobby::Lobby;
use super::opener::{Opener, Shared};
use super::threads::{Hearing, Openers};
use super::voice::Voice;
use crate::bounds::SentReader;
use crate::host::Host;
use crate::serve::{RunClock, RunFault};
use crate::session::{Form, Session};
use serve_files::Files;
use serve_watch::Watch;
use serve_words::Checked;
use serve_work::SessionFault;
use std::io::{Read, Write};
use std::sync::Wait;
use std::sync::atomic::AtomicBool;
use std::thread::Threads;
use std::time::Clock;
use y4m_stream::{Sink, Source};

/// The fewest entries of a journal where streams come and go: an admission and a close of each of 64 streams,
/// and those of a lease.
const FEWEST_ENTRIES: usize = 130;

/// What is asked of a run: the streams that were checked, and the lines by which others come.
#[derive(Drop)]
pub struct Agenda<'a, 'c, I: Read, S> {
    pub checked: Checked<'a>,
    pub lines: Lines<'c, I, S>,
}

impl<'t, 'f, 'w, F, V, T> Host<'t, 'f, 'w, F, V, T>
where
    F: Files + Sync,
    F::Reader: Send,
    F::Slow: Send + 'static,
    F::Writer: Send,
    F::SlowWriter: Send + 'static,
    V: Watch + Sync,
    T: Threads + Wait + Clock + Copy + Drop + Send + Sync + 'static,
{
    /// Serves the streams of an agenda, and those that its lines ask for, and answers the program's status.
    pub(crate) fn run_control<I: SentReader, W: Write + Send, E: Write + Send>(
        self,
        agenda: Agenda<'_, '_, I, F::Slow>,
        clock: &RunClock<'_, T>,
        output: &mut W,
        errors: &mut E,
    ) -> u8
        requires { IsForm agenda.checked.workers agenda.checked.quantum }
        ensures { result ≤ 1 }
    {
        // Each stream joins as it is opened.
        if let Some(watch) = self.watch {
            watch.begins(&[]);
        }
        let status = self.serve_control(agenda, clock, output, errors);
        if let Some(watch) = self.watch {
            watch.ends();
        }
        status
    }

    /// Serves the streams, tells what they came to, and answers the program's status.
    fn serve_control<I: SentReader, W: Write + Send, E: Write + Send>(
        self,
        agenda: Agenda<'_, '_, I, F::Slow>,
        clock: &RunClock<'_, T>,
        output: &mut W,
        errors: &mut E,
    ) -> u8
        requires { IsForm agenda.checked.workers agenda.checked.quantum }
        ensures { result ≤ 1 }
    {
        let voice = Voice::new(output, errors);
        let lobby = match Lobby::new(self.alloc, agenda.checked.workers, voice) {
            Ok(lobby) => lobby,
            Err(mut voice) => {
                voice.tell_fault(&RunFault::Session(SessionFault::NoMemory));
                return 1;
            }
        };
        self.serve_asked(agenda, clock, &lobby);
        lobby.close(self.rt)
    }

    /// Serves the streams. Each is opened in a thread of its own.
    fn serve_asked<I: SentReader, W: Write + Send, E: Write + Send>(
        self,
        agenda: Agenda<'_, '_, I, F::Slow>,
        clock: &RunClock<'_, T>,
        lobby: &Shared<'w, '_, F, V, T, W, E>,
    )
        requires { IsForm agenda.checked.workers agenda.checked.quantum }
    {
        let rt = self.rt;
        let alloc = self.alloc;
        let files = self.files;
        let form = form_of(&agenda.checked);
        let crew = Crew::new(alloc);
        let crew = &crew;
        let opener = Opener {
            host: self,
            height: agenda.checked.height,
            lobby,
            crew,
        };
        let openers = Openers {
            prepares: move |wants: Wants| crew.start(rt, alloc, &wants),
            opens: move |errand| opener.open_errand(errand),
            dismisses: move |number: u64| drop(crew.take(rt, number)),
            gives_up: move || lobby.give_up(rt, files),
        };
        let session = Session {
            rt,
            alloc,
            form,
            clock,
        };
        lobby.serve_agenda(session, files, agenda, &openers);
    }
}

impl<'o, R, W, S, O, E> Lobby<'o, R, W, S, O, E>
where
    R: Source + Drop + Send,
    W: Sink + Drop + Send,
    S: Read + Drop + Send + 'static,
    O: Write + Send,
    E: Write + Send,
{
    /// Serves the streams of an agenda, and those that its lines ask for, each of which is opened by the
    /// openers.
    fn serve_agenda<I, F, T, L, P, D, G>(
        &self,
        session: Session<'_, '_, RunClock<'_, T>, T>,
        files: &F,
        agenda: Agenda<'_, '_, I, S>,
        openers: &Openers<L, P, D, G>,
    )
    where
        I: SentReader,
        F: Files<Slow = S> + Sync,
        F::Reader: Send,
        F::Writer: Send,
        F::SlowWriter: Send + 'static,
        T: Threads + Wait + Clock + Copy + Drop + Send + Sync + 'static,
        L: Fn(Wants) + Sync,
        P: Fn(Errand) + Sync,
        D: Fn(u64) + Sync,
        G: Fn() + Sync,
        requires form { IsForm session.form.workers session.form.quantum }
        requires prepares { L.IsAlwaysCallable openers.now.prepares }
        requires opens { P.IsAlwaysCallable openers.now.opens }
        requires dismisses { D.IsAlwaysCallable openers.now.dismisses }
        requires gives_up { G.IsAlwaysCallable openers.now.gives_up }
    {
        let Agenda { checked, lines } = agenda;
        let Session { rt, alloc, .. } = session;
        let is_over = AtomicBool::new(false);
        let mut clerk = Clerk::new(session, files, &*self, &lines, &is_over);
        let Ok(first) = clerk.enter_all(checked.streams) else {
            self.fail(rt, SessionFault::NoMemory);
            return;
        };
        let feed = Feed::new(Listener::new(rt, alloc, lines.origin, &is_over));
        let hearing = Hearing {
            first,
            bids: Desk { clerk, feed },
            is_over: &is_over,
        };
        self.serve_beside(session, hearing, openers);
    }
}

/// By what the streams are served that were checked, and those that come.
fn form_of(checked: &Checked<'_>) -> Form
    ensures workers { result.workers ≡ checked.now.workers }
    ensures quantum { result.quantum ≡ checked.now.quantum }
{
    Form {
        workers: checked.workers,
        quantum: checked.quantum,
        journal: checked.journal.max(FEWEST_ENTRIES),
    }
}
