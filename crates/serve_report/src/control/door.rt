//! The door of a run whose streams come and go.
ghost use Rattle.std.specs.Prelude.{⊤, ◌≡◌, ◌++◌, [], ◌∷◌, IfNone, IfOk, IfSome, map};
ghost use Rattle.serve_work.specs.History.{Terms, terms_of};
ghost use Rattle.serve_work.specs.Sessions.{IsInput};
ghost use Rattle.serve_report.specs.Moments.{IsMoment};

use super::answer::{Said, Standing};
use super::entry::Entry;
use super::holders::Holder;
use super::holdings::Holdings;
use super::lobby::Lobby;
use super::table::Table;
use super::tickets::Tickets;
use super::voice::Voice;
use super::{AdmitFault, StreamRow, StreamStop};
use serve_hub::Ended;
use serve_work::{
    Answer, Bell, Cause, Chronicle, Clock as Moments, Door, Request, Standing as Stood,
};
use std::alloc::{AllocError, Global};
use std::io::Write;
use std::marker::{Brand, PhantomData};
use std::sync::{CondvarTimeouts, Wait};
use std::time::{Clock, Duration};
use y4m_stream::{ReadFault, Sink, Source};

/// What a session serves by, for contracts alone.
///
/// A door's type tells it. Who calls a function that is generic in it, at `Brand`, picks it there.
pub trait HasTerms {
    ghost terms: { Terms };
}

impl HasTerms for Brand {
    ghost terms = { terms_of 0 0 0 };
}

/// The door to a lobby. It gives the streams that wait there, one after the other.
#[derive(Drop)]
pub struct Doorway<
    'l,
    'o,
    R: Source,
    W: Sink,
    S: Drop,
    O: Write,
    E: Write,
    K: Moments,
    T,
    L: HasTerms,
> {
    rt: &'l T,
    lobby: &'l Lobby<'o, R, W, S, O, E>,
    clock: &'l K,
    /// Those of the streams that were given and aren't told yet.
    tickets: Tickets,
    /// What the streams of the latest epoch held at its end.
    holdings: Holdings,
    /// Whether the streams of the latest epoch are given up.
    gives_up: bool,
    terms: PhantomData<L>,
}

impl<'l, 'o, R, W, S, O, E, K, T, L> Doorway<'l, 'o, R, W, S, O, E, K, T, L>
where
    R: Source + Drop,
    W: Sink + Drop,
    S: Drop,
    O: Write,
    E: Write,
    K: Moments,
    T: Wait,
    L: HasTerms,
{
    /// Nothing was given yet.
    pub fn new(
        rt: &'l T,
        alloc: Global,
        lobby: &'l Lobby<'o, R, W, S, O, E>,
        clock: &'l K,
    ) -> Result<Doorway<'l, 'o, R, W, S, O, E, K, T, L>, AllocError>
        ensures { IfOk result (λ door. door.tickets ≡ []) }
    {
        Ok(Doorway {
            rt,
            lobby,
            clock,
            tickets: Tickets::new(alloc)?,
            holdings: Holdings::new(),
            gives_up: false,
            terms: PhantomData,
        })
    }

    /// The next one that waits, under its ticket.
    fn take_ready(&mut self) -> Option<Request<R, W>>
        ensures input { IfSome result (λ r. IsInput r.spec (r.reader, r.writer)) }
        ensures given { IfSome result (λ r. self.new.tickets ≡ self.old.tickets ++ r.ticket ∷ []) }
        ensures none { IfNone result (self.new.tickets ≡ self.old.tickets) }
    {
        let mut table = self.lobby.table.lock(self.rt);
        if !table.has_ready() {
            return None;
        }
        let ticket = self.tickets.give()?;
        let Some(ready) = table.serve_next(ticket) else {
            self.tickets.take(ticket);
            return None;
        };
        let (reader, writer) = ready.input;
        Some(Request {
            ticket,
            spec: ready.spec,
            reader,
            writer,
        })
    }

    /// Tells what the stream of a ticket came to.
    fn say_ended(&mut self, ticket: u64, course: Course)
        ensures { self.new.tickets ≡ self.old.tickets }
    {
        let mut voice = self.lobby.voice.lock(self.rt);
        let entry = self.take_ended(ticket);
        self.lobby.changed.notify_all();
        if let Some(entry) = &entry {
            entry.order.presence.end();
            if entry.has_untold_loss() {
                voice.say(&Said::LostOutput(&entry.order.name));
            }
            let closing = Closing {
                is_closed: entry.order.is_closed(),
                is_given_up: self.gives_up && !entry.order.has_lost_output(),
            };
            let row = course.row(&entry.order.name, closing);
            voice.say_row(row, entry.order.is_of_words);
            self.lobby.told.notify_all();
        }
    }

    /// Tells which streams lost their outputs, where that wasn't told.
    fn say_losses(&self) {
        let mut voice = self.lobby.voice.lock(self.rt);
        let mut table = self.lobby.table.lock(self.rt);
        say_losses(&mut voice, &mut table);
        self.lobby.told.notify_all();
    }

    /// Takes the stream of a ticket out. What it holds is kept, unless no stream is left.
    fn take_ended(&self, ticket: u64) -> Option<Entry<R, W, S>> {
        let mut table = self.lobby.table.lock(self.rt);
        let holding = self.holdings.under(ticket);
        table.end_served(ticket, holding, self.tickets.is_empty())
    }
}

/// Whether a stream that ended was closed, and whether it was given up while its output was there.
#[derive(Clone, Copy)]
struct Closing {
    is_closed: bool,
    is_given_up: bool,
}

/// What a stream came to.
#[derive(Clone, Copy)]
struct Course {
    accepted: u64,
    delivered: u64,
    charged: u64,
    stop: StreamStop,
}

impl Course {
    /// What a stream came to, by its answer. The stream's files are let go.
    fn of<R: Source + Drop, W: Sink + Drop>(answer: Answer<R, W>) -> Course {
        match answer {
            Answer::Ended(served) => Course {
                accepted: served.accepted,
                delivered: served.delivered,
                charged: served.charged,
                stop: StreamStop::from(served.stop),
            },
            Answer::Refused(refusal, ..) => Course {
                accepted: 0,
                delivered: 0,
                charged: 0,
                stop: StreamStop::Admit(AdmitFault::from(refusal)),
            },
        }
    }

    /// What is reported of it.
    fn row(self, name: &str, closing: Closing) -> StreamRow<'_> {
        let stop = if closing.is_closed {
            self.closed_stop(closing.is_given_up)
        } else {
            self.stop
        };
        StreamRow {
            name,
            accepted: self.accepted,
            delivered: self.delivered,
            charged: self.charged,
            stop,
        }
    }

    /// Why it ended, where it was closed. Its last read failed for that. It isn't told as closed where an
    /// image is missing, since it was given up, or a write failed.
    fn closed_stop(self, is_given_up: bool) -> StreamStop {
        let is_whole = self.delivered == self.accepted;
        match self.stop {
            StreamStop::Admit(_) => StreamStop::Closed,
            StreamStop::Read(ReadFault::Device) if is_whole => StreamStop::Closed,
            StreamStop::Read(ReadFault::Device) if is_given_up => {
                StreamStop::Refused(Cause::NoMemory)
            }
            stop => stop,
        }
    }
}

impl<'l, 'o, R, W, S, O, E, K, T, L> Bell for Doorway<'l, 'o, R, W, S, O, E, K, T, L>
where
    R: Source + Drop,
    W: Sink + Drop,
    S: Drop,
    O: Write,
    E: Write,
    K: Moments,
    T: Wait + Clock,
    L: HasTerms,
{
    ghost is_over = { λ _. ⊤ };

    fn wait(&self) -> bool {
        let table = self.lobby.table.lock(self.rt);
        let table = self.lobby.changed.wait_while(
            self.rt,
            table,
            |table| !table.has_request() && table.may_call(),
        );
        table.has_request()
    }

    fn is_there(&self, patience: u64) -> bool {
        let moment = self.clock.moment();
        let table = self.lobby.table.lock(self.rt);
        let (table, _) = self.lobby.changed.wait_timeout_while(
            self.rt,
            table,
            Duration::from_millis(patience),
            |table| !table.ends_epoch(moment),
        );
        let ends_epoch = table.ends_epoch(moment);
        let has_loss = table.has_untold_loss();
        drop(table);
        if has_loss {
            self.say_losses();
        }
        ends_epoch
    }

    fn epoch_is_over(&self) {
        self.lobby.table.lock(self.rt).call_all();
    }
}

impl<'l, 'o, R, W, S, O, E, K, T, L> Chronicle for Doorway<'l, 'o, R, W, S, O, E, K, T, L>
where
    R: Source + Drop,
    W: Sink + Drop,
    S: Drop,
    O: Write,
    E: Write,
    K: Moments,
    T: Wait + Clock,
    L: HasTerms,
{
    ghost terms = { L.terms };

    ghost times = { IsMoment };

    ghost stands = { λ door es ws. map (λ w. w.ticket) ws ≡ door.tickets };

    fn epoch_ended(&mut self, ended: &Ended, tickets: &[Option<u64>]) {
        self.holdings = Holdings::of(ended, tickets);
        self.gives_up = false;
    }

    fn goes_on(&mut self, at: u64) {
        self.lobby.table.lock(self.rt).goes_on(at);
    }

    fn gives_up(&mut self) {
        self.gives_up = true;
    }

    fn retired(&mut self) {
        self.lobby.table.lock(self.rt).retired();
    }
}

impl<'l, 'o, R, W, S, O, E, K, T, L> Door<R, W> for Doorway<'l, 'o, R, W, S, O, E, K, T, L>
where
    R: Source + Drop,
    W: Sink + Drop,
    S: Drop,
    O: Write,
    E: Write,
    K: Moments,
    T: Wait + Clock,
    L: HasTerms,
{
    fn next(&mut self) -> Option<Request<R, W>> {
        self.take_ready()
    }

    fn admitted(&mut self, ticket: u64) {
        let mut voice = self.lobby.voice.lock(self.rt);
        let table = self.lobby.table.lock(self.rt);
        if let Some(entry) = table.entry_under(ticket) {
            voice.say(&Said::Admitted(&entry.order.name));
            self.lobby.told.notify_all();
        }
    }

    fn tell(&mut self, ticket: u64, answer: &mut Option<Answer<R, W>>) {
        let Some(answer) = answer.take() else {
            unreachable!()
        };
        let course = Course::of(answer);
        self.tickets.take(ticket);
        self.say_ended(ticket, course);
    }

    fn asks(&self) -> bool {
        self.lobby.table.lock(self.rt).asked > 0
    }

    fn show(&mut self, ticket: u64, standing: Stood) {
        let mut voice = self.lobby.voice.lock(self.rt);
        let table = self.lobby.table.lock(self.rt);
        if let Some(entry) = table.entry_under(ticket) {
            let name = &entry.order.name;
            let standing = standing_of(standing);
            let said = if entry.order.has_lost_output() {
                Said::StandsLost(name, standing)
            } else {
                Said::Stands(name, standing)
            };
            voice.say(&said);
            self.lobby.told.notify_all();
        }
    }

    fn end_show(&mut self, moment: Option<u64>) {
        let moment = match moment {
            Some(moment) => moment,
            None => self.clock.moment(),
        };
        let mut voice = self.lobby.voice.lock(self.rt);
        let mut table = self.lobby.table.lock(self.rt);
        say_unserved(&mut voice, &table);
        let latest = table.latest(moment);
        say_holders(&mut voice, table.holders.all(), latest);
        voice.say(&table.shares_said(latest));
        voice.say(&Said::Now(moment, table.count_served()));
        table.asked = table.asked.saturating_sub(1);
        voice.end_show();
        self.lobby.told.notify_all();
    }
}

/// Tells which streams lost their outputs, where that wasn't told.
fn say_losses<R: Source + Drop, W: Sink + Drop, S: Drop, O: Write, E: Write>(
    voice: &mut Voice<'_, O, E>,
    table: &mut Table<R, W, S>,
) {
    for entry in &mut table.entries {
        if entry.take_loss() {
            voice.say(&Said::LostOutput(&entry.order.name));
        }
    }
}

/// Tells which streams are being opened, or wait to be served.
fn say_unserved<R: Source + Drop, W: Sink + Drop, S: Drop, O: Write, E: Write>(
    voice: &mut Voice<'_, O, E>,
    table: &Table<R, W, S>,
) {
    for entry in &table.entries {
        if entry.is_unserved() {
            voice.say(&Said::Opening(&entry.order.name));
        }
    }
}

/// Tells who holds a share at a moment, though its stream has ended.
fn say_holders<O: Write, E: Write>(voice: &mut Voice<'_, O, E>, holders: &[Holder], moment: u64) {
    for holder in holders {
        if holder.holds_at(moment) {
            voice.say(&Said::Held(&holder.order.name, holder.holding));
        }
    }
}

fn standing_of(stood: Stood) -> Standing {
    Standing {
        accepted: stood.accepted,
        finished: stood.finished,
        collected: stood.collected,
        charged: stood.charged,
        budget: stood.budget,
        deadline: stood.deadline,
    }
}
