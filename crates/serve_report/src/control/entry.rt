//! A stream of a run that hasn't ended.
ghost use Rattle.std.specs.Prelude.{◌≡◌, None, Some, IsFalse, MatchOption, false, not};
ghost use Rattle.serve_report.specs.Places.{is_ready, is_served, is_under};

use super::order::Order;
use super::shares::Share;
use crate::serve::{FileUse, Ready};
use serve_files::{Files, Place};
use std::alloc::Global;
use std::mem;
use std::sync::Arc;
use y4m_stream::{Sink, Source};

/// How far a stream has come.
#[derive(Drop)]
pub enum Stage<R: Source, W: Sink> {
    /// Its input is being opened.
    Input,
    /// Its header is being read.
    Header,
    /// Its output is being made.
    Output,
    /// It waits to be served.
    Ready(Ready<R, W>),
    /// It is served under this ticket.
    Served(u64),
}

/// A stream that hasn't ended.
#[derive(Drop)]
pub struct Entry<R: Source, W: Sink, S: Drop> {
    pub order: Arc<Order, Global>,
    input: Place,
    output: Place,
    stage: Stage<R, W>,
    /// The share of the workers that is kept for it.
    pub share: Share,
    /// What is held open, so that its opener doesn't wait for a FIFO's other end.
    held: Option<S>,
    /// Whether it was told that it lost its output.
    is_loss_told: bool,
}

impl<R: Source + Drop, W: Sink + Drop, S: Drop> Entry<R, W, S> {
    /// A stream whose input is being opened.
    pub fn new(
        order: Arc<Order, Global>,
        share: Share,
        input: Place,
        output: Place,
    ) -> Entry<R, W, S>
        ensures entry { result ≡ record {
          order = order;
          input = input;
          output = output;
          stage = Stage.Input;
          share = share;
          held = None;
          is_loss_told = false;
        } }
        ensures share { result.share ≡ share }
    {
        Entry {
            order,
            input,
            output,
            stage: Stage::Input,
            share,
            held: None,
            is_loss_told: false,
        }
    }

    pub fn is_named(&self, name: &str) -> bool {
        self.order.name.as_str() == name
    }

    pub fn is_served(&self, ticket: u64) -> bool
        ensures { result ≡ is_under ticket self.now.stage }
    {
        match self.stage {
            Stage::Served(number) => number == ticket,
            _ => false,
        }
    }

    /// Whether it isn't served yet.
    pub fn is_unserved(&self) -> bool
        ensures { result ≡ not (is_served self.now.stage) }
    {
        !matches!(self.stage, Stage::Served(_))
    }

    /// Whether it waits to be served.
    pub fn is_ready(&self) -> bool
        ensures { result ≡ is_ready self.now.stage }
    {
        matches!(self.stage, Stage::Ready(_))
    }

    /// Whether one of the two would lose by it, the stream or who uses the file so.
    pub fn clashes_with(&self, file: &FileUse<'_>) -> bool {
        let input = FileUse::input(&self.order.input, self.input);
        let output = FileUse::output(&self.order.output, self.output);
        input.clashes_with(file) || output.clashes_with(file)
    }

    /// What stands behind the name of its input.
    pub fn input(&self) -> Place
        ensures { result ≡ self.now.input }
    {
        self.input
    }

    /// Notes where its input stands, which was opened. Its header is read next.
    pub fn set_input(&mut self, input: Place)
        ensures { self.new ≡ record self.old { input = input; stage = Stage.Header; held = None } }
    {
        self.input = input;
        self.held = None;
        self.stage = Stage::Header;
    }

    /// Notes that its header was read. Its output is made next.
    pub fn end_header(&mut self)
        ensures { self.new ≡ record self.old { stage = Stage.Output } }
    {
        self.stage = Stage::Output;
    }

    /// Notes where its output stands, which was made.
    pub fn set_output(&mut self, output: Place)
        ensures { self.new ≡ record self.old { output = output } }
    {
        self.output = output;
    }

    /// Has the stream wait to be served, now that it is opened.
    pub fn make_ready(&mut self, ready: Ready<R, W>)
        ensures { self.new ≡ record self.old { stage = Stage.Ready ready; held = None } }
    {
        self.held = None;
        self.stage = Stage::Ready(ready);
    }

    /// Notes that it is served under this ticket, where it waits to be, and answers what it is served with.
    pub fn serve(&mut self, ticket: u64) -> Option<Ready<R, W>>
        ensures { MatchOption result (IsFalse (is_ready self.old.stage) × (self.new ≡ self.old))
            (λ ready. (self.old.stage ≡ Stage.Ready ready)
            × (self.new ≡ record self.old { stage = Stage.Served ticket })) }
    {
        match mem::replace(&mut self.stage, Stage::Served(ticket)) {
            Stage::Ready(ready) => Some(ready),
            other => {
                self.stage = other;
                None
            }
        }
    }

    /// Whether it lost its output, and that wasn't told.
    pub fn has_untold_loss(&self) -> bool {
        !self.is_loss_told && self.order.has_lost_output()
    }

    /// Answers whether it lost its output, and that wasn't told. It is from here on.
    pub fn take_loss(&mut self) -> bool {
        let is_new = self.has_untold_loss();
        self.is_loss_told |= is_new;
        is_new
    }

    /// Lets go what is held open for it.
    pub fn drop_held(&mut self)
        ensures { self.new ≡ record self.old { held = None } }
    {
        self.held = None;
    }

    /// Holds a FIFO open that is being opened for it, so that its opener comes back. One that is held stays
    /// so. Another file that has taken its name isn't held.
    pub fn hold_open<F: Files<Slow = S>>(&mut self, files: &F)
    where
        S: 'static,
        ensures { self.new ≡ record self.old { held = self.new.held } }
    {
        let (name, place) = match self.stage {
            Stage::Input => (&self.order.input, self.input),
            Stage::Output => (&self.order.output, self.output),
            _ => return,
        };
        if self.held.is_none() && is_same_fifo(place, files.place(name)) {
            self.held = files.hold(name).ok();
        }
    }
}

/// Whether a FIFO stands where this stood, or nothing did yet.
fn is_same_fifo(before: Place, found: Place) -> bool {
    match (before, found) {
        (Place::Pipe(one), Place::Pipe(other)) => one == other,
        (Place::Missing, Place::Pipe(_)) => true,
        _ => false,
    }
}
