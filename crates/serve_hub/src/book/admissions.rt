//! Streams that are admitted while the book is open.
ghost use Rattle.std.specs.Prelude.{◌≡◌, ◌≤◌, None, Some, IfErr, IfOk, OnOk, length};
ghost use Rattle.serve_core.specs.Schedule.{with_stream};
ghost use Rattle.serve_hub.specs.declared.entry.Act.TheVariants.{Admitted};
ghost use Rattle.serve_hub.specs.declared.entry.Seat.TheVariants.{Stream};
ghost use Rattle.serve_hub.specs.Answers.{IsAdmitAnswer, RefusesAdmission};
ghost use Rattle.serve_hub.specs.Books.{Appends};

use super::Book;
use crate::entry::{Act, Entry, Seat};
use crate::refusal::{Refusal, or_full};
use serve_core::{Newcomer, Refusal as CoreRefusal, StreamSpec};
use std::alloc::Global;

impl Book {
    /// What [`Book::admit`] would refuse this stream for, want of memory aside.
    pub fn admit_refusal(&self, spec: &StreamSpec) -> Option<Refusal>
        ensures { IsAdmitAnswer self.now spec.now result }
    {
        if let Some(refusal) = self.desk.admit_refusal(spec) {
            return Some(Refusal::Core(refusal));
        }
        if self.room() < 2 {
            return Some(Refusal::HistoryFull);
        }
        None
    }

    /// One stream more, with the number behind all others. Its close is reserved. A refused spec comes back.
    ///
    /// The stream's memory is taken first.
    pub fn admit(&mut self, alloc: Global, spec: StreamSpec) -> Result<u32, (Refusal, StreamSpec)>
        ensures entry { IfOk result (λ s. Appends (Stream s) Admitted self.old self.new) }
        ensures stream { IfOk result (λ s. (s ≡ length self.old.desk.streams)
            × (self.new.desk ≡ with_stream spec self.old.desk)) }
        ensures answer { OnOk result (IsAdmitAnswer self.old spec None) }
        ensures refused { IfErr result (λ e. RefusesAdmission self.old spec e.0) }
        ensures returns_spec { IfErr result (λ e. (e.1 ≡ spec) × (self.new ≡ self.old)) }
    {
        let newcomer = match Newcomer::new(alloc, spec) {
            Ok(newcomer) => newcomer,
            Err((_, spec)) => return Err((self.refusal_without_memory(&spec), spec)),
        };
        match self.admit_newcomer(newcomer) {
            Ok(s) => Ok(s),
            Err((refusal, newcomer)) => Err((refusal, newcomer.into_spec())),
        }
    }

    /// What a stream is refused for whose memory was refused.
    pub(crate) fn refusal_without_memory(&self, spec: &StreamSpec) -> Refusal
        ensures { RefusesAdmission self.now spec.now result }
    {
        self.admit_refusal(spec)
            .unwrap_or(Refusal::Core(CoreRefusal::NoMemory))
    }

    /// What [`Book::admit`] does, with the stream's memory, which was taken outside. A refused newcomer comes
    /// back.
    pub fn admit_newcomer(&mut self, newcomer: Newcomer) -> Result<u32, (Refusal, Newcomer)>
        ensures entry { IfOk result (λ s. Appends (Stream s) Admitted self.old self.new) }
        ensures behind { IfOk result (λ s. length self.old.opening.streams ≤ s) }
        ensures stream { IfOk result (λ s. (s ≡ length self.old.desk.streams)
            × (self.new.desk ≡ with_stream newcomer self.old.desk)) }
        ensures answer { OnOk result (IsAdmitAnswer self.old newcomer None) }
        ensures refused { IfErr result (λ e. RefusesAdmission self.old newcomer e.0) }
        ensures returns_newcomer { IfErr result (λ e. (e.1 ≡ newcomer) × (self.new ≡ self.old)) }
    {
        if self.room() < 2 {
            return Err((or_full(self.desk.admit_refusal(newcomer.spec())), newcomer));
        }
        match self.desk.admit_newcomer(newcomer) {
            Ok(s) => {
                self.journal
                    .push_reserved(Entry::new(Seat::Stream(s), Act::Admitted));
                self.taken += 2;
                Ok(s)
            }
            Err((refusal, newcomer)) => Err((Refusal::Core(refusal), newcomer)),
        }
    }
}
