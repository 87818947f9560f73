//! Runs of `serve --control`.
use self::script::{Answering, Answers, Asking, Turn};
use super::memory::Memory;
use super::{words_of, written};
use crate::compare::same_at;
use serve_files::Files;
use serve_report::main_on;
use std::alloc::Global;
use std::fmt::Display;
use std::io::Write;
use std::process::Abort;
use std::sync::Wait;
use std::thread::Threads;
use std::time::Clock;

mod closing;
mod full;
mod growths;
mod losing;
mod opens;
mod requests;
mod script;
mod shares;
mod stopping;
mod unread;
mod waiting;

/// What may be the cause of another answer.
pub const REFUSED: &str = "was a thread or its memory refused?";

/// A run of the program that takes these turns, and what it is to come to.
#[derive(Clone, Copy)]
pub struct Talk<'a> {
    pub line: &'a str,
    pub turns: &'a [Turn<'a>],
    /// The bytes of a piece of what is said.
    pub step: usize,
    /// The bytes of answers that are taken.
    pub room: usize,
    /// What is waited for before any is taken.
    pub awaited: &'a str,
    pub answers: &'a str,
    /// Whether the answers come in this order; else no two are the same.
    pub is_ordered: bool,
    pub errors: &'a str,
    pub status: u8,
}

impl<'a> Talk<'a> {
    /// By `serve --control -`, in large pieces. It comes to these answers, to no fault and the status 0.
    pub fn new(turns: &'a [Turn<'a>], answers: &'a str) -> Talk<'a> {
        Talk {
            line: "serve --control -",
            turns,
            step: usize::MAX,
            room: usize::MAX,
            awaited: "",
            answers,
            is_ordered: true,
            errors: "",
            status: 0,
        }
    }

    /// The same, with this status.
    pub fn with_status(self, status: u8) -> Talk<'a> {
        Talk { status, ..self }
    }
}

/// Writes a text into a room, and answers it.
pub fn text_by<'a, P: Display + Drop>(rt: &impl Abort, room: &'a mut [u8], text: P) -> &'a str {
    let all = room.len();
    let mut rest = &mut *room;
    write!(rest, "{text}").expect(rt, "the text is too long");
    let left = rest.len();
    str::from_utf8(&room[..all - left.min(all)]).expect(rt, "the text is none")
}

/// Runs the program with these files, and compares what it says, and its status.
fn run_talk<
    R: Abort + Threads + Wait + Clock + Copy + Drop + Send + Sync + 'static,
    F: Files + Sync,
>(rt: &R, alloc: Global, files: &F, answers: &Answers, talk: Talk<'_>)
where
    F::Reader: Send,
    F::Slow: Send + 'static,
    F::Writer: Send,
    F::SlowWriter: Send + 'static,
{
    let words = words_of(alloc, talk.line).expect(rt, talk.line);
    let mut faults = [0; 512];
    let mut rest = faults.as_mut_slice();
    let input = Asking::new(rt, answers, talk.turns, talk.step);
    let mut output = Answering {
        rt,
        answers,
        awaited: talk.awaited,
    };
    let status = main_on(rt, alloc, &words, input, &mut output, &mut rest, files);
    let left = rest.len();
    let said = str::from_utf8(written(&faults, left)).ok();
    same_at(
        rt,
        (said, status),
        (Some(talk.errors), talk.status),
        format_args!("{}: {REFUSED}", talk.line),
    );
}

/// The same, and compares what it answers too.
pub fn talks<
    R: Abort + Threads + Wait + Clock + Copy + Drop + Send + Sync + 'static,
    F: Files + Sync,
>(rt: &R, alloc: Global, files: &F, answers: &Answers, talk: Talk<'_>)
where
    F::Reader: Send,
    F::Slow: Send + 'static,
    F::Writer: Send,
    F::SlowWriter: Send + 'static,
{
    run_talk(rt, alloc, files, answers, talk);
    if talk.is_ordered {
        answers.are(rt, talk.answers);
    } else {
        answers.are_among(rt, talk.answers);
    }
}

/// The same, with files in memory.
pub fn talks_by<R: Abort + Threads + Wait + Clock + Copy + Drop + Send + Sync + 'static>(
    rt: &R,
    alloc: Global,
    files: &Memory<'_, R>,
    talk: Talk<'_>,
) {
    talks(rt, alloc, files, &Answers::new(alloc, talk.room), talk);
}
