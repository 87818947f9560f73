//! The output and error streams of the program, beside what is shown of a run.

ghost use Rattle.std.specs.Prelude.{None};

use crate::terminals::Terminals;
use serve_watch::Watch;
use std::io::{self, Write};
use std::sync::Wait;
use std::time::Clock;

/// An output that may go to the terminal that shows a run.
#[derive(Drop)]
pub struct Answers<'w, 't, 's, T, W> {
    terminals: &'w Terminals<'t, 's, T>,
    is_terminal: bool,
    output: W,
}

impl<'w, 't, 's, T: Wait + Clock, W> Answers<'w, 't, 's, T, W> {
    /// An output beside what is shown by these terminals.
    pub fn new(terminals: &'w Terminals<'t, 's, T>, output: W) -> Answers<'w, 't, 's, T, W> {
        Answers {
            terminals,
            is_terminal: terminals.output_is_terminal(),
            output,
        }
    }
}

impl<'w, 't, 's, T: Wait + Clock, W: Write> Write for Answers<'w, 't, 's, T, W> {
    ghost contents = { λ answers. W.contents answers.output };

    /// On a terminal it stands in the place of what was drawn, which is drawn below it then. Something may be
    /// drawn while it is written, and stays.
    fn write(&mut self, buf: &[u8]) -> io::Result<usize> {
        if self.is_terminal {
            self.terminals.clear();
        }
        let answer = self.output.write(buf);
        if self.is_terminal {
            self.terminals.leave();
        }
        answer
    }

    fn flush(&mut self) -> io::Result<()> {
        self.output.flush()
    }
}

/// The error stream, where a thread of its own may write.
#[derive(Drop)]
pub struct Errors<'w, 't, 's, T, E> {
    terminals: &'w Terminals<'t, 's, T>,
    errors: E,
}

impl<'w, 't, 's, T, E> Errors<'w, 't, 's, T, E> {
    /// An error stream beside what is shown by these terminals.
    pub fn new(terminals: &'w Terminals<'t, 's, T>, errors: E) -> Errors<'w, 't, 's, T, E> {
        Errors { terminals, errors }
    }
}

impl<'w, 't, 's, T: Wait + Clock, E: Write> Write for Errors<'w, 't, 's, T, E> {
    ghost contents = { λ _. None };

    fn write(&mut self, buf: &[u8]) -> io::Result<usize> {
        match self.terminals.tell(buf) {
            Some(taken) => Ok(taken),
            None => self.errors.write(buf),
        }
    }

    fn flush(&mut self) -> io::Result<()> {
        self.errors.flush()
    }
}
