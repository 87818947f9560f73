//! What is answered while streams come and go: each answer is a line of its own.
ghost use Rattle.std.specs.Prelude.{◌≡◌, ◌≤◌, [], OnOk, Some, take};
ghost use Rattle.std.specs.Io.{WritesAtMost};
ghost use Rattle.std.specs.Io.KnownBytes.{Appends, Keeps, WriteAppends};
ghost use Rattle.serve_script.specs.ScriptReport.{line_text};
ghost use Rattle.serve_report.specs.Said.{said_text};
ghost use Rattle.serve_report.specs.declared.control.answer.TheConstants.{LONGEST};

use super::line::LineFault;
use super::quoted::Quoted;
use crate::serve::StreamRow;
use std::fmt;
use std::io::{self, Write};

/// How a stream stands where an epoch ended.
#[derive(Clone, Copy)]
pub struct Standing {
    pub accepted: u64,
    pub finished: u64,
    pub collected: u64,
    pub charged: u64,
    pub budget: u64,
    pub deadline: u64,
}

impl fmt::Display for Standing {
    ghost use Rattle.std.specs.Prelude.{Some};
    ghost use Rattle.serve_report.specs.Said.{standing_text};

    ghost output = { λ standing. Some (standing_text standing) };

    fn fmt<W: fmt::Write>(&self, f: &mut fmt::Formatter<W>) -> fmt::Result {
        let Standing {
            accepted,
            finished,
            collected,
            charged,
            budget,
            deadline,
        } = *self;
        write!(
            f,
            "accepted {accepted} finished {finished} collected {collected} charged {charged} budget {budget} \
            deadline {deadline}"
        )
    }
}

/// What a stream that ended holds of the workers until a moment: its share, `q` units in every `t` moments.
#[derive(Clone, Copy)]
pub struct Holding {
    pub q: u64,
    pub t: u64,
    pub until: u64,
}

impl fmt::Display for Holding {
    ghost use Rattle.std.specs.Prelude.{Some};
    ghost use Rattle.serve_report.specs.Said.{holding_text};

    ghost output = { λ holding. Some (holding_text holding) };

    fn fmt<W: fmt::Write>(&self, f: &mut fmt::Formatter<W>) -> fmt::Result {
        let Holding { q, t, until } = *self;
        write!(f, "{q}:{t} until {until}")
    }
}

/// An answer.
#[derive(Clone, Copy)]
pub enum Said<'a> {
    /// The line of this number is wrong, which begins with these bytes.
    Wrong(u64, LineFault, &'a [u8]),
    /// The stream of this name is served from now on.
    Admitted(&'a str),
    /// A stream ended.
    Ended(StreamRow<'a>),
    /// The stream of this name is served, and stands so.
    Stands(&'a str, Standing),
    /// The same of one that lost its output.
    StandsLost(&'a str, Standing),
    /// A write to the output of the stream of this name has failed.
    LostOutput(&'a str),
    /// The stream of this name is being opened.
    Opening(&'a str),
    /// A stream of this name has ended, and holds this.
    Held(&'a str, Holding),
    /// The shares that are kept, and all that the workers have, in millionths of one.
    Shares(u64, u64),
    /// The moment, and how many streams are served.
    Now(u64, usize),
    /// The units that were done for all streams.
    Units(u64),
}

impl fmt::Display for Said<'_> {
    ghost use Rattle.std.specs.Prelude.{Some};
    ghost use Rattle.serve_report.specs.Said.{said_text};

    ghost output = { λ said. Some (said_text said) };

    fn fmt<W: fmt::Write>(&self, f: &mut fmt::Formatter<W>) -> fmt::Result {
        match *self {
            Said::Wrong(number, fault, line) => {
                let text = Quoted(line);
                write!(f, "line {number}: {fault} {text}")
            }
            Said::Admitted(name) => write!(f, "{name} admitted"),
            Said::Ended(row) => write!(f, "{row}"),
            Said::Stands(name, standing) => write!(f, "{name} {standing}"),
            Said::StandsLost(name, standing) => write!(f, "{name} {standing} lost its output"),
            Said::LostOutput(name) => write!(f, "{name} lost its output"),
            Said::Opening(name) => write!(f, "{name} opening"),
            Said::Held(name, holding) => write!(f, "{name} held {holding}"),
            Said::Shares(shares, whole) => write!(f, "shares {shares} of {whole}"),
            Said::Now(moment, streams) => write!(f, "now {moment} streams {streams}"),
            Said::Units(units) => write!(f, "units {units}"),
        }
    }
}

/// The longest answer that goes out in one write, with its line feed.
const LONGEST: usize = 512;

/// A sheet on which an answer is written before it goes out.
#[derive(Drop)]
struct Sheet {
    room: [u8; LONGEST],
    length: usize,
    ghost within: { length ≤ LONGEST },
}

impl Sheet {
    fn new() -> Sheet
        ensures { result.length ≡ 0 }
    {
        Sheet {
            room: [0; LONGEST],
            length: 0,
        }
    }

    fn text(&self) -> &[u8]
        ensures { result.now ≡ take self.now.length self.now.room }
    {
        &self.room[..self.length]
    }
}

impl Write for Sheet {
    ghost use Rattle.std.specs.Prelude.{Some, take};

    ghost contents = { λ sheet. Some (take sheet.length sheet.room) };

    fn write(&mut self, buf: &[u8]) -> io::Result<usize> {
        let count = buf.len().min(LONGEST - self.length);
        self.room[self.length..self.length + count].copy_from_slice(&buf[..count]);
        self.length += count;
        Ok(count)
    }

    fn flush(&mut self) -> io::Result<()> {
        Ok(())
    }
}

/// Writes an answer at once: its line in one write, and a flush behind it. One that is longer than any of
/// these is written part by part.
pub fn say<W: Write>(output: &mut W, said: &Said<'_>) -> io::Result<()>
    ensures { OnOk result
        (Appends (W.contents output.old) (W.contents output.new) (line_text (said_text said.now))) }
{
    let mut sheet = Sheet::new();
    match writeln!(sheet, "{said}") {
        Ok(()) => output.write_all(sheet.text())?,
        Err(_) => writeln!(output, "{said}")?,
    }
    output.flush()
}
