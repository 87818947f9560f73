//! Answers that are held until they are written.
ghost use Rattle.std.specs.Prelude.{◌≡◌, ◌++◌, ◌≤◌, ◌<◌, ◌+◌, ◌*◌, ◌↔◌, [], IfOk, IsTrue, OnOk, length};
ghost use Rattle.std.specs.Io.KnownBytes.{Appends};
ghost use Rattle.serve_report.specs.Said.{said_text};
ghost use Rattle.serve_script.specs.ScriptReport.{line_text};

use super::answer::{Said, say};
use std::alloc::{AllocError, Global};
use std::io::{self, Write};
use std::marker::Model;
use std::mem;
use y4m_header::text::place_of;

/// For how many bytes of answers there is room from the start.
const ROOM: usize = 1 << 16;

/// The most bytes that come without a further line: of each stream that it is admitted, that it lost its
/// output, and its row; and an answer to the line that is read.
const UNASKED: u64 = 64 * (48 + 64 + 192) + 512;

/// The most bytes by which it is told once how the streams stand: a line of each that has a place, also of
/// those that ended, and two.
const STATE: u64 = 64 * 240 + 128;

/// Answers that aren't written yet, in order.
#[derive(Drop)]
pub struct Backlog {
    held: Vec<u8>,
}

/// Their bytes.
impl Model for Backlog {
    ghost use Rattle.std.specs.Prelude.{ℕ, List};

    ghost Value = { List ℕ };

    ghost view = { λ backlog. backlog.held.items };
}

impl Backlog {
    /// None is held. The room for them is taken now.
    pub fn new(alloc: Global) -> Result<Backlog, AllocError>
        ensures { IfOk result (λ backlog. backlog ≡ []) }
    {
        let held = Vec::with_capacity(alloc, ROOM)?;
        Ok(Backlog { held })
    }

    pub fn is_empty(&self) -> bool
        ensures { IsTrue result ↔ (self.now ≡ []) }
    {
        self.held.is_empty()
    }

    /// Holds one more answer.
    pub fn say(&mut self, said: &Said<'_>) -> io::Result<()>
        ensures { OnOk result (self.new ≡ self.old ++ line_text (said_text said.now)) }
    {
        say(&mut self.held, said)
    }

    /// Whether there is room for all that comes behind one more line, where it was asked so many times how
    /// the streams stand and isn't told yet.
    pub fn has_room(&self, states: u64) -> bool
        ensures { IsTrue result → (length self.now + UNASKED + (states + 1) * STATE ≤ ROOM) }
    {
        let states = states.saturating_add(1);
        let held = self.held.len() as u64;
        let wanted = held
            .saturating_add(UNASKED)
            .saturating_add(states.saturating_mul(STATE));
        wanted <= ROOM as u64
    }

    /// Hands over all that is held, for what another one held.
    pub fn swap(&mut self, other: &mut Backlog)
        ensures taken { other.new ≡ self.old }
        ensures held { self.new ≡ other.old }
    {
        mem::swap(&mut self.held, &mut other.held);
    }

    /// Lets go all that is held. The room stays.
    pub fn clear(&mut self)
        ensures { self.new ≡ [] }
    {
        self.held.clear();
    }

    /// Writes all that is held, each line in one write.
    pub fn write_to<W: Write>(&self, output: &mut W) -> io::Result<()>
        ensures { OnOk result (Appends (W.contents output.old) (W.contents output.new) self.now) }
    {
        write_lines(output, &self.held)?;
        output.flush()
    }
}

/// Writes a text, each line of it in one write.
fn write_lines<W: Write>(output: &mut W, text: &[u8]) -> io::Result<()>
    ensures { OnOk result (Appends (W.contents output.old) (W.contents output.new) text.now) }
{
    let mut from = 0;
    while from < text.len() {
        let end = line_end(text, from);
        output.write_all(&text[from..end])?;
        from = end;
    }
    Ok(())
}

/// Where the line ends that begins at this place of a text: behind its line feed, or where the text ends.
fn line_end(text: &[u8], from: usize) -> usize
    requires { from < length text.now }
    ensures more { from < result }
    ensures within { result ≤ length text.now }
{
    match place_of(b'\n', &text[from..]) {
        Some(place) => from + place + 1,
        None => text.len(),
    }
}
