//! The file of a trace.
ghost use Rattle.std.specs.Prelude.{◌≡◌, ◌↔◌, None, false, true, IsSome, IsTrue};
ghost use Rattle.std.specs.Io.KnownBytes.{Appends};
ghost use Rattle.serve_watch.specs.Trace.{held_in};

use std::io::Write;

/// The file of a trace, while writing it goes well, and whether nothing of the trace was lost.
#[derive(Drop)]
pub struct TraceFile<W: Write> {
    output: Option<W>,
    is_whole: bool,
    ghost open_while_whole: { is_whole ≡ true → IsSome output },
}

impl<W: Write + Drop> TraceFile<W> {
    /// A file that was made, or none.
    pub fn new(output: Option<W>) -> TraceFile<W>
        ensures output { result.output ≡ output }
        ensures whole { IsTrue result.is_whole ↔ IsSome output }
    {
        let is_whole = output.is_some();
        TraceFile { output, is_whole }
    }

    /// Whether nothing was lost.
    pub fn is_whole(&self) -> bool
        ensures { result ≡ self.now.is_whole }
    {
        self.is_whole
    }

    /// Something that was to be written is lost.
    pub fn lose(&mut self)
        ensures output { self.new.output ≡ self.old.output }
        ensures lost { self.new.is_whole ≡ false }
    {
        self.is_whole = false;
    }

    /// Writes a text. After a fault nothing more is written.
    pub fn write(&mut self, text: &[u8])
        ensures none { self.old.output ≡ None
            → (self.new.output ≡ None) × (self.new.is_whole ≡ self.old.is_whole) }
        ensures fault { self.old.is_whole ≡ true → self.new.is_whole ≡ false → self.new.output ≡ None }
        ensures whole { self.new.is_whole ≡ true → (self.old.is_whole ≡ true)
            × Appends (held_in W.contents self.old.output) (held_in W.contents self.new.output) text.now }
    {
        let Some(output) = &mut self.output else {
            return;
        };
        if output.write_all(text).is_err() {
            self.output = None;
            self.is_whole = false;
        }
    }
}
