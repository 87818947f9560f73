//! A writer that is lent, and comes back from a call that keeps it.
ghost use Rattle.std.specs.Prelude.{◌≡◌, ℕ};
ghost use Rattle.std.specs.Io.{WritesAtMost};
ghost use Rattle.std.specs.Io.KnownBytes.{Keeps, WriteAppends};

use std::io::{self, Write};
use std::marker::{Brand, PhantomData};

/// The name of a loan: that of the reference to what is lent.
///
/// A generic call that takes a writer and gives it back can't tell that it gave the same reference back. The
/// type of a `NamedWriter` tells it. Who calls a function that is generic in the name, at `Brand`, picks it
/// there.
pub trait Loan {
    ghost name: { ℕ };
}

impl Loan for Brand {
    ghost name = { 0 };
}

/// A writer that is lent.
#[derive(Drop)]
pub struct LentWriter<'w, W: Write> {
    writer: &'w mut W,
}

impl<'w, W: Write> LentWriter<'w, W> {
    pub fn new(writer: &'w mut W) -> LentWriter<'w, W>
        ensures same_reference { result.writer.ghost_name ≡ writer.entry.ghost_name }
        ensures value { result.writer.now ≡ writer.old }
    {
        LentWriter { writer }
    }

    fn write(&mut self, buf: &[u8]) -> io::Result<usize>
        ensures same_reference { self.new.writer.ghost_name ≡ self.old.writer.ghost_name }
        ensures bound { WritesAtMost result buf.now }
        ensures bytes { WriteAppends (W.contents self.old.writer.now) (W.contents self.new.writer.now)
            result buf.now }
    {
        self.writer.write(buf)
    }

    fn flush(&mut self) -> io::Result<()>
        ensures same_reference { self.new.writer.ghost_name ≡ self.old.writer.ghost_name }
        ensures bytes { Keeps (W.contents self.old.writer.now) (W.contents self.new.writer.now) }
    {
        self.writer.flush()
    }
}

/// The writer that is lent by the loan of this name.
#[derive(Drop)]
pub struct NamedWriter<'w, W: Write, L: Loan> {
    lent: LentWriter<'w, W>,
    loan: PhantomData<L>,
    ghost same: { lent.writer.ghost_name ≡ L.name },
}

impl<'w, W: Write, L: Loan> NamedWriter<'w, W, L> {
    pub fn new(lent: LentWriter<'w, W>) -> NamedWriter<'w, W, L>
        requires { lent.writer.ghost_name ≡ L.name }
        ensures { result.lent ≡ lent.entry }
    {
        NamedWriter {
            lent,
            loan: PhantomData,
        }
    }

    pub fn into_lent(self) -> LentWriter<'w, W>
        ensures name { result.writer.ghost_name ≡ L.name }
        ensures lent { result ≡ self.entry.lent }
    {
        let NamedWriter { lent, .. } = self;
        lent
    }
}

impl<'w, W: Write, L: Loan> Write for NamedWriter<'w, W, L> {
    ghost contents = { λ named. W.contents named.lent.writer.now };

    fn write(&mut self, buf: &[u8]) -> io::Result<usize> {
        self.lent.write(buf)
    }

    fn flush(&mut self) -> io::Result<()> {
        self.lent.flush()
    }
}
