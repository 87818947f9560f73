//! A source, and the bytes that were read from it and not yet taken.
ghost use Rattle.std.specs.Prelude.{◌≡◌, ◌+◌, ◌-◌, ◌<◌, ◌≤◌, [], length, take, drop, min, IfOk, IfErr};
ghost use Rattle.std.specs.Prelude.{OnOk, OnErr};
ghost use Rattle.std.specs.Io.KnownBytes.{Consumes, IsAtEnd, Keeps};
ghost use Rattle.y4m_stream.specs.Failures.{failures_after};
ghost use Rattle.y4m_stream.specs.Front.{HasGiven};
ghost use Rattle.y4m_stream.specs.Inside.{LacksBytes, rest_of};
ghost use Rattle.y4m_stream.specs.Reader.{failures_told};

use crate::data::fill_exactly;
use crate::device::Source;
use crate::fault::ReadFault;
use std::io;
use std::marker::Model;
use y4m_header::LONGEST_LINE;

/// The longest line, with its line feed.
pub const LINE_LIMIT: usize = LONGEST_LINE + 1;

/// A source, with at most 1,024 bytes that were read from it beyond what was asked for, in order: a line,
/// however it came, is whole in them.
#[derive(Drop)]
pub struct Lookahead<R: Source> {
    source: R,
    bytes: [u8; LINE_LIMIT],
    len: usize,
}

impl<R: Source> Model for Lookahead<R> {
    ghost use Rattle.std.specs.Prelude.{◌≤◌, take};
    ghost use Rattle.y4m_stream.specs.declared.lookahead.TheConstants.{LINE_LIMIT};
    ghost use Rattle.y4m_stream.specs.Inside.{LookaheadState};

    ghost Value = { LookaheadState };

    ghost view = { λ a. record {
      held = take a.len a.bytes;
      left = R.remaining a.source;
      failures = R.failures a.source;
    } };

    ghost invariant = { λ a. a.len ≤ LINE_LIMIT };
}

impl<R: Source> Lookahead<R> {
    /// Holds nothing yet; takes no memory of the heap.
    pub fn over(source: R) -> Lookahead<R>
        ensures { result ≡ record { held = []; left = R.remaining source; failures = R.failures source } }
    {
        Lookahead {
            source,
            bytes: [0; LINE_LIMIT],
            len: 0,
        }
    }

    /// The bytes that are held.
    pub fn bytes(&self) -> &[u8]
        ensures value { result.now ≡ self.now.held }
        ensures few_held { length self.now.held ≤ LINE_LIMIT }
    {
        &self.bytes[..self.len]
    }

    /// The source, which doesn't give again what is held.
    pub fn source(&self) -> &R
        ensures left { R.remaining result.now ≡ self.now.left }
        ensures failures { R.failures result.now ≡ self.now.failures }
    {
        &self.source
    }

    /// Reads once, behind the bytes that are held.
    pub fn fill(&mut self) -> io::Result<usize>
        requires { length self.old.held < LINE_LIMIT }
        ensures rest { Keeps (rest_of self.old) (rest_of self.new) }
        ensures count { IfOk result (λ n. length self.new.held ≡ length self.old.held + n) }
        ensures end { IfOk result (λ n. n ≡ 0 → IsAtEnd self.new.left) }
        ensures err { OnErr result (self.new.held ≡ self.old.held) }
        ensures failures { self.new.failures ≡ failures_after result self.old.failures }
    {
        let n = self.source.read(&mut self.bytes[self.len..])?;
        self.len += n;
        Ok(n)
    }

    /// Takes bytes off the front.
    pub fn consume(&mut self, n: usize)
        requires { n ≤ length self.old.held }
        ensures { self.new ≡ record self.old { held = drop n self.old.held } }
    {
        self.bytes.copy_within(n..self.len, 0);
        self.len -= n;
    }

    /// Moves as many bytes as both have from the front into `out`.
    fn take_into(&mut self, out: &mut [u8]) -> usize
        ensures count { result ≡ min (length self.old.held) (length out.old) }
        ensures moved { take result out.new ≡ take result self.old.held }
        ensures left { self.new ≡ record self.old { held = drop result self.old.held } }
    {
        let n = self.bytes().len().min(out.len());
        out[..n].copy_from_slice(&self.bytes()[..n]);
        self.consume(n);
        n
    }

    /// Takes as many bytes as `out` has off the front: those that are held, and then the source's.
    pub fn take_exactly(&mut self, out: &mut [u8]) -> Result<(), ReadFault>
        ensures ok { OnOk result (Consumes (rest_of self.old) (rest_of self.new) out.new) }
        ensures fault { IfErr result (λ fault.
            LacksBytes (length out.old) fault (rest_of self.old) self.new.left) }
        ensures given { IfErr result (λ _. HasGiven (rest_of self.old) self.new.left
            (λ bytes. length bytes < length out.old)) }
        ensures few_held { length self.new.held ≤ LINE_LIMIT }
        ensures failures { self.new.failures ≡ failures_told result self.old.failures }
    {
        let taken = self.take_into(out);
        fill_exactly(&mut self.source, &mut out[taken..])
    }

    /// Tells the source that a frame ended.
    pub fn frame_ended(&mut self)
        ensures { self.new ≡ self.old }
    {
        self.source.frame_ended();
    }

    /// Gives the source up, and loses what is held.
    pub fn into_source(self) -> R
        ensures remaining { R.remaining result ≡ self.left }
        ensures failures { R.failures result ≡ self.failures }
        ensures few_held { length self.held ≤ LINE_LIMIT }
    {
        self.source
    }
}
