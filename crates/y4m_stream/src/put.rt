//! Writing all bytes, or telling how many went out.
ghost use Rattle.std.specs.Prelude.{◌≡◌, ◌≢◌, ◌+◌, ◌-◌, ◌^◌, ◌<◌, ◌≤◌, [], ◌∷◌, ◌++◌, length, take, IfNone};
ghost use Rattle.y4m_stream.specs.declared.lookahead.TheConstants.{LINE_LIMIT};
ghost use Rattle.y4m_stream.specs.Failures.{failures_after};
ghost use Rattle.y4m_stream.specs.Writer.{IsFar, PutsOn, PutsText, WritesSome, failures_by};

use crate::device::Sink;
use crate::lookahead::LINE_LIMIT;

/// Writes all of the bytes, or answers how many went out: fewer than all, from the front.
///
/// It stops at the first write that fails or takes no byte, an interrupted one too, and flushes nothing. No
/// memory is taken.
pub fn put_all<W: Sink>(writer: &mut W, bytes: &[u8]) -> Result<(), usize>
    ensures text { PutsText (W.contents writer.old) (W.contents writer.new) bytes.now result }
    ensures failures { W.failures writer.new ≡ failures_after result (W.failures writer.old) }
{
    let mut written = 0;
    while written < bytes.len() {
        match writer.write(&bytes[written..]) {
            Ok(0) | Err(_) => return Err(written),
            Ok(n) => written += n,
        }
    }
    Ok(())
}

/// A line and its line feed, at the front of a buffer.
fn with_line_feed(line: &[u8]) -> [u8; LINE_LIMIT]
    requires { length line.now < LINE_LIMIT }
    ensures { take (length line.now + 1) result ≡ line.now ++ 10 ∷ [] }
{
    let mut text = [0; LINE_LIMIT];
    text[..line.len()].copy_from_slice(line);
    text[line.len()] = b'\n';
    text
}

/// Writes a line and its line feed, in one piece, or answers how many bytes went out.
pub fn put_line<W: Sink>(writer: &mut W, line: &[u8]) -> Result<(), usize>
    requires { length line.now < LINE_LIMIT }
    ensures text { PutsText (W.contents writer.old) (W.contents writer.new) (line.now ++ 10 ∷ []) result }
    ensures failures { W.failures writer.new ≡ failures_after result (W.failures writer.old) }
{
    let text = with_line_feed(line);
    put_all(writer, &text[..line.len() + 1])
}

/// Writes a frame's line, a line feed and its data, and tells the writer that the image ended, or answers how
/// many bytes went out.
#[tactic(auto, using(crate::proofs::Puts::put_rules))]
pub fn put_frame<W: Sink>(writer: &mut W, line: &[u8], bytes: &[u8]) -> Result<(), usize>
    requires frame { (length line.now < LINE_LIMIT) × (length bytes.now < 2 ^ 62) }
    ensures text { PutsText (W.contents writer.old) (W.contents writer.new)
        (line.now ++ 10 ∷ bytes.now) result }
    ensures failures { W.failures writer.new ≡ failures_after result (W.failures writer.old) }
{
    put_line(writer, line)?;
    match put_all(writer, bytes) {
        Ok(()) => {
            writer.image_ended();
            Ok(())
        }
        Err(n) => Err(line.len() + 1 + n),
    }
}

/// How writing on with a text went.
#[derive(Clone, Copy)]
pub enum Way {
    /// All of it has gone out.
    Done,
    /// There is more of it.
    More,
    /// A write failed, or took no byte.
    Fails,
}

/// How far a text was written.
#[derive(Clone, Copy)]
pub struct Put {
    /// How many of its bytes have gone out, from the front.
    pub written: usize,
    pub way: Way,
}

/// Writes on with these bytes, of which so many went out before: once, where it has a patience, and waits at
/// most so many milliseconds; else until all have gone out, or that fails.
fn put_on<W: Sink>(writer: &mut W, bytes: &[u8], from: usize, patience: Option<u64>) -> Put
    requires { from ≤ length bytes.now }
    ensures text { PutsOn (W.contents writer.old) (W.contents writer.new) bytes.now from result }
    ensures failures { W.failures writer.new ≡ failures_by result.way (W.failures writer.old) }
    ensures some { WritesSome W.may_defer from result }
    ensures decided { IfNone patience (result.way ≢ Way.More) }
{
    match patience {
        Some(milliseconds) => try_on(writer, bytes, from, milliseconds),
        None => match put_all(writer, &bytes[from..]) {
            Ok(()) => Put {
                written: bytes.len(),
                way: Way::Done,
            },
            Err(n) => Put {
                written: from + n,
                way: Way::Fails,
            },
        },
    }
}

/// Writes on once.
fn try_on<W: Sink>(writer: &mut W, bytes: &[u8], from: usize, milliseconds: u64) -> Put
    requires { from ≤ length bytes.now }
    ensures text { PutsOn (W.contents writer.old) (W.contents writer.new) bytes.now from result }
    ensures failures { W.failures writer.new ≡ failures_by result.way (W.failures writer.old) }
    ensures some { WritesSome W.may_defer from result }
{
    if from == bytes.len() {
        return Put {
            written: from,
            way: Way::Done,
        };
    }
    match writer.try_write(&bytes[from..], milliseconds) {
        Ok(None) => Put {
            written: from,
            way: Way::More,
        },
        Ok(Some(0)) | Err(_) => Put {
            written: from,
            way: Way::Fails,
        },
        Ok(Some(n)) => Put {
            written: from + n,
            way: way_at(from + n, bytes.len()),
        },
    }
}

/// How writing on went where so many bytes of so many have gone out.
fn way_at(written: usize, len: usize) -> Way
    requires { written ≤ len }
    ensures { IsFar result written len × (result ≢ Way.Fails) }
{
    if written == len { Way::Done } else { Way::More }
}

/// Writes on with a line and its line feed.
fn put_line_on<W: Sink>(writer: &mut W, line: &[u8], from: usize, patience: Option<u64>) -> Put
    requires { (length line.now < LINE_LIMIT) × (from ≤ length line.now) }
    ensures text { PutsOn (W.contents writer.old) (W.contents writer.new) (line.now ++ 10 ∷ []) from result }
    ensures failures { W.failures writer.new ≡ failures_by result.way (W.failures writer.old) }
    ensures some { WritesSome W.may_defer from result }
    ensures decided { IfNone patience (result.way ≢ Way.More) }
{
    let text = with_line_feed(line);
    put_on(writer, &text[..line.len() + 1], from, patience)
}

/// Writes on with the data behind a line that went out, and tells the writer of the image's end.
fn put_data_on<W: Sink>(
    writer: &mut W,
    line: &[u8],
    bytes: &[u8],
    from: usize,
    patience: Option<u64>,
) -> Put
    requires frame { (length line.now < LINE_LIMIT) × (length bytes.now < 2 ^ 62) }
    requires from { from ≤ length bytes.now }
    ensures text { PutsOn (W.contents writer.old) (W.contents writer.new) (line.now ++ 10 ∷ bytes.now)
        (length line.now + 1 + from) result }
    ensures failures { W.failures writer.new ≡ failures_by result.way (W.failures writer.old) }
    ensures some { WritesSome W.may_defer (length line.now + 1 + from) result }
    ensures decided { IfNone patience (result.way ≢ Way.More) }
{
    let Put { written, way } = put_on(writer, bytes, from, patience);
    let put = Put {
        written: line.len() + 1 + written,
        way,
    };
    match way {
        Way::Done => {
            writer.image_ended();
            put
        }
        Way::More | Way::Fails => put,
    }
}

/// Writes on with a frame's line, a line feed and its data, of which so many bytes went out before. Where it
/// has a patience, that is at most two writes, each of which waits at most so many milliseconds; else it
/// writes until all have gone out, or that fails. It tells the writer of the image's end.
pub fn put_frame_on<W: Sink>(
    writer: &mut W,
    line: &[u8],
    bytes: &[u8],
    from: usize,
    patience: Option<u64>,
) -> Put
    requires frame { (length line.now < LINE_LIMIT) × (length bytes.now < 2 ^ 62) }
    requires from { from ≤ length line.now + 1 + length bytes.now }
    ensures text { PutsOn (W.contents writer.old) (W.contents writer.new) (line.now ++ 10 ∷ bytes.now)
        from result }
    ensures failures { W.failures writer.new ≡ failures_by result.way (W.failures writer.old) }
    ensures some { WritesSome W.may_defer from result }
    ensures decided { IfNone patience (result.way ≢ Way.More) }
{
    if line.len() < from {
        return put_data_on(writer, line, bytes, from - line.len() - 1, patience);
    }
    let put = put_line_on(writer, line, from, patience);
    match put.way {
        Way::Done => put_data_on(writer, line, bytes, 0, patience),
        _ => put,
    }
}
