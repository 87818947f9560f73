//! A frame at the front of what is left: its line, and the data behind it.
ghost use Rattle.std.specs.Prelude.{◌≡◌, ◌+◌, ◌<◌, take, length, [], Ok, true, false, IfOk};
ghost use Rattle.std.specs.Prelude.{IfErr, IfSome, IfNone, OnOk, ◌≤◌};
ghost use Rattle.std.specs.Io.KnownBytes.{Consumes, IsAtEnd, Keeps};
ghost use Rattle.frame_view.specs.Frame.{line_of, samples_of};
ghost use Rattle.y4m_header.specs.declared.limits.TheConstants.{LARGEST_DATA};
ghost use Rattle.y4m_header.specs.StreamText.{text_of};
ghost use Rattle.y4m_stream.specs.Front.{HasGiven, IsCutFrame, StandsAtFrame};
ghost use Rattle.y4m_stream.specs.Inside.{HoldsFrameLine, KeepsForm, LacksFrameLine, rest_of};
ghost use Rattle.y4m_stream.specs.Reader.{failures_told, frame_text_of};
ghost use Rattle.y4m_stream.specs.Wanted.{IsEnough, IsLacking};

use crate::device::Source;
use crate::fault::{ReadFault, ReadResult};
use crate::line::find_line;
use crate::lookahead::{LINE_LIMIT, Lookahead};
use crate::wanted::{Wanted, is_frame_line};
use frame_view::Frame;
use y4m_header::check_frame_line;
use y4m_header::text::place_of;

/// What is lacking of a frame with so many bytes of data, where these come first: nothing where it is there,
/// or where a fault is.
pub fn lacks(held: &[u8], len: usize) -> Option<Wanted>
    requires { (length held.now ≤ LINE_LIMIT) × (len ≤ LARGEST_DATA) }
    ensures enough { IfNone result (IsEnough LINE_LIMIT len held.now) }
    ensures lacking { IfSome result (λ wanted. IsLacking len held.now wanted.line wanted.behind) }
{
    let Some(end) = place_of(b'\n', held) else {
        if LINE_LIMIT <= held.len() {
            return None;
        }
        return Some(Wanted::line(LINE_LIMIT - held.len(), len));
    };
    if is_frame_line(&held[..end]) {
        return lacks_data(held.len() - end - 1, len);
    }
    None
}

/// What is lacking of so many bytes of data, where so many came.
fn lacks_data(came: usize, len: usize) -> Option<Wanted>
    requires { len ≤ LARGEST_DATA }
    ensures enough { IfNone result (len ≤ came) }
    ensures lacking { IfSome result (λ wanted. (wanted.line ≡ 0) × (came + wanted.behind ≡ len)) }
{
    if len <= came {
        return None;
    }
    Some(Wanted::data(len - came))
}

/// Whether nothing is left; reads only where nothing is held.
fn is_at_end<R: Source>(input: &mut Lookahead<R>) -> Result<bool, ReadFault>
    ensures rest { Keeps (rest_of input.old) (rest_of input.new) }
    ensures ended { result ≡ Ok true → IsAtEnd (rest_of input.old) × (input.new.held ≡ []) }
    ensures not_ended { result ≡ Ok false → 0 < length input.new.held }
    ensures err { IfErr result (λ fault. (fault ≡ ReadFault.Device) × (input.new.held ≡ [])) }
    ensures failures { input.new.failures ≡ failures_told result input.old.failures }
{
    if !input.bytes().is_empty() {
        return Ok(false);
    }
    match input.fill() {
        Ok(n) => Ok(n == 0),
        Err(_) => Err(ReadFault::Device),
    }
}

/// Reads until a whole frame line is held at the front, and answers the line's length without its line feed,
/// or none at the end.
pub fn find_frame_line<R: Source>(input: &mut Lookahead<R>) -> Result<Option<usize>, ReadFault>
    ensures rest { Keeps (rest_of input.old) (rest_of input.new) }
    ensures line { IfOk result (λ next. IfSome next (HoldsFrameLine input.new.held)) }
    ensures end { IfOk result (λ next. IfNone next (IsAtEnd (rest_of input.old) × (input.new.held ≡ []))) }
    ensures fault { IfErr result (λ fault. LacksFrameLine fault (rest_of input.old) input.new.left) }
    ensures few_held { length input.new.held ≤ LINE_LIMIT }
    ensures failures { input.new.failures ≡ failures_told result input.old.failures }
{
    if is_at_end(input)? {
        return Ok(None);
    }
    let end = find_line(input)?;
    match check_frame_line(&input.bytes()[..end]) {
        Ok(()) => Ok(Some(end)),
        Err(_) => Err(ReadFault::NotFrame),
    }
}

/// Takes a line of `end` bytes and its line feed off the front, and then the data of the frame, into `out`;
/// and tells the source that the frame ended.
pub fn take_data<R: Source>(input: &mut Lookahead<R>, end: usize, out: &mut Frame) -> ReadResult<()>
    requires held { HoldsFrameLine input.old.held end }
    requires of_frame { line_of out.old ≡ take end input.old.held }
    ensures form { KeepsForm out.old out.new }
    ensures ok { OnOk result
        (Consumes (rest_of input.old) (rest_of input.new) (text_of (frame_text_of out.new))) }
    ensures fault { IfErr result (λ fault.
        StandsAtFrame (length (samples_of out.old)) fault (rest_of input.old) input.new.left) }
    ensures given { IfErr result (λ _. HasGiven (rest_of input.old) input.new.left
        (IsCutFrame (length (samples_of out.old)))) }
    ensures few_held { length input.new.held ≤ LINE_LIMIT }
    ensures failures { input.new.failures ≡ failures_told result input.old.failures }
{
    input.consume(end + 1);
    input.take_exactly(out.data_mut())?;
    input.frame_ended();
    Ok(())
}
