//! A line at the front of what is left.
ghost use Rattle.std.specs.Prelude.{◌≡◌, ◌≤◌, ◌-◌, length, IfOk, IfErr};
ghost use Rattle.std.specs.Io.KnownBytes.{Keeps};
ghost use Rattle.y4m_stream.specs.Inside.{BeginsWithLine, LacksLine, rest_of};
ghost use Rattle.y4m_stream.specs.Reader.{failures_told};

use crate::device::Source;
use crate::fault::ReadFault;
use crate::lookahead::{LINE_LIMIT, Lookahead};
use y4m_header::text::place_of;

/// Reads until a whole line is held at the front, and answers the line's length without its line feed.
///
/// Nothing is taken off the front: the line is the caller's to look at and to consume.
pub fn find_line<R: Source>(input: &mut Lookahead<R>) -> Result<usize, ReadFault>
    ensures line { IfOk result (BeginsWithLine input.new.held) }
    ensures rest { Keeps (rest_of input.old) (rest_of input.new) }
    ensures fault { IfErr result (λ fault. LacksLine fault (rest_of input.old) input.new.left) }
    ensures few_held { length input.new.held ≤ LINE_LIMIT }
    ensures failures { input.new.failures ≡ failures_told result input.old.failures }
{
    loop {
        if let Some(end) = place_of(b'\n', input.bytes()) {
            return Ok(end);
        }
        if input.bytes().len() == LINE_LIMIT {
            return Err(ReadFault::LineTooLong);
        }
        match input.fill() {
            Ok(0) => return Err(ReadFault::Truncated),
            Ok(_) => {}
            Err(_) => return Err(ReadFault::Device),
        }
    }
}
