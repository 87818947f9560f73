//! The data of a frame, read straight into the frame's memory.
ghost use Rattle.std.specs.Prelude.{◌≡◌, ◌+◌, ◌-◌, ◌<◌, length, IfErr, OnOk};
ghost use Rattle.std.specs.Io.KnownBytes.{Consumes};
ghost use Rattle.y4m_stream.specs.Front.{HasGiven};
ghost use Rattle.y4m_stream.specs.Inside.{LacksBytes};
ghost use Rattle.y4m_stream.specs.Reader.{failures_told};

use crate::device::Source;
use crate::fault::ReadFault;

/// Fills `out` from the source.
pub fn fill_exactly<R: Source>(source: &mut R, out: &mut [u8]) -> Result<(), ReadFault>
    ensures ok { OnOk result (Consumes (R.remaining source.old) (R.remaining source.new) out.new) }
    ensures fault { IfErr result (λ fault.
        LacksBytes (length out.old) fault (R.remaining source.old) (R.remaining source.new)) }
    ensures given { IfErr result (λ _. HasGiven (R.remaining source.old) (R.remaining source.new)
        (λ bytes. length bytes < length out.old)) }
    ensures failures { R.failures source.new ≡ failures_told result (R.failures source.old) }
{
    let mut at = 0;
    while at < out.len() {
        match source.read(&mut out[at..]) {
            Ok(0) => return Err(ReadFault::Truncated),
            Ok(n) => at += n,
            Err(_) => return Err(ReadFault::Device),
        }
    }
    Ok(())
}
