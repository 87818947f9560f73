//! Reading a script.
ghost use Rattle.std.specs.Prelude.{◌≡◌, ◌≢◌, ◌≤◌, ◌<◌, IfErr, IfOk, IfSome, IsErrOf, length, vec_len};
ghost use Rattle.std.specs.Io.KnownBytes.{Consumes, IsAtEnd};
ghost use Rattle.serve_script.specs.ScriptDevices.{reads_told};

use super::ReplayFault;
use std::alloc::Global;
use y4m_stream::Source;

/// The bytes of one read.
const CHUNK: usize = 4096;

/// Reads the input's first bytes: `limit` of them, or all where there are fewer. No byte after them is asked
/// for.
pub fn read_front<R: Source>(
    alloc: Global,
    input: &mut R,
    limit: usize,
) -> Result<Vec<u8>, ReplayFault>
    ensures bytes { IfOk result
        (λ bytes. Consumes (R.remaining input.old) (R.remaining input.new) bytes.items) }
    ensures bound { IfOk result (λ bytes. vec_len bytes ≤ limit) }
    ensures whole { IfOk result (λ bytes. vec_len bytes < limit → IsAtEnd (R.remaining input.new)) }
    ensures no_write { IfErr result (λ fault. fault ≢ ReplayFault.Write) }
    ensures memory_for_bytes { IsErrOf result ReplayFault.NoMemory
        → IfSome (R.remaining input.old) (λ rest. 0 < length rest) }
    ensures failures { R.failures input.new ≡ reads_told result (R.failures input.old) }
{
    let mut bytes = Vec::new(alloc);
    let mut chunk = [0; CHUNK];
    while bytes.len() < limit {
        let room = CHUNK.min(limit - bytes.len());
        let count = input
            .read(&mut chunk[..room])
            .map_err(|_| ReplayFault::Read)?;
        if count == 0 {
            return Ok(bytes);
        }
        bytes.extend_from_slice(&chunk[..count])?;
    }
    Ok(bytes)
}
