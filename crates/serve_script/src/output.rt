//! Writing what a script prints.
ghost use Rattle.std.specs.Prelude.{◌≡◌, ◌++◌, IfErr, OnOk, true};
ghost use Rattle.std.specs.List.{flat_map};
ghost use Rattle.y4m_stream.specs.Failures.{failures_after};
ghost use Rattle.std.specs.Option.{option_copied, option_map};
ghost use Rattle.serve_script.specs.ScriptFault.{name_text};
ghost use Rattle.serve_script.specs.ScriptInside.{stop_told};
ghost use Rattle.serve_script.specs.ScriptReport.{stop_text};
ghost use Rattle.serve_script.specs.Writing.{Writes};

use super::ReplayFault;
use super::fault::ScriptStop;
use itoa::Buffer;
use y4m_stream::{Sink, put_all};

/// Writes a report: what was printed, and then the line of the stop, if there is one. Flushes.
pub fn write_report<W: Sink>(
    writer: &mut W,
    printed: &[u8],
    stop: Option<ScriptStop<'_>>,
) -> Result<(), ReplayFault>
    ensures text { Writes (W.contents writer.old) (W.contents writer.new)
        (printed.now ++ stop_text (option_map stop_told stop.entry)) result }
    ensures fault { IfErr result (λ fault. fault ≡ ReplayFault.Write) }
    ensures failures { W.failures writer.new ≡ failures_after result (W.failures writer.old) }
    ensures flushed { OnOk result (W.is_flushed writer.new ≡ true) }
{
    put(writer, printed)?;
    put_stop(writer, stop)?;
    writer.flush().map_err(|_| ReplayFault::Write)
}

/// Writes `line N: WORD` and a line feed, or nothing where there is no stop. It takes no memory, so a refused
/// growth can be told.
fn put_stop<W: Sink>(writer: &mut W, stop: Option<ScriptStop<'_>>) -> Result<(), ReplayFault>
    ensures text { Writes (W.contents writer.old) (W.contents writer.new)
        (stop_text (option_map stop_told stop.entry)) result }
    ensures fault { IfErr result (λ fault. fault ≡ ReplayFault.Write) }
    ensures failures { W.failures writer.new ≡ failures_after result (W.failures writer.old) }
{
    let Some(stop) = stop else {
        return Ok(());
    };
    let mut number = Buffer::new();
    let pieces = [
        b"line ".as_slice(),
        number.format(stop.line).as_bytes(),
        b": ".as_slice(),
        stop.fault.word().as_bytes(),
    ];
    put_pieces(writer, &pieces)?;
    put_name(writer, stop.fault.name())?;
    put(writer, b"\n".as_slice())
}

/// Writes a space and a name, or nothing where there is none.
fn put_name<W: Sink>(writer: &mut W, name: Option<&[u8]>) -> Result<(), ReplayFault>
    ensures text { Writes (W.contents writer.old) (W.contents writer.new)
        (name_text (option_copied name.entry)) result }
    ensures fault { IfErr result (λ fault. fault ≡ ReplayFault.Write) }
    ensures failures { W.failures writer.new ≡ failures_after result (W.failures writer.old) }
{
    let Some(name) = name else {
        return Ok(());
    };
    put(writer, b" ".as_slice())?;
    put(writer, name)
}

/// Writes pieces of a text, one after another.
fn put_pieces<W: Sink>(writer: &mut W, pieces: &[&[u8]]) -> Result<(), ReplayFault>
    ensures text { Writes (W.contents writer.old) (W.contents writer.new)
        (flat_map (λ piece. piece.now) pieces.now) result }
    ensures fault { IfErr result (λ fault. fault ≡ ReplayFault.Write) }
    ensures failures { W.failures writer.new ≡ failures_after result (W.failures writer.old) }
{
    for piece in pieces {
        put(writer, piece)?;
    }
    Ok(())
}

/// Writes all of the bytes. Where a write fails or takes no byte, the ones before went out.
fn put<W: Sink>(writer: &mut W, bytes: &[u8]) -> Result<(), ReplayFault>
    ensures text { Writes (W.contents writer.old) (W.contents writer.new) bytes.now result }
    ensures fault { IfErr result (λ fault. fault ≡ ReplayFault.Write) }
    ensures failures { W.failures writer.new ≡ failures_after result (W.failures writer.old) }
{
    put_all(writer, bytes).map_err(|_| ReplayFault::Write)
}
