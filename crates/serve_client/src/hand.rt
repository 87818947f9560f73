//! An image on its way to a writer, by parts.
ghost use Rattle.std.specs.Prelude.{◌≡◌, ◌≤◌, ◌+◌, [], IfErr, IfOk};
ghost use Rattle.serve_hub.specs.Seats.{StreamSeatValue};
ghost use Rattle.y4m_stream.specs.Reader.{frame_text_of};
ghost use Rattle.y4m_stream.specs.Writer.{CountsMore, IsWithin, PutsMore, WriterState};
ghost use Rattle.serve_client.specs.Hands.{CanPutOn, IsBegunPair, counted_with, image_at, with_kept};
ghost use Rattle.serve_client.specs.ClientInside.{IsOfWriting, LeavesInHand, MovesOrHalts, image_in};

use crate::stop::{Halt, Stop};
use serve_core::Collected;
use serve_hub::{Epoch, Hub};
use std::sync::Wait;
use y4m_stream::{Sink, StreamWriter, WriteFault};

/// For how many milliseconds a client waits for its output before it looks whether the journal is full.
const PATIENCE: u64 = 5;

/// Writes on with an image, until it went out whole, or until the journal is full between two of its writes.
/// It answers whether the image went out whole.
fn write_on<L: Epoch, W: Sink, T: Wait>(
    rt: &T,
    hub: &Hub<L>,
    writer: &mut StreamWriter<W>,
    pair: &Collected,
) -> Result<bool, WriteFault>
    requires { CanPutOn writer.old pair.now }
    ensures more { (before : WriterState) → IsWithin before writer.old (frame_text_of pair.now.image)
        → PutsMore before writer.new (frame_text_of pair.now.image) result }
    ensures counts { CountsMore writer.old writer.new (frame_text_of pair.now.image) result }
{
    for _ in rt.forever() {
        if writer.put_on(&pair.image, Some(PATIENCE))? {
            return Ok(true);
        }
        if hub.is_full(rt) {
            return Ok(false);
        }
    }
    unreachable!()
}

/// Goes on with an image in hand. Once it went out whole, the pair comes back.
pub(crate) fn finish<L: Epoch, W: Sink, T: Wait>(
    rt: &T,
    hub: &Hub<L>,
    writer: &mut StreamWriter<W>,
    pair: Collected,
) -> Result<Collected, Halt>
    requires { CanPutOn writer.old pair }
    ensures answer { (seat : StreamSeatValue) (before : WriterState)
        → IsBegunPair seat.chain pair before writer.old
        → MovesOrHalts result (with_kept pair seat) seat before writer.new [] }
    ensures returns_pair { IfOk result (λ back. back ≡ pair) }
    ensures own { IfErr result IsOfWriting }
    ensures left { IfErr result (LeavesInHand pair writer.new) }
    ensures count { (counted_with (image_at image_in result) writer.new).frames ≤ writer.old.frames + 1 }
{
    match write_on(rt, hub, writer, &pair) {
        Ok(true) => Ok(pair),
        Ok(false) => Err(Halt::Full(Some(pair))),
        Err(fault) => Err(Halt::Stopped(Stop::Write(fault))),
    }
}
