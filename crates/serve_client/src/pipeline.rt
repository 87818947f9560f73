//! A client's stream under way.

use crate::buffers::Buffers;
use serve_hub::{Epoch, StreamSeat};
use y4m_stream::{Sink, Source, StreamReader, StreamWriter};

/// A stream whose header line was written, in an epoch: frames go from its reader to its seat, and images
/// from there to its writer. The memory of those that are done is kept for later ones.
///
/// `delivery.rt` has the way to the writer, `feeding.rt` that from the reader, and `serving.rt` the stream's
/// course through both.
#[derive(Drop)]
pub(crate) struct Pipeline<L: Epoch, R: Source, W: Sink> {
    pub(crate) seat: StreamSeat<L>,
    pub(crate) reader: StreamReader<R>,
    pub(crate) writer: StreamWriter<W>,
    pub(crate) buffers: Buffers,
}
