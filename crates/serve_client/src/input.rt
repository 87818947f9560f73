//! Whether a client reads on.
use serve_hub::{Epoch, Hub, StreamSeat};
use std::sync::Wait;
use y4m_stream::{Source, StreamReader};

/// For how many milliseconds a client waits for its input before it looks for images that came meanwhile.
const PATIENCE: u64 = 5;

/// For how many milliseconds it waits for a frame that it may read beside the work on another one. A pipe
/// that is full is seen to be ready by a thread that has to wake first.
const GLANCE: u64 = 1;

/// The bytes of a frame up to which it costs more to wait for its image, which wakes two threads, than to do
/// its work.
const SMALL: usize = 1 << 20;

/// The bytes of a frame of which several, with their images, stay in a processor's cache.
const CACHED: usize = 1 << 18;

/// What a client finds that is about to read.
#[derive(Clone, Copy, Debug, PartialEq, Eq)]
pub(crate) enum Input {
    /// The next frame has come whole, or the end or a fault is there.
    Ready,
    /// It hasn't come whole yet.
    Silent,
    /// It hasn't, and the journal is full.
    JournalFull,
}

/// Waits a short while for a client's input.
pub(crate) fn await_input<L: Epoch, R: Source + Drop, T: Wait>(
    rt: &T,
    hub: &Hub<L>,
    reader: &StreamReader<R>,
) -> Input {
    if reader.is_ready(PATIENCE) {
        Input::Ready
    } else if hub.is_full(rt) {
        Input::JournalFull
    } else {
        Input::Silent
    }
}

/// Whether a frame is read beside the work on others: where they are small, or where that takes long, since a
/// filter looks at more than a band's own rows; and where the frame is there. The source is asked for it in
/// each case, so that a slow one is read meanwhile.
pub(crate) fn reads_ahead<L: Epoch, R: Source + Drop>(
    seat: &StreamSeat<L>,
    reader: &StreamReader<R>,
) -> bool {
    let chain = seat.spec().chain();
    let pays = is_small(seat) || chain.steps() < chain.cost();
    reader.is_ready(if pays { GLANCE } else { 0 }) && pays
}

/// How many frames it keeps before it waits for an image, where it reads ahead.
pub(crate) fn most_ahead<L: Epoch>(seat: &StreamSeat<L>) -> usize {
    if is_small(seat) { seat.places() } else { 2 }
}

/// How many frames it keeps before it waits for an image, whether or not that comes soon. Where a worker has
/// no stream of its own, more are read beside the work. Where all have one, the processors are busy anyway,
/// and a frame that is read early has left the caches when its turn comes. The hub is asked, under its lock,
/// only where several frames don't stay in a cache.
pub(crate) fn most_kept<L: Epoch, T: Wait>(rt: &T, hub: &Hub<L>, seat: &StreamSeat<L>) -> usize {
    let chain = seat.spec().chain();
    if chain.geometry().bytes() <= CACHED || hub.load(rt).has_spare_workers() {
        seat.places()
    } else if chain.steps() < chain.cost() {
        2
    } else {
        1
    }
}

fn is_small<L: Epoch>(seat: &StreamSeat<L>) -> bool {
    seat.spec().chain().geometry().bytes() <= SMALL
}
