//! What watches a run: it is asked about terminals, and told of the frames of each stream, of what clients
//! do, and of leases.
use crate::presence::Presence;
use crate::trace::Doing;
use lease::LeaseReport;

/// A watch is asked about the terminals of a run, and told of its frames as they go by. It changes no byte of
/// them. One that says nothing of its own sees no terminal, and is told nothing.
///
/// Streams are numbered from 0: the one of `filter` is 0, and those of `serve` have the order of their words,
/// with those of a control behind them, in the order of its lines.
/// Each stream of `serve` is told of by its client's thread.
pub trait Watch {
    /// Whether the input is a terminal, from which nothing comes before somebody types it.
    fn input_is_terminal(&self) -> bool {
        false
    }

    /// Whether the output is a terminal, which would show the bytes of a stream as text.
    fn output_is_terminal(&self) -> bool {
        false
    }

    /// Whether it is to be told of frames.
    fn follows_frames(&self) -> bool {
        false
    }

    /// Streams of these names begin. A stream that is alone has no name, and begins untold.
    fn begins(&self, _names: &[&str]) {}

    /// A stream that is alone is waited for.
    fn awaits_stream(&self) {}

    /// One more stream begins, of this name and number, which lasts as long as this says.
    fn joins(&self, _stream: usize, _name: &str, _presence: Presence) {}

    /// The files of a stream are open, or it stopped before they were.
    fn opened(&self, _stream: usize) {}

    /// One more frame of a stream has been read whole.
    fn frame_read(&self, _stream: usize) {}

    /// One more image of a stream has been written whole. The bytes are all that were written since it was
    /// last told of one of this stream.
    fn image_written(&self, _stream: usize, _bytes: u64) {}

    /// Nothing more is read or written.
    fn ends(&self) {}

    /// The client of a stream is about to do this.
    fn begins_doing(&self, _stream: usize, _doing: Doing) {}

    /// The client of a stream has come back from what it did, and whether that failed.
    fn ends_doing(&self, _stream: usize, _has_failed: bool) {}

    /// An epoch of the run begins.
    fn epoch_begins(&self) {}

    /// Whether it is to be told of leases.
    fn follows_leases(&self) -> bool {
        false
    }

    /// A worker has a lease.
    fn lease_begins(&self, _worker: u32) {}

    /// A worker has settled its lease, having done this for a stream, whose deadline and the moment of the
    /// clock were told then.
    fn lease_ends(
        &self,
        _worker: u32,
        _stream: usize,
        _report: LeaseReport,
        _deadline: Option<(u64, u64)>,
    ) {}
}

/// The watch, where it is told of the frames of a run: it follows them, and the run isn't quiet.
pub fn watch_of_frames<V: Watch>(watch: &V, is_quiet: bool) -> Option<&V> {
    if is_quiet || !watch.follows_frames() {
        return None;
    }
    Some(watch)
}

/// A watch of a run between any reader and writers: there is no terminal, and nothing is told.
#[derive(Clone, Copy)]
pub struct Unwatched;

impl Watch for Unwatched {}

/// Tells a watch, where there is one, that a client is about to do this.
pub(crate) fn tell_begin<V: Watch>(watch: Option<&V>, stream: usize, doing: Doing) {
    if let Some(watch) = watch {
        watch.begins_doing(stream, doing);
    }
}

/// Tells a watch, where there is one, that a client has come back from what it did, and whether that failed.
pub(crate) fn tell_done<V: Watch>(watch: Option<&V>, stream: usize, has_failed: bool) {
    if let Some(watch) = watch {
        watch.ends_doing(stream, has_failed);
    }
}
