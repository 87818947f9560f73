//! What a run stands on.

use serve_watch::{Watch, watch_of_frames};
use std::alloc::{AllocError, Global};

/// What starts threads and waits, where memory is taken, where files are opened and made, and who watches, if
/// anybody does.
pub struct Host<'t, 'f, 'w, F, V, T> {
    pub rt: &'t T,
    pub alloc: Global,
    pub files: &'f F,
    pub watch: Option<&'w V>,
}

impl<'t, 'f, 'w, F, V, T> Host<'t, 'f, 'w, F, V, T> {
    /// A host under this watch in place of its own.
    pub fn with_watch<'u, U>(self, watch: Option<&'u U>) -> Host<'t, 'f, 'u, F, U, T> {
        Host {
            rt: self.rt,
            alloc: self.alloc,
            files: self.files,
            watch,
        }
    }
}

impl<'t, 'f, 'w, F, V: Watch, T> Host<'t, 'f, 'w, F, V, T> {
    /// The watch, where it is told of the frames of a run: it follows them, and the run isn't quiet.
    pub fn watch_of_frames(&self, is_quiet: bool) -> Option<&'w V> {
        watch_of_frames(self.watch?, is_quiet)
    }
}

impl<'t, 'f, 'w, F, V, T> Clone for Host<'t, 'f, 'w, F, V, T> {
    fn clone(&self) -> Result<Self, AllocError> {
        Ok(*self)
    }
}

impl<'t, 'f, 'w, F, V, T> Copy for Host<'t, 'f, 'w, F, V, T> {}
