//! What a client does next, from epoch to epoch.
ghost use Rattle.std.specs.Prelude.{◌≡◌};
ghost use Rattle.serve_client.specs.Rests.{course_image, course_of, stop_kept};

use crate::stop::Stop;
use frame_view::Frame;
use serve_core::Collected;
use std::sync::Arc;

/// What a client does next, once its header line was written.
#[derive(Drop)]
pub(crate) enum Course {
    /// It writes on with the image in hand, if there is one; offers the frame in hand, if there is one, and
    /// reads on.
    Feeding(Option<Arc<Frame>>, Option<Collected>),
    /// It offers the frame in hand, if there is one, and reads on, but an image couldn't be delivered, for
    /// this reason, and no more are written.
    Holding(Option<Arc<Frame>>, Stop),
    /// It reads no more, for this reason. It writes on with the image in hand, if there is one, and writes
    /// those that are left.
    Draining(Stop, Option<Collected>),
    /// It reads no more, for this reason, and throws the images away.
    Discarding(Stop),
}

impl Course {
    /// The fault that a client keeps, or `Whole`; and the image in hand, if there is one.
    pub(crate) fn into_kept(self) -> (Stop, Option<Collected>)
        ensures stop { result.0 ≡ stop_kept (course_of self) }
        ensures image { result.1 ≡ course_image (course_of self) }
    {
        match self {
            Course::Feeding(_, image) => (Stop::Whole, image),
            Course::Holding(_, held) => (held, None),
            Course::Draining(stop, image) => (stop, image),
            Course::Discarding(stop) => (stop, None),
        }
    }
}
