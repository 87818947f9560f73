//! The share that a stream holds until it is released.
ghost use Rattle.std.specs.Prelude.{◌≡◌};
ghost use Rattle.cbs_account.specs.Admission.{Fits};
ghost use Rattle.serve_core.specs.Released.{is_released, with_held_share};

use super::Stream;
use cbs_account::Admission;

impl Stream {
    /// Whether no frame and no image is left, and the moment has reached the deadline.
    pub(crate) fn is_released(&self, moment: u64) -> bool
        ensures { result ≡ is_released moment self.now.state }
    {
        self.queue.is_closed()
            && self.queue.accepted() == self.queue.finished()
            && self.queue.finished() == self.collected
            && self.account.deadline() <= moment
    }

    /// Takes the share that the stream holds at a moment.
    pub(crate) fn hold(&self, moment: u64, admission: &mut Admission)
        requires { Fits (with_held_share moment self.now.state admission.old) }
        ensures { admission.new ≡ with_held_share moment self.now.state admission.old }
    {
        if self.is_released(moment) {
            return;
        }
        match admission.admit(self.spec.maximum, self.spec.period) {
            Ok(()) => {}
            Err(_) => unreachable!(),
        }
    }
}
