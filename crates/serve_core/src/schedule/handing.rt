//! Jobs that are handed over, and brought back with their bands.
ghost use Rattle.std.specs.Prelude.{◌≡◌, Some, None, IsSome, IfNone, slice_get};
ghost use Rattle.serve_core.specs.declared.refusal.Refusal.TheVariants as refusals;
ghost use Rattle.serve_core.specs.Desk.{CanBring, brought_by, stream_refusal};
ghost use Rattle.serve_core.specs.Schedule.{HasStream, with_stream_at};
ghost use Rattle.serve_core.specs.Streams.{HasPlace, with_leased};

use super::Schedule;
use crate::refusal::Refusal;
use lease::Job;

impl Schedule {
    /// Why a frame of its size is refused by stream `s`, if it is.
    pub(crate) fn job_refusal(&self, s: u32) -> Option<Refusal>
        ensures refusal { result ≡ stream_refusal (slice_get self.now.streams s) }
        ensures place { IfNone result (HasStream self.now s (λ stream. HasPlace stream.state)) }
    {
        match self.streams.get(s as usize) {
            None => Some(Refusal::NoStream),
            Some(stream) => stream.arrival_refusal(true),
        }
    }

    /// Hands the job over that is out of stream `s`.
    pub(crate) fn take_job(&mut self, s: u32) -> Job
        requires { HasStream self.old s (λ stream. IsSome stream.leased) }
        ensures { HasStream self.old s (λ stream. (stream.leased ≡ Some result)
            × (self.new ≡ with_stream_at s (with_leased None stream) self.old)) }
    {
        let stream = &mut self.streams[s as usize];
        stream.take_job()
    }

    /// Takes the job that was handed over of stream `s`, with bands more, and charges the units that these
    /// cost together.
    pub(crate) fn return_job(&mut self, s: u32, job: Job, bands: u32, units: u64)
        requires { HasStream self.old s (CanBring job bands units) }
        ensures { HasStream self.old s
            (λ stream. self.new ≡ with_stream_at s (brought_by job bands stream) self.old) }
    {
        let stream = &mut self.streams[s as usize];
        stream.charge(bands, units);
        stream.return_job(job);
    }
}
