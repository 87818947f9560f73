//! Who is told of the work, and who tells the moments of offers.
ghost use Rattle.std.specs.Prelude.{ℕ};

use lease::LeaseReport;

/// What is told of the work, band by band, from the threads of the workers. It decides how a band is done.
///
/// Each call is outside the hub's lock. One that says nothing of its own isn't told of leases.
pub trait Gate {
    /// Worker `worker` is about to do a band of frame `number` of stream `stream`.
    fn before_band(&self, worker: u32, stream: u32, number: u64);

    /// Whether a band of a frame of so many samples may be done by two threads, where it can be halved.
    fn allows_halves(&self, samples: usize) -> bool;

    /// Worker `worker`, or the thread that helps it, is about to do half 0 or 1 of a band.
    fn before_half(&self, worker: u32, half: u32);

    /// An epoch begins: none of its threads was started yet.
    fn epoch_begins(&self) {}

    /// Whether it is to be told of leases.
    fn follows_leases(&self) -> bool {
        false
    }

    /// Worker `worker` has a lease.
    fn lease_begins(&self, _worker: u32) {}

    /// Worker `worker` has settled its lease, having done this. The hub then told the stream's deadline and
    /// the moment of its clock.
    fn lease_ends(&self, _worker: u32, _report: LeaseReport, _deadline: Option<(u64, u64)>) {}
}

/// What tells the moments at which frames are offered.
pub trait Clock {
    /// The moments that it gives.
    ghost gives: { Self → ℕ → Type 0 };

    /// The moment now. A moment past 2^60 ends its stream.
    fn moment(&self) -> u64
        ensures { gives self.now result };
}
