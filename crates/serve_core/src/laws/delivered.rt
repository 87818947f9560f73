//! What streams deliver, and the headline.
ghost use Rattle.serve_core.specs.Bare.{measures_any, is_any_image};
ghost use Rattle.serve_core.specs.Delivered.{CloseLaw, DeliveredLaw, DrainedLaw, WaitingLaw};
ghost use Rattle.serve_core.specs.Frames.{measures, is_image};
ghost use Rattle.serve_core.specs.Headline.{HeadlineLaw};

/// The headline. For every list of arrivals, leases, band steps, settlements, clock ticks, closes,
/// collections and admissions, each stream's delivered list is the filter's images of its first n accepted
/// frames, in order, each once, and all of them once it answers drained; nothing is accepted after its close;
/// its budget and deadline are the rules' of constant bandwidth servers for its own arrivals and charges;
/// every lease goes to an earliest deadline.
///
/// It is said of every legal transcript of a setup within its limits, from the definitions alone; that what a
/// machine answers is a legal transcript is the contract of its runs.
pub fn headline()
    ensures { HeadlineLaw measures is_image }
{}

/// The frames that a stream keeps are the accepted ones from the first that isn't collected on.
pub fn waiting_law()
    ensures of_frames { WaitingLaw measures is_image }
    ensures bare { WaitingLaw measures_any is_any_image }
{}

/// What a stream delivered is the images of its first accepted frames, in order, each once: as many as were
/// collected.
pub fn delivered_law()
    ensures { DeliveredLaw measures is_image }
{}

/// Nothing is accepted after a close.
pub fn close_law()
    ensures of_frames { CloseLaw measures is_image }
    ensures bare { CloseLaw measures_any is_any_image }
{}

/// Once a stream answered Drained it has delivered the images of all its accepted frames, and no more are
/// accepted.
pub fn drained_law()
    ensures of_frames { DrainedLaw measures is_image }
    ensures bare { DrainedLaw measures_any is_any_image }
{}
