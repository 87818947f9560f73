//! Why an epoch, or a session, came to no end.
ghost use Rattle.std.specs.Prelude.{◌≡◌};
ghost use Rattle.serve_work.specs.Sessions.{fault_of};

use super::SessionFault;
use super::turn::Stream;
use y4m_stream::{Sink, Source, StreamReader};

/// Why an epoch came to no end, or why a session tells nothing of its streams, with what comes back.
#[derive(Drop)]
pub enum Unended<R: Source, W: Sink> {
    /// The first one wasn't opened, and the inputs come back.
    Unopened(SessionFault, Vec<(StreamReader<R>, W)>),
    /// The thread of a worker was refused in the first epoch, where all are needed. None began, and the
    /// streams come back with nothing done of them ([`Stream::into_input`]).
    Unbegun(Vec<Stream<R, W>>),
    /// The journal isn't what the seats and the hub tell, a lease wasn't settled with its whole grant, or the
    /// journal isn't full where a stream waits.
    Mismatch,
}

impl<R: Source + Drop, W: Sink + Drop> Unended<R, W> {
    /// The fault that a session tells.
    pub fn fault(self) -> SessionFault
        ensures { result ≡ fault_of self }
    {
        match self {
            Unended::Unopened(fault, _) => fault,
            Unended::Unbegun(_) => SessionFault::NoMemory,
            Unended::Mismatch => SessionFault::Mismatch,
        }
    }
}
