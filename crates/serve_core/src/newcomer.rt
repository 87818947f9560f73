//! A stream that isn't admitted yet.
ghost use Rattle.std.specs.Prelude.{◌≡◌, IfOk, IfErr, OnOk};
ghost use Rattle.serve_core.specs.Rules.{RefusesSpec};
ghost use Rattle.serve_core.specs.Setup.{HasBandwidth, IsWithinLimits};
ghost use Rattle.serve_core.specs.Streams.{opened};

use crate::refusal::Refusal;
use crate::spec::StreamSpec;
use crate::stream::Stream;
use cbs_account::Account;
use std::alloc::Global;
use std::marker::Model;

/// A stream that isn't admitted yet, with all its memory. Contracts see its spec.
#[derive(Drop)]
pub struct Newcomer {
    stream: Stream,
}

impl Model for Newcomer {
    ghost use Rattle.std.specs.Prelude.{◌≡◌};
    ghost use Rattle.serve_core.specs.Streams.{opened};
    ghost use Rattle.serve_core.specs.Setup.{IsWithinLimits, StreamSpec};

    ghost Value = { StreamSpec };

    ghost view = { λ a. a.stream.state.spec };

    ghost invariant = { λ a. (a.stream ≡ opened a.stream.state.spec) × IsWithinLimits a.stream.state.spec };
}

impl Newcomer {
    /// A stream that has had no frame. The spec comes back where no stream may have it, or where its memory
    /// is refused.
    pub fn new(alloc: Global, spec: StreamSpec) -> Result<Newcomer, (Refusal, StreamSpec)>
        ensures newcomer { IfOk result (λ newcomer. newcomer ≡ spec) }
        ensures fit { OnOk result (IsWithinLimits spec × HasBandwidth spec) }
        ensures refused { IfErr result (λ e. RefusesSpec spec e.0) }
        ensures returns_spec { IfErr result (λ e. e.1 ≡ spec) }
    {
        if !spec.is_within_limits() {
            return Err((Refusal::BadLimits, spec));
        }
        if Account::new(spec.maximum, spec.period).is_err() {
            return Err((Refusal::BadBandwidth, spec));
        }
        match Stream::new(alloc, spec) {
            Ok(stream) => Ok(Newcomer { stream }),
            Err(spec) => Err((Refusal::NoMemory, spec)),
        }
    }

    /// What the stream is served with.
    pub fn spec(&self) -> &StreamSpec
        ensures spec { result.now ≡ self.now }
        ensures limits { IsWithinLimits self.now }
    {
        self.stream.stream_spec()
    }

    /// What every newcomer keeps. It does nothing: the call that takes its stream asks for this.
    pub(crate) fn recall_limits(&self)
        ensures { IsWithinLimits self.now }
    {
        let _stream = &self.stream;
    }

    /// What the stream was to be served with. Its memory is given up.
    pub fn into_spec(self) -> StreamSpec
        ensures { result ≡ self }
    {
        self.stream.into_spec()
    }

    pub(crate) fn into_stream(self) -> Stream
        ensures { result ≡ opened self }
    {
        self.stream
    }

    /// The newcomer that a stream still is.
    pub(crate) fn of(stream: Stream) -> Newcomer
        requires fresh { stream ≡ opened stream.state.spec }
        requires limits { IsWithinLimits stream.state.spec }
        ensures { result ≡ stream.state.spec }
    {
        Newcomer { stream }
    }
}
