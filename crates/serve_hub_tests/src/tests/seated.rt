//! A hub beside all its seats, as one thread calls it.
ghost use Rattle.std.specs.Prelude.{◌≡◌};
ghost use Rattle.serve_core.specs.Schedule.{opened_schedule};

use super::jobs::hub_offered_over;
use super::steps::{Answer, Call, Step, closed};
use super::{Core, Served, came_back, frame_of, same, same_at, stepped, stream_spec_of, told};
use frame_view::Frame;
use lease::Lease;
use serve_core::{Collected, Setup, StreamSpec};
use serve_hub::{
    AdmitRefused, CollectRefused, Ended, Epoch, EpochOwner, Hub, LeaseRefused, Mismatch, Moments,
    Offer, OfferRefused, Refusal, Reopened, Settled, StreamSeat, WorkSeat,
};
use std::alloc::Global;
use std::process::Abort;
use std::sync::ledger::Blank;
use std::sync::{Arc, Wait};
use std::test::Fail;

const NO_STREAM: Refusal = Refusal::Core(Core::NoStream);

const NO_WORKER: Refusal = Refusal::Core(Core::NoWorker);

/// A hub with its seats, which are called by their numbers, at moment 0.
#[derive(Drop)]
pub(super) struct Seated<L: Epoch> {
    pub(super) owner: EpochOwner<L>,
    pub(super) streams: Vec<StreamSeat<L>>,
    pub(super) workers: Vec<WorkSeat<L>>,
}

/// A hub of this setup, for so many entries.
pub(super) fn seated_of<L: Epoch>(
    alloc: Global,
    blank: Blank,
    setup: Setup,
    limit: usize,
) -> Result<Seated<L>, Fail>
    requires name { blank.name ≡ L.name }
    requires parts { blank.parts ≡ L.parts }
    requires enough { blank.parts ≡ 80 }
    requires opening { opened_schedule setup ≡ L.opening }
{
    let (hub, streams, workers) = Hub::<L>::new(alloc, blank, setup, limit)?;
    Ok(Seated {
        owner: EpochOwner::new(hub),
        streams,
        workers,
    })
}

/// A hub of this setup, for at most 16 entries, after these calls.
pub(super) fn seated_after<L: Epoch, R: Wait + Abort>(
    rt: &R,
    alloc: Global,
    blank: Blank,
    setup: Setup,
    steps: &[Step],
) -> Result<Seated<L>, Fail>
    requires name { blank.name ≡ L.name }
    requires parts { blank.parts ≡ L.parts }
    requires enough { blank.parts ≡ 80 }
    requires opening { opened_schedule setup ≡ L.opening }
{
    let mut seated = seated_of::<L>(alloc, blank, setup, 16)?;
    seated.follow(rt, alloc, steps)?;
    Ok(seated)
}

impl<L: Epoch> Seated<L> {
    /// The next epoch of a hub.
    pub(super) fn again(reopened: Reopened<L>) -> Seated<L> {
        let Reopened {
            hub,
            streams,
            workers,
            journal: _,
        } = reopened;
        Seated {
            owner: EpochOwner::new(hub),
            streams,
            workers,
        }
    }

    /// Calls the hub in turn, and compares each answer.
    pub(super) fn follow<R: Wait + Abort>(
        &mut self,
        rt: &R,
        alloc: Global,
        steps: &[Step],
    ) -> Result<(), Fail> {
        for step in steps {
            let (call, want) = *step;
            let got = self.answer_to(rt, alloc, call)?;
            same_at(rt, got, want, call);
        }
        Ok(())
    }

    /// Calls the hub in turn, part by part.
    pub(super) fn follow_all<R: Wait + Abort>(
        &mut self,
        rt: &R,
        alloc: Global,
        parts: &[&[Step]],
    ) -> Result<(), Fail> {
        for part in parts {
            self.follow(rt, alloc, part)?;
        }
        Ok(())
    }

    /// What the hub answers to a call.
    pub(super) fn answer_to<R: Wait + Abort>(
        &mut self,
        rt: &R,
        alloc: Global,
        call: Call,
    ) -> Result<Answer, Fail> {
        match call {
            Call::Offer(s, sample) => self.offered(rt, alloc, s, &[sample]),
            Call::OfferAt(s, at, sample) => self.offered_at(rt, alloc, s, at, sample),
            Call::OfferTall(s) => self.offered(rt, alloc, s, &[1, 2, 3, 4]),
            Call::OfferOver(s, sample) => hub_offered_over(rt, alloc, self, s, &[sample]),
            Call::Admit(served) => self.admit(rt, alloc, served),
            Call::Work(w, bands) => Ok(self.worked(rt, w, bands)),
            Call::WaitAndWork(w, bands) => Ok(self.waited_and_worked(rt, w, bands)),
            Call::Collect(s) => Ok(given(self.try_collect(rt, s))),
            Call::CollectSoon(s) => Ok(given(self.collect_soon(rt, s))),
            Call::Close(s) => Ok(closed(self.close(rt, s))),
            Call::IsFull => Ok(Answer::Full(self.owner.hub().is_full(rt))),
            Call::RoomLeft => Ok(self.room_left(rt)),
            Call::EndEpoch => Ok(self.end_epoch(rt)),
            Call::Deadline(s) => Ok(self.deadline(rt, s)),
            Call::Load => Ok(self.load(rt)),
        }
    }

    /// Offers a frame, which comes back where it is refused.
    pub(super) fn offer(
        &mut self,
        rt: &impl Wait,
        alloc: Global,
        s: u32,
        frame: Arc<Frame>,
    ) -> Result<u64, OfferRefused> {
        self.offer_at(rt, alloc, s, 0, frame)
    }

    fn offer_at(
        &mut self,
        rt: &impl Wait,
        alloc: Global,
        s: u32,
        at: u64,
        frame: Arc<Frame>,
    ) -> Result<u64, OfferRefused> {
        let Seated { owner, streams, .. } = self;
        let offer = Offer {
            at,
            frame,
            memory: None,
        };
        match streams.get_mut(s as usize) {
            Some(seat) => owner.hub().offer(rt, alloc, seat, offer),
            None => Err(OfferRefused {
                refusal: NO_STREAM,
                offer: Some(offer),
            }),
        }
    }

    /// Offers a frame of these samples, which comes back where it is refused.
    fn offered(
        &mut self,
        rt: &impl Wait,
        alloc: Global,
        s: u32,
        samples: &[u8],
    ) -> Result<Answer, Fail> {
        let frame = frame_of(alloc, samples)?;
        let answer = self.offer(rt, alloc, s, frame);
        offer_answer(answer, samples)
    }

    /// Offers a frame of this sample at a moment, and tells the seat's moments.
    fn offered_at(
        &mut self,
        rt: &impl Wait,
        alloc: Global,
        s: u32,
        at: u64,
        sample: u8,
    ) -> Result<Answer, Fail> {
        let frame = frame_of(alloc, &[sample])?;
        let answer = self.offer_at(rt, alloc, s, at, frame);
        let moments = self.moments(s);
        Ok(with_moments(offer_answer(answer, &[sample])?, moments))
    }

    fn moments(&self, s: u32) -> Option<Moments> {
        self.streams.get(s as usize)?.moments()
    }

    /// Admits a stream.
    pub(super) fn admit<R: Wait + Abort>(
        &mut self,
        rt: &R,
        alloc: Global,
        served: &Served<'_>,
    ) -> Result<Answer, Fail> {
        let (spec, asked) = (
            stream_spec_of(alloc, served)?,
            stream_spec_of(alloc, served)?,
        );
        let answer = self.owner.hub().admit(rt, alloc, spec);
        Ok(self.taken(rt, answer, &asked))
    }

    /// The seat of a stream that was admitted comes behind the others. Its admission is its one call, and its
    /// stream is served with what was asked.
    fn taken(
        &mut self,
        rt: &impl Abort,
        answer: Result<StreamSeat<L>, AdmitRefused>,
        asked: &StreamSpec,
    ) -> Answer {
        match answer {
            Ok(seat) => {
                let number = seat.number();
                same(rt, seat.calls().len(), 1);
                same(rt, seat.stream_spec().is_same(asked), true);
                self.streams
                    .push(seat)
                    .expect(rt, "was the memory of a place refused?");
                Answer::Admitted(number)
            }
            Err(AdmitRefused { refusal, spec }) => {
                Answer::SpecBack(refusal, spec.queue(), spec.outbox())
            }
        }
    }

    fn room_left(&self, rt: &impl Wait) -> Answer {
        let left = self.owner.hub().room_left(rt);
        Answer::Room(left.entries(), left.is_ending(), left.is_full())
    }

    fn end_epoch(&self, rt: &impl Wait) -> Answer {
        self.owner.end_epoch(rt);
        Answer::Full(self.owner.hub().is_full(rt))
    }

    fn deadline(&self, rt: &impl Wait, s: u32) -> Answer {
        let told = self.owner.hub().deadline(rt, s);
        Answer::Due(told.stream(), told.deadline(), told.clock())
    }

    fn load(&self, rt: &impl Wait) -> Answer {
        let load = self.owner.hub().load(rt);
        Answer::Loaded(load.streams(), load.workers(), load.has_spare_workers())
    }

    pub(super) fn close(&mut self, rt: &impl Wait, s: u32) -> Result<(), Refusal> {
        let Seated { owner, streams, .. } = self;
        match streams.get_mut(s as usize) {
            Some(seat) => owner.hub().close(rt, seat),
            None => Err(NO_STREAM),
        }
    }

    pub(super) fn try_collect(
        &mut self,
        rt: &impl Wait,
        s: u32,
    ) -> Result<Collected, CollectRefused> {
        let Seated { owner, streams, .. } = self;
        match streams.get_mut(s as usize) {
            Some(seat) => owner.hub().try_collect(rt, seat),
            None => Err(CollectRefused {
                refusal: NO_STREAM,
                pair: None,
            }),
        }
    }

    fn collect_soon(&mut self, rt: &impl Wait, s: u32) -> Result<Collected, CollectRefused> {
        let Seated { owner, streams, .. } = self;
        match streams.get_mut(s as usize) {
            Some(seat) => owner.hub().collect_soon(rt, seat),
            None => Err(CollectRefused {
                refusal: NO_STREAM,
                pair: None,
            }),
        }
    }

    /// The first sample of the source and of the image that stream `s` gives.
    pub(super) fn collected(&mut self, rt: &impl Wait, s: u32) -> Answer {
        given(self.try_collect(rt, s))
    }

    pub(super) fn lease<R: Wait>(&mut self, rt: &R, w: u32) -> Result<Lease, Refusal> {
        let Seated { owner, workers, .. } = self;
        match workers.get_mut(w as usize) {
            Some(seat) => owner.hub().lease(rt, seat),
            None => Err(NO_WORKER),
        }
    }

    pub(super) fn try_lease(&mut self, rt: &impl Wait, w: u32) -> Result<Lease, Refusal> {
        let Seated { owner, workers, .. } = self;
        match workers.get_mut(w as usize) {
            Some(seat) => owner.hub().try_lease(rt, seat),
            None => Err(NO_WORKER),
        }
    }

    /// Settles a lease, which comes back where it is refused.
    pub(super) fn settle(
        &mut self,
        rt: &impl Wait,
        w: u32,
        lease: Lease,
    ) -> Result<Settled, (Refusal, Option<Lease>)> {
        let Seated { owner, workers, .. } = self;
        let Some(seat) = workers.get_mut(w as usize) else {
            return Err((NO_WORKER, Some(lease)));
        };
        match owner.hub().settle(rt, seat, lease) {
            Ok(done) => Ok(done),
            Err(refused) => {
                let LeaseRefused { refusal, lease } = refused;
                Err((refusal, lease))
            }
        }
    }

    /// Settles a lease. A refused one ends.
    pub(super) fn settled(
        &mut self,
        rt: &impl Wait,
        w: u32,
        lease: Lease,
    ) -> Result<Settled, Refusal> {
        match self.settle(rt, w, lease) {
            Ok(done) => Ok(done),
            Err((refusal, None)) => Err(refusal),
            Err((refusal, Some(lease))) => {
                let _job = lease.into_job();
                Err(refusal)
            }
        }
    }

    /// Settles a lease and gets the next one. A refused one ends.
    pub(super) fn settled_and_leased(
        &mut self,
        rt: &impl Wait,
        w: u32,
        lease: Lease,
    ) -> Result<(Settled, Option<Lease>), Refusal> {
        let Seated { owner, workers, .. } = self;
        let Some(seat) = workers.get_mut(w as usize) else {
            let _job = lease.into_job();
            return Err(NO_WORKER);
        };
        match owner.hub().settle_and_lease(rt, seat, lease) {
            Ok(answer) => Ok(answer),
            Err(refused) => {
                let LeaseRefused { refusal, lease } = refused;
                if let Some(lease) = lease {
                    let _job = lease.into_job();
                }
                Err(refusal)
            }
        }
    }

    /// A lease that is settled after this many bands.
    pub(super) fn worked(&mut self, rt: &impl Wait, w: u32, bands: u32) -> Answer {
        match self.try_lease(rt, w) {
            Ok(lease) => self.worked_off(rt, w, lease, bands),
            Err(refusal) => Answer::Refused(refusal),
        }
    }

    /// The same, of a lease that the worker waits for.
    fn waited_and_worked<R: Wait>(&mut self, rt: &R, w: u32, bands: u32) -> Answer {
        match self.lease(rt, w) {
            Ok(lease) => self.worked_off(rt, w, lease, bands),
            Err(refusal) => Answer::Refused(refusal),
        }
    }

    fn worked_off(&mut self, rt: &impl Wait, w: u32, lease: Lease, bands: u32) -> Answer {
        let lent = told(&lease);
        match self.settled(rt, w, stepped(lease, bands)) {
            Ok(done) => Answer::Worked(lent, done),
            Err(refusal) => Answer::Refused(refusal),
        }
    }

    pub(super) fn finish(self) -> Result<Ended, Mismatch<L>> {
        let Seated {
            owner,
            streams,
            workers,
        } = self;
        owner.into_hub().finish(streams, workers)
    }

    /// The end of a hub whose seats are all here, with no lease out.
    pub(super) fn ended(self, rt: &impl Abort) -> Ended {
        match self.finish() {
            Ok(ended) => ended,
            Err(mismatch) => panic!(rt; "not ended for {:?}", mismatch.fault),
        }
    }
}

/// The answer of an offer, whose frame came back where it was refused.
fn offer_answer(answer: Result<u64, OfferRefused>, samples: &[u8]) -> Result<Answer, Fail> {
    match answer {
        Ok(number) => Ok(Answer::Accepted(number)),
        Err(refused) => {
            let back = refused.offer.ok_or("no offer")?;
            came_back(refused.refusal, &back.frame, samples)
        }
    }
}

/// The answer of an offer, with the seat's moments where it was accepted.
fn with_moments(answer: Answer, moments: Option<Moments>) -> Answer {
    match answer {
        Answer::Accepted(number) => Answer::AcceptedAt(number, moments),
        answer => answer,
    }
}

/// The first sample of the source and of the image that a stream gave.
fn given(answer: Result<Collected, CollectRefused>) -> Answer {
    match answer {
        Ok(pair) => {
            let source = pair.source.data().first().copied();
            Answer::Given(source, pair.image.data().first().copied())
        }
        Err(refused) => Answer::Refused(refused.refusal),
    }
}
