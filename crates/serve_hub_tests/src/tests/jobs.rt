//! Jobs that were made outside, and frames that are offered in the memory of images.
ghost use Rattle.std.specs.Prelude.{◌≡◌, IfOk, IsTrue, None};
ghost use Rattle.std.specs.Arc.{arc_value};
ghost use Rattle.lease.specs.Job.{JobValue};
ghost use Rattle.serve_core.specs.Desk.{IsFreshFor};
ghost use Rattle.serve_core.specs.Streams.{IsFresh};

use super::ends::left_after;
use super::seated::Seated;
use super::steps::Answer::{Accepted, Closed, Given, Refused, Returned, Worked};
use super::steps::Call::{Close, Collect, Offer, OfferOver, Work};
use super::steps::{Answer, Step, follow};
use super::{Core, LINE, PLAIN, came_back, frame_of, same, setup_of};
use frame_view::Frame;
use lease::{Job, JobSpec, is_same_spec};
use serve_core::Setup;
use serve_hub::{Book, Epoch, OfferRefused, Refusal, Settled};
use std::alloc::Global;
use std::process::Abort;
use std::sync::{Arc, Wait};
use std::test::Fail;
use y4m_header::check_frame_line;

/// A frame is worked and collected, and its stream is closed.
const COLLECTED: &[Step] = &[
    (Work(0, 1), Worked((0, 0, 1), Settled::Finished(0))),
    (Collect(0), Given(Some(0x01), Some(0xFE))),
    (Close(0), Closed),
];

/// A frame is worked and collected, and its stream is closed.
const OTHER_COLLECTED: &[Step] = &[
    (Work(0, 1), Worked((0, 0, 1), Settled::Finished(0))),
    (Collect(0), Given(Some(0x5A), Some(0xA5))),
    (Close(0), Closed),
];

/// A frame is offered to a hub over the first one's image, and another one behind the close.
const OVER_IMAGES: &[Step] = &[
    (Offer(0, 0x00), Accepted(0)),
    (Work(0, 1), Worked((0, 0, 1), Settled::Finished(0))),
    (OfferOver(0, 0x01), Accepted(1)),
    (Work(0, 1), Worked((0, 1, 1), Settled::Finished(1))),
    (Close(0), Closed),
    (
        OfferOver(0, 0x5A),
        Returned(Refusal::Core(Core::Closed), Some(0xFE)),
    ),
];

/// The job of a frame.
fn job_for(alloc: Global, spec: &Arc<JobSpec>, samples: &[u8]) -> Result<Job, Fail>
    ensures fresh { IfOk result (λ job. IsFresh (arc_value spec.now) job) }
    ensures waiting { IfOk result (λ job. job.scratch ≡ None) }
{
    let frame = frame_of(alloc, samples)?;
    Ok(Job::new(alloc, spec.clone()?, frame)?)
}

/// The same, in the memory of an image whose samples are 0.
fn job_over_zeros(alloc: Global, spec: &Arc<JobSpec>, samples: &[u8]) -> Result<Job, Fail>
    ensures fresh { IfOk result (λ job. IsFresh (arc_value spec.now) job) }
    ensures waiting { IfOk result (λ job. job.scratch ≡ None) }
{
    check_frame_line(LINE)?;
    let frame = frame_of(alloc, samples)?;
    let image = Frame::blank(alloc, spec.chain().out_geometry(), LINE)?;
    match Job::over(alloc, spec.clone()?, frame, image) {
        Ok(job) => Ok(job),
        Err(_) => Err("no job".into()),
    }
}

/// Whether this is the chain of the first stream.
fn is_first_spec(book: &Book, spec: &JobSpec) -> bool
    ensures { IsTrue result → (job : JobValue) → IsFresh spec.now job → IsFreshFor book.now.desk 0 job }
{
    book.spec(0).is_some_and(|there| is_same_spec(there, spec))
}

/// What a refused job comes back as: its frame, and the memory of its image.
type Back = (Refusal, (Arc<Frame>, Frame));

/// Offers a job for the first stream.
fn offered_job(rt: &impl Abort, book: &mut Book, spec: &JobSpec, job: Job) -> Result<u64, Back>
    requires fresh { IsFresh spec.now job }
    requires waiting { job.scratch ≡ None }
{
    if !is_first_spec(book, spec) {
        panic!(rt; "another chain");
    }
    match book.offer_job(0, 0, job) {
        Ok(number) => Ok(number),
        Err((refusal, job)) => Err((refusal, job.undo())),
    }
}

/// The answer of an offer whose frame came back where it was refused.
fn frame_answer(answer: Result<u64, Back>, samples: &[u8]) -> Result<Answer, Fail> {
    match answer {
        Ok(number) => Ok(Accepted(number)),
        Err((refusal, (frame, _image))) => came_back(refusal, &frame, samples),
    }
}

/// The answer of an offer whose frame came back with the image where it was refused.
fn both_answer(answer: Result<u64, Back>, samples: &[u8]) -> Result<Answer, Fail> {
    match answer {
        Ok(number) => Ok(Accepted(number)),
        Err((refusal, (frame, image))) => both_back(refusal, &frame, &image, samples),
    }
}

#[test]
fn a_job_is_made_outside(rt: HostRuntime) -> Result<(), Fail> {
    let alloc = rt.alloc();
    let setup = setup_of(alloc, 1, &[PLAIN])?;
    let spec = first_spec(&setup)?;
    let jobs = (
        job_for(alloc, &spec, &[0x01])?,
        job_for(alloc, &spec, &[0x5A])?,
    );
    let answers = serve_jobs(&rt, alloc, setup, &spec, jobs, COLLECTED)?;
    same(&rt, frame_answer(answers.0, &[0x01])?, Accepted(0));
    let closed = Refused(Refusal::Core(Core::Closed));
    same(&rt, frame_answer(answers.1, &[0x5A])?, closed);
    Ok(())
}

/// The chain of the first stream.
fn first_spec(setup: &Setup) -> Result<Arc<JobSpec>, Fail> {
    let stream = setup.streams().first().ok_or("no stream")?;
    Ok(stream.job().clone()?)
}

/// What a book answers to a job, and to another one behind these calls.
fn serve_jobs(
    rt: &impl Abort,
    alloc: Global,
    setup: Setup,
    spec: &JobSpec,
    jobs: (Job, Job),
    steps: &[Step],
) -> Result<(Result<u64, Back>, Result<u64, Back>), Fail>
    requires first { IsFresh spec.now jobs.0 }
    requires second { IsFresh spec.now jobs.1 }
    requires first_waiting { jobs.0.scratch ≡ None }
    requires second_waiting { jobs.1.scratch ≡ None }
{
    let (first, second) = jobs;
    let mut book = Book::new(alloc, setup, 16)?;
    let first = offered_job(rt, &mut book, spec, first);
    follow(rt, alloc, &mut book, steps)?;
    let second = offered_job(rt, &mut book, spec, second);
    Ok((first, second))
}

#[test]
fn an_image_lends_a_book_its_memory(rt: HostRuntime) -> Result<(), Fail> {
    let alloc = rt.alloc();
    let setup = setup_of(alloc, 1, &[PLAIN])?;
    let spec = first_spec(&setup)?;
    let jobs = (
        job_over_zeros(alloc, &spec, &[0x5A])?,
        job_over_zeros(alloc, &spec, &[0x01])?,
    );
    let answers = serve_jobs(&rt, alloc, setup, &spec, jobs, OTHER_COLLECTED)?;
    same(&rt, both_answer(answers.0, &[0x5A])?, Accepted(0));
    let want = Returned(Refusal::Core(Core::Closed), Some(0x00));
    same(&rt, both_answer(answers.1, &[0x01])?, want);
    Ok(())
}

/// The answer of an offer whose frame came back with the image.
fn both_back(
    refusal: Refusal,
    frame: &Frame,
    image: &Frame,
    samples: &[u8],
) -> Result<Answer, Fail> {
    if frame.data() != samples || image.data().len() != 1 {
        return Err("another frame or another image came back".into());
    }
    Ok(Returned(refusal, image.data().first().copied()))
}

/// Collects an image of stream `s` of a hub, and offers a frame in its memory.
pub(super) fn hub_offered_over<L: Epoch>(
    rt: &impl Wait,
    alloc: Global,
    seated: &mut Seated<L>,
    s: u32,
    samples: &[u8],
) -> Result<Answer, Fail> {
    let frame = frame_of(alloc, samples)?;
    match over_image(rt, alloc, seated, s, frame) {
        Ok(answer) => over_answer(answer, samples),
        Err(refusal) => Ok(Refused(refusal)),
    }
}

/// Why there is no image, or the answer of the offer.
fn over_image<L: Epoch>(
    rt: &impl Wait,
    alloc: Global,
    seated: &mut Seated<L>,
    s: u32,
    frame: Arc<Frame>,
) -> Result<Result<u64, OfferRefused>, Refusal> {
    let Seated { owner, streams, .. } = seated;
    let Some(seat) = streams.get_mut(s as usize) else {
        return Err(Refusal::Core(Core::NoStream));
    };
    match owner.hub().try_collect(rt, seat) {
        Ok(pair) => {
            let memory = Some(pair.image);
            let offer = serve_hub::Offer {
                at: 0,
                frame,
                memory,
            };
            Ok(owner.hub().offer(rt, alloc, seat, offer))
        }
        Err(refused) => Err(refused.refusal),
    }
}

/// The answer of an offer over an image, which came back with the frame where it was refused.
fn over_answer(answer: Result<u64, OfferRefused>, samples: &[u8]) -> Result<Answer, Fail> {
    match answer {
        Ok(number) => Ok(Accepted(number)),
        Err(refused) => {
            let back = refused.offer.ok_or("nothing came back")?;
            let image = back.memory.ok_or("no image came back")?;
            both_back(refused.refusal, &back.frame, &image, samples)
        }
    }
}

#[test]
fn an_image_lends_a_hub_its_memory(rt: HostRuntime) -> Result<(), Fail> {
    let left = left_after(&rt, rt.alloc(), &[PLAIN], &[OVER_IMAGES])?;
    same(&rt, left.entries, 9);
    Ok(())
}
