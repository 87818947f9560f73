//! Jobs of small frames, step by step.
ghost use Rattle.std.specs.Prelude.{◌≡◌, ◌≤◌, IfOk, IsSome, None};
ghost use Rattle.std.specs.Arc.{arc_value};
ghost use Rattle.filters.specs.Chain.{format_of, last_format};
ghost use Rattle.filters.specs.Steps.{steps_of};
ghost use Rattle.lease.specs.Canvases.{IsScratch};

use crate::tests::{fails, same, same_at, same_frame, same_list};
use filters::{Chain, parse_ops};
use frame_view::{Frame, Geometry};
use lease::{GrantSpent, Job, JobRefused, JobSpec, Lease, LeaseReport, OverRefused, Scratch};
use row_bands::BandHeight;
use std::alloc::Global;
use std::process::Abort;
use std::sync::Arc;
use std::test::Fail;
use std::thread::Threads;
use test_tools::{Parts, frame_of};
use y4m_header::Chroma;

const COLUMN: Geometry = Geometry {
    width: 1,
    height: 10,
    chroma: Chroma::Mono,
};

const PAIR: Geometry = Geometry {
    width: 1,
    height: 2,
    chroma: Chroma::Mono,
};

const TRIPLE: Geometry = Geometry {
    width: 1,
    height: 3,
    chroma: Chroma::Mono,
};

const QUADRUPLE: Geometry = Geometry {
    width: 1,
    height: 4,
    chroma: Chroma::Mono,
};

const WIDE: Geometry = Geometry {
    width: 2,
    height: 1,
    chroma: Chroma::Mono,
};

/// Ten samples, and the same after `invert`.
const UP: &[u8] = &[0, 1, 2, 3, 4, 5, 6, 7, 8, 9];

const INVERTED: &[u8] = &[0xFF, 0xFE, 0xFD, 0xFC, 0xFB, 0xFA, 0xF9, 0xF8, 0xF7, 0xF6];

/// So many steps of a job are done, of so many.
fn same_steps(rt: &impl Abort, job: &Job, done: u32, steps: u32)
    ensures done { job.now.done ≡ done }
    ensures steps { steps_of job.now.chain ≡ steps }
{
    assert_eq!(rt; (job.done(), job.steps()), (done, steps));
}

/// All steps of a job are done, which are so many. Compares its source's samples and its image, and gives
/// the scratch back.
fn finished(
    rt: &impl Abort,
    job: Job,
    steps: u32,
    samples: &[u8],
    line: &[u8],
    image: &[u8],
) -> Scratch
    ensures { IsScratch job.chain result }
{
    same_steps(rt, &job, steps, steps);
    let (source, made, scratch) = job.into_image();
    same_list(rt, source.data(), samples);
    same_frame(rt, &made, line, image);
    scratch
}

fn spec_in_bands(
    alloc: Global,
    ops: &str,
    geometry: Geometry,
    rows: u32,
) -> Result<Arc<JobSpec>, Fail> {
    let band_height = BandHeight::new(rows).ok_or("no height")?;
    let ops = parse_ops(alloc, ops.as_bytes())?;
    let chain = Chain::new(alloc, ops, geometry, band_height)?;
    Ok(Arc::new(alloc, JobSpec::new(chain))?)
}

fn spec_of(alloc: Global, ops: &str, geometry: Geometry) -> Result<Arc<JobSpec>, Fail> {
    spec_in_bands(alloc, ops, geometry, 2)
}

fn source_of(
    alloc: Global,
    geometry: Geometry,
    line: &[u8],
    samples: &[u8],
) -> Result<Arc<Frame>, Fail> {
    Ok(Arc::new(alloc, frame_of(alloc, geometry, line, samples)?)?)
}

/// An image that was written back, of the size of the spec's images.
fn image_of(alloc: Global, spec: &JobSpec, line: &[u8], samples: &[u8]) -> Result<Frame, Fail>
    ensures { IfOk result (λ image.
        format_of image.geometry ≡ last_format spec.now.ops (format_of spec.now.geometry)) }
{
    Ok(frame_of(alloc, spec.chain().out_geometry(), line, samples)?)
}

/// A job of a frame of the spec's size, that no step is done of.
fn started(
    alloc: Global,
    spec: &Arc<JobSpec>,
    scratch: Scratch,
    line: &[u8],
    samples: &[u8],
) -> Result<Job, Fail>
    requires { IsScratch (arc_value spec.now) scratch }
    ensures chain { IfOk result (λ job. job.chain ≡ arc_value spec.now) }
    ensures started { IfOk result (λ job. IsSome job.scratch) }
{
    let source = source_of(alloc, spec.chain().geometry(), line, samples)?;
    let mut job = Job::new(alloc, spec.clone()?, source)?;
    job.start(scratch);
    Ok(job)
}

/// A job that no step is done of, with scratch of its own.
fn job_of(alloc: Global, spec: &Arc<JobSpec>, line: &[u8], samples: &[u8]) -> Result<Job, Fail>
    ensures { IfOk result (λ job. IsSome job.scratch) }
{
    started(alloc, spec, Scratch::new(alloc, spec)?, line, samples)
}

/// So many steps may be granted of those that are left.
fn is_grant(rt: &impl Abort, grant: u32, left: u32)
    ensures some { 1 ≤ grant }
    ensures left { grant ≤ left }
{
    assert!(rt; 1 <= grant && grant <= left);
}

/// Does so many steps under one lease, which then grants no more.
fn stepped(rt: &impl Abort, job: Job, grant: u32) -> Job
    requires { IsSome job.scratch }
    ensures chain { result.chain ≡ job.chain }
    ensures started { IsSome result.scratch }
{
    let done = job.done();
    is_grant(rt, grant, job.steps() - done);
    let mut lease = Lease::new(job, 3, 41, grant);
    for used in 0..grant {
        same(rt, (lease.used(), lease.step()), (used, Ok(())));
    }
    let spent = (lease.step(), lease.granted(), told(&lease).0);
    same(rt, spent, (Err(GrantSpent), grant, grant));
    same(rt, lease.done().checked_sub(done), Some(grant));
    lease.into_job()
}

/// How many steps are done under a lease, what they cost, and how many of the job's are done.
fn told(lease: &Lease) -> (u32, u32, u32) {
    (lease.used(), lease.spent(), lease.done())
}

/// Twice is a lease of a job ended with steps left.
#[test]
fn a_job_keeps_what_is_done(rt: HostRuntime) -> Result<(), Fail> {
    let spec = spec_of(rt.alloc(), "invert", COLUMN)?;
    let job = job_of(rt.alloc(), &spec, b"FRAME", UP)?;
    keeps_what_is_done(&rt, job);
    Ok(())
}

fn keeps_what_is_done(rt: &impl Abort, job: Job)
    requires { IsSome job.scratch }
{
    same_steps(rt, &job, 0, 5);
    let job = stepped(rt, job, 2);
    same(rt, job.done(), 2);
    let job = stepped(rt, job, 3);
    finished(rt, job, 5, UP, b"FRAME", INVERTED);
}

/// Two bands a lease: the second lease ends before its first step, and the third has the same steps to do.
#[test]
fn a_lease_without_a_step_changes_nothing(rt: HostRuntime) -> Result<(), Fail> {
    let spec = spec_of(rt.alloc(), "invert", COLUMN)?;
    let job = job_of(rt.alloc(), &spec, b"FRAME", UP)?;
    keeps_its_steps(&rt, job);
    Ok(())
}

fn keeps_its_steps(rt: &impl Abort, job: Job)
    requires { IsSome job.scratch }
{
    let job = stepped(rt, job, 2);
    same_steps(rt, &job, 2, 5);
    let lease = Lease::new(job, 0, 0, 2);
    same(rt, told(&lease), (0, 0, 2));
    let job = lease.into_job();
    same(rt, job.done(), 2);
    let job = stepped(rt, job, 2);
    same(rt, job.done(), 4);
}

#[test]
fn a_lease_tells_what_it_is(rt: HostRuntime) -> Result<(), Fail> {
    let spec = spec_of(rt.alloc(), "blur:2+hflip", COLUMN)?;
    let job = job_of(rt.alloc(), &spec, b"FRAME Ip", &[5; 10])?;
    tells_what_it_is(&rt, job);
    Ok(())
}

fn tells_what_it_is(rt: &impl Abort, job: Job)
    requires { IsSome job.scratch }
{
    same_steps(rt, &job, 0, 10);
    let mut lease = Lease::new(job, 6, 70, 7);
    let names = (lease.stream(), lease.number(), lease.granted());
    same(rt, names, (6, 70, 7));
    same_frame(rt, lease.source(), b"FRAME Ip", &[5; 10]);
    same(rt, lease.spec().chain().cost(), 20);
    same(rt, (lease.step(), told(&lease)), (Ok(()), (1, 3, 1)));
    for _ in 0..5 {
        same(rt, lease.step(), Ok(()));
    }
    same(rt, told(&lease), (6, 16, 6));
    same(rt, lease.into_job().done(), 6);
}

/// Six of ten steps are done under a lease. The others are done under the next, and finish the frame.
#[test]
fn a_lease_reports_what_is_done_under_it(rt: HostRuntime) -> Result<(), Fail> {
    let spec = spec_of(rt.alloc(), "blur:2+hflip", COLUMN)?;
    let job = job_of(rt.alloc(), &spec, b"FRAME", &[5; 10])?;
    reports_what_is_done(&rt, job);
    Ok(())
}

fn reports_what_is_done(rt: &impl Abort, job: Job)
    requires { IsSome job.scratch }
{
    same_steps(rt, &job, 0, 10);
    let job = reported(rt, Lease::new(job, 6, 70, 7), 6, report_of(6, 16, false));
    same_steps(rt, &job, 6, 10);
    let job = reported(rt, Lease::new(job, 6, 70, 4), 4, report_of(4, 4, true));
    same_steps(rt, &job, 10, 10);
}

/// The report of frame 70 of stream 6.
fn report_of(bands: u32, units: u32, is_finished: bool) -> LeaseReport {
    LeaseReport {
        stream: 6,
        number: 70,
        bands,
        units,
        is_finished,
    }
}

/// Does so many steps under a lease, and compares what it reports then.
fn reported(rt: &impl Abort, lease: Lease, steps: u32, want: LeaseReport) -> Job
    ensures { IsSome result.scratch }
{
    let mut lease = lease;
    for _ in 0..steps {
        same(rt, lease.step(), Ok(()));
    }
    same(rt, lease.report(), want);
    lease.into_job()
}

/// A frame's line and samples, and its image's.
type Filtered = (&'static [u8], &'static [u8], &'static [u8]);

/// Filters frames in turn by the same scratch, and compares their images.
fn filter(
    rt: &impl Abort,
    alloc: Global,
    spec: &Arc<JobSpec>,
    frames: &[Filtered],
) -> Result<(), Fail> {
    let mut scratch = Scratch::new(alloc, spec)?;
    for frame in frames {
        scratch = filtered(rt, alloc, spec, scratch, *frame)?;
    }
    Ok(())
}

/// Filters a frame by as many leases as it has steps, compares its image, and gives the scratch back.
fn filtered(
    rt: &impl Abort,
    alloc: Global,
    spec: &Arc<JobSpec>,
    scratch: Scratch,
    frame: Filtered,
) -> Result<Scratch, Fail>
    requires { IsScratch (arc_value spec.now) scratch }
    ensures { IfOk result (IsScratch (arc_value spec.now)) }
{
    let (line, samples, image) = frame;
    let mut job = started(alloc, spec, scratch, line, samples)?;
    let steps = job.steps();
    for _ in 0..steps {
        job = stepped(rt, job, 1);
    }
    Ok(finished(rt, job, steps, samples, line, image))
}

/// The blur of 0 and 90 is 30 and 60, that of 9 and 0 is 6 and 3.
const IN_TURN: &[Filtered] = &[
    (b"FRAME", &[0, 90], &[60, 30]),
    (b"FRAME Ip", &[9, 0], &[3, 6]),
    (b"FRAME", &[0, 90], &[60, 30]),
];

#[test]
fn frames_in_turn_have_the_images_that_each_has_alone(rt: HostRuntime) -> Result<(), Fail> {
    let spec = spec_of(rt.alloc(), "blur:1+vflip", PAIR)?;
    filter(&rt, rt.alloc(), &spec, IN_TURN)
}

const TURNED: &[Filtered] = &[(
    b"FRAME",
    UP,
    &[0xF6, 0xF7, 0xF8, 0xF9, 0xFA, 0xFB, 0xFC, 0xFD, 0xFE, 0xFF],
)];

/// One step of the first operation and one of the second have their bands of 2 rows each.
#[test]
fn each_step_writes_its_own_band(rt: HostRuntime) -> Result<(), Fail> {
    let spec = spec_of(rt.alloc(), "invert+vflip", COLUMN)?;
    filter(&rt, rt.alloc(), &spec, TURNED)
}

/// With and without want of memory.
#[test]
fn a_refused_frame_comes_back(rt: HostRuntime) -> Result<(), Fail> {
    let alloc = rt.alloc();
    let spec = spec_of(alloc, "invert", PAIR)?;
    wide_comes_back(&rt, alloc, &spec)?;
    waits_or_comes_back(&rt, alloc, &spec)
}

fn wide_comes_back(rt: &impl Abort, alloc: Global, spec: &Arc<JobSpec>) -> Result<(), Fail> {
    let wide = source_of(alloc, WIDE, b"FRAME", &[1, 2])?;
    match Job::new(alloc, spec.clone()?, wide) {
        Err(JobRefused::WrongSize(source)) => same_list(rt, source.data(), &[1, 2]),
        Err(JobRefused::NoMemory(_source)) => fails(rt, "the size comes first"),
        Ok(_job) => fails(rt, "accepted"),
    }
    Ok(())
}

fn waits_or_comes_back(rt: &impl Abort, alloc: Global, spec: &Arc<JobSpec>) -> Result<(), Fail> {
    let source = source_of(alloc, PAIR, b"FRAME Ip", &[3, 4])?;
    match Job::new(alloc, spec.clone()?, source) {
        Err(JobRefused::WrongSize(_source)) => fails(rt, "the size is right"),
        Err(JobRefused::NoMemory(source)) => same_frame(rt, &source, b"FRAME Ip", &[3, 4]),
        Ok(job) => same_steps(rt, &job, 0, 1),
    }
    Ok(())
}

#[test]
fn a_refused_image_comes_back(rt: HostRuntime) -> Result<(), Fail> {
    let alloc = rt.alloc();
    let spec = spec_of(alloc, "invert", PAIR)?;
    wide_and_image_come_back(&rt, alloc, &spec)?;
    waits_or_both_come_back(&rt, alloc, &spec)
}

fn wide_and_image_come_back(
    rt: &impl Abort,
    alloc: Global,
    spec: &Arc<JobSpec>,
) -> Result<(), Fail> {
    let wide = source_of(alloc, WIDE, b"FRAME", &[1, 2])?;
    let image = image_of(alloc, spec, b"FRAME", &[8, 9])?;
    match Job::over(alloc, spec.clone()?, wide, image) {
        Err(OverRefused::WrongSize(source, image)) => {
            same_list(rt, source.data(), &[1, 2]);
            same_list(rt, image.data(), &[8, 9]);
        }
        Err(OverRefused::NoMemory(_source, _image)) => fails(rt, "the size comes first"),
        Ok(_job) => fails(rt, "accepted"),
    }
    Ok(())
}

fn waits_or_both_come_back(
    rt: &impl Abort,
    alloc: Global,
    spec: &Arc<JobSpec>,
) -> Result<(), Fail> {
    let source = source_of(alloc, PAIR, b"FRAME Ip", &[3, 4])?;
    let image = image_of(alloc, spec, b"FRAME It", &[8, 9])?;
    match Job::over(alloc, spec.clone()?, source, image) {
        Err(OverRefused::WrongSize(_source, _image)) => fails(rt, "the size is right"),
        Err(OverRefused::NoMemory(source, image)) => {
            same_list(rt, source.data(), &[3, 4]);
            same_frame(rt, &image, b"FRAME It", &[8, 9]);
        }
        Ok(job) => same_steps(rt, &job, 0, 1),
    }
    Ok(())
}

/// A job over an image of this line, and samples that it doesn't keep.
fn job_over(alloc: Global, spec: &Arc<JobSpec>, line: &[u8]) -> Result<Job, Fail>
    ensures chain { IfOk result (λ job. job.chain ≡ arc_value spec.now) }
    ensures waiting { IfOk result (λ job. job.scratch ≡ None) }
{
    let image = image_of(alloc, spec, line, &[200, 100])?;
    let source = source_of(alloc, PAIR, b"FRAME Ip", &[9, 0])?;
    Ok(Job::over(alloc, spec.clone()?, source, image)?)
}

/// The samples of the image that is written over don't matter, but its line is its frame's.
#[test]
fn a_job_over_an_image_makes_its_own(rt: HostRuntime) -> Result<(), Fail> {
    let spec = spec_of(rt.alloc(), "blur:1+vflip", PAIR)?;
    let scratch = Scratch::new(rt.alloc(), &spec)?;
    let mut job = job_over(rt.alloc(), &spec, b"FRAME")?;
    job.start(scratch);
    let job = stepped(&rt, job, 1);
    let job = stepped(&rt, job, 1);
    finished(&rt, job, 2, &[9, 0], b"FRAME Ip", &[3, 6]);
    Ok(())
}

/// It holds with each growth refused from the call on.
#[test]
fn an_image_of_an_equal_line_takes_no_memory(rt: HostRuntime) -> Result<(), Fail> {
    let alloc = rt.alloc();
    let spec = spec_of(alloc, "invert", PAIR)?;
    let source = source_of(alloc, PAIR, b"FRAME Ip", &[9, 0])?;
    let image = image_of(alloc, &spec, b"FRAME Ip", &[200, 100])?;
    match Job::over(alloc, spec, source, image) {
        Err(_refused) => fails(&rt, "a growth was asked for"),
        Ok(job) => {
            let (source, image) = job.undo();
            same_list(&rt, source.data(), &[9, 0]);
            same_list(&rt, image.data(), &[200, 100]);
        }
    }
    Ok(())
}

/// The band of two rows is halved and the one of a single row isn't, also where no thread is granted:
/// `bench/threads` refuses it.
#[test]
fn a_halved_band_is_noted_twice(rt: HostRuntime) -> Result<(), Fail> {
    let spec = spec_of(rt.alloc(), "invert", TRIPLE)?;
    let job = job_of(rt.alloc(), &spec, b"FRAME", &[0, 1, 2])?;
    notes_twice(&rt, job);
    Ok(())
}

fn notes_twice<T: Threads + Abort>(rt: &T, job: Job)
    requires { IsSome job.scratch }
{
    let parts = Parts::new();
    let note = |half: u32| parts.begin(half);
    same_steps(rt, &job, 0, 2);
    let mut lease = Lease::new(job, 0, 0, 2);
    for used in 0..2 {
        let step = (lease.used(), lease.step_halves(rt, &note), parts.begun());
        same(rt, step, (used, Ok(()), (1, 1)));
    }
    same(rt, lease.step_halves(rt, &note), Err(GrantSpent));
    same(rt, (lease.used(), lease.spent()), (2, 2));
    finished(
        rt,
        lease.into_job(),
        2,
        &[0, 1, 2],
        b"FRAME",
        &[0xFF, 0xFE, 0xFD],
    );
}

/// Neither part is written before both are noted, so one thread alone would meet the other at one part only.
#[test]
fn two_threads_write_the_parts_of_a_step(rt: HostRuntime) -> Result<(), Fail> {
    let spec = spec_in_bands(rt.alloc(), "invert", QUADRUPLE, 4)?;
    let job = job_of(rt.alloc(), &spec, b"FRAME", &[1, 2, 3, 4])?;
    parts_meet(&rt, job);
    Ok(())
}

fn parts_meet<T: Threads + Abort>(rt: &T, job: Job)
    requires { IsSome job.scratch }
{
    let parts = Parts::new();
    same_steps(rt, &job, 0, 1);
    let mut lease = Lease::new(job, 0, 0, 1);
    same(rt, lease.step_halves(rt, &|half| parts.meet(half)), Ok(()));
    same_at(rt, parts.met(), 2, "was a thread or its memory refused?");
    finished(
        rt,
        lease.into_job(),
        1,
        &[1, 2, 3, 4],
        b"FRAME",
        &[254, 253, 252, 251],
    );
}
