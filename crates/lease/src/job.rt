//! A frame with what was made of it by now.
use crate::halves::halve_step;
use crate::job_spec::JobSpec;
use crate::refused::{JobRefused, OverRefused};
use crate::scratch::Scratch;
use crate::step::do_step;
use filters::MOST_COST;
use frame_view::Frame;
use row_bands::Canvas;
use std::alloc::Global;
use std::marker::Model;
use std::sync::Arc;
use std::thread::Threads;

/// A frame that is filtered step by step, and keeps what is done.
///
/// It has the canvas of the last operation from the beginning, which becomes the image. Those of the
/// operations before it come with the scratch when the job starts, and go when the image is taken.
#[derive(Drop)]
pub struct Job {
    spec: Arc<JobSpec>,
    source: Arc<Frame>,
    scratch: Option<Scratch>,
    canvas: Canvas,
    done: u32,
}

impl Model for Job {
    ghost use Rattle.lease.specs.Job.{JobValue, IsJob};

    ghost Value = { JobValue };

    ghost use Rattle.lease.specs.JobInside.{job_of};

    ghost view = { job_of };

    ghost invariant = { λ a. IsJob (job_of a) };
}

impl Job {
    ghost use Rattle.std.specs.Prelude.{◌≡◌, ◌≢◌, ◌<◌, ◌≤◌, ◌↔◌, length, slice_get};
    ghost use Rattle.std.specs.Prelude.{Some, None, IsSome, IfOk, IfErr, IsErrOf};
    ghost use Rattle.std.specs.Arc.{arc_value};
    ghost use Rattle.frame_view.specs.Frame.{line_of, samples_of};
    ghost use Rattle.row_bands.specs.Canvas.{frame_of};
    ghost use Rattle.filters.specs.Chain.{format_of, last_format};
    ghost use Rattle.filters.specs.ChainImage.{value_of, IsChainImage};
    ghost use Rattle.filters.specs.Steps.{steps_of};
    ghost use Rattle.filters.specs.Costs.{step_costs};
    ghost use Rattle.lease.specs.Canvases.{IsImageCanvas, IsScratch};
    ghost use Rattle.lease.specs.Halved.{CanHalveStep};
    ghost use Rattle.lease.specs.Job.{waiting, StepsOn};
    ghost use Rattle.lease.specs.Refused.{frame_in, frame_beside, image_in};

    /// A job that no step is done of. A refused frame comes back.
    #[tactic(auto, using(filters::proofs::ChainImages::is_frame_line))]
    pub fn new(alloc: Global, spec: Arc<JobSpec>, source: Arc<Frame>) -> Result<Job, JobRefused>
        ensures ok { IfOk result (λ job. job ≡ waiting (arc_value spec) (arc_value source) job.canvas) }
        ensures line { IfOk result (λ job. line_of (frame_of job.canvas) ≡ line_of (arc_value source)) }
        ensures fits { IfOk result (λ _. (arc_value source).geometry ≡ (arc_value spec).geometry) }
        ensures wrong_size { IsErrOf result (JobRefused.WrongSize source)
            ↔ ((arc_value source).geometry ≢ (arc_value spec).geometry) }
        ensures returns_frame { IfErr result (λ refused. frame_in refused ≡ source) }
    {
        if !spec.fits(source.geometry()) {
            return Err(JobRefused::WrongSize(source));
        }
        let canvas = Canvas::new(
            alloc,
            spec.chain().out_geometry(),
            spec.chain().band_height(),
            source.line(),
        );
        match canvas {
            Ok(canvas) => Ok(Job::of_canvas(spec, source, canvas)),
            Err(_) => Err(JobRefused::NoMemory(source)),
        }
    }

    /// A job that no step is done of, in the memory of an image that isn't needed any more. It takes memory
    /// only for the frame's line, and only where the image has another. A refused frame comes back with the
    /// image.
    #[tactic(auto, using(filters::proofs::ChainImages::is_frame_line))]
    pub fn over(
        alloc: Global,
        spec: Arc<JobSpec>,
        source: Arc<Frame>,
        image: Frame,
    ) -> Result<Job, OverRefused>
        requires { format_of image.geometry
            ≡ last_format (arc_value spec).ops (format_of (arc_value spec).geometry) }
        ensures ok { IfOk result (λ job. job ≡ waiting (arc_value spec) (arc_value source) job.canvas) }
        ensures line { IfOk result (λ job. line_of (frame_of job.canvas) ≡ line_of (arc_value source)) }
        ensures fits { IfOk result (λ _. (arc_value source).geometry ≡ (arc_value spec).geometry) }
        ensures samples { IfOk result (λ job. samples_of (frame_of job.canvas) ≡ samples_of image) }
        ensures wrong_size { IsErrOf result (OverRefused.WrongSize source image)
            ↔ ((arc_value source).geometry ≢ (arc_value spec).geometry) }
        ensures memory { IfErr result (λ _. (arc_value source).geometry ≡ (arc_value spec).geometry
            → line_of image ≢ line_of (arc_value source)) }
        ensures returns_frame { IfErr result (λ refused. frame_beside refused ≡ source) }
        ensures image_back { IfErr result (λ refused. value_of (image_in refused) ≡ value_of image) }
    {
        if !spec.fits(source.geometry()) {
            return Err(OverRefused::WrongSize(source, image));
        }
        let mut image = image;
        if image.set_line(alloc, source.line()).is_err() {
            return Err(OverRefused::NoMemory(source, image));
        }
        let canvas = Canvas::over(image, spec.chain().band_height());
        Ok(Job::of_canvas(spec, source, canvas))
    }

    fn of_canvas(spec: Arc<JobSpec>, source: Arc<Frame>, canvas: Canvas) -> Job
        requires geometry { (arc_value source).geometry ≡ (arc_value spec).geometry }
        requires canvas { IsImageCanvas (arc_value spec) canvas }
        requires line { line_of (frame_of canvas) ≡ line_of (arc_value source) }
        ensures { result ≡ waiting (arc_value spec) (arc_value source) canvas }
    {
        Job {
            spec,
            source,
            scratch: None,
            canvas,
            done: 0,
        }
    }

    /// Gives the job the canvases between its operations, whatever stands in them.
    pub fn start(&mut self, scratch: Scratch)
        requires waiting { self.old.scratch ≡ None }
        requires scratch { IsScratch self.old.chain scratch }
        ensures { self.new ≡ record self.old { scratch = Some scratch } }
    {
        self.scratch = Some(scratch);
    }

    /// Takes a job that hasn't started apart: its frame, and the memory of its image.
    pub fn undo(self) -> (Arc<Frame>, Frame)
        requires { self.scratch ≡ None }
        ensures source { arc_value result.0 ≡ self.source }
        ensures image { result.1 ≡ frame_of self.canvas }
        ensures format { format_of result.1.geometry
            ≡ last_format self.chain.ops (format_of self.chain.geometry) }
        ensures line { line_of result.1 ≡ line_of self.source }
    {
        let Job { source, canvas, .. } = self;
        (source, canvas.into_frame())
    }

    /// All steps of the job.
    pub fn steps(&self) -> u32
        ensures value { result ≡ steps_of self.now.chain }
        ensures costs { length (step_costs self.now.chain) ≡ result }
        ensures positive { 1 ≤ result }
        ensures within_limit { result ≤ MOST_COST }
    {
        self.spec.chain().steps()
    }

    /// The steps that are done.
    pub fn done(&self) -> u32
        ensures value { result ≡ self.now.done }
        ensures within { result ≤ steps_of self.now.chain }
    {
        self.done
    }

    /// The source, its image by the chain, and the scratch, for the next job.
    pub fn into_image(self) -> (Arc<Frame>, Frame, Scratch)
        requires { self.done ≡ steps_of self.chain }
        ensures source { arc_value result.0 ≡ self.source }
        ensures image { IsChainImage self.chain.ops (value_of self.source) (value_of result.1) }
        ensures format { format_of result.1.geometry
            ≡ last_format self.chain.ops (format_of self.chain.geometry) }
        ensures scratch { self.scratch ≡ Some result.2 }
        ensures fits { IsScratch self.chain result.2 }
    {
        prove!(self.steps() > 0);
        let Job {
            source,
            scratch,
            canvas,
            ..
        } = self;
        let Some(scratch) = scratch else {
            unreachable!()
        };
        let image = canvas.into_frame();
        (source, image, scratch)
    }

    pub(crate) fn spec(&self) -> &JobSpec
        ensures { result.now ≡ self.now.chain }
    {
        &self.spec
    }

    pub(crate) fn source(&self) -> &Frame
        ensures { result.now ≡ self.now.source }
    {
        &self.source
    }

    /// What the next step costs.
    pub(crate) fn next_cost(&self) -> u32
        requires { self.now.done < steps_of self.now.chain }
        ensures value { slice_get (step_costs self.now.chain) self.now.done ≡ Some result }
        ensures within_limit { result ≤ 9 }
    {
        self.spec.chain().cost_of_step(self.done)
    }

    /// Does the next step.
    pub(crate) fn step(&mut self)
        requires started { IsSome self.old.scratch }
        requires left { self.old.done < steps_of self.old.chain }
        ensures step { StepsOn self.old self.new }
        ensures started { IsSome self.new.scratch }
    {
        prove!(self.done < self.steps());
        let Some(scratch) = &mut self.scratch else {
            unreachable!()
        };
        do_step(
            self.spec.chain(),
            self.done,
            &self.source,
            &mut scratch.canvases,
            &mut self.canvas,
        );
        self.done += 1;
    }

    /// Does the next step, by two threads where its band can be halved.
    pub(crate) fn step_halves<R: Threads, N: Fn(u32) + Sync>(&mut self, rt: &R, note: &N)
        requires callable { N.pre note.now 0 × N.pre note.now 1 }
        requires started { IsSome self.old.scratch }
        requires left { self.old.done < steps_of self.old.chain }
        ensures step { StepsOn self.old self.new }
        ensures started { IsSome self.new.scratch }
        ensures noted { CanHalveStep self.old.chain self.old.done
            → N.post note.now 0 tt × N.post note.now 1 tt }
    {
        prove!(self.done < self.steps());
        let Some(scratch) = &mut self.scratch else {
            unreachable!()
        };
        halve_step(
            rt,
            self.spec.chain(),
            self.done,
            &self.source,
            &mut scratch.canvases,
            &mut self.canvas,
            note,
        );
        self.done += 1;
    }
}
