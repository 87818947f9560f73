//! The canvases between the operations of a chain.
use crate::job_spec::JobSpec;
use row_bands::Canvas;
use std::alloc::{AllocError, Global};
use std::marker::Model;

/// The canvases of all operations of a chain but the last, for one frame at a time. Any bytes may stand in
/// them when a job starts, so one scratch serves all frames of a stream.
#[derive(Drop)]
pub struct Scratch {
    pub(crate) canvases: Vec<Canvas>,
}

impl Model for Scratch {
    ghost use Rattle.std.specs.Prelude.{List};
    ghost use Rattle.row_bands.specs.declared.canvas.Canvas.{Canvas};

    ghost Value = { List Canvas };

    ghost view = { λ scratch. scratch.canvases.items };
}

impl Scratch {
    ghost use Rattle.std.specs.Prelude.{IfOk};
    ghost use Rattle.lease.specs.Canvases.{IsScratch};

    /// The canvases that a job of this spec needs beside its own.
    pub fn new(alloc: Global, spec: &JobSpec) -> Result<Scratch, AllocError>
        ensures { IfOk result (IsScratch spec.now) }
    {
        let chain = spec.chain();
        let count = chain.ops().len() - 1;
        let mut canvases = Vec::with_capacity(alloc, count)?;
        for i in 0..count {
            let geometry = chain.geometry_after(i + 1);
            let canvas = Canvas::new(alloc, geometry, chain.band_height(), b"FRAME")?;
            canvases.push(canvas)?;
        }
        Ok(Scratch { canvases })
    }
}
