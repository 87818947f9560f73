//! The steps of a frame, and the geometries between the operations.
ghost use Rattle.std.specs.Prelude.{◌≡◌, ◌≤◌, ◌<◌, ◌↔◌, ◌+◌, length, sum, IsSome, IfSome, IfOk};
ghost use Rattle.filters.specs.Chain.{AreDoable};
ghost use Rattle.filters.specs.Steps.{step_count, IsStep};
ghost use Rattle.filters.specs.Costs.{costs_by};
ghost use Rattle.filters.specs.ChainOutputs.{AreOutputs, output_counts};

use crate::limits::MOST_OPS;
use crate::op::Op;
use crate::op::facts::{is_doable, output_of};
use frame_view::Geometry;
use row_bands::{BandHeight, BandPlan};
use std::alloc::{AllocError, Global};

/// What a frame takes: how many steps, and what they cost together.
#[derive(Clone, Copy)]
pub struct Totals {
    pub steps: u32,
    pub cost: u32,
}

/// The totals of a frame, if each operation can be done on the frame that reaches it.
pub fn totals_of(ops: &[Op], geometry: Geometry, band_height: BandHeight) -> Option<Totals>
    requires { length ops.now ≤ MOST_OPS }
    ensures doable { IsSome result ↔ AreDoable ops.now geometry }
    ensures steps { IfSome result (λ totals.
        totals.steps ≡ step_count ops.now geometry.height band_height.rows) }
    ensures cost { IfSome result (λ totals.
        totals.cost ≡ sum (costs_by ops.now geometry.height band_height.rows)) }
    ensures step_per_op { IfSome result (λ totals. length ops.now ≤ totals.steps) }
{
    let mut reached = geometry;
    let mut steps = 0;
    let mut cost = 0;
    for op in ops {
        if !is_doable(*op, reached) {
            return None;
        }
        reached = output_of(*op, reached);
        let bands = BandPlan::new(reached, band_height).count() as u32;
        steps += bands;
        cost += bands * op.cost();
    }
    Some(Totals { steps, cost })
}

/// The geometry after each operation, in order.
pub fn outputs_of(
    alloc: Global,
    ops: &[Op],
    geometry: Geometry,
) -> Result<Vec<Geometry>, AllocError>
    requires { AreDoable ops.now geometry }
    ensures { IfOk result (λ outputs. AreOutputs ops.now geometry outputs.items) }
{
    let mut outputs = Vec::with_capacity(alloc, ops.len())?;
    let mut reached = geometry;
    for op in ops {
        reached = output_of(*op, reached);
        outputs.push(reached)?;
    }
    Ok(outputs)
}

/// The operation and the band of step `k`, where these are the geometries after each operation.
pub fn op_of_step(outputs: &[Geometry], band_height: BandHeight, k: u32) -> (usize, usize)
    requires { k < sum (output_counts outputs.now band_height.rows) }
    ensures { IsStep (output_counts outputs.now band_height.rows) k result.0 result.1 }
{
    let mut band = k as usize;
    for (op, output) in outputs.iter().enumerate() {
        let bands = BandPlan::new(*output, band_height).count();
        if band < bands {
            return (op, band);
        }
        band -= bands;
    }
    unreachable!()
}
