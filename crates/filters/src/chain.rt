//! Operations that follow one another.
pub mod canvases;
mod front;
mod images;
mod plan;
pub mod steps;

ghost use Rattle.std.specs.Prelude.{◌≡◌, ◌≢◌, ◌≤◌, IfOk, IfErr, IsErrOf, length};
ghost use Rattle.frame_view.specs.declared.geometry.Geometry.{Geometry};
ghost use Rattle.filters.specs.declared.error.FilterError.{FilterError};
ghost use Rattle.filters.specs.Chain.{IsChainLength, chain_of};
ghost use Rattle.filters.specs.Steps.{steps_of};
ghost use Rattle.filters.specs.Costs.{cost_of};
ghost use Rattle.filters.specs.Refusal.{IsChain, IsChainRefusedAs};

use crate::chain::plan::{Totals, outputs_of, totals_of};
use crate::error::FilterError;
use crate::limits::{MOST_COST, MOST_OPS};
use crate::op::Op;
use crate::op::facts::{has_good_radius, is_crop};
use frame_view::Geometry;
use row_bands::BandHeight;
use std::alloc::Global;
use std::marker::Model;

/// One to eight operations, for frames of one geometry, in bands of one height.
///
/// They are applied in order, each to the whole image that the one before it made. A step is one band of
/// one operation's output; the steps of a frame are numbered from 0, operation by operation and from the top
/// down.
#[derive(Debug, Drop)]
pub struct Chain {
    ops: Vec<Op>,
    geometry: Geometry,
    band_height: BandHeight,
    outputs: Vec<Geometry>,
    steps: u32,
    cost: u32,
}

impl Model for Chain {
    ghost use Rattle.filters.specs.Chain.{ChainValue};

    ghost Value = { ChainValue };

    ghost use Rattle.filters.specs.ChainInside.{IsKeptChain, kept_chain};

    ghost view = { kept_chain };

    ghost invariant = { IsKeptChain };
}

/// What a frame takes, where the operations make a chain.
fn check_chain(
    ops: &[Op],
    geometry: Geometry,
    band_height: BandHeight,
) -> Result<Totals, FilterError>
    ensures is_chain { IfOk result (λ _. IsChain (chain_of ops.now geometry band_height)) }
    ensures steps { IfOk result (λ totals. totals.steps ≡ steps_of (chain_of ops.now geometry band_height)) }
    ensures cost { IfOk result (λ totals. totals.cost ≡ cost_of (chain_of ops.now geometry band_height)) }
    ensures some_steps { IfOk result (λ totals. 1 ≤ totals.steps) }
    ensures refused { IfErr result (λ e. IsChainRefusedAs e (chain_of ops.now geometry band_height)) }
    ensures never_no_memory { IfErr result (λ e. e ≢ FilterError.NoMemory) }
{
    if !ops.iter().all(has_good_radius) {
        return Err(FilterError::BadOp);
    }
    if ops.is_empty() || ops.len() > MOST_OPS {
        return Err(FilterError::TooManyOps);
    }
    let totals = totals_of(ops, geometry, band_height).ok_or(FilterError::BadCrop)?;
    if totals.cost > MOST_COST {
        return Err(FilterError::TooManySteps);
    }
    Ok(totals)
}

impl Chain {
    ghost use Rattle.std.specs.Prelude.{◌<◌, ◌+◌, Some, slice_get};
    ghost use Rattle.std.specs.List.{list_any};
    ghost use Rattle.filters.specs.Ops.{HasGoodRadius, IsDoable, is_crop};
    ghost use Rattle.filters.specs.Chain.{IsImageGeometry, format_of, format_at, last_format};

    /// The chain of these operations. `NoMemory` is answered where they make a chain, and the memory for the
    /// sizes of its images is refused; the operations are let go with each refusal. Each refusal comes only
    /// where it is the first that holds, and there always; but for want of memory.
    pub fn new(
        alloc: Global,
        ops: Vec<Op>,
        geometry: Geometry,
        band_height: BandHeight,
    ) -> Result<Chain, FilterError>
        ensures ok { IfOk result (λ chain. chain ≡ chain_of ops.items geometry band_height) }
        ensures is_chain { IfOk result IsChain }
        ensures refused { IfErr result (λ e. IsChainRefusedAs e (chain_of ops.items geometry band_height)) }
        ensures each { (e : FilterError) → e ≢ FilterError.NoMemory
            → IsChainRefusedAs e (chain_of ops.items geometry band_height) → IsErrOf result e }
    {
        let totals = check_chain(&ops, geometry, band_height)?;
        let outputs = outputs_of(alloc, &ops, geometry)?;
        Ok(Chain {
            ops,
            geometry,
            band_height,
            outputs,
            steps: totals.steps,
            cost: totals.cost,
        })
    }

    /// What every chain keeps. It does nothing: proofs about a chain that was made elsewhere ask for this.
    pub fn recall_is_chain(&self)
        ensures { ∥ IsChain self.now ∥₁ }
    {
        let _steps = self.steps;
    }

    /// The operations, in order.
    pub fn ops(&self) -> &[Op]
        ensures value { result.now ≡ self.now.ops }
        ensures count { IsChainLength (length result.now) }
    {
        &self.ops
    }

    /// That of the frames that the chain was made for.
    pub fn geometry(&self) -> Geometry
        ensures { result ≡ self.now.geometry }
    {
        self.geometry
    }

    /// That of the images.
    pub fn out_geometry(&self) -> Geometry
        ensures { format_of result ≡ last_format self.now.ops (format_of self.now.geometry) }
    {
        self.geometry_after(self.ops.len())
    }

    /// That of the image after so many operations: it is the output of the last of these, and reaches the
    /// operation after them.
    pub fn geometry_after(&self, count: usize) -> Geometry
        requires { count ≤ length self.now.ops }
        ensures { format_of result ≡ format_at self.now count }
    {
        if count == 0 {
            return self.geometry;
        }
        self.outputs[count - 1]
    }

    /// How many rows of luma a band of its images has.
    pub fn band_height(&self) -> BandHeight
        ensures { result ≡ self.now.band_height }
    {
        self.band_height
    }

    /// The operation with this number, from 0. It can be done on what the operations before it make.
    pub fn op(&self, i: usize) -> Op
        requires { i < length self.now.ops }
        ensures value { slice_get self.now.ops i ≡ Some result }
        ensures radius { HasGoodRadius result }
        ensures doable { (g : Geometry) → format_of g ≡ format_at self.now i → IsDoable result g }
        ensures image { (g image : Geometry) → format_of g ≡ format_at self.now i
            → format_of image ≡ format_at self.now (i + 1) → IsImageGeometry result g image }
    {
        self.ops[i]
    }

    /// Whether the chain holds a crop, so that its images may have another size than its frames.
    pub fn has_crop(&self) -> bool
        ensures { result ≡ list_any is_crop self.now.ops }
    {
        self.ops.iter().any(is_crop)
    }
}
