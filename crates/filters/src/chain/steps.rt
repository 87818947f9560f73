//! The steps of a frame, and what they cost.
ghost use Rattle.std.specs.Prelude.{◌≡◌, ◌<◌, ◌≤◌, ◌+◌, Some, length, slice_get};
ghost use Rattle.frame_view.specs.declared.geometry.Geometry.{Geometry};
ghost use Rattle.row_bands.specs.Bands.{band_count};
ghost use Rattle.filters.specs.Chain.{format_of, format_at};
ghost use Rattle.filters.specs.Steps.{IsStep, counts_of, steps_of};
ghost use Rattle.filters.specs.Costs.{IsRun, cost_of, step_costs};

use crate::chain::Chain;
use crate::chain::plan::op_of_step;
use crate::limits::{MOST_BAND_COST, MOST_COST, MOST_OPS};
use row_bands::BandPlan;

/// Steps of one operation that follow one another: how many there are, and what each of them costs.
#[derive(Clone, Copy, Debug, PartialEq, Eq)]
pub struct StepRun {
    pub count: u32,
    pub cost: u32,
}

impl Chain {
    /// The steps of a frame, 1 to 32,768.
    pub fn steps(&self) -> u32
        ensures value { result ≡ steps_of self.now }
        ensures costs { length (step_costs self.now) ≡ result }
        ensures positive { 1 ≤ result }
        ensures within_limit { result ≤ MOST_COST }
    {
        self.steps
    }

    /// What all steps of a frame cost, in units: at least one for each step, and at most 32,768.
    pub fn cost(&self) -> u32
        ensures value { result ≡ cost_of self.now }
        ensures unit_per_step { steps_of self.now ≤ result }
        ensures within_limit { result ≤ MOST_COST }
    {
        self.cost
    }

    /// The operation and the band of step `k`, each counted from 0.
    pub fn op_of_step(&self, k: u32) -> (usize, usize)
        requires { k < steps_of self.now }
        ensures step { IsStep (counts_of self.now) k result.0 result.1 }
        ensures op { result.0 < length self.now.ops }
        ensures op_within_limit { result.0 < MOST_OPS }
        ensures band { (output : Geometry) → format_of output ≡ format_at self.now (result.0 + 1)
            → result.1 < band_count output self.now.band_height.rows }
    {
        op_of_step(&self.outputs, self.band_height, k)
    }

    /// What step `k` costs, in units: a band of a blur of radius r costs 1 + r, any other band 1.
    pub fn cost_of_step(&self, k: u32) -> u32
        requires { k < steps_of self.now }
        ensures value { slice_get (step_costs self.now) k ≡ Some result }
        ensures positive { 1 ≤ result }
        ensures within_limit { result ≤ MOST_BAND_COST }
    {
        self.run_of_step(k).cost
    }

    /// The steps from `k` on to the last of the same operation.
    pub fn run_of_step(&self, k: u32) -> StepRun
        requires { k < steps_of self.now }
        ensures run { IsRun self.now k result }
        ensures positive_cost { 1 ≤ result.cost }
        ensures cost_within_limit { result.cost ≤ MOST_BAND_COST }
    {
        let (op, band) = self.op_of_step(k);
        let bands = BandPlan::new(self.geometry_after(op + 1), self.band_height).count();
        StepRun {
            count: (bands - band) as u32,
            cost: self.op(op).cost(),
        }
    }
}
