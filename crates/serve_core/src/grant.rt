//! How many bands a lease grants.
ghost use Rattle.std.specs.Prelude.{◌≡◌, ◌≤◌, drop};
ghost use Rattle.filters.specs.Costs.{step_costs};
ghost use Rattle.filters.specs.Steps.{steps_of};
ghost use Rattle.serve_core.specs.Grants as rules;

use filters::Chain;

/// The bands that a lease grants where `done` are done: as many as the quantum allows and the budget pays
/// for, but at least one.
#[tactic(auto, using(crate::proofs::Bands::Grants::paid_left))]
pub(crate) fn grant_of(chain: &Chain, quantum: u64, budget: u64, done: u32) -> u32
    requires { done ≤ steps_of chain.now }
    ensures { result ≡ rules.grant_of quantum budget (drop done (step_costs chain.now)) }
{
    let _recalled = chain.steps();
    paid_count(chain, quantum, budget, done).max(1) as u32
}

/// How many of the steps from `done` on, at most `most`, the budget pays for. The steps of one operation cost
/// the same, so each turn passes one.
fn paid_count(chain: &Chain, most: u64, budget: u64, done: u32) -> u64
    requires { done ≤ steps_of chain.now }
    ensures { result ≡ rules.paid_count most budget (drop done (step_costs chain.now)) }
{
    let mut k = done;
    let mut most = most;
    let mut budget = budget;
    let mut paid = 0;
    while k < chain.steps() {
        let run = chain.run_of_step(k);
        let (count, cost) = (run.count as u64, run.cost as u64);
        let fitting = count.min(most).min(budget / cost);
        paid += fitting;
        if fitting < count {
            return paid;
        }
        most -= count;
        budget -= count * cost;
        k += run.count;
    }
    paid
}
