// The last COST.
ghost use Rattle.std.specs.Prelude.{◌≡◌, List, Float};
ghost use Rattle.std.specs.Float.{binary64};
ghost use Rattle.machine.specs.InnerMoves.{last_cost};
ghost use Rattle.panoc_engine.specs.Runs.{run_of, ended};

use crate::outcome::Refusal;
use crate::panoc_cache::{Outcome, Solve, SolverStatus};

// The last COST is x: the solve ends, and the plan stays in the best half step.
#[tactic(auto, using(crate::proofs::Steps::last_cost_stops, crate::proofs::Steps::last_cost_ends))]
pub fn on_last_cost(x: f64, s: Solve) -> Outcome
    ensures { (l : List Float) → ended s result l ≡ last_cost binary64 x (run_of s l) }
{
    if !numeric::is_finite(x) {
        return Outcome::Refused(Refusal::LastCost);
    }
    Outcome::Ended(SolverStatus {
        exit_status: s.counts.status,
        iterations: s.counts.iterations,
        norm_fpr: s.norms.best_norm_gamma_fpr,
        cost_value: x,
    })
}
