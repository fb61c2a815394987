// The last COST.
ghost use Rattle.std.specs.Prelude.{◌≡◌, List, Float};
ghost use Rattle.model.specs.Loop as L;
ghost use Rattle.machine.specs.LoopMoves.{last_cost};
ghost use Rattle.alm_engine.specs.Values.{loop_settings_of};
ghost use Rattle.alm_engine.specs.LoopRuns.{loop_run, loop_ended};

use crate::alm_cache::{Alm, AlmOptimizerStatus, AlmOutcome};
use panoc_engine::outcome::Refusal;

// c, 0 where xi is empty.
#[tactic(auto, using(crate::proofs::Ends::penalty_empty, crate::proofs::Ends::penalty_there))]
pub fn penalty_of(s: Alm) -> f64
    ensures { result ≡ L.penalty_of (loop_settings_of s.set) s.numbers.penalty }
{
    if s.set.n1 == 0 && s.set.n2 == 0 {
        0.0
    } else {
        s.numbers.penalty
    }
}

// The last COST is x, taken unchecked: the loop ends, the plan stays in u and the multipliers in y_plus.
#[tactic(auto, using(crate::proofs::Ends::last_delta, crate::proofs::Ends::last_norm, crate::proofs::Ends::last_gives))]
pub fn on_last_cost(x: f64, s: Alm) -> AlmOutcome
    ensures { (l : List Float) → loop_ended s result l ≡ last_cost x (loop_run s l) }
{
    if s.numbers.delta_y_norm.is_nan() || s.numbers.f2_norm.is_nan() {
        return AlmOutcome::Refused(Refusal::Infeasibility);
    }
    AlmOutcome::Ended(AlmOptimizerStatus {
        exit_status: s.counts.status,
        num_outer_iterations: s.counts.outer,
        num_inner_iterations: s.counts.inner,
        last_problem_norm_fpr: s.numbers.norm_fpr,
        delta_y_norm: s.numbers.delta_y_norm,
        f2_norm: s.numbers.f2_norm,
        penalty: penalty_of(s),
        cost: x,
    })
}
