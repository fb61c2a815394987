// The move of the first step, to the half step.
ghost use Rattle.std.specs.Prelude.{◌≡◌, List, Float, length};
ghost use Rattle.std.specs.Float.{binary64};
ghost use Rattle.machine.specs.InnerMoves.{first_cost, first_gradient};
ghost use Rattle.panoc_engine.specs.Runs.{run_of, Stands, moved, costed};

use crate::outcome::Refusal;
use crate::panoc_cache::{Costed, Moved, Phase, Solve};
use board::U;
use board::points::gradient_into;

// COST at the first iterate is x.
#[tactic(auto, using(crate::proofs::Searches::first_cost_taken))]
pub fn on_first_cost(x: f64) -> Costed
    ensures { (s : Solve) (l : List Float) → costed s result l ≡ first_cost binary64 x (run_of s l) }
{
    Costed {
        moved: Moved::To(Phase::FirstGradient),
        cost_value: x,
    }
}

// GRADIENT at the first iterate is v.
#[tactic(auto, using(crate::proofs::Searches::first_gradient_goes, crate::proofs::Searches::first_gradient_stops))]
pub fn on_first_gradient(v: &[f64], s: Solve, board: &mut [f64]) -> Moved
    requires { (Stands s board.old) × (length v.now ≡ s.set.n) }
    ensures { moved s result board.new ≡ first_gradient binary64 v.now (run_of s board.old) }
{
    let finite = gradient_into(v, s.gammas.gamma, board, U);
    if numeric::is_finite(s.cost_value) & finite {
        Moved::To(Phase::FirstProject)
    } else {
        Moved::Refused(Refusal::FirstIterate)
    }
}
