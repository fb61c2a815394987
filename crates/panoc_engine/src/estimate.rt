// The answers of the start: COST and GRADIENT at u, and GRADIENT at the shifted u, of which come L, γ and σ.
ghost use Rattle.std.specs.Prelude.{◌≡◌, List, Float, length};
ghost use Rattle.std.specs.Float.{binary64};
ghost use Rattle.machine.specs.InnerMoves.{cost, gradient, shifted_gradient};
ghost use Rattle.panoc_engine.specs.Runs.{run_of, Stands, costed, shifting, estimated};

use crate::lipschitz_estimator::{both_finite, gamma_of, sigma_of};
use crate::outcome::Refusal;
use crate::panoc_cache::{Costed, Estimated, Gammas, Moved, Phase, Shifted, Solve};
use board::GRADIENT;
use board::copies::take_into;
use board::points::{less_times_into, shift_into};
use board::sums::norm2_diff;

// COST at u is x.
#[tactic(auto, using(crate::proofs::Estimates::cost_taken))]
pub fn on_cost(x: f64) -> Costed
    ensures { (s : Solve) (l : List Float) → costed s result l ≡ cost binary64 x (run_of s l) }
{
    Costed {
        moved: Moved::To(Phase::Gradient),
        cost_value: x,
    }
}

// GRADIENT at u is v: it is kept, and u is shifted.
#[tactic(auto, using(crate::proofs::Estimates::gradient_taken))]
pub fn on_gradient(v: &[f64], s: Solve, board: &mut [f64]) -> Shifted
    requires { (Stands s board.old) × (length v.now ≡ s.set.n) }
    ensures { shifting s result board.new ≡ gradient binary64 v.now (run_of s board.old) }
{
    take_into(v, board, GRADIENT);
    let norm_h = shift_into(board, s.set.n);
    Shifted {
        moved: Moved::To(Phase::Shifted),
        norm_h,
    }
}

// GRADIENT at the shifted u is v. The first cost and the first gradient are tested only here.
#[tactic(auto, using(crate::proofs::Estimates::shifted_stops, crate::proofs::Estimates::shifted_goes))]
pub fn on_shifted(v: &[f64], s: Solve, board: &mut [f64]) -> Estimated
    requires { (Stands s board.old) × (length v.now ≡ s.set.n) }
    ensures { estimated s result board.new ≡ shifted_gradient binary64 v.now (run_of s board.old) }
{
    let n = s.set.n;
    if !both_finite(s.cost_value, board, n) {
        let gammas = s.gammas;
        return Estimated {
            moved: Moved::Refused(Refusal::FirstCost),
            gammas,
        };
    }
    let lipschitz_constant = norm2_diff(v, board, GRADIENT) / s.norm_h;
    let gamma = gamma_of(lipschitz_constant);
    let sigma = sigma_of(gamma);
    less_times_into(gamma, board, n);
    Estimated {
        moved: Moved::To(Phase::Project),
        gammas: Gammas {
            lipschitz_constant,
            gamma,
            sigma,
        },
    }
}
