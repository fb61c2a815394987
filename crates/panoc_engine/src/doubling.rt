// The answers at the half step and while doubling.
ghost use Rattle.std.specs.Prelude.{◌≡◌, List, Float, length};
ghost use Rattle.std.specs.Float.{binary64};
ghost use Rattle.machine.specs.InnerMoves.{half_cost, doubling, doubled_project, doubled_cost, ask_direction};
ghost use Rattle.panoc_engine.specs.Runs.{run_of, Stands, leaves, moved, doubled};

use crate::lipschitz_estimator::{exceeds, lipschitz_check_rhs, sigma_of};
use crate::outcome::Refusal;
use crate::panoc_cache::{Doubled, Gammas, Moved, Phase, Solve};
use board::HALF;
use board::copies::take_into;
use board::points::less_times_into;
use board::sums::residual_into;

// σ again, and DIRECTION.
#[tactic(auto, using(crate::proofs::Doubles::direction_asked))]
fn ask_direction(s: Solve, board: &[f64]) -> Doubled
    ensures { doubled s result board.now ≡ ask_direction binary64 (run_of s board.now) }
{
    let sigma = sigma_of(s.gammas.gamma);
    let mut gammas = s.gammas;
    gammas.sigma = sigma;
    let norms = s.norms;
    Doubled {
        moved: Moved::To(Phase::Direction),
        gammas,
        norms,
        rounds: s.counts.rounds,
        forget: s.forget,
    }
}

// The doubling: another round while the half step's cost exceeds the right side of its check, else DIRECTION.
#[tactic(auto, using(crate::proofs::Doubles::doubling_none, crate::proofs::Doubles::doubling_stays, crate::proofs::Doubles::doubling_goes))]
pub fn update_lipschitz_constant(cost: f64, s: Solve, board: &mut [f64]) -> Doubled
    requires { Stands s board.old }
    ensures { doubled s result board.new ≡ doubling binary64 s.counts.rounds cost (run_of s board.old) }
{
    let rounds = s.counts.rounds;
    if rounds == 0 || !exceeds(s.norms.rhs_ls, s.gammas.lipschitz_constant, cost) {
        return ask_direction(s, board);
    }
    let gamma = s.gammas.gamma / 2.0;
    less_times_into(gamma, board, s.set.n);
    let lipschitz_constant = s.gammas.lipschitz_constant * 2.0;
    let norms = s.norms;
    Doubled {
        moved: Moved::To(Phase::DoubledProject),
        gammas: Gammas {
            lipschitz_constant,
            gamma,
            sigma: s.gammas.sigma,
        },
        norms,
        rounds: rounds - 1,
        forget: s.forget,
    }
}

// An answer that a refusal follows.
fn refused(number: Refusal, s: Solve) -> Doubled
    ensures { (l : List Float) → doubled s result l ≡ leaves (Moved.Refused number) (run_of s l) }
{
    let gammas = s.gammas;
    let norms = s.norms;
    Doubled {
        moved: Moved::Refused(number),
        gammas,
        norms,
        rounds: s.counts.rounds,
        forget: s.forget,
    }
}

// COST at the half step is x. The start also forgets.
#[tactic(auto, using(crate::proofs::Doubles::half_stops, crate::proofs::Doubles::half_goes))]
pub fn on_half_cost(x: f64, s: Solve, board: &mut [f64]) -> Doubled
    requires { Stands s board.old }
    ensures { doubled s result board.new ≡ half_cost binary64 x (run_of s board.old) }
{
    if !numeric::is_finite(x) {
        return refused(Refusal::HalfCost, s);
    }
    let mut tested = s;
    let done = s.counts.iterations;
    tested.forget = done.0 == 0;
    tested.counts.rounds = 10;
    update_lipschitz_constant(x, tested, board)
}

// PROJECT while doubling gave v.
#[tactic(auto, using(crate::proofs::Doubles::doubled_projected))]
pub fn on_doubled_project(v: &[f64], s: Solve, board: &mut [f64]) -> Moved
    requires { (Stands s board.old) × (length v.now ≡ s.set.n) }
    ensures { moved s result board.new ≡ doubled_project binary64 v.now (run_of s board.old) }
{
    take_into(v, board, HALF);
    Moved::To(Phase::DoubledCost)
}

// COST while doubling is x.
#[tactic(auto, using(crate::proofs::Doubles::doubled_stops, crate::proofs::Doubles::doubled_goes))]
pub fn on_doubled_cost(x: f64, s: Solve, board: &mut [f64]) -> Doubled
    requires { Stands s board.old }
    ensures { doubled s result board.new ≡ doubled_cost binary64 x (run_of s board.old) }
{
    if !numeric::is_finite(x) {
        return refused(Refusal::DoubledCost, s);
    }
    let sums = residual_into(board, s.set.n);
    let rhs = lipschitz_check_rhs(s.cost_value, s.gammas.gamma, sums.norm, sums.product);
    let mut renewed = s;
    renewed.norms.rhs_ls = rhs;
    renewed.norms.norm_gamma_fpr = sums.norm;
    renewed.forget = true;
    update_lipschitz_constant(x, renewed, board)
}
