// PROJECT's answers at a gradient step: at the start, at the first iterate, at a candidate.
ghost use Rattle.std.specs.Prelude.{◌≡◌, length};
ghost use Rattle.std.specs.Float.{binary64};
ghost use Rattle.machine.specs.InnerMoves.{project, first_project, adopt, tried_project};
ghost use Rattle.panoc_engine.specs.Runs.{run_of, Stands, Summed, Candidate, halved, tested, projected};

use crate::linesearch::{try_again, worse};
use crate::lipschitz_estimator::envelope;
use crate::panoc_cache::{
    Counts, ExitStatus, HalfStep, InnerIterations, Next, Phase, Solve, Tested,
};
use crate::step::{follow, onward};
use board::copies::{take_into, zero_into};
use board::points::adopt_into;
use board::sums::{candidate_sums_into, residual_into};
use board::{BEST, HALF, PREVIOUS};

// PROJECT of the first gradient step gave v: no best half step yet, no step done, the previous gradient zeros; then the first step.
#[tactic(auto, using(crate::proofs::Halves::project_goes, crate::proofs::Steps::residual_summed))]
fn on_project(v: &[f64], s: Solve, board: &mut [f64]) -> HalfStep
    requires { (Stands s board.old) × (length v.now ≡ s.set.n) }
    ensures goes { halved s result board.new ≡ project binary64 v.now (run_of s board.old) }
    ensures sums { Summed result.next result.norm result.product s.set.n board.new }
{
    take_into(v, board, HALF);
    zero_into(board, PREVIOUS, s.set.n);
    zero_into(board, BEST, s.set.n);
    let sums = residual_into(board, s.set.n);
    let mut norms = s.norms;
    norms.best_norm_gamma_fpr = f64::INFINITY;
    HalfStep {
        next: Next::Step,
        norm: sums.norm,
        product: sums.product,
        norms,
        counts: Counts {
            left: s.set.max_iter,
            iterations: InnerIterations(0),
            status: ExitStatus::Converged,
            rounds: s.counts.rounds,
        },
    }
}

// PROJECT of the first iterate gave v.
#[tactic(auto, using(crate::proofs::Halves::first_project_goes, crate::proofs::Steps::residual_summed))]
fn on_first_project(v: &[f64], s: Solve, board: &mut [f64]) -> HalfStep
    requires { (Stands s board.old) × (length v.now ≡ s.set.n) }
    ensures goes { halved s result board.new ≡ first_project binary64 v.now (run_of s board.old) }
    ensures sums { Summed result.next result.norm result.product s.set.n board.new }
{
    take_into(v, board, HALF);
    let sums = residual_into(board, s.set.n);
    let after = onward(s);
    let norms = s.norms;
    HalfStep {
        next: after.next,
        norm: sums.norm,
        product: sums.product,
        norms,
        counts: after.counts,
    }
}

// The candidate is taken: it becomes u, and its residual, of this norm squared and product with the gradient, is stored.
#[tactic(auto, using(crate::proofs::Halves::adopt_goes, crate::proofs::Halves::candidate_summed))]
fn take_candidate(norm_squared: f64, product: f64, s: Solve, board: &mut [f64]) -> HalfStep
    requires { (Stands s board.old) × (Candidate norm_squared product s.set.n board.old) }
    ensures goes { halved s result board.new ≡ adopt binary64 (run_of s board.old) }
    ensures sums { Summed result.next result.norm result.product s.set.n board.new }
{
    adopt_into(board, s.set.n);
    let after = onward(s);
    let norms = s.norms;
    HalfStep {
        next: after.next,
        norm: numeric::sqrt(norm_squared),
        product,
        norms,
        counts: after.counts,
    }
}

// PROJECT of a candidate gave v: another candidate, or this one is taken.
#[tactic(auto, using(crate::proofs::Halves::tried))]
fn on_tried_project(v: &[f64], s: Solve, board: &mut [f64]) -> HalfStep
    requires { (Stands s board.old) × (length v.now ≡ s.set.n) }
    ensures goes { halved s result board.new ≡ tried_project binary64 v.now (run_of s board.old) }
    ensures sums { Summed result.next result.norm result.product s.set.n board.new }
{
    let sums = candidate_sums_into(v, board);
    let value = envelope(
        s.cost_value,
        s.gammas.gamma,
        sums.gradient_squared,
        sums.distance_squared,
    );
    if worse(s.norms.rhs_ls, value, s.counts.rounds) {
        return try_again(s, board);
    }
    take_candidate(sums.norm_squared, sums.product, s, board)
}

#[tactic(auto, using(crate::proofs::Halves::projected_start, crate::proofs::Halves::projected_first, crate::proofs::Halves::projected_tried))]
fn half_step(v: &[f64], s: Solve, board: &mut [f64]) -> HalfStep
    requires { (Stands s board.old) × (length v.now ≡ s.set.n) }
    ensures goes { halved s result board.new ≡ projected s.phase v.now (run_of s board.old) }
    ensures sums { Summed result.next result.norm result.product s.set.n board.new }
{
    let phase = s.phase;
    match phase {
        Phase::Project => on_project(v, s, board),
        Phase::FirstProject => on_first_project(v, s, board),
        _ => on_tried_project(v, s, board),
    }
}

// PROJECT of a gradient step gave v.
pub fn on_half_step(v: &[f64], s: Solve, board: &mut [f64]) -> Tested
    requires { (Stands s board.old) × (length v.now ≡ s.set.n) }
    ensures { tested s result board.new ≡ projected s.phase v.now (run_of s board.old) }
{
    let h = half_step(v, s, board);
    follow(h, s, board)
}
