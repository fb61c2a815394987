// DIRECTION's answer, and the moves of the later steps: candidates along it.
ghost use Rattle.std.specs.Prelude.{◌≡◌, ◌&&◌, not, eqb, List, Float, length};
ghost use Rattle.std.specs.Float.{binary64};
ghost use Rattle.std.specs.Float.Ieee.{lt};
ghost use Rattle.machine.specs.InnerMoves.{directed, search, tried_cost, tried_gradient, again};
ghost use Rattle.panoc_engine.specs.Runs.{run_of, Stands, moved, costed, searched, halved};

use crate::lipschitz_estimator::envelope;
use crate::outcome::Refusal;
use crate::panoc_cache::{Costed, HalfStep, Moved, Next, Phase, Searched, Solve};
use board::copies::copy_into;
use board::points::{candidate_into, gradient_into};
use board::sums::line_into;
use board::{HALF, PLUS, U};

// A later step's move begins: what a candidate is held to, and the candidate for τ = 1.
#[tactic(auto, using(crate::proofs::Searches::search_asks))]
fn linesearch(v: &[f64], s: Solve, board: &mut [f64]) -> Searched
    requires { (Stands s board.old) × (length v.now ≡ s.set.n) }
    ensures { searched s result board.new ≡ search binary64 v.now (run_of s board.old) }
{
    let sums = line_into(v, board);
    let value = envelope(
        s.cost_value,
        s.gammas.gamma,
        sums.gradient_squared,
        sums.distance_squared,
    );
    let mut norms = s.norms;
    norms.rhs_ls = value - s.gammas.sigma * norms.norm_gamma_fpr * norms.norm_gamma_fpr;
    norms.tau = 1.0;
    Searched {
        moved: Moved::To(Phase::TriedCost),
        norms,
        rounds: 10,
    }
}

// DIRECTION gave v: the first step's move goes to the half step, a later one searches along v.
#[tactic(auto, using(crate::proofs::Searches::directed_first, crate::proofs::Searches::directed_later))]
pub fn on_direction(v: &[f64], s: Solve, board: &mut [f64]) -> Searched
    requires { (Stands s board.old) × (length v.now ≡ s.set.n) }
    ensures { searched s result board.new ≡ directed binary64 v.now (run_of s board.old) }
{
    let done = s.counts.iterations;
    if done.0 != 0 {
        return linesearch(v, s, board);
    }
    copy_into(board, HALF, U, s.set.n);
    let norms = s.norms;
    Searched {
        moved: Moved::To(Phase::FirstCost),
        norms,
        rounds: s.counts.rounds,
    }
}

// COST at a candidate is x.
#[tactic(auto, using(crate::proofs::Searches::tried_cost_taken))]
pub fn on_tried_cost(x: f64) -> Costed
    ensures { (s : Solve) (l : List Float) → costed s result l ≡ tried_cost binary64 x (run_of s l) }
{
    Costed {
        moved: Moved::To(Phase::TriedGradient),
        cost_value: x,
    }
}

// GRADIENT at a candidate is v.
#[tactic(auto, using(crate::proofs::Searches::tried_gradient_stops, crate::proofs::Searches::tried_gradient_goes))]
pub fn on_tried_gradient(v: &[f64], s: Solve, board: &mut [f64]) -> Moved
    requires { (Stands s board.old) × (length v.now ≡ s.set.n) }
    ensures { moved s result board.new ≡ tried_gradient binary64 v.now (run_of s board.old) }
{
    let finite = gradient_into(v, s.gammas.gamma, board, PLUS);
    if numeric::is_finite(s.cost_value) & finite {
        Moved::To(Phase::TriedProject)
    } else {
        Moved::Refused(Refusal::Candidate)
    }
}

// Whether another candidate is tried: this one's envelope exceeds what it is held to, and there are rounds left.
pub fn worse(rhs: f64, value: f64, rounds: usize) -> bool
    ensures { result ≡ (lt rhs value && not (eqb rounds 0)) }
{
    rhs < value && rounds != 0
}

// Another candidate, with half the τ.
#[tactic(auto, using(crate::proofs::Searches::again_asks))]
pub fn try_again(s: Solve, board: &mut [f64]) -> HalfStep
    requires { (Stands s board.old) × (s.counts.rounds ≡ 0 → ⊥) }
    ensures goes { halved s result board.new ≡ again binary64 s.counts.rounds (run_of s board.old) }
    ensures next { result.next ≡ Next.Again }
{
    let tau = s.norms.tau / 2.0;
    candidate_into(tau, board, s.set.n);
    let mut norms = s.norms;
    norms.tau = tau;
    let mut counts = s.counts;
    let rounds = counts.rounds;
    counts.rounds = rounds - 1;
    HalfStep {
        next: Next::Again,
        norm: 0.0,
        product: 0.0,
        norms,
        counts,
    }
}
