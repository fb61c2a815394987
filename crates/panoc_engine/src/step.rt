// A step with its tests, what follows it, and the end of a solve.
ghost use Rattle.std.specs.Prelude.{◌≡◌, ◌≤◌, ◌-◌, List, Float, true};
ghost use Rattle.std.specs.Float.{binary64};
ghost use Rattle.model.specs.State as S;
ghost use Rattle.model.specs.Inner as I;
ghost use Rattle.machine.specs.InnerMoves.{finish, step, onward, timed};
ghost use Rattle.panoc_engine.specs.Values.{settings_of, status_of};
ghost use Rattle.panoc_engine.specs.Runs.{run_of, Fits, Stands, ResidualLies, Summed, norm_at, followed, going, halved, tested, scoring, next_phase};

use crate::lipschitz_estimator::lipschitz_check_rhs;
use crate::outcome::Refusal;
use crate::panoc_cache::{
    ExitStatus, HalfStep, InnerIterations, Moved, Next, Onward, Phase, Scored, Solve, Tested,
    cache_best_half_step, cache_previous_gradient,
};
use board::U;
use board::copies::is_finite_at;
use board::sums::{akkt_norm, residual_into};

// ---- between steps

// The end that stands for a step after which left more may begin.
#[tactic(auto, using(crate::proofs::Steps::standing_none, crate::proofs::Steps::standing_in, crate::proofs::Steps::standing_out))]
pub fn standing(left: usize, in_time: bool) -> ExitStatus
    ensures { (s : S.Settings) → status_of result ≡ I.standing binary64 s left in_time }
{
    if left == 0 {
        ExitStatus::NotConvergedIterations
    } else if in_time {
        ExitStatus::Converged
    } else {
        ExitStatus::NotConvergedOutOfTime
    }
}

// After a half step that is taken: one step more where the solve is open and one is left, and TIME first where a limit is set.
#[tactic(auto, using(crate::proofs::Steps::onwards))]
pub fn onward(s: Solve) -> Onward
    requires { s.counts.iterations.0 ≤ 10000 - s.counts.left }
    ensures { (l : List Float) → going s result l ≡ onward binary64 (status_of s.counts.status) (run_of s l) }
{
    let mut counts = s.counts;
    let status = counts.status;
    let ExitStatus::Converged = status else {
        return Onward {
            next: Next::Finish,
            counts,
        };
    };
    let left = counts.left;
    if left == 0 {
        counts.status = ExitStatus::NotConvergedIterations;
        return Onward {
            next: Next::Finish,
            counts,
        };
    }
    let done = counts.iterations;
    counts.left = left - 1;
    counts.iterations = InnerIterations(done.0 + 1);
    if s.set.limited {
        return Onward {
            next: Next::Time,
            counts,
        };
    }
    counts.status = standing(left - 1, true);
    Onward {
        next: Next::Step,
        counts,
    }
}

// ---- a step

// The two tests: the norm against the tolerance, and the AKKT residual against its own where one is set.
#[tactic(auto, using(crate::proofs::Steps::passes_missing, crate::proofs::Steps::passes_akkt, crate::proofs::Steps::passes_not))]
fn exit_condition(s: Solve, board: &[f64]) -> bool
    requires { Fits s board.now }
    ensures { result ≡ I.passes binary64 (settings_of s.set) (run_of s board.now).state }
{
    let akkt_tolerance = s.set.akkt_tolerance;
    let Some(t) = akkt_tolerance else {
        return s.norms.norm_gamma_fpr < s.set.tolerance;
    };
    s.norms.norm_gamma_fpr < s.set.tolerance && akkt_norm(s.gammas.gamma, board, s.set.n) < t
}

// A step, from the residual with its sums: the previous gradient, the score, and the tests. What the cost at the half step is held to is kept.
#[tactic(auto, using(crate::proofs::Steps::step_over, crate::proofs::Steps::step_goes))]
fn step(norm: f64, product: f64, s: Solve, board: &mut [f64]) -> Scored
    requires { (Fits s board.old) × (ResidualLies norm product s.set.n board.old) }
    ensures goes { scoring s Next.Step result board.new ≡ step binary64 (run_of s board.old) }
    ensures sized { norm ≡ norm_at s.set.n board.new }
{
    let n = s.set.n;
    let done = s.counts.iterations;
    cache_previous_gradient(done.0, board, n);
    let least = cache_best_half_step(norm, s.norms.best_norm_gamma_fpr, board, n);
    let mut entered = s;
    entered.norms.norm_gamma_fpr = norm;
    entered.norms.best_norm_gamma_fpr = least;
    let mut norms = entered.norms;
    if exit_condition(entered, board) {
        return Scored { over: true, norms };
    }
    norms.rhs_ls = lipschitz_check_rhs(s.cost_value, s.gammas.gamma, norm, product);
    Scored { over: false, norms }
}

// What the tests of a half step say: it may need none.
#[tactic(auto, using(crate::proofs::Steps::tests))]
fn tests(h: HalfStep, s: Solve, board: &mut [f64]) -> Scored
    requires { (Fits s board.old) × (Summed h.next h.norm h.product s.set.n board.old) }
    ensures goes { scoring s h.next result board.new ≡ followed h.next (run_of s board.old) }
    ensures sized { result.over ≡ true → h.norm ≡ norm_at s.set.n board.new }
{
    let norms = s.norms;
    let next = h.next;
    match next {
        Next::Step => step(h.norm, h.product, s, board),
        Next::Finish => Scored { over: true, norms },
        Next::Again => Scored { over: false, norms },
        Next::Time => Scored { over: false, norms },
    }
}

// After the last step: its score, and the last COST; refused where u is not finite.
#[tactic(auto, using(crate::proofs::Steps::finish_goes, crate::proofs::Steps::finish_stops))]
fn finish(norm: f64, s: Solve, board: &mut [f64]) -> Tested
    requires { (Fits s board.old) × (norm ≡ norm_at s.set.n board.old) }
    ensures { tested s result board.new ≡ finish binary64 (run_of s board.old) }
{
    let least = cache_best_half_step(norm, s.norms.best_norm_gamma_fpr, board, s.set.n);
    let mut norms = s.norms;
    norms.best_norm_gamma_fpr = least;
    let counts = s.counts;
    if is_finite_at(board, U, s.set.n) {
        Tested {
            moved: Moved::To(Phase::LastCost),
            norms,
            counts,
        }
    } else {
        Tested {
            moved: Moved::Refused(Refusal::Plan),
            norms,
            counts,
        }
    }
}

// The question that follows where the solve goes on.
fn asks(next: Next) -> Phase
    ensures { result ≡ next_phase next }
{
    match next {
        Next::Again => Phase::TriedCost,
        Next::Time => Phase::Time,
        Next::Step => Phase::HalfCost,
        Next::Finish => Phase::LastCost,
    }
}

// What follows a half step: its step if one follows, and the end of the solve if it has come.
#[tactic(auto, using(crate::proofs::Steps::scored_over, crate::proofs::Steps::scored_asks))]
pub fn follow(h: HalfStep, s: Solve, board: &mut [f64]) -> Tested
    requires { (Fits s board.old) × (Summed h.next h.norm h.product s.set.n board.old) }
    ensures { tested s result board.new ≡ halved s h board.old }
{
    let mut taken = s;
    let norms = h.norms;
    let counts = h.counts;
    taken.norms = norms;
    taken.counts = counts;
    let scored = tests(h, taken, board);
    let norms = scored.norms;
    taken.norms = norms;
    if scored.over {
        return finish(h.norm, taken, board);
    }
    Tested {
        moved: Moved::To(asks(h.next)),
        norms,
        counts,
    }
}

// TIME was answered: the residual, and the next step.
#[tactic(auto, using(crate::proofs::Steps::timed_goes, crate::proofs::Steps::residual_summed))]
pub fn on_time(in_time: bool, s: Solve, board: &mut [f64]) -> Tested
    requires { Stands s board.old }
    ensures { tested s result board.new ≡ timed binary64 in_time (run_of s board.old) }
{
    let sums = residual_into(board, s.set.n);
    let norms = s.norms;
    let mut counts = s.counts;
    counts.status = standing(counts.left, in_time);
    let h = HalfStep {
        next: Next::Step,
        norm: sums.norm,
        product: sums.product,
        norms,
        counts,
    };
    follow(h, s, board)
}
