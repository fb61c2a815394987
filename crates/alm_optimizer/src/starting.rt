// The start of a run.
ghost use Rattle.std.specs.Prelude.{◌≡◌, ◌≤◌, length};
ghost use Rattle.std.specs.Float.{binary64};
ghost use Rattle.model.specs.Refusals as R;
ghost use Rattle.machine.specs.LoopAnswer.{start};
ghost use Rattle.panoc_engine.specs.Told.{number_of};
ghost use Rattle.alm_engine.specs.Values.{loop_settings_of};
ghost use Rattle.alm_engine.specs.LoopRuns.{loop_run, loop_stepped};
ghost use Rattle.alm_optimizer.specs.Calls.{loop_blank, loop_gave, no_places};
ghost use Rattle.alm_optimizer.specs.Tests as Tests;

use alm_engine::alm_cache::{
    Alm, AlmAnswered, AlmCounts, AlmNumbers, AlmOutcome, AlmPhase, AlmRun, AlmSettings, AlmStepped,
    OuterIterations,
};
use alm_engine::keeping::keep_moved;
use alm_engine::outer_iterations::begins;
use board::copies::{is_finite_in, take_into};
use board::{U, Y, Y_PLUS};
use panoc_engine::outcome::Refusal;
use panoc_engine::panoc_cache::{ExitStatus, InnerIterations};
use starts::multipliers::{multipliers_in, penalty_in};
use starts::numbers::{factor_right, fraction_right, limit_right, tolerance_right};
use starts::sizes::{mappings_right, sizes_right};

// ---- why a start is refused

// M and K.
#[tactic(auto, unfolding(crate::specs::Tests::limits_right))]
pub fn limits_right(set: AlmSettings) -> bool
    ensures { result ≡ Tests.limits_right set }
{
    limit_right(10000, set.max_inner_iterations) && limit_right(1000, set.max_outer_iterations)
}

// The norm's tolerance, ε, δ and the AKKT tolerance.
#[tactic(auto, unfolding(crate::specs::Tests::tolerances_right))]
pub fn tolerances_right(set: AlmSettings) -> bool
    ensures { result ≡ Tests.tolerances_right set }
{
    tolerance_right(set.tolerance)
        && tolerance_right(set.epsilon_tolerance)
        && tolerance_right(set.delta_tolerance)
        && tolerance_right(set.initial_inner_tolerance)
}

// The factors and the decrease coefficient.
#[tactic(auto, unfolding(crate::specs::Tests::factors_right))]
pub fn factors_right(set: AlmSettings) -> bool
    ensures { result ≡ Tests.factors_right set }
{
    factor_right(set.penalty_update_factor)
        && fraction_right(set.epsilon_update_factor)
        && fraction_right(set.sufficient_decrease_coeff)
}

// All but the limits.
#[tactic(auto, unfolding(model::specs::Refusals::loop_numbers_right, crate::specs::Tests::tolerances_right, crate::specs::Tests::factors_right))]
pub fn numbers_right(set: AlmSettings) -> bool
    ensures { result ≡ R.loop_numbers_right binary64 (loop_settings_of set) }
{
    tolerances_right(set) && factors_right(set)
}

// c finite and above 0, and every y finite.
#[tactic(auto, unfolding(model::specs::Refusals::xi_right))]
pub fn xi_right(xi: &[f64]) -> bool
    ensures { result ≡ R.xi_right xi.now }
{
    match xi {
        [] => true,
        [c, y @ ..] => tolerance_right(*c) && is_finite_in(y),
    }
}

// Why a start at a lent u and xi is refused: 1, 19, 2, 3, 4 or 5 of the table.
#[tactic(auto, unfolding(model::specs::Refusals::loop_refusal, model::specs::Refusals::unless, crate::specs::Tests::limits_right))]
pub fn start_refusal(set: AlmSettings, u: &[f64], xi: &[f64]) -> Option<Refusal>
    ensures { number_of result ≡ R.loop_refusal binary64 (loop_settings_of set) u.now xi.now }
{
    if !sizes_right(set.n, u.len()) {
        return Some(Refusal::Sizes);
    }
    if !is_finite_in(u) {
        return Some(Refusal::InitialGuess);
    }
    if !mappings_right(set.n1, set.n2, set.has_set_y, xi.len()) {
        return Some(Refusal::Mappings);
    }
    if !limits_right(set) {
        return Some(Refusal::Limits);
    }
    if !numbers_right(set) {
        return Some(Refusal::Tolerances);
    }
    if xi_right(xi) {
        None
    } else {
        Some(Refusal::Multipliers)
    }
}

// The small part of a run that has not begun.
#[tactic(auto, using(ieee::proofs::Special::zero_bits))]
fn blank(set: AlmSettings) -> Alm
    ensures { result ≡ loop_blank set }
{
    Alm {
        phase: AlmPhase::Over,
        set,
        numbers: AlmNumbers {
            penalty: 0.0,
            akkt_tolerance: set.initial_inner_tolerance,
            delta_y_norm: 0.0,
            f2_norm: 0.0,
            delta_y_norm_plus: 0.0,
            f2_norm_plus: 0.0,
            norm_fpr: 0.0,
        },
        counts: AlmCounts {
            left: 0,
            outer: OuterIterations(0),
            inner: InnerIterations(0),
            found: InnerIterations(0),
            status: ExitStatus::Converged,
        },
        solve: panoc_engine::first::blank(set.inner(set.initial_inner_tolerance)),
    }
}

// ---- start

// A run in place that is begun at u and xi, or its refusal.
#[tactic(auto, using(crate::proofs::Starts::starts))]
pub fn start_in_place(set: AlmSettings, u: &[f64], xi: &[f64], board: &mut [f64; 768]) -> AlmStepped
    ensures { loop_stepped result board.new ≡ start binary64 (loop_settings_of set) u.now xi.now (loop_run (loop_blank set) board.old) }
{
    let mut s = blank(set);
    if let Some(refusal) = start_refusal(set, u, xi) {
        return AlmStepped {
            outcome: AlmOutcome::Refused(refusal),
            state: s,
        };
    }
    let y = multipliers_in(xi);
    take_into(u, board, U);
    take_into(y, board, Y);
    take_into(y, board, Y_PLUS);
    s.numbers.penalty = penalty_in(xi);
    s.counts.left = set.max_outer_iterations - 1;
    keep_moved(begins(s), s)
}

// A board of zeros, by a name: callers learn of the literal here that it is `null` at every place.
#[tactic(auto, using(ieee::proofs::Special::zero_bits), unfolding(crate::specs::Calls::no_places))]
fn zeros() -> [f64; 768]
    ensures { result ≡ no_places }
{
    [0.0; 768]
}

// A run by value that is begun at u and xi, or its refusal.
pub fn start(set: AlmSettings, u: &[f64], xi: &[f64]) -> AlmAnswered
    ensures { loop_gave result ≡ start binary64 (loop_settings_of set) u.now xi.now (loop_run (loop_blank set) no_places) }
{
    let mut board = zeros();
    let r = start_in_place(set, u, xi, &mut board);
    AlmAnswered {
        outcome: r.outcome,
        run: AlmRun {
            alm: r.state,
            board,
        },
    }
}
