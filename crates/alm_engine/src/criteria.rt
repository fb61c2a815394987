// The tests of an outer iteration, and the numbers of the next one: a sentence of document 01 each.
ghost use Rattle.std.specs.Prelude.{◌≡◌, List, Float};
ghost use Rattle.std.specs.Float.{binary64};
ghost use Rattle.model.specs.Loop as L;
ghost use Rattle.machine.specs.LoopRun.{found_all};
ghost use Rattle.alm_engine.specs.Values.{loop_settings_of};
ghost use Rattle.alm_engine.specs.LoopRuns.{loop_run};
ghost use Rattle.alm_engine.specs.Tests.{settled_y, settled_f2};

use crate::alm_cache::Alm;

// |y_plus - y| ≤ c × δ + 2^-52, from the second iteration on, where n1 > 0.
#[tactic(auto, using(crate::proofs::Tests::settled_y_none, crate::proofs::Tests::settled_y_first, crate::proofs::Tests::settled_y_is))]
pub fn multipliers_settled(s: Alm) -> bool
    ensures { result ≡ settled_y s }
{
    let done = s.counts.outer;
    s.set.n1 == 0
        || (done.0 != 0
            && s.numbers.delta_y_norm_plus
                <= s.numbers.penalty * s.set.delta_tolerance + f64::EPSILON)
}

// |F2| ≤ δ + 2^-52, where n2 > 0.
#[tactic(auto, using(crate::proofs::Tests::settled_f2_none, crate::proofs::Tests::settled_f2_is))]
pub fn mapping_settled(s: Alm) -> bool
    ensures { result ≡ settled_f2 s }
{
    s.set.n2 == 0 || s.numbers.f2_norm_plus <= s.set.delta_tolerance + f64::EPSILON
}

// The exit test of an outer iteration.
#[tactic(auto, using(crate::proofs::Tests::exits_is, crate::proofs::Tests::exits_not_f2, crate::proofs::Tests::exits_not_y))]
pub fn is_exit_criterion_satisfied(s: Alm) -> bool
    ensures { (l : List Float) → result ≡ L.exits binary64 (loop_settings_of s.set) (found_all (loop_run s l)) }
{
    multipliers_settled(s)
        && mapping_settled(s)
        && s.numbers.akkt_tolerance <= s.set.epsilon_tolerance + f64::EPSILON
}

// Whether an infeasibility is ≤ coefficient × the former + 2^-52.
#[tactic(auto, using(crate::proofs::Tests::decreased_is))]
pub fn decreased(s: Alm, norm: f64, former: f64) -> bool
    ensures { result ≡ L.decreased binary64 (loop_settings_of s.set) norm former }
{
    norm <= s.set.sufficient_decrease_coeff * former + f64::EPSILON
}

// Whether each infeasibility present has decreased; with neither present none has.
#[tactic(auto, using(crate::proofs::Tests::stalls_none, crate::proofs::Tests::stalls_f2, crate::proofs::Tests::stalls_y, crate::proofs::Tests::stalls_both, crate::proofs::Tests::stalls_not))]
pub fn is_penalty_stall_criterion(s: Alm) -> bool
    ensures { (l : List Float) → result ≡ L.stalls binary64 (loop_settings_of s.set) (found_all (loop_run s l)) }
{
    let y_decreased = decreased(s, s.numbers.delta_y_norm_plus, s.numbers.delta_y_norm);
    let f2_decreased = decreased(s, s.numbers.f2_norm_plus, s.numbers.f2_norm);
    match (s.set.n1, s.set.n2) {
        (0, 0) => false,
        (0, _) => f2_decreased,
        (_, 0) => y_decreased,
        _ => y_decreased && f2_decreased,
    }
}

// The penalty after an iteration that did not end the loop.
#[tactic(auto, using(crate::proofs::Tests::penalty_first, crate::proofs::Tests::penalty_stays, crate::proofs::Tests::penalty_grows))]
pub fn update_penalty_parameter(s: Alm) -> f64
    ensures { (l : List Float) → result ≡ L.next_penalty binary64 (loop_settings_of s.set) (found_all (loop_run s l)) }
{
    let done = s.counts.outer;
    if done.0 == 0 || is_penalty_stall_criterion(s) {
        s.numbers.penalty
    } else {
        s.numbers.penalty * s.set.penalty_update_factor
    }
}

// The AKKT tolerance of the next inner solve.
#[tactic(auto, using(crate::proofs::Tests::akkt_is))]
pub fn update_inner_akkt_tolerance(s: Alm) -> f64
    ensures { result ≡ L.next_akkt binary64 (loop_settings_of s.set) s.numbers.akkt_tolerance }
{
    numeric::max(
        s.set.epsilon_tolerance,
        s.set.epsilon_update_factor * s.numbers.akkt_tolerance,
    )
}
