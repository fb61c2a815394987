// What the calls share: what a run waits for, whether the lent places fit, and what an end hands out.
ghost use Rattle.std.specs.Prelude.{◌≡◌, ◌≤◌, List, Float, length};
ghost use Rattle.machine.specs.LoopRest.{sized, counts, sound};
ghost use Rattle.machine.specs.LoopCalls.{lent_right};
ghost use Rattle.machine.specs.LoopAnswer.{wanted_by};
ghost use Rattle.panoc_engine.specs.Values.{kind_of};
ghost use Rattle.alm_engine.specs.Values.{loop_settings_of};
ghost use Rattle.alm_fields.specs.Fields.{settings_at, loop_run_at, handed_plan, handed_xi};

use crate::fields::{AlmC, AlmFields, settings_of};
use crate::numbers::phase_at;
use alm_engine::alm_cache::AlmPhase;
use alm_optimizer::answering::fill_xi;
use alm_optimizer::waiting::{is_last, wants_own};
use board::copies::give;
use board::{U, Y_PLUS};
use panoc_engine::refusals::Wanted;
use panoc_fields::calls::waits as inner_waits;
use panoc_fields::fields::InnerFields;
use panoc_fields::numbers::ENDED;
use starts::sizes::xi_fits;

// Sizes in range. The fields are read where they lie, as in panoc_fields.
#[tactic(auto, unfolding(machine::specs::LoopRest::sized, alm_engine::specs::LoopRuns::loop_run))]
fn is_sized(inner: &InnerFields, alm: &AlmFields) -> bool
    ensures { (l : List Float) → result ≡ sized (loop_run_at inner.now alm.now l) }
{
    alm.n <= 64 && alm.n1 <= 32 && alm.n2 <= 32 && alm.max_inner_iterations <= 10000
}

// Counters in range, and an inner solve of the same n.
#[tactic(auto, unfolding(machine::specs::LoopRest::counts, alm_engine::specs::LoopRuns::loop_run))]
fn is_counted(inner: &InnerFields, alm: &AlmFields) -> bool
    ensures { (l : List Float) → result ≡ counts (loop_run_at inner.now alm.now l) }
{
    alm.left <= 999
        && alm.outer <= 999 - alm.left
        && alm.inner <= 10000 * alm.outer
        && alm.found <= 10000
        && inner.n == alm.n
}

// Whether a start made the run.
pub fn is_sound(inner: &InnerFields, alm: &AlmFields) -> bool
    ensures { (l : List Float) → result ≡ sound (loop_run_at inner.now alm.now l) }
{
    is_sized(inner, alm) && (is_last(phase_at(alm.phase)) || is_counted(inner, alm))
}

// What a run waits for.
pub fn waits(inner: &InnerFields, alm: &AlmFields) -> Option<Wanted>
    ensures { (l : List Float) → kind_of result ≡ wanted_by (loop_run_at inner.now alm.now l) }
{
    if !is_sound(inner, alm) {
        return None;
    }
    let phase = phase_at(alm.phase);
    if let AlmPhase::Inner = phase {
        return inner_waits(inner);
    }
    wants_own(settings_of(alm), phase)
}

// Whether a lent plan and xi of so many places have the lengths asked.
pub fn lent_fits(alm: &AlmFields, us: usize, xs: usize) -> bool
    ensures { result ≡ lent_right (loop_settings_of (settings_at alm.now)) us xs }
{
    us == alm.n && xi_fits(alm.n1, alm.n2, xs)
}

// The plan lies in u, and the multipliers in y_plus; with the penalty they go out where the run has just ended.
pub fn hand_out(run: &AlmC, plan: &mut [f64], xi: &mut [f64])
    requires { (length plan.old ≤ 64) × (length xi.old ≤ 64) }
    ensures plan { plan.new ≡ handed_plan run.now plan.old }
    ensures xi { xi.new ≡ handed_xi run.now xi.old }
{
    if run.inner.outcome == ENDED {
        give(&run.board[..], U, plan);
        fill_xi(run.alm.numbers.penalty, &run.board[..], Y_PLUS, xi);
    }
}
