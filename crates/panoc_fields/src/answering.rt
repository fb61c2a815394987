// An answer that nothing refuses, put into the fields of a run and into its board: each arm takes the small part of the run out of the fields and puts what
// is changed back.
ghost use Rattle.std.specs.Prelude.{◌≡◌, ◌≤◌, true, List, Float, length};
ghost use Rattle.std.specs.Float.{binary64};
ghost use Rattle.model.specs.Refusals.{answer_refusal};
ghost use Rattle.machine.specs.InnerAnswer.{wanted_by, answered};
ghost use Rattle.panoc_engine.specs.declared.panoc_cache.Reply.TheVariants.{Number, Vector};
ghost use Rattle.panoc_engine.specs.Values.{reply_of, decided};
ghost use Rattle.panoc_engine.specs.Runs.{run_of, Stands, doubled};
ghost use Rattle.panoc_fields.specs.Fields.{run_at, doubling_cost, seen, exact};

use crate::fields::{InnerFields, solve_of};
use crate::keeping::{
    keep_costed, keep_doubled, keep_ended, keep_estimated, keep_moved, keep_searched, keep_shifted,
    keep_tested,
};
use crate::numbers::phase_at;
use panoc_engine::doubling::{on_doubled_cost, on_doubled_project, on_half_cost};
use panoc_engine::estimate::{on_cost, on_gradient, on_shifted};
use panoc_engine::first_move::{on_first_cost, on_first_gradient};
use panoc_engine::half_steps::on_half_step;
use panoc_engine::last_cost::on_last_cost;
use panoc_engine::linesearch::{on_direction, on_tried_cost, on_tried_gradient};
use panoc_engine::outcome::Refusal;
use panoc_engine::panoc_cache::{Doubled, Outcome, Phase, Reply, Solve};
use panoc_engine::step::on_time;

// COST at the half step or while doubling is x: one way for both, so that what it changes is put back in one place.
#[tactic(auto, using(crate::proofs::Arms::doubling_half, crate::proofs::Arms::doubling_else))]
fn on_doubling_cost(x: f64, s: Solve, board: &mut [f64]) -> Doubled
    requires { Stands s board.old }
    ensures { doubled s result board.new ≡ doubling_cost s.phase x (run_of s board.old) }
{
    let phase = s.phase;
    match phase {
        Phase::HalfCost => on_half_cost(x, s, board),
        _ => on_doubled_cost(x, s, board),
    }
}

// The number x.
#[tactic(auto, using(crate::proofs::Arms::numbers))]
pub fn answer_number(x: f64, run: &mut InnerFields, board: &mut [f64]) -> u32
    requires places { 576 ≤ length board.old }
    requires accepted { answer_refusal (wanted_by (run_at run.old board.old)) (reply_of (Number x)) 0 true ≡ 0 }
    ensures { (v : List Float) → seen result run.new board.new ≡ exact (answered binary64 (run_at run.old board.old) (reply_of (Number x)) v) run.old.end }
{
    let phase = phase_at(run.phase);
    match phase {
        Phase::Cost => keep_costed(on_cost(x), run),
        Phase::HalfCost | Phase::DoubledCost => {
            keep_doubled(on_doubling_cost(x, solve_of(run), board), run)
        }
        Phase::FirstCost => keep_costed(on_first_cost(x), run),
        Phase::TriedCost => keep_costed(on_tried_cost(x), run),
        Phase::LastCost => keep_ended(on_last_cost(x, solve_of(run)), run),
        _ => Refusal::Kind.number(),
    }
}

// The vector v.
#[tactic(auto, using(crate::proofs::Arms::vectors))]
pub fn answer_vector(v: &[f64], run: &mut InnerFields, board: &mut [f64]) -> u32
    requires places { 576 ≤ length board.old }
    requires accepted { answer_refusal (wanted_by (run_at run.old board.old)) (reply_of Vector) (length v.now) true ≡ 0 }
    ensures { seen result run.new board.new ≡ exact (answered binary64 (run_at run.old board.old) (reply_of Vector) v.now) run.old.end }
{
    let phase = phase_at(run.phase);
    match phase {
        Phase::Gradient => keep_shifted(on_gradient(v, solve_of(run), board), run),
        Phase::Shifted => keep_estimated(on_shifted(v, solve_of(run), board), run),
        Phase::DoubledProject => keep_moved(on_doubled_project(v, solve_of(run), board), run),
        Phase::Direction => keep_searched(on_direction(v, solve_of(run), board), run),
        Phase::FirstGradient => keep_moved(on_first_gradient(v, solve_of(run), board), run),
        Phase::TriedGradient => keep_moved(on_tried_gradient(v, solve_of(run), board), run),
        Phase::Project | Phase::FirstProject | Phase::TriedProject => {
            keep_tested(on_half_step(v, solve_of(run), board), run)
        }
        _ => Refusal::Kind.number(),
    }
}

// A yes or a no.
#[tactic(auto, using(crate::proofs::Arms::decisions))]
pub fn answer_decision(yes: bool, run: &mut InnerFields, board: &mut [f64]) -> u32
    requires places { 576 ≤ length board.old }
    requires accepted { answer_refusal (wanted_by (run_at run.old board.old)) (reply_of (decided yes)) 0 true ≡ 0 }
    ensures { (v : List Float) → seen result run.new board.new ≡ exact (answered binary64 (run_at run.old board.old) (reply_of (decided yes)) v) run.old.end }
{
    let phase = phase_at(run.phase);
    match phase {
        Phase::Time => keep_tested(on_time(yes, solve_of(run), board), run),
        _ => Refusal::Kind.number(),
    }
}

// Any answer.
#[tactic(auto, using(crate::proofs::CallLaws::number_any, crate::proofs::CallLaws::yes_any, crate::proofs::CallLaws::no_any))]
pub fn answer_accepted(a: Reply, v: &[f64], run: &mut InnerFields, board: &mut [f64]) -> u32
    requires places { 576 ≤ length board.old }
    requires accepted { answer_refusal (wanted_by (run_at run.old board.old)) (reply_of a) (length v.now) true ≡ 0 }
    ensures { seen result run.new board.new ≡ exact (answered binary64 (run_at run.old board.old) (reply_of a) v.now) run.old.end }
{
    match a {
        Reply::Number(x) => answer_number(x, run, board),
        Reply::Vector => answer_vector(v, run, board),
        Reply::Yes => answer_decision(true, run, board),
        Reply::No => answer_decision(false, run, board),
        Reply::Failure(code) => keep_ended(Outcome::Failed(code), run),
    }
}
