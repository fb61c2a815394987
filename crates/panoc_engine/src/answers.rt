// Which handler takes an answer, and what a call gives then.
ghost use Rattle.std.specs.Prelude.{◌≡◌, ◌≤◌, true, List, Float, length};
ghost use Rattle.std.specs.Float.{binary64};
ghost use Rattle.machine.specs.Waits.{waiting};
ghost use Rattle.machine.specs.InnerAnswer.{answered, turns, wanted_at, wanted_by};
ghost use Rattle.machine.specs.InnerRest.{sound};
ghost use Rattle.model.specs.Refusals.{answer_refusal};
ghost use Rattle.panoc_engine.specs.Values.{asked_of, asked_at, phase_of, reply_of, decided, kind_of};
ghost use Rattle.panoc_engine.specs.Runs.{run_of, Stands, moved, costed, shifting, estimated, doubled, searched, tested, ended, stepped};

use crate::doubling::{on_doubled_cost, on_doubled_project, on_half_cost};
use crate::estimate::{on_cost, on_gradient, on_shifted};
use crate::first_move::{on_first_cost, on_first_gradient};
use crate::half_steps::on_half_step;
use crate::last_cost::on_last_cost;
use crate::linesearch::{on_direction, on_tried_cost, on_tried_gradient};
use crate::outcome::Refusal;
use crate::panoc_cache::{
    Costed, Doubled, Estimated, Moved, Outcome, Phase, Question, Reply, Searched, Shifted, Solve,
    Stepped, Tested,
};
use crate::refusals::{Wanted, waits};
use crate::step::on_time;

// ---- what an answer changes, put into the run

// The question of a phase.
pub fn question_at(p: Phase, forget: bool) -> Question
    ensures { asked_of result ≡ asked_at p forget }
{
    match p {
        Phase::Gradient | Phase::Shifted | Phase::FirstGradient | Phase::TriedGradient => {
            Question::Gradient
        }
        Phase::Project | Phase::DoubledProject | Phase::FirstProject | Phase::TriedProject => {
            Question::Project
        }
        Phase::Direction => Question::Direction(forget),
        Phase::Time => Question::Time,
        Phase::Over
        | Phase::Cost
        | Phase::HalfCost
        | Phase::DoubledCost
        | Phase::FirstCost
        | Phase::TriedCost
        | Phase::LastCost => Question::Cost,
    }
}

// A run that goes to another phase, or that a refusal has ended.
#[tactic(auto, using(crate::proofs::Moves::goes, crate::proofs::Moves::stops))]
pub fn keep_moved(m: Moved, s: Solve) -> Stepped
    ensures { (l : List Float) → stepped result l ≡ moved s m l }
{
    let mut state = s;
    match m {
        Moved::To(p) => {
            state.phase = p;
            Stepped {
                outcome: Outcome::Asked(question_at(p, s.forget)),
                state,
            }
        }
        Moved::Refused(k) => {
            state.phase = Phase::Over;
            Stepped {
                outcome: Outcome::Refused(k),
                state,
            }
        }
    }
}

pub fn keep_costed(r: Costed, s: Solve) -> Stepped
    ensures { (l : List Float) → stepped result l ≡ costed s r l }
{
    let mut state = s;
    state.cost_value = r.cost_value;
    keep_moved(r.moved, state)
}

pub fn keep_shifted(r: Shifted, s: Solve) -> Stepped
    ensures { (l : List Float) → stepped result l ≡ shifting s r l }
{
    let mut state = s;
    state.norm_h = r.norm_h;
    keep_moved(r.moved, state)
}

pub fn keep_estimated(r: Estimated, s: Solve) -> Stepped
    ensures { (l : List Float) → stepped result l ≡ estimated s r l }
{
    let mut state = s;
    state.gammas = r.gammas;
    keep_moved(r.moved, state)
}

pub fn keep_doubled(r: Doubled, s: Solve) -> Stepped
    ensures { (l : List Float) → stepped result l ≡ doubled s r l }
{
    let mut state = s;
    state.gammas = r.gammas;
    state.norms = r.norms;
    state.counts.rounds = r.rounds;
    state.forget = r.forget;
    keep_moved(r.moved, state)
}

pub fn keep_searched(r: Searched, s: Solve) -> Stepped
    ensures { (l : List Float) → stepped result l ≡ searched s r l }
{
    let mut state = s;
    state.norms = r.norms;
    state.counts.rounds = r.rounds;
    keep_moved(r.moved, state)
}

pub fn keep_tested(r: Tested, s: Solve) -> Stepped
    ensures { (l : List Float) → stepped result l ≡ tested s r l }
{
    let mut state = s;
    state.norms = r.norms;
    state.counts = r.counts;
    keep_moved(r.moved, state)
}

// An outcome that ends the run.
pub fn keep_ended(outcome: Outcome, s: Solve) -> Stepped
    ensures { (l : List Float) → stepped result l ≡ ended s outcome l }
{
    let mut state = s;
    state.phase = Phase::Over;
    Stepped { outcome, state }
}

// An answer of another kind than the one asked.
fn turned(s: Solve) -> Stepped
    ensures { (l : List Float) → stepped result l ≡ turns (run_of s l) 7 }
{
    Stepped {
        outcome: Outcome::Refused(Refusal::Kind),
        state: s,
    }
}

// ---- by the kind of the answer, and by the phase

// A number. This and the calls below are taken into their callers: by value an answer takes an eighth less time so.
#[tactic(auto, using(crate::proofs::Answered::numbers))]
#[inline(always)]
pub fn on_number(x: f64, s: Solve, board: &mut [f64]) -> Stepped
    requires { Stands s board.old }
    ensures { (v : List Float) → stepped result board.new ≡ answered binary64 (run_of s board.old) (reply_of (Reply.Number x)) v }
{
    let phase = s.phase;
    match phase {
        Phase::Cost => keep_costed(on_cost(x), s),
        Phase::HalfCost => keep_doubled(on_half_cost(x, s, board), s),
        Phase::DoubledCost => keep_doubled(on_doubled_cost(x, s, board), s),
        Phase::FirstCost => keep_costed(on_first_cost(x), s),
        Phase::TriedCost => keep_costed(on_tried_cost(x), s),
        Phase::LastCost => keep_ended(on_last_cost(x, s), s),
        _ => turned(s),
    }
}

// A vector.
#[tactic(auto, using(crate::proofs::Answered::vectors))]
#[inline(always)]
pub fn on_vector(v: &[f64], s: Solve, board: &mut [f64]) -> Stepped
    requires { (Stands s board.old) × (length v.now ≡ s.set.n) }
    ensures { stepped result board.new ≡ answered binary64 (run_of s board.old) (reply_of Reply.Vector) v.now }
{
    let phase = s.phase;
    match phase {
        Phase::Gradient => keep_shifted(on_gradient(v, s, board), s),
        Phase::Shifted => keep_estimated(on_shifted(v, s, board), s),
        Phase::DoubledProject => keep_moved(on_doubled_project(v, s, board), s),
        Phase::Direction => keep_searched(on_direction(v, s, board), s),
        Phase::FirstGradient => keep_moved(on_first_gradient(v, s, board), s),
        Phase::TriedGradient => keep_moved(on_tried_gradient(v, s, board), s),
        Phase::Project | Phase::FirstProject | Phase::TriedProject => {
            keep_tested(on_half_step(v, s, board), s)
        }
        _ => turned(s),
    }
}

// A yes or a no.
#[tactic(auto, using(crate::proofs::Answered::decisions))]
#[inline(always)]
pub fn on_decision(yes: bool, s: Solve, board: &mut [f64]) -> Stepped
    requires { Stands s board.old }
    ensures { (v : List Float) → stepped result board.new ≡ answered binary64 (run_of s board.old) (reply_of (decided yes)) v }
{
    let phase = s.phase;
    match phase {
        Phase::Time => keep_tested(on_time(yes, s, board), s),
        _ => turned(s),
    }
}

// ---- what a run waits for

// Whether sizes and counts are in range: a run that no start made counts as one that has ended.
#[tactic(auto, unfolding(machine::specs::InnerRest::sound, crate::specs::Runs::run_of))]
pub fn in_range(s: Solve) -> bool
    ensures sound { (l : List Float) → result ≡ sound (run_of s l) }
    ensures size { result ≡ true → s.set.n ≤ 64 }
{
    let c = s.counts;
    let done = c.iterations;
    s.set.n <= 64 && s.set.max_iter <= 10000 && c.left <= 10000 && done.0 <= 10000 - c.left
}

// At a phase.
pub fn wants_at(n: usize, phase: Phase) -> Option<Wanted>
    ensures { kind_of result ≡ wanted_at n (phase_of phase) }
{
    match phase {
        Phase::Cost
        | Phase::HalfCost
        | Phase::DoubledCost
        | Phase::FirstCost
        | Phase::TriedCost
        | Phase::LastCost => Some(Wanted::Number),
        Phase::Gradient
        | Phase::Shifted
        | Phase::Project
        | Phase::DoubledProject
        | Phase::FirstGradient
        | Phase::FirstProject
        | Phase::TriedGradient
        | Phase::TriedProject => Some(Wanted::Vector(n)),
        Phase::Direction => Some(Wanted::Direction(n)),
        Phase::Time => Some(Wanted::Decision),
        Phase::Over => None,
    }
}

#[tactic(auto, using(crate::proofs::Answered::wanted_some, crate::proofs::Answered::wanted_none))]
pub fn wants(s: Solve) -> Option<Wanted>
    ensures { (l : List Float) → kind_of result ≡ wanted_by (run_of s l) }
{
    if in_range(s) {
        wants_at(s.set.n, s.phase)
    } else {
        None
    }
}

// Whether the run waits for an answer.
pub fn is_waiting(s: Solve) -> bool
    ensures { (l : List Float) → result ≡ waiting (wanted_by (run_of s l)) }
{
    waits(wants(s))
}

// ---- any answer that nothing refuses
#[tactic(auto, using(crate::proofs::Answered::accepted))]
#[inline(always)]
pub fn answer_accepted(a: Reply, v: &[f64], s: Solve, board: &mut [f64]) -> Stepped
    requires places { 576 ≤ length board.old }
    requires accepted { answer_refusal (wanted_by (run_of s board.old)) (reply_of a) (length v.now) true ≡ 0 }
    ensures { stepped result board.new ≡ answered binary64 (run_of s board.old) (reply_of a) v.now }
{
    match a {
        Reply::Number(x) => on_number(x, s, board),
        Reply::Vector => on_vector(v, s, board),
        Reply::Yes => on_decision(true, s, board),
        Reply::No => on_decision(false, s, board),
        Reply::Failure(code) => keep_ended(Outcome::Failed(code), s),
    }
}
