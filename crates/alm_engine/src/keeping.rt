// What an answer changes, put into the run, and what a call gives then.
ghost use Rattle.std.specs.Prelude.{◌≡◌, List, Float};
ghost use Rattle.machine.specs.LoopMoves.{inner_solve};
ghost use Rattle.alm_engine.specs.Values.{loop_asked_of, loop_asked_at};
ghost use Rattle.alm_engine.specs.LoopRuns.{loop_run, loop_moved, iterated, weighed, loop_ended, loop_stepped};

use crate::alm_cache::{
    Alm, AlmMoved, AlmOutcome, AlmPhase, AlmQuestion, AlmStepped, Iterated, Weighed,
};
use panoc_engine::panoc_cache::{Counts, ExitStatus, InnerIterations, Phase, Question};

// The question of a phase; of an inner solve the first one.
pub fn question_at(p: AlmPhase) -> AlmQuestion
    ensures { loop_asked_of result ≡ loop_asked_at p }
{
    match p {
        AlmPhase::Time => AlmQuestion::Time,
        AlmPhase::ProjectY => AlmQuestion::ProjectY,
        AlmPhase::Inner => AlmQuestion::Inner(Question::Cost),
        AlmPhase::F1 => AlmQuestion::F1,
        AlmPhase::ProjectC => AlmQuestion::ProjectC,
        AlmPhase::F2 => AlmQuestion::F2,
        AlmPhase::Over | AlmPhase::LastCost => AlmQuestion::Cost,
    }
}

// An inner solve begins anew from u; its running numbers stay until they are worked out again.
#[tactic(auto, using(crate::proofs::Kept::solve_begins))]
fn keep_begun(s: Alm) -> AlmStepped
    ensures { (l : List Float) → loop_stepped result l ≡ inner_solve (loop_run s l) }
{
    let set = s.set.inner(s.numbers.akkt_tolerance);
    let mut state = s;
    state.phase = AlmPhase::Inner;
    state.solve.phase = Phase::Cost;
    state.solve.set = set;
    state.solve.counts = Counts {
        left: 0,
        iterations: InnerIterations(0),
        status: ExitStatus::Converged,
        rounds: 0,
    };
    state.solve.forget = true;
    AlmStepped {
        outcome: AlmOutcome::Asked(AlmQuestion::Inner(Question::Cost)),
        state,
    }
}

// A run that goes to another phase, or that a refusal has ended.
#[tactic(auto, using(crate::proofs::Kept::solves, crate::proofs::Kept::goes, crate::proofs::Kept::stops))]
pub fn keep_moved(m: AlmMoved, s: Alm) -> AlmStepped
    ensures { (l : List Float) → loop_stepped result l ≡ loop_moved s m l }
{
    let mut state = s;
    match m {
        AlmMoved::To(AlmPhase::Inner) => keep_begun(s),
        AlmMoved::To(p) => {
            state.phase = p;
            AlmStepped {
                outcome: AlmOutcome::Asked(question_at(p)),
                state,
            }
        }
        AlmMoved::Refused(k) => {
            state.phase = AlmPhase::Over;
            AlmStepped {
                outcome: AlmOutcome::Refused(k),
                state,
            }
        }
    }
}

pub fn keep_iterated(r: Iterated, s: Alm) -> AlmStepped
    ensures { (l : List Float) → loop_stepped result l ≡ iterated s r l }
{
    let mut state = s;
    state.counts = r.counts;
    keep_moved(r.moved, state)
}

pub fn keep_weighed(r: Weighed, s: Alm) -> AlmStepped
    ensures { (l : List Float) → loop_stepped result l ≡ weighed s r l }
{
    let mut state = s;
    state.numbers = r.numbers;
    state.counts = r.counts;
    keep_moved(r.moved, state)
}

// An outcome that ends the run.
pub fn keep_ended(outcome: AlmOutcome, s: Alm) -> AlmStepped
    ensures { (l : List Float) → loop_stepped result l ≡ loop_ended s outcome l }
{
    let mut state = s;
    state.phase = AlmPhase::Over;
    AlmStepped { outcome, state }
}
