// What is printed of a call of the loop.
ghost use Rattle.std.specs.Prelude.{◌≡◌, ◌≤◌, length, min};
ghost use Rattle.model.specs.Refusals.{xi_length};
ghost use Rattle.alm_engine.specs.Values.{loop_asked_of, loop_numbers_of};
ghost use Rattle.alm_engine.specs.LoopRuns.{loop_run};
ghost use Rattle.alm_optimizer.specs.Calls.{loop_gave};
ghost use Rattle.transcript.specs.Texts.{loop_name, loop_then, loop_asked, loop_ended, loop_line};
ghost use Rattle.transcript.specs.Places.{carried_second, loop_first, loop_second};

use crate::output::{Line, ended, failed, places, refused, shown};
use crate::{inner, names};
use alm_engine::alm_cache::{
    Alm, AlmAnswered, AlmOptimizerStatus, AlmOutcome, AlmPhase, AlmQuestion, AlmRun,
};
use alm_optimizer::showing::points;
use panoc_engine::panoc_cache::{Phase, Question};
use words::line_printing::{put_counted, put_floats};

// What a call gave.
#[tactic(auto, unfolding(crate::specs::Texts::loop_line, crate::specs::Texts::told_text))]
pub fn told(r: &AlmAnswered) -> Line
    ensures { result.items ≡ loop_line (loop_gave r.now) }
{
    match r.outcome {
        AlmOutcome::Asked(question) => put_asked(question, &r.run),
        AlmOutcome::Ended(status) => put_ended(status),
        AlmOutcome::Refused(refusal) => refused(refusal),
        AlmOutcome::Failed(code) => failed(code),
    }
}

// The word of a question.
fn name(question: AlmQuestion) -> &'static [u8]
    ensures word { result.now ≡ loop_name (loop_asked_of question) }
    ensures most { length result.now ≤ 11 }
{
    match question {
        AlmQuestion::Inner(inner) => names::name(inner),
        AlmQuestion::Time => b"time",
        AlmQuestion::ProjectY => b"project_y",
        AlmQuestion::F1 => b"f1",
        AlmQuestion::ProjectC => b"project_c",
        AlmQuestion::F2 => b"f2",
        AlmQuestion::Cost => b"cost",
    }
}

// The word before its second point: COST and GRADIENT of the inner solve come with xi, too.
fn then(question: AlmQuestion) -> &'static [u8]
    ensures word { result.now ≡ loop_then (loop_asked_of question) }
    ensures most { length result.now ≤ 11 }
{
    match question {
        AlmQuestion::Inner(Question::Cost | Question::Gradient) | AlmQuestion::Cost => b" xi",
        AlmQuestion::Inner(inner) => names::then(inner),
        _ => b"",
    }
}

// How many places its first point has.
fn first_places(s: Alm) -> usize
    ensures { result ≡ loop_first s }
{
    match s.phase {
        AlmPhase::Over | AlmPhase::Time => 0,
        AlmPhase::Inner => inner::first_places(s.set.n, s.solve.phase),
        AlmPhase::ProjectY | AlmPhase::ProjectC => s.set.n1,
        AlmPhase::F1 | AlmPhase::F2 | AlmPhase::LastCost => s.set.n,
    }
}

// How many a xi has, at most 64: none where n1 = n2 = 0, else the penalty and n1 multipliers.
#[tactic(auto, unfolding(model::specs::Refusals::xi_length))]
fn xi_places(n1: usize, n2: usize) -> usize
    ensures { result ≡ min (xi_length n1 n2) 64 }
{
    if n1 == 0 && n2 == 0 {
        0
    } else {
        n1.min(63) + 1
    }
}

// How many the second point of a question of the inner solve has, where a xi has so many places.
fn carried_places(n: usize, xi: usize, phase: Phase) -> usize
    ensures { result ≡ carried_second n xi phase }
{
    match phase {
        Phase::Direction => n,
        Phase::Over
        | Phase::Project
        | Phase::DoubledProject
        | Phase::FirstProject
        | Phase::TriedProject
        | Phase::Time => 0,
        _ => xi,
    }
}

// How many its second point has, at most 64.
fn second_places(s: Alm) -> usize
    ensures { result ≡ min (loop_second s) 64 }
{
    let xi = xi_places(s.set.n1, s.set.n2);
    match s.phase {
        AlmPhase::LastCost => xi,
        AlmPhase::Inner => carried_places(s.set.n, xi, s.solve.phase).min(64),
        _ => 0,
    }
}

// A question, with its points.
fn put_asked(question: AlmQuestion, run: &AlmRun) -> Line
    ensures { result.items ≡ loop_asked (loop_run run.now.alm run.now.board) (loop_asked_of question) }
{
    let n = first_places(run.alm).min(64);
    let m = second_places(run.alm);
    let mut p = places();
    let mut q = places();
    let first = &mut p[..n];
    let second = &mut q[..m];
    let done = points(run, first, second);
    shown(done, name(question), first, then(question), second)
}

// ended END OUTER INNER NORM COST C DELTA_Y F2
#[tactic(auto, unfolding(crate::specs::Texts::loop_ended))]
fn put_ended(status: AlmOptimizerStatus) -> Line
    ensures { result.items ≡ loop_ended (loop_numbers_of status) }
{
    let mut line = ended(status.exit_status, status.num_outer_iterations.0);
    put_counted(b" ", status.num_inner_iterations.0 as u64, &mut line);
    let numbers = [
        status.last_problem_norm_fpr,
        status.cost,
        status.penalty,
        status.delta_y_norm,
        status.f2_norm,
    ];
    put_floats(&numbers, &mut line);
    line
}
