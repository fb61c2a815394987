// What is printed of a call of an inner solve.
ghost use Rattle.std.specs.Prelude.{◌≡◌};
ghost use Rattle.panoc_engine.specs.Values.{asked_of, numbers_of};
ghost use Rattle.panoc_engine.specs.Runs.{run_of};
ghost use Rattle.panoc_engine.specs.Places.{first_places, second_places};
ghost use Rattle.panoc_optimizer.specs.Calls.{gave};
ghost use Rattle.transcript.specs.Texts.{inner_asked, inner_ended, inner_line};

use crate::names::{name, then};
use crate::output::{Line, ended, failed, places, refused, shown};
use panoc_engine::panoc_cache::{Answered, Outcome, Phase, Question, Run, SolverStatus};
use panoc_optimizer::points;
use words::line_printing::put_floats;

// What a call gave.
#[tactic(auto, unfolding(crate::specs::Texts::inner_line, crate::specs::Texts::told_text))]
pub fn told(r: &Answered) -> Line
    ensures { result.items ≡ inner_line (gave r.now) }
{
    match r.outcome {
        Outcome::Asked(question) => put_asked(question, r.run),
        Outcome::Ended(status) => put_ended(status),
        Outcome::Refused(refusal) => refused(refusal),
        Outcome::Failed(code) => failed(code),
    }
}

// How many places the first point of the question of a phase has: TIME has none.
pub fn first_places(n: usize, phase: Phase) -> usize
    ensures { result ≡ first_places n phase }
{
    match phase {
        Phase::Time => 0,
        _ => n,
    }
}

// How many the second has: DIRECTION alone has one.
fn second_places(n: usize, phase: Phase) -> usize
    ensures { result ≡ second_places n phase }
{
    match phase {
        Phase::Direction => n,
        _ => 0,
    }
}

// A question, with its points.
fn put_asked(question: Question, run: Run) -> Line
    ensures { result.items ≡ inner_asked (run_of run.solve run.board) (asked_of question) }
{
    let s = run.solve;
    let n = first_places(s.set.n, s.phase).min(64);
    let m = second_places(s.set.n, s.phase).min(64);
    let mut p = places();
    let mut q = places();
    let first = &mut p[..n];
    let second = &mut q[..m];
    let done = points(&run, first, second);
    shown(done, name(question), first, then(question), second)
}

// ended END ITERATIONS NORM COST
#[tactic(auto, unfolding(crate::specs::Texts::inner_ended))]
fn put_ended(status: SolverStatus) -> Line
    ensures { result.items ≡ inner_ended (numbers_of status) }
{
    let mut line = ended(status.exit_status, status.iterations.0);
    put_floats(&[status.norm_fpr, status.cost_value], &mut line);
    line
}
