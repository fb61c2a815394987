// What the calls share: what a run waits for, the number of its question, and the plan that an end hands out.
ghost use Rattle.std.specs.Prelude.{◌≡◌, ◌≤◌, List, Float, length};
ghost use Rattle.machine.specs.InnerRest.{sound};
ghost use Rattle.machine.specs.InnerAnswer.{wanted_by};
ghost use Rattle.machine.specs.Standing.{inner_standing};
ghost use Rattle.board.specs.Board.{Board};
ghost use Rattle.panoc_engine.specs.Values.{kind_of};
ghost use Rattle.panoc_engine.specs.Runs as Runs;
ghost use Rattle.panoc_fields.specs.Fields.{solve_at, run_at, handed};

use crate::fields::{InnerC, InnerFields};
use crate::numbers::{ENDED, NO_QUESTION, flag_at, phase_at, question_number};
use board::BEST;
use board::copies::give;
use panoc_engine::answers::{question_at, wants_at};
use panoc_engine::panoc_cache::Phase;
use panoc_engine::refusals::Wanted;

// Whether sizes and counts are in range. The fields are read where they lie: of a whole small part all would be read before the answer's kind is known.
#[tactic(auto, unfolding(machine::specs::InnerRest::sound, panoc_engine::specs::Runs::run_of))]
pub fn in_range(run: &InnerFields) -> bool
    ensures { (l : List Float) → result ≡ sound (run_at run.now l) }
{
    run.n <= 64 && run.max_iter <= 10000 && run.left <= 10000 && run.iterations <= 10000 - run.left
}

// What a run waits for.
#[tactic(auto, using(panoc_engine::proofs::Answered::wanted_some, panoc_engine::proofs::Answered::wanted_none))]
pub fn waits(run: &InnerFields) -> Option<Wanted>
    ensures { (l : List Float) → kind_of result ≡ wanted_by (run_at run.now l) }
{
    if in_range(run) {
        wants_at(run.n, phase_at(run.phase))
    } else {
        None
    }
}

// The number of the question that stands, whatever its points.
pub fn standing(run: &InnerFields) -> u32
    ensures { (b : Board) → result ≡ inner_standing (Runs.run_at (solve_at run.now) b) }
{
    if !in_range(run) {
        return NO_QUESTION;
    }
    let phase = phase_at(run.phase);
    if let Phase::Over = phase {
        return NO_QUESTION;
    }
    question_number(question_at(phase, flag_at(run.forget)))
}

// The plan lies in the best half step; it goes out where the run has just ended.
pub fn hand_out(run: &InnerC, plan: &mut [f64])
    requires { length plan.old ≤ 64 }
    ensures { plan.new ≡ handed run.now plan.old }
{
    if run.inner.outcome == ENDED {
        give(&run.board[..], BEST, plan);
    }
}
