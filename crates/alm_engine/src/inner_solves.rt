// What an inner solve has come to, carried on by the loop.
ghost use Rattle.std.specs.Prelude.{◌≡◌, ◌≤◌};
ghost use Rattle.std.specs.Float.{binary64};
ghost use Rattle.machine.specs.InnerRest.{Counted};
ghost use Rattle.machine.specs.LoopMoves.{carried, ask_f1, solved};
ghost use Rattle.panoc_engine.specs.Values.{told_of, numbers_of};
ghost use Rattle.alm_engine.specs.LoopRuns.{loop_run, Stands, weighed, loop_stepped};

use crate::alm_cache::{Alm, AlmOutcome, AlmPhase, AlmQuestion, AlmStepped, Weighed};
use crate::keeping::{keep_ended, keep_weighed};
use crate::weighing::ask_f1;
use panoc_engine::panoc_cache::{Outcome, SolverStatus};

// An inner solve has come to its end: its end, iterations and norm are kept, and F1 is next.
#[tactic(auto, using(crate::proofs::Carried::solved_is))]
pub fn on_solved(e: SolverStatus, s: Alm, board: &mut [f64]) -> Weighed
    requires { (Stands s board.old) × (e.iterations.0 ≤ 10000) }
    ensures { weighed s result board.new ≡ ask_f1 binary64 (solved (numbers_of e) (loop_run s board.old)) }
{
    let mut t = s;
    t.counts.status = e.exit_status;
    t.counts.found = e.iterations;
    t.numbers.norm_fpr = e.norm_fpr;
    ask_f1(t, board)
}

// What it comes to: another question, its end, a refusal or a failure.
#[tactic(auto, using(crate::proofs::Carried::carried_asked, crate::proofs::Carried::carried_ended, crate::proofs::Carried::carried_refused, crate::proofs::Carried::carried_failed, crate::proofs::Carried::counted_end))]
pub fn on_inner(outcome: Outcome, s: Alm, board: &mut [f64]) -> AlmStepped
    requires { (Stands s board.old) × (Counted (told_of outcome)) }
    ensures { loop_stepped result board.new ≡ carried binary64 (told_of outcome) (loop_run s board.old) }
{
    match outcome {
        Outcome::Asked(question) => {
            let mut state = s;
            state.phase = AlmPhase::Inner;
            AlmStepped {
                outcome: AlmOutcome::Asked(AlmQuestion::Inner(question)),
                state,
            }
        }
        Outcome::Ended(e) => keep_weighed(on_solved(e, s, board), s),
        Outcome::Refused(refusal) => keep_ended(AlmOutcome::Refused(refusal), s),
        Outcome::Failed(code) => keep_ended(AlmOutcome::Failed(code), s),
    }
}
