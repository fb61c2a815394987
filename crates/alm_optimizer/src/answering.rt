// The answer to the question of a run.
ghost use Rattle.std.specs.Prelude.{◌≡◌, ◌≤◌, ◌+◌, ◌*◌, length};
ghost use Rattle.std.specs.Float.{binary64};
ghost use Rattle.board.specs.Board.{vector};
ghost use Rattle.machine.specs.Told.{given};
ghost use Rattle.machine.specs.Waits.{Stays};
ghost use Rattle.machine.specs.LoopAnswer.{refused_by, answer, plan_after, xi_after};
ghost use Rattle.panoc_engine.specs.Values.{reply_of};
ghost use Rattle.alm_engine.specs.Values.{loop_told_of};
ghost use Rattle.alm_engine.specs.LoopRuns.{loop_run, loop_stepped};
ghost use Rattle.alm_optimizer.specs.Calls.{loop_gave, xi_filled};

use crate::waiting::answer_refusal;
use alm_engine::alm_cache::{Alm, AlmAnswered, AlmOutcome, AlmRun, AlmStepped};
use alm_engine::answers::answer_accepted;
use board::copies::give;
use board::{U, Y_PLUS};
use panoc_engine::panoc_cache::Reply;

// The penalty goes into place 0 of a xi that is not empty, and the multipliers, vector `from`, into the part from place 1 on.
#[tactic(auto, unfolding(crate::specs::Calls::xi_filled))]
pub fn fill_xi(penalty: f64, board: &[f64], from: usize, xi: &mut [f64])
    requires { 64 * from + length xi.old ≤ length board.now }
    ensures { xi.new ≡ xi_filled from penalty board.now xi.old }
{
    if !xi.is_empty() {
        xi[0] = penalty;
        give(board, from, &mut xi[1..]);
    }
}

// The plan lies in u; it is handed out where the run has ended.
#[tactic(auto, unfolding(machine::specs::Told::given))]
pub fn hand_out(outcome: AlmOutcome, board: &[f64], plan: &mut [f64])
    requires { length plan.old ≤ length board.now }
    ensures { plan.new ≡ given (loop_told_of outcome) (vector 0 (length plan.old) board.now) plan.old }
{
    match outcome {
        AlmOutcome::Ended(_) => give(board, U, plan),
        AlmOutcome::Asked(_) | AlmOutcome::Refused(_) | AlmOutcome::Failed(_) => {}
    }
}

// So are the penalty and the multipliers, which lie in y_plus.
#[tactic(auto, unfolding(machine::specs::Told::given))]
pub fn hand_out_xi(outcome: AlmOutcome, penalty: f64, board: &[f64], xi: &mut [f64])
    requires { 640 + length xi.old ≤ length board.now }
    ensures { xi.new ≡ given (loop_told_of outcome) (xi_filled 10 penalty board.now xi.old) xi.old }
{
    match outcome {
        AlmOutcome::Ended(_) => fill_xi(penalty, board, Y_PLUS, xi),
        AlmOutcome::Asked(_) | AlmOutcome::Refused(_) | AlmOutcome::Failed(_) => {}
    }
}

// An answer in place: v is the vector lent with it, plan and xi are the places of the plan and of the penalty and the multipliers.
#[tactic(auto, using(crate::proofs::Answers::answer_turns, crate::proofs::Answers::plan_stays, crate::proofs::Answers::xi_stays, crate::proofs::Answers::accepted_places, crate::proofs::Answers::accepted_us, crate::proofs::Answers::accepted_xs, crate::proofs::Answers::answer_goes, crate::proofs::Answers::plan_given, crate::proofs::Answers::xi_given, crate::proofs::Answers::answer_stays, crate::proofs::Answers::accepted_stays_not))]
pub fn answer_in_place(
    a: Reply,
    v: &[f64],
    s: Alm,
    plan: &mut [f64],
    xi: &mut [f64],
    board: &mut [f64; 768],
) -> AlmStepped
    ensures run { loop_stepped result board.new ≡ answer binary64 (loop_run s board.old) (reply_of a) v.now plan.old xi.old }
    ensures plan { plan.new ≡ plan_after (answer binary64 (loop_run s board.old) (reply_of a) v.now plan.old xi.old) plan.old }
    ensures xi { xi.new ≡ xi_after (answer binary64 (loop_run s board.old) (reply_of a) v.now plan.old xi.old) xi.old }
    ensures state { Stays (refused_by (loop_run s board.old) (reply_of a) (length v.now) (length plan.old) (length xi.old)) s result.state }
    ensures board { Stays (refused_by (loop_run s board.old) (reply_of a) (length v.now) (length plan.old) (length xi.old)) board.old board.new }
{
    if let Some(refusal) = answer_refusal(a, v.len(), plan.len(), xi.len(), s) {
        return AlmStepped {
            outcome: AlmOutcome::Refused(refusal),
            state: s,
        };
    }
    let r = answer_accepted(a, v, s, board);
    hand_out(r.outcome, board, plan);
    hand_out_xi(r.outcome, r.state.numbers.penalty, board, xi);
    r
}

// An answer by value.
pub fn answer(mut run: AlmRun, a: Reply, v: &[f64], plan: &mut [f64], xi: &mut [f64]) -> AlmAnswered
    ensures run { loop_gave result ≡ answer binary64 (loop_run run.alm run.board) (reply_of a) v.now plan.old xi.old }
    ensures plan { plan.new ≡ plan_after (answer binary64 (loop_run run.alm run.board) (reply_of a) v.now plan.old xi.old) plan.old }
    ensures xi { xi.new ≡ xi_after (answer binary64 (loop_run run.alm run.board) (reply_of a) v.now plan.old xi.old) xi.old }
    ensures stays { Stays (refused_by (loop_run run.alm run.board) (reply_of a) (length v.now) (length plan.old) (length xi.old)) run result.run }
{
    let r = answer_in_place(a, v, run.alm, plan, xi, &mut run.board);
    run.alm = r.state;
    AlmAnswered {
        outcome: r.outcome,
        run,
    }
}
