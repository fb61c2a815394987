// The public calls of the inner solve, in place and by value: a start, an answer, and the points of a question. The records are those of panoc_engine.
#![tactic(auto)]

ghost use Rattle.std.specs.Prelude.{◌≡◌, ◌≤◌, ◌<◌, ◌+◌, ◌*◌, length};
ghost use Rattle.std.specs.Float.{binary64};
ghost use Rattle.model.specs.Refusals as R;
ghost use Rattle.board.specs.Board.{vector};
ghost use Rattle.machine.specs.Told.{given};
ghost use Rattle.machine.specs.Waits.{Stays};
ghost use Rattle.machine.specs.InnerAnswer.{start, refused_by, answer, plan_after, points};
ghost use Rattle.panoc_engine.specs.Told.{number_of};
ghost use Rattle.panoc_engine.specs.Values.{akkt_of, settings_of, reply_of, told_of};
ghost use Rattle.panoc_engine.specs.Runs.{run_of, stepped};
ghost use Rattle.panoc_engine.specs.Blank.{blank};
ghost use Rattle.panoc_optimizer.specs.Calls.{gave, no_places, shows};

use board::copies::{give, is_finite_in, take_into};
use board::{BEST, U};
use panoc_engine::answers::{answer_accepted, in_range, wants};
use panoc_engine::first::blank;
use panoc_engine::outcome::Refusal;
use panoc_engine::panoc_cache::{
    Answered, Outcome, Phase, Question, Reply, Run, Settings, Solve, Stepped,
};
use panoc_engine::points::{first_places, place_of, second_places};
use panoc_engine::refusals::refusal;
use starts::numbers::{limit_right, tolerance_right};
use starts::sizes::sizes_right;

// ---- start

// The AKKT tolerance may be missing.
#[tactic(auto, unfolding(model::specs::Refusals::akkt_right))]
pub fn akkt_right(akkt: Option<f64>) -> bool
    ensures { result ≡ R.akkt_right (akkt_of akkt) }
{
    akkt.is_none_or(tolerance_right)
}

// Why a start at a lent u is refused: 1, 19, 3 or 4 of the table.
#[tactic(auto, unfolding(model::specs::Refusals::inner_refusal, model::specs::Refusals::unless))]
pub fn start_refusal(set: Settings, u: &[f64]) -> Option<Refusal>
    ensures { number_of result ≡ R.inner_refusal (settings_of set) u.now }
{
    if !sizes_right(set.n, u.len()) {
        return Some(Refusal::Sizes);
    }
    if !is_finite_in(u) {
        return Some(Refusal::InitialGuess);
    }
    if !limit_right(10000, set.max_iter) {
        return Some(Refusal::Limits);
    }
    if tolerance_right(set.tolerance) && akkt_right(set.akkt_tolerance) {
        None
    } else {
        Some(Refusal::Tolerances)
    }
}

// A run in place that is begun at u, or its refusal.
#[tactic(auto, using(crate::proofs::Calls::start_stops, crate::proofs::Calls::start_begins, crate::proofs::Calls::start_size))]
pub fn start_in_place(set: Settings, u: &[f64], board: &mut [f64; 576]) -> Stepped
    ensures { stepped result board.new ≡ start (settings_of set) u.now (run_of (blank set) board.old) }
{
    let mut state = blank(set);
    if let Some(refusal) = start_refusal(set, u) {
        state.phase = Phase::Over;
        return Stepped {
            outcome: Outcome::Refused(refusal),
            state,
        };
    }
    take_into(u, board, U);
    Stepped {
        outcome: Outcome::Asked(Question::Cost),
        state,
    }
}

// A board of zeros, by a name: callers learn of the literal here that it is `null` at every place.
#[tactic(auto, using(ieee::proofs::Special::zero_bits), unfolding(crate::specs::Calls::no_places))]
fn zeros() -> [f64; 576]
    ensures places { 576 ≤ length result }
    ensures zeros { result ≡ no_places }
{
    [0.0; 576]
}

// A run by value that is begun at u, or its refusal.
pub fn start(set: Settings, u: &[f64]) -> Answered
    ensures { gave result ≡ start (settings_of set) u.now (run_of (blank set) (no_places)) }
{
    let mut board = zeros();
    let r = start_in_place(set, u, &mut board);
    Answered {
        outcome: r.outcome,
        run: Run {
            solve: r.state,
            board,
        },
    }
}

// ---- answer

// The plan lies in the best half step; it is handed out where the run has ended.
#[tactic(auto, unfolding(machine::specs::Told::given))]
pub fn hand_out(outcome: Outcome, board: &[f64], u: &mut [f64])
    requires { 64 * BEST + length u.old ≤ length board.now }
    ensures { u.new ≡ given (told_of outcome) (vector BEST (length u.old) board.now) u.old }
{
    match outcome {
        Outcome::Ended(_) => give(board, BEST, u),
        Outcome::Asked(_) | Outcome::Refused(_) | Outcome::Failed(_) => {}
    }
}

// An answer to the question of a run in place; v is the vector lent with it, and u the place of the plan.
#[tactic(auto, using(crate::proofs::Calls::answers))]
pub fn answer_in_place(
    s: Solve,
    a: Reply,
    v: &[f64],
    u: &mut [f64],
    board: &mut [f64; 576],
) -> Stepped
    ensures run { stepped result board.new ≡ answer binary64 (run_of s board.old) (reply_of a) v.now u.old }
    ensures plan { u.new ≡ plan_after (answer binary64 (run_of s board.old) (reply_of a) v.now u.old) u.old }
    ensures state { Stays (refused_by (run_of s board.old) (reply_of a) (length v.now) (length u.old)) s result.state }
    ensures board { Stays (refused_by (run_of s board.old) (reply_of a) (length v.now) (length u.old)) board.old board.new }
{
    if let Some(refusal) = refusal(wants(s), a, v.len(), u.len() == s.set.n) {
        return Stepped {
            outcome: Outcome::Refused(refusal),
            state: s,
        };
    }
    let r = answer_accepted(a, v, s, board);
    hand_out(r.outcome, board, u);
    r
}

// An answer to the question of a run by value.
pub fn answer(mut run: Run, a: Reply, v: &[f64], u: &mut [f64]) -> Answered
    ensures run { gave result ≡ answer binary64 (run_of run.solve run.board) (reply_of a) v.now u.old }
    ensures plan { u.new ≡ plan_after (answer binary64 (run_of run.solve run.board) (reply_of a) v.now u.old) u.old }
    ensures stays { Stays (refused_by (run_of run.solve run.board) (reply_of a) (length v.now) (length u.old)) run result.run }
{
    let r = answer_in_place(run.solve, a, v, u, &mut run.board);
    run.solve = r.state;
    Answered {
        outcome: r.outcome,
        run,
    }
}

// ---- points

// The points of the question of a run in place, copied; refused where it has ended or a slice is not as long as its point.
#[tactic(auto, using(crate::proofs::Shows::points))]
pub fn points_in_place(
    s: Solve,
    board: &[f64; 576],
    first: &mut [f64],
    second: &mut [f64],
) -> Result<(), Refusal>
    ensures { shows result first.new second.new ≡ points (run_of s board.now) first.old second.old }
{
    if !in_range(s) {
        return Err(Refusal::Over);
    }
    let phase = s.phase;
    if let Phase::Over = phase {
        return Err(Refusal::Over);
    }
    let n = s.set.n;
    if !(first.len() == first_places(n, phase) && second.len() == second_places(n, phase)) {
        return Err(Refusal::Lengths);
    }
    give(board, place_of(phase), first);
    give(board, U, second);
    Ok(())
}

// Those of a run by value.
pub fn points(run: &Run, first: &mut [f64], second: &mut [f64]) -> Result<(), Refusal>
    ensures { shows result first.new second.new ≡ points (run_of run.now.solve run.now.board) first.old second.old }
{
    points_in_place(run.solve, &run.board, first, second)
}
