// An inner solve.
ghost use Rattle.panoc_engine.specs.Values.{settings_of};
ghost use Rattle.panoc_engine.specs.Runs.{stepped};
ghost use Rattle.panoc_optimizer.specs.Calls.{gave};
ghost use Rattle.whole_runs.specs.Feed.{answers};
ghost use Rattle.whole_runs.specs.Whole.{Solves};

use crate::answers::{Answer, next};
use panoc_engine::outcome::Outcome;
use panoc_engine::panoc_cache::{Answered, Settings, Stepped};
use panoc_optimizer::{answer, answer_in_place, start, start_in_place};

// A run by value from u; plan is the place of its plan, of any length. A start that is refused is fed nothing.
pub fn solve(
    set: Settings,
    u: &[f64],
    list: &[Answer],
    floats: &[f64],
    plan: &mut [f64],
) -> Answered
    ensures { Solves (settings_of set) u.now (answers list.now floats.now) plan.old plan.new (gave result) }
{
    let mut last = start(set, u);
    if let Outcome::Refused(_) = last.outcome {
        return last;
    }
    let mut rest = floats;
    for a in list {
        let (v, more) = next(a.length, rest);
        rest = more;
        last = answer(last.run, a.reply, v, plan);
    }
    last
}

// The same in place, where the board is lent.
pub fn solve_in_place(
    set: Settings,
    u: &[f64],
    list: &[Answer],
    floats: &[f64],
    plan: &mut [f64],
    board: &mut [f64; 576],
) -> Stepped
    ensures { Solves (settings_of set) u.now (answers list.now floats.now) plan.old plan.new (stepped result board.new) }
{
    let mut last = start_in_place(set, u, board);
    if let Outcome::Refused(_) = last.outcome {
        return last;
    }
    let mut rest = floats;
    for given in list {
        let (v, more) = next(given.length, rest);
        rest = more;
        last = answer_in_place(last.state, given.reply, v, plan, board);
    }
    last
}
