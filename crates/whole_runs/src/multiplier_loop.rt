// The multiplier loop.
ghost use Rattle.alm_engine.specs.Values.{loop_settings_of};
ghost use Rattle.alm_engine.specs.LoopRuns.{loop_stepped};
ghost use Rattle.alm_optimizer.specs.Calls.{loop_gave};
ghost use Rattle.whole_runs.specs.Feed.{answers};
ghost use Rattle.whole_runs.specs.Whole.{LoopSolves};

use crate::answers::{Answer, next};
use alm_engine::alm_cache::{AlmAnswered, AlmOutcome, AlmSettings, AlmStepped};
use alm_optimizer::answering::{answer, answer_in_place};
use alm_optimizer::starting::{start, start_in_place};

// A run by value from u and xi; plan and multipliers are the places of what is handed back, of any length. A start that is refused is fed nothing.
pub fn solve(
    set: AlmSettings,
    u: &[f64],
    xi: &[f64],
    list: &[Answer],
    floats: &[f64],
    plan: &mut [f64],
    multipliers: &mut [f64],
) -> AlmAnswered
    ensures { LoopSolves (loop_settings_of set) u.now xi.now (answers list.now floats.now) plan.old plan.new multipliers.old multipliers.new (loop_gave result) }
{
    let mut last = start(set, u, xi);
    if let AlmOutcome::Refused(_) = last.outcome {
        return last;
    }
    let mut rest = floats;
    for a in list {
        let (v, more) = next(a.length, rest);
        rest = more;
        last = answer(last.run, a.reply, v, plan, multipliers);
    }
    last
}

// The same in place, where the board is lent.
pub fn solve_in_place(
    set: AlmSettings,
    u: &[f64],
    xi: &[f64],
    list: &[Answer],
    floats: &[f64],
    plan: &mut [f64],
    multipliers: &mut [f64],
    board: &mut [f64; 768],
) -> AlmStepped
    ensures { LoopSolves (loop_settings_of set) u.now xi.now (answers list.now floats.now) plan.old plan.new multipliers.old multipliers.new (loop_stepped result board.new) }
{
    let mut last = start_in_place(set, u, xi, board);
    if let AlmOutcome::Refused(_) = last.outcome {
        return last;
    }
    let mut rest = floats;
    for a in list {
        let (v, more) = next(a.length, rest);
        rest = more;
        last = answer_in_place(a.reply, v, last.state, plan, multipliers, board);
    }
    last
}
