// The multiplier loop.
ghost use Rattle.std.specs.Prelude.{◌≡◌};
ghost use Rattle.std.specs.Float.{binary64};
ghost use Rattle.machine.specs.Machines.{loop_machine};
ghost use Rattle.machine.specs.LoopAnswer.{points};
ghost use Rattle.machine.specs.Numbers.{outcome_number};
ghost use Rattle.values.specs.Feeding.{fed, shown};
ghost use Rattle.values.specs.Runs.{loop_stands, loop_begun, loop_fed};

use crate::answers::{behind, reply_in, vector_in};
use crate::task::{Task, kind_of, number_in};
use alm_engine::alm_cache::AlmAnswered;
use alm_optimizer::answering::answer;
use alm_optimizer::showing::points;
use alm_optimizer::starting::start;

// The answers, one after the other.
fn feed(
    mut last: AlmAnswered,
    places: &[u32],
    xs: &[f64],
    plan: &mut [f64],
    xi: &mut [f64],
) -> AlmAnswered
    ensures { loop_stands result plan.new xi.new ≡ fed (loop_machine binary64) places.now xs.now (loop_stands last plan.old xi.old) }
{
    let mut rest = xs;
    for &k in places {
        last = answer(last.run, reply_in(k, rest), vector_in(k, rest), plan, xi);
        rest = behind(k, rest);
    }
    last
}

// A run that begins at u and xi: the kind of what the start told.
#[unsafe(no_mangle)]
pub extern "C" fn values_loop_start(task: &Task, u: &[f64], xi: &[f64]) -> u32
    ensures { result ≡ outcome_number (loop_begun task.now u.now xi.now).told }
{
    kind_of(start(task.loop_settings(), u, xi).outcome)
}

// A run that begins at u and xi and is given the answers: the kind of what the last call told; the plan, and the penalty with the multipliers, where the run
// has ended.
#[unsafe(no_mangle)]
pub extern "C" fn values_loop(
    task: &Task,
    u: &[f64],
    xi: &mut [f64],
    places: &[u32],
    xs: &[f64],
    plan: &mut [f64],
) -> u32
    ensures number { result ≡ outcome_number (loop_fed task.now u.now xi.old places.now xs.now plan.old).told }
    ensures plan { plan.new ≡ (loop_fed task.now u.now xi.old places.now xs.now plan.old).lent.u }
    ensures xi { xi.new ≡ (loop_fed task.now u.now xi.old places.now xs.now plan.old).lent.xi }
{
    let last = feed(start(task.loop_settings(), u, xi), places, xs, plan, xi);
    kind_of(last.outcome)
}

// The points of its first question.
#[unsafe(no_mangle)]
pub extern "C" fn values_loop_points(
    task: &Task,
    u: &[f64],
    xi: &[f64],
    first: &mut [f64],
    second: &mut [f64],
) -> u32
    ensures { shown result first.new second.new ≡ points (loop_begun task.now u.now xi.now).run first.old second.old }
{
    let begun = start(task.loop_settings(), u, xi);
    number_in(points(&begun.run, first, second))
}
