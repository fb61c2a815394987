// The inner solve.
ghost use Rattle.std.specs.Prelude.{◌≡◌};
ghost use Rattle.std.specs.Float.{binary64};
ghost use Rattle.machine.specs.Machines.{inner_machine};
ghost use Rattle.machine.specs.InnerAnswer.{points};
ghost use Rattle.machine.specs.Numbers.{outcome_number};
ghost use Rattle.values.specs.Feeding.{fed, shown};
ghost use Rattle.values.specs.Runs.{inner_stands, inner_begun, inner_fed};

use crate::answers::{behind, reply_in, vector_in};
use crate::task::{Task, kind_of, number_in};
use panoc_engine::panoc_cache::Answered;
use panoc_optimizer::{answer, points, start};

// The answers, one after the other.
fn feed(mut last: Answered, places: &[u32], xs: &[f64], plan: &mut [f64]) -> Answered
    ensures { inner_stands result plan.new ≡ fed (inner_machine binary64) places.now xs.now (inner_stands last plan.old) }
{
    let mut rest = xs;
    for &k in places {
        last = answer(last.run, reply_in(k, rest), vector_in(k, rest), plan);
        rest = behind(k, rest);
    }
    last
}

// A run that begins at u: the kind of what the start told.
#[unsafe(no_mangle)]
pub extern "C" fn values_inner_start(task: &Task, u: &[f64]) -> u32
    ensures { result ≡ outcome_number (inner_begun task.now u.now).told }
{
    kind_of(start(task.inner_settings(), u).outcome)
}

// A run that begins at u and is given the answers: the kind of what the last call told, and the plan where the run has ended.
#[unsafe(no_mangle)]
pub extern "C" fn values_inner(
    task: &Task,
    u: &[f64],
    places: &[u32],
    xs: &[f64],
    plan: &mut [f64],
) -> u32
    ensures number { result ≡ outcome_number (inner_fed task.now u.now places.now xs.now plan.old).told }
    ensures plan { plan.new ≡ (inner_fed task.now u.now places.now xs.now plan.old).lent }
{
    let last = feed(start(task.inner_settings(), u), places, xs, plan);
    kind_of(last.outcome)
}

// The points of its first question.
#[unsafe(no_mangle)]
pub extern "C" fn values_inner_points(
    task: &Task,
    u: &[f64],
    first: &mut [f64],
    second: &mut [f64],
) -> u32
    ensures { shown result first.new second.new ≡ points (inner_begun task.now u.now).run first.old second.old }
{
    let begun = start(task.inner_settings(), u);
    number_in(points(&begun.run, first, second))
}
