// psi.
ghost use Rattle.std.specs.Prelude.{◌≡◌};
ghost use Rattle.std.specs.Float.{binary64};
ghost use Rattle.machine.specs.Machines.{psi_machine};
ghost use Rattle.values.specs.Feeding.{fed};
ghost use Rattle.values.specs.Runs.{psi_stands, PsiBegun, PsiFed, PsiShows};

use crate::answers::{behind, reply_in, vector_in};
use crate::task::{Task, kind_of, number_in};
use alm_factory::points::psi_points;
use alm_factory::psi_answers::psi_answer;
use alm_factory::records::{PsiAnswered, PsiOutcome};
use alm_factory::starting::psi_start;

// The answers, one after the other.
fn feed(mut last: PsiAnswered, places: &[u32], xs: &[f64]) -> PsiAnswered
    ensures { psi_stands result ≡ fed (psi_machine binary64) places.now xs.now (psi_stands last) }
{
    let mut rest = xs;
    for &k in places {
        last = psi_answer(last.run, reply_in(k, rest), vector_in(k, rest));
        rest = behind(k, rest);
    }
    last
}

// A run that begins at u and xi: the kind of what the start told.
#[unsafe(no_mangle)]
pub extern "C" fn values_psi_start(task: &Task, u: &[f64], xi: &[f64]) -> u32
    ensures { PsiBegun task.now u.now xi.now result }
{
    kind_of(psi_start(task.sizes(), u, xi).outcome)
}

// A run that begins at u and xi and is given the answers: the kind of what the last call told, and psi where the run has ended.
#[unsafe(no_mangle)]
pub extern "C" fn values_psi(
    task: &Task,
    u: &[f64],
    xi: &[f64],
    places: &[u32],
    xs: &[f64],
    value: &mut f64,
) -> u32
    ensures { PsiFed task.now u.now xi.now places.now xs.now value.old value.new result }
{
    let last = feed(psi_start(task.sizes(), u, xi), places, xs);
    if let PsiOutcome::Ended(x) = last.outcome {
        *value = x;
    }
    kind_of(last.outcome)
}

// The point of its first question.
#[unsafe(no_mangle)]
pub extern "C" fn values_psi_points(
    task: &Task,
    u: &[f64],
    xi: &[f64],
    first: &mut [f64],
    second: &mut [f64],
) -> u32
    ensures { PsiShows task.now u.now xi.now first.old first.new second.old second.new result }
{
    number_in(psi_points(psi_start(task.sizes(), u, xi).run, first, second))
}
