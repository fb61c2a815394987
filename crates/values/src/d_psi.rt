// d_psi.
ghost use Rattle.std.specs.Prelude.{◌≡◌};
ghost use Rattle.std.specs.Float.{binary64};
ghost use Rattle.machine.specs.Machines.{d_psi_machine};
ghost use Rattle.values.specs.Feeding.{fed};
ghost use Rattle.values.specs.Runs.{d_psi_stands, DPsiBegun, DPsiFed, DPsiShows};

use crate::answers::{behind, reply_in, vector_in};
use crate::task::{Task, kind_of, number_in};
use alm_factory::d_psi_answers::d_psi_answer;
use alm_factory::points::d_psi_points;
use alm_factory::records::DPsiAnswered;
use alm_factory::starting::d_psi_start;

// The answers, one after the other.
fn feed(mut last: DPsiAnswered, places: &[u32], xs: &[f64], res: &mut [f64]) -> DPsiAnswered
    ensures { d_psi_stands result res.new ≡ fed (d_psi_machine binary64) places.now xs.now (d_psi_stands last res.old) }
{
    let mut rest = xs;
    for &k in places {
        last = d_psi_answer(last.run, reply_in(k, rest), vector_in(k, rest), res);
        rest = behind(k, rest);
    }
    last
}

// A run that begins at u and xi: the kind of what the start told.
#[unsafe(no_mangle)]
pub extern "C" fn values_d_psi_start(task: &Task, u: &[f64], xi: &[f64]) -> u32
    ensures { DPsiBegun task.now u.now xi.now result }
{
    kind_of(d_psi_start(task.sizes(), u, xi).outcome)
}

// A run that begins at u and xi and is given the answers: the kind of what the last call told, and the gradient where the run has ended.
#[unsafe(no_mangle)]
pub extern "C" fn values_d_psi(
    task: &Task,
    u: &[f64],
    xi: &[f64],
    places: &[u32],
    xs: &[f64],
    res: &mut [f64],
) -> u32
    ensures { DPsiFed task.now u.now xi.now places.now xs.now res.old res.new result }
{
    let last = feed(d_psi_start(task.sizes(), u, xi), places, xs, res);
    kind_of(last.outcome)
}

// The points of its first question.
#[unsafe(no_mangle)]
pub extern "C" fn values_d_psi_points(
    task: &Task,
    u: &[f64],
    xi: &[f64],
    first: &mut [f64],
    second: &mut [f64],
) -> u32
    ensures { DPsiShows task.now u.now xi.now first.old first.new second.old second.new result }
{
    number_in(d_psi_points(d_psi_start(task.sizes(), u, xi).run, first, second))
}
