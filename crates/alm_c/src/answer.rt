// An answer of any kind.
ghost use Rattle.machine.specs.Numbers.{reply_of};
ghost use Rattle.alm_fields.specs.Fields.{Leaves};

use alm_fields::answering::answer_accepted;
use alm_fields::calls::{hand_out, lent_fits, waits};
use alm_fields::fields::AlmC;
use panoc_engine::refusals::refusal;
use panoc_fields::numbers::{number_of_no_kind, reply_at};

// An answer to the question of a run, by its kind: 0 the number x, 1 the vector v, 2 yes, 3 no, 4 the failure code; a plan, and the penalty with the
// multipliers, go into the lent slices. 6 to 8 where it is refused: then nothing is written; 9 for a failure.
#[unsafe(no_mangle)]
pub extern "C" fn pozkerrin_loop_answer(
    run: &mut AlmC,
    kind: u32,
    x: f64,
    code: u32,
    v: &[f64],
    plan: &mut [f64],
    xi: &mut [f64],
) -> u32
    ensures { Leaves (reply_of kind x code) v.now plan.old plan.new xi.old xi.new run.old run.new result }
{
    let wanted = waits(&run.inner, &run.alm);
    let Some(a) = reply_at(kind, x, code) else {
        return number_of_no_kind(wanted);
    };
    let fits = lent_fits(&run.alm, plan.len(), xi.len());
    if let Some(refusal) = refusal(wanted, a, v.len(), fits) {
        return refusal.number();
    }
    let number = answer_accepted(a, v, &mut run.inner, &mut run.alm, &mut run.board[..]);
    hand_out(run, plan, xi);
    number
}
