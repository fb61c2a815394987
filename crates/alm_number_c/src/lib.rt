// A number for the question of a loop, for C: the quick way for COST, with no kind looked up.
#![tactic(auto)]

ghost use Rattle.std.specs.Prelude.{[]};
ghost use Rattle.std.proofs.Math.Option.{some};
ghost use Rattle.panoc_engine.specs.declared.panoc_cache.Reply.TheVariants.{Number};
ghost use Rattle.panoc_engine.specs.Values.{reply_of};
ghost use Rattle.alm_fields.specs.Fields.{Leaves};

use alm_fields::answering::answer_number;
use alm_fields::calls::{hand_out, lent_fits, waits};
use alm_fields::fields::AlmC;
use panoc_engine::panoc_cache::Reply;
use panoc_engine::refusals::refusal;

// The number x for the question of a run; a plan, and the penalty with the multipliers, go into the lent slices. 6 to 8 where it is refused: then nothing is
// written.
#[unsafe(no_mangle)]
pub extern "C" fn pozkerrin_loop_number(
    run: &mut AlmC,
    x: f64,
    plan: &mut [f64],
    xi: &mut [f64],
) -> u32
    ensures { Leaves (some (reply_of (Number x))) [] plan.old plan.new xi.old xi.new run.old run.new result }
{
    let wanted = waits(&run.inner, &run.alm);
    let fits = lent_fits(&run.alm, plan.len(), xi.len());
    if let Some(refusal) = refusal(wanted, Reply::Number(x), 0, fits) {
        return refusal.number();
    }
    let number = answer_number(x, &mut run.inner, &mut run.alm, &mut run.board[..]);
    hand_out(run, plan, xi);
    number
}
