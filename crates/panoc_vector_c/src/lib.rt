// A vector for the question of an inner solve, for C: the quick way for GRADIENT, PROJECT and DIRECTION, with no kind looked up.
#![tactic(auto)]

ghost use Rattle.std.proofs.Math.Option.{some};
ghost use Rattle.panoc_engine.specs.declared.panoc_cache.Reply.TheVariants.{Vector};
ghost use Rattle.panoc_engine.specs.Values.{reply_of};
ghost use Rattle.panoc_fields.specs.Fields.{Leaves};

use panoc_engine::panoc_cache::Reply;
use panoc_engine::refusals::refusal;
use panoc_fields::answering::answer_vector;
use panoc_fields::calls::{hand_out, waits};
use panoc_fields::fields::InnerC;

// The vector v for the question of a run; the plan's slice is as long as u. 6 to 8 where it is refused: then nothing is written.
#[unsafe(no_mangle)]
pub extern "C" fn pozkerrin_inner_vector(run: &mut InnerC, v: &[f64], plan: &mut [f64]) -> u32
    ensures { Leaves (some (reply_of Vector)) v.now plan.old plan.new run.old run.new result }
{
    let wanted = waits(&run.inner);
    let fits = plan.len() == run.inner.n;
    if let Some(refusal) = refusal(wanted, Reply::Vector, v.len(), fits) {
        return refusal.number();
    }
    let number = answer_vector(v, &mut run.inner, &mut run.board[..]);
    hand_out(run, plan);
    number
}
