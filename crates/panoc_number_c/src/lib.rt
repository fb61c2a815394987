// A number for the question of an inner solve, for C: the quick way for COST, with no kind looked up.
#![tactic(auto)]

ghost use Rattle.std.specs.Prelude.{[]};
ghost use Rattle.std.proofs.Math.Option.{some};
ghost use Rattle.panoc_engine.specs.declared.panoc_cache.Reply.TheVariants.{Number};
ghost use Rattle.panoc_engine.specs.Values.{reply_of};
ghost use Rattle.panoc_fields.specs.Fields.{Leaves};

use panoc_engine::panoc_cache::Reply;
use panoc_engine::refusals::refusal;
use panoc_fields::answering::answer_number;
use panoc_fields::calls::{hand_out, waits};
use panoc_fields::fields::InnerC;

// The number x for the question of a run; a plan goes into the lent slice. 6 to 8 where it is refused: then nothing is written.

#[unsafe(no_mangle)]
pub extern "C" fn pozkerrin_inner_number(run: &mut InnerC, x: f64, plan: &mut [f64]) -> u32
    ensures { Leaves (some (reply_of (Number x))) [] plan.old plan.new run.old run.new result }
{
    let wanted = waits(&run.inner);
    let fits = plan.len() == run.inner.n;
    if let Some(refusal) = refusal(wanted, Reply::Number(x), 0, fits) {
        return refusal.number();
    }
    let number = answer_number(x, &mut run.inner, &mut run.board[..]);
    hand_out(run, plan);
    number
}
