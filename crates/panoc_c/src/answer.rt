// An answer of any kind.
ghost use Rattle.machine.specs.Numbers.{reply_of};
ghost use Rattle.panoc_fields.specs.Fields.{Leaves};

use panoc_engine::answers::wants;
use panoc_engine::refusals::refusal;
use panoc_fields::answering::answer_accepted;
use panoc_fields::calls::hand_out;
use panoc_fields::fields::{InnerC, solve_of};
use panoc_fields::numbers::{number_of_no_kind, reply_at};

// An answer to the question of a run, by its kind: 0 the number x, 1 the vector v, 2 yes, 3 no, 4 the failure code; a plan goes into the lent slice. 6 to 8
// where it is refused: then nothing is written; 9 for a failure.
#[tactic(auto, using(panoc_fields::proofs::CallLaws::leaves_refused))]
#[unsafe(no_mangle)]
pub extern "C" fn pozkerrin_inner_answer(
    run: &mut InnerC,
    kind: u32,
    x: f64,
    code: u32,
    v: &[f64],
    plan: &mut [f64],
) -> u32
    ensures { Leaves (reply_of kind x code) v.now plan.old plan.new run.old run.new result }
{
    let wanted = wants(solve_of(&run.inner));
    let Some(a) = reply_at(kind, x, code) else {
        return number_of_no_kind(wanted);
    };
    let fits = plan.len() == run.inner.n;
    if let Some(refusal) = refusal(wanted, a, v.len(), fits) {
        return refusal.number();
    }
    let number = answer_accepted(a, v, &mut run.inner, &mut run.board[..]);
    hand_out(run, plan);
    number
}
