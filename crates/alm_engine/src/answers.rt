// Which handler takes an answer that nothing refuses: one of the inner solve, by its own dispatch, or one of the loop.
ghost use Rattle.std.specs.Prelude.{◌≡◌, ◌≤◌, true, List, Float, length};
ghost use Rattle.std.specs.Float.{binary64};
ghost use Rattle.machine.specs.LoopAnswer.{answered, turns, wanted_by};
ghost use Rattle.model.specs.Refusals.{answer_refusal};
ghost use Rattle.panoc_engine.specs.Values.{reply_of, decided};
ghost use Rattle.panoc_engine.specs.declared.panoc_cache.Reply.TheVariants.{Number, Vector};
ghost use Rattle.alm_engine.specs.declared.alm_cache.AlmPhase.TheVariants as P;
ghost use Rattle.alm_engine.specs.LoopRuns.{loop_run, Stands, loop_stepped};

use crate::alm_cache::{Alm, AlmOutcome, AlmPhase, AlmStepped};
use crate::inner_solves::on_inner;
use crate::keeping::{keep_ended, keep_iterated, keep_moved, keep_weighed};
use crate::last_cost::on_last_cost;
use crate::mappings::{on_f1, on_f2, on_project_c};
use crate::outer_iterations::{on_project_y, on_time};
use panoc_engine::answers::answer_accepted as answer_inner_solve;
use panoc_engine::outcome::Refusal;
use panoc_engine::panoc_cache::Reply;

// An answer of another kind than the one asked.
fn turned(s: Alm) -> AlmStepped
    ensures { (l : List Float) → loop_stepped result l ≡ turns (loop_run s l) 7 }
{
    AlmStepped {
        outcome: AlmOutcome::Refused(Refusal::Kind),
        state: s,
    }
}

// A number.
#[tactic(auto, using(crate::proofs::Accepted::number_last_cost, crate::proofs::Accepted::number_else))]
fn on_number(x: f64, s: Alm) -> AlmStepped
    requires { s.phase ≡ P.Inner → ⊥ }
    ensures { (l v : List Float) → loop_stepped result l ≡ answered binary64 (loop_run s l) (reply_of (Number x)) v }
{
    let phase = s.phase;
    match phase {
        AlmPhase::LastCost => keep_ended(on_last_cost(x, s), s),
        _ => turned(s),
    }
}

// A vector.
#[tactic(auto, using(crate::proofs::Accepted::accepted_y, crate::proofs::Accepted::accepted_f1, crate::proofs::Accepted::accepted_c, crate::proofs::Accepted::accepted_f2, crate::proofs::Accepted::vector_project_y, crate::proofs::Accepted::vector_f1, crate::proofs::Accepted::vector_project_c, crate::proofs::Accepted::vector_f2, crate::proofs::Accepted::vector_else))]
fn on_vector(v: &[f64], s: Alm, board: &mut [f64]) -> AlmStepped
    requires made { Stands s board.old }
    requires own { s.phase ≡ P.Inner → ⊥ }
    requires accepted { answer_refusal (wanted_by (loop_run s board.old)) (reply_of Vector) (length v.now) true ≡ 0 }
    ensures { loop_stepped result board.new ≡ answered binary64 (loop_run s board.old) (reply_of Vector) v.now }
{
    let phase = s.phase;
    match phase {
        AlmPhase::ProjectY => keep_moved(on_project_y(v, s, board), s),
        AlmPhase::F1 => keep_moved(on_f1(v, s, board), s),
        AlmPhase::ProjectC => keep_weighed(on_project_c(v, s, board), s),
        AlmPhase::F2 => keep_weighed(on_f2(v, s, board), s),
        _ => turned(s),
    }
}

// A yes or a no.
#[tactic(auto, using(crate::proofs::Accepted::decision_time, crate::proofs::Accepted::decision_else))]
fn on_decision(yes: bool, s: Alm) -> AlmStepped
    requires { s.phase ≡ P.Inner → ⊥ }
    ensures { (l v : List Float) → loop_stepped result l ≡ answered binary64 (loop_run s l) (reply_of (decided yes)) v }
{
    let phase = s.phase;
    match phase {
        AlmPhase::Time => keep_iterated(on_time(yes, s), s),
        _ => turned(s),
    }
}

// An answer to a question of the loop itself.
#[tactic(auto, using(crate::proofs::Accepted::vector_stands, crate::proofs::Accepted::failure_taken))]
fn answer_own(a: Reply, v: &[f64], s: Alm, board: &mut [f64]) -> AlmStepped
    requires places { 768 ≤ length board.old }
    requires own { s.phase ≡ P.Inner → ⊥ }
    requires accepted { answer_refusal (wanted_by (loop_run s board.old)) (reply_of a) (length v.now) true ≡ 0 }
    ensures { loop_stepped result board.new ≡ answered binary64 (loop_run s board.old) (reply_of a) v.now }
{
    match a {
        Reply::Number(x) => on_number(x, s),
        Reply::Vector => on_vector(v, s, board),
        Reply::Yes => on_decision(true, s),
        Reply::No => on_decision(false, s),
        Reply::Failure(code) => keep_ended(AlmOutcome::Failed(code), s),
    }
}

// An answer to a question of the inner solve, whose vectors are the board's first nine.
#[tactic(auto, using(crate::proofs::Lent::lent_size, crate::proofs::Lent::inner_accepted, crate::proofs::Lent::inner_stands, crate::proofs::Lent::inner_counted, crate::proofs::Lent::inner_carried))]
fn answer_inner(a: Reply, v: &[f64], s: Alm, board: &mut [f64]) -> AlmStepped
    requires places { 768 ≤ length board.old }
    requires carried { s.phase ≡ P.Inner }
    requires accepted { answer_refusal (wanted_by (loop_run s board.old)) (reply_of a) (length v.now) true ≡ 0 }
    ensures { loop_stepped result board.new ≡ answered binary64 (loop_run s board.old) (reply_of a) v.now }
{
    let r = answer_inner_solve(a, v, s.solve, &mut board[..576]);
    let mut t = s;
    t.solve = r.state;
    on_inner(r.outcome, t, board)
}

// Any answer that nothing refuses.
pub fn answer_accepted(a: Reply, v: &[f64], s: Alm, board: &mut [f64]) -> AlmStepped
    requires places { 768 ≤ length board.old }
    requires accepted { answer_refusal (wanted_by (loop_run s board.old)) (reply_of a) (length v.now) true ≡ 0 }
    ensures { loop_stepped result board.new ≡ answered binary64 (loop_run s board.old) (reply_of a) v.now }
{
    let phase = s.phase;
    if let AlmPhase::Inner = phase {
        return answer_inner(a, v, s, board);
    }
    answer_own(a, v, s, board)
}
