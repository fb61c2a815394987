// The answers of the mappings at the plan: F1, its projection on C, F2.
ghost use Rattle.std.specs.Prelude.{◌≡◌, length};
ghost use Rattle.std.specs.Float.{binary64};
ghost use Rattle.machine.specs.LoopMoves.{f1, project_c, f2};
ghost use Rattle.alm_engine.specs.LoopRuns.{loop_run, Stands, loop_moved, weighed};

use crate::alm_cache::{Alm, AlmMoved, AlmPhase, Weighed};
use crate::weighing::{ask_f2, weigh};
use board::copies::take_into;
use board::multipliers::{multipliers_into, plus_over_into};
use board::sums::norm2;
use board::{F1, PLUS, Y, Y_PLUS};

// F1 is v: the projection on C is asked at F1 + y / c, which y_plus is until it is known.
#[tactic(auto, using(crate::proofs::Maps::f1_taken))]
pub fn on_f1(v: &[f64], s: Alm, board: &mut [f64]) -> AlmMoved
    requires { (Stands s board.old) × (length v.now ≡ s.set.n1) }
    ensures { loop_moved s result board.new ≡ f1 binary64 v.now (loop_run s board.old) }
{
    take_into(v, board, F1);
    plus_over_into(s.numbers.penalty, board, F1, Y, Y_PLUS, s.set.n1);
    AlmMoved::To(AlmPhase::ProjectC)
}

// The projection on C is v: y_plus = y + c × (F1 - v), and its distance from y.
#[tactic(auto, using(crate::proofs::Maps::project_c_goes, crate::proofs::Maps::stands_multiplied))]
pub fn on_project_c(v: &[f64], s: Alm, board: &mut [f64]) -> Weighed
    requires { (Stands s board.old) × (length v.now ≡ s.set.n1) }
    ensures { weighed s result board.new ≡ project_c binary64 v.now (loop_run s board.old) }
{
    take_into(v, board, PLUS);
    let delta_y_norm = multipliers_into(v, s.numbers.penalty, board);
    let mut t = s;
    t.numbers.delta_y_norm_plus = delta_y_norm;
    ask_f2(t, board)
}

// F2 is v.
#[tactic(auto, using(crate::proofs::Maps::f2_goes, crate::proofs::Maps::stands_scratched))]
pub fn on_f2(v: &[f64], s: Alm, board: &mut [f64]) -> Weighed
    requires { (Stands s board.old) × (length v.now ≡ s.set.n2) }
    ensures { weighed s result board.new ≡ f2 binary64 v.now (loop_run s board.old) }
{
    take_into(v, board, PLUS);
    let f2_norm = norm2(board, PLUS, s.set.n2);
    let mut t = s;
    t.numbers.f2_norm_plus = f2_norm;
    weigh(t, board)
}
