// The weighing of an outer iteration, and what is asked before it.
ghost use Rattle.std.specs.Prelude.{◌≡◌};
ghost use Rattle.std.specs.Float.{binary64};
ghost use Rattle.machine.specs.LoopMoves.{weigh, ask_f2, ask_f1};
ghost use Rattle.alm_engine.specs.LoopRuns.{loop_run, Stands, counted_run, done, renewed, weighed};

use crate::alm_cache::{Alm, AlmMoved, AlmPhase, Counted, OuterIterations, Weighed};
use crate::criteria::{
    is_exit_criterion_satisfied, update_inner_akkt_tolerance, update_penalty_parameter,
};
use crate::outer_iterations::{conclude, next_iteration};
use board::copies::copy_into;
use board::{BEST, U, Y, Y_PLUS};
use panoc_engine::panoc_cache::InnerIterations;

// An iteration is done, with this penalty and tolerance: u is the plan, and its infeasibilities are the former ones from now on.
#[tactic(auto, using(crate::proofs::Weighs::counted_is))]
fn counted(penalty: f64, akkt_tolerance: f64, s: Alm, board: &mut [f64]) -> Counted
    requires { Stands s board.old }
    ensures { counted_run s result board.new ≡ done penalty akkt_tolerance (loop_run s board.old) }
{
    copy_into(board, BEST, U, s.set.n);
    let mut numbers = s.numbers;
    numbers.penalty = penalty;
    numbers.akkt_tolerance = akkt_tolerance;
    numbers.delta_y_norm = numbers.delta_y_norm_plus;
    numbers.f2_norm = numbers.f2_norm_plus;
    let mut counts = s.counts;
    let outer = counts.outer;
    let inner = counts.inner;
    let found = counts.found;
    counts.outer = OuterIterations(outer.0 + 1);
    counts.inner = InnerIterations(inner.0 + found.0);
    Counted { numbers, counts }
}

// An iteration that does not end the loop is done: c, the tolerance and y are the next ones.
#[tactic(auto, using(crate::proofs::Weighs::renewed_is, crate::proofs::Weighs::stands_y))]
fn renew(s: Alm, board: &mut [f64]) -> Counted
    requires { Stands s board.old }
    ensures { counted_run s result board.new ≡ renewed (loop_run s board.old) }
{
    let penalty = update_penalty_parameter(s);
    let akkt_tolerance = update_inner_akkt_tolerance(s);
    copy_into(board, Y_PLUS, Y, s.set.n1);
    counted(penalty, akkt_tolerance, s, board)
}

// The iteration is weighed: the loop ends where the exit test passes, else it goes on.
#[tactic(auto, using(crate::proofs::Weighs::weigh_ends, crate::proofs::Weighs::weigh_goes))]
pub fn weigh(s: Alm, board: &mut [f64]) -> Weighed
    requires { Stands s board.old }
    ensures { weighed s result board.new ≡ weigh binary64 (loop_run s board.old) }
{
    let mut t = s;
    if is_exit_criterion_satisfied(s) {
        let done = counted(s.numbers.penalty, s.numbers.akkt_tolerance, s, board);
        let numbers = done.numbers;
        t.numbers = numbers;
        t.counts = done.counts;
        let end = conclude(s.counts.status, t);
        return Weighed {
            moved: end.moved,
            numbers,
            counts: end.counts,
        };
    }
    let done = renew(s, board);
    let numbers = done.numbers;
    t.numbers = numbers;
    t.counts = done.counts;
    let next = next_iteration(t);
    Weighed {
        moved: next.moved,
        numbers,
        counts: next.counts,
    }
}

// F2 where n2 > 0.
#[tactic(auto, using(crate::proofs::Weighs::f2_none, crate::proofs::Weighs::f2_asks))]
pub fn ask_f2(s: Alm, board: &mut [f64]) -> Weighed
    requires { Stands s board.old }
    ensures { weighed s result board.new ≡ ask_f2 binary64 (loop_run s board.old) }
{
    if s.set.n2 == 0 {
        let mut t = s;
        t.numbers.f2_norm_plus = 0.0;
        return weigh(t, board);
    }
    let numbers = s.numbers;
    let counts = s.counts;
    Weighed {
        moved: AlmMoved::To(AlmPhase::F2),
        numbers,
        counts,
    }
}

// F1 where n1 > 0.
#[tactic(auto, using(crate::proofs::Weighs::f1_none, crate::proofs::Weighs::f1_asks))]
pub fn ask_f1(s: Alm, board: &mut [f64]) -> Weighed
    requires { Stands s board.old }
    ensures { weighed s result board.new ≡ ask_f1 binary64 (loop_run s board.old) }
{
    if s.set.n1 == 0 {
        let mut t = s;
        t.numbers.delta_y_norm_plus = 0.0;
        return ask_f2(t, board);
    }
    let numbers = s.numbers;
    let counts = s.counts;
    Weighed {
        moved: AlmMoved::To(AlmPhase::F1),
        numbers,
        counts,
    }
}
