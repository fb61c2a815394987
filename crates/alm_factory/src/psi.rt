// psi: f + (c/2) × |t - P|² + (c/2) × |F2|², t = F1 + y / max(c, 1), P its projection on C. What each answer leaves of a run.
ghost use Rattle.std.specs.Prelude.{◌≡◌, List, Float, length};
ghost use Rattle.std.specs.Float.{binary64};
ghost use Rattle.machine.specs.PsiMoves.{psi_ask_f2, psi_got_cost, psi_got_f1, psi_got_projection, psi_got_f2};
ghost use Rattle.alm_factory.specs.Runs.{Stands, psi_run, psi_left};

use crate::records::{Psi, PsiMoved, PsiOutcome, PsiPhase, PsiQuestion};
use crate::terms::{distance_squared, divisor, penalized};
use crate::vectors::{T, WORK, Y};
use board::copies::take_into;
use board::multipliers::plus_over_into;
use board::sums::norm2_squared;

// The part of F1 is in the value: F2, or the end where there is none.
#[tactic(auto, using(crate::proofs::PsiLaws::f2_none, crate::proofs::PsiLaws::f2_asked))]
fn ask_f2(s: Psi) -> PsiMoved
    ensures { (l : List Float) → psi_left s result l ≡ psi_ask_f2 binary64 (psi_run s l) }
{
    let value = s.value;
    if s.sizes.n2 == 0 {
        PsiMoved {
            outcome: PsiOutcome::Ended(value),
            phase: PsiPhase::Over,
            value,
        }
    } else {
        PsiMoved {
            outcome: PsiOutcome::Asked(PsiQuestion::F2),
            phase: PsiPhase::F2,
            value,
        }
    }
}

// The cost of f at u is x.
#[tactic(auto, using(crate::proofs::PsiLaws::cost_goes, crate::proofs::PsiLaws::cost_asks))]
pub fn on_cost(x: f64, s: Psi) -> PsiMoved
    ensures { (l : List Float) → psi_left s result l ≡ psi_got_cost binary64 x (psi_run s l) }
{
    if s.sizes.n1 == 0 {
        ask_f2(Psi { value: x, ..s })
    } else {
        PsiMoved {
            outcome: PsiOutcome::Asked(PsiQuestion::F1),
            phase: PsiPhase::F1,
            value: x,
        }
    }
}

// F1 at u is v.
#[tactic(auto, using(crate::proofs::PsiLaws::f1_taken))]
pub fn on_f1(v: &[f64], s: Psi, board: &mut [f64]) -> PsiMoved
    requires { (Stands 256 s.sizes board.old) × (length v.now ≡ s.sizes.n1) }
    ensures { psi_left s result board.new ≡ psi_got_f1 binary64 v.now (psi_run s board.old) }
{
    take_into(v, board, WORK);
    plus_over_into(divisor(s.c), board, WORK, Y, T, s.sizes.n1);
    PsiMoved {
        outcome: PsiOutcome::Asked(PsiQuestion::ProjectC),
        phase: PsiPhase::ProjectC,
        value: s.value,
    }
}

// The projection of t is v.
pub fn on_project_c(v: &[f64], s: Psi, board: &mut [f64]) -> PsiMoved
    requires { (Stands 256 s.sizes board.old) × (length v.now ≡ s.sizes.n1) }
    ensures { psi_left s result board.new ≡ psi_got_projection binary64 v.now (psi_run s board.old) }
{
    take_into(v, board, WORK);
    let distance = distance_squared(v, board, T);
    let value = penalized(s.value, s.c, distance);
    ask_f2(Psi { value, ..s })
}

// F2 at u is v.
#[tactic(auto, using(crate::proofs::PsiLaws::f2_taken))]
pub fn on_f2(v: &[f64], s: Psi, board: &mut [f64]) -> PsiMoved
    requires { (Stands 256 s.sizes board.old) × (length v.now ≡ s.sizes.n2) }
    ensures { psi_left s result board.new ≡ psi_got_f2 binary64 v.now (psi_run s board.old) }
{
    take_into(v, board, WORK);
    let norm = norm2_squared(board, WORK, s.sizes.n2);
    let value = penalized(s.value, s.c, norm);
    PsiMoved {
        outcome: PsiOutcome::Ended(value),
        phase: PsiPhase::Over,
        value: s.value,
    }
}
