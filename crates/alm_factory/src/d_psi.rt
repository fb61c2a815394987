// d_psi: the gradient of f with c × each transposed Jacobian product added, taken with t - P, t = F1 + y / c, and with F2. What each answer leaves of a run.
ghost use Rattle.std.specs.Prelude.{◌≡◌, List, Float, length};
ghost use Rattle.std.specs.Float.{binary64};
ghost use Rattle.machine.specs.PsiMoves.{d_psi_ask_f2, d_psi_got_gradient, d_psi_got_f1, d_psi_got_projection, d_psi_got_jf1t, d_psi_got_f2, d_psi_got_jf2t};
ghost use Rattle.alm_factory.specs.Runs.{Stands, d_psi_run, d_psi_left};

use crate::records::{DPsi, DPsiMoved, DPsiOutcome, DPsiPhase, PsiQuestion};
use crate::vectors::{D, D_T, D_WORK, GRADIENT, Y};
use board::copies::take_into;
use board::multipliers::{add_times, minus_into, plus_over_into};

// The part of F1 is in the gradient: F2, or the end where there is none.
#[tactic(auto, using(crate::proofs::DPsiLaws::f2_none, crate::proofs::DPsiLaws::f2_asked))]
fn ask_f2(s: DPsi) -> DPsiMoved
    ensures { (l : List Float) → d_psi_left s result l ≡ d_psi_ask_f2 binary64 (d_psi_run s l) }
{
    if s.sizes.n2 == 0 {
        DPsiMoved {
            outcome: DPsiOutcome::Ended(()),
            phase: DPsiPhase::Over,
        }
    } else {
        DPsiMoved {
            outcome: DPsiOutcome::Asked(PsiQuestion::F2),
            phase: DPsiPhase::F2,
        }
    }
}

// The gradient of f at u is v.
#[tactic(auto, using(crate::proofs::DPsiLaws::gradient_goes, crate::proofs::DPsiLaws::gradient_asks))]
pub fn on_gradient(v: &[f64], s: DPsi, board: &mut [f64]) -> DPsiMoved
    requires { (Stands 384 s.sizes board.old) × (length v.now ≡ s.sizes.n) }
    ensures { d_psi_left s result board.new ≡ d_psi_got_gradient binary64 v.now (d_psi_run s board.old) }
{
    take_into(v, board, GRADIENT);
    if s.sizes.n1 == 0 {
        ask_f2(s)
    } else {
        DPsiMoved {
            outcome: DPsiOutcome::Asked(PsiQuestion::F1),
            phase: DPsiPhase::F1,
        }
    }
}

// F1 at u is v. y is divided by the penalty, also where that is 0.
#[tactic(auto, using(crate::proofs::DPsiLaws::f1_taken))]
pub fn on_f1(v: &[f64], s: DPsi, board: &mut [f64]) -> DPsiMoved
    requires { (Stands 384 s.sizes board.old) × (length v.now ≡ s.sizes.n1) }
    ensures { d_psi_left s result board.new ≡ d_psi_got_f1 binary64 v.now (d_psi_run s board.old) }
{
    take_into(v, board, D_WORK);
    plus_over_into(s.c, board, D_WORK, Y, D_T, s.sizes.n1);
    DPsiMoved {
        outcome: DPsiOutcome::Asked(PsiQuestion::ProjectC),
        phase: DPsiPhase::ProjectC,
    }
}

// The projection of t is v.
#[tactic(auto, using(crate::proofs::DPsiLaws::projection_taken))]
pub fn on_project_c(v: &[f64], s: DPsi, board: &mut [f64]) -> DPsiMoved
    requires { (Stands 384 s.sizes board.old) × (length v.now ≡ s.sizes.n1) }
    ensures { d_psi_left s result board.new ≡ d_psi_got_projection binary64 v.now (d_psi_run s board.old) }
{
    take_into(v, board, D_WORK);
    minus_into(v, board, D_T, D);
    DPsiMoved {
        outcome: DPsiOutcome::Asked(PsiQuestion::Jf1t),
        phase: DPsiPhase::Jf1t,
    }
}

// The transposed Jacobian product of F1 is v.
#[tactic(auto, using(crate::proofs::DPsiLaws::jf1t_taken))]
pub fn on_jf1t(v: &[f64], s: DPsi, board: &mut [f64]) -> DPsiMoved
    requires { (Stands 384 s.sizes board.old) × (length v.now ≡ s.sizes.n) }
    ensures { d_psi_left s result board.new ≡ d_psi_got_jf1t binary64 v.now (d_psi_run s board.old) }
{
    take_into(v, board, D_WORK);
    add_times(v, s.c, board, GRADIENT);
    ask_f2(s)
}

// F2 at u is v: its product is taken with it.
#[tactic(auto, using(crate::proofs::DPsiLaws::f2_taken))]
pub fn on_f2(v: &[f64], s: DPsi, board: &mut [f64]) -> DPsiMoved
    requires { (Stands 384 s.sizes board.old) × (length v.now ≡ s.sizes.n2) }
    ensures { d_psi_left s result board.new ≡ d_psi_got_f2 binary64 v.now (d_psi_run s board.old) }
{
    take_into(v, board, D);
    DPsiMoved {
        outcome: DPsiOutcome::Asked(PsiQuestion::Jf2t),
        phase: DPsiPhase::Jf2t,
    }
}

// The transposed Jacobian product of F2 is v; the result stays in the gradient.
#[tactic(auto, using(crate::proofs::DPsiLaws::jf2t_taken))]
pub fn on_jf2t(v: &[f64], s: DPsi, board: &mut [f64]) -> DPsiMoved
    requires { (Stands 384 s.sizes board.old) × (length v.now ≡ s.sizes.n) }
    ensures { d_psi_left s result board.new ≡ d_psi_got_jf2t binary64 v.now (d_psi_run s board.old) }
{
    take_into(v, board, D_WORK);
    add_times(v, s.c, board, GRADIENT);
    DPsiMoved {
        outcome: DPsiOutcome::Ended(()),
        phase: DPsiPhase::Over,
    }
}
