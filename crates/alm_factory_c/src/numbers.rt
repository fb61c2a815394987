// The numbers that C sees and gives, of the enums of psi and d_psi; the rest is as in panoc_fields.
ghost use Rattle.std.specs.Prelude.{◌≡◌};
ghost use Rattle.machine.specs.PsiNumbers.{question_number, psi_phase_number, d_psi_phase_number};
ghost use Rattle.alm_factory.specs.Values.{asked_of, psi_phase_of, d_psi_phase_of};
ghost use Rattle.alm_factory_c.specs.Fields.{psi_at, d_psi_at};

use alm_factory::records::{DPsiPhase, PsiPhase, PsiQuestion};

// The questions have the numbers that they have in the loop.
pub fn question_number(q: PsiQuestion) -> u32
    ensures { result ≡ question_number (asked_of q) }
{
    match q {
        PsiQuestion::Cost => 0,
        PsiQuestion::Gradient => 1,
        PsiQuestion::F1 => 8,
        PsiQuestion::ProjectC => 9,
        PsiQuestion::F2 => 10,
        PsiQuestion::Jf1t => 12,
        PsiQuestion::Jf2t => 13,
    }
}

pub fn psi_phase_number(p: PsiPhase) -> u32
    ensures { result ≡ psi_phase_number (psi_phase_of p) }
{
    match p {
        PsiPhase::Over => 0,
        PsiPhase::Cost => 1,
        PsiPhase::F1 => 2,
        PsiPhase::ProjectC => 3,
        PsiPhase::F2 => 4,
    }
}

pub fn d_psi_phase_number(p: DPsiPhase) -> u32
    ensures { result ≡ d_psi_phase_number (d_psi_phase_of p) }
{
    match p {
        DPsiPhase::Over => 0,
        DPsiPhase::Gradient => 1,
        DPsiPhase::F1 => 2,
        DPsiPhase::ProjectC => 3,
        DPsiPhase::Jf1t => 4,
        DPsiPhase::F2 => 5,
        DPsiPhase::Jf2t => 6,
    }
}

// A number of no phase is of a run that has ended.
#[tactic(auto, using(crate::proofs::Laws::psi_past))]
pub fn psi_phase_at(number: u32) -> PsiPhase
    ensures { result ≡ psi_at number }
{
    match number {
        0 => PsiPhase::Over,
        1 => PsiPhase::Cost,
        2 => PsiPhase::F1,
        3 => PsiPhase::ProjectC,
        4 => PsiPhase::F2,
        _ => PsiPhase::Over,
    }
}

#[tactic(auto, using(crate::proofs::Laws::d_psi_past))]
pub fn d_psi_phase_at(number: u32) -> DPsiPhase
    ensures { result ≡ d_psi_at number }
{
    match number {
        0 => DPsiPhase::Over,
        1 => DPsiPhase::Gradient,
        2 => DPsiPhase::F1,
        3 => DPsiPhase::ProjectC,
        4 => DPsiPhase::Jf1t,
        5 => DPsiPhase::F2,
        6 => DPsiPhase::Jf2t,
        _ => DPsiPhase::Over,
    }
}
