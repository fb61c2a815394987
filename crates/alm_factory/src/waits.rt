// What a run waits for: nothing where it has ended, or where no start made it.
ghost use Rattle.std.specs.Prelude.{◌≡◌};
ghost use Rattle.machine.specs.PsiRest.{sound};
ghost use Rattle.machine.specs.PsiCalls.{waits, psi_kind_at, d_psi_kind_at};
ghost use Rattle.panoc_engine.specs.Values.{kind_of};
ghost use Rattle.alm_factory.specs.Values.{sizes_of, psi_phase_of, d_psi_phase_of};

use crate::records::{DPsi, DPsiPhase, Psi, PsiPhase, Sizes};
use panoc_engine::refusals::Wanted;

// Sizes as those of a run that a start made.
#[tactic(auto, unfolding(machine::specs::PsiRest::sound))]
pub fn is_sound(s: Sizes) -> bool
    ensures { result ≡ sound (sizes_of s) }
{
    s.n <= 64 && s.n1 <= 32 && s.n2 <= 32
}

#[tactic(auto, unfolding(machine::specs::PsiCalls::waits, machine::specs::PsiCalls::psi_kind_at))]
pub fn psi_waits(s: Psi) -> Option<Wanted>
    ensures { kind_of result ≡ waits psi_kind_at (sizes_of s.sizes) (psi_phase_of s.phase) }
{
    if !is_sound(s.sizes) {
        return None;
    }
    match s.phase {
        PsiPhase::Over => None,
        PsiPhase::Cost => Some(Wanted::Number),
        PsiPhase::F1 | PsiPhase::ProjectC => Some(Wanted::Vector(s.sizes.n1)),
        PsiPhase::F2 => Some(Wanted::Vector(s.sizes.n2)),
    }
}

#[tactic(auto, unfolding(machine::specs::PsiCalls::waits, machine::specs::PsiCalls::d_psi_kind_at))]
pub fn d_psi_waits(s: DPsi) -> Option<Wanted>
    ensures { kind_of result ≡ waits d_psi_kind_at (sizes_of s.sizes) (d_psi_phase_of s.phase) }
{
    if !is_sound(s.sizes) {
        return None;
    }
    match s.phase {
        DPsiPhase::Over => None,
        DPsiPhase::Gradient | DPsiPhase::Jf1t | DPsiPhase::Jf2t => Some(Wanted::Vector(s.sizes.n)),
        DPsiPhase::F1 | DPsiPhase::ProjectC => Some(Wanted::Vector(s.sizes.n1)),
        DPsiPhase::F2 => Some(Wanted::Vector(s.sizes.n2)),
    }
}
