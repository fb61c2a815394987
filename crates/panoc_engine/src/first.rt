// A run before its first answer.
ghost use Rattle.std.specs.Prelude.{◌≡◌};
ghost use Rattle.panoc_engine.specs.Blank.{blank};

use crate::panoc_cache::{
    Counts, ExitStatus, Gammas, InnerIterations, Norms, Phase, Settings, Solve,
};

// The small part of a run that waits for its first COST.
#[tactic(auto, using(ieee::proofs::Special::zero_bits))]
pub fn blank(set: Settings) -> Solve
    ensures { result ≡ blank set }
{
    Solve {
        phase: Phase::Cost,
        set,
        cost_value: 0.0,
        gammas: Gammas {
            lipschitz_constant: 0.0,
            gamma: 0.0,
            sigma: 0.0,
        },
        norms: Norms {
            norm_gamma_fpr: 0.0,
            best_norm_gamma_fpr: 0.0,
            tau: 0.0,
            rhs_ls: 0.0,
        },
        norm_h: 0.0,
        counts: Counts {
            left: 0,
            iterations: InnerIterations(0),
            status: ExitStatus::Converged,
            rounds: 0,
        },
        forget: true,
    }
}
