// The numbers of the Lipschitz estimate and of the tests: a formula of document 01 each.
ghost use Rattle.std.specs.Prelude.{◌≡◌, ◌≤◌, ◌+◌, ◌*◌, ◌&&◌, length};
ghost use Rattle.std.specs.Float.{binary64};
ghost use Rattle.std.specs.Float.Ieee.{lt};
ghost use Rattle.model.specs.Constants.{max_lipschitz_constant};
ghost use Rattle.model.specs.Inner.{gamma_of, sigma_of};
ghost use Rattle.std.specs.Float.Ieee.Scale.{finite};
ghost use Rattle.board.specs.Board.{GRADIENT, vector};
ghost use Rattle.model.specs.Vectors.{all_finite};
ghost use Rattle.panoc_engine.specs.Formulas.{lipschitz_check_rhs_of, envelope_of, RightSide, Envelope};

use board::GRADIENT;
use board::copies::is_finite_at;

// A cost and a gradient that are both finite.
pub fn both_finite(cost: f64, board: &[f64], n: usize) -> bool
    requires { 64 * GRADIENT + n ≤ length board.now }
    ensures { result ≡ (finite cost && all_finite (vector GRADIENT n board.now)) }
{
    numeric::is_finite(cost) & is_finite_at(board, GRADIENT, n)
}

// γ = 0.95 / max(L, 1e-10)
#[tactic(auto, using(crate::proofs::Formulas::gamma_is))]
pub fn gamma_of(lipschitz: f64) -> f64
    ensures { result ≡ gamma_of binary64 lipschitz }
{
    0.95 / numeric::max(lipschitz, 1e-10)
}

// σ = (1 - 0.95) / (4 × γ)
#[tactic(auto, using(crate::proofs::Formulas::sigma_is))]
pub fn sigma_of(gamma: f64) -> f64
    ensures { result ≡ sigma_of binary64 gamma }
{
    (1.0 - 0.95) / (4.0 * gamma)
}

// cost + 1e-6 × |cost| - (gradient · residual) + (0.95 / (2 × γ)) × norm × norm
#[tactic(auto, using(crate::proofs::Formulas::lipschitz_check_rhs_is, crate::proofs::Formulas::right_side_is))]
pub fn lipschitz_check_rhs(cost: f64, gamma: f64, norm: f64, product: f64) -> f64
    ensures formula { result ≡ lipschitz_check_rhs_of binary64 cost gamma norm product }
    ensures model { RightSide binary64 cost gamma norm product result }
{
    cost + 1e-6 * numeric::abs(cost) - product + (0.95 / (2.0 * gamma)) * norm * norm
}

// Whether L is to be doubled: the half step's cost exceeds the right side of its check, and L is below 1e9.
#[tactic(auto, using(crate::proofs::Formulas::exceeds_is))]
pub fn exceeds(lipschitz_check_rhs: f64, lipschitz: f64, cost: f64) -> bool
    ensures { result ≡ (lt lipschitz_check_rhs cost && lt lipschitz (max_lipschitz_constant binary64)) }
{
    lipschitz_check_rhs < cost && lipschitz < 1e9
}

// cost - 0.5 × γ × |gradient|² + 0.5 × d² / γ, d the distance from gradient step to half step
#[tactic(auto, using(crate::proofs::Formulas::envelope_is, crate::proofs::Formulas::envelope_holds))]
pub fn envelope(cost: f64, gamma: f64, gradient_squared: f64, distance_squared: f64) -> f64
    ensures formula { result ≡ envelope_of binary64 cost gamma gradient_squared distance_squared }
    ensures model { Envelope binary64 cost gamma gradient_squared distance_squared result }
{
    cost - 0.5 * gamma * gradient_squared + 0.5 * distance_squared / gamma
}
