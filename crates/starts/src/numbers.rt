// What a start tests of its limits, tolerances, factors and fractions.
#![tactic(auto)]

ghost use Rattle.std.specs.Prelude.{◌≡◌};
ghost use Rattle.std.specs.Float.{binary64};
ghost use Rattle.model.specs.Refusals as R;

// A limit from 1 on.
#[tactic(auto, unfolding(model::specs::Refusals::limit_right))]
pub fn limit_right(most: usize, m: usize) -> bool
    ensures { result ≡ R.limit_right most m }
{
    (1..=most).contains(&m)
}

// Finite and above 0.
#[tactic(auto, using(ieee::proofs::Special::zero_bits), unfolding(model::specs::Refusals::tolerance_right))]
pub fn tolerance_right(t: f64) -> bool
    ensures { result ≡ R.tolerance_right t }
{
    numeric::is_finite(t) && 0.0 < t
}

// Finite and at least 1.
#[tactic(auto, using(model::proofs::Literals::one_bits), unfolding(model::specs::Refusals::factor_right))]
pub fn factor_right(x: f64) -> bool
    ensures { result ≡ R.factor_right binary64 x }
{
    numeric::is_finite(x) && 1.0 <= x
}

// Strictly between 0 and 1.
#[tactic(auto, using(ieee::proofs::Special::zero_bits, model::proofs::Literals::one_bits), unfolding(model::specs::Refusals::fraction_right))]
pub fn fraction_right(x: f64) -> bool
    ensures { result ≡ R.fraction_right binary64 x }
{
    0.0 < x && x < 1.0
}
