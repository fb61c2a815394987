// What a start takes out of the lent xi.
#![tactic(auto)]

ghost use Rattle.std.specs.Prelude.{◌≡◌};
ghost use Rattle.model.specs.Refusals as R;

// The penalty, 0 where it is empty.
#[tactic(auto, using(ieee::proofs::Special::zero_bits), unfolding(model::specs::Refusals::penalty_in))]
pub fn penalty_in(xi: &[f64]) -> f64
    ensures { result ≡ R.penalty_in xi.now }
{
    match xi {
        [] => 0.0,
        [c, ..] => *c,
    }
}

// The multipliers, none where it is empty.
#[tactic(auto, unfolding(model::specs::Refusals::multipliers_in))]
pub fn multipliers_in(xi: &[f64]) -> &[f64]
    ensures { result.now ≡ R.multipliers_in xi.now }
{
    match xi {
        [] => xi,
        [_, y @ ..] => y,
    }
}
