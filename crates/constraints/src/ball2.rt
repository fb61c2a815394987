// The ball.
ghost use Rattle.std.specs.Prelude.{◌≡◌, length};
ghost use Rattle.std.specs.Float.{binary64};
ghost use Rattle.model.specs.Vectors.{all_finite};
ghost use Rattle.constraints.specs.Ball.{distance, pulled, ball2, ball_right};

// The norm of the difference, summed from place 0.
fn norm_of_difference(centre: &[f64], v: &[f64]) -> f64
    requires { length centre.now ≡ length v.now }
    ensures { result ≡ distance binary64 centre.now v.now }
{
    let mut sum = 0.0;
    for (i, c) in centre.iter().enumerate() {
        let difference = v[i] - *c;
        sum += difference * difference;
    }
    numeric::sqrt(sum)
}

// Keeps a vector that is no further from the centre than the radius, or no number away; else pulls each place toward the centre's.
pub(crate) fn project(centre: &[f64], radius: f64, v: &mut [f64])
    requires { length centre.now ≡ length v.old }
    ensures { v.new ≡ ball2 binary64 centre.now radius v.old }
{
    let far = norm_of_difference(centre, v);
    if radius < far {
        for (i, x) in v.iter_mut().enumerate() {
            *x = centre[i] + radius * ((*x - centre[i]) / far);
        }
    }
}

// Whether the centre and the radius are finite, and the radius is not below 0, which -0 is not.
pub(crate) fn is_right(centre: &[f64], radius: f64) -> bool
    ensures { result ≡ ball_right centre.now radius }
{
    if !numeric::is_finite(radius) || radius < 0.0 {
        return false;
    }
    for c in centre {
        if !numeric::is_finite(*c) {
            return false;
        }
    }
    true
}
