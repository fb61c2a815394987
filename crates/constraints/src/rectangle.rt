// The box.
ghost use Rattle.std.specs.Prelude.{◌≡◌, length};
ghost use Rattle.constraints.specs.Box.{clamped, rectangle, bounds_right, rectangle_right};

use crate::four;

// An entry, or the bound that it lies beyond; a NaN lies beyond none.
#[tactic(auto, unfolding(crate::specs::Box::clamped))]
fn clamp(lower: f64, upper: f64, x: f64) -> f64
    ensures { result ≡ clamped lower upper x }
{
    if x < lower {
        lower
    } else if upper < x {
        upper
    } else {
        x
    }
}

// Puts a bound at each place where the entry lies beyond it, four places at a time as long as there are so many.
pub(crate) fn project(lower: &[f64], upper: &[f64], v: &mut [f64])
    requires lowers { length lower.now ≡ length v.old }
    requires uppers { length upper.now ≡ length v.old }
    ensures { v.new ≡ rectangle lower.now upper.now v.old }
{
    let fours = v.len() / 4;
    for i in 0..fours {
        four::clamp(
            &lower[4 * i..4 * i + 4],
            &upper[4 * i..4 * i + 4],
            &mut v[4 * i..4 * i + 4],
        );
    }
    project_places(
        &lower[4 * fours..],
        &upper[4 * fours..],
        &mut v[4 * fours..],
    );
}

// The same, place by place.
fn project_places(lower: &[f64], upper: &[f64], v: &mut [f64])
    requires lowers { length lower.now ≡ length v.old }
    requires uppers { length upper.now ≡ length v.old }
    ensures { v.new ≡ rectangle lower.now upper.now v.old }
{
    for (i, x) in v.iter_mut().enumerate() {
        *x = clamp(lower[i], upper[i], *x);
    }
}

// Whether two bounds are finite, and the lower one is not above the upper one: both lie between the infinities, in order.
fn in_order(lower: f64, upper: f64) -> bool
    ensures { result ≡ bounds_right lower upper }
{
    (f64::NEG_INFINITY < lower) & (lower <= upper) & (upper < f64::INFINITY)
}

// Whether the bounds at each place are, four places at a time as long as there are so many.
pub(crate) fn is_right(lower: &[f64], upper: &[f64]) -> bool
    requires { length lower.now ≡ length upper.now }
    ensures { result ≡ rectangle_right lower.now upper.now }
{
    let fours = lower.len() / 4;
    for i in 0..fours {
        if !four::in_order(&lower[4 * i..4 * i + 4], &upper[4 * i..4 * i + 4]) {
            return false;
        }
    }
    places_right(&lower[4 * fours..], &upper[4 * fours..])
}

// The same, place by place.
fn places_right(lower: &[f64], upper: &[f64]) -> bool
    requires { length lower.now ≡ length upper.now }
    ensures { result ≡ rectangle_right lower.now upper.now }
{
    for (i, bound) in lower.iter().enumerate() {
        if !in_order(*bound, upper[i]) {
            return false;
        }
    }
    true
}
