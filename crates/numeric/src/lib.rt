// Square root, absolute value, larger of two, and the test for a finite number, each as the engine's formulas ask.
#![tactic(auto)]

pub mod root_digits;
pub mod root_guess;
pub mod root_test;
pub mod square_root;

ghost use Rattle.std.specs.Prelude.{◌≡◌};
ghost use Rattle.std.specs.Float.{binary64};
ghost use Rattle.std.specs.Float.Ieee.Scale.{finite};
ghost use Rattle.ieee.specs.Numbers.{absolute, larger};
ghost use Rattle.ieee.specs.Root.{root};

use crate::square_root::root_bits;

// The pattern of -0: the bit of the sign.
const SIGN: u64 = 1 << 63;

const INFINITY: u64 = 0x7ff0_0000_0000_0000;

// The square root of IEEE 754: the nearest float, of -0 -0, of what is negative or a NaN a NaN. It is worked out from the bits, by a rule of
// the project; `f64::sqrt` is the processor's.
pub fn sqrt(x: f64) -> f64
    ensures { result ≡ root binary64 x }
{
    if x.is_nan() {
        return x;
    }
    let b = x.to_bits();
    if 0 < b && b < INFINITY {
        return f64::from_bits(root_bits(b));
    }
    if x == 0.0 {
        return x; // a zero with its sign
    }
    if b >= SIGN {
        return f64::NAN;
    }
    x
}

// The same number with the sign cleared, also of -0.
#[tactic(auto, using(crate::proofs::Signs::sign_cleared))]
pub fn abs(x: f64) -> f64
    ensures { result ≡ absolute x }
{
    x.abs()
}

// The larger of two; where one is a NaN the other; of two that are equal the first. Of 0 and -0 `f64::max` may answer either.
#[tactic(auto, using(ieee::proofs::Larger::larger_nan, ieee::proofs::Larger::larger_above, ieee::proofs::Larger::larger_else))]
pub fn max(a: f64, b: f64) -> f64
    ensures { result ≡ larger a b }
{
    if a.is_nan() || a < b { b } else { a }
}

// Neither an infinity nor a NaN: either of them minus itself is a NaN. The test is written out, by a rule of the project.
pub fn is_finite(x: f64) -> bool
    ensures { result ≡ finite x }
{
    x - x == 0.0
}
