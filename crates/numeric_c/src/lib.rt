// The functions of `numeric` under names for C, for the comparison with the hardware's root.
#![tactic(auto)]

ghost use Rattle.std.specs.Prelude.{◌≡◌};
ghost use Rattle.std.specs.Float.{binary64};
ghost use Rattle.std.specs.Float.Ieee.Scale.{finite};
ghost use Rattle.ieee.specs.Numbers.{absolute, larger};
ghost use Rattle.ieee.specs.Root.{root};

#[unsafe(no_mangle)]
pub extern "C" fn numeric_sqrt(x: f64) -> f64
    ensures { result ≡ root binary64 x }
{
    numeric::sqrt(x)
}

#[unsafe(no_mangle)]
pub extern "C" fn numeric_abs(x: f64) -> f64
    ensures { result ≡ absolute x }
{
    numeric::abs(x)
}

#[unsafe(no_mangle)]
pub extern "C" fn numeric_max(a: f64, b: f64) -> f64
    ensures { result ≡ larger a b }
{
    numeric::max(a, b)
}

#[unsafe(no_mangle)]
pub extern "C" fn numeric_is_finite(x: f64) -> bool
    ensures { result ≡ finite x }
{
    numeric::is_finite(x)
}
