// Four places at a time: what is tested and put at one place is so at each lane.
ghost use Rattle.std.specs.Prelude.{◌≡◌, length};
ghost use Rattle.constraints.specs.Box.{rectangle, rectangle_right};

use std::simd::Simd;
use std::simd::prelude::*;

// The box on four places.
pub(crate) fn clamp(lower: &[f64], upper: &[f64], v: &mut [f64])
    requires lowers { length lower.now ≡ 4 }
    requires uppers { length upper.now ≡ 4 }
    requires places { length v.old ≡ 4 }
    ensures { v.new ≡ rectangle lower.now upper.now v.old }
{
    let low: Simd<f64, 4> = Simd::from_slice(lower);
    let high: Simd<f64, 4> = Simd::from_slice(upper);
    let x: Simd<f64, 4> = Simd::from_slice(v);
    let at_most = high.simd_lt(x).select(high, x);
    x.simd_lt(low).select(low, at_most).copy_to_slice(v);
}

// Whether the bounds at four places are finite and in order.
pub(crate) fn in_order(lower: &[f64], upper: &[f64]) -> bool
    requires lowers { length lower.now ≡ 4 }
    requires uppers { length upper.now ≡ 4 }
    ensures { result ≡ rectangle_right lower.now upper.now }
{
    let low: Simd<f64, 4> = Simd::from_slice(lower);
    let high: Simd<f64, 4> = Simd::from_slice(upper);
    let least: Simd<f64, 4> = Simd::splat(f64::NEG_INFINITY);
    let most: Simd<f64, 4> = Simd::splat(f64::INFINITY);
    least.simd_lt(low).all() & low.simd_le(high).all() & high.simd_lt(most).all()
}
