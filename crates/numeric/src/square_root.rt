// The root of a number above zero, from its bit pattern: a guess, which no proof relies on, and an exact test of it.
// That m lies in its range is a clause and no invariant: `parts` makes it at one place, and a type for it would be named in four files.
#![tactic(auto)]

ghost use Rattle.std.specs.Prelude.{◌≡◌, not, ◌*◌, ◌^◌, ◌≤◌, ◌<◌, T};
ghost use Rattle.std.specs.Float.{binary64};
ghost use Rattle.std.specs.Float.Ieee.{of_bits, nan_bits};
ghost use Rattle.ieee.specs.Root.{root};
ghost use Rattle.ieee.specs.Squares.{IsNear};
ghost use Rattle.ieee.specs.Patterns.{Sized};

use crate::root_digits::digits;
use crate::root_guess::guess;
use crate::root_test::is_nearest;

// 2^52, the weight of the exponent's field. Each file of the root has its own.
const HID: u64 = 1 << 52;

#[derive(Drop)]
struct Scaled {
    m: u64,
    j: u64,
}

// The size of a number above zero as m * 2^54 * 4^j squares of the smallest value. A subnormal is shifted up at once, by an even count.
fn parts(b: u64) -> Scaled
    requires { (0 < b) × (b < 9218868437227405312) }
    ensures { (2 ^ 52 ≤ result.m) × (result.m < 18014398509481983) × (result.j ≤ 1532) × (Sized binary64 b result.m result.j) }
{
    if b < HID {
        let k = (b.leading_zeros() - 10) / 2;
        return Scaled {
            m: b << (2 * k),
            j: 510 - u64::from(k),
        };
    }
    let e = b / HID;
    let n = HID + b % HID;
    Scaled {
        m: if e % 2 == 0 { n * 2 } else { n },
        j: (e + 1019) / 2,
    }
}

// The whole number nearest to the root of m * 2^52: the guess or a neighbour of it where the test says so, else digit by digit.
fn nearest(m: u64) -> u64
    requires { (2 ^ 52 ≤ m) × (m < 18014398509481983) }
    ensures { IsNear (m * 2 ^ 52) result }
{
    let q = guess(m);
    if is_nearest(m, q) {
        return q;
    }
    if is_nearest(m, q + 1) {
        return q + 1;
    }
    let below = q.wrapping_sub(1);
    if is_nearest(m, below) {
        return below;
    }
    (digits(m, 54) + 1) / 2
}

// The pattern of the root, from the pattern of a number above zero.
pub fn root_bits(b: u64) -> u64
    requires { (0 < b) × (b < 9218868437227405312) }
    ensures { (T (not (nan_bits binary64 result))) × (of_bits binary64 result ≡ root binary64 (of_bits binary64 b)) }
{
    let Scaled { m, j } = parts(b);
    (j + 1) * HID + nearest(m)
}
