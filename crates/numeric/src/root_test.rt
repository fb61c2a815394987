// The exact test of a root: whether a whole number is the nearest to it.
// That m lies in its range is a clause and no invariant: square_root makes m at one place, and a type for it would be named in four files.
#![tactic(auto)]

ghost use Rattle.std.specs.Prelude.{◌≡◌, true, false, ◌*◌, ◌^◌, ◌<◌};
ghost use Rattle.ieee.specs.Squares.{IsNear};

// Whether q is the whole number nearest to the root of m * 2^52, by its square.
pub fn is_nearest(m: u64, q: u64) -> bool
    requires { m < 2 ^ 54 }
    ensures { (result ≡ true → IsNear (m * 2 ^ 52) q) × (result ≡ false → IsNear (m * 2 ^ 52) q → ⊥) }
{
    let n = u128::from(m) << 52;
    let q = u128::from(q);
    let s = q * q;
    s < n + q && n <= s + q
}
