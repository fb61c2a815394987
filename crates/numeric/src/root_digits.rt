// The whole part of a root, digit by digit.
// That m lies in its range is a clause and no invariant: square_root makes m at one place, and a type for it would be named in four files.
#![tactic(auto)]

ghost use Rattle.std.specs.Prelude.{◌*◌, ◌/◌, ◌^◌, ◌≤◌, ◌<◌};
ghost use Rattle.ieee.specs.Squares.{IsRoot};

// 2^52, the weight of the exponent's field. Each file of the root has its own.
const HID: u64 = 1 << 52;

// The whole part of the root of m * 4^turns / 2^54, a digit a turn. q * q + rem is what has been taken of it.
pub fn digits(m: u64, turns: u64) -> u64
    requires { (m < 2 ^ 54) × (turns ≤ 54) }
    ensures { IsRoot (m * (2 ^ turns * 2 ^ turns) / 2 ^ 54) result }
{
    let mut q = 0;
    let mut rem = 0;
    let mut rest = m;
    for _ in 0..turns {
        rem = rem * 4 + rest / HID;
        rest = rest % HID * 4;
        let t = q * 4 + 1;
        q *= 2;
        if t <= rem {
            rem -= t;
            q += 1;
        }
    }
    q
}
