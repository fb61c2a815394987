// A float printed by its bits, behind what a line already holds.
// The put_.. are no Display: their contracts say the very text that goes behind what the buffer holds, which Display gives no caller.
#![tactic(auto)]

ghost use Rattle.arrayvec.specs.ArrayVec.{array_vec_len};
ghost use Rattle.std.specs.Float.Ieee.{to_bits};
ghost use Rattle.std.specs.Float.{binary64};
ghost use Rattle.std.specs.Prelude.{◌≡◌, ◌+◌, ◌≤◌, ◌++◌};
ghost use Rattle.words.specs.Printing.{float_word};

use crate::word_printing::put_digits;
use arrayvec::ArrayVec;

// The pattern that is printed for every NaN.
const QUIET: u64 = 0x7ff8_0000_0000_0000;

// The bits of a float; `f64::to_bits` asks that it is no NaN.
pub fn to_bits(x: f64) -> u64
    ensures { result ≡ to_bits binary64 x }
{
    if x.is_nan() {
        return QUIET;
    }
    x.to_bits()
}

// A float as 16 hexadecimal digits.
#[tactic(auto, unfolding(crate::specs::Printing::float_word))]
pub fn put_float<const N: usize>(x: f64, out: &mut ArrayVec<u8, N>)
    requires { array_vec_len out.old + 16 ≤ N }
    ensures text { out.new.items ≡ out.old.items ++ float_word x }
    ensures len { array_vec_len out.new ≡ array_vec_len out.old + 16 }
{
    put_digits(to_bits(x), 16, 16, out);
}
